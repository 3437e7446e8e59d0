//! The contents and the order of an iceberg answer.
ghost use Rattle.std.specs.Prelude.{IsTrue, List, ℕ, ◌↔◌, ◌≡◌};
ghost use Rattle.std.specs.List.Sorted.{IsStrictlySortedBy};
ghost use Rattle.cube_defs.specs.Answers.{Ask, ClassHit, answer_cmp, passing_classes, iceberg, passes_bound, lower_bounds};
ghost use Rattle.cube_defs.specs.Rows.{Row, agg};
ghost use Rattle.cube_defs.specs.Tree.{classes};
ghost use Rattle.cube_laws.specs.Lists.{Among};

use super::values::Value;

/// An iceberg answer has exactly the upper bounds that pass. Each has its aggregate and its lower
/// bounds in cell order. Sorting loses none of them (own).
pub fn iceberg_has_the_classes_that_pass<V: Value>()
    ensures sorted { (measures : ℕ) (rows : List (Row V)) (ask : Ask) (hit : ClassHit V) →
        Among hit (iceberg V.cmp measures rows ask)
        ↔ Among hit (passing_classes V.cmp measures rows ask) }
    ensures asked { (measures : ℕ) (rows : List (Row V)) (ask : Ask) (hit : ClassHit V) →
        Among hit (passing_classes V.cmp measures rows ask)
        ↔ (Among hit.upper (classes V.cmp rows) × IsTrue (passes_bound ask hit.agg)
        × (hit.agg ≡ agg V.eq measures rows hit.upper)
        × (hit.lowers ≡ lower_bounds V.cmp rows hit.upper)) }
{}

/// An iceberg answer is in the order of values, falling or rising as asked, and in cell order for
/// equal values. No other list of the same classes is in this order (own).
pub fn iceberg_is_in_order<V: Value>()
    ensures in_order { (measures : ℕ) (rows : List (Row V)) (ask : Ask) →
        IsStrictlySortedBy (answer_cmp V.cmp ask) (iceberg V.cmp measures rows ask) }
    ensures only_one { (measures : ℕ) (rows : List (Row V)) (ask : Ask) (hits : List (ClassHit V)) →
        IsStrictlySortedBy (answer_cmp V.cmp ask) hits →
        ((hit : ClassHit V) → Among hit hits ↔ Among hit (passing_classes V.cmp measures rows ask))
        →
        hits ≡ iceberg V.cmp measures rows ask }
{}
