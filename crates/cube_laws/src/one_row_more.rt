//! The changes by one more row: `xs ++ ys` are the other rows, and `xs ++ r ∷ ys` are they and r.
//! Read backwards, they are the changes by one row less.
ghost use Rattle.std.specs.Prelude.{IsTrue, List, [], false, pos, slice_index_or, suc, ℕ, ◌++◌, ◌+ℤ◌, ◌-ℤ◌, ◌<◌, ◌∷◌, ◌≡◌};
ghost use Rattle.cube_defs.specs.Answers.{part};
ghost use Rattle.cube_defs.specs.Cell.{Cell, cell_of, meet};
ghost use Rattle.cube_defs.specs.Rows.{Row, agg, agg_of, closure, cov, covers, is_class, is_node};
ghost use Rattle.cube_laws.specs.Counts.{count};
ghost use Rattle.cube_laws.specs.Total.{combine};
ghost use Rattle.std.specs.Int.{int_max, int_min};

use super::values::Value;

/// The closure of a cell after a row is inserted. It is unchanged if the cell doesn't cover the
/// row. It is the row's tuple if the cell covers no other row. Else it is the meet of the old
/// closure and the tuple (own).
pub fn closure_with_one_row_more<V: Value>()
    ensures apart { (xs ys : List (Row V)) (r : Row V) (c : Cell V) → covers V.eq c r ≡ false →
        closure V.eq (xs ++ r ∷ ys) c ≡ closure V.eq (xs ++ ys) c }
    ensures alone { (xs ys : List (Row V)) (r : Row V) (c : Cell V) → IsTrue (covers V.eq c r) →
        closure V.eq (xs ++ ys) c ≡ None → closure V.eq (xs ++ r ∷ ys) c ≡ Some (cell_of r.tuple) }
    ensures with_others { (xs ys : List (Row V)) (r : Row V) (c u : Cell V) →
        IsTrue (covers V.eq c r) →
        closure V.eq (xs ++ ys) c ≡ Some u →
        closure V.eq (xs ++ r ∷ ys) c ≡ Some (meet V.eq u (cell_of r.tuple)) }
{}

/// A cell that doesn't cover the row covers the same rows as before. It is an upper bound or a node
/// if and only if it was before (own).
pub fn what_does_not_cover_the_row_stays<V: Value>()
    ensures rows { (xs ys : List (Row V)) (r : Row V) (c : Cell V) → covers V.eq c r ≡ false →
        cov V.eq (xs ++ r ∷ ys) c ≡ cov V.eq (xs ++ ys) c }
    ensures classes { (xs ys : List (Row V)) (r : Row V) (u : Cell V) → covers V.eq u r ≡ false →
        is_class V.eq (xs ++ r ∷ ys) u ≡ is_class V.eq (xs ++ ys) u }
    ensures nodes { (xs ys : List (Row V)) (r : Row V) (p : Cell V) → covers V.eq p r ≡ false →
        is_node V.eq (xs ++ r ∷ ys) p ≡ is_node V.eq (xs ++ ys) p }
{}

/// The aggregate of a cell after a row is inserted. It is unchanged if the cell doesn't cover the
/// row. It is the row's aggregate if the cell covers no other row. Else both are combined: COUNT
/// and SUM are added, and the lesser MIN and the greater MAX are taken (own).
pub fn aggregate_with_one_row_more<V: Value>()
    ensures apart { (measures : ℕ) (xs ys : List (Row V)) (r : Row V) (c : Cell V) →
        covers V.eq c r ≡ false →
        agg V.eq measures (xs ++ r ∷ ys) c ≡ agg V.eq measures (xs ++ ys) c }
    ensures alone { (measures : ℕ) (xs ys : List (Row V)) (r : Row V) (c : Cell V) →
        IsTrue (covers V.eq c r) → closure V.eq (xs ++ ys) c ≡ None →
        agg V.eq measures (xs ++ r ∷ ys) c ≡ agg_of measures (r ∷ []) }
    ensures with_others { (measures : ℕ) (xs ys : List (Row V)) (r : Row V) (c u : Cell V) →
        IsTrue (covers V.eq c r) → closure V.eq (xs ++ ys) c ≡ Some u →
        agg V.eq measures (xs ++ r ∷ ys) c
        ≡ combine (agg_of measures (r ∷ [])) (agg V.eq measures (xs ++ ys) c) }
{}

/// The measures of a cell that covers the row and others. COUNT is one more, and SUM is more by the
/// amount. MIN and MAX are the lesser and the greater of the amount and the others' (own).
pub fn measures_with_one_row_more<V: Value>()
    ensures count { (measures : ℕ) (xs ys : List (Row V)) (r : Row V) (c : Cell V) →
        IsTrue (covers V.eq c r) →
        (agg V.eq measures (xs ++ r ∷ ys) c).count ≡ suc (agg V.eq measures (xs ++ ys) c).count }
    ensures sum { (measures m : ℕ) (xs ys : List (Row V)) (r : Row V) (c u : Cell V) →
        m < measures →
        IsTrue (covers V.eq c r) → closure V.eq (xs ++ ys) c ≡ Some u →
        (part (agg V.eq measures (xs ++ r ∷ ys) c) m).sum
        ≡ (slice_index_or r.amounts m (pos 0) +ℤ (part (agg V.eq measures (xs ++ ys) c) m).sum) }
    ensures least { (measures m : ℕ) (xs ys : List (Row V)) (r : Row V) (c u : Cell V) →
        m < measures →
        IsTrue (covers V.eq c r) → closure V.eq (xs ++ ys) c ≡ Some u →
        (part (agg V.eq measures (xs ++ r ∷ ys) c) m).least
        ≡ int_min (slice_index_or r.amounts m (pos 0))
        (part (agg V.eq measures (xs ++ ys) c) m).least }
    ensures greatest { (measures m : ℕ) (xs ys : List (Row V)) (r : Row V) (c u : Cell V) →
        m < measures →
        IsTrue (covers V.eq c r) → closure V.eq (xs ++ ys) c ≡ Some u →
        (part (agg V.eq measures (xs ++ r ∷ ys) c) m).greatest
        ≡ int_max (slice_index_or r.amounts m (pos 0))
        (part (agg V.eq measures (xs ++ ys) c) m).greatest }
{}

/// The measures of a cell that covers the deleted row and others. SUM is less by the amount. MIN
/// and MAX are unchanged if the amount wasn't equal to them (own).
pub fn measures_with_one_row_less<V: Value>()
    ensures sum { (measures m : ℕ) (xs ys : List (Row V)) (r : Row V) (c u : Cell V) →
        m < measures →
        IsTrue (covers V.eq c r) → closure V.eq (xs ++ ys) c ≡ Some u →
        (part (agg V.eq measures (xs ++ ys) c) m).sum
        ≡ ((part (agg V.eq measures (xs ++ r ∷ ys) c) m).sum -ℤ slice_index_or
        r.amounts m (pos 0)) }
    ensures least { (measures m : ℕ) (xs ys : List (Row V)) (r : Row V) (c u : Cell V) →
        m < measures →
        IsTrue (covers V.eq c r) → closure V.eq (xs ++ ys) c ≡ Some u →
        ((part (agg V.eq measures (xs ++ r ∷ ys) c) m).least ≡ slice_index_or r.amounts m (pos 0) →
        ⊥) →
        (part (agg V.eq measures (xs ++ ys) c) m).least
        ≡ (part (agg V.eq measures (xs ++ r ∷ ys) c) m).least }
    ensures greatest { (measures m : ℕ) (xs ys : List (Row V)) (r : Row V) (c u : Cell V) →
        m < measures →
        IsTrue (covers V.eq c r) → closure V.eq (xs ++ ys) c ≡ Some u →
        ((part (agg V.eq measures (xs ++ r ∷ ys) c) m).greatest
        ≡ slice_index_or r.amounts m (pos 0) → ⊥) →
        (part (agg V.eq measures (xs ++ ys) c) m).greatest
        ≡ (part (agg V.eq measures (xs ++ r ∷ ys) c) m).greatest }
{}
