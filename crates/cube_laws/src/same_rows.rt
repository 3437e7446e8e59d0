//! Rows with the same tuples, in any order and with any repetition.
ghost use Rattle.std.specs.Prelude.{List, ℕ, ◌++◌, ◌∷◌, ◌≡◌};
ghost use Rattle.cube_defs.specs.Cell.{Cell};
ghost use Rattle.cube_defs.specs.Rows.{Row, agg, closure, is_class, is_node};
ghost use Rattle.cube_defs.specs.Tree.{classes, covered, nodes};
ghost use Rattle.cube_laws.specs.Lists.{Among, Reordered};
ghost use Rattle.cube_laws.specs.Tuples.{TuplesAmong};

use super::values::Value;

/// Rows with the same tuples have the same closures, upper bounds and nodes (own).
pub fn order_and_repetition_of_rows<V: Value>()
    ensures closures { (rows more : List (Row V)) (c : Cell V) → TuplesAmong rows more →
        TuplesAmong more rows →
        closure V.eq rows c ≡ closure V.eq more c }
    ensures classes { (rows more : List (Row V)) (u : Cell V) → TuplesAmong rows more →
        TuplesAmong more rows →
        is_class V.eq rows u ≡ is_class V.eq more u }
    ensures nodes { (rows more : List (Row V)) (p : Cell V) → TuplesAmong rows more →
        TuplesAmong more rows →
        is_node V.eq rows p ≡ is_node V.eq more p }
{}

/// The aggregate of a cell doesn't depend on the order of the rows (own).
pub fn aggregates_in_any_order<V: Value>()
    ensures { (measures : ℕ) (rows more : List (Row V)) (c : Cell V) → Reordered rows more →
        agg V.eq measures more c ≡ agg V.eq measures rows c }
{}

/// Rows with the same tuples have the same lists, in cell order, of covered cells, upper bounds and
/// nodes (own).
pub fn lists_of_cells_in_order<V: Value>()
    ensures covered { (rows more : List (Row V)) → TuplesAmong rows more → TuplesAmong more rows →
        covered V.cmp rows ≡ covered V.cmp more }
    ensures classes { (rows more : List (Row V)) → TuplesAmong rows more → TuplesAmong more rows →
        classes V.cmp rows ≡ classes V.cmp more }
    ensures nodes { (rows more : List (Row V)) → TuplesAmong rows more → TuplesAmong more rows →
        nodes V.cmp rows ≡ nodes V.cmp more }
{}

/// If another row has the same tuple, inserting or deleting a row changes no closure, and so no
/// upper bound and no node (own).
pub fn second_row_of_a_tuple<V: Value>()
    ensures { (xs ys : List (Row V)) (r s : Row V) (c : Cell V) → Among s (xs ++ ys) →
        s.tuple ≡ r.tuple →
        closure V.eq (xs ++ r ∷ ys) c ≡ closure V.eq (xs ++ ys) c }
{}
