//! The upper bounds of the classes: the cells that are their own closures.
ghost use Rattle.std.specs.Prelude.{IsTrue, List, length, ℕ, ◌++◌, ◌↔◌, ◌∷◌, ◌≡◌};
ghost use Rattle.cube_defs.specs.Cell.{Cell, cell_of, depth, cell_prefix};
ghost use Rattle.cube_defs.specs.Rows.{Row, covers, is_class, is_node, meet_all};
ghost use Rattle.cube_laws.specs.Lists.{Among};
ghost use Rattle.cube_laws.specs.Tuples.{cells_of};

use super::values::Value;

/// The upper bounds are exactly the meets of one or more rows (Lakshmanan, Pei, Han, VLDB 2002).
pub fn upper_bounds_are_meets_of_rows<V: Value>()
    ensures meets { (rows some : List (Row V)) (u : Cell V) →
        ((r : Row V) → Among r some → Among r rows) →
        meet_all V.eq (cells_of some) ≡ Some u → IsTrue (is_class V.eq rows u) }
    ensures no_others { (rows : List (Row V)) (u : Cell V) → IsTrue (is_class V.eq rows u) →
        (some : List (Row V)) × ((r : Row V) → Among r some → Among r rows)
        × (meet_all V.eq (cells_of some) ≡ Some u) }
{}

/// The nodes are exactly the prefixes of the upper bounds (Lakshmanan, Pei, Zhao, SIGMOD 2003).
pub fn nodes_are_prefixes_of_upper_bounds<V: Value>()
    ensures fronts { (rows : List (Row V)) (n : ℕ) (u : Cell V) →
        IsTrue (is_class V.eq rows u) → IsTrue (is_node V.eq rows (cell_prefix n u)) }
    ensures no_others { (rows : List (Row V)) (p : Cell V) → IsTrue (is_node V.eq rows p) →
        (u : Cell V) × IsTrue (is_class V.eq rows u) × (cell_prefix (depth p) u ≡ p) }
{}

/// An inserted row removes no upper bound and no node, wherever it stands. So a deleted row adds
/// none (own).
pub fn upper_bounds_stay_as_a_row_comes<V: Value>()
    ensures classes { (xs ys : List (Row V)) (r : Row V) (u : Cell V) →
        IsTrue (is_class V.eq (xs ++ ys) u) → IsTrue (is_class V.eq (xs ++ r ∷ ys) u) }
    ensures nodes { (xs ys : List (Row V)) (r : Row V) (p : Cell V) →
        IsTrue (is_node V.eq (xs ++ ys) p) → IsTrue (is_node V.eq (xs ++ r ∷ ys) p) }
{}

/// The tuple of a row is an upper bound, the most specific one that covers the row. It covers only
/// the rows of this tuple (own).
pub fn tuples_of_rows_are_upper_bounds<V: Value>()
    ensures upper_bound { (rows : List (Row V)) (r : Row V) → Among r rows →
        IsTrue (is_class V.eq rows (cell_of r.tuple)) }
    ensures alone { (t : List V) (r : Row V) → length t ≡ length r.tuple →
        IsTrue (covers V.eq (cell_of t) r) ↔ (t ≡ r.tuple) }
{}
