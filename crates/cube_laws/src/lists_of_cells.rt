//! The contents and the order of the lists of cells and of a range answer.
ghost use Rattle.std.specs.Prelude.{IsTrue, List, length, ℕ, ◌↔◌, ◌≡◌};
ghost use Rattle.std.specs.List.Sorted.{IsStrictlySortedBy};
ghost use Rattle.cube_defs.specs.Answers.{Box, Hit, in_box, lower_bounds, range};
ghost use Rattle.cube_defs.specs.Cell.{Cell, cell_cmp};
ghost use Rattle.cube_defs.specs.Rows.{Row, agg, closure, covers, is_class, is_lower_bound, is_node};
ghost use Rattle.cube_defs.specs.Tree.{classes, covered, nodes};
ghost use Rattle.cube_laws.specs.Lists.{Among};
ghost use Rattle.std.specs.Ordering.{on};

use super::values::Value;

/// The list of covered cells has exactly the cells that cover a row and have as many dimensions as
/// the row (own).
pub fn covered_cells_are_listed<V: Value>()
    ensures { (rows : List (Row V)) (c : Cell V) →
        Among c (covered V.cmp rows)
        ↔ ((r : Row V) × Among r rows × (length c ≡ length r.tuple) × IsTrue (covers V.eq c r)) }
{}

/// Among rows of n dimensions, the lists of upper bounds and of nodes have exactly the upper bounds
/// and the nodes (own).
pub fn upper_bounds_and_nodes_are_listed<V: Value>()
    ensures upper_bounds { (n : ℕ) (rows : List (Row V)) (u : Cell V) →
        ((r : Row V) → Among r rows → length r.tuple ≡ n) →
        Among u (classes V.cmp rows) ↔ IsTrue (is_class V.eq rows u) }
    ensures nodes { (n : ℕ) (rows : List (Row V)) (p : Cell V) →
        ((r : Row V) → Among r rows → length r.tuple ≡ n) →
        Among p (nodes V.cmp rows) ↔ IsTrue (is_node V.eq rows p) }
{}

/// Among rows of n dimensions, the list of lower bounds of u has exactly its lower bounds of n
/// dimensions (own).
pub fn lower_bounds_are_listed<V: Value>()
    ensures { (n : ℕ) (rows : List (Row V)) (u c : Cell V) →
        ((r : Row V) → Among r rows → length r.tuple ≡ n) →
        Among c (lower_bounds V.cmp rows u)
        ↔ ((length c ≡ n) × IsTrue (is_lower_bound V.eq rows u c)) }
{}

/// Among rows of n dimensions, a range answer has exactly the cells of n dimensions in the box that
/// cover a row. Each has its aggregate (own).
pub fn range_has_the_covered_cells_of_the_box<V: Value>()
    ensures { (n measures : ℕ) (rows : List (Row V)) (box : Box V) (hit : Hit V) →
        ((r : Row V) → Among r rows → length r.tuple ≡ n) →
        Among hit (range V.cmp measures rows box)
        ↔ ((length hit.cell ≡ n) × IsTrue (in_box V.eq box hit.cell)
        × ((u : Cell V) × (closure V.eq rows hit.cell ≡ Some u))
        × (hit.agg ≡ agg V.eq measures rows hit.cell)) }
{}

/// The lists of covered cells, of upper bounds, of nodes and of lower bounds rise in cell order, as
/// do the cells of a range answer. No other list of the same cells does (own).
pub fn lists_are_in_cell_order<V: Value>()
    ensures covered { (rows : List (Row V))
        → IsStrictlySortedBy (cell_cmp V.cmp) (covered V.cmp rows) }
    ensures upper_bounds { (rows : List (Row V))
        → IsStrictlySortedBy (cell_cmp V.cmp) (classes V.cmp rows) }
    ensures nodes { (rows : List (Row V)) → IsStrictlySortedBy (cell_cmp V.cmp) (nodes V.cmp rows) }
    ensures lower_bounds { (rows : List (Row V)) (u : Cell V) →
        IsStrictlySortedBy (cell_cmp V.cmp) (lower_bounds V.cmp rows u) }
    ensures range { (measures : ℕ) (rows : List (Row V)) (box : Box V) →
        IsStrictlySortedBy (on (λ hit. hit.cell) (cell_cmp V.cmp)) (range V.cmp measures rows box) }
    ensures only_one { (cells more : List (Cell V)) → IsStrictlySortedBy (cell_cmp V.cmp) cells →
        IsStrictlySortedBy (cell_cmp V.cmp) more →
        ((c : Cell V) → Among c cells → Among c more) →
        ((c : Cell V) → Among c more → Among c cells) → cells ≡ more }
{}
