//! What stays when a row is inserted or deleted: `xs ++ ys` are the other rows, and `xs ++ r ∷ ys`
//! are they and r.
ghost use Rattle.std.specs.Prelude.{IsTrue, List, Some, false, ℕ, ◌++◌, ◌∷◌, ◌≡◌};
ghost use Rattle.std.specs.Ordering.{eq_by_cmp};
ghost use Rattle.cube_defs.specs.Cell.{Cell};
ghost use Rattle.cube_defs.specs.Rows.{Row, covers, is_node};
ghost use Rattle.cube_defs.specs.Tree.{Edge, Node, node_of};
ghost use Rattle.cube_laws.specs.Lists.{Among};

use cube_laws::values::Value;

/// A node that doesn't cover the row keeps its whole record, with the cells of its targets (own).
pub fn record_apart_from_a_row_stays<V: Value>()
    ensures { (measures : ℕ) (xs ys : List (Row V)) (r : Row V) (p : Cell V)
        → covers (eq_by_cmp V.cmp) p r ≡ false →
        node_of V.cmp measures (xs ++ r ∷ ys) p ≡ node_of V.cmp measures (xs ++ ys) p }
{}

/// All targets of a node's edges are nodes. If the node doesn't cover a row, its targets don't
/// either (own).
pub fn targets_of_edges<V: Value>()
    ensures nodes { (measures : ℕ) (rows : List (Row V)) (p : Cell V) (n : Node V (Cell V))
        (x : Edge V (Cell V)) →
        IsTrue (is_node (eq_by_cmp V.cmp) rows p) → node_of V.cmp measures rows p ≡ Some n →
        Among x n.edges → IsTrue (is_node (eq_by_cmp V.cmp) rows x.target) }
    ensures apart { (measures : ℕ) (rows : List (Row V)) (r : Row V) (p : Cell V)
        (n : Node V (Cell V)) (x : Edge V (Cell V)) →
        IsTrue (is_node (eq_by_cmp V.cmp) rows p) → node_of V.cmp measures rows p ≡ Some n →
        covers (eq_by_cmp V.cmp) p r ≡ false → Among x n.edges
        → covers (eq_by_cmp V.cmp) x.target r ≡ false }
{}
