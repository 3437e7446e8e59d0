//! Recoding replaces the values of each dimension by others, such as texts by codes. If no two
//! known values of a dimension have one code, the tree over the codes is the tree over the values.
//! All of it is this project's own.
ghost use Rattle.std.specs.List.{AllByRecursion};
ghost use Rattle.std.specs.Ordering.{eq_by_cmp};
ghost use Rattle.std.specs.Prelude.{Bool, IsTrue, List, Some, length, map, ℕ, ◌≡◌};
ghost use Rattle.cube_defs.specs.Answers.{lower_bounds};
ghost use Rattle.cube_defs.specs.Cell.{Cell};
ghost use Rattle.cube_defs.specs.Rows.{Row, is_node};
ghost use Rattle.cube_defs.specs.Tree.{Node, classes, links, node_of, nodes, tree_edges};
ghost use Rattle.cube_laws.specs.Recoding.{AreKnown, RowsAreKnown, TellsApart, coded_cell, coded_row};
ghost use Rattle.tree_laws.specs.Edges.{IsCodedNode};

use cube_laws::values::Value;

/// The record of a node's code among coded rows is the node's record in codes. Its edges are in the
/// order of the codes.
pub fn records_under_recoding<A: Value, B: Value>()
    ensures { (known : ℕ → A → Bool) (codes : ℕ → A → B) → TellsApart known codes →
        (measures : ℕ) (rows : List (Row A)) (p : Cell A) (n : Node A (Cell A)) →
        RowsAreKnown known rows → IsTrue (is_node (eq_by_cmp A.cmp) rows p) →
        node_of A.cmp measures rows p ≡ Some n →
        (m : Node B (Cell B)) × (node_of B.cmp measures (map (coded_row codes) rows)
        (coded_cell codes 0 p) ≡ Some m) × IsCodedNode codes n m }
{}

/// Coded rows have as many classes, nodes, tree edges and links as the rows have.
pub fn counts_under_recoding<A: Value, B: Value>()
    ensures classes { (known : ℕ → A → Bool) (codes : ℕ → A → B) → TellsApart known codes →
        (rows : List (Row A)) → RowsAreKnown known rows →
        length (classes B.cmp (map (coded_row codes) rows)) ≡ length (classes A.cmp rows) }
    ensures nodes { (known : ℕ → A → Bool) (codes : ℕ → A → B) → TellsApart known codes →
        (rows : List (Row A)) → RowsAreKnown known rows →
        length (nodes B.cmp (map (coded_row codes) rows)) ≡ length (nodes A.cmp rows) }
    ensures tree_edges { (known : ℕ → A → Bool) (codes : ℕ → A → B) → TellsApart known codes →
        (rows : List (Row A)) → RowsAreKnown known rows →
        tree_edges B.cmp (map (coded_row codes) rows) ≡ tree_edges A.cmp rows }
    ensures links { (known : ℕ → A → Bool) (codes : ℕ → A → B) → TellsApart known codes →
        (rows : List (Row A)) → RowsAreKnown known rows →
        links B.cmp (map (coded_row codes) rows) ≡ links A.cmp rows }
{}

/// The lower bounds of a coded class are the codes of the class's lower bounds, in the same order.
/// Each has values of the class alone.
pub fn lower_bounds_under_recoding<A: Value, B: Value>()
    ensures { (known : ℕ → A → Bool) (codes : ℕ → A → B) → TellsApart known codes →
        (dims : ℕ) (rows : List (Row A)) (u : Cell A) → RowsAreKnown known rows →
        AllByRecursion (λ row. length row.tuple ≡ dims) rows → AreKnown known 0 u
        → length u ≡ dims →
        lower_bounds B.cmp (map (coded_row codes) rows) (coded_cell codes 0 u)
        ≡ map (coded_cell codes 0) (lower_bounds A.cmp rows u) }
{}
