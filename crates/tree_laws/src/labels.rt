//! The targets of the labels of a node. Nodes, tree edges and links are those of Lakshmanan, Pei,
//! Zhao, SIGMOD 2003. The choice of links is this project's own.
ghost use Rattle.std.specs.Prelude.{IsTrue, List, Some, length, slice_get, suc, ℕ, ◌<◌, ◌≤◌, ◌↔◌, ◌≡◌};
ghost use Rattle.std.specs.List.Sorted.{IsStrictlySortedBy};
ghost use Rattle.std.specs.Ordering.{eq_by_cmp};
ghost use Rattle.cube_defs.specs.Cell.{Cell, depth, cell_prefix, leq, with_value};
ghost use Rattle.cube_defs.specs.Rows.{Row, closure, is_node};
ghost use Rattle.cube_defs.specs.Tree.{Edge, Node, next_value, node_of};
ghost use Rattle.cube_laws.specs.Lists.{Among};
ghost use Rattle.tree_laws.specs.Edges.{edge_cmp};
ghost use Rattle.tree_laws.specs.Labels.{IsLabel, target_of_label};

use cube_laws::values::Value;

/// The edges of a node are exactly its labels that have a target, from its last value up to the
/// next value of its closure.
pub fn edges_are_the_labels_that_lead_somewhere<V: Value>()
    ensures { (measures : ℕ) (rows : List (Row V)) (p u : Cell V) (n : Node V (Cell V))
        (x : Edge V (Cell V)) →
        IsTrue (is_node (eq_by_cmp V.cmp) rows p) → closure (eq_by_cmp V.cmp) rows p ≡ Some u →
        node_of V.cmp measures rows p ≡ Some n →
        Among x n.edges ↔ IsLabel V.cmp rows p (next_value V.cmp (depth p) u) x }
{}

/// The edges of a record rise by dimension and then by value. So no label occurs twice.
pub fn edges_are_in_order<V: Value>()
    ensures { (measures : ℕ) (rows : List (Row V)) (p : Cell V) (n : Node V (Cell V)) →
        node_of V.cmp measures rows p ≡ Some n → IsStrictlySortedBy (edge_cmp V.cmp) n.edges }
{}

/// A label leads to a node that has the values of the node and of the label.
pub fn labels_lead_to_specializations<V: Value>()
    ensures node { (rows : List (Row V)) (p c : Cell V) (i : ℕ) (v : V) →
        target_of_label (eq_by_cmp V.cmp) rows p i v ≡ Some c
        → IsTrue (is_node (eq_by_cmp V.cmp) rows c) }
    ensures above { (rows : List (Row V)) (p c : Cell V) (i : ℕ) (v : V) → depth p ≤ i
        → i < length p →
        target_of_label (eq_by_cmp V.cmp) rows p i v ≡ Some c
        → IsTrue (leq (eq_by_cmp V.cmp) (with_value p i v) c) }
{}

/// Each prefix of a node is a node. Each node but the root is the target of its last value's label,
/// at the node without this value.
pub fn nodes_hang_together<V: Value>()
    ensures fronts { (rows : List (Row V)) (p : Cell V) (k : ℕ) →
        IsTrue (is_node (eq_by_cmp V.cmp) rows p)
        → IsTrue (is_node (eq_by_cmp V.cmp) rows (cell_prefix k p)) }
    ensures led_to { (rows : List (Row V)) (p : Cell V) (i : ℕ) →
        depth p ≡ suc i → IsTrue (is_node (eq_by_cmp V.cmp) rows p) →
        (v : V) × (p ≡ with_value (cell_prefix i p) i v)
        × (target_of_label (eq_by_cmp V.cmp) rows (cell_prefix i p) i v ≡ Some p) }
{}

/// The cell of a node with one value more is a node if and only if that label leads to it. Its
/// dimension is at most that of the closure's next value. If the closure has a value there, it is
/// the same value.
pub fn children_of_a_node<V: Value>()
    ensures led_to { (rows : List (Row V)) (p : Cell V) (i : ℕ) (v : V) → depth p ≤ i
        → i < length p →
        IsTrue (is_node (eq_by_cmp V.cmp) rows (with_value p i v))
        ↔ (target_of_label (eq_by_cmp V.cmp) rows p i v ≡ Some (with_value p i v)) }
    ensures before { (rows : List (Row V)) (p u : Cell V) (i : ℕ) (v : V) →
        IsTrue (is_node (eq_by_cmp V.cmp) rows p) → closure (eq_by_cmp V.cmp) rows p ≡ Some u →
        depth p ≤ i → i < length p → IsTrue (is_node (eq_by_cmp V.cmp) rows (with_value p i v)) →
        i ≤ next_value V.cmp (depth p) u }
    ensures forced { (rows : List (Row V)) (p u : Cell V) (i : ℕ) (v w : V)
        → closure (eq_by_cmp V.cmp) rows p ≡ Some u →
        depth p ≤ i → i < length p → IsTrue (is_node (eq_by_cmp V.cmp) rows (with_value p i v)) →
        slice_get u i ≡ Some (Some w) → v ≡ w }
{}
