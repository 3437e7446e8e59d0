//! The changes at the nodes that cover an inserted or deleted row: `xs ++ ys` are the other rows,
//! and `xs ++ r ∷ ys` are they and r. All of it is this project's own.
ghost use Rattle.std.specs.Option.{option_map};
ghost use Rattle.std.specs.Ordering.{eq_by_cmp};
ghost use Rattle.std.specs.Prelude.{IsTrue, List, None, Some, length, min, slice_get, ℕ, ◌++◌, ◌<◌, ◌≤◌, ◌↔◌, ◌∷◌, ◌≡◌, ◌≢◌};
ghost use Rattle.cube_defs.specs.Cell.{Cell, cell_of, depth, cell_prefix, leq, meet, upto};
ghost use Rattle.cube_defs.specs.Rows.{Row, closure, covers, is_node};
ghost use Rattle.cube_defs.specs.Tree.{Edge, next_value};
ghost use Rattle.cube_laws.specs.Lists.{Among};
ghost use Rattle.tree_laws.specs.Labels.{IsWithin, first_new, target_of_label, target_after_row, record_of};

use cube_laws::values::Value;

/// If a label's value isn't the row's, its target stays. The label with the row's value leads to
/// what the old target and the row share. If there was no target, it leads to the row's prefix.
pub fn labels_with_one_row_more<V: Value>()
    ensures other { (xs ys : List (Row V)) (r : Row V) (p : Cell V) (i : ℕ) (v : V)
        → IsTrue (covers (eq_by_cmp V.cmp) p r) →
        depth p ≤ i → i < length p → slice_get r.tuple i ≢ Some v →
        target_of_label (eq_by_cmp V.cmp) (xs ++ r ∷ ys) p i v ≡ target_of_label (eq_by_cmp V.cmp)
        (xs ++ ys) p i v }
    ensures own { (xs ys : List (Row V)) (r : Row V) (p : Cell V) (i : ℕ) (v : V)
        → IsTrue (covers (eq_by_cmp V.cmp) p r) →
        depth p ≤ i → i < length p → slice_get r.tuple i ≡ Some v →
        target_of_label (eq_by_cmp V.cmp) (xs ++ r ∷ ys) p i v
        ≡ Some (target_after_row (eq_by_cmp V.cmp)
        (target_of_label (eq_by_cmp V.cmp) (xs ++ ys) p i v) (cell_of r.tuple) i) }
{}

/// In each later dimension, a node has the same labels as the prefix of its closure before that
/// dimension. The record of that prefix has them.
pub fn labels_along_the_closure<V: Value>()
    ensures same { (rows : List (Row V)) (p u : Cell V) (i : ℕ) (v : V)
        → closure (eq_by_cmp V.cmp) rows p ≡ Some u →
        depth p ≤ i → i < length p → i < length u →
        target_of_label (eq_by_cmp V.cmp) rows p i v ≡ target_of_label (eq_by_cmp V.cmp) rows
        (cell_prefix i u) i v }
    ensures record { (measures : ℕ) (rows : List (Row V)) (p u : Cell V) (x : Edge V (Cell V)) →
        closure (eq_by_cmp V.cmp) rows p ≡ Some u → depth p ≤ x.dim → x.dim < length u →
        Among x (record_of V.cmp measures rows (cell_prefix x.dim u) u).edges
        ↔ (target_of_label (eq_by_cmp V.cmp) rows (cell_prefix x.dim u) x.dim x.value
        ≡ Some x.target) }
    ensures own { (xs ys : List (Row V)) (r : Row V) (p u : Cell V) (i : ℕ)
        → closure (eq_by_cmp V.cmp) (xs ++ ys) p ≡ Some u →
        cell_prefix (depth p) (meet (eq_by_cmp V.cmp) u (cell_of r.tuple)) ≡ p →
        depth p ≤ i → i ≤ next_value V.cmp (depth p) (meet (eq_by_cmp V.cmp) u (cell_of r.tuple)) →
        IsTrue (covers (eq_by_cmp V.cmp) (cell_prefix i u) r) → cell_prefix i u ≡ p }
{}

/// The edges of a node's record after an insertion. They follow from the old record at the prefix
/// of the node's old closure before the edge's dimension. If the value isn't the row's, the edge is
/// that record's. If it is, the edge leads to what the old target and the row share.
pub fn edges_with_one_row_more<V: Value>()
    ensures other { (measures : ℕ) (xs ys : List (Row V)) (r : Row V) (p u : Cell V)
        (x : Edge V (Cell V)) →
        IsTrue (covers (eq_by_cmp V.cmp) p r) → closure (eq_by_cmp V.cmp) (xs ++ ys) p ≡ Some u →
        IsTrue (is_node (eq_by_cmp V.cmp) (xs ++ r ∷ ys) p) → length p ≡ length u →
        slice_get r.tuple x.dim ≢ Some x.value →
        let w = meet (eq_by_cmp V.cmp) u (cell_of r.tuple) in
        Among x (record_of V.cmp measures (xs ++ r ∷ ys) p w).edges
        ↔ (IsWithin p (next_value V.cmp (depth p) w) x.dim
        × Among x (record_of V.cmp measures (xs ++ ys) (cell_prefix x.dim u) u).edges) }
    ensures own { (measures : ℕ) (xs ys : List (Row V)) (r : Row V) (p u : Cell V)
        (x : Edge V (Cell V)) →
        IsTrue (covers (eq_by_cmp V.cmp) p r) → closure (eq_by_cmp V.cmp) (xs ++ ys) p ≡ Some u →
        IsTrue (is_node (eq_by_cmp V.cmp) (xs ++ r ∷ ys) p) → length p ≡ length u →
        slice_get r.tuple x.dim ≡ Some x.value →
        let w = meet (eq_by_cmp V.cmp) u (cell_of r.tuple) in
        Among x (record_of V.cmp measures (xs ++ r ∷ ys) p w).edges
        ↔ (IsWithin p (next_value V.cmp (depth p) w) x.dim × (target_after_row (eq_by_cmp V.cmp)
        (target_of_label (eq_by_cmp V.cmp) (xs ++ ys) (cell_prefix x.dim u) x.dim x.value)
        (cell_of r.tuple) x.dim ≡ x.target)) }
{}

/// After a deletion, a label leads to the prefix of its old target's new closure, if the old target
/// still covers a row. A label without a target gets none.
pub fn labels_with_one_row_less<V: Value>()
    ensures leads { (xs ys : List (Row V)) (r : Row V) (p c : Cell V) (i : ℕ) (v : V) → depth p ≤ i
        → i < length p →
        target_of_label (eq_by_cmp V.cmp) (xs ++ r ∷ ys) p i v ≡ Some c →
        target_of_label (eq_by_cmp V.cmp) (xs ++ ys) p i v ≡ option_map (λ u. upto u i)
        (closure (eq_by_cmp V.cmp) (xs ++ ys) c) }
    ensures none { (xs ys : List (Row V)) (r : Row V) (p : Cell V) (i : ℕ) (v : V) →
        target_of_label (eq_by_cmp V.cmp) (xs ++ r ∷ ys) p i v ≡ None
        → target_of_label (eq_by_cmp V.cmp) (xs ++ ys) p i v ≡ None }
{}

/// The edges of a node's record after the deletion of a row that it covers, from the old record.
/// Each leads to the prefix of its old target's new closure. An edge up to the new closure's next
/// value stays if its value isn't the row's.
pub fn edges_with_one_row_less<V: Value>()
    ensures reach { (xs ys : List (Row V)) (r : Row V) (p u w : Cell V)
        → IsTrue (covers (eq_by_cmp V.cmp) p r) →
        closure (eq_by_cmp V.cmp) (xs ++ r ∷ ys) p ≡ Some u
        → closure (eq_by_cmp V.cmp) (xs ++ ys) p ≡ Some w →
        IsTrue (is_node (eq_by_cmp V.cmp) (xs ++ ys) p) →
        next_value V.cmp (depth p) w ≤ next_value V.cmp (depth p) u }
    ensures other { (measures : ℕ) (xs ys : List (Row V)) (r : Row V) (p u w : Cell V)
        (x : Edge V (Cell V)) →
        IsTrue (covers (eq_by_cmp V.cmp) p r) →
        closure (eq_by_cmp V.cmp) (xs ++ r ∷ ys) p ≡ Some u
        → closure (eq_by_cmp V.cmp) (xs ++ ys) p ≡ Some w →
        IsTrue (is_node (eq_by_cmp V.cmp) (xs ++ ys) p) → slice_get r.tuple x.dim ≢ Some x.value →
        Among x (record_of V.cmp measures (xs ++ ys) p w).edges
        ↔ (IsWithin p (next_value V.cmp (depth p) w) x.dim
        × Among x (record_of V.cmp measures (xs ++ r ∷ ys) p u).edges) }
    ensures led { (measures : ℕ) (xs ys : List (Row V)) (r : Row V) (p u w t : Cell V)
        (x : Edge V (Cell V)) →
        IsTrue (covers (eq_by_cmp V.cmp) p r) →
        closure (eq_by_cmp V.cmp) (xs ++ r ∷ ys) p ≡ Some u
        → closure (eq_by_cmp V.cmp) (xs ++ ys) p ≡ Some w →
        IsTrue (is_node (eq_by_cmp V.cmp) (xs ++ ys) p) →
        Among (record { dim = x.dim; value = x.value; target = t })
        (record_of V.cmp measures (xs ++ r ∷ ys) p u).edges →
        Among x (record_of V.cmp measures (xs ++ ys) p w).edges
        ↔ (IsWithin p (next_value V.cmp (depth p) w) x.dim
        × (option_map (λ z. upto z x.dim) (closure (eq_by_cmp V.cmp) (xs ++ ys) t)
        ≡ Some x.target)) }
{}

/// Which cells that cover the inserted row are nodes afterwards.
pub fn nodes_with_one_row_more<V: Value>()
    ensures alone { (xs ys : List (Row V)) (r : Row V) (p : Cell V)
        → IsTrue (covers (eq_by_cmp V.cmp) p r) →
        closure (eq_by_cmp V.cmp) (xs ++ ys) p ≡ None →
        IsTrue (is_node (eq_by_cmp V.cmp) (xs ++ r ∷ ys) p)
        ↔ (cell_prefix (depth p) (cell_of r.tuple) ≡ p) }
    ensures with_others { (xs ys : List (Row V)) (r : Row V) (p u : Cell V)
        → IsTrue (covers (eq_by_cmp V.cmp) p r) →
        closure (eq_by_cmp V.cmp) (xs ++ ys) p ≡ Some u →
        IsTrue (is_node (eq_by_cmp V.cmp) (xs ++ r ∷ ys) p)
        ↔ (cell_prefix (depth p) (meet (eq_by_cmp V.cmp) u (cell_of r.tuple)) ≡ p) }
{}

/// A node whose closure gains values by deletions stays a node if and only if the first gained
/// value comes after the node's last value. Its forced child is then in that dimension or an
/// earlier one.
pub fn nodes_with_rows_less<V: Value>()
    ensures node { (before after : List (Row V)) (p u w : Cell V)
        → IsTrue (is_node (eq_by_cmp V.cmp) before p) →
        closure (eq_by_cmp V.cmp) before p ≡ Some u → closure (eq_by_cmp V.cmp) after p ≡ Some w →
        IsTrue (leq (eq_by_cmp V.cmp) u w) → length u ≡ length w →
        IsTrue (is_node (eq_by_cmp V.cmp) after p) ↔ (depth p ≤ first_new u w) }
    ensures forced { (u w : Cell V) (n : ℕ) → IsTrue (leq (eq_by_cmp V.cmp) u w)
        → length u ≡ length w → n ≤ first_new u w →
        next_value V.cmp n w ≡ min (next_value V.cmp n u) (first_new u w) }
{}
