//! The laws of the children of a class, by which they are found in the tree.
ghost use Rattle.std.specs.List.{AllByRecursion};
ghost use Rattle.std.specs.Ordering.{eq_by_cmp, nat_cmp};
ghost use Rattle.std.specs.Prelude.{List, None, Some, length, slice_get, true, ℕ, ◌↔◌, ◌≡◌, ◌≢◌};
ghost use Rattle.cube_defs.specs.Cell.{Cell, depth, cell_prefix, leq, with_value};
ghost use Rattle.cube_defs.specs.Rows.{Row, closure};
ghost use Rattle.cube_defs.specs.Tree.{next_value};
ghost use Rattle.tree_laws.specs.Labels.{IsWithin, target_of_label};
ghost use Rattle.quotient_lattice.specs.ValuesLead.{AllValuesLead};
ghost use Rattle.quotient_lattice.specs.Neighbours.{is_parent};

/// A class that u generalizes is a child of u exactly if it is the closure of u with each one of
/// the values that it has and u hasn't.
pub fn children_by_their_new_values()
    ensures { (dims : ℕ) (rows : List (Row ℕ)) (u d : Cell ℕ)
        → AllByRecursion (λ row. length row.tuple ≡ dims) rows →
        closure (eq_by_cmp nat_cmp) rows u ≡ Some u → closure (eq_by_cmp nat_cmp) rows d ≡ Some d →
        leq (eq_by_cmp nat_cmp) u d ≡ true → u ≢ d → (is_parent nat_cmp rows u d ≡ true)
        ↔ AllValuesLead rows u d }
{}

/// If a class with one value more covers a row, the class's prefix before that dimension has a
/// label with that value.
pub fn label_of_a_value_more()
    ensures { (rows : List (Row ℕ)) (u w x : Cell ℕ) (i v : ℕ)
        → closure (eq_by_cmp nat_cmp) rows u ≡ Some u →
        slice_get u i ≡ Some None → closure (eq_by_cmp nat_cmp) rows (with_value u i v) ≡ Some w →
        closure (eq_by_cmp nat_cmp) rows (cell_prefix i u) ≡ Some x →
        IsWithin (cell_prefix i u) (next_value nat_cmp (depth (cell_prefix i u)) x) i
        × ((t : Cell ℕ) × (target_of_label (eq_by_cmp nat_cmp) rows
        (cell_prefix i u) i v ≡ Some t)) }
{}
