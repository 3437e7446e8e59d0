// The parents of a class, in cell order.
ghost use Rattle.std.specs.List.{range_with_len};
ghost use Rattle.std.specs.Ordering.{nat_cmp};
ghost use Rattle.std.specs.Prelude.{All, IfOk, IsSome, OnOk, Some, false, true, filter, length, map, ℕ, ◌*◌, ◌+◌, ◌++◌, ◌<◌, ◌^◌, ◌≡◌, ◌≤◌};
ghost use Rattle.cube_defs.specs.Tree.{as_list, cell_at};
ghost use Rattle.qc_arena.specs.RecordReaders.{record_at};
ghost use Rattle.tree_search.specs.Found.{IsTreeOf, IsTree, TreeRows};
ghost use Rattle.cells_below.specs.Closed.{IsMarkedBefore};
ghost use Rattle.cells_below.specs.Marks.{is_marked};
ghost use Rattle.cells_below.specs.Numbers.{cell_of_number};
ghost use Rattle.cube_laws.specs.Parts.{value_count};
ghost use Rattle.quotient_lattice.specs.Neighbours as lattice;
ghost use Rattle.quotient_lattice.specs.DecodedNodes.{decoded_nodes};
ghost use Rattle.cube_defs.specs.Text.{text_cmp};
ghost use Rattle.cube_laws.specs.Recoding.{RowsAreKnown};
ghost use Rattle.value_dict.specs.Recoded.{has_code, decoded_row_list};
ghost use Rattle.value_dict.specs.Decoded.{decoded_cell};
ghost use Rattle.quotient_lattice.specs.Joined.{joins};

use crate::Memory;
use crate::parent_test::parent_at;
use cell_core::{Cell, NodeNo, Steps};
use cells_below::{CellSearch, Marks, UpperBound, bounds_at, count_values, needed};
use qc_arena::Nodes;
use std::alloc::{AllocError, Global};
use std::sync::ledger::Ledger;
use tree_search::CanonicalTree;
use value_dict::Dict;

/// The nodes of all parents of a class, in cell order by the texts of the dictionary. The
/// dictionary isn't read: cells that generalize one cell stand in the same order by their codes.
/// With n dimensions and d values of the class it takes at most 16 (n + 1) 2^d steps.
pub fn parents<T: Nodes, L: Ledger>(
    alloc: Global,
    tree: &T,
    dict: &Dict,
    node: NodeNo,
    steps: &mut Steps<L>,
) -> Result<Vec<NodeNo>, Memory>
    requires tree { IsTree (T.width tree.now) (T.tree tree.now) }
    requires class { IsSome (record_at (T.tree tree.now) node.0).class }
    requires dims { length dict.now.lists ≡ T.width tree.now }
    ensures nodes { (source : TreeRows) → IsTreeOf (T.width tree.now) (T.tree tree.now) source
        → RowsAreKnown (has_code dict.now.lists) source.rows →
        IfOk result (λ nodes. decoded_nodes dict.now.lists (T.tree tree.now) nodes.items
        ≡ lattice.parents text_cmp (decoded_row_list dict.now.lists source.rows)
        (decoded_cell dict.now.lists (record_at (T.tree tree.now) node.0).cell)) }
    ensures classes { IfOk result
        (λ nodes. All (λ node. IsSome (record_at (T.tree tree.now) node.0).class) nodes.items) }
    ensures steps { steps.new ≤ steps.old + 16 * (T.width tree.now + 1) * 2 ^ value_count
        (record_at (T.tree tree.now) node.0).cell }
{
    let _dims = dict.dims();
    let tree = CanonicalTree::of(tree);
    let mut u = Cell::any(alloc, tree.dims());
    tree.upper_into(node, &mut u, steps);
    let upper = UpperBound {
        tree: &tree,
        node,
        cell: &u,
        values: count_values(&u),
    };
    parents_of(alloc, &upper, steps)
}

// The parents of a class.
fn parents_of<T: Nodes, L: Ledger>(
    alloc: Global,
    upper: &UpperBound<T>,
    steps: &mut Steps<L>,
) -> Result<Vec<NodeNo>, Memory>
    ensures nodes { (source : TreeRows) →
        IsTreeOf upper.now.tree.now.width upper.now.tree.now.tree source →
        IfOk result (λ nodes. map (λ k. cell_at upper.now.tree.now.tree k.0) nodes.items
        ≡ map (λ c. Some c) (lattice.parents nat_cmp source.rows upper.now.cell.now)) }
    ensures steps { steps.new ≤ steps.old + (upper.now.values + 2 * 2 ^ upper.now.values)
        * (2 * length upper.now.cell.now + 2) }
{
    match Marks::new(alloc, 1 << upper.values) {
        Ok(mut marks) => {
            mark_all(upper, &mut marks, steps);
            parents_by_marks(alloc, upper, &marks, steps)
        }
        Err(error) => Err(error),
    }
}

// Marks the numbers whose cells are in the class.
fn mark_all<T: Nodes, L: Ledger>(upper: &UpperBound<T>, marks: &mut Marks, steps: &mut Steps<L>)
    requires room { 2 ^ upper.now.values ≤ length marks.old }
    requires none { (j : ℕ) → is_marked marks.old j ≡ false }
    ensures marked { (source : TreeRows) →
        IsTreeOf upper.now.tree.now.width upper.now.tree.now.tree source →
        IsMarkedBefore source upper.now.cell.now marks.new (2 ^ upper.now.values) }
    ensures room { 2 ^ upper.now.values ≤ length marks.new }
    ensures steps { steps.new ≤ steps.old
        + (upper.now.values + 2 ^ upper.now.values) * (2 * length upper.now.cell.now + 2) }
{
    let mut search = CellSearch::new(upper);
    let needed = needed(upper, steps);
    'numbers: for m in 0..1 << upper.values {
        bounds_at(upper, needed, marks, m, &mut search, steps);
    }
}

// The nodes of the numbers that are parents of the class.
fn parents_by_marks<T: Nodes, L: Ledger>(
    alloc: Global,
    upper: &UpperBound<T>,
    marks: &Marks,
    steps: &mut Steps<L>,
) -> Result<Vec<NodeNo>, Memory>
    requires room { 2 ^ upper.now.values ≤ length marks.now }
    requires marked { (source : TreeRows) →
        IsTreeOf upper.now.tree.now.width upper.now.tree.now.tree source →
        IsMarkedBefore source upper.now.cell.now marks.now (2 ^ upper.now.values) }
    ensures nodes { (source : TreeRows) →
        IsTreeOf upper.now.tree.now.width upper.now.tree.now.tree source →
        IfOk result (λ nodes. map (λ k. cell_at upper.now.tree.now.tree k.0) nodes.items
        ≡ map (λ m. Some (cell_of_number upper.now.cell.now m))
        (filter (joins source upper.now.cell.now) (range_with_len 0 (2 ^ upper.now.values)))) }
    ensures steps { steps.new ≤ steps.old
        + 2 ^ upper.now.values * (2 * length upper.now.cell.now + 2) }
{
    let mut nodes = Vec::new(alloc);
    'numbers: for m in 0..1 << upper.values {
        let node = parent_at(upper, marks, m, steps);
        match push_some(&mut nodes, node) {
            Ok(()) => {}
            Err(error) => return Err(error),
        }
    }
    Ok(nodes)
}

// Appends a node, if there is one.
fn push_some(nodes: &mut Vec<NodeNo>, node: Option<NodeNo>) -> Result<(), Memory>
    ensures { OnOk result (nodes.new.items ≡ nodes.old.items ++ as_list nat_cmp node) }
{
    let Some(node) = node else {
        return Ok(());
    };
    match nodes.push(node) {
        Ok(()) => Ok(()),
        Err(_) => Err(AllocError),
    }
}
