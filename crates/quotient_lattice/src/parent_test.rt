// Whether the cell of a number is a parent of a class.
ghost use Rattle.std.specs.Option.{option_map};
ghost use Rattle.std.specs.Ordering.{eq_by_cmp, nat_cmp};
ghost use Rattle.std.specs.Prelude.{None, Some, if◌then◌else◌, length, ℕ, ◌*◌, ◌+◌, ◌<◌, ◌^◌, ◌≡◌, ◌≤◌};
ghost use Rattle.cube_defs.specs.Tree.{cell_at};
ghost use Rattle.tree_search.specs.Found.{IsTreeOf, TreeRows, closure_in};
ghost use Rattle.cells_below.specs.Closed.{IsMarkedBefore};
ghost use Rattle.cells_below.specs.Numbers.{cell_of_number};
ghost use Rattle.quotient_lattice.specs.Joined.{is_most, joins};

use cell_core::{Cell, NodeNo, Steps};
use cells_below::{Marks, UpperBound, flip_bit, is_bit_set, write_cell};
use cube_defs::MAX_DIMS;
use qc_arena::Nodes;
use std::sync::ledger::Ledger;
use tree_search::CanonicalTree;

// Whether each number with one bit more than m is marked, among the numbers of d bits.
fn is_maximal(marks: &Marks, d: u32, m: u32) -> bool
    requires few { d ≤ MAX_DIMS }
    requires number { m < 2 ^ d }
    requires room { 2 ^ d ≤ length marks.now }
    ensures { result ≡ is_most marks.now d m }
{
    'bits: for k in 0..d {
        if !is_bit_set(m, k) && !marks.get(flip_bit(m, k)) {
            return false;
        }
    }
    true
}

// The node of a class.
fn node_of<T: Nodes, L: Ledger>(
    tree: &CanonicalTree<T>,
    cell: &Cell,
    steps: &mut Steps<L>,
) -> NodeNo
    requires dims { length cell.now ≡ tree.now.width }
    requires class { (source : TreeRows) → IsTreeOf tree.now.width tree.now.tree source →
        closure_in source cell.now ≡ Some cell.now }
    ensures cell { cell_at tree.now.tree result.0 ≡ Some cell.now }
    ensures steps { steps.new ≤ steps.old + (2 * length cell.now + 2) }
{
    let _dims = tree.dims();
    match tree.find(cell, steps) {
        Some(node) => node,
        None => unreachable!(),
    }
}

// The node of the number's cell, if that is a parent of the class. All numbers are marked whose
// cells are in the class.
pub(crate) fn parent_at<T: Nodes, L: Ledger>(
    upper: &UpperBound<T>,
    marks: &Marks,
    m: u32,
    steps: &mut Steps<L>,
) -> Option<NodeNo>
    requires number { m < 2 ^ upper.now.values }
    requires room { 2 ^ upper.now.values ≤ length marks.now }
    requires marked { (source : TreeRows) →
        IsTreeOf upper.now.tree.now.width upper.now.tree.now.tree source →
        IsMarkedBefore source upper.now.cell.now marks.now (2 ^ upper.now.values) }
    ensures value { (source : TreeRows) →
        IsTreeOf upper.now.tree.now.width upper.now.tree.now.tree source →
        option_map (λ k. cell_at upper.now.tree.now.tree k.0) result
        ≡ (if joins source upper.now.cell.now m then
        Some (Some (cell_of_number upper.now.cell.now m)) else None) }
    ensures steps { steps.new ≤ steps.old + (2 * length upper.now.cell.now + 2) }
{
    if marks.get(m) {
        return None;
    }
    if !is_maximal(marks, upper.values, m) {
        return None;
    }
    let mut cell = upper.cell.copy();
    write_cell(upper.cell, m, &mut cell);
    Some(node_of(upper.tree, &cell, steps))
}
