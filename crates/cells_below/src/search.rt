// The searches for the cells of a class, one after another.
ghost use Rattle.std.specs.Prelude.{length, ℕ, ◌*◌, ◌+◌, ◌<◌, ◌≡◌, ◌≤◌};
ghost use Rattle.cube_defs.specs.declared.limits.TheConstants.{MAX_DIMS};
ghost use Rattle.tree_search.specs.Found.{IsTreeOf, TreeRows};
ghost use Rattle.cells_below.specs.Closed.{has_closure_in};
ghost use Rattle.cells_below.specs.Numbers.{cell_of_number};
ghost use Rattle.cells_below.specs.Search.{IsOnWay, node_before};

use crate::numbers::turn_cell;
use crate::upper::UpperBound;
use cell_core::{Cell, NodeNo, Steps};
use cube_defs::MAX_DIMS;
use qc_arena::Nodes;
use std::sync::ledger::Ledger;
use tree_search::step;

/// A search for one cell after another. It goes on from where the next cell first differs from the
/// last one.
#[derive(Drop)]
pub struct CellSearch {
    /// The cell that is searched for.
    pub cell: Cell,
    // Its number.
    number: u32,
    // Where the search stands before each dimension, as far as it has come.
    nodes: [NodeNo; MAX_DIMS as usize + 1],
    // The number of dimensions before which that is known.
    known: u8,
}

impl CellSearch {
    /// A search for the upper bound that has not begun.
    pub fn new<T: Nodes>(upper: &UpperBound<T>) -> CellSearch
        ensures way { IsOnWay upper.now.tree.now.width upper.now.tree.now.tree upper.now.cell.now
            result }
    {
        CellSearch {
            cell: upper.cell.copy(),
            number: (1 << upper.values) - 1,
            nodes: [NodeNo(0); MAX_DIMS as usize + 1],
            known: 0,
        }
    }

    /// Goes over to the cell of a number.
    pub(crate) fn write<T: Nodes>(&mut self, upper: &UpperBound<T>, m: u32)
        requires way { IsOnWay upper.now.tree.now.width upper.now.tree.now.tree upper.now.cell.now
            self.old }
        ensures way { IsOnWay upper.now.tree.now.width upper.now.tree.now.tree upper.now.cell.now
            self.new }
        ensures cell { self.new.cell ≡ cell_of_number upper.now.cell.now m }
    {
        let alike = turn_cell(upper.cell, self.number, m, &mut self.cell);
        self.number = m;
        if alike < self.known {
            self.known = alike + 1;
        }
    }

    // Adds the node before the next dimension.
    fn push(&mut self, node: NodeNo)
        requires { self.old.known ≤ MAX_DIMS }
        ensures known { self.new.known ≡ self.old.known + 1 }
        ensures here { node_before self.new.nodes self.old.known ≡ node.0 }
        ensures others { (i : ℕ) →
            i < self.old.known → node_before self.new.nodes i ≡ node_before self.old.nodes i }
        ensures cell { self.new.cell ≡ self.old.cell }
        ensures number { self.new.number ≡ self.old.number }
    {
        self.nodes[self.known as usize] = node;
        self.known += 1;
    }

    /// Whether the cell's closure is the upper bound.
    pub(crate) fn leads_to<T: Nodes, L: Ledger>(
        &mut self,
        upper: &UpperBound<T>,
        steps: &mut Steps<L>,
    ) -> bool
        requires way { IsOnWay upper.now.tree.now.width upper.now.tree.now.tree upper.now.cell.now
            self.old }
        ensures value { (source : TreeRows) →
            IsTreeOf upper.now.tree.now.width upper.now.tree.now.tree source →
            result ≡ has_closure_in source upper.now.cell.now self.old.cell }
        ensures way { IsOnWay upper.now.tree.now.width upper.now.tree.now.tree upper.now.cell.now
            self.new }
        ensures cell { self.new.cell ≡ self.old.cell }
        ensures steps { steps.new ≤ steps.old + (2 * length upper.now.cell.now + 2) }
    {
        if self.known == 0 {
            let Some(root) = upper.tree.root(steps) else {
                return false;
            };
            self.push(root);
        }
        self.goes_to(upper, steps)
    }

    // The same for a search that has begun.
    fn goes_to<T: Nodes, L: Ledger>(&mut self, upper: &UpperBound<T>, steps: &mut Steps<L>) -> bool
        requires way { IsOnWay upper.now.tree.now.width upper.now.tree.now.tree upper.now.cell.now
            self.old }
        requires begun { 0 < self.old.known }
        ensures value { (source : TreeRows) →
            IsTreeOf upper.now.tree.now.width upper.now.tree.now.tree source →
            result ≡ has_closure_in source upper.now.cell.now self.old.cell }
        ensures way { IsOnWay upper.now.tree.now.width upper.now.tree.now.tree upper.now.cell.now
            self.new }
        ensures cell { self.new.cell ≡ self.old.cell }
        ensures steps { steps.new ≤ steps.old + 2 * length upper.now.cell.now }
    {
        let dims = upper.tree.dims();
        let mut node = self.nodes[self.known as usize - 1];
        'dims: for dim in self.known - 1..dims {
            let Some(next) = step(upper.tree, node, dim, self.cell.get(dim), steps) else {
                return false;
            };
            self.push(next);
            node = next;
        }
        node.0 == upper.node.0
    }
}
