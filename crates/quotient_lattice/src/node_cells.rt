// Nodes with their cells, and their order.
ghost use Rattle.std.specs.List.Sorted.{IsPermutation, IsSortedBy};
ghost use Rattle.std.specs.Prelude.{IfOk, OnOk, map, ◌≡◌};
ghost use Rattle.quotient_lattice.specs.NodeCells.{is_before, node_of, place_cmp};

use crate::Memory;
use cell_core::{Cell, NodeNo};
use std::alloc::Global;
use std::cmp::Ordering;
use value_dict::Dict;

/// A node with its cell.
#[derive(Drop)]
pub(crate) struct NodeCell {
    pub(crate) node: NodeNo,
    pub(crate) cell: Cell,
}

fn order(dict: &Dict, x: &NodeCell, y: &NodeCell) -> Ordering
    ensures { result ≡ place_cmp dict.now.lists x.now y.now }
{
    dict.cell_cmp(&x.cell, &y.cell)
}

/// Puts nodes in cell order by the texts.
pub(crate) fn sort(dict: &Dict, found: &mut Vec<NodeCell>) -> Result<(), Memory>
    ensures same { IsPermutation found.old.items found.new.items }
    ensures sorted { OnOk result (IsSortedBy (is_before dict.now.lists) found.new.items) }
{
    found.sort_by(|x, y| order(dict, x, y))
}

/// The nodes without their cells.
pub(crate) fn nodes_alone(alloc: Global, found: Vec<NodeCell>) -> Result<Vec<NodeNo>, Memory>
    ensures { IfOk result (λ nodes. nodes.items ≡ map node_of found.items) }
{
    found.into_iter().map(|placed| placed.node).collect(alloc)
}
