// The nodes of prefixes of tuples.
ghost use Rattle.std.specs.Prelude.{IfOk, IfSome, None, length, suc, true, ℕ, ◌+◌, ◌*◌, ◌<◌, ◌≡◌, ◌≢◌, ◌≤◌};
ghost use Rattle.cube_defs.specs.Cell.{cell_prefix};
ghost use Rattle.cube_defs.specs.Tree.{cell_at};
ghost use Rattle.qc_arena.specs.Map.{Arena};
ghost use Rattle.class_builder.specs.PrefixNodes.{ArePrefixNodes, IsFull, unset_node, prefix_node};

use crate::Memory;
use crate::part::Partition;
use base_table::RowNo;
use cell_closure::SortedRows;
use cell_core::{Cell, Entry, NodeNo};
use std::alloc::Global;

/// For each row and dimension, the node of the tuple's prefix through that dimension, if it is
/// stored.
#[derive(Drop)]
pub(crate) struct PrefixNodes {
    nodes: Vec<NodeNo>,
    dims: u8,
}

// Marks that no node is stored.
const NO_NODE: NodeNo = NodeNo(u32::MAX);

impl PrefixNodes {
    /// No node is stored yet. Takes memory for a node for each row and dimension.
    pub(crate) fn new(alloc: Global, table: &SortedRows) -> Result<PrefixNodes, Memory>
        ensures none { IfOk result (λ fronts. (no d : ℕ) → prefix_node fronts no d ≡ unset_node) }
        ensures dims { IfOk result (λ fronts. fronts.dims ≡ table.now.dims) }
    {
        let dims = table.dims();
        let mut nodes = Vec::new(alloc);
        nodes.resize(table.places() as usize * dims as usize, NO_NODE)?;
        Ok(PrefixNodes { nodes, dims })
    }

    fn place(&self, row: RowNo, dim: u8) -> usize
        ensures { result ≡ row.0 * self.now.dims + dim }
    {
        row.0 as usize * self.dims as usize + dim as usize
    }

    /// The node stored for the row and the dimension.
    pub(crate) fn at(&self, row: RowNo, dim: u8) -> Option<NodeNo>
        ensures node { IfSome result (λ node. prefix_node self.now row.0 dim ≡ node.0) }
        ensures some { IfSome result (λ node. node.0 ≢ unset_node) }
    {
        let node = *self.nodes.get(self.place(row, dim))?;
        if node == NO_NODE { None } else { Some(node) }
    }

    /// The node stored for the row, which the cell covers. None if the cell has Any in a dimension
    /// up to this one.
    pub(crate) fn find(&self, row: RowNo, cell: &Cell, dim: u8) -> Option<NodeNo>
        requires { dim < length cell.now }
        ensures node { IfSome result (λ node. prefix_node self.now row.0 dim ≡ node.0) }
        ensures some { IfSome result (λ node. node.0 ≢ unset_node) }
        ensures full { IfSome result (λ _. IsFull cell.now dim) }
    {
        if is_full(cell, dim) {
            self.at(row, dim)
        } else {
            None
        }
    }

    /// Stores the node of the prefix through `dim` of what the rows share, if they share a value in
    /// each dimension up to it.
    pub(crate) fn note(&mut self, part: &Partition<'_>, dim: u8, node: NodeNo)
        requires dim { dim < length part.now.shared.now }
        requires dims { self.old.dims ≡ length part.now.shared.now }
        ensures { (arena : Arena) → ArePrefixNodes part.now.table.now arena self.old
            → cell_at arena.now node.0 ≡ Some (cell_prefix (suc dim) part.now.shared.now)
            → ArePrefixNodes part.now.table.now arena self.new }
    {
        if is_full(part.shared, dim) {
            'rows: for row in part.rows {
                let place = self.place(*row, dim);
                if let Some(noted) = self.nodes.get_mut(place) {
                    *noted = node;
                }
            }
        }
    }
}

/// Whether the cell has a value in each dimension up to this one.
fn is_full(cell: &Cell, dim: u8) -> bool
    requires { dim < length cell.now }
    ensures { result ≡ true → IsFull cell.now dim }
{
    'dims: for i in 0..=dim {
        match cell.get(i) {
            Entry::Any => return false,
            Entry::Is(_) => {}
        }
    }
    true
}
