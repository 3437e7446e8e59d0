// The nodes that generalize a tuple.
ghost use Rattle.std.specs.FinMap as map;
ghost use Rattle.std.specs.Prelude.{IfNone, IfOk, IfSome, IsSome, OnOk, Some, [], false, length, slice_index_or, slice_get, true, ℕ, ◌++◌, ◌∷◌, ◌*◌, ◌+◌, ◌≡◌, ◌≤◌};
ghost use Rattle.cube_defs.specs.Cell.{with_value};
ghost use Rattle.cube_defs.specs.Tree.{cell_at};
ghost use Rattle.qc_arena.specs.Map.{frame, is_touched};
ghost use Rattle.qc_arena.specs.RecordReaders.{record_at};
ghost use Rattle.batch_delete.specs.declared.generalizing.NodeCell.{NodeCell};
ghost use Rattle.batch_delete.specs.Generalizing.{AddsChild, AddsChildren, AreGeneralizing, AreParents, CanHaveChild, CanTouchAll, HasParent, IsAsWide, no_node_cell};

use crate::Memory;
use cell_core::{Cell, Code, Entry, NodeNo, Steps};
use qc_arena::{Nodes, QcArena};
use std::alloc::Global;
use std::sync::ledger::Ledger;

// A list has room for so many nodes at first.
const ROOM: usize = 32;

/// A node and its cell.
#[derive(Drop)]
pub(crate) struct NodeCell {
    pub node: NodeNo,
    pub cell: Cell,
}

// The child with the value, if there is one. A link with the value doesn't count.
fn child<L: Ledger>(
    arena: &QcArena,
    node: NodeNo,
    dim: u8,
    code: Code,
    steps: &mut Steps<L>,
) -> Option<NodeNo>
    requires { CanHaveChild arena.now node.0 dim }
    ensures none { IfNone result ((q : ℕ)
        → cell_at arena.now.now q ≡ Some (with_value (record_at arena.now.now node.0).cell dim code)
        → ⊥) }
    ensures some { IfSome result
        (λ l. cell_at arena.now.now l.0
        ≡ Some (with_value (record_at arena.now.now node.0).cell dim code)) }
    ensures steps { steps.new ≤ steps.old + 2 }
{
    match arena.edge(node, dim, code, steps) {
        None => None,
        Some(target) => match arena.parent(target, steps) {
            None => None,
            Some(parent) => {
                if parent.0 == node.0 {
                    Some(target)
                } else {
                    None
                }
            }
        },
    }
}

// Adds a node.
fn add(list: &mut Vec<NodeCell>, below: NodeCell) -> Result<(), Memory>
    ensures { OnOk result (list.new.items ≡ list.old.items ++ below ∷ []) }
{
    list.push(below)?;
    Ok(())
}

// Adds the node's child with the tuple's value in the dimension, if there is one.
fn add_child<L: Ledger>(
    arena: &QcArena,
    list: &mut Vec<NodeCell>,
    k: usize,
    dim: u8,
    code: Code,
    steps: &mut Steps<L>,
) -> Result<(), Memory>
    requires { HasParent arena.now list.old.items k dim code }
    ensures grows { OnOk result
        (AddsChild arena.now.now dim code (slice_index_or list.old.items k no_node_cell).cell
        list.old.items list.new.items) }
    ensures steps { steps.new ≤ steps.old + 2 }
{
    let parent = &list[k];
    match child(arena, parent.node, dim, code, steps) {
        None => Ok(()),
        Some(node) => {
            let mut cell = parent.cell.copy();
            cell.set(dim, Entry::Is(code));
            add(list, NodeCell { node, cell })
        }
    }
}

// Adds the children of all nodes with the tuple's value in the dimension.
fn add_children<L: Ledger>(
    arena: &QcArena,
    list: &mut Vec<NodeCell>,
    dim: u8,
    code: Code,
    steps: &mut Steps<L>,
) -> Result<(), Memory>
    requires { AreParents arena.now list.old.items dim code }
    ensures grown { OnOk result
        (AddsChildren arena.now.now dim code list.old.items
        (length list.old.items) list.new.items) }
    ensures steps { steps.new ≤ steps.old + 2 * length list.old.items }
{
    let many = list.len();
    'nodes: for k in 0..many {
        add_child(arena, list, k, dim, code, steps)?;
    }
    Ok(())
}

// The root, if there is one. The list has room for a tuple of few dimensions.
fn start<L: Ledger>(
    alloc: Global,
    arena: &QcArena,
    tuple: &Cell,
    steps: &mut Steps<L>,
) -> Result<Vec<NodeCell>, Memory>
    requires { IsAsWide arena.now tuple.now }
    ensures below { IfOk result (λ list. AreGeneralizing arena.now.now tuple.now 0 list.items) }
    ensures steps { steps.new ≤ steps.old + 1 }
{
    let mut list = Vec::with_capacity(alloc, ROOM)?;
    match arena.root(steps) {
        None => Ok(list),
        Some(node) => {
            let cell = Cell::any(alloc, tuple.dims());
            match add(&mut list, NodeCell { node, cell }) {
                Ok(()) => Ok(list),
                Err(error) => Err(error),
            }
        }
    }
}

/// Collects the nodes that generalize the tuple. Each is after its ancestors in the list.
pub(crate) fn collect<L: Ledger>(
    alloc: Global,
    arena: &QcArena,
    tuple: &Cell,
    steps: &mut Steps<L>,
) -> Result<Vec<NodeCell>, Memory>
    requires { IsAsWide arena.now tuple.now }
    ensures below { IfOk result
        (λ list. AreGeneralizing arena.now.now tuple.now (length tuple.now) list.items) }
    ensures steps { IfOk result
        (λ list. steps.new ≤ steps.old + (1 + length tuple.now * (2 * length list.items))) }
{
    let mut list = start(alloc, arena, tuple, steps)?;
    'dims: for dim in 0..tuple.dims() {
        match tuple.get(dim) {
            Entry::Any => {}
            Entry::Is(code) => add_children(arena, &mut list, dim, code, steps)?,
        }
    }
    Ok(list)
}

/// Touches the nodes.
pub(crate) fn touch_all<L: Ledger>(
    arena: &mut QcArena,
    list: &Vec<NodeCell>,
    steps: &mut Steps<L>,
) -> Result<(), Memory>
    requires { CanTouchAll arena.old list.now.items }
    ensures touched { OnOk result ((k : ℕ) (b : NodeCell) → slice_get list.now.items k ≡ Some b
        → is_touched arena.new b.node.0 ≡ true) }
    ensures only { OnOk result ((q : ℕ) → is_touched arena.new q ≡ true
        → is_touched arena.old q ≡ false →
        (k : ℕ) × (b : NodeCell) × (slice_get list.now.items k ≡ Some b) × (b.node.0 ≡ q)) }
    ensures now { arena.new.now ≡ arena.old.now }
    ensures frame { frame arena.new ≡ frame arena.old }
    ensures steps { steps.new ≤ steps.old + length list.now.items }
{
    'nodes: for k in 0..list.len() {
        arena.touch(list[k].node, steps)?;
    }
    Ok(())
}
