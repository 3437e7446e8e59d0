// Searches that don't begin at the root.
ghost use Rattle.std.specs.FinMap as map;
ghost use Rattle.std.specs.Option.{option_map};
ghost use Rattle.std.specs.Prelude.{IfSome, IsSome, Some, length, ◌*◌, ◌+◌, ◌≡◌, ◌≤◌};
ghost use Rattle.cube_defs.specs.Cell.{cell_prefix, with_value};
ghost use Rattle.cube_defs.specs.Tree.{cell_at};
ghost use Rattle.cube_laws.specs.Parts.{IsLastAny};
ghost use Rattle.qc_arena.specs.RecordReaders.{number};
ghost use Rattle.tree_search.specs.Found.{IsNumberOfCell, closure_in};
ghost use Rattle.batch_delete.specs.DeletedRow.{IsClassNode, IsSearch};
ghost use Rattle.batch_delete.specs.Rests.{Deletion, source_before};

use crate::generalizing::NodeCell;
use cell_core::{Cell, Code, NodeNo, Steps};
use qc_arena::{Nodes, QcArena};
use std::sync::ledger::Ledger;
use tree_search::step;

/// The node of the closure of a cell with the value of a label. The search goes on from the label's
/// target. The cell itself has Any in the label's dimension, and isn't copied.
pub(crate) fn find_from<L: Ledger>(
    arena: &QcArena,
    cell: &Cell,
    label: (u8, Code, NodeNo),
    steps: &mut Steps<L>,
) -> Option<NodeNo>
    ghost d: { Deletion }
    requires { IsSearch d arena.now (with_value cell.now label.0 label.1) label.0 label.2.0 }
    ensures found { IsNumberOfCell arena.now.now (option_map number result)
        (closure_in (source_before d) (with_value cell.now label.0 label.1)) }
    ensures there { IfSome result (λ node. IsSome (map.get arena.now.now node.0)) }
    ensures steps { steps.new ≤ steps.old + 2 * length cell.now }
{
    let (dim, _, target) = label;
    let dims = cell.dims();
    let mut node = target;
    'dims: for next in dim + 1..dims {
        node = step(arena, node, next, cell.get(next), steps)?;
    }
    Some(node)
}

/// The node of the prefix before a class's last dimension of Any. Goes up from the class's node
/// through the later values.
pub(crate) fn prefix_node<L: Ledger>(
    arena: &QcArena,
    class: &NodeCell,
    dim: u8,
    steps: &mut Steps<L>,
) -> NodeNo
    ghost d: { Deletion }
    requires class { IsClassNode d arena.now class.now }
    requires last { IsLastAny class.now.cell dim }
    ensures front { cell_at arena.now.now result.0 ≡ Some (cell_prefix dim class.now.cell) }
    ensures steps { steps.new ≤ steps.old + length class.now.cell }
{
    let mut node = class.node;
    'up: for _value in 0..class.cell.dims() - 1 - dim {
        node = arena.parent(node, steps).unwrap();
    }
    node
}
