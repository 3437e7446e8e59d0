// The way down to an existing node.
ghost use Rattle.std.specs.Prelude.{Some, length, suc, ◌+◌, ◌-◌, ◌<◌, ◌≡◌, ◌≤◌};
ghost use Rattle.cube_defs.specs.Cell.{cell_prefix};
ghost use Rattle.cube_defs.specs.Tree.{cell_at};
ghost use Rattle.drill_links.specs.Way.{IsWay};

use cell_core::{Cell, Entry, NodeNo, Steps};
use qc_arena::{Nodes, QcArena};
use std::sync::ledger::Ledger;

/// The node of the target's prefix through dimension `last`. Goes down from the node of the
/// target's prefix before dimension `first`.
pub fn descend<L: Ledger>(
    arena: &QcArena,
    from: NodeNo,
    target: &Cell,
    first: u8,
    last: u8,
    steps: &mut Steps<L>,
) -> NodeNo
    requires order { first ≤ last }
    requires last { last < length target.now }
    requires from { cell_at arena.now.now from.0 ≡ Some (cell_prefix first target.now) }
    requires way { IsWay arena.now.now target.now first last }
    ensures node { cell_at arena.now.now result.0 ≡ Some (cell_prefix (suc last) target.now) }
    ensures steps { steps.new ≤ steps.old + (last + 1 - first) }
{
    let mut node = from;
    'down: for dim in first..=last {
        match target.get(dim) {
            Entry::Any => {}
            Entry::Is(code) => node = arena.edge(node, dim, code, steps).unwrap(),
        }
    }
    node
}
