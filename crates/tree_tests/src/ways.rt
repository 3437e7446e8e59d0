// The way down a small tree.
ghost use Rattle.std.specs.Prelude.{IfSome, Some, ◌≡◌};
ghost use Rattle.cube_defs.specs.Cell as defs;
ghost use Rattle.cube_defs.specs.Tree.{cell_at};
ghost use Rattle.tree_tests.specs.Single.{single};
ghost use Rattle.drill_links.specs.Way.{IsWay};

use crate::grown::planted;
use cell_core::{Cell, Code, Entry, NodeNo, Steps};
use drill_links::descend;
use qc_arena::{Nodes, QcArena};
use std::alloc::Global;
use std::sync::ledger::Ledger;

// An arena with its root, a node under it with the value 7 in dimension 1, and the edge to that.
fn grown<L: Ledger>(alloc: Global, steps: &mut Steps<L>) -> Option<(QcArena, NodeNo)>
    ensures root { IfSome result (λ p. cell_at p.0.now p.1.0 ≡ Some (defs.cell_prefix 0 single)) }
    ensures way { IfSome result (λ p. IsWay p.0.now single 0 2) }
{
    let (mut arena, root) = planted(alloc, steps)?;
    let Ok(child) = arena.add_node(Some((root, 1, 7)), steps) else {
        drop(arena);
        return None;
    };
    let Ok(()) = arena.set_edge(root, 1, 7, child, steps) else {
        drop(arena);
        return None;
    };
    Some((arena, root))
}

fn target(alloc: Global) -> Cell
    ensures { result ≡ single }
{
    let mut cell = Cell::any(alloc, 3);
    cell.set(1, Entry::Is(7));
    cell
}

// The last value of the node that the way from the root leads to.
fn gone_down<L: Ledger>(alloc: Global, steps: &mut Steps<L>) -> Option<(u8, Code)> {
    let (arena, root) = grown(alloc, steps)?;
    let node = descend(&arena, root, &target(alloc), 0, 2, steps);
    let end = arena.end_of(node, steps);
    drop(arena);
    end
}

/// Whether a way is gone down.
pub(crate) fn is_right<L: Ledger>(alloc: Global, steps: &mut Steps<L>) -> bool {
    gone_down(alloc, steps) == Some((1, 7))
}
