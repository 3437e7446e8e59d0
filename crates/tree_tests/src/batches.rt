// Batches that are kept and taken back.
ghost use Rattle.std.specs.Prelude.{IsSome, true, ◌≡◌};
ghost use Rattle.std.specs.FinMap as map;
ghost use Rattle.qc_arena.specs.Map.{CanChange, is_open};

use crate::grown::{grown, planted};
use aggregates::Agg;
use cell_core::{NodeNo, Steps};
use qc_arena::{Nodes, QcArena};
use std::alloc::Global;
use std::sync::ledger::Ledger;

// Gives an edge another target, and takes that back.
fn is_taken_back<L: Ledger>(
    arena: &mut QcArena,
    root: NodeNo,
    child: NodeNo,
    steps: &mut Steps<L>,
) -> bool
    requires width { arena.old.width ≡ 3 }
    requires opened { is_open arena.old ≡ true }
    requires root { IsSome (map.get arena.old.now root.0) }
    requires child { IsSome (map.get arena.old.now child.0) }
{
    arena.commit();
    let built = arena.edge_total();
    arena.begin();
    if arena.touch(root, steps).is_err() || arena.set_edge(root, 1, 7, root, steps).is_err() {
        return false;
    }
    let changed = arena.edge_total();
    arena.rollback();
    let back = arena.edge_total();
    [built, changed, back] == [1; 3] && has_one_edge(arena, root, child, steps)
}

// Whether the one edge is that to the child.
fn has_one_edge<L: Ledger>(
    arena: &QcArena,
    root: NodeNo,
    child: NodeNo,
    steps: &mut Steps<L>,
) -> bool {
    arena.has(root)
        && arena.edge(root, 1, 7, steps) == Some(child)
        && arena.edge(root, 1, 8, steps).is_none()
        && arena.edge(root, 0, 7, steps).is_none()
        && arena.edge(root, 2, 7, steps).is_none()
}

// Kills the node to which an edge leads, and takes that back. Whether the node is out at once, with
// its edge still there.
fn is_killed<L: Ledger>(arena: &mut QcArena, child: NodeNo, steps: &mut Steps<L>) -> bool
    requires opened { is_open arena.old ≡ true }
    requires child { IsSome (map.get arena.old.now child.0) }
{
    arena.commit();
    arena.begin();
    if arena.touch(child, steps).is_err() {
        return false;
    }
    arena.kill(child, steps);
    let after = arena.live();
    let edges = arena.edge_total();
    arena.rollback();
    after == 1 && edges == 1 && arena.live() == 2
}

// Drops an edge that isn't there, and one that is.
fn dropped_twice<L: Ledger>(arena: &mut QcArena, node: NodeNo, steps: &mut Steps<L>) -> (u64, u64)
    requires { CanChange arena.old node.0 }
{
    arena.drop_edge(node, 1, 8, steps);
    let kept = arena.edge_total();
    arena.drop_edge(node, 1, 7, steps);
    (kept, arena.edge_total())
}

// Whether the edge of the root goes by its label alone.
fn is_dropped<L: Ledger>(arena: &mut QcArena, root: NodeNo, steps: &mut Steps<L>) -> bool
    requires opened { is_open arena.old ≡ true }
    requires root { IsSome (map.get arena.old.now root.0) }
{
    arena.commit();
    arena.begin();
    if arena.touch(root, steps).is_err() {
        return false;
    }
    dropped_twice(arena, root, steps) == (1, 0)
}

// What becomes of an arena with a root, a node under it and the edge between them.
#[derive(Clone, Copy)]
enum Fate {
    TakenBack,
    Killed,
    Dropped,
}

// Whether it becomes of a new arena.
fn becomes<L: Ledger>(alloc: Global, fate: Fate, steps: &mut Steps<L>) -> bool {
    let Some((mut arena, root, child)) = grown(alloc, steps) else {
        return false;
    };
    let is_right = match fate {
        Fate::TakenBack => is_taken_back(&mut arena, root, child, steps),
        Fate::Killed => is_killed(&mut arena, child, steps),
        Fate::Dropped => is_dropped(&mut arena, root, steps),
    };
    drop(arena);
    is_right
}

// Whether so many classes were added, and so many removed.
fn are_told(alloc: Global, arena: &QcArena, added: usize, removed: usize) -> bool
    requires { is_open arena.now ≡ true }
{
    let Ok(news) = arena.classes_added(alloc) else {
        return false;
    };
    let Ok(olds) = arena.classes_removed(alloc) else {
        drop(news);
        return false;
    };
    let are_told = news.len() == added && olds.len() == removed;
    drop(news);
    drop(olds);
    are_told
}

// Keeps the class of a node, and takes it away in a batch of its own. Whether one class was added
// before, none with the node touched, and one removed without its class.
fn is_class_told<L: Ledger>(
    alloc: Global,
    arena: &mut QcArena,
    node: NodeNo,
    steps: &mut Steps<L>,
) -> bool
    requires { CanChange arena.old node.0 }
{
    arena.set_class(node, Some(Agg::one(&[])), steps);
    let is_added = are_told(alloc, arena, 1, 0);
    arena.commit();
    arena.begin();
    if arena.touch(node, steps).is_err() {
        return false;
    }
    let is_same = are_told(alloc, arena, 0, 0);
    arena.set_class(node, None, steps);
    is_added && is_same && are_told(alloc, arena, 0, 1)
}

// Whether the root's class is added, and is removed in another batch.
fn are_classes_told<L: Ledger>(alloc: Global, steps: &mut Steps<L>) -> bool {
    let Some((mut arena, root)) = planted(alloc, steps) else {
        return false;
    };
    let is_told = is_class_told(alloc, &mut arena, root, steps);
    drop(arena);
    is_told
}

/// Whether batches are kept and taken back: an edge, a node, an edge that is dropped, and classes.
pub(crate) fn are_right<L: Ledger>(alloc: Global, steps: &mut Steps<L>) -> bool {
    becomes(alloc, Fate::TakenBack, steps)
        && becomes(alloc, Fate::Killed, steps)
        && becomes(alloc, Fate::Dropped, steps)
        && are_classes_told(alloc, steps)
}
