// A class that is handed down in a new dimension, and taken back.
ghost use Rattle.std.specs.Prelude.{IfSome, None, Some, false, replicate, ℕ, ◌<◌, ◌≡◌, ◌≢◌};
ghost use Rattle.std.specs.FinMap as map;
ghost use Rattle.qc_arena.specs.Map.{CanChange, bare, is_open};
ghost use Rattle.tree_tests.specs.RootClass.{IsRootClass};

use crate::grown::planted;
use aggregates::Agg;
use cell_core::{NodeNo, Steps};
use qc_arena::{Nodes, QcArena};
use std::alloc::Global;
use std::sync::ledger::Ledger;

// The numbers of dimensions, nodes, classes and edges.
fn sizes(arena: &QcArena) -> (u8, u32, u32, u64) {
    let classes = arena.class_count();
    (arena.dims(), arena.live(), classes, arena.edge_total())
}

// Makes the root a class, keeps that, and adds a dimension.
fn widen_class<L: Ledger>(arena: &mut QcArena, root: NodeNo, steps: &mut Steps<L>)
    requires change { CanChange arena.old root.0 }
    requires width { arena.old.width ≡ 3 }
    requires root { map.get arena.old.now root.0 ≡ Some (bare (replicate 3 None) None) }
    requires alone { (q : ℕ) → q ≢ root.0 → map.get arena.old.now q ≡ None }
    ensures closed { is_open arena.new ≡ false }
    ensures width { arena.new.width ≡ 4 }
    ensures max { arena.new.max ≡ arena.old.max }
    ensures single { IsRootClass root.0 arena.new.now }
{
    arena.set_class(root, Some(Agg::one(&[])), steps);
    arena.commit();
    arena.widen();
}

// Hands the class of the root down, takes it back, and removes the dimension. The sizes after each.
// None if the child isn't the forced one with the class and the code 0, or the root isn't its parent.
fn down_and_back<L: Ledger>(
    arena: &mut QcArena,
    root: NodeNo,
    steps: &mut Steps<L>,
) -> Option<[(u8, u32, u32, u64); 3]>
    requires closed { is_open arena.old ≡ false }
    requires width { arena.old.width ≡ 4 }
    requires single { IsRootClass root.0 arena.old.now }
    requires few { map.len arena.old.now < arena.old.max }
{
    let Ok(child) = arena.hand_down(root, 3, steps) else {
        return None;
    };
    let down = sizes(arena);
    let is_heir = arena.end_of(child, steps) == Some((3, 0))
        && arena.class(child, steps).is_some()
        && arena.class(root, steps).is_none()
        && arena.edge(root, 3, 0, steps) == Some(child);
    let is_back = arena.take_back(child, 3, steps) == root && arena.class(root, steps).is_some();
    let back = sizes(arena);
    arena.narrow();
    if is_heir && is_back {
        return Some([down, back, sizes(arena)]);
    }
    None
}

// The same of a new arena with its root.
fn of_root<L: Ledger>(alloc: Global, steps: &mut Steps<L>) -> Option<[(u8, u32, u32, u64); 3]> {
    let (mut arena, root) = planted(alloc, steps)?;
    widen_class(&mut arena, root, steps);
    let sizes = if arena.live() == 1 {
        down_and_back(&mut arena, root, steps)
    } else {
        None
    };
    drop(arena);
    sizes
}

/// Whether the class of a root comes to a child in a new dimension, and back to the root.
pub(crate) fn is_right<L: Ledger>(alloc: Global, steps: &mut Steps<L>) -> bool {
    of_root(alloc, steps) == Some([(4, 2, 1, 1), (4, 1, 1, 0), (3, 1, 1, 0)])
}
