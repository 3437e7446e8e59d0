ghost use Rattle.std.specs.FinMap as map;
ghost use Rattle.std.specs.Prelude.{IfSome, IsSome, None, OnSome, Some, replicate, true, ◌<◌, ◌≡◌};
ghost use Rattle.cell_core.specs.Entry.{IsCode};
ghost use Rattle.cube_defs.specs.Tree.{cell_at};
ghost use Rattle.qc_arena.specs.Map.{is_open};

use aggregates::Agg;
use cell_core::{Code, NodeNo, Steps};
use class_builder::{add_child, add_root, mark_class, set_link};
use qc_arena::{Nodes, QcArena};
use std::alloc::Global;
use std::sync::ledger::Ledger;

// An arena of at most three nodes, with its root.
fn planted<L: Ledger>(alloc: Global, steps: &mut Steps<L>) -> Option<(QcArena, NodeNo)>
    ensures width { IfSome result (λ p. p.0.width ≡ 3) }
    ensures opened { IfSome result (λ p. is_open p.0 ≡ true) }
    ensures root { IfSome result (λ p. cell_at p.0.now p.1.0 ≡ Some (replicate 3 None)) }
{
    let Ok(mut arena) = QcArena::new(alloc, 3, 3) else {
        return None;
    };
    arena.begin();
    let Ok(root) = add_root(&mut arena, steps) else {
        drop(arena);
        return None;
    };
    Some((arena, root))
}

// A node more under the root.
fn grown<L: Ledger>(
    arena: &mut QcArena,
    root: NodeNo,
    dim: u8,
    code: Code,
    is_forced: bool,
    steps: &mut Steps<L>,
) -> Option<NodeNo>
    requires width { arena.old.width ≡ 3 }
    requires opened { is_open arena.old ≡ true }
    requires root { cell_at arena.old.now root.0 ≡ Some (replicate 3 None) }
    requires dim { dim < 3 }
    requires code { IsCode code }
    ensures width { arena.new.width ≡ 3 }
    ensures opened { is_open arena.new ≡ true }
    ensures root { OnSome result (cell_at arena.new.now root.0 ≡ Some (replicate 3 None)) }
    ensures child { IfSome result (λ k. IsSome (map.get arena.new.now k.0)) }
{
    if arena.touch(root, steps).is_err() {
        return None;
    }
    match add_child(arena, root, dim, code, is_forced, steps) {
        Ok(child) => Some(child),
        Err(_) => None,
    }
}

// A link more from the root.
fn linked<L: Ledger>(
    arena: &mut QcArena,
    root: NodeNo,
    dim: u8,
    code: Code,
    target: NodeNo,
    steps: &mut Steps<L>,
) -> Option<()>
    requires width { arena.old.width ≡ 3 }
    requires opened { is_open arena.old ≡ true }
    requires root { cell_at arena.old.now root.0 ≡ Some (replicate 3 None) }
    requires target { IsSome (map.get arena.old.now target.0) }
    requires dim { dim < 3 }
    requires code { IsCode code }
    ensures width { arena.new.width ≡ 3 }
    ensures opened { is_open arena.new ≡ true }
    ensures root { OnSome result (cell_at arena.new.now root.0 ≡ Some (replicate 3 None)) }
{
    if arena.touch(root, steps).is_err() {
        return None;
    }
    match set_link(arena, root, dim, code, target, steps) {
        Ok(()) => Some(()),
        Err(_) => None,
    }
}

// The root's class.
fn marked<L: Ledger>(
    arena: &mut QcArena,
    root: NodeNo,
    agg: Agg,
    steps: &mut Steps<L>,
) -> Option<()>
    requires opened { is_open arena.old ≡ true }
    requires root { cell_at arena.old.now root.0 ≡ Some (replicate 3 None) }
    ensures root { OnSome result (cell_at arena.new.now root.0 ≡ Some (replicate 3 None)) }
{
    if arena.touch(root, steps).is_err() {
        return None;
    }
    mark_class(arena, root, agg, steps);
    Some(())
}

// What is read of the root: the forced child, the edges, and how many rows its class has.
#[derive(Clone, Copy)]
struct Seen {
    forced: Option<(u8, Code, NodeNo)>,
    edges: [Option<NodeNo>; 4],
    rows: u32,
}

fn read_root<L: Ledger>(arena: &QcArena, root: NodeNo, steps: &mut Steps<L>) -> Seen
    requires root { IsSome (map.get arena.now.now root.0) }
{
    let edges = [
        arena.edge(root, 0, 5, steps),
        arena.edge(root, 1, 6, steps),
        arena.edge(root, 2, 7, steps),
        arena.edge(root, 1, 5, steps),
    ];
    let rows = match arena.class(root, steps) {
        Some(agg) => agg.count,
        None => 0,
    };
    let forced = match arena.forced(root, steps) {
        Some(edge) => Some((edge.dim, edge.code, edge.child)),
        None => None,
    };
    Seen {
        forced,
        edges,
        rows,
    }
}

// Gives a root two children, the second forced, a link to the second, and its class. The numbers of
// both.
fn act_on<L: Ledger>(
    arena: &mut QcArena,
    root: NodeNo,
    steps: &mut Steps<L>,
) -> Option<(NodeNo, NodeNo)>
    requires width { arena.old.width ≡ 3 }
    requires opened { is_open arena.old ≡ true }
    requires root { cell_at arena.old.now root.0 ≡ Some (replicate 3 None) }
    ensures root { OnSome result (cell_at arena.new.now root.0 ≡ Some (replicate 3 None)) }
{
    let first = grown(arena, root, 0, 5, false, steps)?;
    let second = grown(arena, root, 2, 7, true, steps)?;
    linked(arena, root, 1, 6, second, steps)?;
    marked(arena, root, Agg::one(&[4]), steps)?;
    Some((first, second))
}

// The same in a new arena, and what is then read of the root.
fn acted<L: Ledger>(alloc: Global, steps: &mut Steps<L>) -> Option<(Seen, NodeNo, NodeNo)> {
    let (mut arena, root) = planted(alloc, steps)?;
    let Some((first, second)) = act_on(&mut arena, root, steps) else {
        drop(arena);
        return None;
    };
    let seen = read_root(&arena, root, steps);
    drop(arena);
    Some((seen, first, second))
}

/// Whether acts are read back.
pub(crate) fn are_right<L: Ledger>(alloc: Global, steps: &mut Steps<L>) -> bool {
    let Some((seen, first, second)) = acted(alloc, steps) else {
        return false;
    };
    seen.forced == Some((2, 7, second))
        && seen.edges == [Some(first), Some(second), Some(second), None]
        && seen.rows == 1
}
