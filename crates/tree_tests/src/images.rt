// What images say of numbers.
ghost use Rattle.std.specs.Prelude.{IsSome, true, ◌≡◌};
ghost use Rattle.std.specs.FinMap as map;
ghost use Rattle.qc_arena.specs.Map.{is_open};

use crate::grown::grown;
use cell_core::{Code, NodeNo, Steps};
use qc_arena::{Images, Look, QcArena};
use std::alloc::Global;
use std::sync::ledger::Ledger;

// What images say: of how many edges a node was, and its last value.
pub(crate) type Told = Option<Option<(u32, Option<(u8, Code)>)>>;

pub(crate) fn told(images: &Images, node: NodeNo) -> Told {
    match images.look(node) {
        Look::Same => None,
        Look::Gone => Some(None),
        Look::Was(record) => Some(Some((record.edge_count(), record.end_of()))),
    }
}

// Adds a root and a node under it, and in a second batch kills the node. What the first batch's
// images say of the node, what the second's say of root, node and a number without a node, and what
// is said of the root once they are moved out.
fn looked<L: Ledger>(alloc: Global, steps: &mut Steps<L>) -> Option<[Told; 5]> {
    let (mut arena, root, child) = grown(alloc, steps)?;
    arena.commit();
    let first = told_of(arena.last_images(), child);
    arena.begin();
    if !cut_off(&mut arena, root, child, steps) {
        drop(arena);
        return None;
    }
    arena.commit();
    let [of_root, of_child, of_none] = told_of_three(arena.last_images(), root, child);
    let rest = told_of(arena.last_images(), root);
    drop(arena);
    Some([first, of_root, of_child, of_none, rest])
}

// Kills a node and drops the edge to it. It tells whether memory was there.
fn cut_off<L: Ledger>(
    arena: &mut QcArena,
    root: NodeNo,
    child: NodeNo,
    steps: &mut Steps<L>,
) -> bool
    requires opened { is_open arena.old ≡ true }
    requires child { IsSome (map.get arena.old.now child.0) }
    ensures { is_open arena.new ≡ true }
{
    if arena.touch(child, steps).is_err() {
        return false;
    }
    arena.kill(child, steps);
    if !arena.has(root) || arena.touch(root, steps).is_err() {
        return false;
    }
    arena.drop_edge(root, 1, 7, steps);
    true
}

// What images say of a node.
fn told_of(images: Images, node: NodeNo) -> Told {
    let seen = told(&images, node);
    drop(images);
    seen
}

// What images say of two nodes, and of a number without a node.
fn told_of_three(images: Images, root: NodeNo, child: NodeNo) -> [Told; 3] {
    let seen = [
        told(&images, root),
        told(&images, child),
        told(&images, NodeNo(9)),
    ];
    drop(images);
    seen
}

/// Whether the images say that.
pub(crate) fn are_looked_up<L: Ledger>(alloc: Global, steps: &mut Steps<L>) -> bool {
    let root = Some(Some((1, None)));
    let child = Some(Some((0, Some((1, 7)))));
    looked(alloc, steps) == Some([Some(None), root, child, None, None])
}
