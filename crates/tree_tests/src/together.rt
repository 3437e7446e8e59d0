// Images of two batches, put together.
ghost use Rattle.std.specs.Prelude.{false, true, ◌≡◌};
ghost use Rattle.qc_arena.specs.Map.{is_open};

use crate::images::{Told, told};
use cell_core::{NodeNo, Steps};
use qc_arena::{Images, Nodes, QcArena};
use std::alloc::Global;
use std::sync::ledger::Ledger;

// What a batch does to a node.
#[derive(Clone, Copy)]
enum Change {
    Touched,
    Dropped,
    Killed,
}

// Adds a root and a node under it with the value 7 in dimension 1, and the edge to it, if there is
// no root.
fn plant<L: Ledger>(arena: &mut QcArena, steps: &mut Steps<L>)
    requires { is_open arena.old ≡ true }
    ensures { is_open arena.new ≡ true }
{
    if arena.dims() != 3 || arena.root(steps).is_some() {
        return;
    }
    let Ok(root) = arena.add_node(None, steps) else {
        return;
    };
    if let Ok(child) = arena.add_node(Some((root, 1, 7)), steps) {
        arena.set_edge(root, 1, 7, child, steps).ok();
    }
}

// Touches a node that is there, and drops its edge or kills it, if that is asked.
fn edit<L: Ledger>(arena: &mut QcArena, node: NodeNo, what: Change, steps: &mut Steps<L>)
    requires { is_open arena.old ≡ true }
    ensures { is_open arena.new ≡ true }
{
    if !arena.has(node) || arena.touch(node, steps).is_err() {
        return;
    }
    match what {
        Change::Touched => {}
        Change::Dropped => arena.drop_edge(node, 1, 7, steps),
        Change::Killed => arena.kill(node, steps),
    }
}

// A batch.
#[derive(Clone, Copy)]
enum Batch {
    Plants,
    /// What it does to the node of a number.
    Edits(u32, Change),
    Nothing,
}

// The numbers of the root and of the node under it are 0 and 1, also where both were killed and are
// added again.
static BATCHES: [Batch; 7] = [
    Batch::Plants,
    Batch::Edits(1, Change::Killed),
    Batch::Edits(0, Change::Killed),
    Batch::Plants,
    Batch::Edits(0, Change::Dropped),
    Batch::Edits(0, Change::Touched),
    Batch::Nothing,
];

fn make<L: Ledger>(arena: &mut QcArena, batch: Batch, steps: &mut Steps<L>)
    requires { is_open arena.old ≡ true }
    ensures { is_open arena.new ≡ true }
{
    match batch {
        Batch::Plants => plant(arena, steps),
        Batch::Edits(node, what) => edit(arena, NodeNo(node), what, steps),
        Batch::Nothing => {}
    }
}

// One of the batches.
fn take_batch<L: Ledger>(arena: &mut QcArena, number: u8, steps: &mut Steps<L>)
    requires { is_open arena.old ≡ false }
    ensures { is_open arena.new ≡ false }
{
    arena.begin();
    if let Some(batch) = BATCHES.get(usize::from(number)) {
        make(arena, *batch, steps);
    }
    arena.commit();
}

// The images of a batch, after those before it.
fn images_of<L: Ledger>(alloc: Global, last: u8, steps: &mut Steps<L>) -> Option<Images> {
    let Ok(mut arena) = QcArena::new(alloc, 3, 2) else {
        return None;
    };
    'batches: for number in 0..last {
        take_batch(&mut arena, number, steps);
    }
    take_batch(&mut arena, last, steps);
    let images = arena.last_images();
    drop(arena);
    Some(images)
}

// The images of an older batch put over those of a later one, of how many numbers they speak, and
// what they say of the root and of the node under it.
type Case = (u8, u8, usize, Told, Told);

const SAME: Told = None;

const GONE: Told = Some(None);

const ROOT: Told = Some(Some((1, None)));

const BARE: Told = Some(Some((0, None)));

const CHILD: Told = Some(Some((0, Some((1, 7)))));

static CASES: [Case; 10] = [
    // Numbers in one of both.
    (1, 2, 2, ROOT, CHILD),
    (2, 1, 2, ROOT, CHILD),
    (1, 5, 2, BARE, CHILD),
    // Added and then killed; killed and then added again.
    (0, 1, 2, GONE, GONE),
    (0, 4, 2, GONE, GONE),
    (1, 3, 2, GONE, CHILD),
    // A record in both.
    (4, 5, 1, ROOT, SAME),
    (5, 4, 1, BARE, SAME),
    // Nothing in one of both.
    (6, 1, 1, SAME, CHILD),
    (3, 6, 2, GONE, GONE),
];

fn tell(images: &Images, node: u32, want: Told) -> bool {
    told(images, NodeNo(node)) == want
}

// Whether images say what a case does, and nothing of a number without a node.
fn say(images: &Images, case: &Case) -> bool {
    let (_, _, count, of_root, of_child) = *case;
    images.count() == count
        && tell(images, 0, of_root)
        && tell(images, 1, of_child)
        && tell(images, 9, SAME)
}

// Puts images over later ones, if memory is there.
fn is_put_over(images: &mut Images, later: Images) -> bool {
    match images.merge_later(later) {
        Ok(()) => true,
        Err(later) => {
            drop(later);
            false
        }
    }
}

fn holds<L: Ledger>(alloc: Global, case: &Case, steps: &mut Steps<L>) -> bool {
    let (older, later, _, _, _) = *case;
    let Some(mut images) = images_of(alloc, older, steps) else {
        return false;
    };
    let is_put_over = match images_of(alloc, later, steps) {
        Some(later) => is_put_over(&mut images, later),
        None => false,
    };
    let holds = is_put_over && say(&images, case);
    drop(images);
    holds
}

/// Whether images are put together as the cases say.
pub(crate) fn are_right<L: Ledger>(alloc: Global, steps: &mut Steps<L>) -> bool {
    'cases: for case in &CASES {
        if !holds(alloc, case, steps) {
            return false;
        }
    }
    true
}
