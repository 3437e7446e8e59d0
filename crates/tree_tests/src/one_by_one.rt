// Rows come one by one: each to the tree that is built of all of them, and with fewer nodes to
// none.
ghost use Rattle.std.specs.Prelude.{length, ◌<◌, ◌≡◌, ◌≤◌};

use crate::draw::Draw;
use crate::rows::{have_totals, tuple};
use crate::trees::{add, built, inserted};
use cell_core::Steps;
use qc_arena::{ArenaRefused, QcArena};
use std::alloc::Global;
use std::sync::ledger::Ledger;
use tree_records::{Line, are_kept, are_same, cells};

// Whether a tree has the records of the other, and the totals of the first rows.
fn is_right<L: Ledger>(
    one: &QcArena,
    other: &QcArena,
    rows: &[Line],
    count: usize,
    steps: &mut Steps<L>,
) -> bool
    requires rows { length rows.now ≤ 100 }
    requires count { count ≤ length rows.now }
{
    are_same(one, other, steps) && have_totals(one, rows, count, steps)
}

// Whether the row at a place comes right to those before it, where there may be so many nodes: it
// is refused as full where the tree with it has more, and then the tree before it is there again.
fn comes<L: Ledger>(
    alloc: Global,
    dims: u8,
    rows: &[Line],
    place: usize,
    max: u32,
    before: &QcArena,
    after: &QcArena,
    steps: &mut Steps<L>,
) -> Option<bool>
    requires some_dims { 0 < dims }
    requires few_dims { dims ≤ 6 }
    requires rows { length rows.now ≤ 100 }
    requires place { place < length rows.now }
    requires some { 0 < max }
    requires few { max ≤ 4000 }
{
    let mut arena = inserted(alloc, dims, rows, place, max, steps)?;
    let Ok(cells) = cells(alloc, &arena, steps) else {
        drop(arena);
        return None;
    };
    let tuple = tuple(alloc, &rows[place], dims);
    let is_as_wanted = match add(alloc, &mut arena, &tuple, place, steps) {
        Ok(()) => max >= after.live() && is_right(&arena, after, rows, place + 1, steps),
        Err(ArenaRefused::Full) => {
            max < after.live() && is_right(&arena, before, rows, place, steps)
        }
        Err(ArenaRefused::Memory) => false,
    };
    let is_right = is_as_wanted && are_kept(&cells, before, &arena, steps);
    drop(arena);
    Some(is_right)
}

// The same for each number of nodes from that before it to that with it.
fn comes_between<L: Ledger>(
    alloc: Global,
    dims: u8,
    rows: &[Line],
    place: usize,
    before: &QcArena,
    after: &QcArena,
    steps: &mut Steps<L>,
) -> Option<bool>
    requires some_dims { 0 < dims }
    requires few_dims { dims ≤ 6 }
    requires rows { length rows.now ≤ 100 }
    requires place { place < length rows.now }
{
    let (least, most) = (before.live(), after.live());
    if most > 600 {
        return None;
    }
    'max: for max in least..most + 1 {
        if max > 0 && comes(alloc, dims, rows, place, max, before, after, steps) != Some(true) {
            return Some(false);
        }
    }
    Some(true)
}

// The same between trees of its own.
fn comes_at_each<L: Ledger>(
    alloc: Global,
    dims: u8,
    rows: &[Line],
    place: usize,
    steps: &mut Steps<L>,
) -> Option<bool>
    requires some_dims { 0 < dims }
    requires few_dims { dims ≤ 6 }
    requires rows { length rows.now ≤ 100 }
    requires place { place < length rows.now }
{
    let before = built(alloc, dims, rows, place, steps)?;
    let Some(after) = built(alloc, dims, rows, place + 1, steps) else {
        drop(before);
        return None;
    };
    let comes = comes_between(alloc, dims, rows, place, &before, &after, steps);
    drop(before);
    drop(after);
    comes
}

// The same for each of the rows.
fn all_come<L: Ledger>(alloc: Global, dims: u8, rows: &[Line], steps: &mut Steps<L>) -> bool
    requires some_dims { 0 < dims }
    requires few_dims { dims ≤ 6 }
    requires rows { length rows.now ≤ 100 }
{
    'rows: for place in 0..rows.len() {
        if comes_at_each(alloc, dims, rows, place, steps) != Some(true) {
            return false;
        }
    }
    true
}

// Rows of values below so many, drawn from a seed; the fourth has the values of the second.
fn drawn(seed: u64, values: u8) -> [Line; 7]
    requires { 0 < values }
{
    let mut draw = Draw { seed };
    let mut rows = [[0u8; 6]; 7];
    'rows: for place in 0..7 {
        'dims: for dim in 0..6 {
            rows[place][dim] = draw.below(u64::from(values)) as u8;
        }
    }
    rows[3] = rows[1];
    rows
}

// The dimensions, and the rows.
static WRITTEN: [(u8, [Line; 4]); 4] = [
    (
        1,
        [
            [2, 0, 0, 0, 0, 0],
            [1, 0, 0, 0, 0, 0],
            [2, 0, 0, 0, 0, 0],
            [0, 0, 0, 0, 0, 0],
        ],
    ),
    (
        2,
        [
            [0, 0, 0, 0, 0, 0],
            [0, 0, 0, 0, 0, 0],
            [1, 1, 0, 0, 0, 0],
            [1, 0, 0, 0, 0, 0],
        ],
    ),
    (
        3,
        [
            [0, 0, 0, 0, 0, 0],
            [0, 1, 0, 0, 0, 0],
            [1, 0, 1, 0, 0, 0],
            [1, 1, 1, 0, 0, 0],
        ],
    ),
    (
        6,
        [
            [0, 1, 2, 1, 0, 2],
            [0, 1, 0, 1, 1, 2],
            [2, 1, 0, 0, 0, 2],
            [0, 0, 2, 1, 0, 1],
        ],
    ),
];

// The dimensions, and how many values there are in each.
static DRAWN: [(u8, u8); 8] = [
    (1, 4),
    (2, 2),
    (2, 3),
    (3, 3),
    (4, 2),
    (4, 4),
    (5, 3),
    (6, 3),
];

fn are_written_right<L: Ledger>(alloc: Global, steps: &mut Steps<L>) -> bool {
    'cases: for (dims, rows) in &WRITTEN {
        if *dims == 0 || *dims > 6 || !all_come(alloc, *dims, rows, steps) {
            return false;
        }
    }
    true
}

/// Whether written and drawn rows come one by one.
pub(crate) fn are_right<L: Ledger>(alloc: Global, steps: &mut Steps<L>) -> bool {
    'cases: for (dims, values) in &DRAWN {
        if *dims == 0 || *dims > 6 || *values == 0 {
            return false;
        }
        if !all_come(alloc, *dims, &drawn(17, *values), steps) {
            return false;
        }
    }
    are_written_right(alloc, steps)
}
