// Batches that stop somewhere and are taken back: each cell is found under its old number.
ghost use Rattle.std.specs.Prelude.{IfSome, IsSome, false, length, true, ◌≡◌};
ghost use Rattle.std.specs.FinMap as map;
ghost use Rattle.qc_arena.specs.Map.{frame, is_open, shape_of};
ghost use Rattle.tree_search.specs.Found.{IsTree};

use crate::trees::table_of;
use base_table::Table;
use cell_core::{Cell, Entry, NodeNo, Steps};
use class_builder::build_classes;
use qc_arena::{ArenaRefused, Nodes, QcArena};
use std::alloc::Global;
use std::sync::ledger::Ledger;
use tree_records::Line;
use tree_search::find;

// Rows of two dimensions. Their tree has seven nodes, of which six are classes.
const FEW: [Line; 3] = [[0; 6], [0, 1, 0, 0, 0, 0], [1, 0, 0, 0, 0, 0]];

// The tree of these has nine nodes.
const MORE: [Line; 4] = [
    [0; 6],
    [0, 1, 0, 0, 0, 0],
    [1, 0, 0, 0, 0, 0],
    [1, 1, 0, 0, 0, 0],
];

// The tree of the table's rows, in an arena of at most seven nodes.
fn built<L: Ledger>(alloc: Global, table: &Table, steps: &mut Steps<L>) -> Option<QcArena>
    requires { table.now.dims ≡ 2 }
    ensures width { IfSome result (λ arena. arena.width ≡ 2) }
    ensures closed { IfSome result (λ arena. is_open arena ≡ false) }
    ensures tree { IfSome result (λ arena. IsTree arena.width arena.now) }
{
    let Ok(mut arena) = QcArena::new(alloc, 2, 7) else {
        return None;
    };
    arena.begin();
    match build_classes(alloc, table, &mut arena, steps) {
        Ok(()) => {}
        Err(_) => {
            drop(arena);
            return None;
        }
    }
    arena.commit();
    table.recall_invariant();
    Some(arena)
}

// A cell of two dimensions; 2 stands for Any.
fn cell_of(alloc: Global, first: u8, second: u8) -> Cell
    ensures { length result ≡ 2 }
{
    let mut cell = Cell::any(alloc, 2);
    if first < 2 {
        cell.set(0, Entry::Is(first as u32));
    }
    if second < 2 {
        cell.set(1, Entry::Is(second as u32));
    }
    cell
}

// The numbers of the closures of all cells.
fn numbers<L: Ledger>(alloc: Global, arena: &QcArena, steps: &mut Steps<L>) -> [Option<NodeNo>; 9]
    requires width { arena.now.width ≡ 2 }
    requires tree { IsTree arena.now.width arena.now.now }
{
    let mut found = [None; 9];
    'cells: for k in 0..9u8 {
        let cell = cell_of(alloc, k % 3, k / 3);
        found[k as usize] = find(arena, &cell, steps);
    }
    found
}

// Kills a node, where memory is there.
fn killed<L: Ledger>(arena: &mut QcArena, node: NodeNo, steps: &mut Steps<L>)
    requires opened { is_open arena.old ≡ true }
    requires there { IsSome (map.get arena.old.now node.0) }
    ensures { frame arena.new ≡ frame arena.old }
{
    if arena.touch(node, steps).is_ok() {
        arena.kill(node, steps);
    }
}

// Kills the root, where memory is there.
fn root_killed<L: Ledger>(arena: &mut QcArena, steps: &mut Steps<L>)
    requires { is_open arena.old ≡ true }
    ensures { frame arena.new ≡ frame arena.old }
{
    if let Some(root) = arena.root(steps) {
        killed(arena, root, steps);
    }
}

// Stops a batch after its first kill.
fn stopped_after_a_kill<L: Ledger>(arena: &mut QcArena, steps: &mut Steps<L>)
    requires { is_open arena.old ≡ false }
    ensures back { shape_of arena.new ≡ shape_of arena.old }
    ensures closed { is_open arena.new ≡ false }
{
    arena.begin();
    root_killed(arena, steps);
    arena.rollback();
}

// Takes all nodes out and builds another tree. It tells whether that has few enough nodes.
fn rebuilt<L: Ledger>(
    alloc: Global,
    table: &Table,
    arena: &mut QcArena,
    steps: &mut Steps<L>,
) -> Option<bool>
    requires opened { is_open arena.old ≡ true }
    requires width { arena.old.width ≡ table.now.dims }
    ensures { frame arena.new ≡ frame arena.old }
{
    match arena.clear(steps) {
        Ok(()) => {}
        Err(_) => return None,
    }
    match build_classes(alloc, table, arena, steps) {
        Ok(()) => Some(true),
        Err(ArenaRefused::Full) => Some(false),
        Err(ArenaRefused::Memory) => None,
    }
}

// Stops a batch in building another tree, where that has too many nodes, and else after its last
// edge.
fn stopped_in_building<L: Ledger>(
    alloc: Global,
    table: &Table,
    arena: &mut QcArena,
    steps: &mut Steps<L>,
) -> Option<bool>
    requires closed { is_open arena.old ≡ false }
    requires width { arena.old.width ≡ table.now.dims }
    ensures back { shape_of arena.new ≡ shape_of arena.old }
    ensures closed { is_open arena.new ≡ false }
{
    arena.begin();
    let fits = rebuilt(alloc, table, arena, steps);
    arena.rollback();
    fits
}

// The numbers of all cells in a tree of few rows at first, after a kill, after a tree that was
// built in part, and after one that was built whole.
fn found_each<L: Ledger>(
    alloc: Global,
    few: &Table,
    more: &Table,
    arena: &mut QcArena,
    steps: &mut Steps<L>,
) -> Option<[[Option<NodeNo>; 9]; 4]>
    requires few { few.now.dims ≡ 2 }
    requires more { more.now.dims ≡ 2 }
    requires width { arena.old.width ≡ 2 }
    requires closed { is_open arena.old ≡ false }
    requires tree { IsTree arena.old.width arena.old.now }
{
    let first = numbers(alloc, arena, steps);
    stopped_after_a_kill(arena, steps);
    let killed = numbers(alloc, arena, steps);
    let Some(false) = stopped_in_building(alloc, more, arena, steps) else {
        return None;
    };
    let in_part = numbers(alloc, arena, steps);
    let Some(true) = stopped_in_building(alloc, few, arena, steps) else {
        return None;
    };
    let whole = numbers(alloc, arena, steps);
    Some([first, killed, in_part, whole])
}

// The same in a new tree.
fn found_in<L: Ledger>(
    alloc: Global,
    few: &Table,
    more: &Table,
    steps: &mut Steps<L>,
) -> Option<[[Option<NodeNo>; 9]; 4]>
    requires few { few.now.dims ≡ 2 }
    requires more { more.now.dims ≡ 2 }
{
    let mut arena = built(alloc, few, steps)?;
    let found = found_each(alloc, few, more, &mut arena, steps);
    drop(arena);
    found
}

// The same for tables of their own.
fn found_again<L: Ledger>(alloc: Global, steps: &mut Steps<L>) -> Option<[[Option<NodeNo>; 9]; 4]> {
    let few = table_of(alloc, 2, &FEW, 3)?;
    let Some(more) = table_of(alloc, 2, &MORE, 4) else {
        drop(few);
        return None;
    };
    let found = found_in(alloc, &few, &more, steps);
    drop(few);
    drop(more);
    found
}

// No row has the value 1 in both dimensions. The closure of the value 1 alone has 0 in the other
// dimension, and the reverse.
fn are_closures(first: &[Option<NodeNo>; 9]) -> bool {
    first[4].is_none()
        && first[7].is_some()
        && first[7] == first[1]
        && first[5] == first[3]
        && first[8] != first[2]
}

/// Whether cells keep their numbers where a batch is taken back.
pub(crate) fn are_right<L: Ledger>(alloc: Global, steps: &mut Steps<L>) -> bool {
    match found_again(alloc, steps) {
        Some(numbers) => are_closures(&numbers[0]) && numbers == [numbers[0]; 4],
        None => false,
    }
}
