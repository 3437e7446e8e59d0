// Trees of rows: built anew, and with rows that come one by one.
ghost use Rattle.std.specs.Prelude.{All, IfSome, OnOk, false, is_some, length, true, ◌+◌, ◌<◌, ◌≡◌, ◌≤◌};
ghost use Rattle.qc_arena.specs.Map.{is_open};
ghost use Rattle.tree_tests.specs.Rows.{HasRows};

use crate::rows::{amount, tuple};
use base_table::Table;
use batch_insert::insert_row;
use cell_core::{Cell, Steps};
use class_builder::build_classes;
use qc_arena::{ArenaRefused, QcArena};
use std::alloc::Global;
use std::sync::ledger::Ledger;
use tree_records::Line;

// A table of the first rows.
pub(crate) fn table_of(alloc: Global, dims: u8, rows: &[Line], count: usize) -> Option<Table>
    requires some_dims { 0 < dims }
    requires few_dims { dims ≤ 6 }
    requires rows { length rows.now ≤ 100 }
    requires count { count ≤ length rows.now }
    ensures { IfSome result (λ table. table.dims ≡ dims) }
{
    let Ok(mut table) = Table::new(alloc, dims, 1, 100) else {
        return None;
    };
    table.begin();
    'rows: for place in 0..count {
        let tuple = tuple(alloc, &rows[place], dims);
        table.insert(place as u64, &tuple, &[amount(place)]).ok();
    }
    table.commit();
    Some(table)
}

// The tree of a table's rows.
fn built_of<L: Ledger>(
    alloc: Global,
    dims: u8,
    table: &Table,
    steps: &mut Steps<L>,
) -> Option<QcArena>
    requires some_dims { 0 < dims }
    requires few_dims { dims ≤ 6 }
    requires dims { table.now.dims ≡ dims }
{
    let Ok(mut arena) = QcArena::new(alloc, dims, 4000) else {
        return None;
    };
    arena.begin();
    match build_classes(alloc, table, &mut arena, steps) {
        Ok(()) => Some(arena),
        Err(_) => {
            drop(arena);
            None
        }
    }
}

// The tree of the first rows, built anew.
pub(crate) fn built<L: Ledger>(
    alloc: Global,
    dims: u8,
    rows: &[Line],
    count: usize,
    steps: &mut Steps<L>,
) -> Option<QcArena>
    requires some_dims { 0 < dims }
    requires few_dims { dims ≤ 6 }
    requires rows { length rows.now ≤ 100 }
    requires count { count ≤ length rows.now }
{
    let table = table_of(alloc, dims, rows, count)?;
    let arena = built_of(alloc, dims, &table, steps);
    drop(table);
    arena
}

// One row comes, in a batch of its own.
pub(crate) fn add<L: Ledger>(
    alloc: Global,
    arena: &mut QcArena,
    tuple: &Cell,
    place: usize,
    steps: &mut Steps<L>,
) -> Result<(), ArenaRefused>
    requires closed { is_open arena.old ≡ false }
    requires width { length tuple.now ≡ arena.old.width }
    requires no_any { All (λ entry. is_some entry ≡ true) tuple.now }
    requires place { place < 100 }
    requires rows { HasRows place arena.old }
    ensures closed { OnOk result (is_open arena.new ≡ false) }
    ensures width { OnOk result (arena.new.width ≡ arena.old.width) }
    ensures rows { OnOk result (HasRows (place + 1) arena.new) }
{
    arena.begin();
    match insert_row(alloc, arena, tuple, &[amount(place)], steps) {
        Ok(()) => {
            arena.commit();
            Ok(())
        }
        Err(error) => {
            arena.rollback();
            Err(error)
        }
    }
}

// The first rows one after another, in an arena of at most so many nodes.
pub(crate) fn inserted<L: Ledger>(
    alloc: Global,
    dims: u8,
    rows: &[Line],
    count: usize,
    max: u32,
    steps: &mut Steps<L>,
) -> Option<QcArena>
    requires some_dims { 0 < dims }
    requires few_dims { dims ≤ 6 }
    requires rows { length rows.now ≤ 100 }
    requires count { count ≤ length rows.now }
    requires some { 0 < max }
    requires few { max ≤ 4000 }
    ensures closed { IfSome result (λ arena. is_open arena ≡ false) }
    ensures width { IfSome result (λ arena. arena.width ≡ dims) }
    ensures rows { IfSome result (λ arena. HasRows count arena) }
{
    let Ok(mut arena) = QcArena::new(alloc, dims, max) else {
        return None;
    };
    'rows: for place in 0..count {
        let tuple = tuple(alloc, &rows[place], dims);
        match add(alloc, &mut arena, &tuple, place, steps) {
            Ok(()) => {}
            Err(_) => {
                drop(arena);
                return None;
            }
        }
    }
    Some(arena)
}
