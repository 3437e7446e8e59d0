// Rows that get a dimension more, and lose it where the batch is taken back.
ghost use Rattle.std.specs.Prelude.{All, None, is_some, length, true, ◌≡◌};

use crate::rows::Change::{Delete, Insert};
use crate::rows::{make, put};
use base_table::Table;
use cell_core::{Cell, Code, Entry};
use std::alloc::Global;

// Puts two rows into an empty table, and keeps them.
fn fill(alloc: Global, table: &mut Table)
    requires { table.old.was ≡ None }
    ensures { table.new.was ≡ None }
{
    table.begin();
    make(alloc, table, Insert(1, 3, 4, 10));
    make(alloc, table, Insert(2, 3, 5, 20));
    table.commit();
}

// Whether the rows could get the code.
fn widen(table: &mut Table, code: Code) -> bool
    requires { is_some table.old.was ≡ true }
    ensures { is_some table.new.was ≡ true }
{
    if table.dims() >= 16 || code >= 4_000_000 {
        return false;
    }
    table.widen(code);
    true
}

// Whether these are the codes of the row at a place, none where no row is there.
fn are_codes(table: &Table, place: u32, want: &[Code]) -> bool {
    if place >= table.places() {
        return want.is_empty();
    }
    let Some(row) = table.at(place) else {
        return want.is_empty();
    };
    if usize::from(table.dims()) != want.len() {
        return false;
    }
    'dims: for dim in 0..table.dims() {
        if table.code(row, dim) != want[dim as usize] {
            return false;
        }
    }
    true
}

// A batch: the code that the rows get, the row that goes then, whether it is kept, and the codes at
// the two places after it.
struct Batch {
    code: Code,
    deleted: u64,
    is_kept: bool,
    first: &'static [Code],
    second: &'static [Code],
}

// Whether a batch goes as it says.
fn is_right(alloc: Global, table: &mut Table, batch: &Batch) -> bool
    requires { table.old.was ≡ None }
    ensures { table.new.was ≡ None }
{
    table.begin();
    let is_wider = widen(table, batch.code);
    make(alloc, table, Delete(batch.deleted));
    if batch.is_kept {
        table.commit();
    } else {
        table.rollback();
    }
    is_wider && are_codes(table, 0, batch.first) && are_codes(table, 1, batch.second)
}

// No row has the id 9.
static BATCHES: [Batch; 5] = [
    Batch {
        code: 7,
        deleted: 9,
        is_kept: false,
        first: &[3, 4],
        second: &[3, 5],
    },
    Batch {
        code: 7,
        deleted: 2,
        is_kept: false,
        first: &[3, 4],
        second: &[3, 5],
    },
    Batch {
        code: 7,
        deleted: 9,
        is_kept: true,
        first: &[3, 4, 7],
        second: &[3, 5, 7],
    },
    Batch {
        code: 0,
        deleted: 1,
        is_kept: false,
        first: &[3, 4, 7],
        second: &[3, 5, 7],
    },
    Batch {
        code: 3_999_999,
        deleted: 1,
        is_kept: true,
        first: &[],
        second: &[3, 5, 7, 3_999_999],
    },
];

// Whether all batches go as they say.
fn all_right(alloc: Global) -> bool {
    let Ok(mut table) = Table::new(alloc, 2, 1, 4) else {
        return false;
    };
    fill(alloc, &mut table);
    let mut all = true;
    'batches: for batch in &BATCHES {
        let is_right = is_right(alloc, &mut table, batch);
        all = all && is_right;
    }
    drop(table);
    all
}

// A tuple of three dimensions.
fn triple(alloc: Global, a: u8, b: u8, c: u8) -> Cell
    ensures dims { length result ≡ 3 }
    ensures full { All (λ entry. is_some entry ≡ true) result }
{
    let mut tuple = Cell::any(alloc, 3);
    tuple.set(0, Entry::Is(a as u32));
    tuple.set(1, Entry::Is(b as u32));
    tuple.set(2, Entry::Is(c as u32));
    tuple
}

// The sum of the rows of a tuple.
fn sum_of(alloc: Global, table: &Table, a: u8, b: u8, c: u8) -> Option<i64> {
    if table.dims() != 3 {
        return None;
    }
    let agg = table.group(&triple(alloc, a, b, c))?;
    Some(agg.parts[0].sum)
}

// Gives the rows a code, and puts in two rows with codes of their own.
fn widen_and_add(alloc: Global, table: &mut Table)
    requires { table.old.was ≡ None }
{
    table.begin();
    widen(table, 7);
    table.commit();
    table.begin();
    put(table, 3, &triple(alloc, 3, 4, 8), &[5]);
    put(table, 4, &triple(alloc, 3, 4, 7), &[5]);
    table.commit();
}

// Whether a row that comes after the others has a code of its own.
fn are_sums(alloc: Global) -> bool {
    let Ok(mut table) = Table::new(alloc, 2, 1, 4) else {
        return false;
    };
    fill(alloc, &mut table);
    widen_and_add(alloc, &mut table);
    let are_right = sum_of(alloc, &table, 3, 4, 7) == Some(15)
        && sum_of(alloc, &table, 3, 4, 8) == Some(5)
        && sum_of(alloc, &table, 3, 5, 7) == Some(20)
        && sum_of(alloc, &table, 3, 5, 8).is_none();
    drop(table);
    are_right
}

/// Whether rows get a code, and are those of their tuples then.
pub(crate) fn are_right(alloc: Global) -> bool {
    all_right(alloc) && are_sums(alloc)
}
