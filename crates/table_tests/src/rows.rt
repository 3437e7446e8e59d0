// Batches of changes, and the rows that they leave.
ghost use Rattle.std.specs.Prelude.{All, None, is_some, length, nat_abs, true, ◌<◌, ◌≡◌, ◌≤◌};
ghost use Rattle.base_table.specs.Places.{AreThere};

use base_table::{RowNo, Table, TableRefused};
use cell_core::{Cell, Entry};
use cube_defs::MAX_AMOUNT;
use std::alloc::Global;

#[derive(Clone, Copy)]
pub enum Change {
    /// The id, the codes and the amount.
    Insert(u64, u8, u8, i16),
    /// The id.
    Delete(u64),
}

use Change::{Delete, Insert};

#[derive(Clone, Copy, PartialEq, Eq)]
pub enum Reply {
    Done,
    Present,
    Full,
    Memory,
    Missing,
}

use Reply::{Done, Full, Missing, Present};

fn tuple(alloc: Global, a: u8, b: u8) -> Cell
    ensures dims { length result ≡ 2 }
    ensures full { All (λ entry. is_some entry ≡ true) result }
{
    let mut tuple = Cell::any(alloc, 2);
    tuple.set(0, Entry::Is(a as u32));
    tuple.set(1, Entry::Is(b as u32));
    tuple
}

fn insert(alloc: Global, table: &mut Table, id: u64, tuple: &Cell, amount: i16) -> Reply
    requires is_open { is_some table.old.was ≡ true }
    requires dims { length tuple.now ≡ 2 }
    requires full { All (λ entry. is_some entry ≡ true) tuple.now }
    ensures { is_some table.new.was ≡ true }
{
    if table.dims() != 2 || table.measures() != 1 {
        return Reply::Memory;
    }
    match table.insert(id, tuple, &[amount as i64]) {
        Ok(()) => Done,
        Err(TableRefused::Present) => Present,
        Err(TableRefused::Full) => Full,
        Err(TableRefused::Memory) => Reply::Memory,
    }
}

/// Whether a row was put in, with as many values and amounts as the table has.
pub(crate) fn put(table: &mut Table, id: u64, tuple: &Cell, amounts: &[i64]) -> bool
    requires is_open { is_some table.old.was ≡ true }
    requires full { All (λ entry. is_some entry ≡ true) tuple.now }
    requires small { All (λ amount. nat_abs amount ≤ MAX_AMOUNT) amounts.now }
    ensures { is_some table.new.was ≡ true }
{
    if table.dims() != tuple.dims() || table.measures() as usize != amounts.len() {
        return false;
    }
    table.insert(id, tuple, amounts).is_ok()
}

/// Makes a change of a table of two dimensions and a measure.
pub fn make(alloc: Global, table: &mut Table, change: Change) -> Reply
    requires { is_some table.old.was ≡ true }
    ensures { is_some table.new.was ≡ true }
{
    match change {
        Insert(id, a, b, amount) => insert(alloc, table, id, &tuple(alloc, a, b), amount),
        Delete(id) => match table.delete(id) {
            Ok(_) => Done,
            Err(_) => Missing,
        },
    }
}

// Whether each change has its reply.
fn have_replies(alloc: Global, table: &mut Table, changes: &[(Change, Reply)]) -> bool
    requires { is_some table.old.was ≡ true }
    ensures { is_some table.new.was ≡ true }
{
    let mut all = true;
    'changes: for (one, reply) in changes {
        let got = make(alloc, table, *one);
        all = all && got == *reply;
    }
    all
}

// Whether these are the amounts of the rows.
fn have_amounts(table: &Table, rows: &[RowNo], want: &[i64]) -> bool
    requires { AreThere table.now rows.now }
{
    if rows.len() != want.len() || table.measures() == 0 {
        return false;
    }
    'rows: for k in 0..rows.len() {
        if table.amount(rows[k], 0) != want[k] {
            return false;
        }
    }
    true
}

// Whether these are the amounts of all rows, in their order.
fn are_amounts(alloc: Global, table: &Table, want: &[i64]) -> bool {
    let Ok(rows) = table.all(alloc) else {
        return false;
    };
    let have_amounts = have_amounts(table, &rows, want);
    drop(rows);
    have_amounts
}

// Whether just the places that are true have a row.
fn are_places(table: &Table, want: &[bool]) -> bool {
    if table.places() as usize != want.len() {
        return false;
    }
    'places: for place in 0..table.places() {
        if table.at(place).is_some() != want[place as usize] {
            return false;
        }
    }
    true
}

// The count, the sum, the least and the greatest amount of the rows of a tuple.
type Total = Option<(u32, i64, i64, i64)>;

fn group(alloc: Global, table: &Table, a: u8, b: u8) -> Total {
    if table.dims() != 2 {
        return None;
    }
    let agg = table.group(&tuple(alloc, a, b))?;
    let part = agg.parts[0];
    Some((agg.count, part.sum, part.least, part.greatest))
}

// A batch: its changes with their replies, what the rows with the codes 0 and 0 come to while it is
// open, whether it is kept, the amounts after it, and which places have a row then.
struct Batch {
    changes: &'static [(Change, Reply)],
    group: Total,
    is_kept: bool,
    amounts: &'static [i64],
    places: &'static [bool],
}

// Whether the changes of an open batch have their replies, and the rows the group.
fn is_open_right(alloc: Global, table: &mut Table, batch: &Batch) -> bool
    requires { is_some table.old.was ≡ true }
    ensures { is_some table.new.was ≡ true }
{
    have_replies(alloc, table, batch.changes) && group(alloc, table, 0, 0) == batch.group
}

// Whether a batch goes as it says.
fn is_right(alloc: Global, table: &mut Table, batch: &Batch) -> bool
    requires { table.old.was ≡ None }
    ensures { table.new.was ≡ None }
{
    table.begin();
    let is_open_right = is_open_right(alloc, table, batch);
    if batch.is_kept {
        table.commit();
    } else {
        table.rollback();
    }
    is_open_right
        && are_amounts(alloc, table, batch.amounts)
        && are_places(table, batch.places)
        && table.count() as usize == batch.amounts.len()
}

// At most two rows.
static REFUSED: [Batch; 1] = [Batch {
    changes: &[
        (Delete(7), Missing),
        (Insert(7, 0, 1, 10), Done),
        (Insert(7, 1, 1, 20), Present),
        (Insert(8, 0, 1, -30), Done),
        (Insert(9, 0, 1, 40), Full),
        (Insert(7, 0, 1, 40), Present),
        (Delete(9), Missing),
        (Delete(7), Done),
        (Delete(7), Missing),
        (Insert(9, 0, 1, 50), Done),
    ],
    group: None,
    is_kept: true,
    amounts: &[-30, 50],
    places: &[false, true, true],
}];

// At most four rows.
static TAKEN_BACK: [Batch; 3] = [
    Batch {
        changes: &[
            (Insert(1, 0, 0, 10), Done),
            (Insert(2, 0, 1, 20), Done),
            (Insert(3, 0, 0, -30), Done),
        ],
        group: Some((2, -20, -30, 10)),
        is_kept: true,
        amounts: &[10, 20, -30],
        places: &[true, true, true],
    },
    Batch {
        changes: &[
            (Delete(2), Done),
            (Insert(2, 5, 5, 25), Done),
            (Delete(1), Done),
            (Insert(5, 0, 0, 50), Done),
            (Delete(5), Done),
            (Delete(2), Done),
            (Insert(2, 6, 6, 26), Done),
            (Insert(2, 7, 7, 27), Present),
        ],
        group: Some((1, -30, -30, -30)),
        is_kept: false,
        amounts: &[10, 20, -30],
        places: &[true, true, true],
    },
    Batch {
        changes: &[
            (Delete(2), Done),
            (Insert(2, 5, 5, 25), Done),
            (Insert(4, 0, 0, 40), Done),
            (Insert(5, 0, 0, 50), Full),
        ],
        group: Some((3, 20, -30, 40)),
        is_kept: true,
        amounts: &[10, -30, 25, 40],
        places: &[true, false, true, true, true],
    },
];

// Empty places go once they are more than the rows.
static EMPTY_PLACES: [Batch; 4] = [
    Batch {
        changes: &[
            (Insert(1, 0, 0, 10), Done),
            (Insert(2, 0, 1, 20), Done),
            (Insert(3, 0, 0, 30), Done),
            (Insert(4, 0, 1, 40), Done),
            (Insert(5, 0, 0, 50), Done),
        ],
        group: Some((3, 90, 10, 50)),
        is_kept: true,
        amounts: &[10, 20, 30, 40, 50],
        places: &[true, true, true, true, true],
    },
    Batch {
        changes: &[(Delete(1), Done), (Delete(4), Done)],
        group: Some((2, 80, 30, 50)),
        is_kept: true,
        amounts: &[20, 30, 50],
        places: &[false, true, true, false, true],
    },
    Batch {
        changes: &[(Delete(2), Done)],
        group: Some((2, 80, 30, 50)),
        is_kept: true,
        amounts: &[30, 50],
        places: &[true, true],
    },
    Batch {
        changes: &[
            (Insert(1, 0, 0, 60), Done),
            (Insert(3, 0, 0, 70), Present),
            (Delete(3), Done),
        ],
        group: Some((2, 110, 50, 60)),
        is_kept: true,
        amounts: &[50, 60],
        places: &[false, true, true],
    },
];

// Whether all batches go as they say, in a table of at most so many rows.
fn all_right(alloc: Global, max: u32, batches: &[Batch]) -> bool
    requires some { 0 < max }
    requires few { max ≤ 100 }
{
    let Ok(mut table) = Table::new(alloc, 2, 1, max) else {
        return false;
    };
    let mut all = true;
    'batches: for batch in batches {
        let is_right = is_right(alloc, &mut table, batch);
        all = all && is_right;
    }
    drop(table);
    all
}

// Whether the row at the first place has the codes 7 and 9 and the amount -5.
fn is_first_row(table: &Table) -> bool {
    if table.places() == 0 || table.dims() != 2 || table.measures() != 1 {
        return false;
    }
    let Some(row) = table.at(0) else {
        return false;
    };
    table.code(row, 0) == 7
        && table.code(row, 1) == 9
        && table.tuple(row).get(1) == Entry::Is(9)
        && table.amounts(row)[0] == -5
}

// The amounts of a row that is taken out of an open table, and zeros where it isn't there.
fn taken_out(table: &mut Table, id: u64) -> [i64; 4]
    requires { is_some table.old.was ≡ true }
{
    match table.delete(id) {
        Ok(taken) => taken.amounts,
        Err(_) => [0; 4],
    }
}

// Whether a row is put into a table, read and taken out again.
fn is_read_and_taken(alloc: Global, id: u64) -> bool {
    let Ok(mut table) = Table::new(alloc, 2, 1, 1) else {
        return false;
    };
    table.begin();
    make(alloc, &mut table, Insert(id, 7, 9, -5));
    let is_read = is_first_row(&table);
    let amounts = taken_out(&mut table, id);
    drop(table);
    is_read && amounts == [-5, 0, 0, 0]
}

/// Whether batches change the rows, and a row is read and taken out.
pub(crate) fn are_right(alloc: Global) -> bool {
    is_read_and_taken(alloc, 18_446_744_073_709_551_615)
        && all_right(alloc, 2, &REFUSED)
        && all_right(alloc, 4, &TAKEN_BACK)
        && all_right(alloc, 6, &EMPTY_PLACES)
}
