// Rows are ordered by their tuples and parted by their codes, and share values.
ghost use Rattle.std.specs.Prelude.{◌<◌};

use crate::fields::has_entries;
use crate::rows::{Change, make};
use base_table::Table;
use cell_closure::{Parts, SortedRows, TableRows, closure_of, part};
use cell_core::{Code, Entry};
use std::alloc::{AllocError, Global};

// The code of a row, and the row's place.
type Pair = (Code, u32);

// A table of these codes, a row each, whose ids are their places.
fn table_of(alloc: Global, rows: &[(u8, u8)]) -> Result<Table, AllocError> {
    let mut table = Table::new(alloc, 2, 1, 100)?;
    table.begin();
    'rows: for place in 0..rows.len() {
        let (a, b) = rows[place];
        make(alloc, &mut table, Change::Insert(place as u64, a, b, 0));
    }
    table.commit();
    Ok(table)
}

// How many of the pairs come up to the end of a part, if its rows are those from a place on.
fn end_of(parts: &Parts, k: u32, want: &[Pair], from: usize) -> Option<usize> {
    if k >= parts.len() {
        return None;
    }
    let code = parts.code(k);
    let mut end = from;
    'rows: for row in parts.rows(k) {
        let (wanted, place) = *want.get(end)?;
        if wanted != code || place != row.0 {
            return None;
        }
        end = end.wrapping_add(1);
    }
    Some(end)
}

// Whether the parts have just these pairs.
fn have_pairs(parts: &Parts, want: &[Pair]) -> bool {
    let mut end = 0;
    'parts: for k in 0..parts.len() {
        match end_of(parts, k, want, end) {
            Some(next) => end = next,
            None => return false,
        }
    }
    end == want.len()
}

// Whether the rows of a table have these pairs in a dimension.
fn are_parts(alloc: Global, table: &Table, dim: u8, want: &[Pair]) -> bool {
    if dim >= table.dims() {
        return false;
    }
    let Ok(nos) = table.all(alloc) else {
        return false;
    };
    let parts = part(alloc, table, &nos, dim);
    drop(nos);
    let Ok(parts) = parts else {
        return false;
    };
    let have_pairs = have_pairs(&parts, want);
    drop(parts);
    have_pairs
}

const MANY_PAIRS: [Pair; 24] = [
    (0, 23),
    (4, 3),
    (4, 20),
    (9, 0),
    (9, 1),
    (9, 2),
    (9, 4),
    (9, 5),
    (9, 6),
    (9, 7),
    (9, 8),
    (9, 9),
    (9, 10),
    (9, 11),
    (9, 12),
    (9, 13),
    (9, 14),
    (9, 15),
    (9, 16),
    (9, 17),
    (9, 18),
    (9, 19),
    (9, 21),
    (9, 22),
];

const FIVE: [(u8, u8); 5] = [(2, 7), (0, 7), (2, 8), (1, 7), (0, 7)];

// So many that their codes are counted.
const MANY: [(u8, u8); 24] = [
    (9, 0),
    (9, 0),
    (9, 0),
    (4, 0),
    (9, 0),
    (9, 0),
    (9, 0),
    (9, 0),
    (9, 0),
    (9, 0),
    (9, 0),
    (9, 0),
    (9, 0),
    (9, 0),
    (9, 0),
    (9, 0),
    (9, 0),
    (9, 0),
    (9, 0),
    (9, 0),
    (4, 0),
    (9, 0),
    (9, 0),
    (0, 0),
];

// Groups the sorted rows by a dimension.
fn regroup(alloc: Global, rows: &SortedRows, dim: u8, parts: &mut Parts) -> bool
    requires { dim < rows.now.dims }
{
    let Ok(nos) = rows.all(alloc) else {
        return false;
    };
    let all = TableRows {
        table: rows,
        numbers: &nos,
    };
    let is_done = parts.regroup(&all, dim).is_ok();
    drop(nos);
    is_done
}

// Whether the rows have these pairs in a dimension, by their places in the order of tuples.
fn are_sorted(alloc: Global, table: &Table, dim: u8, want: &[Pair]) -> bool {
    if dim >= table.dims() {
        return false;
    }
    let Ok(rows) = SortedRows::of(alloc, table) else {
        return false;
    };
    let mut parts = Parts::new(alloc);
    let is_done = regroup(alloc, &rows, dim, &mut parts);
    drop(rows);
    let are_sorted = is_done && have_pairs(&parts, want);
    drop(parts);
    are_sorted
}

// Whether all rows share just these entries.
fn share(alloc: Global, table: &Table, first: Entry, second: Entry) -> bool {
    let Ok(nos) = table.all(alloc) else {
        return false;
    };
    let share = !nos.is_empty() && has_entries(&closure_of(table, &nos), first, second);
    drop(nos);
    share
}

// What rows have.
#[derive(Clone, Copy)]
enum Fact {
    /// In a dimension these pairs.
    Parts(u8, &'static [Pair]),
    /// The same with the rows in the order of tuples.
    Sorted(u8, &'static [Pair]),
    /// In both dimensions what all share.
    Shared(Entry, Entry),
}

// Rows, and what they have.
type Case = (&'static [(u8, u8)], Fact);

const THREE: [(u8, u8); 3] = [(2, 9), (1, 3), (0, 9)];

static CASES: [Case; 10] = [
    (
        &FIVE,
        Fact::Parts(0, &[(0, 1), (0, 4), (1, 3), (2, 0), (2, 2)]),
    ),
    (
        &FIVE,
        Fact::Parts(1, &[(7, 0), (7, 1), (7, 3), (7, 4), (8, 2)]),
    ),
    (&MANY, Fact::Parts(0, &MANY_PAIRS)),
    (&THREE, Fact::Sorted(1, &[(3, 1), (9, 0), (9, 2)])),
    (
        &FIVE,
        Fact::Sorted(0, &[(0, 0), (0, 1), (1, 2), (2, 3), (2, 4)]),
    ),
    (
        &FIVE,
        Fact::Sorted(1, &[(7, 0), (7, 1), (7, 2), (7, 3), (8, 4)]),
    ),
    (&[(3, 7)], Fact::Shared(Entry::Is(3), Entry::Is(7))),
    (
        &[(3, 7), (0, 7), (3, 7)],
        Fact::Shared(Entry::Any, Entry::Is(7)),
    ),
    (
        &[(3, 7), (3, 7), (3, 0)],
        Fact::Shared(Entry::Is(3), Entry::Any),
    ),
    (&[(3, 7), (7, 3)], Fact::Shared(Entry::Any, Entry::Any)),
];

fn holds(alloc: Global, table: &Table, fact: Fact) -> bool {
    match fact {
        Fact::Parts(dim, want) => are_parts(alloc, table, dim, want),
        Fact::Sorted(dim, want) => are_sorted(alloc, table, dim, want),
        Fact::Shared(first, second) => share(alloc, table, first, second),
    }
}

fn is_right(alloc: Global, case: &Case) -> bool {
    let (rows, fact) = *case;
    let Ok(table) = table_of(alloc, rows) else {
        return false;
    };
    let holds = holds(alloc, &table, fact);
    drop(table);
    holds
}

/// Whether rows are ordered and parted, and share their values.
pub(crate) fn are_right(alloc: Global) -> bool {
    'cases: for case in &CASES {
        if !is_right(alloc, case) {
            return false;
        }
    }
    true
}
