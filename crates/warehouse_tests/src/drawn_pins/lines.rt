// Rows and cells of three dimensions of three values, and what the definitions say of them.
ghost use Rattle.std.specs.Prelude.{length, ◌≡◌};

use aggregates::{AggKind, Fraction};
use cell_core::{Cell, Entry};
use iceberg_query::{Ask, Bound};
use std::alloc::Global;
use std::cmp::Ordering;

/// Of a row the values, and of a cell its entries. The values are 0, 1 and 2.
pub type Line = [u8; 3];

/// In a cell.
pub const ANY: u8 = 3;

/// A row: its values, and its amount in tenths.
#[derive(Clone, Copy)]
pub struct Sale {
    pub values: Line,
    pub amount: i64,
}

/// What rows come to.
#[derive(Clone, Copy)]
pub struct Total {
    pub count: i64,
    pub sum: i64,
    pub least: i64,
    pub greatest: i64,
}

/// The cell with a place among all, counted from 0 to 63.
pub fn cell_at(place: u8) -> Line {
    [place / 16 % 4, place / 4 % 4, place % 4]
}

/// Whether a cell is more general than another, or the same.
pub fn is_leq(c: &Line, d: &Line) -> bool {
    'dims: for i in 0..3 {
        if c[i] != ANY && c[i] != d[i] {
            return false;
        }
    }
    true
}

/// Whether two cells are the same.
pub fn is_same(c: &Line, d: &Line) -> bool {
    c[0] == d[0] && c[1] == d[1] && c[2] == d[2]
}

// The entries on which both agree, and Any elsewhere.
fn meet(c: &Line, d: &Line) -> Line {
    let mut both = *c;
    'dims: for i in 0..3 {
        if c[i] != d[i] {
            both[i] = ANY;
        }
    }
    both
}

/// What the rows come to that a cell covers.
pub fn total_of(cell: &Line, rows: &[Sale]) -> Total {
    let mut total = Total {
        count: 0,
        sum: 0,
        least: i64::MAX,
        greatest: i64::MIN,
    };
    'rows: for row in rows {
        if is_leq(cell, &row.values) {
            total.count = total.count.wrapping_add(1);
            total.sum = total.sum.wrapping_add(row.amount);
            total.least = total.least.min(row.amount);
            total.greatest = total.greatest.max(row.amount);
        }
    }
    total
}

// What the rows share that the cell covers. None where it covers none.
fn closure(cell: &Line, rows: &[Sale]) -> Option<Line> {
    let mut shared: Option<Line> = None;
    'rows: for row in rows {
        if is_leq(cell, &row.values) {
            shared = match shared {
                Some(c) => Some(meet(&c, &row.values)),
                None => Some(row.values),
            };
        }
    }
    shared
}

/// Whether a cell has this closure.
pub fn closes(cell: &Line, upper: &Line, rows: &[Sale]) -> bool {
    match closure(cell, rows) {
        Some(c) => is_same(&c, upper),
        None => false,
    }
}

/// The value of a kind, as a numerator and a denominator.
pub fn value(total: &Total, kind: AggKind) -> (i64, i64) {
    match kind {
        AggKind::Count => (total.count, 1),
        AggKind::Sum(_) => (total.sum, 10),
        AggKind::Least(_) => (total.least, 10),
        AggKind::Greatest(_) => (total.greatest, 10),
        AggKind::Mean(_) => (total.sum, total.count.wrapping_mul(10)),
    }
}

/// How a value compares with a fraction.
pub fn compare(a: (i64, i64), num: i128, den: i128) -> Ordering {
    i128::from(a.0)
        .wrapping_mul(den)
        .cmp(&num.wrapping_mul(i128::from(a.1)))
}

/// Whether what a class comes to passes.
pub fn passes(ask: &Ask, total: &Total) -> bool {
    let Fraction { num, den, .. } = ask.value;
    let order = compare(value(total, ask.kind), num, i128::from(den));
    match ask.bound {
        Bound::AtLeast => order.is_ge(),
        Bound::AtMost => order.is_le(),
    }
}

// Where an entry stands among those of its dimension. The texts of 0, 1 and 2 are c, a and b.
fn rank(entry: u8) -> u8 {
    match entry {
        0 => 3,
        1 => 1,
        2 => 2,
        _ => 0,
    }
}

/// Cell order by the texts.
pub fn cell_order(c: &Line, d: &Line) -> Ordering {
    rank(c[0])
        .cmp(&rank(d[0]))
        .then(rank(c[1]).cmp(&rank(d[1])))
        .then(rank(c[2]).cmp(&rank(d[2])))
}

/// The entries of a cell.
pub fn line_of(cell: &Cell) -> Line {
    let mut line = [ANY; 3];
    'dims: for dim in 0..cell.dims() {
        if let (Entry::Is(code), true) = (cell.get(dim), dim < 3) {
            line[dim as usize] = code.min(2) as u8;
        }
    }
    line
}

/// The cell of a line.
pub fn cell_of(alloc: Global, line: &Line) -> Cell
    ensures { length result ≡ 3 }
{
    let mut cell = Cell::any(alloc, 3);
    'dims: for dim in 0..3u8 {
        if line[dim as usize] != ANY {
            cell.set(dim, Entry::Is(line[dim as usize] as u32));
        }
    }
    cell
}
