// Rows of small values, and what the rows come to that a cell covers.
ghost use Rattle.std.specs.Prelude.{All, is_some, length, nat_abs, true, ◌<◌, ◌≡◌, ◌≤◌};

use aggregates::Agg;
use cell_core::{Cell, Entry, NodeNo, Steps};
use qc_arena::{Nodes, QcArena};
use std::alloc::Global;
use std::sync::ledger::Ledger;
use tree_records::{ANY, Line, NUMBERS, cell_at};

// How many rows there are, their sum, and the least and the greatest amount.
pub(crate) type Total = (u32, i64, i64, i64);

// The amount of the row at a place.
pub(crate) fn amount(place: usize) -> i64
    requires { place < 100 }
    ensures { nat_abs result ≤ 100 }
{
    (place as i64 * 7) % 10 - 4
}

pub(crate) fn tuple(alloc: Global, row: &Line, dims: u8) -> Cell
    requires { dims ≤ 6 }
    ensures dims { length result ≡ dims }
    ensures full { All (λ entry. is_some entry ≡ true) result }
{
    let mut cell = Cell::any(alloc, dims);
    'dims: for dim in 0..dims {
        cell.set(dim, Entry::Is(row[dim as usize] as u32));
    }
    cell
}

fn covers(cell: &Line, row: &Line) -> bool {
    'dims: for dim in 0..6 {
        if cell[dim] != ANY && cell[dim] != row[dim] {
            return false;
        }
    }
    true
}

// What the first rows come to that the cell covers.
fn total(cell: &Line, rows: &[Line], count: usize) -> Total
    requires rows { length rows.now ≤ 100 }
    requires count { count ≤ length rows.now }
{
    let mut total = (0u32, 0i64, 100i64, -100i64);
    'rows: for place in 0..count {
        if covers(cell, &rows[place]) {
            let a = amount(place);
            total = (
                total.0.wrapping_add(1),
                total.1.wrapping_add(a),
                total.2.min(a),
                total.3.max(a),
            );
        }
    }
    total
}

fn is_total(agg: &Agg, total: Total) -> bool {
    let part = agg.parts[0];
    (agg.count, part.sum, part.least, part.greatest) == total
}

// Whether the node is no class, or one of what the first rows come to that its cell covers.
fn has_total<L: Ledger>(
    tree: &QcArena,
    node: NodeNo,
    rows: &[Line],
    count: usize,
    steps: &mut Steps<L>,
) -> bool
    requires rows { length rows.now ≤ 100 }
    requires count { count ≤ length rows.now }
{
    if !tree.has(node) {
        return true;
    }
    match (tree.class(node, steps), cell_at(tree, node, steps)) {
        (Some(agg), Some(cell)) => is_total(&agg, total(&cell, rows, count)),
        (None, _) => true,
        _ => false,
    }
}

// Whether each node that is a class has the total of the rows that its cell covers.
pub(crate) fn have_totals<L: Ledger>(
    tree: &QcArena,
    rows: &[Line],
    count: usize,
    steps: &mut Steps<L>,
) -> bool
    requires rows { length rows.now ≤ 100 }
    requires count { count ≤ length rows.now }
{
    'nodes: for number in 0..NUMBERS {
        if !has_total(tree, NodeNo(number), rows, count, steps) {
            return false;
        }
    }
    true
}
