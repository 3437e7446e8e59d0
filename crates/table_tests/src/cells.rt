// Cells, and lists of cells, texts and fields.
ghost use Rattle.cell_core.specs.Entry.{IsSmall};
ghost use Rattle.std.specs.Prelude.{length, ◌≡◌};

use crate::fields::{Asked, push, push_text};
use cell_core::{
    Cell, Cells, Entry, Field, Fields, Text, Texts, last, leq, mask_of, meet_into, upto,
};
use std::alloc::Global;

const ANY: Entry = Entry::Any;

fn cell(alloc: Global, first: Entry, second: Entry, third: Entry) -> Cell
    requires first { IsSmall first }
    requires second { IsSmall second }
    requires third { IsSmall third }
    ensures { length result ≡ 3 }
{
    let mut cell = Cell::any(alloc, 3);
    cell.set(0, first);
    cell.set(1, second);
    cell.set(2, third);
    cell
}

fn entries_are_set(alloc: Global) -> bool {
    let mut cell = Cell::any(alloc, 16);
    cell.set(15, Entry::Is(3_999_999));
    cell.set(0, Entry::Is(0));
    cell.set(0, ANY);
    cell.dims() == 16
        && cell.get(0) == ANY
        && cell.get(15) == Entry::Is(3_999_999)
        && last(&cell) == Some(15)
        && mask_of(&cell) == 32768
}

fn are_cells_ordered(alloc: Global) -> bool {
    let front = cell(alloc, Entry::Is(1), ANY, ANY);
    let tuple = cell(alloc, Entry::Is(1), Entry::Is(0), Entry::Is(2));
    let other = cell(alloc, Entry::Is(2), ANY, ANY);
    let all = Cell::any(alloc, 3);
    leq(&front, &tuple)
        && leq(&tuple, &tuple)
        && leq(&all, &front)
        && !leq(&tuple, &front)
        && !leq(&other, &tuple)
}

// Whether a cell has an entry in a dimension.
fn has(cell: &Cell, dim: u8, entry: Entry) -> bool {
    dim < cell.dims() && cell.get(dim) == entry
}

fn is_meet(alloc: Global) -> bool {
    let mut meet = cell(alloc, Entry::Is(1), Entry::Is(5), Entry::Is(2));
    meet_into(
        &mut meet,
        &cell(alloc, Entry::Is(1), Entry::Is(6), Entry::Is(2)),
    );
    let is_first = has(&meet, 0, Entry::Is(1))
        && has(&meet, 1, ANY)
        && has(&meet, 2, Entry::Is(2))
        && mask_of(&meet) == 5;
    meet_into(&mut meet, &cell(alloc, ANY, Entry::Is(5), Entry::Is(2)));
    is_first && mask_of(&meet) == 4
}

// Cuts a cell of three entries, of which the second is Any.
fn are_cut(front: &mut Cell) -> bool
    requires { length front.old ≡ 3 }
{
    let is_whole = last(front) == Some(2);
    upto(front, 2);
    let is_same = has(front, 2, Entry::Is(9));
    upto(front, 1);
    is_whole && is_same && has(front, 0, Entry::Is(7)) && has(front, 2, ANY)
}

// Prefixes end at a dimension.
fn are_prefixes(alloc: Global) -> bool {
    let mut front = cell(alloc, Entry::Is(7), ANY, Entry::Is(9));
    let are_cut = are_cut(&mut front);
    let none = Cell::any(alloc, 3);
    are_cut && last(&front) == Some(0) && last(&none).is_none()
}

fn push_cell(cells: &mut Cells, cell: Cell) -> bool {
    cells.len() < 9 && cells.push(cell).is_ok()
}

// Whether a list has a cell of three dimensions and one of two.
fn are_both(cells: &Cells, first: &Cell) -> bool
    requires { length first.now ≡ 3 }
{
    if cells.len() != 2 || cells.get(0).dims() != 3 {
        return false;
    }
    leq(cells.get(0), first) && leq(first, cells.get(0)) && cells.get(1).dims() == 2
}

fn are_cells_listed(alloc: Global) -> bool {
    let mut cells = Cells::new(alloc);
    let tuple = cell(alloc, Entry::Is(1), Entry::Is(2), Entry::Is(3));
    let are_listed = cells.is_empty()
        && push_cell(&mut cells, tuple.copy())
        && push_cell(&mut cells, Cell::any(alloc, 2))
        && are_both(&cells, &tuple);
    drop(cells);
    are_listed
}

fn is_text(text: &Text, want: &str) -> bool {
    text.as_str() == want
}

fn are_texts_listed(alloc: Global) -> bool {
    let mut texts = Texts::new(alloc);
    let are_pushed = texts.is_empty()
        && push_text(alloc, &mut texts, "S1")
        && push_text(alloc, &mut texts, "");
    let are_listed = are_pushed
        && texts.len() == 2
        && is_text(texts.get(0), "S1")
        && is_text(texts.get(1), "");
    drop(texts);
    are_listed
}

fn is_one(field: &Field, text: &str) -> bool {
    match field {
        Field::One(one) => is_text(one, text),
        _ => false,
    }
}

fn is_between(field: &Field, first: &str, second: &str) -> bool {
    match field {
        Field::Between(lo, hi) => is_text(lo, first) && is_text(hi, second),
        _ => false,
    }
}

fn are_three(fields: &Fields) -> bool {
    fields.len() == 3
        && matches!(fields.get(0), Field::Any)
        && is_one(fields.get(1), "P1")
        && is_between(fields.get(2), "a", "b")
}

fn are_fields_listed(alloc: Global) -> bool {
    let mut fields = Fields::new(alloc);
    let are_listed = push(alloc, &mut fields, Asked::Any)
        && push(alloc, &mut fields, Asked::One("P1"))
        && push(alloc, &mut fields, Asked::Between("a", "b"))
        && are_three(&fields);
    drop(fields);
    are_listed
}

/// Whether cells are set and compared, and lists stay in order.
pub(crate) fn are_right(alloc: Global) -> bool {
    entries_are_set(alloc)
        && are_cells_ordered(alloc)
        && is_meet(alloc)
        && are_prefixes(alloc)
        && are_cells_listed(alloc)
        && are_texts_listed(alloc)
        && are_fields_listed(alloc)
}
