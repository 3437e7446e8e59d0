// Lists of one width that lie one after another in a vector.
ghost use Rattle.std.specs.Prelude.{length, vec_capacity, vec_len, ◌*◌, ◌+◌, ◌++◌, ◌≡◌, ◌≤◌, All, ◌<◌, nat_eq, is_some, true, take, drop};
ghost use Rattle.base_table.specs.Places.{values_of};
ghost use Rattle.base_table.specs.Store.{code_or_any, longer_lines, picked_lines, shorter_lines};
ghost use Rattle.cell_core.specs.Entry.{IsCode, value_in};
ghost use Rattle.cube_defs.specs.Cell.{cell_eq, cell_of};

use cell_core::{ANY, Cell, Entry};
use cube_defs::MAX_DIMS;
use std::alloc::Global;

/// The list at a place, counted from 0.
pub fn line<T: Copy>(cells: &Vec<T>, place: u32, width: u8) -> &[T]
    requires { place * width + width ≤ length cells.now.items }
    ensures value { result.now ≡ take width (drop (place * width) cells.now.items) }
    ensures len { length result.now ≡ width }
{
    let width = width as usize;
    let from = place as usize * width;
    &cells.as_slice()[from..from + width]
}

// Keeps the lists whose mark is set, in order. Takes no memory.
pub(crate) fn retain_lines<T: Copy + Drop>(cells: &mut Vec<T>, width: usize, kept: &[bool])
    requires { length cells.old.items ≡ length kept.now * width }
    ensures items { cells.new.items ≡ picked_lines width kept.now cells.old.items }
    ensures capacity { vec_capacity cells.new ≡ vec_capacity cells.old }
{
    let mut from = 0;
    let mut to = 0;
    'lines: for i in 0..kept.len() {
        if kept[i] {
            cells.copy_within(from..from + width, to);
            to += width;
        }
        from += width;
    }
    cells.truncate(to);
}

// The code of an entry, and of Any a number that no code is.
pub(crate) fn code_or_any(entry: Entry) -> u32
    ensures { result ≡ code_or_any (value_in entry) }
{
    match entry {
        Entry::Any => ANY,
        Entry::Is(code) => code,
    }
}

// Appends the codes of a tuple, for which there is room.
pub(crate) fn push_codes(codes: &mut Vec<u32>, tuple: &Cell)
    requires room { vec_len codes.old + length tuple.now ≤ vec_capacity codes.old }
    requires no_any { All (λ entry. is_some entry ≡ true) tuple.now }
    ensures items { codes.new.items ≡ codes.old.items ++ values_of tuple.now }
    ensures small { All IsCode (values_of tuple.now) }
    ensures dims { length (values_of tuple.now) ≡ length tuple.now }
    ensures capacity { vec_capacity codes.new ≡ vec_capacity codes.old }
{
    'codes: for dim in 0..tuple.dims() {
        codes.push_reserved(code_or_any(tuple.get(dim)));
    }
}

// Appends amounts, for which there is room.
pub(crate) fn push_amounts(amounts: &mut Vec<i64>, more: &[i64])
    requires { vec_len amounts.old + length more.now ≤ vec_capacity amounts.old }
    ensures { amounts.new.items ≡ amounts.old.items ++ more.now }
{
    if !more.is_empty() {
        amounts.extend_from_slice(more).unwrap();
    }
}

// Puts the element after each of so many lists, for which there is room.
pub(crate) fn lengthen(cells: &mut Vec<u32>, width: usize, lines: usize, last: u32)
    requires lines { length cells.old.items ≡ lines * width }
    requires few { width ≤ MAX_DIMS }
    requires room { lines * (width + 1) ≤ vec_capacity cells.old }
    ensures items { cells.new.items ≡ longer_lines width last lines cells.old.items }
    ensures capacity { vec_capacity cells.old ≤ vec_capacity cells.new }
{
    cells.resize(lines * (width + 1), last).unwrap();
    'lines: for line in (0..lines).rev() {
        let from = line * width;
        cells.copy_within(from..from + width, from + line);
        cells[from + line + width] = last;
    }
}

// Keeps the first elements of each of so many lists.
pub(crate) fn shorten(cells: &mut Vec<u32>, width: usize, first: usize, lines: usize)
    requires lines { length cells.old.items ≡ lines * width }
    requires first { first ≤ width }
    ensures items { cells.new.items ≡ shorter_lines width first lines cells.old.items }
    ensures capacity { vec_capacity cells.new ≡ vec_capacity cells.old }
{
    'lines: for line in 0..lines {
        let from = line * width;
        cells.copy_within(from..from + first, line * first);
    }
    cells.truncate(lines * first);
}

// The cell with these codes.
pub(crate) fn cell_with(alloc: Global, codes: &[u32]) -> Cell
    requires few { length codes.now ≤ MAX_DIMS }
    requires small { All IsCode codes.now }
    ensures { result ≡ cell_of codes.now }
{
    let mut cell = Cell::any(alloc, codes.len() as u8);
    'codes: for i in 0..codes.len() {
        cell.set(i as u8, Entry::Is(codes[i]));
    }
    cell
}

// Whether the codes are just those of the cell.
pub(crate) fn is_cell(codes: &[u32], tuple: &Cell) -> bool
    requires dims { length codes.now ≡ length tuple.now }
    requires few { length codes.now ≤ MAX_DIMS }
    requires small { All IsCode codes.now }
    ensures { result ≡ cell_eq nat_eq (cell_of codes.now) tuple.now }
{
    'codes: for i in 0..codes.len() {
        if code_or_any(tuple.get(i as u8)) != codes[i] {
            return false;
        }
    }
    true
}
