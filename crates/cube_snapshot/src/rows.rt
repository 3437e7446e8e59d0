// The rows, read into a table.
ghost use Rattle.std.specs.Int.{w32};
ghost use Rattle.std.specs.Option.{option_map};
ghost use Rattle.std.specs.Prelude.{All, Err, IfOk, List, None, OnOk, Some, [], is_some, length, nat_abs, slice_index_or, take, true, ℕ, ◌<◌, ◌≡◌, ◌≢◌, ◌≤◌};
ghost use Rattle.base_table.specs.Places.{rows_of, values_of};
ghost use Rattle.cube_defs.specs.Rows.{Row};
ghost use Rattle.value_dict.specs.Decoded.{AreCodes};
ghost use Rattle.cube_snapshot.specs.Format.{get_times, number};
ghost use Rattle.cube_snapshot.specs.Parts.{amount, row, rows};
ghost use Rattle.cube_snapshot.specs.Readers.{Finds, IsNextRow, MayBeRows, MayCome, MayTakeFirstRows, MayTakeRows, Reads, table_frame};

use crate::reading::{amount_at, u32_at, u64_at};
use crate::refused::PartRefused;
use base_table::{Table, TableRefused};
use cell_core::{Cell, Code, Entry};
use cube_defs::{MAX_AMOUNT, MAX_MEASURES};
use std::alloc::Global;
use value_dict::Dict;

// A code of a dimension that has a text, and the bytes after it.
fn code_at<'a>(dict: &Dict, dim: u8, bytes: &'a [u8]) -> Option<(Code, &'a [u8])>
    requires { dim < length dict.now.lists }
    ensures { Finds (λ y. y.0 < length (slice_index_or dict.now.lists dim []))
        (λ x. (x.0, x.1.now)) result ((number w32).get bytes.now) }
{
    let (code, rest) = u32_at(bytes)?;
    if code < dict.len(dim) {
        Some((code, rest))
    } else {
        None
    }
}

// A code in each dimension, each with a text, and the bytes after them.
fn codes_at<'a>(dict: &Dict, cell: &mut Cell, bytes: &'a [u8]) -> Option<&'a [u8]>
    requires { length cell.old ≡ length dict.now.lists }
    ensures finds { Finds (λ y. AreCodes dict.now.lists y.0)
        (λ rest. (values_of cell.new, rest.now)) result
        (get_times (number w32) (length dict.now.lists) bytes.now) }
    ensures full { result ≢ None → All (λ entry. is_some entry ≡ true) cell.new }
    ensures dims { length cell.new ≡ length cell.old }
{
    let mut rest = bytes;
    'dims: for dim in 0..dict.dims() {
        let (code, after) = code_at(dict, dim, rest)?;
        cell.set(dim, Entry::Is(code));
        rest = after;
    }
    Some(rest)
}

// So many amounts, and the bytes after them.
fn amounts_at<'a>(
    amounts: &mut [i64; MAX_MEASURES as usize],
    count: u8,
    bytes: &'a [u8],
) -> Option<&'a [u8]>
    requires { count ≤ MAX_MEASURES }
    ensures read { option_map (λ rest. (take count amounts.new, rest.now)) result
        ≡ get_times amount count bytes.now }
    ensures small { result ≢ None → All (λ a. nat_abs a ≤ MAX_AMOUNT) (take count amounts.new) }
{
    let mut rest = bytes;
    'amounts: for measure in 0..count {
        let (value, after) = amount_at(rest)?;
        amounts[usize::from(measure)] = value;
        rest = after;
    }
    Some(rest)
}

// A row that may follow those of the table, and the bytes after it.
fn read_row<'a>(
    table: &mut Table,
    dict: &Dict,
    cell: &mut Cell,
    bytes: &'a [u8],
) -> Result<&'a [u8], PartRefused>
    requires takes { MayTakeRows dict.now.lists table.old }
    requires cell_dims { length cell.old ≡ table.old.dims }
    ensures row { IfOk result
        (λ rest. IsNextRow dict.now.lists table.old table.new bytes.now rest.now) }
    ensures form { result ≡ Err PartRefused.Form → (y : Row ℕ × List ℕ)
        → (row table.old.dims table.old.measures).get bytes.now ≡ Some y →
        MayCome dict.now.lists table.old.max (rows_of table.old) y.0 → ⊥ }
    ensures cell_dims { length cell.new ≡ length cell.old }
{
    let Some((id, rest)) = u64_at(bytes) else {
        return Err(PartRefused::Form);
    };
    let Some(rest) = codes_at(dict, cell, rest) else {
        return Err(PartRefused::Form);
    };
    let mut amounts = [0; MAX_MEASURES as usize];
    let measures = table.measures();
    let Some(rest) = amounts_at(&mut amounts, measures, rest) else {
        return Err(PartRefused::Form);
    };
    match table.insert(id, cell, &amounts[..usize::from(measures)]) {
        Ok(()) => Ok(rest),
        Err(TableRefused::Present) => Err(PartRefused::Form),
        Err(TableRefused::Full) => Err(PartRefused::Form),
        Err(TableRefused::Memory) => Err(PartRefused::Memory),
    }
}

// So many rows for a table that has none, and the bytes after them.
fn rows_at<'a>(
    alloc: Global,
    table: &mut Table,
    dict: &Dict,
    count: u32,
    bytes: &'a [u8],
) -> Result<&'a [u8], PartRefused>
    requires { MayTakeFirstRows dict.now.lists table.old }
    ensures reads { Reads (λ y. MayBeRows dict.now.lists table.old.max y.0)
        (λ rest. (rows_of table.new, rest.now)) result
        (get_times (row table.old.dims table.old.measures) count bytes.now) }
    ensures kept { OnOk result (table_frame table.new ≡ table_frame table.old) }
{
    let mut cell = Cell::any(alloc, table.dims());
    let mut rest = bytes;
    'rows: for _ in 0..count {
        match read_row(table, dict, &mut cell, rest) {
            Ok(after) => rest = after,
            Err(refused) => return Err(refused),
        }
    }
    table.recall_invariant();
    Ok(rest)
}

/// The rows for a table that has none, and the bytes after them.
pub(crate) fn read_rows<'a>(
    alloc: Global,
    table: &mut Table,
    dict: &Dict,
    bytes: &'a [u8],
) -> Result<&'a [u8], PartRefused>
    requires { MayTakeFirstRows dict.now.lists table.old }
    ensures reads { Reads (λ y. MayBeRows dict.now.lists table.old.max y.0)
        (λ rest. (rows_of table.new, rest.now)) result
        ((rows table.old.dims table.old.measures).get bytes.now) }
    ensures kept { OnOk result (table_frame table.new ≡ table_frame table.old) }
{
    match u32_at(bytes) {
        Some((count, rest)) => rows_at(alloc, table, dict, count, rest),
        None => Err(PartRefused::Form),
    }
}
