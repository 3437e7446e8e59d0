// The bytes of the parts of a snapshot, appended to those of the parts before.
ghost use Rattle.std.specs.Prelude.{All, IfOk, OnOk, Some, [], is_some, length, nat_abs, true, ℕ, ◌∷◌, ◌++◌, ◌<◌, ◌≡◌, ◌≤◌};
ghost use Rattle.std.specs.Int.{w32, w64};
ghost use Rattle.std.specs.List.{flat_map};
ghost use Rattle.base_table.specs.Places.{row_at, rows_in, rows_of};
ghost use Rattle.cube_defs.specs.Rows.{Row};
ghost use Rattle.cube_snapshot.specs.Format.{number};
ghost use Rattle.cube_snapshot.specs.Parts.{amount, row, rows, text, texts};
ghost use Rattle.cube_snapshot.specs.Snapshot.{parts_format, mark_text};
ghost use Rattle.value_dict.specs.TextLists.{list_at};

use crate::contents::Contents;
use base_table::{RowNo, Table};
use cube_defs::{MAX_AMOUNT, MAX_TEXT, Memory};
use std::alloc::Global;

/// Appends a number of four bytes.
pub(crate) fn put_u32(out: &mut Vec<u8>, value: u32) -> Result<(), Memory>
    ensures { OnOk result (out.new.items ≡ out.old.items ++ (number w32).put value) }
{
    out.extend_from_slice(&value.to_be_bytes())
}

fn put_u64(out: &mut Vec<u8>, value: u64) -> Result<(), Memory>
    ensures { OnOk result (out.new.items ≡ out.old.items ++ (number w64).put value) }
{
    out.extend_from_slice(&value.to_be_bytes())
}

// Appends an amount in two's complement.
fn put_amount(out: &mut Vec<u8>, value: i64) -> Result<(), Memory>
    ensures { OnOk result (out.new.items ≡ out.old.items ++ amount.put value) }
{
    put_u64(out, value.cast_unsigned())
}

// Appends a text, with its length before it.
fn put_text(out: &mut Vec<u8>, value: &str) -> Result<(), Memory>
    requires { length value.now ≤ MAX_TEXT }
    ensures { OnOk result (out.new.items ≡ out.old.items ++ text.put value.now) }
{
    let bytes = value.as_bytes();
    out.push(bytes.len() as u8)?;
    out.extend_from_slice(bytes)
}

// Appends the texts of a dimension, with their number before them.
fn put_texts(out: &mut Vec<u8>, contents: &Contents, dim: u8) -> Result<(), Memory>
    requires { dim < length contents.now.dict.now.lists }
    ensures { OnOk result (out.new.items
        ≡ out.old.items ++ texts.put (list_at contents.now.dict.now dim)) }
{
    let dict = contents.dict;
    put_u32(out, dict.len(dim))?;
    'texts: for code in 0..dict.len(dim) {
        put_text(out, dict.text(dim, code))?;
    }
    Ok(())
}

/// Appends the texts of all dimensions.
pub(crate) fn put_dict(out: &mut Vec<u8>, contents: &Contents) -> Result<(), Memory>
    ensures { OnOk result (out.new.items
        ≡ out.old.items ++ flat_map texts.put contents.now.dict.now.lists) }
{
    'dims: for dim in 0..contents.dict.dims() {
        put_texts(out, contents, dim)?;
    }
    Ok(())
}

// Appends the codes of a row.
fn put_codes(out: &mut Vec<u8>, table: &Table, no: RowNo) -> Result<(), Memory>
    requires { is_some (row_at table.now no.0) ≡ true }
    ensures { OnOk result ((r : Row ℕ) → row_at table.now no.0 ≡ Some r
        → out.new.items ≡ out.old.items ++ flat_map (number w32).put r.tuple) }
{
    'dims: for dim in 0..table.dims() {
        put_u32(out, table.code(no, dim))?;
    }
    Ok(())
}

// Appends amounts.
fn put_amounts(out: &mut Vec<u8>, amounts: &[i64]) -> Result<(), Memory>
    requires { All (λ a. nat_abs a ≤ MAX_AMOUNT) amounts.now }
    ensures { OnOk result (out.new.items ≡ out.old.items ++ flat_map amount.put amounts.now) }
{
    'amounts: for value in amounts {
        put_amount(out, *value)?;
    }
    Ok(())
}

// Appends a row.
fn put_row(out: &mut Vec<u8>, table: &Table, no: RowNo) -> Result<(), Memory>
    requires { is_some (row_at table.now no.0) ≡ true }
    ensures { OnOk result ((r : Row ℕ) → row_at table.now no.0 ≡ Some r
        → out.new.items ≡ out.old.items ++ (row table.now.dims table.now.measures).put r) }
{
    put_u64(out, table.id(no))?;
    put_codes(out, table, no)?;
    put_amounts(out, table.amounts(no))
}

// Appends the row at a place, if there is one.
fn put_place(out: &mut Vec<u8>, table: &Table, place: u32) -> Result<(), Memory>
    requires { place < length table.now.places }
    ensures { OnOk result (out.new.items ≡ out.old.items
        ++ flat_map (row table.now.dims table.now.measures).put
        (rows_in (row_at table.now place ∷ []))) }
{
    match table.at(place) {
        Some(no) => put_row(out, table, no),
        None => Ok(()),
    }
}

/// Appends the rows, with their number before them.
pub(crate) fn put_rows(out: &mut Vec<u8>, table: &Table) -> Result<(), Memory>
    ensures { OnOk result (out.new.items ≡ out.old.items
        ++ (rows table.now.dims table.now.measures).put (rows_of table.now)) }
{
    put_u32(out, table.count())?;
    'places: for place in 0..table.places() {
        put_place(out, table, place)?;
    }
    Ok(())
}

// Appends the mark and the text of the schema.
fn put_schema(out: &mut Vec<u8>, contents: &Contents) -> Result<(), Memory>
    ensures { OnOk result (out.new.items ≡ (out.old.items ++ mark_text)
        ++ ((number w32).put (length contents.now.schema.now.items)
        ++ contents.now.schema.now.items)) }
{
    out.extend_from_slice(b"QCUBESN1")?;
    put_u32(out, contents.schema.len() as u32)?;
    out.extend_from_slice(contents.schema)
}

/// The parts one after another, in a buffer with room for so many bytes.
pub(crate) fn put_all(alloc: Global, len: usize, contents: &Contents) -> Result<Vec<u8>, Memory>
    ensures { IfOk result (λ out. out.items ≡ parts_format contents.now.schema.now.items
        contents.now.dict.now.lists contents.now.table.now.dims contents.now.table.now.measures
        (rows_of contents.now.table.now)) }
{
    let mut out = Vec::with_capacity(alloc, len)?;
    put_schema(&mut out, contents)?;
    put_dict(&mut out, contents)?;
    put_rows(&mut out, contents.table)?;
    Ok(out)
}
