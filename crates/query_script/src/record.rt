// The fields of a record that asks for a cell or a box.
ghost use Rattle.std.specs.Prelude.{◌≡◌, ◌≤◌, ◌++◌, ◌∷◌, [], false, List, All, length, IfOk, Err, IfErr, IfSome, OnOk, IsUtf8};
ghost use Rattle.csv.specs.Records.{fields_of};
ghost use Rattle.cube_defs.specs.Text.{Text};
ghost use Rattle.query_script.specs.Commands.{record_in};
ghost use Rattle.cell_core.specs.Gives.{Gives};
ghost use Rattle.query_script.specs.Faults.{line_fault_in};
ghost use Rattle.query_script.specs.Fields.{field_of, value_of};
ghost use Rattle.query_script.specs.Progress.{asks};
ghost use Rattle.text_lines.specs.Lines.{begins_with_mark};
ghost use Rattle.std.specs.List.{flat_map};
ghost use Rattle.text_lines.specs.Records.{bytes_in, bytes_in_all};

use crate::asked_fields::AskedFields;
use crate::line::LineRefused;
use crate::part::Part;
use crate::plain::read_plain;
use crate::values::read_several;
use cell_core::{Field, Fields, Memory, Text};
use csv::ByteRecord;
use cube_defs::MAX_FILE;
use qc_schema::Schema;
use std::alloc::Global;
use text_lines::{RecordReader, field, has_byte_order_mark, is_plain};

/// What the fields of a record ask for together.
#[derive(Clone, Copy)]
pub enum Shape {
    /// A cell: each field is Any or one value.
    Cell,
    /// A box of cells: a field may also stand for several values.
    Box,
}

/// The value that a field names: without the `=` before it, if it has one.
pub fn named_value(field: &str) -> &str
    ensures { result.now ≡ value_of field.now }
{
    match field.strip_prefix('=') {
        Some(value) => value,
        None => field,
    }
}

// What a field asks, if it is allowed.
fn read_field(alloc: Global, shape: Shape, field: &Part) -> Result<Option<Field>, Memory>
    ensures { IfOk result (λ asked. asked ≡ field_of shape field.now.text.now) }
{
    match field.text.as_bytes() {
        b"*" => Ok(Some(Field::Any)),
        b"?" | [b'|' | b'~', ..] => match shape {
            Shape::Cell => Ok(None),
            Shape::Box => read_several(alloc, field),
        },
        _ => Ok(Some(Field::One(Text::new(alloc, named_value(field.text))?))),
    }
}

/// Appends what a field asks.
pub(crate) fn push_field(
    alloc: Global,
    field: &Part,
    so_far: &mut AskedFields,
) -> Result<(), LineRefused>
    ensures ok { OnOk result ((more : List Text)
        → asks so_far.new more ≡ asks so_far.old (field.now.text.now ∷ more)) }
    ensures err { IfErr result (λ e. (more : List Text) → IfSome (line_fault_in e)
        (λ fault. asks so_far.old (field.now.text.now ∷ more) ≡ Err fault)) }
{
    let dims = u32::from(so_far.dims);
    let place = so_far.fields.len() + 1;
    if place > dims {
        return Err(LineRefused::Field(place));
    }
    let Some(asked) = read_field(alloc, so_far.shape, field)? else {
        return Err(LineRefused::Field(place));
    };
    so_far.fields.push(asked)?;
    Ok(())
}

// Reads each field of a record as a field of the cell, or of the box, that is asked for.
fn push_fields(alloc: Global, row: &ByteRecord, so_far: &mut AskedFields) -> Result<(), LineRefused>
    requires text { All IsUtf8 (fields_of row.now) }
    requires size { bytes_in (fields_of row.now) ≤ MAX_FILE }
    ensures ok { OnOk result ((more : List Text)
        → asks so_far.new more ≡ asks so_far.old (fields_of row.now ++ more)) }
    ensures err { IfErr result (λ e. (more : List Text) → IfSome (line_fault_in e)
        (λ fault. asks so_far.old (fields_of row.now ++ more) ≡ Err fault)) }
{
    'fields: for at in 0..row.len() {
        let text = str::from_utf8(field(row, at)).unwrap();
        push_field(alloc, &Part { text }, so_far)?;
    }
    Ok(())
}

#[tactic(auto, using(crate::proofs::Asking::asks_all, crate::proofs::Asking::asks_too_few))]
/// Returns the fields if none is missing.
pub(crate) fn check_count(so_far: AskedFields) -> Result<Fields, LineRefused>
    ensures { Gives line_fault_in (λ fields. fields) result (asks so_far []) }
{
    let AskedFields {
        shape: _,
        dims,
        fields,
    } = so_far;
    let count = fields.len();
    if count < u32::from(dims) {
        return Err(LineRefused::Field(count + 1));
    }
    Ok(fields)
}

// Appends what the fields of all remaining records ask.
fn push_records(
    alloc: Global,
    rows: &mut RecordReader<'_>,
    row: &mut ByteRecord,
    so_far: &mut AskedFields,
) -> Result<(), LineRefused>
    requires text { All (All IsUtf8) rows.old }
    requires size { bytes_in_all rows.old ≤ MAX_FILE }
    ensures ok { OnOk result
        (asks so_far.new [] ≡ asks so_far.old (flat_map (λ fields. fields) rows.old)) }
    ensures err { IfErr result (λ e. IfSome (line_fault_in e)
        (λ fault. asks so_far.old (flat_map (λ fields. fields) rows.old) ≡ Err fault)) }
{
    'records: while rows.next(row)? {
        push_fields(alloc, row, so_far)?;
    }
    Ok(())
}

// Reads the fields of all records of a text. Not inlined: a reader of records has tables of 16 KiB,
// which a function that makes one clears when it is entered, and hardly a line has quotes.
#[inline(never)]
fn read_records(alloc: Global, shape: Shape, dims: u8, rest: &Part) -> Result<Fields, LineRefused>
    requires { begins_with_mark rest.now.text.now ≡ false }
    ensures { Gives line_fault_in (λ fields. fields) result
        (record_in shape dims rest.now.text.now) }
{
    let mut rows = RecordReader::new(alloc, rest.text.as_bytes());
    let mut row = ByteRecord::new(alloc);
    let mut so_far = AskedFields {
        shape,
        dims,
        fields: Fields::new(alloc),
    };
    let pushed = push_records(alloc, &mut rows, &mut row, &mut so_far);
    drop(rows);
    drop(row);
    match pushed {
        Ok(()) => check_count(so_far),
        Err(cause) => Err(cause),
    }
}

/// Reads what follows the word of a command that asks for a cell or a box of cells.
pub(crate) fn read_fields(
    alloc: Global,
    shape: Shape,
    schema: &Schema,
    rest: &Part,
) -> Result<Fields, LineRefused>
    ensures { Gives line_fault_in (λ fields. fields) result
        (record_in shape (length schema.now.dims) rest.now.text.now) }
{
    if has_byte_order_mark(rest.text.as_bytes()) {
        return Err(LineRefused::Field(1));
    }
    let dims = schema.dims();
    if is_plain(rest.text) {
        return read_plain(alloc, shape, dims, rest);
    }
    read_records(alloc, shape, dims, rest)
}
