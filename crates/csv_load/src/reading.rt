// The changes of a file's records, read into columns.
ghost use Rattle.std.specs.Prelude.{◌≡◌, ◌≤◌, ◌<◌, ◌+◌, ◌*◌, ◌^◌, ◌++◌, ℕ, [], Bool, List, ℤ, Some, None, Ok, Err, length, true, false, IfOk, IfErr, IfSome, OnOk};
ghost use Rattle.std.specs.List.{list_all};
ghost use Rattle.std.specs.Str.{is_utf8};
ghost use Rattle.csv.specs.Records.{fields_of};
ghost use Rattle.cube_defs.specs.Rows.{Row};
ghost use Rattle.cube_defs.specs.Text.{Text};
ghost use Rattle.csv_load.specs.Batch.{Adds, change_with};
ghost use Rattle.csv_load.specs.Columns.{AreColumns, fields_at};
ghost use Rattle.csv_load.specs.FileRows.{needed_of};
ghost use Rattle.cell_core.specs.Gives.{Gives};
ghost use Rattle.csv_load.specs.Faults.{Amount, Utf8, fault_in};
ghost use Rattle.csv_load.specs.Files.{Makes, amounts_of, change_in, change_with_id, changes_from, deletion_of, is_short, tuple_of};
ghost use Rattle.text_lines.specs.Records.{bytes_in, bytes_in_all};

use crate::batch::RawBatch;
use crate::changes::ChangeColumns;
use crate::columns::Columns;
use crate::files::LoadRefused;
use crate::row::FileRow;
use crate::texts::FieldTexts;
use aggregates::{read_amount, read_id};
use csv::ByteRecord;
use cube_defs::MAX_TEXT;
use qc_schema::Schema;
use std::alloc::AllocError;
use text_lines::RecordReader;

// Appends the texts of a record's dimensions, and says whether each is short enough.
fn push_texts(row: &FileRow, texts: &mut FieldTexts) -> Result<bool, LoadRefused>
    requires { bytes_in texts.old + bytes_in (needed_of row.now) < 2 ^ 32 }
    ensures ok { OnOk result
        (texts.new ≡ texts.old ++ tuple_of row.now.schema.now (needed_of row.now)) }
    ensures utf8 { OnOk result
        (list_all is_utf8 (tuple_of row.now.schema.now (needed_of row.now)) ≡ true) }
    ensures short { IfOk result
        (λ short. short ≡ list_all is_short
        (tuple_of row.now.schema.now (needed_of row.now))) }
    ensures err { IfErr result (λ e. IfSome (fault_in e) (λ fault. (fault ≡ Utf8 row.now.number)
        × (list_all is_utf8 (tuple_of row.now.schema.now (needed_of row.now)) ≡ false))) }
{
    let mut are_short = true;
    for dim in 0..row.schema.dims() {
        let field = row.needed(1 + dim as usize);
        let Ok(text) = str::from_utf8(field) else {
            return Err(LoadRefused::Utf8(row.number));
        };
        if text.len() > MAX_TEXT {
            are_short = false;
        }
        texts.push(text)?;
    }
    Ok(are_short)
}

// Whether a record is a deletion, if its operation is valid.
fn read_kind(row: &FileRow) -> Option<bool>
    ensures { result ≡ deletion_of row.now.columns.now.has_op row.now.schema.now
        (needed_of row.now) }
{
    if !row.columns.has_op {
        return Some(false);
    }
    let place = 1 + row.schema.dims() as usize + row.schema.measures() as usize;
    match row.needed(place) {
        b"-" => Some(true),
        b"+" => Some(false),
        _ => None,
    }
}

// Appends the amounts of a record.
fn push_amounts(row: &FileRow, amounts: &mut Vec<i64>) -> Result<(), LoadRefused>
    ensures ok { OnOk result ((more : List ℤ)
        × (amounts_of row.now.schema.now (needed_of row.now) ≡ Some more)
        × (amounts.new.items ≡ amounts.old.items ++ more)) }
    ensures err { IfErr result (λ e. IfSome (fault_in e) (λ fault. (fault ≡ Amount row.now.number)
        × (amounts_of row.now.schema.now (needed_of row.now) ≡ None))) }
{
    let first = 1 + row.schema.dims() as usize;
    for measure in 0..row.schema.measures() {
        let field = row.needed(first + measure as usize);
        let Some(amount) = read_amount(field, row.schema.scale(measure)) else {
            return Err(LoadRefused::Amount(row.number));
        };
        amounts.push(amount)?;
    }
    Ok(())
}

// Appends zeros.
fn push_zeros(count: u8, amounts: &mut Vec<i64>) -> Result<(), AllocError>
    ensures { OnOk result ((zeros : List ℤ) × (length zeros ≡ count)
        × (amounts.new.items ≡ amounts.old.items ++ zeros)) }
{
    'zeros: for _ in 0..count {
        amounts.push(0)?;
    }
    Ok(())
}

// What a record does: it deletes a row, or inserts one whose texts are short enough or not.
#[derive(Clone, Copy)]
struct Operation {
    deletes: bool,
    are_short: bool,
}

// Appends the amounts of an insertion, if its texts are short enough, and zeros for a deletion.
fn push_amounts_or_zeros(
    row: &FileRow,
    operation: Operation,
    amounts: &mut Vec<i64>,
) -> Result<(), LoadRefused>
    requires { operation.are_short ≡ list_all is_short
        (tuple_of row.now.schema.now (needed_of row.now)) }
    ensures ok { OnOk result ((more : List ℤ) × (length more ≡ length row.now.schema.now.measures)
        × (amounts.new.items ≡ amounts.old.items ++ more)
        × Makes row.now.schema.now row.now.number (needed_of row.now)
        operation.deletes more) }
    ensures err { IfErr result (λ e. (id : ℕ) → IfSome (fault_in e)
        (λ fault. change_with_id row.now.number (Some operation.deletes) (Some id)
        (tuple_of row.now.schema.now (needed_of row.now))
        (amounts_of row.now.schema.now (needed_of row.now))
        ≡ Err fault)) }
{
    if operation.deletes {
        push_zeros(row.schema.measures(), amounts)?;
        return Ok(());
    }
    push_amounts(row, amounts)?;
    if !operation.are_short {
        return Err(LoadRefused::Value(row.number));
    }
    Ok(())
}

// Appends the change of a record. After a refusal the changes are of no use.
fn push_change(
    schema: &Schema,
    columns: &Columns,
    fields: &ByteRecord,
    number: u32,
    changes: &mut ChangeColumns,
) -> Result<(), LoadRefused>
    requires columns { AreColumns schema.now columns.now }
    requires room { bytes_in changes.old.texts
        + bytes_in (fields_at columns.now.places.items (fields_of fields.now)) < 2 ^ 32 }
    ensures ok { OnOk result ((deletes : Bool) × (added : Row Text)
        × (change_in columns.now.has_op schema.now columns.now.width columns.now.places.items number
        (fields_of fields.now) ≡ Ok (change_with deletes added))
        × (length added.tuple ≡ length schema.now.dims)
        × (length added.amounts ≡ length schema.now.measures)
        × Adds deletes added changes.old changes.new) }
    ensures size { OnOk result (bytes_in changes.new.texts ≤ bytes_in changes.old.texts
        + bytes_in (fields_at columns.now.places.items (fields_of fields.now))) }
    ensures err { IfErr result
        (λ e. IfSome (fault_in e)
        (λ fault. change_in columns.now.has_op schema.now columns.now.width
        columns.now.places.items number
        (fields_of fields.now) ≡ Err fault)) }
{
    if fields.len() != columns.width {
        return Err(LoadRefused::Fields(number));
    }
    let row = FileRow {
        schema,
        columns,
        fields,
        number,
    };
    let are_short = push_texts(&row, &mut changes.texts)?;
    let Some(deletes) = read_kind(&row) else {
        return Err(LoadRefused::Op(number));
    };
    let Some(id) = read_id(row.needed(0)) else {
        return Err(LoadRefused::Id(number));
    };
    let operation = Operation { deletes, are_short };
    push_amounts_or_zeros(&row, operation, &mut changes.amounts)?;
    changes.push_id(id, deletes)?;
    Ok(())
}

/// Reads the changes of the remaining records, and puts them into `changes`.
pub fn read_changes(
    schema: &Schema,
    columns: &Columns,
    rows: &mut RecordReader,
    row: &mut ByteRecord,
    mut changes: ChangeColumns,
) -> Result<RawBatch, LoadRefused>
    requires columns { AreColumns schema.now columns.now }
    requires ids { changes.ids.items ≡ [] }
    requires deletes { changes.deletes.items ≡ [] }
    requires texts { changes.texts ≡ [] }
    requires amounts { changes.amounts.items ≡ [] }
    requires few { length rows.old + 1 < 2 ^ 32 }
    requires room { bytes_in_all rows.old < 2 ^ 32 }
    ensures gives { Gives fault_in (λ batch. batch.changes) result
        (changes_from columns.now.has_op schema.now columns.now.width
        columns.now.places.items 1 rows.old) }
    ensures dims { IfOk result (λ batch. batch.dims ≡ length schema.now.dims) }
    ensures measures { IfOk result (λ batch. batch.measures ≡ length schema.now.measures) }
{
    'records: while rows.next(row)? {
        let number = changes.ids.len() as u32 + 1;
        push_change(schema, columns, row, number, &mut changes)?;
    }
    Ok(RawBatch::of_changes(schema.dims(), schema.measures(), changes))
}
