// A snapshot, part by part.
ghost use Rattle.std.specs.Int.{w32};
ghost use Rattle.std.specs.Option.{option_map};
ghost use Rattle.std.specs.Prelude.{IfErr, IfOk, IfSome, None, OnOk, length, ⊤, ◌≡◌, ◌≤◌};
ghost use Rattle.base_table.specs.Places.{IsTable, rows_of};
ghost use Rattle.qc_schema.specs.Schema.{IsLayout};
ghost use Rattle.value_dict.specs.TextLists.{IsDictionary};
ghost use Rattle.cube_snapshot.specs.Format.{number, sized, whole};
ghost use Rattle.cube_snapshot.specs.Readers.{AreWithin, IsBegun, IsMade, MayFollowSchema, Reads, parts_made};
ghost use Rattle.cube_snapshot.specs.Snapshot.{texts_and_rows, mark, schema, schema_of, snapshot};

use crate::reading::u32_at;
use crate::refused::PartRefused;
use crate::rows::read_rows;
use crate::texts::read_dict;
use base_table::Table;
use cell_core::HashKeys;
use cube_defs::MAX_FILE;
use qc_schema::{Schema, SchemaRefused, read_schema, schema_text};
use std::alloc::Global;
use value_dict::Dict;

// The bytes after the mark.
fn mark_at(bytes: &[u8]) -> Option<&[u8]>
    ensures read { option_map (λ rest. (tt, rest.now)) result ≡ mark.get bytes.now }
    ensures within { IfSome result (λ rest. length rest.now ≤ length bytes.now) }
{
    if bytes.len() < 8 {
        return None;
    }
    let (front, rest) = bytes.split_at(8);
    if front == b"QCUBESN1".as_slice() {
        Some(rest)
    } else {
        None
    }
}

// Bytes with their number before them, and the bytes after them.
fn sized_at(bytes: &[u8]) -> Option<(&[u8], &[u8])>
    ensures read { option_map (λ x. (x.0.now, x.1.now)) result
        ≡ (sized (number w32)).get bytes.now }
    ensures within { IfSome result (λ x. length x.0.now ≤ length bytes.now) }
{
    let (len, rest) = u32_at(bytes)?;
    let len = len as usize;
    if rest.len() < len {
        return None;
    }
    Some(rest.split_at(len))
}

// The schema whose canonical text this is.
fn canonical(alloc: Global, text: &[u8]) -> Result<Schema, PartRefused>
    requires { length text.now ≤ MAX_FILE }
    ensures reads { Reads (λ _. ⊤) (λ schema. schema) result (schema_of text.now) }
    ensures layout { IfOk result (λ schema. IsLayout schema) }
{
    let schema = match read_schema(alloc, text) {
        Ok(schema) => schema,
        Err(SchemaRefused::Memory) => return Err(PartRefused::Memory),
        Err(_) => return Err(PartRefused::Form),
    };
    let _dims = schema.dims();
    match schema_text(alloc, &schema) {
        Ok(canonical) => {
            if text == canonical.as_slice() {
                Ok(schema)
            } else {
                drop(schema);
                Err(PartRefused::Form)
            }
        }
        Err(_) => {
            drop(schema);
            Err(PartRefused::Memory)
        }
    }
}

// The schema, and the bytes after it.
fn schema_at(alloc: Global, bytes: &[u8]) -> Result<(Schema, &[u8]), PartRefused>
    requires { length bytes.now ≤ MAX_FILE }
    ensures reads { Reads (λ _. ⊤) (λ x. (x.0, x.1.now)) result (schema.get bytes.now) }
    ensures layout { IfOk result (λ x. IsLayout x.0) }
{
    match sized_at(bytes) {
        Some((text, rest)) => match canonical(alloc, text) {
            Ok(schema) => Ok((schema, rest)),
            Err(refused) => Err(refused),
        },
        None => Err(PartRefused::Form),
    }
}

// A table without rows, in which a batch is open, and a dictionary without texts.
fn start(alloc: Global, keys: HashKeys, schema: &Schema) -> Result<(Dict, Table), PartRefused>
    requires { IsLayout schema.now }
    ensures begun { IfOk result (λ made. IsBegun schema.now made.0 made.1) }
    ensures memory { IfErr result (λ refused. refused ≡ PartRefused.Memory) }
{
    let Ok(dict) = Dict::with_keys(alloc, keys, schema.dims(), schema.values()) else {
        return Err(PartRefused::Memory);
    };
    match Table::with_keys(alloc, keys, schema.dims(), schema.measures(), schema.rows()) {
        Ok(mut table) => {
            table.begin();
            Ok((dict, table))
        }
        Err(_) => {
            drop(dict);
            Err(PartRefused::Memory)
        }
    }
}

// The texts and the rows, which are all of the bytes.
fn read_texts_and_rows(
    alloc: Global,
    schema: &Schema,
    dict: &mut Dict,
    table: &mut Table,
    bytes: &[u8],
) -> Result<(), PartRefused>
    requires { IsBegun schema.now dict.old table.old }
    ensures reads { Reads (MayFollowSchema schema.now) (λ _. (dict.new.lists, rows_of table.new))
        result (whole (texts_and_rows schema.now) bytes.now) }
    ensures made { OnOk result (IsMade schema.now dict.new table.new) }
{
    let rest = match read_dict(dict, bytes) {
        Ok(rest) => rest,
        Err(refused) => return Err(refused),
    };
    let _dims = dict.dims();
    let rest = match read_rows(alloc, table, dict, rest) {
        Ok(rest) => rest,
        Err(refused) => return Err(refused),
    };
    if !rest.is_empty() {
        return Err(PartRefused::Form);
    }
    table.commit();
    table.recall_invariant();
    Ok(())
}

// The parts after a schema that was read.
fn parts_after_schema(
    alloc: Global,
    keys: HashKeys,
    schema: Schema,
    bytes: &[u8],
) -> Result<(Schema, Dict, Table), PartRefused>
    requires { IsLayout schema }
    ensures reads { Reads (MayFollowSchema schema) (λ made. (made.1.lists, rows_of made.2)) result
        (whole (texts_and_rows schema) bytes.now) }
    ensures schema { IfOk result (λ made. made.0 ≡ schema) }
    ensures made { IfOk result (λ made. IsMade made.0 made.1 made.2) }
{
    let (mut dict, mut table) = match start(alloc, keys, &schema) {
        Ok(made) => made,
        Err(refused) => {
            drop(schema);
            return Err(refused);
        }
    };
    match read_texts_and_rows(alloc, &schema, &mut dict, &mut table, bytes) {
        Ok(()) => Ok((schema, dict, table)),
        Err(refused) => {
            drop(schema);
            drop(dict);
            drop(table);
            Err(refused)
        }
    }
}

/// The parts that the bytes encode, if they are within all limits of a state, except for the number
/// of nodes.
pub(crate) fn read_parts(
    alloc: Global,
    keys: HashKeys,
    bytes: &[u8],
) -> Result<(Schema, Dict, Table), PartRefused>
    requires { length bytes.now ≤ MAX_FILE }
    ensures reads { Reads AreWithin (λ made. parts_made made.0 made.1 made.2) result
        (whole snapshot bytes.now) }
    ensures made { IfOk result (λ made. IsMade made.0 made.1 made.2) }
{
    let Some(rest) = mark_at(bytes) else {
        return Err(PartRefused::Form);
    };
    match schema_at(alloc, rest) {
        Ok((schema, rest)) => parts_after_schema(alloc, keys, schema, rest),
        Err(refused) => Err(refused),
    }
}
