// The places of a schema's columns in a file.
ghost use Rattle.std.specs.Prelude.{◌≡◌, ◌<◌, ◌≤◌, [], ◌∷◌, ◌++◌, codes, length, IfOk, IfSome, option_map, slice_index_or};
ghost use Rattle.csv.specs.Records.{fields_of};
ghost use Rattle.qc_schema.specs.Schema.{IsLayout, names_of};
ghost use Rattle.csv_load.specs.Columns.{AreColumns, fields_at, needed_names, place_from, places_in};

use csv::ByteRecord;
use qc_schema::Schema;
use std::alloc::{AllocError, Global};
use text_lines::field;

/// The columns of a header.
#[derive(Drop)]
pub struct Columns {
    /// The number of columns.
    pub width: usize,
    /// The places of the id, the dimensions and the measures, in the schema's order, and then that
    /// of the operation.
    pub places: Vec<usize>,
    /// Whether records have an operation.
    pub has_op: bool,
}

// The place of the only field that is this name.
fn place_of(header: &ByteRecord, name: &str) -> Option<usize>
    ensures { result ≡ place_from 0 name.now (fields_of header.now) }
{
    let mut found = None;
    for place in 0..header.len() {
        if field(header, place) == name.as_bytes() {
            if found.is_some() {
                return None;
            }
            found = Some(place);
        }
    }
    found
}

// The name of a needed column, counted from 0. The operation comes last.
fn needed_name(schema: &Schema, column: usize) -> &str
    requires { column ≤ length (names_of schema.now) }
    ensures { result.now ≡ slice_index_or (names_of schema.now ++ codes "op" ∷ []) column [] }
{
    let dims = schema.dims() as usize;
    let measures = schema.measures() as usize;
    if column == 0 {
        schema.id_name()
    } else if column <= dims {
        schema.dim_name((column - 1) as u8)
    } else if column <= dims + measures {
        schema.measure_name((column - 1 - dims) as u8)
    } else {
        "op"
    }
}

// The number of needed columns.
fn needed_count(schema: &Schema, has_op: bool) -> usize
    ensures count { result ≡ length (needed_names has_op schema.now) }
    ensures layout { IsLayout schema.now }
{
    let count = 1 + schema.dims() as usize + schema.measures() as usize;
    if has_op { count + 1 } else { count }
}

/// Finds the needed columns in a header, if each stands there exactly once.
pub fn find_columns(
    alloc: Global,
    schema: &Schema,
    header: &ByteRecord,
    has_op: bool,
) -> Result<Option<Columns>, AllocError>
    ensures found { IfOk result (λ found. option_map (λ columns. columns.places.items) found
        ≡ places_in (fields_of header.now) (needed_names has_op schema.now)) }
    ensures width { IfOk result
        (λ found. IfSome found (λ columns. columns.width ≡ length (fields_of header.now))) }
    ensures op { IfOk result (λ found. IfSome found (λ columns. columns.has_op ≡ has_op)) }
    ensures are { IfOk result (λ found. IfSome found (λ columns. AreColumns schema.now columns)) }
{
    let count = needed_count(schema, has_op);
    let mut places = Vec::with_capacity(alloc, count)?;
    'names: for column in 0..count {
        let Some(place) = place_of(header, needed_name(schema, column)) else {
            return Ok(None);
        };
        places.push(place)?;
    }
    let width = header.len();
    Ok(Some(Columns {
        width,
        places,
        has_op,
    }))
}
