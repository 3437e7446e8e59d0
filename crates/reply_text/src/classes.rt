// The replies that report classes with their bounds.
ghost use Rattle.std.specs.List.{All, flat_map};
ghost use Rattle.std.specs.Prelude.{IfOk, OnOk, length, map, ◌++◌, ◌≡◌};
ghost use Rattle.iceberg_query.specs.Hits.{decoded_classes};
ghost use Rattle.lower_bounds.specs.Classes.{hit_in};
ghost use Rattle.reply_text.specs.Replies.{bounds_text, class_text, iceberg_text, lower_text};
ghost use Rattle.value_dict.specs.Decoded.{HasTexts, IsDecodableClass, decoded_cell, decoded_class};

use crate::cells::{CodedCell, push_record_start};
use crate::fields::push_end;
use crate::ranges::RECORD_ROOM;
use crate::totals::{Total, push_agg};
use cell_core::{Cells, Memory};
use lower_bounds::ClassHit;
use qc_schema::Schema;
use std::alloc::Global;
use value_dict::Dict;

// The record of a lower bound.
fn push_lower(out: &mut Vec<u8>, line: u32, coded: &CodedCell<'_>) -> Result<(), Memory>
    ensures { OnOk result (out.new.items ≡ out.old.items
        ++ lower_text line (decoded_cell coded.now.dict.now.lists coded.now.cell.now)) }
{
    push_record_start(out, b"lower", line, coded)?;
    out.push(b'\n')?;
    Ok(())
}

// The records of all lower bounds.
fn push_lowers(out: &mut Vec<u8>, line: u32, dict: &Dict, cells: &Cells) -> Result<(), Memory>
    requires { All (HasTexts dict.now.lists) cells.now }
    ensures { OnOk result (out.new.items ≡ out.old.items ++ flat_map (lower_text line)
        (map (decoded_cell dict.now.lists) cells.now)) }
{
    'cells: for k in 0..cells.len() {
        let lower = CodedCell {
            dict,
            cell: cells.get(k),
        };
        push_lower(out, line, &lower)?;
    }
    Ok(())
}

// The record of an upper bound, and those of the lower bounds.
fn push_class(
    out: &mut Vec<u8>,
    line: u32,
    schema: &Schema,
    dict: &Dict,
    class: &ClassHit,
) -> Result<(), Memory>
    requires { IsDecodableClass dict.now.lists (length schema.now.measures) (hit_in class.now) }
    ensures { OnOk result (out.new.items ≡ out.old.items ++ class_text line schema.now.measures
        (decoded_class dict.now.lists (hit_in class.now))) }
{
    let upper = CodedCell {
        dict,
        cell: &class.upper,
    };
    push_record_start(out, b"class", line, &upper)?;
    let total = Total {
        schema,
        agg: &class.agg,
    };
    push_agg(out, &total)?;
    out.push(b'\n')?;
    push_lowers(out, line, dict, &class.lowers)
}

// The records of all classes.
fn push_classes(
    out: &mut Vec<u8>,
    line: u32,
    schema: &Schema,
    dict: &Dict,
    classes: &[ClassHit],
) -> Result<(), Memory>
    requires { All (λ class. IsDecodableClass dict.now.lists (length schema.now.measures)
        (hit_in class)) classes.now }
    ensures { OnOk result (out.new.items ≡ out.old.items
        ++ flat_map (class_text line schema.now.measures)
        (decoded_classes dict.now.lists classes.now)) }
{
    'classes: for class in classes {
        push_class(out, line, schema, dict, class)?;
    }
    Ok(())
}

/// Appends the reply to `bounds`.
pub fn push_bounds(
    out: &mut Vec<u8>,
    line: u32,
    schema: &Schema,
    dict: &Dict,
    class: &ClassHit,
) -> Result<(), Memory>
    requires { IsDecodableClass dict.now.lists (length schema.now.measures) (hit_in class.now) }
    ensures { OnOk result (out.new.items ≡ out.old.items ++ bounds_text line schema.now.measures
        (decoded_class dict.now.lists (hit_in class.now))) }
{
    push_class(out, line, schema, dict, class)?;
    push_end(out, line, 1)
}

/// The reply to `bounds`.
pub fn bounds_reply(
    alloc: Global,
    line: u32,
    schema: &Schema,
    dict: &Dict,
    class: &ClassHit,
) -> Result<Vec<u8>, Memory>
    requires { IsDecodableClass dict.now.lists (length schema.now.measures) (hit_in class.now) }
    ensures { IfOk result (λ reply. reply.items ≡ bounds_text line schema.now.measures
        (decoded_class dict.now.lists (hit_in class.now))) }
{
    let records = class.lowers.len() as usize + 2;
    let mut out = Vec::with_capacity(alloc, records.saturating_mul(RECORD_ROOM))?;
    push_bounds(&mut out, line, schema, dict, class)?;
    Ok(out)
}

/// The reply to `iceberg`.
pub fn iceberg_reply(
    alloc: Global,
    line: u32,
    schema: &Schema,
    dict: &Dict,
    classes: &[ClassHit],
) -> Result<Vec<u8>, Memory>
    requires { All (λ class. IsDecodableClass dict.now.lists (length schema.now.measures)
        (hit_in class)) classes.now }
    ensures { IfOk result (λ reply. reply.items ≡ iceberg_text line schema.now.measures
        (decoded_classes dict.now.lists classes.now)) }
{
    let mut out = Vec::with_capacity(alloc, classes.len().saturating_mul(RECORD_ROOM))?;
    push_classes(&mut out, line, schema, dict, classes)?;
    push_end(&mut out, line, classes.len() as u64)?;
    Ok(out)
}
