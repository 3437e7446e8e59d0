// The reply to a point.
ghost use Rattle.std.specs.Prelude.{IfOk, OnOk, length, ◌++◌, ◌≡◌};
ghost use Rattle.aggregates.specs.Views.{agg_in};
ghost use Rattle.range_query.specs.DecodedHits.{IsDecodableHit};
ghost use Rattle.reply_text.specs.Replies.{point_text};
ghost use Rattle.value_dict.specs.Decoded.{decoded_cell};

use crate::cells::{CodedCell, push_record_start};
use crate::totals::{Total, push_agg};
use aggregates::Agg;
use cell_core::{Cell, Memory};
use qc_schema::Schema;
use std::alloc::Global;
use value_dict::Dict;

// The memory that is taken for a reply at once. Few replies are longer.
const ROOM: usize = 128;

/// Appends the reply to a point that covers a row.
pub fn push_point(
    out: &mut Vec<u8>,
    line: u32,
    schema: &Schema,
    dict: &Dict,
    cell: &Cell,
    total: &Agg,
) -> Result<(), Memory>
    requires { IsDecodableHit dict.now.lists (length schema.now.measures)
        (record { cell = cell.now; agg = agg_in total.now }) }
    ensures { OnOk result (out.new.items ≡ out.old.items
        ++ point_text line (decoded_cell dict.now.lists cell.now) schema.now.measures
        (agg_in total.now)) }
{
    push_record_start(out, b"point", line, &CodedCell { dict, cell })?;
    push_agg(out, &Total { schema, agg: total })?;
    out.push(b'\n')?;
    Ok(())
}

/// The reply to a point that covers a row.
pub fn point_reply(
    alloc: Global,
    line: u32,
    schema: &Schema,
    dict: &Dict,
    cell: &Cell,
    total: &Agg,
) -> Result<Vec<u8>, Memory>
    requires { IsDecodableHit dict.now.lists (length schema.now.measures)
        (record { cell = cell.now; agg = agg_in total.now }) }
    ensures { IfOk result (λ reply. reply.items ≡ point_text line
        (decoded_cell dict.now.lists cell.now) schema.now.measures (agg_in total.now)) }
{
    let mut out = Vec::with_capacity(alloc, ROOM)?;
    push_point(&mut out, line, schema, dict, cell, total)?;
    Ok(out)
}
