// The reply that reports the cells of a box.
ghost use Rattle.std.specs.List.{All, flat_map};
ghost use Rattle.std.specs.Prelude.{IfOk, OnOk, codes, decimal, length, ℕ, ◌++◌, ◌≡◌, ◌∷◌};
ghost use Rattle.range_query.specs.DecodedHits.{IsDecodableHit, hit_in, decoded_hit, decoded_hits};
ghost use Rattle.reply_text.specs.Replies.{hit_text, range_text};

use crate::cells::{CodedCell, push_cell};
use crate::fields::push_end;
use crate::short::begun;
use crate::totals::{Total, push_agg};
use cell_core::Memory;
use qc_schema::Schema;
use range_query::Hit;
use std::alloc::Global;
use value_dict::Dict;

/// Most records are at most so long.
pub(crate) const RECORD_ROOM: usize = 80;

// The record of a cell, of which the word and the line's number are given.
fn push_hit(
    out: &mut Vec<u8>,
    start: &[u8],
    schema: &Schema,
    dict: &Dict,
    hit: &Hit,
) -> Result<(), Memory>
    requires { IsDecodableHit dict.now.lists (length schema.now.measures) (hit_in hit.now) }
    ensures { (line : ℕ) → start.now ≡ codes "cell" ++ 44 ∷ decimal line →
        OnOk result (out.new.items ≡ out.old.items ++ hit_text line schema.now.measures
        (decoded_hit dict.now.lists (hit_in hit.now))) }
{
    let cell = CodedCell {
        dict,
        cell: &hit.cell,
    };
    out.extend_from_slice(start)?;
    push_cell(out, &cell)?;
    let total = Total {
        schema,
        agg: &hit.agg,
    };
    push_agg(out, &total)?;
    out.push(b'\n')?;
    Ok(())
}

// The records of all cells.
fn push_hits(
    out: &mut Vec<u8>,
    line: u32,
    schema: &Schema,
    dict: &Dict,
    hits: &[Hit],
) -> Result<(), Memory>
    requires { All (λ hit. IsDecodableHit dict.now.lists (length schema.now.measures)
        (hit_in hit)) hits.now }
    ensures { OnOk result (out.new.items ≡ out.old.items
        ++ flat_map (hit_text line schema.now.measures) (decoded_hits dict.now.lists hits.now)) }
{
    let start = begun("cell", line);
    'hits: for hit in hits {
        push_hit(out, start.as_bytes(), schema, dict, hit)?;
    }
    Ok(())
}

/// The reply to `range`.
pub fn range_reply(
    alloc: Global,
    line: u32,
    schema: &Schema,
    dict: &Dict,
    hits: &[Hit],
) -> Result<Vec<u8>, Memory>
    requires { All (λ hit. IsDecodableHit dict.now.lists (length schema.now.measures)
        (hit_in hit)) hits.now }
    ensures { IfOk result (λ reply. reply.items ≡ range_text line schema.now.measures
        (decoded_hits dict.now.lists hits.now)) }
{
    let mut out = Vec::with_capacity(alloc, hits.len().saturating_mul(RECORD_ROOM))?;
    push_hits(&mut out, line, schema, dict, hits)?;
    push_end(&mut out, line, hits.len() as u64)?;
    Ok(out)
}
