// Range queries with the cells that they have.
ghost use Rattle.std.specs.Prelude.{IfOk, length, ◌≡◌};
ghost use Rattle.cube_defs.specs.Answers as defs;
ghost use Rattle.cube_defs.specs.Text.{text_cmp};
ghost use Rattle.range_query.specs.DecodedHits.{decoded_hits};
ghost use Rattle.value_dict.specs.Boxes.{fields_box};

use crate::range_fields::fields;
use crate::shops::{base, filled};
use cell_core::{Entry, Fields, Memory, Steps};
use range_query::{Hit, RangeRefused, range};
use std::alloc::Global;
use std::str;
use std::sync::ledger::Ledger;
use warehouse::Warehouse;

const SCHEMA: &[u8] = b"qcube 1\nid id\ndim x\ndim y\ndim z\nmeasure sale 0\n";

// The answer to a range query.
fn answer<L: Ledger>(
    alloc: Global,
    shop: &Warehouse,
    asked: &Fields,
    limit: u32,
    steps: &mut Steps<L>,
) -> Result<Vec<Hit>, RangeRefused>
    requires { length asked.now ≡ length shop.now.state.schema.dims }
    ensures { IfOk result (λ hits. decoded_hits shop.now.state.texts hits.items
        ≡ defs.range text_cmp (length shop.now.state.schema.measures) shop.now.state.rows
        (fields_box shop.now.state.texts 0 asked.now)) }
{
    match shop.dict().box_of(alloc, asked) {
        Ok(cells) => {
            let hits = range(alloc, shop.tree(), shop.dict(), &cells, limit, steps);
            drop(cells);
            hits
        }
        Err(_) => Err(RangeRefused::Memory),
    }
}

// Writes an entry and a comma.
fn push_entry(line: &mut String, shop: &Warehouse, dim: u8, entry: Entry) -> Result<(), Memory> {
    match entry {
        Entry::Any => line.push_str("*")?,
        Entry::Is(code) => {
            if dim < shop.dict().dims() && code < shop.dict().len(dim) {
                line.push_str(shop.dict().text(dim, code))?;
            }
        }
    }
    line.push_str(",")
}

// Writes a cell of three dimensions, how many rows it covers and what they come to.
fn push_hit(alloc: Global, lines: &mut String, shop: &Warehouse, hit: &Hit) -> Result<(), Memory> {
    'dims: for dim in 0..hit.cell.dims() {
        push_entry(lines, shop, dim, hit.cell.get(dim))?;
    }
    let (count, sum) = (hit.agg.count, hit.agg.parts[0].sum);
    let end = format!(in alloc; "{count},{sum}\n")?;
    let is_pushed = lines.push_str(end.as_str());
    drop(end);
    is_pushed
}

fn push_hits(
    alloc: Global,
    lines: &mut String,
    shop: &Warehouse,
    hits: &[Hit],
) -> Result<(), Memory> {
    'hits: for hit in hits {
        push_hit(alloc, lines, shop, hit)?;
    }
    Ok(())
}

// Whether the cells are written so.
fn are_written(alloc: Global, shop: &Warehouse, hits: &[Hit], cells: &str) -> bool {
    let mut lines = String::new(alloc);
    let are_written = push_hits(alloc, &mut lines, shop, hits).is_ok() && lines.as_str() == cells;
    drop(lines);
    are_written
}

// How many cells a query has, if just these, in order.
fn count<L: Ledger>(
    alloc: Global,
    shop: &Warehouse,
    asked: &Fields,
    cells: &str,
    steps: &mut Steps<L>,
) -> Option<usize>
    requires { length asked.now ≡ length shop.now.state.schema.dims }
{
    let Ok(hits) = answer(alloc, shop, asked, 64, steps) else {
        return None;
    };
    let are_written = are_written(alloc, shop, &hits, cells);
    let count = hits.len();
    drop(hits);
    if are_written { Some(count) } else { None }
}

// Whether an answer is there, and not too long. None where it is refused for another cause.
fn has_answer(answer: Result<Vec<Hit>, RangeRefused>) -> Option<bool> {
    match answer {
        Ok(hits) => {
            drop(hits);
            Some(true)
        }
        Err(RangeRefused::TooMany) => Some(false),
        Err(_) => None,
    }
}

// Whether just so many cells may be asked for, and one less is too few.
fn is_exact<L: Ledger>(
    alloc: Global,
    shop: &Warehouse,
    asked: &Fields,
    count: u32,
    steps: &mut Steps<L>,
) -> bool
    requires { length asked.now ≡ length shop.now.state.schema.dims }
{
    if count == 0 {
        return true;
    }
    has_answer(answer(alloc, shop, asked, count, steps)) == Some(true)
        && has_answer(answer(alloc, shop, asked, count - 1, steps)) == Some(false)
}

// Whether a query has just these cells, in order.
fn is_answered<L: Ledger>(
    alloc: Global,
    shop: &Warehouse,
    asked: &Fields,
    cells: &str,
    steps: &mut Steps<L>,
) -> bool
    requires { length asked.now ≡ 3 }
{
    if shop.schema().dims() != 3 {
        return false;
    }
    match count(alloc, shop, asked, cells, steps) {
        Some(count) => count <= 64 && is_exact(alloc, shop, asked, count as u32, steps),
        None => false,
    }
}

// Whether a warehouse of a base file answers a range as the case says.
fn is_right<L: Ledger>(alloc: Global, case: &str, steps: &mut Steps<L>) -> Option<bool> {
    let mut parts = case.split("\n--\n");
    let (rows, asked, cells) = (parts.next()?, parts.next()?, parts.next()?);
    let asked = fields(alloc, asked)?;
    let Some(shop) = filled(alloc, SCHEMA, &[base(rows.as_bytes())], steps) else {
        drop(asked);
        return None;
    };
    let is_answered = is_answered(alloc, &shop, &asked, cells, steps);
    shop.discard();
    drop(asked);
    Some(is_answered)
}

/// Whether each case of a file is right.
pub fn are_right<L: Ledger>(alloc: Global, bytes: &[u8], steps: &mut Steps<L>) -> bool {
    let text = str::from_utf8(bytes).unwrap_or("");
    'cases: for case in text.split("\n====\n") {
        if is_right(alloc, case, steps) != Some(true) {
            return false;
        }
    }
    true
}
