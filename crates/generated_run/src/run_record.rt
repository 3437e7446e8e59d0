// The record of a generated warehouse.
ghost use Rattle.std.specs.Prelude.{OnOk, decimal, option_map, ◌++◌, ◌<◌, ◌∷◌, ◌≡◌, ◌≤◌};
ghost use Rattle.aggregates.specs.Texts.{amount_text};
ghost use Rattle.aggregates.specs.Views.{agg_in};
ghost use Rattle.generated_run.specs.Generated.{field_text, record_text, sum_in, total_of};

use aggregates::{Agg, print_amount};
use cell_core::{Cell, Steps};
use cube_defs::Memory;
use itoa::Buffer;
use std::alloc::Global;
use std::sync::ledger::Ledger;
use tree_search::total_at;
use warehouse::{Stats, Warehouse};

// The aggregate of all rows, if there are any.
fn total<L: Ledger>(alloc: Global, warehouse: &Warehouse, steps: &mut Steps<L>) -> Option<Agg>
    ensures { option_map agg_in result ≡ total_of warehouse.now.state }
{
    let cell = Cell::any(alloc, warehouse.schema().dims());
    total_at(warehouse.tree(), &cell, steps)
}

// The sum of the first measure.
fn sum_of(total: Option<Agg>) -> i64
    ensures { result ≡ sum_in (option_map agg_in total) }
{
    match total {
        Some(agg) => agg.parts[0].sum,
        None => 0,
    }
}

// A number, with a comma before it.
fn push_number(out: &mut Vec<u8>, number: u64) -> Result<(), Memory>
    ensures { OnOk result (out.new.items ≡ out.old.items ++ field_text (decimal number)) }
{
    out.push(b',')?;
    out.extend_from_slice(Buffer::new().format(number).as_bytes())
}

// An amount in hundredths, with a comma before it.
fn push_amount(out: &mut Vec<u8>, amount: i64) -> Result<(), Memory>
    ensures { OnOk result (out.new.items ≡ out.old.items ++ field_text (amount_text 2 amount)) }
{
    let mut text = [0; 48];
    let len = print_amount(amount, 2, &mut text);
    out.push(b',')?;
    out.extend_from_slice(&text[..len])
}

// The counts of the rows' tree, each with a comma before it.
fn push_counts(out: &mut Vec<u8>, counts: Stats) -> Result<(), Memory>
    ensures { OnOk result (out.new.items ≡ out.old.items ++ field_text (decimal counts.classes)
        ++ field_text (decimal counts.nodes)
        ++ field_text (decimal counts.tree_edges) ++ field_text (decimal counts.links)) }
{
    push_number(out, u64::from(counts.classes))?;
    push_number(out, u64::from(counts.nodes))?;
    push_number(out, counts.tree_edges)?;
    push_number(out, counts.links)
}

/// Replaces the contents of `out` by the record.
pub fn write_record<L: Ledger>(
    alloc: Global,
    out: &mut Vec<u8>,
    rows: u32,
    seed: u64,
    warehouse: &Warehouse,
    steps: &mut Steps<L>,
) -> Result<(), Memory>
    ensures { OnOk result (out.new.items ≡ record_text rows seed warehouse.now.state) }
{
    out.clear();
    out.extend_from_slice(b"gen")?;
    push_number(out, u64::from(rows))?;
    push_number(out, seed)?;
    push_counts(out, warehouse.stats())?;
    push_amount(out, sum_of(total(alloc, warehouse, steps)))?;
    out.extend_from_slice(b"\n")
}
