// The files that a generated warehouse takes.
ghost use Rattle.std.specs.Prelude.{IfErr, IfOk, IsOk, None, OnOk, ◌<◌, ◌≡◌, ◌≤◌};
ghost use Rattle.cube_defs.specs.declared.limits.TheConstants.{MAX_ROWS};
ghost use Rattle.generated_run.specs.Generated.{IsTaken, file_taken, state_before};
ghost use Rattle.qc_schema.specs.Progress.{schema_fault_in};
ghost use Rattle.row_generator.specs.Drawn.{layout};
ghost use Rattle.row_generator.specs.Generator.{after_rows, base_text, batch_rows, batch_text};
ghost use Rattle.row_generator.specs.declared.files.TheConstants.{BATCHES};
ghost use Rattle.warehouse.specs.Batch.{Apply, Load};
ghost use Rattle.warehouse.specs.State.{empty};
ghost use Rattle.warehouse.specs.Stored.{refusal_in};

use crate::laws::no_generated_file_is_refused;
use cell_core::Steps;
use cube_defs::Memory;
use qc_schema::{SchemaRefused, read_schema};
use row_generator::{BATCHES, Draws, write_base, write_batch};
use std::alloc::{AllocError, Global};
use std::sync::ledger::Ledger;
use warehouse::{Applied, Refused, Warehouse};

// The schema of the files.
const SCHEMA: &[u8] =
    b"qcube 1\nid id\ndim a\ndim b\ndim c\ndim d\ndim e\nmeasure amount 2\nindex sum amount\n";

// A text that is a schema is refused for nothing but memory.
fn out_of_memory(refused: SchemaRefused) -> Memory
    requires { schema_fault_in refused ≡ None }
{
    match refused {
        SchemaRefused::Memory => AllocError,
        SchemaRefused::NotUtf8 => unreachable!(),
        SchemaRefused::Line { .. } => unreachable!(),
    }
}

/// A warehouse of the files' schema, without rows.
pub fn new_warehouse(alloc: Global) -> Result<Warehouse, Memory>
    ensures { IfOk result (λ warehouse. warehouse.state ≡ empty layout) }
{
    match read_schema(alloc, SCHEMA) {
        Ok(schema) => Warehouse::new(alloc, schema),
        Err(refused) => Err(out_of_memory(refused)),
    }
}

// A generated file is refused for nothing but memory.
fn memory_in(refused: Refused) -> Memory
    requires { refusal_in refused ≡ None }
{
    match refused {
        Refused::Memory => AllocError,
        Refused::NotEmpty | Refused::Header | Refused::RowsFull | Refused::NodesFull => {
            unreachable!()
        }
        Refused::Fields(_) | Refused::Utf8(_) | Refused::Op(_) | Refused::Id(_) => unreachable!(),
        Refused::Amount(_) | Refused::Value(_) | Refused::Twice(_) => unreachable!(),
        Refused::Missing(_) | Refused::Present(_) | Refused::ValuesFull(_) => unreachable!(),
    }
}

// The file was taken, or memory ran out.
fn settled(taken: Result<Applied, Refused>) -> Result<(), Memory>
    requires { IfErr taken (λ refused. refusal_in refused ≡ None) }
    ensures { OnOk result (IsOk taken) }
{
    match taken {
        Ok(_) => Ok(()),
        Err(refused) => Err(memory_in(refused)),
    }
}

/// Loads the base file.
pub fn load_base<L: Ledger>(
    warehouse: &mut Warehouse,
    rows: u32,
    draws: &mut Draws,
    file: &mut Vec<u8>,
    steps: &mut Steps<L>,
) -> Result<(), Memory>
    requires rows { rows ≤ MAX_ROWS }
    requires taken { IsTaken warehouse.old.state Load (base_text rows draws.old.state) }
    ensures draws { OnOk result (draws.new.state ≡ after_rows rows draws.old.state) }
    ensures state { OnOk result
        (warehouse.new.state ≡ file_taken warehouse.old.state Load
        (base_text rows draws.old.state)) }
{
    write_base(file, rows, draws)?;
    settled(warehouse.load(file, steps))
}

// Applies the batch that so many others precede.
fn apply_batch<L: Ledger>(
    warehouse: &mut Warehouse,
    rows: u32,
    before: u32,
    draws: &mut Draws,
    file: &mut Vec<u8>,
    steps: &mut Steps<L>,
) -> Result<(), Memory>
    requires rows { rows ≤ MAX_ROWS }
    requires before { before < BATCHES }
    requires taken { IsTaken warehouse.old.state Apply (batch_text rows before draws.old.state) }
    ensures draws { OnOk result (draws.new.state ≡ after_rows (batch_rows rows) draws.old.state) }
    ensures state { OnOk result (warehouse.new.state ≡ file_taken warehouse.old.state Apply
        (batch_text rows before draws.old.state)) }
{
    write_batch(file, rows, before, draws)?;
    settled(warehouse.apply(file, steps))
}

/// Applies all batches to the rows of the base file.
pub fn apply_batches<L: Ledger>(
    warehouse: &mut Warehouse,
    rows: u32,
    seed: u64,
    draws: &mut Draws,
    file: &mut Vec<u8>,
    steps: &mut Steps<L>,
) -> Result<(), Memory>
    requires rows { rows ≤ MAX_ROWS }
    requires draws { draws.old.state ≡ after_rows rows seed }
    requires state { warehouse.old.state ≡ state_before rows seed 0 }
    ensures { OnOk result (warehouse.new.state ≡ state_before rows seed BATCHES) }
{
    no_generated_file_is_refused();
    'batches: for before in 0..BATCHES {
        apply_batch(warehouse, rows, before, draws, file, steps)?;
    }
    Ok(())
}
