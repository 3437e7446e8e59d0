// A whole generated run.
ghost use Rattle.std.specs.Prelude.{IfOk, OnOk, ◌≡◌, ◌≤◌};
ghost use Rattle.cube_defs.specs.declared.limits.TheConstants.{MAX_ROWS};
ghost use Rattle.generated_run.specs.Generated.{generated_record, generated_state, record_text};
ghost use Rattle.row_generator.specs.Drawn.{layout};
ghost use Rattle.warehouse.specs.State.{empty};

use crate::files::{apply_batches, load_base, new_warehouse};
use crate::laws::no_generated_file_is_refused;
use crate::run_record::write_record;
use cell_core::Steps;
use cube_defs::Memory;
use row_generator::Draws;
use std::alloc::Global;
use std::sync::ledger::Ledger;
use warehouse::Warehouse;

/// A warehouse that was filled by generated files.
#[derive(Drop)]
pub struct Generated {
    pub warehouse: Warehouse,
    /// Its record: one line, as the reply to `gen`.
    pub text: Vec<u8>,
}

// Loads the base file into an empty warehouse, applies the batches, and gives the record of the
// warehouse then.
fn fill<L: Ledger>(
    alloc: Global,
    warehouse: &mut Warehouse,
    rows: u32,
    seed: u64,
    steps: &mut Steps<L>,
) -> Result<Vec<u8>, Memory>
    requires rows { rows ≤ MAX_ROWS }
    requires state { warehouse.old.state ≡ empty layout }
    ensures state { OnOk result (warehouse.new.state ≡ generated_state rows seed) }
    ensures text { IfOk result (λ text. text.items ≡ record_text rows seed warehouse.new.state) }
{
    no_generated_file_is_refused();
    let mut draws = Draws { state: seed };
    let mut file = Vec::new(alloc);
    load_base(warehouse, rows, &mut draws, &mut file, steps)?;
    apply_batches(warehouse, rows, seed, &mut draws, &mut file, steps)?;
    write_record(alloc, &mut file, rows, seed, warehouse, steps)?;
    Ok(file)
}

/// Loads a base file of so many rows, drawn from a seed, into a new warehouse, and applies the
/// batches that follow it. It is refused only if out of memory.
pub fn generate<L: Ledger>(
    alloc: Global,
    rows: u32,
    seed: u64,
    steps: &mut Steps<L>,
) -> Result<Generated, Memory>
    requires { rows ≤ MAX_ROWS }
    ensures state { IfOk result (λ g. g.warehouse.state ≡ generated_state rows seed) }
    ensures text { IfOk result (λ g. g.text.items ≡ generated_record rows seed) }
{
    let mut warehouse = new_warehouse(alloc)?;
    match fill(alloc, &mut warehouse, rows, seed, steps) {
        Ok(text) => Ok(Generated { warehouse, text }),
        Err(error) => {
            warehouse.discard();
            Err(error)
        }
    }
}
