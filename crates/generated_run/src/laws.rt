//! Laws of generated runs, as the contracts of functions that do nothing.
ghost use Rattle.std.specs.Prelude.{ℕ, ◌*◌, ◌+◌, ◌<◌, ◌≡◌, ◌≤◌};
ghost use Rattle.generated_run.specs.Generated.{IsTaken, batch_at, file_taken, generated_state, state_before};
ghost use Rattle.row_generator.specs.Drawn.{drawn_rows, layout};
ghost use Rattle.row_generator.specs.Generator.{after_rows, base_text, batch_rows, oldest_id};
ghost use Rattle.warehouse.specs.Batch.{Apply, Load};
ghost use Rattle.warehouse.specs.State.{empty};

use cube_defs::MAX_ROWS;
use row_generator::BATCHES;
use row_generator::laws::{base_files_are_read, batches_are_read, drawn_rows_have_few_nodes};

/// No generated file is refused, whatever the seed and the number of rows: not the base file, and
/// no batch in the state that the files before it leave. Its rows are exactly those that the seed
/// gives, without the oldest ones, which the batches deleted.
pub fn no_generated_file_is_refused()
    ensures base { (rows seed : ℕ) → rows ≤ MAX_ROWS
        → IsTaken (empty layout) Load (base_text rows seed) }
    ensures batches { (rows seed before : ℕ) → rows ≤ MAX_ROWS → before < BATCHES
        → IsTaken (state_before rows seed before) Apply (batch_at rows seed before) }
    ensures rows { (rows seed before : ℕ) → rows ≤ MAX_ROWS → before ≤ BATCHES
        → (state_before rows seed before).rows
        ≡ drawn_rows rows (oldest_id rows before) (after_rows (before * batch_rows rows) seed) }
    ensures start { (rows seed : ℕ)
        → state_before rows seed 0 ≡ file_taken (empty layout) Load (base_text rows seed) }
    ensures next { (rows seed before : ℕ) → state_before rows seed (before + 1)
        ≡ file_taken (state_before rows seed before) Apply (batch_at rows seed before) }
    ensures end { (rows seed : ℕ) → generated_state rows seed ≡ state_before rows seed BATCHES }
{
    base_files_are_read();
    batches_are_read();
    drawn_rows_have_few_nodes();
}
