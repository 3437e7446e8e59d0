// The files of a generated run.
ghost use Rattle.std.specs.Prelude.{OnOk, [], length, ◌+◌, ◌*◌, ◌<◌, ◌≡◌, ◌≤◌};
ghost use Rattle.cube_defs.specs.declared.limits.TheConstants.{MAX_FILE, MAX_ROWS};
ghost use Rattle.row_generator.specs.Generator.{after_rows, base_text, batch_rows, batch_text};

use crate::draws::Draws;
use crate::rows::{push_deletions, push_rows};
use cube_defs::Memory;

/// The number of batches after the base file.
pub const BATCHES: u32 = 40;

/// Replaces the contents of `out` by the base file of so many rows.
pub fn write_base(out: &mut Vec<u8>, rows: u32, draws: &mut Draws) -> Result<(), Memory>
    requires { rows ≤ MAX_ROWS }
    ensures state { OnOk result (draws.new.state ≡ after_rows rows draws.old.state) }
    ensures text { OnOk result (out.new.items ≡ base_text rows draws.old.state) }
    ensures within { OnOk result (length out.new.items ≤ MAX_FILE) }
{
    out.clear();
    out.extend_from_slice(b"id,a,b,c,d,e,amount\n")?;
    push_rows(out, b"", rows, 1, draws)
}

// The number of deletions of a batch, and of its insertions.
fn rows_of_batch(rows: u32) -> u32
    ensures rows { result ≡ batch_rows rows }
    ensures few { result ≤ 50 }
{
    rows.min(50)
}

/// Replaces the contents of `out` by a batch. `before` batches come before it, after a base file of
/// `rows` rows.
pub fn write_batch(
    out: &mut Vec<u8>,
    rows: u32,
    before: u32,
    draws: &mut Draws,
) -> Result<(), Memory>
    requires rows { rows ≤ MAX_ROWS }
    requires before { before < BATCHES }
    ensures state { OnOk result (draws.new.state ≡ after_rows (batch_rows rows) draws.old.state) }
    ensures text { OnOk result (out.new.items ≡ batch_text rows before draws.old.state) }
    ensures within { OnOk result (length out.new.items ≤ MAX_FILE) }
{
    let count = rows_of_batch(rows);
    let first = before * count + 1;
    out.clear();
    out.extend_from_slice(b"op,id,a,b,c,d,e,amount\n")?;
    push_deletions(out, count, first)?;
    push_rows(out, b"+,", count, rows + first, draws)
}
