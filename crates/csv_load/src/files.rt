// Base files and batches.
ghost use Rattle.std.specs.Prelude.{◌≡◌, ◌≢◌, ◌≤◌, ◌<◌, ◌^◌, ℕ, length, IfOk, IfErr};
ghost use Rattle.csv_load.specs.Files.{base_in, batch_in, changes_of, file_in};
ghost use Rattle.csv_load.specs.Batch.{AreInsertions};
ghost use Rattle.cell_core.specs.Gives.{Gives};
ghost use Rattle.csv_load.specs.Faults.{fault_in};
ghost use Rattle.text_lines.specs.Records.{bytes_in_all};

use crate::batch::RawBatch;
use crate::changes::ChangeColumns;
use crate::columns::find_columns;
use crate::reading::read_changes;
use csv::ByteRecord;
use cube_defs::MAX_FILE;
use qc_schema::Schema;
use std::alloc::{AllocError, AllocFailed, Global};
use text_lines::{RecordReader, has_two_byte_order_marks, trim_byte_order_mark};

/// Why a file gives no changes. A number is that of the first wrong record, counted from 1 after
/// the header. If several faults hold, the first in this order is reported.
#[derive(Clone, Copy)]
pub enum LoadRefused {
    /// There is no header, or a needed column doesn't stand in it exactly once.
    Header,
    /// The record has another number of fields than the header.
    Fields(u32),
    /// The text of a dimension isn't UTF-8, in a deletion too.
    Utf8(u32),
    /// The operation of a record of a batch is neither `+` nor `-`.
    Op(u32),
    /// The id is no whole number that fits 64 bits.
    Id(u32),
    /// An amount of an insertion has another form than its measure's scale allows, or is too large.
    Amount(u32),
    /// The text of a dimension of an insertion has more than 255 bytes.
    Value(u32),
    /// Memory ran out.
    Memory,
}

impl From<AllocError> for LoadRefused {
    ghost use Rattle.csv_load.specs.declared.files.LoadRefused.TheVariants as refusals;

    ghost from_gives = { λ _ e. e ≡ refusals.Memory };

    fn from(_: AllocError) -> Self {
        LoadRefused::Memory
    }
}

impl<T: Drop> From<AllocFailed<T>> for LoadRefused {
    ghost use Rattle.csv_load.specs.declared.files.LoadRefused.TheVariants as refusals;

    ghost from_gives = { λ _ e. e ≡ refusals.Memory };

    fn from(_: AllocFailed<T>) -> Self {
        LoadRefused::Memory
    }
}

// Reads the header and the changes after it.
fn read_records(
    alloc: Global,
    schema: &Schema,
    rows: &mut RecordReader,
    row: &mut ByteRecord,
    has_op: bool,
    size: usize,
) -> Result<RawBatch, LoadRefused>
    requires few { length rows.old < 2 ^ 32 }
    requires room { bytes_in_all rows.old < 2 ^ 32 }
    ensures gives { Gives fault_in (λ batch. batch.changes) result
        (changes_of has_op schema.now rows.old) }
    ensures dims { IfOk result (λ batch. batch.dims ≡ length schema.now.dims) }
    ensures measures { IfOk result (λ batch. batch.measures ≡ length schema.now.measures) }
{
    if !rows.next(row)? {
        return Err(LoadRefused::Header);
    }
    let Some(columns) = find_columns(alloc, schema, row, has_op)? else {
        return Err(LoadRefused::Header);
    };
    let changes = ChangeColumns::with_room(alloc, size)?;
    read_changes(schema, &columns, rows, row, changes)
}

// Reads a file whose records have an operation, or are all insertions.
#[tactic(auto, using(text_lines::proofs::CallerLemmas::no_second))]
fn read_file(
    alloc: Global,
    schema: &Schema,
    bytes: &[u8],
    has_op: bool,
) -> Result<RawBatch, LoadRefused>
    requires { length bytes.now ≤ MAX_FILE }
    ensures gives { Gives fault_in (λ batch. batch.changes) result
        (file_in has_op schema.now bytes.now) }
    ensures dims { IfOk result (λ batch. batch.dims ≡ length schema.now.dims) }
    ensures measures { IfOk result (λ batch. batch.measures ≡ length schema.now.measures) }
{
    if has_two_byte_order_marks(bytes) {
        return Err(LoadRefused::Header);
    }
    let mut rows = RecordReader::new(alloc, trim_byte_order_mark(bytes));
    let mut row = ByteRecord::new(alloc);
    read_records(alloc, schema, &mut rows, &mut row, has_op, bytes.len())
}

/// Reads a CSV file whose header has the columns of the schema, in any order and among others. Each
/// record is an insertion. A text is kept as it stands, and an id may come twice.
pub fn read_base(alloc: Global, schema: &Schema, bytes: &[u8]) -> Result<RawBatch, LoadRefused>
    requires { length bytes.now ≤ MAX_FILE }
    ensures gives { Gives fault_in (λ batch. batch.changes) result (base_in schema.now bytes.now) }
    ensures dims { IfOk result (λ batch. batch.dims ≡ length schema.now.dims) }
    ensures measures { IfOk result (λ batch. batch.measures ≡ length schema.now.measures) }
    ensures insertions { IfOk result (λ batch. AreInsertions batch.changes) }
    ensures no_op { IfErr result (λ refused. (k : ℕ) → refused ≢ LoadRefused.Op k) }
{
    read_file(alloc, schema, bytes, false)
}

/// Reads a batch: a CSV file that also has the column `op`, with `+` in an insertion and `-` in a
/// deletion. An id may come any number of times.
pub fn read_batch(alloc: Global, schema: &Schema, bytes: &[u8]) -> Result<RawBatch, LoadRefused>
    requires { length bytes.now ≤ MAX_FILE }
    ensures gives { Gives fault_in (λ batch. batch.changes) result (batch_in schema.now bytes.now) }
    ensures dims { IfOk result (λ batch. batch.dims ≡ length schema.now.dims) }
    ensures measures { IfOk result (λ batch. batch.measures ≡ length schema.now.measures) }
{
    read_file(alloc, schema, bytes, true)
}
