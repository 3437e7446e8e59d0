// What a batch says of its changes.

use csv_load::{RawBatch, read_batch};
use qc_schema::{Schema, read_schema};
use std::alloc::Global;

const ONE_DIM: &[u8] = b"qcube 1\nid id\ndim a\nmeasure m 2\n";

// How many changes and insertions a batch has, and the amount of its last.
fn counts(batch: &RawBatch) -> Option<(u32, u32, i64)> {
    let last = batch.len();
    if last == 0 || batch.is_delete(last) {
        return None;
    }
    let amount = *batch.amounts(last).first()?;
    Some((last, batch.insertions(), amount))
}

const CHANGES: &[u8] = b"op,id,a,m\n+,1,x,5\n-,2,y,6\n+,3,z,-7\n";

// The same of the batch of a file.
fn counts_read(alloc: Global, schema: &Schema) -> Option<(u32, u32, i64)> {
    let Ok(batch) = read_batch(alloc, schema, CHANGES) else {
        return None;
    };
    let counts = counts(&batch);
    drop(batch);
    counts
}

fn are_counted(alloc: Global) -> bool {
    let Ok(schema) = read_schema(alloc, ONE_DIM) else {
        return false;
    };
    let counts = counts_read(alloc, &schema);
    drop(schema);
    counts == Some((3, 2, -700))
}

fn is_empty(alloc: Global) -> bool {
    let batch = RawBatch::empty(alloc, 12, 1);
    let count = batch.len();
    drop(batch);
    count == 0
}

/// Whether changes are counted.
pub(crate) fn are_right(alloc: Global) -> bool {
    are_counted(alloc) && is_empty(alloc)
}
