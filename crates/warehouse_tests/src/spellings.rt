// Bytes that are the snapshot of a state, or of none.

use cell_core::Steps;
use cube_defs::MAX_FILE;
use cube_snapshot::{DecodeRefused, decode, encode};
use std::alloc::Global;
use std::sync::ledger::Ledger;
use warehouse::Warehouse;

// A snapshot of three rows: the mark, the schema, the texts of three dimensions, and the rows.
const FULL: &[u8] = b"QCUBESN1\x00\x00\x00h\
    qcube 1\nid id\ndim store\ndim product\ndim season\nmeasure sale 0\nnodes 1000000\nrows 1000000\nvalues 4000000\n\
    \x00\x00\x00\x02\x02S1\x02S2\
    \x00\x00\x00\x02\x02P1\x02P2\
    \x00\x00\x00\x02\x01s\x01f\
    \x00\x00\x00\x03\
    \x00\x00\x00\x00\x00\x00\x00\x01\x00\x00\x00\x00\x00\x00\x00\x00\x00\x00\x00\x00\x00\x00\x00\x00\x00\x00\x00\x06\
    \x00\x00\x00\x00\x00\x00\x00\x02\x00\x00\x00\x00\x00\x00\x00\x01\x00\x00\x00\x00\x00\x00\x00\x00\x00\x00\x00\x0C\
    \x00\x00\x00\x00\x00\x00\x00\x03\x00\x00\x00\x01\x00\x00\x00\x00\x00\x00\x00\x01\x00\x00\x00\x00\x00\x00\x00\x09";

// [`FULL`], but of a schema that allows ten nodes, where the rows have eleven.
const CROWDED: &[u8] = b"QCUBESN1\x00\x00\x00c\
    qcube 1\nid id\ndim store\ndim product\ndim season\nmeasure sale 0\nnodes 10\nrows 1000000\nvalues 4000000\n\
    \x00\x00\x00\x02\x02S1\x02S2\
    \x00\x00\x00\x02\x02P1\x02P2\
    \x00\x00\x00\x02\x01s\x01f\
    \x00\x00\x00\x03\
    \x00\x00\x00\x00\x00\x00\x00\x01\x00\x00\x00\x00\x00\x00\x00\x00\x00\x00\x00\x00\x00\x00\x00\x00\x00\x00\x00\x06\
    \x00\x00\x00\x00\x00\x00\x00\x02\x00\x00\x00\x00\x00\x00\x00\x01\x00\x00\x00\x00\x00\x00\x00\x00\x00\x00\x00\x0C\
    \x00\x00\x00\x00\x00\x00\x00\x03\x00\x00\x00\x01\x00\x00\x00\x00\x00\x00\x00\x01\x00\x00\x00\x00\x00\x00\x00\x09";

// What bytes are.
#[derive(Clone, Copy)]
enum Verdict {
    /// The snapshot of a state.
    Spelled,
    /// Read as a state whose snapshot is another.
    Misread,
    /// Refused.
    Refused(DecodeRefused),
}

// Whether these are the bytes of a state.
fn spells(alloc: Global, warehouse: &Warehouse, bytes: &[u8]) -> Verdict {
    match encode(alloc, warehouse) {
        Ok(spelling) if spelling.as_slice() == bytes => Verdict::Spelled,
        _ => Verdict::Misread,
    }
}

// What the bytes are.
fn answer<L: Ledger>(alloc: Global, bytes: &[u8], steps: &mut Steps<L>) -> Verdict {
    if bytes.len() > MAX_FILE {
        return Verdict::Misread;
    }
    match decode(alloc, bytes, steps) {
        Ok(warehouse) => {
            let verdict = spells(alloc, &warehouse, bytes);
            warehouse.discard();
            verdict
        }
        Err(refused) => Verdict::Refused(refused),
    }
}

// Whether the bytes are no snapshot.
fn is_refused<L: Ledger>(alloc: Global, bytes: &[u8], steps: &mut Steps<L>) -> bool {
    matches!(
        answer(alloc, bytes, steps),
        Verdict::Refused(DecodeRefused::Form)
    )
}

// Whether the bytes are those of a tree with too many nodes.
fn is_crowded<L: Ledger>(alloc: Global, bytes: &[u8], steps: &mut Steps<L>) -> bool {
    matches!(
        answer(alloc, bytes, steps),
        Verdict::Refused(DecodeRefused::NodesFull)
    )
}

// Whether the first bytes of a snapshot, so many of them, are refused.
fn is_cut_refused<L: Ledger>(alloc: Global, len: usize, steps: &mut Steps<L>) -> bool {
    match FULL.get(..len) {
        Some(front) => is_refused(alloc, front, steps),
        None => false,
    }
}

// Whether no prefix of a snapshot is one.
fn are_cuts_refused<L: Ledger>(alloc: Global, steps: &mut Steps<L>) -> bool {
    'lens: for len in 0..232 {
        if !is_cut_refused(alloc, len, steps) {
            return false;
        }
    }
    true
}

// Whether a byte more after a snapshot is refused.
fn is_longer_refused<L: Ledger>(alloc: Global, byte: u8, steps: &mut Steps<L>) -> bool {
    let Ok(mut bytes) = Vec::from_slice(alloc, FULL) else {
        return false;
    };
    let is_right = bytes.push(byte).is_ok() && is_refused(alloc, &bytes, steps);
    drop(bytes);
    is_right
}

// Whether nothing may stand after a snapshot.
fn are_longer_refused<L: Ledger>(alloc: Global, steps: &mut Steps<L>) -> bool {
    'bytes: for byte in 0..4 {
        if !is_longer_refused(alloc, byte, steps) {
            return false;
        }
    }
    true
}

// Whether bytes are refused, but not for memory, or those of a snapshot.
fn is_told_well<L: Ledger>(alloc: Global, bytes: &[u8], steps: &mut Steps<L>) -> bool {
    match answer(alloc, bytes, steps) {
        Verdict::Spelled | Verdict::Refused(DecodeRefused::Form | DecodeRefused::NodesFull) => true,
        Verdict::Misread | Verdict::Refused(DecodeRefused::Memory) => false,
    }
}

fn change_byte(bytes: &mut [u8], place: usize, mask: u8) {
    if let Some(byte) = bytes.get_mut(place) {
        *byte ^= mask;
    }
}

// Whether a snapshot with one byte changed is refused, or that of another state.
fn is_changed_well<L: Ledger>(alloc: Global, place: usize, mask: u8, steps: &mut Steps<L>) -> bool {
    let Ok(mut bytes) = Vec::from_slice(alloc, FULL) else {
        return false;
    };
    change_byte(&mut bytes, place, mask);
    let is_told_well = is_told_well(alloc, &bytes, steps);
    drop(bytes);
    is_told_well
}

// Whether each byte of a snapshot counts.
fn are_changed_well<L: Ledger>(alloc: Global, steps: &mut Steps<L>) -> bool {
    'places: for place in 0..232 {
        if !is_changed_well(alloc, place, 1, steps) || !is_changed_well(alloc, place, 128, steps) {
            return false;
        }
    }
    true
}

/// Whether a snapshot is one, and a tree with too many nodes, a prefix, and more or other bytes are
/// none.
pub fn are_right<L: Ledger>(alloc: Global, steps: &mut Steps<L>) -> bool {
    matches!(answer(alloc, FULL, steps), Verdict::Spelled)
        && is_crowded(alloc, CROWDED, steps)
        && are_cuts_refused(alloc, steps)
        && are_longer_refused(alloc, steps)
        && are_changed_well(alloc, steps)
}
