// How many bytes the parts of a snapshot have.
ghost use Rattle.std.specs.Prelude.{All, length, ◌+◌, ◌*◌, ◌<◌, ◌≡◌, ◌≤◌};
ghost use Rattle.std.specs.List.{flat_map};
ghost use Rattle.base_table.specs.Places.{rows_of};
ghost use Rattle.cube_snapshot.specs.Parts.{rows, text, texts};
ghost use Rattle.cube_snapshot.specs.Snapshot.{parts_format};
ghost use Rattle.value_dict.specs.TextLists.{list_at};

use crate::contents::Contents;
use base_table::Table;
use cube_defs::{MAX_CODES, MAX_DIMS, MAX_MEASURES, MAX_ROWS, MAX_TEXT};

// The bytes of the texts of a dimension, each with its length before it, without their number.
fn texts_len(contents: &Contents, dim: u8) -> usize
    requires { dim < length contents.now.dict.now.lists }
    ensures value { result ≡ length (flat_map text.put (list_at contents.now.dict.now dim)) }
    ensures small { result ≤ (1 + MAX_TEXT) * MAX_CODES }
{
    let mut len = 0;
    'texts: for code in 0..contents.dict.len(dim) {
        len += 1 + contents.dict.text(dim, code).len();
    }
    len
}

// The bytes of the texts of all dimensions.
fn dict_len(contents: &Contents) -> usize
    ensures value { result ≡ length (flat_map texts.put contents.now.dict.now.lists) }
    ensures small { result ≤ MAX_DIMS * (4 + (1 + MAX_TEXT) * MAX_CODES) }
{
    let mut len = 0;
    'dims: for dim in 0..contents.dict.dims() {
        len += 4 + texts_len(contents, dim);
    }
    len
}

// The bytes of the rows, with their number.
fn rows_len(table: &Table) -> usize
    ensures value { result ≡ length
        ((rows table.now.dims table.now.measures).put (rows_of table.now)) }
    ensures small { result ≤ 4 + MAX_ROWS * (8 + 4 * MAX_DIMS + 8 * MAX_MEASURES) }
{
    let row = 8 + 4 * usize::from(table.dims()) + 8 * usize::from(table.measures());
    4 + table.count() as usize * row
}

/// The bytes of a whole snapshot.
pub(crate) fn snapshot_len(contents: &Contents) -> u64
    ensures { result ≡ length
        (parts_format contents.now.schema.now.items contents.now.dict.now.lists
        contents.now.table.now.dims contents.now.table.now.measures
        (rows_of contents.now.table.now)) }
{
    let texts = dict_len(contents) as u64;
    12 + contents.schema.len() as u64 + texts + rows_len(contents.table) as u64
}
