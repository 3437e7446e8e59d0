// A state as bytes.
ghost use Rattle.std.specs.Prelude.{Err, IfOk, length, ◌<◌, ◌≡◌, ◌≤◌};
ghost use Rattle.cube_snapshot.specs.States.{spelling};

use crate::contents::Contents;
use crate::refused::EncodeRefused;
use crate::sizes::snapshot_len;
use crate::writing::put_all;
use cube_defs::MAX_FILE;
use qc_schema::schema_text;
use std::alloc::Global;
use warehouse::Warehouse;

/// The snapshot of a state, in this order. The mark `QCUBESN1`. The length of the schema's
/// canonical text, and the text. For each dimension the number of its texts, and each text with its
/// length before it. The number of rows, and for each its id, a code in each dimension, and its
/// amounts in two's complement. A code is the place of a text. The length of a text has one byte,
/// an id and an amount have eight, and all other numbers four, the highest byte first. Nothing
/// follows.
///
/// TooLong is the answer exactly if this has more bytes than a file may have, unless memory runs
/// out. Room for all bytes is taken at once, and each is written once.
pub fn encode(alloc: Global, warehouse: &Warehouse) -> Result<Vec<u8>, EncodeRefused>
    ensures bytes { IfOk result (λ bytes. bytes.items ≡ spelling warehouse.now.state) }
    ensures fits { IfOk result (λ bytes. length bytes.items ≤ MAX_FILE) }
    ensures too_long { result ≡ Err EncodeRefused.TooLong
        → MAX_FILE < length (spelling warehouse.now.state) }
{
    let schema = schema_text(alloc, warehouse.schema())?;
    let contents = Contents {
        schema: &schema,
        dict: warehouse.dict(),
        table: warehouse.table(),
    };
    let len = snapshot_len(&contents);
    if len > MAX_FILE as u64 {
        return Err(EncodeRefused::TooLong);
    }
    Ok(put_all(alloc, len as usize, &contents)?)
}
