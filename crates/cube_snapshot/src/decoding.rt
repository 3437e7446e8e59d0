// A state from its bytes.
ghost use Rattle.std.specs.Prelude.{Err, IfOk, MatchResult, length, ◌≡◌, ◌≢◌, ◌≤◌};
ghost use Rattle.warehouse.specs.State.{AreContents, IsConsistent, IsState, State};
ghost use Rattle.cube_snapshot.specs.States.{HasTooManyNodes, spelling};

use crate::refused::{DecodeRefused, PartRefused};
use crate::whole::read_parts;
use cell_core::{HashKeys, Steps};
use cube_defs::MAX_FILE;
use std::alloc::Global;
use std::sync::ledger::Ledger;
use warehouse::{PartsRefused, Warehouse};

/// Does what `decode_with_keys` does, under fixed keys: a file of texts that are chosen to collide
/// is slow.
pub fn decode<L: Ledger>(
    alloc: Global,
    bytes: &[u8],
    steps: &mut Steps<L>,
) -> Result<Warehouse, DecodeRefused>
    requires { length bytes.now ≤ MAX_FILE }
    ensures spelled { IfOk result (λ warehouse. bytes.now ≡ spelling warehouse.state) }
    ensures valid { IfOk result (λ warehouse. AreContents warehouse) }
    ensures found { (s : State) → IsState s → bytes.now ≡ spelling s
        → MatchResult result (λ warehouse. warehouse.state ≡ s) (λ e. e ≡ DecodeRefused.Memory) }
    ensures form { result ≡ Err DecodeRefused.Form → (s : State) → IsConsistent s
        → bytes.now ≢ spelling s }
    ensures nodes_full { result ≡ Err DecodeRefused.NodesFull → (s : State)
        × HasTooManyNodes bytes.now s }
{
    decode_with_keys(alloc, HashKeys::fixed(), bytes, steps)
}

/// The state whose snapshot the bytes are. Unless memory runs out, it is the answer exactly if they
/// are the snapshot of a state. NodesFull comes exactly if they encode a state that has more nodes
/// than its schema allows and is within all other limits. Else the answer is Form. Each byte is
/// read once, and the tree is built once. What the bytes bring is hashed under the keys.
pub fn decode_with_keys<L: Ledger>(
    alloc: Global,
    keys: HashKeys,
    bytes: &[u8],
    steps: &mut Steps<L>,
) -> Result<Warehouse, DecodeRefused>
    requires { length bytes.now ≤ MAX_FILE }
    ensures spelled { IfOk result (λ warehouse. bytes.now ≡ spelling warehouse.state) }
    ensures valid { IfOk result (λ warehouse. AreContents warehouse) }
    ensures found { (s : State) → IsState s → bytes.now ≡ spelling s
        → MatchResult result (λ warehouse. warehouse.state ≡ s) (λ e. e ≡ DecodeRefused.Memory) }
    ensures form { result ≡ Err DecodeRefused.Form → (s : State) → IsConsistent s
        → bytes.now ≢ spelling s }
    ensures nodes_full { result ≡ Err DecodeRefused.NodesFull → (s : State)
        × HasTooManyNodes bytes.now s }
{
    let (schema, dict, table) = match read_parts(alloc, keys, bytes) {
        Ok(made) => made,
        Err(PartRefused::Form) => return Err(DecodeRefused::Form),
        Err(PartRefused::Memory) => return Err(DecodeRefused::Memory),
    };
    match Warehouse::from_parts(alloc, schema, dict, table, steps) {
        Ok(warehouse) => Ok(warehouse),
        Err(PartsRefused::NodesFull) => Err(DecodeRefused::NodesFull),
        Err(PartsRefused::Memory) => Err(DecodeRefused::Memory),
    }
}
