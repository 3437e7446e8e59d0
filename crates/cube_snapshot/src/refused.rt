// Why a state has no snapshot, and why bytes aren't one.
use cube_defs::Memory;

/// Why a state has no snapshot.
#[derive(Clone, Copy)]
pub enum EncodeRefused {
    /// It would have more bytes than a file may have.
    TooLong,
    /// Memory ran out.
    Memory,
}

impl From<Memory> for EncodeRefused {
    ghost use Rattle.std.specs.Prelude.{◌≡◌};
    ghost use Rattle.cube_snapshot.specs.declared.refused.EncodeRefused.TheVariants as refusals;

    ghost from_gives = { λ _ refused. refused ≡ refusals.Memory };

    fn from(_memory: Memory) -> EncodeRefused {
        EncodeRefused::Memory
    }
}

/// Why a part of a snapshot is not read.
#[derive(Clone, Copy)]
pub(crate) enum PartRefused {
    /// The bytes aren't such a part.
    Form,
    /// Memory ran out.
    Memory,
}

/// Why bytes are no snapshot of a state.
#[derive(Clone, Copy)]
pub enum DecodeRefused {
    /// The bytes encode no state.
    Form,
    /// The tree would have more nodes than the schema allows.
    NodesFull,
    /// Memory ran out.
    Memory,
}
