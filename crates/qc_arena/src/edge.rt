// An edge: as a call passes it, and as a record keeps it.
ghost use Rattle.std.specs.Prelude.{◌*◌, ◌+◌, ◌<◌, ◌≡◌};
ghost use Rattle.cell_core.specs.Entry.{IsCode};

use cell_core::Code;

// Three bytes can hold so many codes.
const CODES: u32 = 16_777_216;

/// An edge to the target, as a call passes it. Its label is a dimension and the code of a value.
#[derive(Clone, Copy)]
pub(crate) struct PlainEdge {
    pub dim: u8,
    pub code: Code,
    pub target: u32,
    ghost is_code: { IsCode code },
}

/// An edge as a record keeps it. A code takes three bytes, so an edge takes eight.
#[derive(Clone, Copy)]
pub(crate) struct StoredEdge {
    code_low: u16,
    code_high: u8,
    pub dim: u8,
    pub target: u32,
    ghost is_code: { IsCode (code_high * 65536 + code_low) },
    ghost is_byte: { dim < 256 },
}

const _: () = prove!(size_of::<StoredEdge>() == 8);

impl PlainEdge {
    ghost use Rattle.qc_arena.specs.Edges.{edge_in, rank};

    // The label as one number, in the order of the labels.
    pub(crate) fn rank(self) -> u32
        ensures { result ≡ rank (edge_in self) }
    {
        self.dim as u32 * CODES + self.code
    }
}

impl Default for StoredEdge {
    fn default() -> StoredEdge {
        StoredEdge {
            code_low: 0,
            code_high: 0,
            dim: 0,
            target: 0,
        }
    }
}

impl StoredEdge {
    ghost use Rattle.qc_arena.specs.Edges.{code_of, edge_in, edge_to, rank};

    // Stores an edge.
    pub(crate) fn of(edge: PlainEdge) -> StoredEdge
        ensures { edge_to result ≡ edge_in edge }
    {
        StoredEdge {
            code_low: (edge.code % 65_536) as u16,
            code_high: (edge.code / 65_536) as u8,
            dim: edge.dim,
            target: edge.target,
        }
    }

    pub(crate) fn code(self) -> Code
        ensures { result ≡ code_of self }
    {
        self.code_high as u32 * 65_536 + self.code_low as u32
    }

    // The edge as a call passes it.
    pub(crate) fn plain(self) -> PlainEdge
        ensures { edge_in result ≡ edge_to self }
    {
        PlainEdge {
            dim: self.dim,
            code: self.code(),
            target: self.target,
        }
    }

    // The label as one number. The fields stand in such an order that one load reads it.
    pub(crate) fn rank(self) -> u32
        ensures { result ≡ rank (edge_to self) }
    {
        self.dim as u32 * CODES + self.code()
    }
}
