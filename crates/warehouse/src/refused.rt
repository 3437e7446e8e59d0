// What a file of changes does, or why it is refused; and the counts of a tree.
use crate::Memory;

/// The result of a file of changes that was applied.
#[derive(Clone, Copy)]
pub struct Applied {
    /// The number of records of the file.
    pub records: u32,
    /// The number of classes of the rows after it (Lakshmanan, Pei, Han, VLDB 2002).
    pub classes: u32,
}

/// Why a file of changes is refused. If several causes hold, the first in this order is reported. A
/// number is that of a record, counted from 1 after the header. A dimension is counted from 0.
#[derive(Clone, Copy)]
pub enum Refused {
    /// A base file is loaded, and a row is present.
    NotEmpty,
    /// There is no header, or a needed column doesn't stand in it exactly once.
    Header,
    /// The record has another number of fields than the header.
    Fields(u32),
    /// The text of a dimension isn't UTF-8.
    Utf8(u32),
    /// The operation is neither `+` nor `-`.
    Op(u32),
    /// The id is no whole number that fits 64 bits.
    Id(u32),
    /// An amount has another form than its measure's scale allows, or is too large.
    Amount(u32),
    /// The text of a dimension has more than 255 bytes.
    Value(u32),
    /// An earlier record has the same operation and the same id.
    Twice(u32),
    /// A deletion's id isn't present before the file.
    Missing(u32),
    /// An insertion's id is present before the file, and isn't deleted in it.
    Present(u32),
    /// There would be more rows than the schema allows.
    RowsFull,
    /// The dimension would have more texts than the schema allows.
    ValuesFull(u8),
    /// The tree would have more nodes than the schema allows.
    NodesFull,
    /// Memory ran out.
    Memory,
}

impl From<Memory> for Refused {
    ghost use Rattle.std.specs.Prelude.{◌≡◌};
    ghost use Rattle.warehouse.specs.declared.refused.Refused.TheVariants as refusals;

    ghost from_gives = { λ _ refused. refused ≡ refusals.Memory };

    fn from(_memory: Memory) -> Refused {
        Refused::Memory
    }
}

/// Why the parts of a state make no warehouse.
#[derive(Clone, Copy)]
pub enum PartsRefused {
    /// The tree would have more nodes than the schema allows.
    NodesFull,
    /// Memory ran out.
    Memory,
}

impl From<Memory> for PartsRefused {
    ghost use Rattle.std.specs.Prelude.{◌≡◌};
    ghost use Rattle.warehouse.specs.declared.refused.PartsRefused.TheVariants as refusals;

    ghost from_gives = { λ _ refused. refused ≡ refusals.Memory };

    fn from(_memory: Memory) -> PartsRefused {
        PartsRefused::Memory
    }
}

/// Why no dimension is added. If several causes hold, the first in this order is reported.
#[derive(Clone, Copy)]
pub enum WidenRefused {
    /// The schema has as many dimensions as its version allows.
    DimsFull,
    /// The tree would have more nodes than the schema allows.
    NodesFull,
    /// Memory ran out.
    Memory,
}

impl From<Memory> for WidenRefused {
    ghost use Rattle.std.specs.Prelude.{◌≡◌};
    ghost use Rattle.warehouse.specs.declared.refused.WidenRefused.TheVariants as refusals;

    ghost from_gives = { λ _ refused. refused ≡ refusals.Memory };

    fn from(_memory: Memory) -> WidenRefused {
        WidenRefused::Memory
    }
}

/// The counts of the rows and of their tree (Lakshmanan, Pei, Zhao, SIGMOD 2003; which links a tree
/// has is our own choice).
#[derive(Clone, Copy, PartialEq)]
pub struct Stats {
    pub rows: u32,
    pub classes: u32,
    pub nodes: u32,
    /// Edges that lead from a node to a node with one value more.
    pub tree_edges: u64,
    /// All other edges.
    pub links: u64,
}
