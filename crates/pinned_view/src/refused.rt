// Why a version isn't pinned or dropped, or no dimension is added.

/// Why a version isn't pinned. If both causes hold, the first is reported.
#[derive(Clone, Copy)]
pub enum PinRefused {
    /// There is a version of this name.
    NameTaken,
    /// The most versions are pinned.
    AllPinned,
}

/// There is no version of this name.
#[derive(Clone, Copy)]
pub struct NotPinned;

/// Why no dimension is added. If several causes hold, the first in this order is reported.
#[derive(Clone, Copy)]
pub enum PinnedWiden {
    /// A version is pinned.
    Pinned,
    /// The schema has as many dimensions as its version allows.
    DimsFull,
    /// The tree would have more nodes than the schema allows.
    NodesFull,
    /// Memory ran out.
    Memory,
}
