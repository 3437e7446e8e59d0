// Rows that the walk visits together.
ghost use Rattle.cell_core.specs.Entry.{IsCode};
ghost use Rattle.class_builder.specs.Walk.{IsGroup, IsPart};
ghost use Rattle.std.proofs.Props.{props};

use base_table::RowNo;
use cell_closure::SortedRows;
use cell_core::{Cell, Code};

/// Rows of the table, of which there are some, and the values that they share.
#[derive(Drop)]
pub(crate) struct Partition<'a> {
    pub(crate) table: &'a SortedRows,
    pub(crate) rows: &'a [RowNo],
    pub(crate) shared: &'a Cell,
    pub(crate) ghost is: { IsPart table.now rows.now shared.now } by { Prim.hlevel props },
}

/// The rows of a part that have the code in the dimension. `upper` is what all rows of the part
/// share.
#[derive(Drop)]
pub(crate) struct Group<'a> {
    pub(crate) table: &'a SortedRows,
    pub(crate) rows: &'a [RowNo],
    pub(crate) code: Code,
    pub(crate) upper: &'a Cell,
    pub(crate) dim: u8,
    pub(crate) ghost is: { IsGroup table.now rows.now code upper.now dim } by { Prim.hlevel props },
}

/// An edge from a node to its child, which has one more value.
#[derive(Clone, Copy)]
pub(crate) struct ChildEdge {
    pub(crate) code: Code,
    pub(crate) is_forced: bool,
    pub(crate) ghost small: { IsCode code },
}
