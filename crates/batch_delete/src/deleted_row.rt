// The deleted row and its classes.
ghost use Rattle.std.specs.Prelude.{◌+◌, ◌≡◌, ◌≤◌};
ghost use Rattle.batch_delete.specs.DeletedRow.{IsClassOfRow, IsKnown};
ghost use Rattle.batch_delete.specs.Rests.{Deletion};

use crate::generalizing::NodeCell;
use aggregates::Agg;
use cell_core::{Cell, Steps};
use qc_arena::{Nodes, QcArena};
use std::sync::ledger::Ledger;

/// What is known of the deleted row: the tree before the deletion, its tuple, the aggregate of all
/// rows with this tuple, and the aggregate of the others.
#[derive(Drop)]
pub(crate) struct DeletedRow<'a> {
    pub arena: &'a QcArena,
    pub tuple: &'a Cell,
    pub all: Option<Agg>,
    pub duplicates: Option<Agg>,
}

/// A class of the deleted row: its cell and its aggregate.
#[derive(Drop)]
pub(crate) struct Class<'a> {
    pub row: &'a DeletedRow<'a>,
    pub cell: &'a Cell,
    pub whole: Option<Agg>,
}

/// The class of a node.
pub(crate) fn class_at_node<'a, L: Ledger>(
    row: &'a DeletedRow<'a>,
    below: &'a NodeCell,
    steps: &mut Steps<L>,
) -> Class<'a>
    ghost d: { Deletion }
    requires { IsClassOfRow d row.now below.now }
    ensures class { IsKnown d result }
    ensures row { result.row.now ≡ row.now }
    ensures cell { result.cell.now ≡ below.now.cell }
    ensures steps { steps.new ≤ steps.old + 1 }
{
    Class {
        row,
        cell: &below.cell,
        whole: row.arena.class(below.node, steps),
    }
}
