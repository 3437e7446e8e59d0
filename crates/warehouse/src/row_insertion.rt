// Puts new rows into the tree in place, one after another.
ghost use Rattle.std.specs.Prelude.{Err, OnOk, length, ◌+◌, ◌<◌, ◌≡◌, ◌≤◌};
ghost use Rattle.base_table.specs.Places.{rows_of};
ghost use Rattle.cube_defs.specs.Tree.{IsCanonical, nodes};
ghost use Rattle.qc_arena.specs.Map as arena;
ghost use Rattle.std.specs.Ordering.{nat_cmp};
ghost use Rattle.warehouse.specs.InPlace.{KeepsOtherRecords, KeepsNumbers, TouchesOnly, cost_of_insertions};
ghost use Rattle.warehouse.specs.Steps.{IsOpenFor, IsTreeBefore, rows_at, rows_before, rows_from_place};

use base_table::Table;
use batch_insert::insert_row;
use cell_core::Steps;
use qc_arena::{ArenaRefused, QcArena};
use std::alloc::Global;
use std::sync::ledger::Ledger;

// Puts the row at a place, if one is there, into the tree of the rows before it.
fn insert_in_tree_at<L: Ledger>(
    table: &Table,
    tree: &mut QcArena,
    place: u32,
    alloc: Global,
    steps: &mut Steps<L>,
) -> Result<(), ArenaRefused>
    requires open { IsOpenFor table.now tree.old }
    requires place { place < length table.now.places }
    requires tree { IsTreeBefore table.now tree.old place }
    ensures tree { OnOk result (IsTreeBefore table.now tree.new (place + 1)) }
    ensures full { result ≡ Err ArenaRefused.Full
        → tree.old.max < length (nodes nat_cmp (rows_before table.now (place + 1))) }
    ensures numbers { KeepsNumbers tree.old.now tree.new.now }
    ensures apart { KeepsOtherRecords (rows_at table.now place) tree.old.now tree.new.now }
    ensures touches { TouchesOnly (rows_at table.now place) tree.new.now tree.old tree.new }
    ensures steps { OnOk result
        (steps.new ≤ steps.old + cost_of_insertions table.now.dims (rows_before table.now place)
        (rows_at table.now place)) }
    ensures frame { arena.frame tree.new ≡ arena.frame tree.old }
{
    table.recall_invariant();
    let Some(row) = table.at(place) else {
        return Ok(());
    };
    let tuple = table.tuple(row);
    match insert_row(alloc, tree, &tuple, table.amounts(row), steps) {
        Ok(()) => Ok(()),
        Err(refused) => Err(refused),
    }
}

/// Puts the rows after so many places into the tree of those before. It is refused as full exactly
/// if the tree of the table's rows has more nodes than allowed. After a refusal nothing is known of
/// the tree.
pub(crate) fn insert_in_tree<L: Ledger>(
    table: &Table,
    tree: &mut QcArena,
    first: u32,
    alloc: Global,
    steps: &mut Steps<L>,
) -> Result<(), ArenaRefused>
    requires open { IsOpenFor table.now tree.old }
    requires tree { IsTreeBefore table.now tree.old first }
    ensures tree { OnOk result
        (IsCanonical nat_cmp table.now.measures (rows_of table.now) tree.new.now) }
    ensures fits { OnOk result (length (nodes nat_cmp (rows_of table.now)) ≤ tree.old.max) }
    ensures full { result ≡ Err ArenaRefused.Full
        → tree.old.max < length (nodes nat_cmp (rows_of table.now)) }
    ensures numbers { KeepsNumbers tree.old.now tree.new.now }
    ensures apart { KeepsOtherRecords (rows_from_place table.now first) tree.old.now tree.new.now }
    ensures touches { OnOk result
        (TouchesOnly (rows_from_place table.now first) tree.new.now tree.old tree.new) }
    ensures steps { OnOk result
        (steps.new ≤ steps.old + cost_of_insertions table.now.dims (rows_before table.now first)
        (rows_from_place table.now first)) }
    ensures frame { arena.frame tree.new ≡ arena.frame tree.old }
{
    'rows: for place in first..table.places() {
        match insert_in_tree_at(table, tree, place, alloc, steps) {
            Ok(()) => {}
            Err(refused) => return Err(refused),
        }
    }
    Ok(())
}
