// Deletes rows from the table, and from the tree in place, one after another.
ghost use Rattle.std.specs.Prelude.{IfErr, IfOk, IfSome, None, OnOk, Some, is_some, length, option_map, true, ◌≡◌, ◌≤◌};
ghost use Rattle.base_table.specs.Places.{has_id, rows_of};
ghost use Rattle.batch_delete.specs.Rests.{Deletion};
ghost use Rattle.csv_load.specs.Batch.{deleted};
ghost use Rattle.cube_defs.specs.Tree.{IsCanonical, nodes};
ghost use Rattle.qc_arena.specs.Map as arena;
ghost use Rattle.std.specs.Ordering.{nat_cmp};
ghost use Rattle.warehouse.specs.Batch as batches;
ghost use Rattle.warehouse.specs.Batch.{first_number, first_twice, is_missing};
ghost use Rattle.warehouse.specs.Changing.{AreDeleted, IsTakenOut};
ghost use Rattle.warehouse.specs.InPlace.{IsDeletion};
ghost use Rattle.warehouse.specs.State.{ids_of};
ghost use Rattle.warehouse.specs.Steps.{IsOpenFor, frame};
ghost use Rattle.warehouse.specs.Stored.{refusal_in};

use crate::Memory;
use crate::refused::Refused;
use base_table::Table;
use batch_delete::delete_row;
use cell_core::Steps;
use csv_load::RawBatch;
use qc_arena::QcArena;
use std::alloc::Global;
use std::sync::ledger::Ledger;

// Deletes the row of an id, if there is one, from the table, and from the tree of the table's rows.
// Returns whether there was one. After a refusal nothing is known of the tree.
fn delete_id<L: Ledger>(
    table: &mut Table,
    tree: &mut QcArena,
    id: u64,
    alloc: Global,
    steps: &mut Steps<L>,
) -> Result<bool, Memory>
    ghost deletion: { Deletion }
    requires goes { has_id (rows_of table.old) id ≡ true → IsDeletion table.old id deletion }
    requires batch { is_some table.old.was ≡ true }
    requires open { IsOpenFor table.old tree.old }
    requires tree { IsCanonical nat_cmp table.old.measures (rows_of table.old) tree.old.now }
    ensures there { IfOk result (λ there. there ≡ has_id (rows_of table.old) id) }
    ensures gone { IfOk result (λ there. there ≡ true →
        IsTakenOut id deletion.r table.old table.new tree.old tree.new steps.old steps.new) }
    ensures frame { frame table.new ≡ frame table.old }
    ensures tree_frame { arena.frame tree.new ≡ arena.frame tree.old }
{
    table.recall_invariant();
    match table.delete(id) {
        Ok(taken) => {
            let rest = table.group(&taken.tuple);
            match delete_row(alloc, tree, &taken.tuple, rest, steps) {
                Ok(()) => Ok(true),
                Err(error) => Err(error),
            }
        }
        Err(_) => Ok(false),
    }
}

/// Deletes the rows of the file from the table, and from the tree of the table's rows. It is
/// refused at the first deletion of an id that isn't there. After a refusal nothing is known of the
/// tree.
pub(crate) fn delete_rows<L: Ledger>(
    table: &mut Table,
    tree: &mut QcArena,
    batch: &RawBatch,
    alloc: Global,
    steps: &mut Steps<L>,
) -> Result<(), Refused>
    requires batch { is_some table.old.was ≡ true }
    requires once { first_twice batch.now.changes ≡ None }
    requires open { IsOpenFor table.old tree.old }
    requires tree { IsCanonical nat_cmp table.old.measures (rows_of table.old) tree.old.now }
    requires few_nodes { length (nodes nat_cmp (rows_of table.old)) ≤ tree.old.max }
    ensures none { OnOk result
        (first_number (is_missing (ids_of (rows_of table.old))) batch.now.changes ≡ None) }
    ensures deleted { OnOk result
        (AreDeleted (deleted batch.now.changes) table.old table.new tree.old tree.new
        steps.old steps.new) }
    ensures missing { IfErr result (λ refused. IfSome (refusal_in refused)
        (λ refusal. option_map (λ k. batches.Missing k)
        (first_number (is_missing (ids_of (rows_of table.old))) batch.now.changes)
        ≡ Some refusal)) }
    ensures frame { frame table.new ≡ frame table.old }
    ensures tree_frame { arena.frame tree.new ≡ arena.frame tree.old }
{
    'changes: for before in 0..batch.len() {
        let number = before + 1;
        if batch.is_delete(number) {
            match delete_id(table, tree, batch.id(number), alloc, steps) {
                Ok(true) => {}
                Ok(false) => return Err(Refused::Missing(number)),
                Err(_) => return Err(Refused::Memory),
            }
        }
    }
    Ok(())
}
