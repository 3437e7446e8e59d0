// The checks before rows are inserted.
ghost use Rattle.std.specs.Prelude.{IfErr, IfOk, None, Ok, OnOk, [], length, nat_lt, not, true, ◌+◌, ◌-◌, ◌≡◌, take};
ghost use Rattle.std.specs.List.{list_any};
ghost use Rattle.base_table.specs.Places.{rows_of};
ghost use Rattle.csv_load.specs.Batch.{HasChange, change_at, inserted};
ghost use Rattle.warehouse.specs.Batch.{first_number, first_twice, same_change};
ghost use Rattle.warehouse.specs.State.{State};
ghost use Rattle.warehouse.specs.Steps.{AreChangeIds, IsCause, is_there};

use crate::Memory;
use crate::refused::Refused;
use base_table::Table;
use cell_core::HashKeys;
use csv_load::RawBatch;
use indexmap::IndexSet;
use std::alloc::{AllocError, Global};

// The ids of the deletions so far, and those of the insertions.
#[derive(Drop)]
struct ChangeIds {
    gone: IndexSet<u64, HashKeys>,
    come: IndexSet<u64, HashKeys>,
}

impl ChangeIds {
    // No change so far, with room for those of the batch.
    fn of_batch(alloc: Global, keys: HashKeys, batch: &RawBatch) -> Result<ChangeIds, Memory>
        ensures { IfOk result (λ seen. AreChangeIds seen.gone.keys seen.come.keys []) }
    {
        let insertions = batch.insertions();
        let deletions = batch.len().saturating_sub(insertions);
        let gone = IndexSet::with_capacity_and_hasher(alloc, deletions as usize, keys)?;
        let Ok(come) = IndexSet::with_capacity_and_hasher(alloc, insertions as usize, keys) else {
            drop(gone);
            return Err(AllocError);
        };
        Ok(ChangeIds { gone, come })
    }

    // Whether no earlier change has the same operation and id. Stores the id for later changes.
    fn is_new(&mut self, batch: &RawBatch, k: u32) -> Result<bool, Memory>
        requires there { HasChange batch.now.changes k }
        requires seen { AreChangeIds self.old.gone.keys self.old.come.keys
            (take (k - 1) batch.now.changes) }
        ensures new { IfOk result
            (λ new. new ≡ not (list_any (same_change (change_at batch.now.changes k))
            (take (k - 1) batch.now.changes))) }
        ensures seen { result ≡ Ok true
            → AreChangeIds self.new.gone.keys self.new.come.keys (take k batch.now.changes) }
    {
        let id = batch.id(k);
        let new = if batch.is_delete(k) {
            self.gone.insert(id)?
        } else {
            self.come.insert(id)?
        };
        Ok(new)
    }
}

// The number of the first change that repeats an earlier operation and id. No id is stored yet.
fn first_repeated(seen: &mut ChangeIds, batch: &RawBatch) -> Result<Option<u32>, Memory>
    requires { AreChangeIds seen.old.gone.keys seen.old.come.keys [] }
    ensures { IfOk result (λ k. k ≡ first_twice batch.now.changes) }
{
    let count = batch.len();
    'changes: for before in 0..count {
        let number = before + 1;
        if !seen.is_new(batch, number)? {
            return Ok(Some(number));
        }
    }
    Ok(None)
}

// Whether each id is larger than that of the change before. Then no change repeats an earlier one.
fn do_ids_rise(batch: &RawBatch) -> bool
    ensures { result ≡ true → first_twice batch.now.changes ≡ None }
{
    if batch.len() == 0 {
        return true;
    }
    let mut last = batch.id(1);
    'changes: for before in 1..batch.len() {
        let id = batch.id(before + 1);
        if id <= last {
            return false;
        }
        last = id;
    }
    true
}

// The number of the first change with the operation and the id of an earlier one. Most files have
// rising ids, and need no set of them.
fn first_repeat(alloc: Global, keys: HashKeys, batch: &RawBatch) -> Result<Option<u32>, Memory>
    ensures { IfOk result (λ k. k ≡ first_twice batch.now.changes) }
{
    if do_ids_rise(batch) {
        return Ok(None);
    }
    let mut seen = ChangeIds::of_batch(alloc, keys, batch)?;
    let found = first_repeated(&mut seen, batch);
    drop(seen);
    found
}

/// Refuses changes of which one has the operation and the id of an earlier one.
pub(crate) fn check_once(alloc: Global, keys: HashKeys, batch: &RawBatch) -> Result<(), Refused>
    ensures once { OnOk result (first_twice batch.now.changes ≡ None) }
    ensures cause { IfErr result (λ refused. (s : State) → IsCause refused s batch.now.changes) }
{
    let Ok(repeated) = first_repeat(alloc, keys, batch) else {
        return Err(Refused::Memory);
    };
    if let Some(k) = repeated {
        return Err(Refused::Twice(k));
    }
    Ok(())
}

/// The number of the first insertion whose id a row of the table has.
pub(crate) fn first_present(table: &Table, batch: &RawBatch) -> Option<u32>
    ensures { result ≡ first_number (is_there (rows_of table.now)) batch.now.changes }
{
    if table.count() == 0 {
        return None;
    }
    'changes: for before in 0..batch.len() {
        let number = before + 1;
        if !batch.is_delete(number) && table.has(batch.id(number)) {
            return Some(number);
        }
    }
    None
}

/// Whether the rows of a table and the new ones are too many.
pub(crate) fn is_full(table: &Table, batch: &RawBatch, most: u32) -> bool
    ensures { result ≡ nat_lt most
        (length (rows_of table.now) + length (inserted batch.now.changes)) }
{
    u64::from(table.count()) + u64::from(batch.insertions()) > u64::from(most)
}
