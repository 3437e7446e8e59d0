// The changes of a file.
ghost use Rattle.std.specs.Prelude.{◌≡◌, ◌<◌, [], length, not, count_by};
ghost use Rattle.csv_load.specs.Batch.{AreChanges, HasChange, HasInsertion, IsBatch, amount_at, batch_of, change_at, id_of, inserted, is_deletion, row_of, text_at};

use crate::changes::ChangeColumns;
use std::alloc::Global;
use std::marker::Model;

/// Changes that are not yet made to a table: deletions by id, and insertions of rows. A row has an
/// id, a text in each dimension, and an amount in each measure. Changes are counted from 1,
/// dimensions and measures from 0.
#[derive(Drop)]
pub struct RawBatch {
    dims: u8,
    measures: u8,
    changes: ChangeColumns,
}

impl Model for RawBatch {
    ghost use Rattle.csv_load.specs.Batch.{AreChanges, Batch, batch_of};

    ghost Value = { Batch };

    ghost view = { λ b. batch_of b.dims b.measures b.changes };

    ghost invariant = { λ b. AreChanges b.dims b.measures b.changes };
}

// How many flags are not set.
fn count_false(flags: &[bool]) -> usize
    ensures { result ≡ count_by not flags.now }
{
    flags.iter().filter(|flag| !**flag).count()
}

impl RawBatch {
    /// No changes. It takes no memory.
    pub fn empty(alloc: Global, dims: u8, measures: u8) -> RawBatch
        ensures { result ≡ record { dims = dims; measures = measures; changes = [] } }
    {
        let changes = ChangeColumns::new(alloc);
        RawBatch {
            dims,
            measures,
            changes,
        }
    }

    /// The changes that are stored one after another.
    pub(crate) fn of_changes(dims: u8, measures: u8, changes: ChangeColumns) -> RawBatch
        requires { AreChanges dims measures changes }
        ensures { result ≡ batch_of dims measures changes }
    {
        RawBatch {
            dims,
            measures,
            changes,
        }
    }

    /// The number of changes.
    pub fn len(&self) -> u32
        ensures count { result ≡ length self.now.changes }
        ensures valid { IsBatch self.now }
    {
        self.changes.ids.len() as u32
    }

    /// The number of insertions among them.
    pub fn insertions(&self) -> u32
        ensures { result ≡ length (inserted self.now.changes) }
    {
        count_false(&self.changes.deletes) as u32
    }

    /// Whether a change is a deletion.
    pub fn is_delete(&self, k: u32) -> bool
        requires { HasChange self.now.changes k }
        ensures { result ≡ is_deletion (change_at self.now.changes k) }
    {
        self.changes.deletes[k as usize - 1]
    }

    /// The id of the row that is deleted or inserted.
    pub fn id(&self, k: u32) -> u64
        requires { HasChange self.now.changes k }
        ensures { result ≡ id_of (change_at self.now.changes k) }
    {
        self.changes.ids[k as usize - 1]
    }

    /// The text of an inserted row in a dimension.
    pub fn text(&self, k: u32, dim: u8) -> &str
        requires insertion { HasInsertion self.now.changes k }
        requires dim { dim < self.now.dims }
        ensures { result.now ≡ text_at self.now.changes k dim }
    {
        let at = (k as usize - 1) * self.dims as usize + dim as usize;
        self.changes.texts.get(at)
    }

    /// The amounts of an inserted row, each in units of the last digit of its measure's scale.
    pub fn amounts(&self, k: u32) -> &[i64]
        requires { HasInsertion self.now.changes k }
        ensures { result.now ≡ (row_of (change_at self.now.changes k)).amounts }
    {
        let measures = self.measures as usize;
        let start = (k as usize - 1) * measures;
        &self.changes.amounts[start..start + measures]
    }

    /// The amount of an inserted row in a measure, in units of the last digit of its scale.
    pub fn amount(&self, k: u32, measure: u8) -> i64
        requires insertion { HasInsertion self.now.changes k }
        requires measure { measure < self.now.measures }
        ensures { result ≡ amount_at self.now.changes k measure }
    {
        self.changes.amounts[(k as usize - 1) * self.measures as usize + measure as usize]
    }
}
