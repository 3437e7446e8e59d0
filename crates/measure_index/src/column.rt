// The classes in order of one kind's values.
ghost use Rattle.std.specs.Prelude.{IfOk, OnErr, OnOk, length, ◌<◌, ◌^◌, ◌≡◌, ◌≤◌};
ghost use Rattle.measure_index.specs.Entries.{HaveMeasure};
ghost use Rattle.measure_index.specs.Rankings.{IsRising, Ranking, no_entries};
ghost use Rattle.measure_index.specs.Changes.{AreFresh, ArePlanned, EntriesAdded, EntriesRemoved};
ghost use Rattle.measure_index.specs.Builder.{IsRankingOf};
ghost use Rattle.measure_index.specs.ColumnKeys.{entries_at};
ghost use Rattle.measure_index.specs.Walks.{qualifying};

use crate::key::Key;
use crate::keying::keys_of;
use crate::keys::lacked_by;
use crate::sorted_keys::SortedKeys;
use crate::sorting::sort_keys;
use crate::walk::{Direction, Walk};
use aggregates::{Agg, AggKind, Fraction};
use cell_core::NodeNo;
use cube_defs::{MAX_SCALE, Memory};
use std::alloc::{AllocError, Global};
use std::marker::Model;

/// The classes by their values of one kind.
#[derive(Drop)]
pub(crate) struct Column {
    kind: AggKind,
    scale: u8,
    keys: SortedKeys,
}

impl Model for Column {
    ghost use Rattle.measure_index.specs.ColumnKeys.{AreColumnKeys, entries_at};
    ghost use Rattle.measure_index.specs.Rankings.{Ranking};

    ghost Value = { Ranking };

    ghost view = { λ c. record {
      kind = c.kind;
      scale = c.scale;
      entries
          = entries_at c.kind c.scale c.keys.keys;
    } };

    ghost invariant = { λ c. AreColumnKeys c.scale c.keys.keys };
}

/// The keys that a change adds to a column and takes out of it.
#[derive(Drop)]
pub(crate) struct Plan {
    pub(crate) added: Vec<Key>,
    pub(crate) going: Vec<Key>,
}

impl Column {
    /// No entries.
    pub(crate) fn new(alloc: Global, kind: AggKind, scale: u8) -> Column
        requires { scale ≤ MAX_SCALE }
        ensures { result ≡ no_entries kind scale }
    {
        Column {
            kind,
            scale,
            keys: SortedKeys::new(alloc),
        }
    }

    /// A column of the classes with these keys, made without a search for each.
    pub(crate) fn filled(
        alloc: Global,
        kind: AggKind,
        scale: u8,
        keys: Vec<Key>,
    ) -> Result<Column, Memory>
        requires scale { scale ≤ MAX_SCALE }
        requires few { length keys.items < 4294967296 }
        ensures { IfOk result (λ column. IsRankingOf
            (record { kind = kind; scale = scale; keys = keys.items }) column) }
    {
        match SortedKeys::of(alloc, keys) {
            Ok(set) => Ok(Column {
                kind,
                scale,
                keys: set,
            }),
            Err(error) => Err(error),
        }
    }

    pub(crate) fn kind(&self) -> AggKind
        ensures { result ≡ self.now.kind }
    {
        self.kind
    }

    pub(crate) fn len(&self) -> u32
        ensures { result ≡ length self.now.entries }
    {
        self.keys.len() as u32
    }

    /// The classes whose values qualify, in order of value.
    pub(crate) fn walk(&self, direction: Direction, bound: &Fraction) -> Walk<'_>
        ensures left { result.left ≡ qualifying direction bound.now self.now.entries }
        ensures rising { IsRising self.now.entries }
        ensures given { result.given ≡ 0 }
        ensures taken { result.taken ≡ 0 }
    {
        Walk::new(self.keys.iter(), self.kind, self.scale, direction, bound)
    }

    /// Plans a change of classes. An entry that is both added and removed stays. Both lists are in
    /// order, so each search is near the one before.
    pub(crate) fn plan(
        &self,
        alloc: Global,
        add: &[(NodeNo, Agg)],
        remove: &[(NodeNo, Agg)],
    ) -> Result<Plan, Memory>
        requires add { HaveMeasure self.now.kind add.now }
        requires remove { HaveMeasure self.now.kind remove.now }
        ensures { IfOk result (λ plan. ArePlanned self.now add.now remove.now
            (entries_at self.now.kind self.now.scale plan.added.items)
            (entries_at self.now.kind self.now.scale plan.going.items)) }
    {
        let mut added = match keys_of(alloc, self.kind, add) {
            Ok(added) => added,
            Err(error) => return Err(error),
        };
        let mut removed = match keys_of(alloc, self.kind, remove) {
            Ok(removed) => removed,
            Err(error) => return Err(error),
        };
        sort_keys(&mut added);
        sort_keys(&mut removed);
        let going = lacked_by(alloc, &added, &removed)?;
        Ok(Plan { added, going })
    }

    /// Adds entries, up to 4,294,967,295 in all, and gives those that were not there. A refusal
    /// leaves the column as it was.
    pub(crate) fn put(&mut self, alloc: Global, added: &[Key]) -> Result<Vec<Key>, Memory>
        ensures came { OnOk result
            (EntriesAdded (entries_at self.old.kind self.old.scale added.now) self.old self.new) }
        ensures fresh { IfOk result
            (λ came. AreFresh self.old (entries_at self.old.kind self.old.scale added.now)
            (entries_at self.old.kind self.old.scale came.items)) }
        ensures err { OnErr result (self.new ≡ self.old) }
    {
        // A caller of `Index::change` may add so many.
        if self.keys.len() + added.len() > u32::MAX as usize {
            return Err(AllocError);
        }
        self.keys.insert_all(alloc, added)
    }

    /// Takes out the entries that are there.
    pub(crate) fn take(&mut self, going: &[Key])
        ensures { EntriesRemoved (entries_at self.old.kind self.old.scale going.now)
            self.old self.new }
    {
        self.keys.remove_all(going);
    }
}
