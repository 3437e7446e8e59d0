// Sets of keys, in blocks.
ghost use Rattle.std.specs.BTreeSet.{IsOrdered, IsSameSet, btree_set_len, contains};
ghost use Rattle.std.specs.Prelude.{IfOk, OnErr, OnOk, [], cond, false, length, not, ◌&&◌, ◌+◌, ◌<◌, ◌||◌, ◌≡◌, ◌≤◌};
ghost use Rattle.std.specs.Ordering.{eq_by_cmp};
ghost use Rattle.measure_index.specs.Blocks.{HasCome};
ghost use Rattle.measure_index.specs.ColumnKeys.{key_cmp};
ghost use Rattle.measure_index.specs.Keys.{among};

use crate::blocks::{blocks_of, insert_key, remove_key};
use crate::key::Key;
use crate::key_iter::KeyIter;
use crate::keys::note;
use crate::sorting::sort_keys;
use cube_defs::Memory;
use std::alloc::{AllocError, Global};
use std::marker::Model;

/// Keys in rising order, in blocks. A search begins at the block of the last search.
#[derive(Drop)]
pub(crate) struct SortedKeys {
    blocks: Vec<Vec<Key>>,
    len: usize,
    near: usize,
}

impl Model for SortedKeys {
    ghost use Rattle.std.specs.BTreeSet.{BTreeSet};
    ghost use Rattle.std.specs.Prelude.{length, ◌<◌, ◌≡◌};
    ghost use Rattle.measure_index.specs.declared.key.Key.{Key};
    ghost use Rattle.measure_index.specs.Blocks.{AreBlocks, joined};

    ghost Value = { BTreeSet Key };

    ghost view = { λ s. record { keys = joined s.blocks.items } };

    ghost invariant = { λ s. AreBlocks s.blocks.items × (s.len ≡ length (joined s.blocks.items))
        × (s.len < 4294967296) };
}

impl SortedKeys {
    /// No keys.
    pub(crate) fn new(alloc: Global) -> SortedKeys
        ensures { result.keys ≡ [] }
    {
        SortedKeys {
            blocks: Vec::new(alloc),
            len: 0,
            near: 0,
        }
    }

    /// A set of some keys, made without a search for each. The keys are sorted in place.
    pub(crate) fn of(alloc: Global, items: Vec<Key>) -> Result<SortedKeys, Memory>
        requires { length items.items < 4294967296 }
        ensures has { IfOk result
            (λ s. (q : Key) → contains key_cmp s q ≡ among key_cmp items.items q) }
        ensures ordered { IfOk result (λ s. IsOrdered key_cmp s) }
        ensures few { IfOk result (λ s. btree_set_len s ≤ length items.items) }
    {
        let mut sorted = items;
        sort_keys(&mut sorted);
        sorted.dedup();
        match blocks_of(alloc, &sorted) {
            Ok(blocks) => Ok(SortedKeys {
                blocks,
                len: sorted.len(),
                near: 0,
            }),
            Err(error) => Err(error),
        }
    }

    pub(crate) fn len(&self) -> usize
        ensures { result ≡ btree_set_len self.now }
    {
        self.len
    }

    /// The keys in order.
    pub(crate) fn iter(&self) -> KeyIter<'_>
        ensures { result ≡ self.now.keys }
    {
        KeyIter::new(&self.blocks)
    }

    // Adds a key if it isn't there, and says whether it came.
    fn insert(&mut self, alloc: Global, key: Key) -> Result<bool, Memory>
        requires { btree_set_len self.old < 4294967295 }
        ensures come { IfOk result (HasCome key self.old.keys self.new.keys) }
        ensures err { OnErr result (self.new ≡ self.old) }
    {
        let added = insert_key(alloc, &mut self.blocks, &mut self.near, key)?;
        self.len += usize::from(added);
        Ok(added)
    }

    /// Adds keys, and gives those that were not there, in their order. A refusal leaves the keys
    /// that there were.
    pub(crate) fn insert_all(&mut self, alloc: Global, items: &[Key]) -> Result<Vec<Key>, Memory>
        requires room { btree_set_len self.old + length items.now < 4294967296 }
        requires ordered { IsOrdered key_cmp self.old }
        ensures has { OnOk result ((q : Key)
            → contains key_cmp self.new q
            ≡ (contains key_cmp self.old q || among key_cmp items.now q)) }
        ensures fresh { IfOk result (λ came. (q : Key)
            → among key_cmp came.items q
            ≡ (among key_cmp items.now q && not (contains key_cmp self.old q))) }
        ensures err { OnErr result (IsSameSet key_cmp self.old self.new) }
        ensures few { btree_set_len self.new ≤ btree_set_len self.old + length items.now }
        ensures now_ordered { IsOrdered key_cmp self.new }
    {
        let mut came = match Vec::with_capacity(alloc, items.len()) {
            Ok(came) => came,
            Err(error) => return Err(error),
        };
        for item in items {
            match self.insert(alloc, *item) {
                Ok(added) => note(&mut came, *item, added),
                Err(_) => {
                    self.remove_all(&came);
                    return Err(AllocError);
                }
            }
        }
        Ok(came)
    }

    // Takes a key out if it is there.
    fn remove(&mut self, key: &Key)
        ensures has { (q : Key) → contains key_cmp self.new q
            ≡ cond (eq_by_cmp key_cmp key.now q) false (contains key_cmp self.old q) }
        ensures few { btree_set_len self.new ≤ btree_set_len self.old }
        ensures ordered { IsOrdered key_cmp self.new }
    {
        if remove_key(&mut self.blocks, &mut self.near, key) {
            self.len -= 1;
        }
    }

    /// Takes out the keys that are there.
    pub(crate) fn remove_all(&mut self, items: &[Key])
        requires { IsOrdered key_cmp self.old }
        ensures has { (q : Key) → contains key_cmp self.new q
            ≡ (contains key_cmp self.old q && not (among key_cmp items.now q)) }
        ensures few { btree_set_len self.new ≤ btree_set_len self.old }
        ensures ordered { IsOrdered key_cmp self.new }
    {
        for item in items {
            self.remove(item);
        }
    }
}
