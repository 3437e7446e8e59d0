// The ids of rows.
ghost use Rattle.std.specs.Prelude.{All, OnErr, OnOk, [], length, nat_eq, slice_index_or, take, ◌+◌, ◌++◌, ◌-◌, ◌<◌, ◌∷◌, ◌^◌, ◌≡◌, ◌≤◌, ℕ};
ghost use Rattle.base_table.specs.Last.{last_of, picked};

use crate::chains::{self, Chains};
use std::alloc::{AllocError, Global};
use std::marker::Model;

/// A list of ids. The last place of an id is found in a few steps. Ids that rise are appended
/// without links, since each of them is known to be new.
#[derive(Drop)]
pub struct Ids {
    chains: Chains<u64>,
    // No id is larger.
    top: u64,
}

impl Model for Ids {
    ghost use Rattle.std.specs.Prelude.{All, List, ℕ, ◌≤◌};

    ghost Value = { List ℕ };

    ghost view = { λ i. i.chains };

    ghost invariant = { λ i. All (λ id. id ≤ i.top) i.chains };
}

impl Ids {
    /// No ids. They will have their numbers under the multiplier.
    pub fn new(alloc: Global, multiplier: u32) -> Ids
        ensures { result ≡ [] }
    {
        Ids {
            chains: Chains::new(alloc, multiplier),
            top: 0,
        }
    }

    /// The number of ids.
    pub fn len(&self) -> u32
        ensures { result ≡ length self.now }
    {
        self.chains.len()
    }

    /// The id at a place.
    pub fn key(&self, place: u32) -> u64
        requires { place < length self.now }
        ensures { (d : ℕ) → result ≡ slice_index_or self.now place d }
    {
        self.chains.key(place)
    }

    /// One more than the last place of the id, or 0. Ids that were appended since `link` are looked
    /// at one by one, if the id isn't larger than all.
    pub fn last(&self, id: u64) -> u32
        ensures { result ≡ last_of (nat_eq id) self.now }
    {
        if id > self.top {
            return 0;
        }
        self.chains.last(&id)
    }

    /// Appends an id. If it isn't larger than all, then this links those before it too.
    pub fn push(&mut self, id: u64) -> Result<(), AllocError>
        requires { length self.old + 1 < 2 ^ 32 }
        ensures ok { OnOk result (self.new ≡ self.old ++ id ∷ []) }
        ensures err { OnErr result (self.new ≡ self.old) }
    {
        if id <= self.top {
            return self.chains.push(id);
        }
        self.chains.push_unlinked(id)?;
        self.top = id;
        Ok(())
    }

    /// Links the ids that have no links yet. Takes no memory.
    pub fn link(&mut self)
        ensures { self.new ≡ self.old }
    {
        self.chains.link();
    }

    /// Makes room for so many more ids.
    pub fn reserve(&mut self, more: u32) -> Result<(), AllocError>
        ensures { self.new ≡ self.old }
    {
        self.chains.reserve(more)
    }

    /// Removes the last id. Takes no memory.
    pub fn pop(&mut self)
        requires { 0 < length self.old }
        ensures { self.new ≡ take (length self.old - 1) self.old }
    {
        self.chains.pop();
    }

    /// Removes ids down to a length. Takes no memory.
    pub fn cut(&mut self, len: u32)
        requires { len ≤ length self.old }
        ensures { self.new ≡ take len self.old }
    {
        chains::cut(&mut self.chains, len);
    }

    /// Keeps the marked places alone, in order. Takes no memory.
    pub fn retain_marked(&mut self, kept: &[bool])
        requires { length kept.now ≡ length self.old }
        ensures { self.new ≡ picked kept.now self.old }
    {
        self.chains.retain_marked(kept);
    }
}
