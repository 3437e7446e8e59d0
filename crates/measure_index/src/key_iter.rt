// Keys of blocks, from either end.
ghost use Rattle.std.specs.Prelude.{MatchOption, [], length, ◌++◌, ◌<◌, ◌∷◌, ◌≡◌};
ghost use Rattle.std.specs.List.{AllByRecursion};
ghost use Rattle.measure_index.specs.Blocks.{joined};

use crate::key::Key;
use std::marker::Model;

/// Keys that are left: those of a block, those of other blocks, and those of a last block.
#[derive(Drop)]
pub(crate) struct KeyIter<'a> {
    first: &'a [Key],
    middle: &'a [Vec<Key>],
    last: &'a [Key],
}

impl<'a> Model for KeyIter<'a> {
    ghost use Rattle.std.specs.Prelude.{List, length, ◌++◌, ◌<◌};
    ghost use Rattle.std.specs.List.{AllByRecursion};
    ghost use Rattle.measure_index.specs.declared.key.Key.{Key};
    ghost use Rattle.measure_index.specs.Blocks.{joined};

    ghost Value = { List Key };

    ghost view = { λ i. i.first.now ++ (joined i.middle.now ++ i.last.now) };

    ghost invariant = { λ i. AllByRecursion (λ b. 0 < length b.items) i.middle.now };
}

impl<'a> KeyIter<'a> {
    /// The keys of some blocks, of which none is empty.
    pub(crate) fn new(blocks: &'a [Vec<Key>]) -> KeyIter<'a>
        requires { AllByRecursion (λ b. 0 < length b.items) blocks.now }
        ensures { result ≡ joined blocks.now }
    {
        KeyIter {
            first: &[],
            middle: blocks,
            last: &[],
        }
    }

    /// The first of the keys.
    pub(crate) fn next(&mut self) -> Option<&'a Key>
        ensures { MatchOption result ((self.old ≡ []) × (self.new ≡ []))
            (λ key. self.old ≡ key.now ∷ self.new) }
    {
        if let Some((key, keys)) = self.first.split_first() {
            self.first = keys;
            return Some(key);
        }
        if let Some((block, blocks)) = self.middle.split_first() {
            let (key, keys) = block.split_first().unwrap();
            self.first = keys;
            self.middle = blocks;
            return Some(key);
        }
        let (key, keys) = self.last.split_first()?;
        self.last = keys;
        Some(key)
    }

    /// The last of the keys.
    pub(crate) fn next_back(&mut self) -> Option<&'a Key>
        ensures { MatchOption result ((self.old ≡ []) × (self.new ≡ []))
            (λ key. self.old ≡ self.new ++ key.now ∷ []) }
    {
        if let Some((key, keys)) = self.last.split_last() {
            self.last = keys;
            return Some(key);
        }
        if let Some((block, blocks)) = self.middle.split_last() {
            let (key, keys) = block.split_last().unwrap();
            self.last = keys;
            self.middle = blocks;
            return Some(key);
        }
        let (key, keys) = self.first.split_last()?;
        self.first = keys;
        Some(key)
    }
}
