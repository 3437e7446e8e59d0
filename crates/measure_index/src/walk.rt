// Entries in order of value, up to a bound.
ghost use Rattle.std.specs.List.Sorted.{IsStrictlySortedBy};
ghost use Rattle.std.specs.Prelude.{MatchOption, [], length, ◌+◌, ◌∷◌, ◌<◌, ◌^◌, ◌≡◌, ◌≤◌};
ghost use Rattle.measure_index.specs.ColumnKeys.{entries_at, key_cmp};
ghost use Rattle.measure_index.specs.Walks.{directed, passing, qualifying};

use crate::entry::IndexEntry;
use crate::key::Key;
use crate::key_iter::KeyIter;
use aggregates::{AggKind, Fraction, Ratio, compare};
use cell_core::NodeNo;
use cube_defs::MAX_SCALE;
use std::marker::Model;

/// The end from which entries are read.
#[derive(Clone, Copy)]
pub(crate) enum Direction {
    /// From the greatest value down to a bound.
    Falling,
    /// From the least value up to a bound.
    Rising,
}

/// The classes whose values qualify, in order of value. It reads at most one entry that doesn't
/// qualify.
#[derive(Drop)]
pub struct Walk<'a> {
    keys: KeyIter<'a>,
    kind: AggKind,
    scale: u8,
    direction: Direction,
    bound: Fraction,
    stopped: bool,
    taken: u64,
}

impl<'a> Model for Walk<'a> {
    ghost use Rattle.std.specs.Prelude.{◌+◌, ◌-◌, ◌<◌, ◌≤◌, ◌^◌, cond, length};
    ghost use Rattle.measure_index.specs.ColumnKeys.{entries_at};
    ghost use Rattle.measure_index.specs.Walks.{Walking, left_of};
    ghost use Rattle.cube_defs.specs.declared.limits.TheConstants.{MAX_SCALE};

    ghost Value = { Walking };

    ghost view = { λ w. record {
      left = left_of w.direction w.bound w.stopped
          (entries_at w.kind w.scale w.keys);
      given = w.taken - cond w.stopped 1 0;
      taken = w.taken;
    } };

    ghost invariant = { λ w. (w.taken + length w.keys < 2 ^ 63) × (cond w.stopped 1 0 ≤ w.taken)
        × (w.scale ≤ MAX_SCALE) };
}

fn passes(entry: &IndexEntry, direction: Direction, bound: &Fraction) -> bool
    ensures { result ≡ passing direction bound.now entry.now }
{
    let order = compare(&entry.value, bound);
    match direction {
        Direction::Falling => order.is_ge(),
        Direction::Rising => order.is_le(),
    }
}

// The next key from the direction's end.
fn next_of<'a>(keys: &mut KeyIter<'a>, direction: Direction) -> Option<&'a Key>
    ensures key { MatchOption result ((directed direction keys.old ≡ [])
        × (directed direction keys.new ≡ []))
        (λ k. directed direction keys.old ≡ k.now ∷ directed direction keys.new) }
    ensures count { MatchOption result (length keys.new ≡ length keys.old)
        (λ _. length keys.old ≡ length keys.new + 1) }
{
    match direction {
        Direction::Falling => keys.next_back(),
        Direction::Rising => keys.next(),
    }
}

// The entry of the next key.
fn next_entry(
    keys: &mut KeyIter<'_>,
    direction: Direction,
    kind: AggKind,
    scale: u8,
) -> Option<IndexEntry>
    requires { scale ≤ MAX_SCALE }
    ensures entry { MatchOption result ((directed direction (entries_at kind scale keys.old) ≡ [])
        × (directed direction (entries_at kind scale keys.new) ≡ []))
        (λ e. directed direction (entries_at kind scale keys.old) ≡ e
        ∷ directed direction (entries_at kind scale keys.new)) }
    ensures count { MatchOption result (length keys.new ≡ length keys.old)
        (λ _. length keys.old ≡ length keys.new + 1) }
{
    let key = next_of(keys, direction)?;
    Some(key.entry(kind, scale))
}

impl<'a> Walk<'a> {
    /// The entries that qualify, of keys in rising order. `scale` is that of the kind's measure.
    pub(crate) fn new(
        keys: KeyIter<'a>,
        kind: AggKind,
        scale: u8,
        direction: Direction,
        bound: &Fraction,
    ) -> Walk<'a>
        requires rising { IsStrictlySortedBy key_cmp keys }
        requires few { length keys < 2 ^ 63 }
        requires scale { scale ≤ MAX_SCALE }
        ensures left { result.left ≡ qualifying direction bound.now
            (entries_at kind scale keys.entry) }
        ensures given { result.given ≡ 0 }
        ensures taken { result.taken ≡ 0 }
    {
        Walk {
            keys,
            kind,
            scale,
            direction,
            bound: *bound,
            stopped: false,
            taken: 0,
        }
    }

    /// The next class, with its value. None if no class that qualifies is left.
    pub fn next(&mut self) -> Option<(NodeNo, Ratio)>
        ensures pair { MatchOption result ((self.old.left ≡ []) × (self.new.left ≡ []))
            (λ p. self.old.left ≡ record { value = p.1; node = p.0.0 } ∷ self.new.left) }
        ensures given { MatchOption result (self.new.given ≡ self.old.given)
            (λ _. self.new.given ≡ self.old.given + 1) }
    {
        if self.stopped {
            return None;
        }
        let entry = next_entry(&mut self.keys, self.direction, self.kind, self.scale)?;
        self.taken += 1;
        if passes(&entry, self.direction, &self.bound) {
            return Some((NodeNo(entry.node), entry.value));
        }
        self.stopped = true;
        None
    }

    /// The number of entries that were read: as many as were given, or one more.
    pub fn taken(&self) -> u64
        ensures taken { result ≡ self.now.taken }
        ensures least { self.now.given ≤ result }
        ensures most { result ≤ self.now.given + 1 }
    {
        self.taken
    }
}
