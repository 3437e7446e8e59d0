// Numbers of nodes in little room.
ghost use Rattle.std.specs.Prelude.{IfOk, None, OnErr, OnOk, Some, [], if◌then◌else◌, length, nat_eq, slice_index_or, ◌+◌, ◌++◌, ◌<◌, ◌∷◌, ◌≡◌, ◌≤◌};
ghost use Rattle.std.specs.List.Sorted.{IsPermutation, IsSorted};
ghost use Rattle.std.specs.Map.{lookup};
ghost use Rattle.std.specs.Option.{MatchOption, option_to_list};
ghost use Rattle.std.specs.Ordering.{nat_cmp};
ghost use Rattle.qc_arena.specs.Entries.{all_new};
ghost use Rattle.qc_arena.specs.Numbers.{run};

use crate::Memory;
use std::alloc::{AllocError, Global};
use std::marker::Model;

/// No run begins here, since each number is smaller.
const NO_RUN: u64 = 4_294_967_296;

/// Numbers of nodes, in the order in which they came. Most new nodes have the number after that of
/// the node before. So the last numbers are stored as a run, from its first number up to its end,
/// as long as each is one more than the one before. All numbers before the run are listed, and are
/// smaller than those of the run.
#[derive(Drop)]
pub(crate) struct NumberList {
    listed: Vec<u32>,
    first: u64,
    end: u64,
}

impl Model for NumberList {
    ghost use Rattle.std.specs.Prelude.{vec_capacity, ◌++◌};
    ghost use Rattle.qc_arena.specs.Numbers.{IsNumberList, Numbers, capacity_of, numbers_code, run};

    ghost Value = { Numbers };

    ghost coded = { numbers_code };

    ghost view = { λ n. record {
      items = n.listed.items ++ run n.first n.end;
      capacity = capacity_of n.first (vec_capacity n.listed);
    } };

    ghost invariant = { λ n. IsNumberList n.listed.items n.first n.end };
}

// Appends the numbers of a run to a list.
fn append_run(listed: &mut Vec<u32>, first: u64, end: u64) -> Result<(), Memory>
    requires rises { first ≤ end }
    requires small { end ≤ 4294967296 }
    ensures ok { OnOk result (listed.new.items ≡ listed.old.items ++ run first end) }
    ensures err { OnErr result (listed.new.items ≡ listed.old.items) }
{
    let count = (end - first) as usize;
    match listed.reserve(count) {
        Ok(()) => {}
        Err(error) => return Err(error),
    }
    'numbers: for number in first..end {
        listed.push_reserved(number as u32);
    }
    Ok(())
}

impl NumberList {
    // No numbers.
    pub(crate) fn new(alloc: Global) -> NumberList
        ensures { result.items ≡ [] }
    {
        NumberList {
            listed: Vec::new(alloc),
            first: 0,
            end: 0,
        }
    }

    // No numbers, with room for some in any order.
    pub(crate) fn with_room(alloc: Global, room: usize) -> Result<NumberList, Memory>
        ensures none { IfOk result (λ n. n.items ≡ []) }
        ensures room { IfOk result (λ n. room ≤ n.capacity) }
    {
        match Vec::with_capacity(alloc, room) {
            Ok(listed) => Ok(NumberList {
                listed,
                first: NO_RUN,
                end: NO_RUN,
            }),
            Err(error) => Err(error),
        }
    }

    pub(crate) fn allocator(&self) -> Global {
        *self.listed.allocator()
    }

    pub(crate) fn len(&self) -> usize
        ensures value { result ≡ length self.now.items }
        ensures few { result < 9223372036854775808 }
    {
        self.listed.as_slice().len() + (self.end - self.first) as usize
    }

    // The number at a place.
    pub(crate) fn at(&self, place: usize) -> u32
        requires { place < length self.now.items }
        ensures { result ≡ slice_index_or self.now.items place result }
    {
        let listed = self.listed.len();
        if place < listed {
            return self.listed[place];
        }
        (self.first + (place - listed) as u64) as u32
    }

    // Whether a number is among sorted ones.
    pub(crate) fn has(&self, number: u32) -> bool
        requires { IsSorted nat_cmp self.now.items }
        ensures { lookup (nat_eq number) (all_new self.now.items)
            ≡ (if result then Some None else None) }
    {
        if self.first <= number as u64 && (number as u64) < self.end {
            return true;
        }
        match self.listed.binary_search(&number) {
            Ok(_) => true,
            Err(_) => false,
        }
    }

    // Appends a number.
    pub(crate) fn push(&mut self, number: u32) -> Result<(), Memory>
        ensures ok { OnOk result (self.new.items ≡ self.old.items ++ number ∷ []) }
        ensures err { OnErr result (self.new.items ≡ self.old.items) }
    {
        if number as u64 == self.end {
            self.end += 1;
            return Ok(());
        }
        match append_run(&mut self.listed, self.first, self.end) {
            Ok(()) => {}
            Err(error) => return Err(error),
        }
        if number as u64 > self.end {
            self.first = number as u64;
            self.end = number as u64 + 1;
            return Ok(());
        }
        self.first = self.end;
        match self.listed.push(number) {
            Ok(()) => Ok(()),
            Err(_) => Err(AllocError),
        }
    }

    // Appends a number, for which there is room.
    pub(crate) fn push_reserved(&mut self, number: u32)
        requires { length self.old.items < self.old.capacity }
        ensures items { self.new.items ≡ self.old.items ++ number ∷ [] }
        ensures capacity { self.new.capacity ≡ self.old.capacity }
    {
        self.listed.push_reserved(number);
    }

    // Takes the last number out.
    pub(crate) fn pop(&mut self) -> Option<u32>
        ensures items { self.old.items ≡ self.new.items ++ option_to_list result }
        ensures cases { MatchOption result
            ((length self.old.items ≡ 0) × (length self.new.items ≡ 0))
            (λ _. length self.new.items + 1 ≡ length self.old.items) }
    {
        if self.first < self.end {
            self.end -= 1;
            return Some(self.end as u32);
        }
        self.listed.pop()
    }

    // Sorts the numbers.
    pub(crate) fn sort(&mut self)
        ensures permutation { IsPermutation self.old.items self.new.items }
        ensures sorted { IsSorted nat_cmp self.new.items }
    {
        self.listed.sort_unstable();
    }
}
