// Before-images in lists sorted by number. The last entry is taken first.
ghost use Rattle.std.specs.Prelude.{IfNone, IfOk, IfSome, None, Some, IsSome, [], if◌then◌else◌, length, nat_eq, ℕ, ◌++◌, ◌+◌, ◌-◌, ◌∷◌, ◌<◌, ◌≡◌, ◌≤◌, ◌⊎◌};
ghost use Rattle.std.specs.Bool.{OnFalse, OnTrue};
ghost use Rattle.std.specs.Map.{lookup};
ghost use Rattle.std.specs.Option.{option_map};
ghost use Rattle.std.specs.List.Sorted.{IsNonDecreasingBy};
ghost use Rattle.std.specs.Vec.{vec_capacity};
ghost use Rattle.qc_arena.specs.Entries.{IsOnce, all_new, entry_number};
ghost use Rattle.qc_arena.specs.Merges.{AreRising, IsEnd, IsMost, added_in, all_in, changed_in, count_in, entry_image};

use crate::Memory;
use crate::image::Image;
use crate::number_list::NumberList;
use std::alloc::Global;

/// The entry of one number: its before-image, or that its node is new.
#[derive(Drop)]
pub(crate) enum Entry {
    Changed(Image),
    Added,
}

/// The numbers with a before-image, and those of new nodes.
#[derive(Drop)]
pub(crate) struct SortedImages {
    pub(crate) changed: Vec<(u32, Image)>,
    pub(crate) added: NumberList,
}

// One more than the last number, or 0.
fn changed_end(changed: &Vec<(u32, Image)>) -> u64
    ensures end { IsEnd changed.now.items result }
    ensures small { result ≤ 4294967296 }
{
    match changed.last() {
        None => 0,
        Some((node, _)) => *node as u64 + 1,
    }
}

// One more than the last number of a new node, or 0.
fn added_end(added: &NumberList) -> u64
    ensures end { IsEnd (all_new added.now.items) result }
    ensures small { result ≤ 4294967296 }
{
    let len = added.len();
    if len == 0 {
        return 0;
    }
    added.at(len - 1) as u64 + 1
}

// Takes out the last image, if it belongs to the number.
fn pop_changed(changed: &mut Vec<(u32, Image)>, node: u32) -> Option<Image>
    requires rising { IsNonDecreasingBy entry_number changed.old.items }
    requires most { IsMost changed.old.items node }
    ensures some { IfSome result (λ image. changed.old.items ≡ changed.new.items
        ++ (node, image) ∷ []) }
    ensures none { IfNone result ((changed.new.items ≡ changed.old.items)
        × (lookup (nat_eq node) changed.old.items ≡ None)) }
{
    if changed_end(changed) != node as u64 + 1 {
        return None;
    }
    match changed.pop() {
        Some((_, image)) => Some(image),
        None => None,
    }
}

// Takes out the last number, if it is this one.
fn pop_added(added: &mut NumberList, node: u32) -> bool
    requires rising { IsNonDecreasingBy entry_number (all_new added.old.items) }
    requires most { IsMost (all_new added.old.items) node }
    ensures some { OnTrue result (added.old.items ≡ added.new.items ++ node ∷ []) }
    ensures none { OnFalse result ((added.new.items ≡ added.old.items)
        × (lookup (nat_eq node) (all_new added.old.items) ≡ None)) }
{
    if added_end(added) != node as u64 + 1 {
        return false;
    }
    match added.pop() {
        Some(_) => true,
        None => false,
    }
}

// The larger of two numbers.
pub(crate) fn larger(one: u64, other: u64) -> u64
    ensures one { one ≤ result }
    ensures other { other ≤ result }
    ensures either { (result ≡ one) ⊎ (result ≡ other) }
{
    if one < other { other } else { one }
}

impl SortedImages {
    // Empty lists with room for so many entries of both kinds.
    pub(crate) fn with_room(
        alloc: Global,
        changed: usize,
        added: usize,
    ) -> Result<SortedImages, Memory>
        ensures none { IfOk result (λ e. all_in e ≡ []) }
        ensures changed { IfOk result (λ e. changed ≤ vec_capacity e.changed) }
        ensures added { IfOk result (λ e. added ≤ e.added.capacity) }
    {
        let added = match NumberList::with_room(alloc, added) {
            Ok(added) => added,
            Err(error) => return Err(error),
        };
        match Vec::with_capacity(alloc, changed) {
            Ok(changed) => Ok(SortedImages { changed, added }),
            Err(error) => {
                drop(added);
                Err(error)
            }
        }
    }

    // One more than the largest number, or 0 if there is none.
    pub(crate) fn end(&self) -> u64
        requires { AreRising self.now }
        ensures most { (q : ℕ) → result ≤ q → lookup (nat_eq q) (all_in self.now) ≡ None }
        ensures there { 0 < result → IsSome (lookup (nat_eq (result - 1)) (all_in self.now)) }
        ensures small { result ≤ 4294967296 }
    {
        larger(changed_end(&self.changed), added_end(&self.added))
    }

    // Takes out the entry of a number. No entry has a larger one.
    pub(crate) fn take(&mut self, node: u32) -> Option<Entry>
        requires rising { AreRising self.old }
        requires most { IsMost (all_in self.old) node }
        ensures rising { AreRising self.new }
        ensures took { option_map entry_image result ≡ lookup (nat_eq node) (all_in self.old) }
        ensures rest { (q : ℕ) → lookup (nat_eq q) (all_in self.new) ≡ (if nat_eq node q then None
            else lookup (nat_eq q) (all_in self.old)) }
        ensures changed { length self.old.changed.items ≡ length self.new.changed.items
            + changed_in result }
        ensures added { length self.old.added.items ≡ length self.new.added.items
            + added_in result }
    {
        if let Some(image) = pop_changed(&mut self.changed, node) {
            return Some(Entry::Changed(image));
        }
        if pop_added(&mut self.added, node) {
            return Some(Entry::Added);
        }
        None
    }

    // Adds the entry of a number that has none.
    pub(crate) fn put(&mut self, node: u32, entry: Entry)
        requires once { IsOnce (all_in self.old) }
        requires none { lookup (nat_eq node) (all_in self.old) ≡ None }
        requires changed { length self.old.changed.items + changed_in (Some entry)
            ≤ vec_capacity self.old.changed }
        requires added { length self.old.added.items + added_in (Some entry)
            ≤ self.old.added.capacity }
        ensures once { IsOnce (all_in self.new) }
        ensures put { (q : ℕ) → lookup (nat_eq q) (all_in self.new) ≡ (if nat_eq node q
            then Some (entry_image entry) else lookup (nat_eq q) (all_in self.old)) }
        ensures changed { length self.new.changed.items ≡ length self.old.changed.items
            + changed_in (Some entry) }
        ensures added { length self.new.added.items ≡ length self.old.added.items
            + added_in (Some entry) }
        ensures changed_room { vec_capacity self.new.changed ≡ vec_capacity self.old.changed }
        ensures added_room { self.new.added.capacity ≡ self.old.added.capacity }
    {
        match entry {
            Entry::Changed(image) => self.changed.push_reserved((node, image)),
            Entry::Added => self.added.push_reserved(node),
        }
    }
}
