// Before-images by node number.
ghost use Rattle.std.specs.FinMap as map;
ghost use Rattle.std.specs.Map.{lookup};
ghost use Rattle.std.specs.Prelude.{IfErr, IfNone, IfSome, IsSome, None, OnErr, OnOk, Some, if◌then◌else◌, false, length, map, nat_eq, slice_index_or, ℕ, ◌++◌, ◌<◌, ◌≡◌, ◌≢◌};
ghost use Rattle.std.specs.Option.{option_or};
ghost use Rattle.std.specs.List.Sorted.{IsSorted, IsSortedByKey};
ghost use Rattle.std.specs.Ordering.{nat_cmp};
ghost use Rattle.qc_arena.specs.Entries.{IsOnce, all_new, entry_number};
ghost use Rattle.qc_arena.specs.Index.{IsIndexOf};
ghost use Rattle.qc_arena.specs.Looks.{look_of_image};
ghost use Rattle.qc_arena.specs.Marks.{is_marked};

use crate::image::{Image, Record};
use crate::merge::Merge;
use crate::number_index::NumberIndex;
use crate::number_list::NumberList;
use crate::sorted_images::SortedImages;
use cell_core::NodeNo;
use std::marker::Model;
use std::mem::replace;

/// The before-image of a number.
pub enum Look<'a> {
    /// The batch touched no node of this number.
    Same,
    /// No node had the number.
    Gone,
    /// A node had the number, with this record.
    Was(&'a Record),
}

/// The before-images of the nodes that a batch touched: for each number a record, or that there was
/// no node. Without an index, for which memory ran out, a look takes longer.
#[derive(Drop)]
pub struct Images {
    changed: Vec<(u32, Image)>,
    added: NumberList,
    index: Option<NumberIndex>,
}

impl Model for Images {
    ghost use Rattle.std.specs.FinMap as map;
    ghost use Rattle.std.specs.Prelude.{IfSome, ◌++◌};
    ghost use Rattle.std.specs.List.Sorted.{IsSorted, IsSortedByKey};
    ghost use Rattle.std.specs.Ordering.{nat_cmp};
    ghost use Rattle.qc_arena.specs.Entries.{IsOnce, all_new, entry_number};
    ghost use Rattle.qc_arena.specs.Index.{IsIndexOf};
    ghost use Rattle.qc_arena.specs.Map.{ImageMap, images_code};

    ghost Value = { ImageMap };

    ghost coded = { images_code };

    ghost view = { λ i. map.from_entries (i.changed.items ++ all_new i.added.items) };

    ghost invariant = { λ i. IsOnce (i.changed.items ++ all_new i.added.items)
        × IsSortedByKey entry_number nat_cmp i.changed.items
        × IsSorted nat_cmp i.added.items
        × IfSome i.index (λ index. IsIndexOf index i.changed.items i.added.items) };
}

impl Images {
    // The images of entries that are sorted by number.
    pub(crate) fn of(changed: Vec<(u32, Image)>, added: NumberList) -> Images
        requires once { IsOnce (changed.items ++ all_new added.items) }
        requires changed { IsSortedByKey entry_number nat_cmp changed.items }
        requires added { IsSorted nat_cmp added.items }
        ensures { result ≡ map.from_entries (changed.items ++ all_new added.items) }
    {
        let index = NumberIndex::of(&changed, &added).ok();
        Images {
            changed,
            added,
            index,
        }
    }

    /// The before-image of a number. Most numbers that have none are known by one bit. Others are
    /// searched for.
    pub fn look(&self, node: NodeNo) -> Look<'_>
        ensures { look_of_image result ≡ map.get self.now node.0 }
    {
        if !may_have(&self.index, node.0) {
            return Look::Same;
        }
        if let Some(at) = place_of(&self.index, &self.changed, node.0) {
            let (_, image) = &self.changed[at];
            return match image.record() {
                Some(record) => Look::Was(record),
                None => Look::Gone,
            };
        }
        if self.added.has(node.0) {
            return Look::Gone;
        }
        Look::Same
    }

    /// The number of before-images.
    pub fn count(&self) -> usize
        ensures { result ≡ map.len self.now }
    {
        self.changed.len() + self.added.len()
    }

    /// Merges the before-images of a later batch into these. If both have an image of a number, the
    /// earlier one stays. If memory runs out, the later ones are given back and nothing changes.
    pub fn merge_later(&mut self, later: Images) -> Result<(), Images>
        ensures ok { OnOk result ((q : ℕ)
            → map.get self.new q ≡ option_or (map.get self.old q) (map.get later q)) }
        ensures err { IfErr result (λ same. same ≡ later) }
        ensures kept { OnErr result (self.new ≡ self.old) }
    {
        let alloc = self.added.allocator();
        let changed = self.changed.len() + later.changed.len();
        let added = self.added.len() + later.added.len();
        let Ok(room) = SortedImages::with_room(alloc, changed, added) else {
            return Err(later);
        };
        let older = SortedImages {
            changed: replace(&mut self.changed, Vec::new(alloc)),
            added: replace(&mut self.added, NumberList::new(alloc)),
        };
        let later = SortedImages {
            changed: later.changed,
            added: later.added,
        };
        *self = Merge::of(older, later, room).all();
        Ok(())
    }
}

// Whether a number may have an entry.
fn may_have(index: &Option<NumberIndex>, node: u32) -> bool
    requires { IfSome index.now (λ index. 0 < length index.marks.words.items) }
    ensures { result ≡ false → IsSome index.now
        × IfSome index.now (λ index. is_marked index.marks.words.items node ≡ false) }
{
    match index {
        Some(index) => index.marks.may_have(node),
        None => true,
    }
}

// The place of a number among sorted numbers.
fn place_of_number(numbers: &Vec<u32>, node: u32) -> Option<usize>
    requires { IsSorted nat_cmp numbers.now.items }
    ensures within { IfSome result (λ k. k < length numbers.now.items) }
    ensures some { IfSome result (λ k. (d : ℕ) → slice_index_or numbers.now.items k d ≡ node) }
    ensures none { IfNone result ((k d : ℕ) → k < length numbers.now.items
        → slice_index_or numbers.now.items k d ≢ node) }
{
    match numbers.binary_search(&node) {
        Ok(at) => Some(at),
        Err(_) => None,
    }
}

// The place of a number among sorted entries.
fn place_of_entry(changed: &Vec<(u32, Image)>, node: u32) -> Option<usize>
    requires { IsSortedByKey entry_number nat_cmp changed.now.items }
    ensures within { IfSome result (λ k. k < length changed.now.items) }
    ensures some { IfSome result (λ k. (d : _)
        → entry_number (slice_index_or changed.now.items k d) ≡ node) }
    ensures none { IfNone result (lookup (nat_eq node) changed.now.items ≡ None) }
{
    match changed.binary_search_by_key(&node, |entry| entry.0) {
        Ok(at) => Some(at),
        Err(_) => None,
    }
}

// The same, by the index if there is one.
fn place_of(index: &Option<NumberIndex>, changed: &Vec<(u32, Image)>, node: u32) -> Option<usize>
    requires sorted { IsSortedByKey entry_number nat_cmp changed.now.items }
    requires numbers { IfSome index.now (λ index. index.numbers.items
        ≡ map entry_number changed.now.items) }
    ensures within { IfSome result (λ k. k < length changed.now.items) }
    ensures some { IfSome result (λ k. (d : _)
        → entry_number (slice_index_or changed.now.items k d) ≡ node) }
    ensures none { IfNone result (lookup (nat_eq node) changed.now.items ≡ None) }
{
    match index {
        Some(index) => place_of_number(&index.numbers, node),
        None => place_of_entry(changed, node),
    }
}
