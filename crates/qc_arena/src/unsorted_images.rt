// The before-images of a batch, in the order of the touches.
ghost use Rattle.std.specs.FinMap as map;
ghost use Rattle.std.specs.Prelude.{IfSome, length, slice_get, ◌++◌, ◌<◌, ◌≡◌};
ghost use Rattle.std.specs.List.Sorted.{IsPermutation, IsSortedByKey};
ghost use Rattle.std.specs.Ordering.{nat_cmp};
ghost use Rattle.qc_arena.specs.Entries.{IsOnce, all_new, entry_number};

use crate::image::Image;
use crate::images::Images;
use crate::number_list::NumberList;
use std::alloc::Global;
use std::marker::Model;

/// The before-images of the nodes that a batch touched, in the order of their first touches.
#[derive(Drop)]
pub(crate) struct UnsortedImages {
    changed: Vec<(u32, Image)>,
    added: NumberList,
}

impl Model for UnsortedImages {
    ghost use Rattle.std.specs.FinMap as map;
    ghost use Rattle.std.specs.Prelude.{◌++◌};
    ghost use Rattle.qc_arena.specs.Entries.{IsOnce, all_new};
    ghost use Rattle.qc_arena.specs.Map.{ImageMap, images_code};

    ghost Value = { ImageMap };

    ghost coded = { images_code };

    ghost view = { λ i. map.from_entries (i.changed.items ++ all_new i.added.items) };

    ghost invariant = { λ i. IsOnce (i.changed.items ++ all_new i.added.items) };
}

impl UnsortedImages {
    // No before-images.
    pub(crate) fn none(alloc: Global) -> UnsortedImages
        ensures { result ≡ map.empty }
    {
        UnsortedImages {
            changed: Vec::new(alloc),
            added: NumberList::new(alloc),
        }
    }

    // The before-images of these entries. Each number has at most one.
    pub(crate) fn of(changed: Vec<(u32, Image)>, added: NumberList) -> UnsortedImages
        requires { IsOnce (changed.items ++ all_new added.items) }
        ensures { result ≡ map.from_entries (changed.items ++ all_new added.items) }
    {
        UnsortedImages { changed, added }
    }

    // The same before-images sorted, so that a number is found by binary search.
    pub(crate) fn sorted(self) -> Images
        ensures { result ≡ self }
    {
        let mut changed = self.changed;
        let mut added = self.added;
        sort_changed(&mut changed);
        added.sort();
        Images::of(changed, added)
    }
}

// Sorts entries by their numbers.
fn sort_changed(changed: &mut Vec<(u32, Image)>)
    ensures moved { IsPermutation changed.old.items changed.new.items }
    ensures rising { IsSortedByKey entry_number nat_cmp changed.new.items }
{
    changed.sort_unstable_by_key(|entry| entry.0);
}

// The number of an entry.
pub(crate) fn number_at(changed: &Vec<(u32, Image)>, added: &NumberList, k: usize) -> u32
    requires { k < length (changed.now.items ++ all_new added.now.items) }
    ensures { IfSome (slice_get (changed.now.items ++ all_new added.now.items) k)
        (λ e. result ≡ e.0) }
{
    if k < changed.len() {
        let (node, _) = &changed[k];
        return *node;
    }
    added.at(k - changed.len())
}
