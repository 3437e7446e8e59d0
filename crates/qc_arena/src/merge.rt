// The merge of two lists of before-images, from the largest number down.
ghost use Rattle.std.specs.Prelude.{[], length, ℕ, ◌++◌, ◌+◌, ◌<◌, ◌≡◌, ◌≤◌};
ghost use Rattle.std.specs.Bool.{OnFalse, OnTrue};
ghost use Rattle.std.specs.FinMap as map;
ghost use Rattle.std.specs.Vec.{vec_capacity};
ghost use Rattle.qc_arena.specs.Entries.{IsOnce};
ghost use Rattle.qc_arena.specs.Merges.{AreRising, IsMerge, all_in, count_in};

use crate::images::Images;
use crate::sorted_images::{SortedImages, larger};
use crate::unsorted_images::UnsortedImages;
use std::marker::Model;

/// The lists to be merged, the entries that are merged already, and how many are left.
#[derive(Drop)]
pub(crate) struct Merge {
    older: SortedImages,
    later: SortedImages,
    merged: SortedImages,
}

impl Model for Merge {
    ghost use Rattle.std.specs.Prelude.{length, ℕ, ◌++◌, ◌+◌, ◌≤◌};
    ghost use Rattle.std.specs.FinMap as map;
    ghost use Rattle.std.specs.Coded.{coded×, coded_ℕ};
    ghost use Rattle.std.specs.Vec.{vec_capacity};
    ghost use Rattle.qc_arena.specs.Entries.{IsOnce};
    ghost use Rattle.qc_arena.specs.Map.{ImageMap, images_code};
    ghost use Rattle.qc_arena.specs.Merges.{AreRising, IsMerge, all_in, count_in};

    ghost Value = { ImageMap × ℕ };

    ghost coded = { coded× images_code coded_ℕ };

    ghost view = { λ m. (
      map.from_entries (all_in m.merged ++ (all_in m.older ++ all_in m.later)),
      count_in m.older + count_in m.later,
    ) };

    ghost invariant = { λ m. IsMerge m.older m.later m.merged };
}

impl Merge {
    // A merge that hasn't begun.
    pub(crate) fn of(older: SortedImages, later: SortedImages, merged: SortedImages) -> Merge
        requires older { AreRising older }
        requires later { AreRising later }
        requires none { all_in merged ≡ [] }
        requires changed { length older.changed.items + length later.changed.items
            ≤ vec_capacity merged.changed }
        requires added { length older.added.items + length later.added.items
            ≤ merged.added.capacity }
        ensures { result.0 ≡ map.from_entries (all_in older ++ all_in later) }
    {
        Merge {
            older,
            later,
            merged,
        }
    }

    // Merges the entries of the largest number that is left. False if none is left.
    fn next(&mut self) -> bool
        ensures same { self.new.0 ≡ self.old.0 }
        ensures less { OnTrue result (self.new.1 < self.old.1) }
        ensures done { OnFalse result (self.new.1 ≡ 0) }
    {
        let end = larger(self.older.end(), self.later.end());
        if end == 0 {
            return false;
        }
        let node = (end - 1) as u32;
        let older = self.older.take(node);
        let later = self.later.take(node);
        if let Some(entry) = older.or(later) {
            self.merged.put(node, entry);
        }
        true
    }

    // The merged before-images, after all are merged.
    fn finish(self) -> Images
        requires { self.1 ≡ 0 }
        ensures { result ≡ self.0 }
    {
        UnsortedImages::of(self.merged.changed, self.merged.added).sorted()
    }

    // Merges all entries.
    pub(crate) fn all(self) -> Images
        ensures { result ≡ self.0 }
    {
        let mut merge = self;
        'numbers: while merge.next() {}
        merge.finish()
    }
}
