// The before-images that are stored for the versions, the oldest first.
ghost use Rattle.std.specs.FinMap as finmap;
ghost use Rattle.std.specs.Prelude.{OnErr, OnOk, drop, false, length, suc, true, vec_capacity, ◌<◌, ◌≡◌, ◌≤◌};
ghost use Rattle.pinned_view.specs.Pins.{AreSettledFrom, IsMergedAt, IsSettledAt, KeepsReads, kept_after, reads_from};
ghost use Rattle.warehouse.specs.State.{AreContents};

use crate::pins::{Pin, close_place, is_read_from};
use cube_defs::Memory;
use qc_arena::Images;
use std::alloc::AllocError;
use warehouse::Warehouse;

/// The before-images from a place on.
pub(crate) fn images_since(kept: &Vec<Images>, from: usize) -> &[Images]
    requires { from ≤ length kept.now.items }
    ensures { result.now ≡ drop from kept.now.items }
{
    &kept[from..]
}

/// Removes so many of the oldest before-images.
pub(crate) fn drop_oldest(kept: &mut Vec<Images>, count: usize)
    requires { count ≤ length kept.old.items }
    ensures { kept.new.items ≡ drop count kept.old.items }
{
    let left = kept.len() - count;
    kept.rotate_left(count);
    kept.truncate(left);
}

/// Reserves the place for the before-images of one more change, if a version is pinned.
pub(crate) fn reserve_one(kept: &mut Vec<Images>, pins: &Vec<Pin>) -> Result<(), Memory>
    ensures items { kept.new.items ≡ kept.old.items }
    ensures room { OnOk result (0 < length pins.now.items
        → length kept.new.items < vec_capacity kept.new) }
{
    if pins.is_empty() {
        return Ok(());
    }
    kept.reserve(1)
}

// Whether the images after a place may be merged into those at it. They may if no version reads
// from between them, and if those at it aren't much larger. If a version reads from after both,
// neither gets more images, so one merge serves all later reads. Then those at it may be larger.
// So each number is moved a few times, and the lists stay few.
fn may_merge(kept: &Vec<Images>, pins: &Vec<Pin>, at: usize) -> bool
    requires { suc at < length kept.now.items }
    ensures apart { result ≡ true → reads_from pins.now.items (suc at) ≡ false }
    ensures settled { result ≡ false → IsSettledAt at (drop at kept.now.items) pins.now.items }
{
    if is_read_from(pins, at + 1) {
        return false;
    }
    let older = kept[at].count();
    let later = kept[at + 1].count();
    older / 2 <= later || (older / 8 <= later && is_read_from(pins, at + 2))
}

// Merges the images after a place into those at it. If memory runs out, nothing changes.
fn merge_next(kept: &mut Vec<Images>, at: usize) -> Result<(), Memory>
    requires { suc at < length kept.old.items }
    ensures ok { OnOk result (IsMergedAt at kept.old.items kept.new.items) }
    ensures err { OnErr result (kept.new.items ≡ kept.old.items) }
{
    let later = kept.remove(at + 1);
    let older = &mut kept[at];
    match older.merge_later(later) {
        Ok(()) => Ok(()),
        Err(later) => {
            kept.insert(at + 1, later).unwrap();
            Err(AllocError)
        }
    }
}

// Settles a place: merges the images after it into those at it, if they may be merged.
fn settle_at(kept: &mut Vec<Images>, pins: &mut Vec<Pin>, at: usize) -> Result<(), Memory>
    requires { suc at < length kept.old.items }
    ensures keeps { KeepsReads kept.old.items pins.old.items kept.new.items pins.new.items }
    ensures len { at < length kept.new.items }
    ensures settled { OnOk result
        (AreSettledFrom (suc at) (drop (suc at) kept.old.items) pins.old.items
        → AreSettledFrom at (drop at kept.new.items) pins.new.items) }
    ensures capacity { vec_capacity pins.new ≡ vec_capacity pins.old }
{
    if !may_merge(kept, pins, at) {
        return Ok(());
    }
    merge_next(kept, at)?;
    close_place(pins, at + 1);
    Ok(())
}

// Settles all places, from the last to the first.
fn settle_all(kept: &mut Vec<Images>, pins: &mut Vec<Pin>) -> Result<(), Memory>
    ensures keeps { KeepsReads kept.old.items pins.old.items kept.new.items pins.new.items }
    ensures settled { OnOk result (AreSettledFrom 0 kept.new.items pins.new.items) }
    ensures capacity { vec_capacity pins.new ≡ vec_capacity pins.old }
{
    let mut at = kept.len().saturating_sub(1);
    'places: while at > 0 {
        at -= 1;
        settle_at(kept, pins, at)?;
    }
    Ok(())
}

/// Merges neighbouring lists between which no version reads, unless the earlier one is much larger.
/// Then reserves the place for the before-images of one more change, if a version is pinned. If
/// memory runs out, each version reads what it read.
pub(crate) fn settle(kept: &mut Vec<Images>, pins: &mut Vec<Pin>) -> Result<(), Memory>
    ensures keeps { KeepsReads kept.old.items pins.old.items kept.new.items pins.new.items }
    ensures settled { OnOk result (AreSettledFrom 0 kept.new.items pins.new.items) }
    ensures room { OnOk result (0 < length pins.new.items
        → length kept.new.items < vec_capacity kept.new) }
    ensures capacity { vec_capacity pins.new ≡ vec_capacity pins.old }
{
    settle_all(kept, pins)?;
    reserve_one(kept, pins)
}

/// Moves the before-images of a warehouse's last change to the end of the lists, if a version needs
/// them. Else they are dropped.
pub(crate) fn keep_images(kept: &mut Vec<Images>, pins: &Vec<Pin>, warehouse: &mut Warehouse)
    requires { 0 < length pins.now.items → length kept.old.items < vec_capacity kept.old }
    ensures kept { kept.new.items
        ≡ kept_after pins.now.items kept.old.items warehouse.old.images }
    ensures rest { warehouse.new ≡ record warehouse.old { images = finmap.empty } }
    ensures valid { AreContents warehouse.new }
{
    if pins.is_empty() {
        warehouse.drop_images();
    } else {
        let images = warehouse.last_images();
        kept.push(images).unwrap();
    }
}
