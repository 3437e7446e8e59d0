// Keys of lists.
ghost use Rattle.std.specs.Prelude.{◌≡◌, ◌<◌, ◌≤◌, ◌+◌, ◌-◌, ◌&&◌, ◌++◌, ◌∷◌, [], if◌then◌else◌, length, not, slice_index_or, vec_capacity, vec_len, IfOk};
ghost use Rattle.std.specs.List.Sorted.{IsSorted};
ghost use Rattle.std.specs.declared.cmp.Ordering.TheVariants.{Less};
ghost use Rattle.measure_index.specs.Keys.{IsPlace, among};

use cube_defs::Memory;
use std::alloc::Global;

/// Appends a key if it is new.
pub(crate) fn note<K: Copy>(came: &mut Vec<K>, item: K, added: bool)
    requires { vec_len came.old < vec_capacity came.old }
    ensures items { came.new.items ≡ came.old.items ++ (if added then item ∷ [] else []) }
    ensures len { vec_len came.new ≤ vec_len came.old + 1 }
    ensures room { vec_capacity came.new ≡ vec_capacity came.old }
{
    if added {
        came.push_reserved(item);
    }
}

// From a place back to the first one before which a smaller key stands.
fn back_from<K: Ord>(items: &[K], place: usize, key: &K) -> usize
    requires { place ≤ length items.now }
    ensures within { result ≤ length items.now }
    ensures less { (d : K) → 0 < result
        → K.cmp (slice_index_or items.now (result - 1) d) key.now ≡ Less }
{
    let mut at = place;
    'places: while at > 0 && items[at - 1].cmp(key).is_ge() {
        at -= 1;
    }
    at
}

// The first place whose key isn't smaller, among sorted keys. The search begins at a place near it.
fn place_near<K: Ord>(items: &[K], near: usize, key: &K) -> usize
    requires { near ≤ length items.now }
    ensures { IsPlace K.cmp items.now key.now result }
{
    let mut at = back_from(items, near, key);
    'places: while at < items.len() && items[at].cmp(key).is_lt() {
        at += 1;
    }
    at
}

// Whether a key is among sorted ones, at its place.
fn is_at<K: Ord>(items: &[K], place: usize, key: &K) -> bool
    requires sorted { IsSorted K.cmp items.now }
    requires place { IsPlace K.cmp items.now key.now place }
    ensures { result ≡ among K.cmp items.now key.now }
{
    place < items.len() && items[place].cmp(key).is_eq()
}

/// The items that are missing among the others, which are sorted. If the items are sorted too, each
/// search ends next to the one before.
pub(crate) fn lacked_by<K: Ord + Copy>(
    alloc: Global,
    others: &[K],
    items: &Vec<K>,
) -> Result<Vec<K>, Memory>
    requires { IsSorted K.cmp others.now }
    ensures has { IfOk result (λ v. (q : K)
        → among K.cmp v.items q
        ≡ (among K.cmp items.now.items q && not (among K.cmp others.now q))) }
{
    let mut out = Vec::with_capacity(alloc, items.len())?;
    let mut place = 0;
    for item in items {
        place = place_near(others, place, item);
        note(&mut out, *item, !is_at(others, place, item));
    }
    Ok(out)
}
