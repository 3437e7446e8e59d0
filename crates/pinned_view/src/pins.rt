// Pinned versions.
ghost use Rattle.std.specs.Prelude.{filter, length, map, not, option_copied, vec_capacity, ◌≡◌, ◌≤◌};
ghost use Rattle.std.specs.List.{All, find};
ghost use Rattle.pinned_view.specs.Pins.{has_name, least_place, moved_back, moved_over, place_without, reads_from, version_in};
ghost use Rattle.pinned_view.specs.Versions.{version_now};
ghost use Rattle.pinned_view.specs.Views.{IsRootOf};
ghost use Rattle.warehouse.specs.Counted.{AreCounted};
ghost use Rattle.warehouse.specs.State.{AreContents};

use arrayvec::ArrayString;
use cell_core::NodeNo;
use std::mem::ManuallyDrop;
use std::snapshot::Snapshot;
use warehouse::{Stats, Warehouse};

/// The most versions that may be pinned.
pub const MAX_PINS: usize = 16;

/// A version: its name, the place of the first before-images that were stored since, the root of
/// its tree and its counts. Proofs also have the warehouse as it was. Nothing of it is in memory,
/// so nothing of it is dropped.
#[derive(Drop)]
pub(crate) struct Pin {
    pub name: ArrayString<32>,
    pub from: usize,
    pub root: Option<NodeNo>,
    pub stats: Stats,
    pub was: ManuallyDrop<Snapshot<Warehouse>>,
}

impl Pin {
    // The present version, after so many before-images.
    pub(crate) fn of(warehouse: &Warehouse, name: &str, from: usize) -> Pin
        requires { length name.now ≤ 32 }
        ensures version { version_in result ≡ version_now name.now warehouse.now }
        ensures from { result.from ≡ from }
        ensures root { IsRootOf (length warehouse.now.state.schema.dims)
            warehouse.now.tree result.root }
        ensures stats { AreCounted warehouse.now.state.rows result.stats }
        ensures valid { AreContents warehouse.now }
    {
        let mut own = ArrayString::new();
        own.push_str(name);
        Pin {
            name: own,
            from,
            root: warehouse.tree().root_number(),
            stats: warehouse.stats(),
            was: warehouse.snapshot(),
        }
    }
}

/// The version of a name, if there is one.
pub(crate) fn pin_of<'a>(pins: &'a Vec<Pin>, name: &str) -> Option<&'a Pin>
    ensures { option_copied result ≡ find (has_name name.now) pins.now.items }
{
    pins.iter().find(|pin| pin.name.as_str() == name)
}

/// Drops the versions of a name.
pub(crate) fn drop_named(pins: &mut Vec<Pin>, name: &str)
    ensures items { pins.new.items ≡ filter (λ pin. not (has_name name.now pin)) pins.old.items }
    ensures capacity { vec_capacity pins.new ≡ vec_capacity pins.old }
{
    pins.retain(|pin| pin.name.as_str() != name);
}

/// Whether a version reads from a place on.
pub(crate) fn is_read_from(pins: &Vec<Pin>, place: usize) -> bool
    ensures { result ≡ reads_from pins.now.items place }
{
    pins.iter().any(|pin| pin.from == place)
}

/// The least place from which a version reads, or the end if there is no version.
pub(crate) fn oldest(pins: &Vec<Pin>, end: usize) -> usize
    ensures least { result ≡ least_place end pins.now.items }
    ensures each { All (λ pin. result ≤ pin.from) pins.now.items }
    ensures end { result ≤ end }
{
    let mut least = end;
    'pins: for pin in pins {
        least = least.min(pin.from);
    }
    least
}

/// Moves the places of all versions back by so many.
pub(crate) fn shift_places(pins: &mut Vec<Pin>, by: usize)
    requires { All (λ pin. by ≤ pin.from) pins.old.items }
    ensures items { pins.new.items ≡ map (moved_back by) pins.old.items }
    ensures capacity { vec_capacity pins.new ≡ vec_capacity pins.old }
{
    'pins: for at in 0..pins.len() {
        let pin = &mut pins[at];
        pin.from -= by;
    }
}

// The place of a list where the list at another place is merged into the one before that.
fn place_after(gone: usize, place: usize) -> usize
    ensures { result ≡ place_without gone place }
{
    if gone < place { place - 1 } else { place }
}

/// Moves the places of all versions that read from behind a place back by one.
pub(crate) fn close_place(pins: &mut Vec<Pin>, gone: usize)
    ensures items { pins.new.items ≡ map (moved_over gone) pins.old.items }
    ensures capacity { vec_capacity pins.new ≡ vec_capacity pins.old }
{
    'pins: for at in 0..pins.len() {
        let pin = &mut pins[at];
        pin.from = place_after(gone, pin.from);
    }
}
