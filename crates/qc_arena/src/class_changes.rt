// The classes that were added and removed since `begin`.
ghost use Rattle.std.specs.Prelude.{IfOk, None, Some, false, length, not, slice_get, true, ℕ, ◌+◌, ◌<◌, ◌≡◌, ◌≢◌, ◌≤◌};
ghost use Rattle.std.specs.Option.{option_copied, option_map};
ghost use Rattle.std.specs.Vec.{vec_capacity};
ghost use Rattle.aggregates.specs.Views.{agg_in};
ghost use Rattle.slab.specs.Slab as slots;
ghost use Rattle.qc_arena.specs.Entries.{IsOnce};
ghost use Rattle.qc_arena.specs.Changes.{AddsNew, AreNew, class_in, class_on_side, count_in, from_side, to_side};
ghost use Rattle.qc_arena.specs.Inside.{image_or, join};

use crate::Memory;
use crate::image::Record;
use crate::node_store::NodeStore;
use crate::same::same_agg;
use crate::touched::Touched;
use aggregates::Agg;
use cell_core::NodeNo;
use std::alloc::Global;

// The class of a place, if it has one.
fn class_in_place(nodes: &NodeStore, place: u32) -> Option<Agg>
    ensures { option_map agg_in result ≡ class_in (join (slots.get nodes.now place)) }
{
    if nodes.has(place as usize) {
        return nodes.class(place);
    }
    None
}

// COUNT of the class of a place. 0 if it has none.
fn count_in_place(nodes: &NodeStore, place: u32) -> u32
    ensures { result ≡ count_in (class_in (join (slots.get nodes.now place))) }
{
    if nodes.has(place as usize) {
        return nodes.count(place);
    }
    0
}

// COUNT of the class of a before-image. 0 if it was none.
fn count_in_image(was: Option<&Record>) -> u32
    ensures { result ≡ count_in (class_in (option_copied was.entry)) }
{
    match was {
        Some(record) => record.count(),
        None => 0,
    }
}

// The class of a before-image, if it was one.
fn class_in_image(was: Option<&Record>) -> Option<Agg>
    ensures { option_map agg_in result ≡ class_in (option_copied was.entry) }
{
    match was {
        Some(record) => record.class(),
        None => None,
    }
}

// The class of a touched node, if it has one: now, or in its before-image.
fn class_on_side(nodes: &NodeStore, node: u32, was: Option<&Record>, now: bool) -> Option<Agg>
    ensures { option_map agg_in result
        ≡ class_on_side (option_copied was.entry) (join (slots.get nodes.now node)) now }
{
    if now {
        return class_in_place(nodes, node);
    }
    class_in_image(was)
}

// Whether two classes have the same aggregate. No class is the same as none.
fn is_same_class(class: &Option<Agg>, other: &Option<Agg>) -> bool
    ensures same { result ≡ true → option_map agg_in class.now ≡ option_map agg_in other.now }
    ensures apart { result ≡ false → option_map agg_in class.now ≢ option_map agg_in other.now }
{
    match class {
        None => other.is_none(),
        Some(agg) => match other {
            None => false,
            Some(other) => same_agg(agg, other),
        },
    }
}

// Whether a touched node has the class of its before-image. Builds both.
#[inline(never)]
fn has_class_of(nodes: &NodeStore, node: u32, was: Option<&Record>) -> bool
    ensures same { result ≡ true → class_in (join (slots.get nodes.now node))
        ≡ class_in (option_copied was.entry) }
    ensures other { result ≡ false → class_in (join (slots.get nodes.now node))
        ≢ class_in (option_copied was.entry) }
{
    is_same_class(&class_in_place(nodes, node), &class_in_image(was))
}

// Whether a touched node has the class of its before-image. Equal classes have one COUNT. So the
// classes are built only if their COUNT is the same.
fn is_unchanged(nodes: &NodeStore, node: u32, was: Option<&Record>) -> bool
    ensures same { result ≡ true → class_in (join (slots.get nodes.now node))
        ≡ class_in (option_copied was.entry) }
    ensures other { result ≡ false → class_in (join (slots.get nodes.now node))
        ≢ class_in (option_copied was.entry) }
{
    if count_in_place(nodes, node) != count_in_image(was) {
        return false;
    }
    has_class_of(nodes, node, was)
}

// Appends the pair of a touched node and its class now, if it had another one or none before. For
// removed classes, before and now are the other way round. There is room for the pair.
fn add_new(
    pairs: &mut Vec<(NodeNo, Agg)>,
    nodes: &NodeStore,
    node: u32,
    was: Option<&Record>,
    added: bool,
)
    requires room { length pairs.old.items < vec_capacity pairs.old }
    ensures adds { AddsNew node
        (class_on_side (option_copied was.entry) (join (slots.get nodes.now node)) (not added))
        (class_on_side (option_copied was.entry) (join (slots.get nodes.now node)) added)
        pairs.old.items pairs.new.items }
    ensures few { length pairs.new.items ≤ length pairs.old.items + 1 }
    ensures room { vec_capacity pairs.new ≡ vec_capacity pairs.old }
{
    if is_unchanged(nodes, node, was) {
        return;
    }
    match class_on_side(nodes, node, was, added) {
        None => {}
        Some(agg) => pairs.push_reserved((NodeNo(node), agg)),
    }
}

// The number of before-images to look through. New nodes stand last, and had no class that could be
// removed.
fn count_of(images: &Touched, added: bool) -> usize
    ensures few { result ≤ length images.now }
    ensures rest { (k : ℕ) (e : _) → result ≤ k → slice_get images.now k ≡ Some e → (added ≡ false)
        × (e.1 ≡ None) }
    ensures once { IsOnce images.now }
{
    if added {
        return images.len();
    }
    images.old_len()
}

/// The pairs of node and aggregate that were added since `begin`, or those that were removed.
pub(crate) fn changed(
    alloc: Global,
    nodes: &NodeStore,
    images: &Touched,
    added: bool,
) -> Result<Vec<(NodeNo, Agg)>, Memory>
    ensures { IfOk result (λ pairs. AreNew
        (from_side added (λ q. class_in (image_or nodes.now images.now q))
        (λ q. class_in (join (slots.get nodes.now q))))
        (to_side added (λ q. class_in (image_or nodes.now images.now q))
        (λ q. class_in (join (slots.get nodes.now q)))) pairs.items) }
{
    let count = count_of(images, added);
    let mut pairs = match Vec::with_capacity(alloc, count) {
        Ok(pairs) => pairs,
        Err(error) => return Err(error),
    };
    'images: for k in 0..count {
        let (node, was) = images.at(k);
        add_new(&mut pairs, nodes, node, was, added);
    }
    Ok(pairs)
}
