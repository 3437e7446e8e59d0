// The numbers of all classes.
ghost use Rattle.std.specs.Prelude.{IfOk, IsSome, is_some, if◌then◌else◌, length, true, ℕ, ◌+◌, ◌++◌, ◌<◌, ◌∷◌, [], ◌≡◌, ◌≤◌};
ghost use Rattle.std.specs.FinMap as map;
ghost use Rattle.std.specs.Ordering.{nat_cmp};
ghost use Rattle.std.specs.Vec.{vec_capacity};
ghost use Rattle.slab.specs.Slab as slots;
ghost use Rattle.tree_laws.specs.Counts.{classes_in};
ghost use Rattle.qc_arena.specs.Changes.{AreClassNumbers, class_in};
ghost use Rattle.qc_arena.specs.Inside.{join, now_of};

use crate::Memory;
use crate::node_store::NodeStore;
use cell_core::{NodeNo, Steps};
use std::alloc::Global;
use std::sync::ledger::Ledger;

// Whether the node at a place is a class. Takes a step if there is a node.
fn is_class_at<L: Ledger>(nodes: &NodeStore, place: usize, steps: &mut Steps<L>) -> bool
    requires { IsSome (join (slots.get nodes.now place)) → place < 4294967296 }
    ensures value { result ≡ is_some (class_in (join (slots.get nodes.now place))) }
    ensures steps { steps.new ≡ steps.old
        + (if is_some (join (slots.get nodes.now place)) then 1 else 0) }
{
    if !nodes.has(place) {
        return false;
    }
    steps.tick();
    nodes.is_class(place as u32)
}

// Appends the number of a place, if its node is a class. There is room for it.
fn add_number(numbers: &mut Vec<NodeNo>, place: usize, is_class: bool)
    requires small { is_class ≡ true → place < 4294967296 }
    requires room { is_class ≡ true → length numbers.old.items < vec_capacity numbers.old }
    ensures added { numbers.new.items ≡ (if is_class
        then numbers.old.items ++ record { 0 = place } ∷ [] else numbers.old.items) }
    ensures room { vec_capacity numbers.new ≡ vec_capacity numbers.old }
{
    if is_class {
        numbers.push_reserved(NodeNo(place as u32));
    }
}

/// The numbers of all classes, rising. Takes a step for each node.
pub(crate) fn numbers_of_classes<L: Ledger>(
    alloc: Global,
    nodes: &NodeStore,
    classes: u32,
    steps: &mut Steps<L>,
) -> Result<Vec<NodeNo>, Memory>
    requires small { (q : ℕ) → IsSome (join (slots.get nodes.now q)) → q < 4294967296 }
    requires classes { classes ≡ classes_in nat_cmp (now_of nodes.now) }
    ensures numbers { IfOk result
        (λ numbers. AreClassNumbers (λ q. class_in (join (slots.get nodes.now q))) numbers.items) }
    ensures steps { steps.new ≤ steps.old + map.len (now_of nodes.now) }
{
    let mut numbers = match Vec::with_capacity(alloc, classes as usize) {
        Ok(numbers) => numbers,
        Err(error) => return Err(error),
    };
    'places: for place in 0..nodes.capacity() {
        let is_class = is_class_at(nodes, place, steps);
        add_number(&mut numbers, place, is_class);
    }
    Ok(numbers)
}
