// The values that all cells of a class have.
ghost use Rattle.std.specs.FinMap as map;
ghost use Rattle.std.specs.Prelude.{IsSome, None, Some, false, if◌then◌else◌, length, slice_set, ◌*◌, ◌+◌, ◌<◌, ◌≡◌, ◌≤◌};
ghost use Rattle.std.specs.Ordering.{eq_by_cmp, nat_cmp};
ghost use Rattle.qc_arena.specs.RecordReaders.{record_at};
ghost use Rattle.tree_laws.specs.Walk.{walk_on};
ghost use Rattle.tree_search.specs.Found.{IsTreeOf, TreeRows};
ghost use Rattle.cells_below.specs.Closed.{AreNeeded, IsReached, has_closure_in};
ghost use Rattle.cells_below.specs.Numbers.{has_all, turned};

use crate::numbers::flip_bit;
use crate::upper::UpperBound;
use cell_core::{Entry, NodeNo, Steps};
use cube_defs::MAX_DIMS;
use qc_arena::Nodes;
use std::sync::ledger::Ledger;
use tree_search::{CanonicalTree, step};

// The needed bits, with bit k added if the cell without its value has another closure.
fn with_needed_bit(needed: u32, k: u32, closes: bool) -> u32
    requires { k < 32 }
    ensures { result ≡ (if closes then needed else turned needed k) }
{
    if closes { needed } else { flip_bit(needed, k) }
}

// Whether the forced child of a node is in this dimension. If not, a search for Any stays.
fn is_forced_in<T: Nodes, L: Ledger>(
    tree: &CanonicalTree<T>,
    node: NodeNo,
    dim: u8,
    steps: &mut Steps<L>,
) -> bool
    requires { IsSome (map.get tree.now.tree node.0) }
    ensures stays { result ≡ false → walk_on (eq_by_cmp nat_cmp) node.0
        (record_at tree.now.tree node.0) dim None ≡ Some node.0 }
    ensures steps { steps.new ≤ steps.old + 1 }
{
    match tree.forced(node, steps) {
        Some(forced) => forced.dim == dim,
        None => false,
    }
}

// False only if the upper bound without its value in a dimension has another closure. The node is
// where the search for the upper bound stands before that dimension. If its forced child is in that
// dimension, the value comes by itself.
fn closes_without<T: Nodes, L: Ledger>(
    upper: &UpperBound<T>,
    node: NodeNo,
    dim: u8,
    steps: &mut Steps<L>,
) -> bool
    requires dim { dim < length upper.now.cell.now }
    requires few { length upper.now.cell.now ≤ MAX_DIMS }
    requires node { IsSome (map.get upper.now.tree.now.tree node.0) }
    requires reached { (source : TreeRows) →
        IsTreeOf upper.now.tree.now.width upper.now.tree.now.tree source →
        IsReached upper.now.tree.now.tree source upper.now.cell.now node.0 dim }
    ensures opens { (source : TreeRows) →
        IsTreeOf upper.now.tree.now.width upper.now.tree.now.tree source →
        result ≡ false →
        has_closure_in source upper.now.cell.now (slice_set upper.now.cell.now dim None) ≡ false }
    ensures steps { steps.new + 2 * dim < steps.old + 2 * length upper.now.cell.now }
{
    if is_forced_in(upper.tree, node, dim, steps) {
        return true;
    }
    match upper.tree.find_from(node, dim + 1, upper.cell, steps) {
        Some(found) => found.0 == upper.node.0,
        None => false,
    }
}

/// A bit mask of the needed values: those that each cell of the class has. A value is needed if the
/// upper bound without it alone has another closure. One search for the upper bound finds where the
/// searches without a value leave it.
pub fn needed<T: Nodes, L: Ledger>(upper: &UpperBound<T>, steps: &mut Steps<L>) -> u32
    ensures value { (source : TreeRows) →
        IsTreeOf upper.now.tree.now.width upper.now.tree.now.tree source →
        AreNeeded source upper.now.cell.now result }
    ensures steps { steps.new ≤ steps.old + upper.now.values * (2 * length upper.now.cell.now + 2) }
{
    let mut needed = 0;
    let mut left = upper.values;
    if left == 0 {
        return needed;
    }
    let Some(root) = upper.tree.root(steps) else {
        return needed;
    };
    let mut node = root;
    'dims: for dim in 0..upper.tree.dims() {
        let entry = upper.cell.get(dim);
        if let Entry::Is(_) = entry {
            left -= 1;
            let closes = closes_without(upper, node, dim, steps);
            needed = with_needed_bit(needed, left, closes);
            if left == 0 {
                return needed;
            }
        }
        let Some(next) = step(upper.tree, node, dim, entry, steps) else {
            return needed;
        };
        node = next;
    }
    needed
}

/// Whether a number has all bits of another.
pub(crate) fn has_all_bits(m: u32, bits: u32) -> bool
    ensures { result ≡ has_all m bits }
{
    m | bits == m
}
