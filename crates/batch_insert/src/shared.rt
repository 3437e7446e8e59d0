// The values that the target of an old label and the tuple share.
ghost use Rattle.std.specs.FinMap as map;
ghost use Rattle.std.specs.Prelude.{IfNone, IfSome, IsSome, None, Some, false, if◌then◌else◌, length, nat_eq, slice_index_or, true, ℕ, ◌*◌, ◌+◌, ◌<◌, ◌≡◌, ◌≤◌, ◌^◌};
ghost use Rattle.std.specs.Option.{option_and_then};
ghost use Rattle.cube_defs.specs.Cell as defs;
ghost use Rattle.cube_defs.specs.Tree.{cell_at};
ghost use Rattle.tree_laws.specs.Labels.{target_after_row};
ghost use Rattle.batch_insert.specs.Masks.{Shares};
ghost use Rattle.batch_insert.specs.Standing.{CanShare};

use crate::tuples::{Insertion, tuple_code};
use cell_core::{Code, NodeNo, Steps};
use qc_arena::Nodes;
use std::sync::ledger::Ledger;

/// The node of a prefix of a node's old closure, and whether it is the node itself. None if the
/// node covered no row.
#[derive(Clone, Copy)]
pub(crate) struct OldPrefix {
    pub(crate) node: Option<NodeNo>,
    pub(crate) is_own: bool,
}

/// The mask of the new target of a label with the tuple's value: what the old target and the tuple
/// share, or the tuple's prefix if there was no target. Also, whether that is the old target.
/// `mask` has the values that the chain's node and the tuple share.
pub(crate) fn shared<L: Ledger>(
    insertion: &Insertion<'_>,
    mask: u16,
    chain: OldPrefix,
    old: Option<NodeNo>,
    dim: u8,
    steps: &mut Steps<L>,
) -> (u16, bool)
    requires { CanShare insertion.now.tuple.now insertion.now.arena.now mask dim chain old }
    ensures mask { result.0
        ≡ defs.mask (target_after_row nat_eq
        (option_and_then (λ k. cell_at insertion.now.arena.now.now k.0) old)
        insertion.now.tuple.now dim) }
    ensures shares { IfSome old
        (λ k. Shares insertion.now.tuple.now insertion.now.arena.now.now result.0 result.1 k.0) }
    ensures none { IfNone old (result.1 ≡ false) }
    ensures steps { steps.new ≤ steps.old + (2 * length insertion.now.tuple.now + 2) }
{
    match old {
        None => (prefix_mask(insertion, dim), false),
        Some(node) => common(insertion, mask, chain, node, steps),
    }
}

// The mask of all dimensions up to this one.
fn prefix_mask(insertion: &Insertion<'_>, dim: u8) -> u16
    requires { dim < length insertion.now.tuple.now }
    ensures { result ≡ defs.mask (defs.upto insertion.now.tuple.now dim) }
{
    let bit = 1 << dim;
    bit + (bit - 1)
}

// The mask of what a node and the tuple share. It is read on the way up from the node, to the
// chain's node, whose mask is known, or to the root.
fn common<L: Ledger>(
    insertion: &Insertion<'_>,
    mask: u16,
    chain: OldPrefix,
    node: NodeNo,
    steps: &mut Steps<L>,
) -> (u16, bool)
    requires chain { IfSome chain.node
        (λ k. Shares insertion.now.tuple.now insertion.now.arena.now.now mask chain.is_own k.0) }
    requires node { IsSome (map.get insertion.now.arena.now.now node.0) }
    ensures shares { Shares insertion.now.tuple.now insertion.now.arena.now.now result.0
        result.1 node.0 }
    ensures steps { steps.new ≤ steps.old + (2 * length insertion.now.tuple.now + 2) }
{
    let mut at = node;
    let mut values = 0;
    let mut is_below = true;
    'up: while !is_at(chain.node, at) {
        let Some((dim, code)) = insertion.arena.end_of(at, steps) else {
            return (values, is_below);
        };
        let bit = bit_of(insertion, dim, code);
        values += bit;
        is_below &= bit != 0;
        at = insertion.arena.parent(at, steps).unwrap();
    }
    (values + mask, is_below & chain.is_own)
}

fn is_at(chain: Option<NodeNo>, at: NodeNo) -> bool
    ensures { result ≡ true → chain ≡ Some at }
{
    match chain {
        Some(node) => node.0 == at.0,
        None => false,
    }
}

// The dimension's bit if the tuple has the value there, else 0.
fn bit_of(insertion: &Insertion<'_>, dim: u8, code: Code) -> u16
    requires { dim < length insertion.now.tuple.now }
    ensures { result ≡ (if defs.entry_leq nat_eq (Some code)
        (slice_index_or insertion.now.tuple.now dim None) then 2 ^ dim else 0) }
{
    if code == tuple_code(insertion.tuple, dim) {
        1 << dim
    } else {
        0
    }
}
