// The labels of a node by dimension.
ghost use Rattle.std.specs.FinMap as map;
ghost use Rattle.std.specs.Prelude.{IsSome, Some, length, slice_get, ℕ, ◌+◌, ◌<◌, ◌≡◌, ◌≤◌};
ghost use Rattle.qc_arena.specs.RecordReaders.{record_at};

use cell_core::{NodeNo, Steps};
use qc_arena::{Nodes, QcArena};
use std::sync::ledger::Ledger;

/// The place of the node's first label in a dimension or a later one, by binary search. The labels
/// before `from` are in earlier dimensions.
pub(crate) fn first_label<L: Ledger>(
    arena: &QcArena,
    node: NodeNo,
    dim: u16,
    from: u32,
    steps: &mut Steps<L>,
) -> u32
    requires node { IsSome (map.get arena.now.now node.0) }
    requires from { from ≤ length (record_at arena.now.now node.0).edges }
    requires earlier { (k : ℕ) (x : _) → k < from
        → slice_get (record_at arena.now.now node.0).edges k ≡ Some x → x.dim < dim }
    ensures from { from ≤ result }
    ensures within { result ≤ length (record_at arena.now.now node.0).edges }
    ensures before { (k : ℕ) (x : _) → k < result
        → slice_get (record_at arena.now.now node.0).edges k ≡ Some x → x.dim < dim }
    ensures behind { (k : ℕ) (x : _) → result ≤ k
        → slice_get (record_at arena.now.now node.0).edges k ≡ Some x → dim ≤ x.dim }
    ensures steps { steps.new ≤ steps.old + (1 + length (record_at arena.now.now node.0).edges) }
{
    let mut first = from;
    let mut end = arena.edge_count(node, steps);
    'halves: while first < end {
        let middle = first + (end - first) / 2;
        let (at, _, _) = arena.edge_at(node, middle, steps);
        if (at as u16) < dim {
            first = middle + 1;
        } else {
            end = middle;
        }
    }
    first
}
