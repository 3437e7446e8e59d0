// The changes of one node that generalizes the tuple. Each leaves all other nodes as they are.
ghost use Rattle.std.specs.FinMap as map;
ghost use Rattle.std.specs.Prelude.{Err, IfOk, None, OnOk, Some, nat_eq, true, ℕ, ◌+◌, ◌↔◌, ◌≡◌, ◌≢◌};
ghost use Rattle.std.specs.Option.{option_map};
ghost use Rattle.cube_defs.specs.Cell.{leq};
ghost use Rattle.qc_arena.specs.Edges.{with_edge};
ghost use Rattle.qc_arena.specs.Map.{is_touched, new_record};
ghost use Rattle.batch_insert.specs.Invariants.{CanAddNew, CanLead, CanRewrite, CanTouch, KeepsNodes};

use crate::Memory;
use cell_core::{Cell, Code, NodeNo, Steps};
use qc_arena::{ArenaRefused, QcArena};
use std::sync::ledger::Ledger;

/// Touches an existing node.
pub(crate) fn touch_old<L: Ledger>(
    arena: &mut QcArena,
    tuple: &Cell,
    node: NodeNo,
    steps: &mut Steps<L>,
) -> Result<(), Memory>
    requires { CanTouch tuple.now arena.old node.0 }
    ensures keeps { KeepsNodes tuple.now arena.old arena.new }
    ensures touched { OnOk result (is_touched arena.new node.0 ≡ true) }
    ensures now { arena.new.now ≡ arena.old.now }
    ensures steps { steps.new ≡ steps.old + 1 }
{
    match arena.touch(node, steps) {
        Ok(()) => Ok(()),
        Err(error) => Err(error),
    }
}

/// Adds a node.
pub(crate) fn add_new<L: Ledger>(
    arena: &mut QcArena,
    tuple: &Cell,
    under: Option<(NodeNo, u8, Code)>,
    steps: &mut Steps<L>,
) -> Result<NodeNo, ArenaRefused>
    requires { CanAddNew tuple.now arena.old under }
    ensures keeps { KeepsNodes tuple.now arena.old arena.new }
    ensures here { IfOk result
        (λ k. map.get arena.new.now k.0 ≡ Some (new_record arena.old.width arena.old.now under)) }
    ensures touched { IfOk result (λ k. is_touched arena.new k.0 ≡ true) }
    ensures others { IfOk result (λ k. (q : ℕ) → q ≢ k.0
        → map.get arena.new.now q ≡ map.get arena.old.now q) }
    ensures free { IfOk result (λ k. map.get arena.old.now k.0 ≡ None) }
    ensures full { (result ≡ Err ArenaRefused.Full) ↔ (map.len arena.old.now ≡ arena.old.max) }
    ensures steps { steps.new ≡ steps.old + 1 }
{
    match arena.add_node(under, steps) {
        Ok(node) => Ok(node),
        Err(error) => Err(error),
    }
}

/// Sets an edge.
pub(crate) fn put_label<L: Ledger>(
    arena: &mut QcArena,
    tuple: &Cell,
    node: NodeNo,
    label: (u8, Code, NodeNo),
    steps: &mut Steps<L>,
) -> Result<(), Memory>
    requires node { CanRewrite tuple.now arena.old node.0 }
    requires label { CanLead arena.old label.0 label.1 label.2.0 }
    ensures keeps { KeepsNodes tuple.now arena.old arena.new }
    ensures here { OnOk result (map.get arena.new.now node.0
        ≡ option_map (with_edge (record { dim = label.0; value = label.1; target = label.2.0 }))
        (map.get arena.old.now node.0)) }
    ensures others { (q : ℕ) → q ≢ node.0 → map.get arena.new.now q ≡ map.get arena.old.now q }
    ensures steps { steps.new ≡ steps.old + 1 }
{
    match arena.set_edge(node, label.0, label.1, label.2, steps) {
        Ok(()) => Ok(()),
        Err(error) => Err(error),
    }
}
