// Edges to existing nodes.
ghost use Rattle.std.specs.FinMap as map;
ghost use Rattle.cell_core.specs.Entry.{IsCode};
ghost use Rattle.std.specs.Prelude.{IsSome, List, OnOk, Some, [], false, if◌then◌else◌, ℕ, ◌+◌, ◌<◌, ◌∷◌, ◌≡◌, ◌≤◌};
ghost use Rattle.cube_defs.specs.Cell.{Cell};
ghost use Rattle.cube_defs.specs.Rows.{Row};
ghost use Rattle.cube_defs.specs.Tree.{cell_at};
ghost use Rattle.build_trace.specs.Trace.{Act.{Label}};
ghost use Rattle.qc_arena.specs.Map.{CanChange, frame};
ghost use Rattle.class_builder.specs.Building.{PerformsActs};

use crate::Memory;
use cell_core::{Code, NodeNo, Steps};
use qc_arena::{Forced, QcArena};
use std::sync::ledger::Ledger;

/// Sets a link: an edge to a node that is no child.
pub fn set_link<L: Ledger>(
    arena: &mut QcArena,
    node: NodeNo,
    dim: u8,
    code: Code,
    target: NodeNo,
    steps: &mut Steps<L>,
) -> Result<(), Memory>
    requires change { CanChange arena.old node.0 }
    requires target { IsSome (map.get arena.old.now target.0) }
    requires dim { dim < arena.old.width }
    requires code { IsCode code }
    ensures made { OnOk result ((measures : ℕ) (rows : List (Row ℕ)) (f t : Cell ℕ)
        → cell_at arena.old.now node.0 ≡ Some f →
        cell_at arena.old.now target.0 ≡ Some t
        → PerformsActs measures rows (Label false f dim code t ∷ []) arena.old arena.new) }
    ensures frame { frame arena.new ≡ frame arena.old }
    ensures steps { steps.new ≤ steps.old + 1 }
{
    put_label(arena, node, (dim, code, target), false, steps)
}

// Sets an edge. With `is_forced`, its target becomes the forced child.
pub(crate) fn put_label<L: Ledger>(
    arena: &mut QcArena,
    node: NodeNo,
    label: (u8, Code, NodeNo),
    is_forced: bool,
    steps: &mut Steps<L>,
) -> Result<(), Memory>
    requires change { CanChange arena.old node.0 }
    requires target { IsSome (map.get arena.old.now label.2.0) }
    requires dim { label.0 < arena.old.width }
    requires code { IsCode label.1 }
    ensures made { OnOk result ((measures : ℕ) (rows : List (Row ℕ)) (f t : Cell ℕ)
        → cell_at arena.old.now node.0 ≡ Some f →
        cell_at arena.old.now label.2.0 ≡ Some t
        → PerformsActs measures rows (Label is_forced f label.0 label.1 t ∷ [])
        arena.old arena.new) }
    ensures frame { frame arena.new ≡ frame arena.old }
    ensures steps { steps.new ≤ steps.old + (if is_forced then 2 else 1) }
{
    match arena.set_edge(node, label.0, label.1, label.2, steps) {
        Ok(()) => {}
        Err(error) => return Err(error),
    }
    if is_forced {
        let forced = Forced {
            dim: label.0,
            code: label.1,
            child: label.2,
        };
        arena.set_forced(node, Some(forced), steps);
    }
    Ok(())
}
