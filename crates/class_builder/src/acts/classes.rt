// Marks of classes.
ghost use Rattle.std.specs.Prelude.{List, Some, [], ℕ, ◌+◌, ◌∷◌, ◌≡◌};
ghost use Rattle.aggregates.specs.Views.{agg_in};
ghost use Rattle.cube_defs.specs.Cell.{Cell};
ghost use Rattle.cube_defs.specs.Rows.{Row};
ghost use Rattle.cube_defs.specs.Tree.{cell_at};
ghost use Rattle.build_trace.specs.Trace.{Act.{Mark}};
ghost use Rattle.qc_arena.specs.Map.{CanChange, frame};
ghost use Rattle.class_builder.specs.Building.{PerformsActs};

use aggregates::Agg;
use cell_core::{NodeNo, Steps};
use qc_arena::QcArena;
use std::sync::ledger::Ledger;

/// Marks the node as a class with the aggregate of its rows.
pub fn mark_class<L: Ledger>(arena: &mut QcArena, node: NodeNo, agg: Agg, steps: &mut Steps<L>)
    requires change { CanChange arena.old node.0 }
    ensures made { (measures : ℕ) (rows : List (Row ℕ)) (w : Cell ℕ)
        → cell_at arena.old.now node.0 ≡ Some w
        → PerformsActs measures rows (Mark w (agg_in agg) ∷ []) arena.old arena.new }
    ensures frame { frame arena.new ≡ frame arena.old }
    ensures steps { steps.new ≡ steps.old + 1 }
{
    arena.set_class(node, Some(agg), steps);
}
