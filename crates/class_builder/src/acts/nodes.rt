// New nodes.
ghost use Rattle.cell_core.specs.Entry.{IsCode};
ghost use Rattle.std.specs.Ordering.{nat_cmp};
ghost use Rattle.std.specs.Prelude.{Err, IfOk, List, None, OnOk, Some, [], length, replicate, true, ℕ, ◌+◌, ◌<◌, ◌∷◌, ◌≡◌, ◌≢◌, ◌≤◌};
ghost use Rattle.cube_defs.specs.Cell.{Cell, depth, with_value};
ghost use Rattle.cube_defs.specs.Rows.{Row};
ghost use Rattle.cube_defs.specs.Tree.{cell_at, nodes};
ghost use Rattle.build_trace.specs.Trace.{Act.{Add, Label}};
ghost use Rattle.qc_arena.specs.Map.{CanChange, frame, is_open};
ghost use Rattle.qc_arena.specs.RecordReaders.{record_at};
ghost use Rattle.class_builder.specs.Building.{PerformsActs, ActsComeNext};

use crate::acts::labels::put_label;
use cell_core::{Code, NodeNo, Steps};
use qc_arena::{ArenaRefused, QcArena};
use std::sync::ledger::Ledger;

/// Adds the root, which has no values.
pub fn add_root<L: Ledger>(
    arena: &mut QcArena,
    steps: &mut Steps<L>,
) -> Result<NodeNo, ArenaRefused>
    requires opened { is_open arena.old ≡ true }
    requires none { (k : ℕ) → cell_at arena.old.now k ≢ Some (replicate arena.old.width None) }
    ensures made { OnOk result ((measures : ℕ) (rows : List (Row ℕ)) →
        PerformsActs measures rows (Add (replicate arena.old.width None) ∷ [])
        arena.old arena.new) }
    ensures here { IfOk result
        (λ k. cell_at arena.new.now k.0 ≡ Some (replicate arena.old.width None)) }
    ensures full { result ≡ Err ArenaRefused.Full → (measures : ℕ) (rows : List (Row ℕ)) →
        ActsComeNext measures rows (Add (replicate arena.old.width None) ∷ []) arena.old
        → arena.old.max < length (nodes nat_cmp rows) }
    ensures frame { frame arena.new ≡ frame arena.old }
    ensures steps { steps.new ≡ steps.old + 1 }
{
    arena.add_node(None, steps)
}

/// Adds a child with one more value than its parent, and the edge to it. With `is_forced`, it
/// becomes the forced child.
pub fn add_child<L: Ledger>(
    arena: &mut QcArena,
    parent: NodeNo,
    dim: u8,
    code: Code,
    is_forced: bool,
    steps: &mut Steps<L>,
) -> Result<NodeNo, ArenaRefused>
    requires change { CanChange arena.old parent.0 }
    requires behind { depth (record_at arena.old.now parent.0).cell ≤ dim }
    requires dim { dim < arena.old.width }
    requires code { IsCode code }
    ensures made { OnOk result ((measures : ℕ) (rows : List (Row ℕ)) (f : Cell ℕ)
        → cell_at arena.old.now parent.0 ≡ Some f
        → PerformsActs measures rows
        (Add (with_value f dim code) ∷ Label is_forced f dim code (with_value f dim code) ∷ [])
        arena.old arena.new) }
    ensures here { IfOk result (λ k. (f : Cell ℕ) → cell_at arena.old.now parent.0 ≡ Some f
        → cell_at arena.new.now k.0 ≡ Some (with_value f dim code)) }
    ensures full { result ≡ Err ArenaRefused.Full
        → (measures : ℕ) (rows : List (Row ℕ)) (f : Cell ℕ)
        → cell_at arena.old.now parent.0 ≡ Some f
        → ActsComeNext measures rows
        (Add (with_value f dim code) ∷ Label is_forced f dim code (with_value f dim code)
        ∷ []) arena.old
        → arena.old.max < length (nodes nat_cmp rows) }
    ensures frame { frame arena.new ≡ frame arena.old }
    ensures steps { steps.new ≤ steps.old + 3 }
{
    let child = match arena.add_node(Some((parent, dim, code)), steps) {
        Ok(child) => child,
        Err(error) => return Err(error),
    };
    match put_label(arena, parent, (dim, code, child), is_forced, steps) {
        Ok(()) => Ok(child),
        Err(_) => Err(ArenaRefused::Memory),
    }
}
