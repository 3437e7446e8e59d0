// The deletion of a row.
ghost use Rattle.std.specs.FinMap as map;
ghost use Rattle.std.specs.Option.{option_map};
ghost use Rattle.std.specs.Ordering.{eq_by_cmp, nat_cmp};
ghost use Rattle.std.specs.Prelude.{OnOk, Some, false, length, nat_eq, true, ℕ, ◌*◌, ◌+◌, ◌^◌, ◌≡◌, ◌≤◌};
ghost use Rattle.aggregates.specs.Views.{agg_in};
ghost use Rattle.cube_defs.specs.Cell as defs;
ghost use Rattle.cube_defs.specs.Rows.{is_node};
ghost use Rattle.cube_defs.specs.Tree.{affected_size, cell_at};
ghost use Rattle.cube_laws.specs.Total.{agg_at};
ghost use Rattle.qc_arena.specs.Map.{Known, frame, is_open, is_touched};
ghost use Rattle.tree_search.specs.Found.{IsTreeOf};
ghost use Rattle.batch_delete.specs.Gone.{source_after};
ghost use Rattle.batch_delete.specs.Rests.{Deletion, rows_after, rows_before, source_before};

use crate::Memory;
use crate::generalizing::{collect, touch_all};
use crate::plan::plan_all;
use crate::record_rewriting::rewrite_or_remove_all;
use aggregates::Agg;
use cell_core::{Cell, Steps};
use cube_defs::MAX_ROWS;
use qc_arena::QcArena;
use std::alloc::Global;
use std::sync::ledger::Ledger;

/// Makes the canonical tree of some rows that of these rows without one, in place (QC-trees:
/// Lakshmanan, Pei, Zhao, SIGMOD 2003). `rest` is the aggregate of the other rows with the same
/// tuple, if there are any. A cell that stays a node keeps its number, and no node is added. A node
/// that doesn't generalize the tuple keeps its whole record and isn't touched. It is refused only
/// when out of memory. Then the arena has no tree, and only `rollback` may follow.
pub fn delete_row<L: Ledger>(
    alloc: Global,
    arena: &mut QcArena,
    tuple: &Cell,
    rest: Option<Agg>,
    steps: &mut Steps<L>,
) -> Result<(), Memory>
    ghost deletion: { Deletion }
    requires opened { is_open arena.old ≡ true }
    requires width { length tuple.now ≡ arena.old.width }
    requires tree { IsTreeOf arena.old.width arena.old.now (source_before deletion) }
    requires tuple { tuple.now ≡ defs.cell_of deletion.r.tuple }
    requires few { length (rows_before deletion) ≤ MAX_ROWS }
    requires rest { option_map agg_in rest ≡ agg_at (eq_by_cmp nat_cmp) deletion.measures
        (rows_after deletion) tuple.now }
    ensures tree { OnOk result (IsTreeOf arena.old.width arena.new.now (source_after deletion)) }
    ensures numbers { OnOk result ((k : ℕ) (c : defs.Cell ℕ) → cell_at arena.old.now k ≡ Some c
        → is_node (eq_by_cmp nat_cmp) (rows_after deletion) c ≡ true →
        cell_at arena.new.now k ≡ Some c) }
    ensures none_new { OnOk result ((k : ℕ) (c : defs.Cell ℕ) → cell_at arena.new.now k ≡ Some c
        → cell_at arena.old.now k ≡ Some c) }
    ensures apart { (k : ℕ) (n : Known) → map.get arena.old.now k ≡ Some n
        → defs.leq nat_eq n.cell tuple.now ≡ false → map.get arena.new.now k ≡ Some n }
    ensures touched { OnOk result ((k : ℕ) → is_touched arena.new k ≡ true
        → is_touched arena.old k ≡ false →
        (c : defs.Cell ℕ) × (cell_at arena.old.now k ≡ Some c)
        × (defs.leq nat_eq c tuple.now ≡ true)) }
    ensures frame { frame arena.new ≡ frame arena.old }
    ensures steps { OnOk result (steps.new ≤ steps.old + 256 * (length tuple.now + 1) ^ 2 *
        (affected_size nat_cmp (rows_before deletion) (rows_after deletion) deletion.r.tuple + 1)) }
{
    let list = match collect(alloc, arena, tuple, steps) {
        Ok(list) => list,
        Err(error) => return Err(error),
    };
    match touch_all(arena, &list, steps) {
        Ok(()) => {}
        Err(error) => return Err(error),
    }
    let plan = match plan_all(alloc, arena, tuple, rest, &list, steps) {
        Ok(plan) => plan,
        Err(error) => return Err(error),
    };
    rewrite_or_remove_all(arena, tuple, &plan, &list, steps)
}
