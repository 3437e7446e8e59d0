// The forced children and the classes of the nodes that generalize the tuple.
ghost use Rattle.std.specs.Prelude.{◌+◌, ◌*◌, All, IfSome, IsSome, None, Some, [], ◌∷◌, slice_index_or, ℕ, ◌≢◌, is_some, length, true, ◌≡◌, ◌≤◌};
ghost use Rattle.aggregates.specs.Rows.{agg_of_row};
ghost use Rattle.aggregates.specs.Views.{agg_in};
ghost use Rattle.std.specs.Option.{option_map};
ghost use Rattle.batch_insert.specs.Numbered.{numbered};
ghost use Rattle.qc_arena.specs.Map.{with_class, with_forced};
ghost use Rattle.std.specs.FinMap as map;
ghost use Rattle.batch_insert.specs.Stages.{HaveEnded};
ghost use Rattle.batch_insert.specs.Invariants.{CanRewrite, KeepsNodes};
ghost use Rattle.batch_insert.specs.Planned.{CanEndAll, CanGetForced, TakesMore, sum_with};

use crate::numbers::Numbers;
use crate::plan::{ForcedChild, NodeKind};
use crate::tuples::{InsertedRow, tuple_code};
use aggregates::Agg;
use cell_core::{Cell, NodeNo, Steps};
use qc_arena::{Forced, QcArena};
use std::sync::ledger::Ledger;

/// Gives each node its forced child or its class.
pub(crate) fn set_kinds<L: Ledger>(
    ends: &[NodeKind],
    row: &InsertedRow<'_>,
    numbers: &Numbers,
    arena: &mut QcArena,
    steps: &mut Steps<L>,
)
    requires { CanEndAll row.now.tuple.now (length row.now.amounts.now) arena.old
        (numbered numbers.now) ends.now }
    ensures keeps { KeepsNodes row.now.tuple.now arena.old arena.new }
    ensures done { HaveEnded row.now.tuple.now row.now.amounts.now (numbered numbers.now) ends.now
        arena.old.now arena.new.now }
    ensures steps { steps.new ≤ steps.old + 2 * length ends.now }
{
    'ends: for k in 0..ends.len() {
        set_kind(ends[k], row, numbers, arena, steps);
    }
}

fn set_kind<L: Ledger>(
    end: NodeKind,
    row: &InsertedRow<'_>,
    numbers: &Numbers,
    arena: &mut QcArena,
    steps: &mut Steps<L>,
)
    requires { CanEndAll row.now.tuple.now (length row.now.amounts.now) arena.old
        (numbered numbers.now) (end ∷ []) }
    ensures keeps { KeepsNodes row.now.tuple.now arena.old arena.new }
    ensures done { HaveEnded row.now.tuple.now row.now.amounts.now (numbered numbers.now)
        (end ∷ []) arena.old.now arena.new.now }
    ensures steps { steps.new ≤ steps.old + 2 }
{
    let node = numbers.number_of(end.mask);
    match end.forced {
        Some(forcing) => set_forced_child(node, forcing, row, numbers, arena, steps),
        None => {
            let agg = with_row(end.before, row);
            mark(node, agg, row, arena, steps);
        }
    }
}

fn set_forced_child<L: Ledger>(
    node: NodeNo,
    forcing: ForcedChild,
    row: &InsertedRow<'_>,
    numbers: &Numbers,
    arena: &mut QcArena,
    steps: &mut Steps<L>,
)
    requires { CanGetForced row.now.tuple.now arena.old (numbered numbers.now) node.0 forcing }
    ensures keeps { KeepsNodes row.now.tuple.now arena.old arena.new }
    ensures here { (l : ℕ) × (v : ℕ) × (numbered numbers.now forcing.child ≡ Some l)
        × (slice_index_or row.now.tuple.now forcing.dim None ≡ Some v)
        × (map.get arena.new.now node.0
        ≡ option_map (with_forced (Some (record { dim = forcing.dim; value = v; target = l })))
        (map.get arena.old.now node.0)) }
    ensures others { (q : ℕ) → q ≢ node.0 → map.get arena.new.now q ≡ map.get arena.old.now q }
    ensures steps { steps.new ≡ steps.old + 1 }
{
    let child = numbers.number_of(forcing.child);
    let forced = Forced {
        dim: forcing.dim,
        code: tuple_code(row.tuple, forcing.dim),
        child,
    };
    arena.set_forced(node, Some(forced), steps);
}

// The aggregate with the row: that of the earlier rows, if there are any, and the row's amounts.
fn with_row(before: Option<Agg>, row: &InsertedRow<'_>) -> Agg
    requires { IfSome before (λ a. TakesMore (length row.now.amounts.now) a) }
    ensures { agg_in result ≡ sum_with (option_map agg_in before) (agg_of_row row.now.amounts.now) }
{
    match before {
        Some(agg) => {
            let mut more = agg;
            more.add_row(row.amounts);
            more
        }
        None => Agg::one(row.amounts),
    }
}

fn mark<L: Ledger>(
    node: NodeNo,
    agg: Agg,
    row: &InsertedRow<'_>,
    arena: &mut QcArena,
    steps: &mut Steps<L>,
)
    requires { CanRewrite row.now.tuple.now arena.old node.0 }
    ensures keeps { KeepsNodes row.now.tuple.now arena.old arena.new }
    ensures here { map.get arena.new.now node.0 ≡ option_map (with_class (Some (agg_in agg)))
        (option_map (with_forced None) (map.get arena.old.now node.0)) }
    ensures others { (q : ℕ) → q ≢ node.0 → map.get arena.new.now q ≡ map.get arena.old.now q }
    ensures steps { steps.new ≡ steps.old + 2 }
{
    arena.set_forced(node, None, steps);
    arena.set_class(node, Some(agg), steps);
}
