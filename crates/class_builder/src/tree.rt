// The tree of a table's rows.
ghost use Rattle.std.specs.FinMap as map;
ghost use Rattle.std.specs.Ordering.{nat_cmp};
ghost use Rattle.std.specs.Prelude.{Err, OnOk, length, true, ◌+◌, ◌<◌, ◌≡◌, ◌≤◌};
ghost use Rattle.cube_defs.specs.Tree.{IsCanonical, nodes};
ghost use Rattle.base_table.specs.Places.{named, rows_of};
ghost use Rattle.qc_arena.specs.Map.{frame, is_open};
ghost use Rattle.class_builder.specs.Costs.{cost_of_building};
ghost use Rattle.class_builder.specs.PrefixNodes.{ArePrefixNodes};
ghost use Rattle.class_builder.specs.Stands.{IsFreshArena};

use crate::acts::add_root;
use crate::builder::Builder;
use crate::part::Partition;
use crate::path::Path;
use crate::pool::PartsPool;
use crate::prefix_nodes::PrefixNodes;
use crate::upper::closure_of_all;
use crate::walk::drill;
use base_table::Table;
use cell_closure::{SomeRows, SortedRows};
use cell_core::{Code, Steps};
use cube_laws::same_rows::lists_of_cells_in_order;
use qc_arena::{ArenaRefused, QcArena};
use std::alloc::Global;
use std::sync::ledger::Ledger;
use tree_laws::same_rows::rows_in_any_order;

/// Makes the canonical tree of the table's rows in an open arena without nodes. It is refused as
/// full if and only if the tree has more nodes than the arena allows.
pub fn build_classes<L: Ledger>(
    alloc: Global,
    table: &Table,
    arena: &mut QcArena,
    steps: &mut Steps<L>,
) -> Result<(), ArenaRefused>
    requires opened { is_open arena.old ≡ true }
    requires empty { arena.old.now ≡ map.empty }
    requires width { arena.old.width ≡ table.now.dims }
    ensures tree { OnOk result
        (IsCanonical nat_cmp table.now.measures (rows_of table.now) arena.new.now) }
    ensures fits { OnOk result (length (nodes nat_cmp (rows_of table.now)) ≤ arena.old.max) }
    ensures full { result ≡ Err ArenaRefused.Full
        → arena.old.max < length (nodes nat_cmp (rows_of table.now)) }
    ensures frame { frame arena.new ≡ frame arena.old }
    ensures steps { OnOk result
        (steps.new ≤ steps.old + cost_of_building table.now.dims arena.new.now) }
{
    if table.count() == 0 {
        return Ok(());
    }
    let Ok(rows) = SortedRows::of(alloc, table) else {
        return Err(ArenaRefused::Memory);
    };
    // Laws for the proof: the order of the rows makes no difference. They do nothing at run time.
    rows_in_any_order::<Code>();
    lists_of_cells_in_order::<Code>();
    let built = build_sorted(alloc, &rows, arena, steps);
    drop(rows);
    built
}

/// Makes the tree of sorted rows, of which there are some.
fn build_sorted<L: Ledger>(
    alloc: Global,
    table: &SortedRows,
    arena: &mut QcArena,
    steps: &mut Steps<L>,
) -> Result<(), ArenaRefused>
    requires some { 0 < length (rows_of table.now) }
    requires fresh { IsFreshArena arena.old table.now.dims }
    ensures tree { OnOk result
        (IsCanonical nat_cmp table.now.measures (rows_of table.now) arena.new.now) }
    ensures fits { OnOk result (length (nodes nat_cmp (rows_of table.now)) ≤ arena.old.max) }
    ensures full { result ≡ Err ArenaRefused.Full
        → arena.old.max < length (nodes nat_cmp (rows_of table.now)) }
    ensures frame { frame arena.new ≡ frame arena.old }
    ensures steps { OnOk result
        (steps.new ≤ steps.old + cost_of_building table.now.dims arena.new.now) }
{
    table.recall_invariant();
    let Ok(rows) = table.all(alloc) else {
        return Err(ArenaRefused::Memory);
    };
    let some = SomeRows {
        table,
        numbers: &rows,
    };
    let shared = closure_of_all(alloc, &some);
    let part = Partition {
        table,
        rows: some.numbers,
        shared: &shared,
    };
    let Ok(mut fronts) = PrefixNodes::new(alloc, table) else {
        return Err(ArenaRefused::Memory);
    };
    let mut room = PartsPool::new(alloc);
    let mut builder = Builder {
        arena,
        fronts: &mut fronts,
        room: &mut room,
        steps,
    };
    build_all(&mut builder, &part)
}

/// Builds the tree: first the root, then its descendants. The part has all rows of the table.
fn build_all<L: Ledger>(
    builder: &mut Builder<'_, L>,
    part: &Partition<'_>,
) -> Result<(), ArenaRefused>
    requires all { named part.now.table.now part.now.rows.now ≡ rows_of part.now.table.now }
    requires fresh { IsFreshArena builder.old.arena.now part.now.table.now.dims }
    requires fronts { ArePrefixNodes part.now.table.now builder.old.arena.now
        builder.old.fronts.now }
    ensures tree { OnOk result
        (IsCanonical nat_cmp part.now.table.now.measures
        (rows_of part.now.table.now) builder.new.arena.now.now) }
    ensures fits { OnOk result
        (length (nodes nat_cmp (rows_of part.now.table.now)) ≤ builder.old.arena.now.max) }
    ensures full { result ≡ Err ArenaRefused.Full
        → builder.old.arena.now.max < length (nodes nat_cmp (rows_of part.now.table.now)) }
    ensures frame { frame builder.new.arena.now ≡ frame builder.old.arena.now }
    ensures same { builder.new.arena.ghost_name ≡ builder.old.arena.ghost_name }
    ensures same_steps { builder.new.steps.ghost_name ≡ builder.old.steps.ghost_name }
    ensures steps { OnOk result (builder.new.steps.now ≤ builder.old.steps.now
        + cost_of_building part.now.table.now.dims builder.new.arena.now.now) }
{
    match add_root(builder.arena, builder.steps) {
        Ok(root) => {
            let built = drill(builder, part, 0, &mut Path::start(root));
            is_within(builder.arena);
            built
        }
        Err(error) => Err(error),
    }
}

/// The arena has at most its greatest number of nodes.
fn is_within(arena: &QcArena)
    ensures { map.len arena.now.now ≤ arena.now.max }
{
    let _nodes = arena.live();
}
