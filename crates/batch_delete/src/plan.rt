// The plan for each node that generalizes the tuple, read from the tree before anything changes.
ghost use Rattle.std.specs.Prelude.{IfOk, List, OnOk, Some, length, nat_eq, true, ℕ, ◌*◌, ◌+◌, ◌≡◌, ◌≢◌, ◌≤◌};
ghost use Rattle.std.specs.Option.{option_copied, option_map};
ghost use Rattle.std.specs.Ordering.{eq_by_cmp, nat_cmp};
ghost use Rattle.aggregates.specs.Views.{agg_in};
ghost use Rattle.cube_defs.specs.Cell as cells;
ghost use Rattle.cube_defs.specs.Cell.{cell_of, cell_prefix, leq};
ghost use Rattle.cube_defs.specs.Rows.{closure};
ghost use Rattle.cube_defs.specs.Tree.{cell_at};
ghost use Rattle.cube_laws.specs.Total.{agg_at};
ghost use Rattle.qc_arena.specs.RecordReaders.{number};
ghost use Rattle.tree_search.specs.Found.{IsTreeOf, IsTree, IsNumberOfCell};
ghost use Rattle.batch_delete.specs.declared.generalizing.NodeCell.{NodeCell};
ghost use Rattle.batch_delete.specs.Generalizing.{AreGeneralizing};
ghost use Rattle.batch_delete.specs.Plan.{planned_rest_in, prefix_labels, heir_in, last_any_of, planning_cost};
ghost use Rattle.batch_delete.specs.DeletedRow.{HasGeneralizing, IsDeletion, IsNextPlanned, IsRestOfNode};
ghost use Rattle.batch_delete.specs.Rests.{AreGreaterPlanned, ArePlanned, Deletion, IsRest, rows_after, rows_before, source_before};

use crate::Memory;
use crate::cells::{depth, front};
use crate::deleted_row::DeletedRow;
use crate::generalizing::NodeCell;
use crate::parts::{Rest, class_after};
use aggregates::Agg;
use cell_core::{Cell, Entry, NodeNo, Steps, leq};
use cube_defs::MAX_ROWS;
use indexmap::IndexMap;
use qc_arena::{Nodes, QcArena};
use std::alloc::Global;
use std::sync::ledger::Ledger;
use tree_search::total_at;

/// The plan for a node: the rest of its rows after the deletion, if any are left, and its *heir*.
/// The heir is the node of the prefix of what these rows share, as long as the node's cell. A node
/// that stays is its own heir.
#[derive(Drop)]
pub(crate) struct NodePlan {
    pub after: Option<Rest>,
    pub heir: Option<NodeNo>,
}

/// The node of a cell. Goes down from the root by the cell's values.
pub(crate) fn node_at<L: Ledger>(arena: &QcArena, cell: &Cell, steps: &mut Steps<L>) -> NodeNo
    requires tree { IsTree arena.now.width arena.now.now }
    requires node { (k : ℕ) × (cell_at arena.now.now k ≡ Some cell.now) }
    ensures value { cell_at arena.now.now result.0 ≡ Some cell.now }
    ensures steps { steps.new ≤ steps.old + (length cell.now + 1) }
{
    let mut node = arena.root(steps).unwrap();
    'down: for dim in 0..cell.dims() {
        match cell.get(dim) {
            Entry::Any => {}
            Entry::Is(code) => node = arena.edge(node, dim, code, steps).unwrap(),
        }
    }
    node
}

/// The planned rest of a node's rows.
pub(crate) fn planned_rest(plan: &IndexMap<u32, NodePlan>, node: NodeNo) -> Option<&Rest>
    ensures { option_copied result ≡ planned_rest_in plan.now.entries node.0 }
{
    match plan.get(&node.0) {
        None => None,
        Some(fate) => fate.after.as_ref(),
    }
}

/// A copy of a rest.
pub(crate) fn copied(rest: Option<&Rest>) -> Option<Rest>
    ensures { result ≡ option_copied rest.entry }
{
    match rest {
        None => None,
        Some(rest) => Some(rest.copy()),
    }
}

/// The heir of a node.
pub(crate) fn heir_of(plan: &IndexMap<u32, NodePlan>, node: NodeNo) -> Option<NodeNo>
    ensures { option_map number result ≡ heir_in plan.now.entries node.0 }
{
    match plan.get(&node.0) {
        None => None,
        Some(fate) => fate.heir,
    }
}

// The rest of the rows of a node that generalizes the tuple. The nodes with more values are planned
// already.
fn rest_of<L: Ledger>(
    row: &DeletedRow<'_>,
    plan: &IndexMap<u32, NodePlan>,
    below: &NodeCell,
    steps: &mut Steps<L>,
) -> Option<Rest>
    ghost d: { Deletion }
    requires { IsNextPlanned d row.now plan.now.entries below.now }
    ensures rest { IsRest d.measures (rows_after d) below.now.cell result }
    ensures steps { (list : List NodeCell)
        → AreGeneralizing row.now.arena.now.now row.now.tuple.now (length row.now.tuple.now) list →
        steps.new ≤ steps.old + ((3 * length row.now.tuple.now + 5)
        + (4 * length row.now.tuple.now + 7) * prefix_labels row.now.arena.now.now list
        below.now.cell
        (last_any_of below.now.cell)) }
{
    match row.arena.forced(below.node, steps) {
        Some(forced) => copied(planned_rest(plan, forced.child)),
        None => class_after(row, plan, below, steps),
    }
}

// The heir of a node: the node of the prefix of what its rows share after the deletion, as long as
// its cell. It is the node itself if that is its cell.
fn heir_at<L: Ledger>(
    arena: &QcArena,
    below: &NodeCell,
    after: &Option<Rest>,
    steps: &mut Steps<L>,
) -> Option<NodeNo>
    ghost d: { Deletion }
    requires { IsRestOfNode d arena.now below.now after.now }
    ensures heir { IsNumberOfCell arena.now.now (option_map number result)
        (option_map (cell_prefix (cells.depth below.now.cell))
        (closure (eq_by_cmp nat_cmp) (rows_after d) below.now.cell)) }
    ensures steps { steps.new ≤ steps.old + (length below.now.cell + 1) }
{
    match after {
        None => None,
        Some(rest) => {
            if leq(&rest.shared, &below.cell) {
                return Some(below.node);
            }
            let front = front(&rest.shared, depth(&below.cell));
            if leq(&front, &below.cell) {
                return Some(below.node);
            }
            Some(node_at(arena, &front, steps))
        }
    }
}

// The fate of a node that generalizes the tuple. The nodes with more values are planned already.
fn node_plan_of<L: Ledger>(
    row: &DeletedRow<'_>,
    plan: &IndexMap<u32, NodePlan>,
    below: &NodeCell,
    steps: &mut Steps<L>,
) -> NodePlan
    ghost d: { Deletion }
    requires { IsNextPlanned d row.now plan.now.entries below.now }
    ensures after { IsRest d.measures (rows_after d) below.now.cell result.after }
    ensures heir { IsNumberOfCell row.now.arena.now.now (option_map number result.heir)
        (option_map (cell_prefix (cells.depth below.now.cell))
        (closure (eq_by_cmp nat_cmp) (rows_after d) below.now.cell)) }
    ensures steps { (list : List NodeCell)
        → AreGeneralizing row.now.arena.now.now row.now.tuple.now (length row.now.tuple.now) list →
        steps.new ≤ steps.old + (4 * length row.now.tuple.now + 7)
        * (1 + prefix_labels row.now.arena.now.now list below.now.cell
        (last_any_of below.now.cell)) }
{
    let after = rest_of(row, plan, below, steps);
    let heir = heir_at(row.arena, below, &after, steps);
    NodePlan { after, heir }
}

// Plans for a node.
fn add_node_plan(
    plan: &mut IndexMap<u32, NodePlan>,
    node: NodeNo,
    fate: NodePlan,
) -> Result<(), Memory>
    ensures here { OnOk result (planned_rest_in plan.new.entries node.0 ≡ fate.after) }
    ensures heir { OnOk result (heir_in plan.new.entries node.0 ≡ option_map number fate.heir) }
    ensures others { OnOk result ((q : ℕ) → q ≢ node.0
        → planned_rest_in plan.new.entries q ≡ planned_rest_in plan.old.entries q) }
    ensures heirs { OnOk result ((q : ℕ) → q ≢ node.0
        → heir_in plan.new.entries q ≡ heir_in plan.old.entries q) }
{
    plan.insert(node.0, fate)?;
    Ok(())
}

// Plans the fates of the nodes of a list, from the last one on. So each is planned after its
// descendants.
fn plan_row<L: Ledger>(
    row: &DeletedRow<'_>,
    list: &Vec<NodeCell>,
    plan: &mut IndexMap<u32, NodePlan>,
    steps: &mut Steps<L>,
) -> Result<(), Memory>
    ghost d: { Deletion }
    requires { HasGeneralizing d row.now list.now.items }
    ensures planned { OnOk result
        (ArePlanned d row.now.arena.now.now plan.new.entries list.now.items 0) }
    ensures steps { OnOk result
        (steps.new ≤ steps.old + planning_cost (length row.now.tuple.now) row.now.arena.now.now
        list.now.items list.now.items) }
{
    let many = list.len();
    plan.reserve(many)?;
    'nodes: for k in 0..many {
        let below = &list[many - 1 - k];
        let fate = node_plan_of(row, plan, below, steps);
        add_node_plan(plan, below.node, fate)?;
    }
    Ok(())
}

/// Plans the fates of the nodes that generalize the tuple.
pub(crate) fn plan_all<L: Ledger>(
    alloc: Global,
    arena: &QcArena,
    tuple: &Cell,
    duplicates: Option<Agg>,
    list: &Vec<NodeCell>,
    steps: &mut Steps<L>,
) -> Result<IndexMap<u32, NodePlan>, Memory>
    ghost d: { Deletion }
    requires row { IsDeletion d arena.now tuple.now duplicates }
    requires below { AreGeneralizing arena.now.now tuple.now (length tuple.now) list.now.items }
    ensures planned { IfOk result
        (λ plan. ArePlanned d arena.now.now plan.entries list.now.items 0) }
    ensures steps { IfOk result (λ plan. steps.new ≤ steps.old +
        (2 * length tuple.now + 3 + planning_cost (length tuple.now) arena.now.now list.now.items
        list.now.items)) }
{
    let all = total_at(arena, tuple, steps);
    let row = DeletedRow {
        arena,
        tuple,
        all,
        duplicates,
    };
    let mut plan = IndexMap::new(alloc);
    match plan_row(&row, list, &mut plan, steps) {
        Ok(()) => Ok(plan),
        Err(error) => Err(error),
    }
}
