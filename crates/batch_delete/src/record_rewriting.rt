// The new records of the nodes that stay.
ghost use Rattle.std.specs.FinMap as map;
ghost use Rattle.std.specs.Prelude.{IfSome, IsSome, None, OnOk, Some, length, slice_get, slice_index_or, true, ℕ, ◌*◌, ◌+◌, ◌<◌, ◌≡◌, ◌≢◌, ◌≤◌};
ghost use Rattle.aggregates.specs.Views.{agg_in};
ghost use Rattle.batch_delete.specs.declared.generalizing.NodeCell.{NodeCell};
ghost use Rattle.qc_arena.specs.Map.{CanChange, frame, is_touched, with_forced};
ghost use Rattle.cell_core.specs.Entry.{IsCode};
ghost use Rattle.std.specs.Option.{option_and_then, option_copied, option_map};
ghost use Rattle.qc_arena.specs.Edges.{rises};
ghost use Rattle.qc_arena.specs.RecordReaders.{edge_of, number, record_at};
ghost use Rattle.batch_delete.specs.Plan.{CanForce, CanRedirect, CanRedirectFrom, CanRedirectIn, CanRewrite, CanRewriteAll, CanRewriteOrRemove, ChangesOnly, IsNewRest, class_by, forced_by, heir_in, heir_target, is_left, left_to, outcome, rest_if_own_heir_of, rest_if_stays_in, rewriting_cost, rewritten, with_mixed, with_own, with_target};

use crate::Memory;
use crate::cells::{depth, next_value};
use crate::generalizing::NodeCell;
use crate::labels::first_label;
use crate::parts::Rest;
use crate::plan::{NodePlan, heir_of};
use aggregates::Agg;
use cell_core::{Cell, Code, Entry, NodeNo, Steps, leq};
use indexmap::IndexMap;
use qc_arena::{Forced, Nodes, QcArena};
use std::sync::ledger::Ledger;

// Whether an edge with the label may stay: before the dimension of the next value, or with the next
// value itself.
fn is_left(next: Option<(u8, Code)>, dim: u8, code: Code) -> bool
    ensures { result ≡ is_left next dim code }
{
    match next {
        None => true,
        Some((at, value)) => dim < at || dim == at && code == value,
    }
}

// The number of edges before the dimension of the next value. All of them may stay.
fn left_count<L: Ledger>(
    arena: &QcArena,
    node: NodeNo,
    next: Option<(u8, Code)>,
    steps: &mut Steps<L>,
) -> u32
    requires { IsSome (map.get arena.now.now node.0) }
    ensures within { result ≤ length (record_at arena.now.now node.0).edges }
    ensures left { (k : ℕ) (x : _) → k < result
        → slice_get (record_at arena.now.now node.0).edges k ≡ Some x
        → is_left next x.dim x.value ≡ true }
    ensures steps { steps.new ≤ steps.old + (1 + length (record_at arena.now.now node.0).edges) }
{
    match next {
        None => arena.edge_count(node, steps),
        Some((dim, _)) => first_label(arena, node, dim as u16, 0, steps),
    }
}

// Drops an edge whose label may not stay.
fn cut_edge<L: Ledger>(
    arena: &mut QcArena,
    node: NodeNo,
    next: Option<(u8, Code)>,
    edge: (u8, Code, NodeNo),
    steps: &mut Steps<L>,
)
    requires { CanChange arena.old node.0 }
    ensures here { map.get arena.new.now node.0 ≡ option_map
        (with_target (record { dim = edge.0; value = edge.1; target = edge.2.0 })
        (left_to next (record { dim = edge.0; value = edge.1; target = edge.2.0 })))
        (map.get arena.old.now node.0) }
    ensures only { ChangesOnly node.0 arena.old arena.new }
    ensures steps { steps.new ≤ steps.old + 1 }
{
    if !is_left(next, edge.0, edge.1) {
        arena.drop_edge(node, edge.0, edge.1, steps);
    }
}

// Drops the edges whose labels may not stay, from the last one on.
fn cut_edges<L: Ledger>(
    arena: &mut QcArena,
    node: NodeNo,
    next: Option<(u8, Code)>,
    steps: &mut Steps<L>,
)
    requires { CanChange arena.old node.0 }
    ensures here { map.get arena.new.now node.0 ≡ option_map (with_mixed (left_to next) 0)
        (map.get arena.old.now node.0) }
    ensures rises { rises (record_at arena.old.now node.0).edges ≡ true }
    ensures only { ChangesOnly node.0 arena.old arena.new }
    ensures steps { steps.new ≤ steps.old
        + (2 + 3 * length (record_at arena.old.now node.0).edges) }
{
    let left = left_count(arena, node, next, steps);
    let many = arena.edge_count(node, steps);
    'edges: for k in 0..many - left {
        let edge = arena.edge_at(node, many - 1 - k, steps);
        cut_edge(arena, node, next, edge, steps);
    }
}

// Gives an edge another target, or removes it.
fn redirect_edge<L: Ledger>(
    arena: &mut QcArena,
    node: NodeNo,
    edge: (u8, Code, NodeNo),
    to: Option<NodeNo>,
    steps: &mut Steps<L>,
) -> Result<(), Memory>
    requires { CanRedirect arena.old node.0
        (record { dim = edge.0; value = edge.1; target = edge.2.0 }) to }
    ensures here { OnOk result (map.get arena.new.now node.0
        ≡ option_map (with_target (record { dim = edge.0; value = edge.1; target = edge.2.0 })
        (option_map number to)) (map.get arena.old.now node.0)) }
    ensures only { ChangesOnly node.0 arena.old arena.new }
    ensures steps { steps.new ≤ steps.old + 1 }
{
    match to {
        None => {
            arena.drop_edge(node, edge.0, edge.1, steps);
            Ok(())
        }
        Some(target) => {
            if target.0 == edge.2.0 {
                Ok(())
            } else {
                arena.set_edge(node, edge.0, edge.1, target, steps)
            }
        }
    }
}

// Redirects the edge with the tuple's value in a dimension, if there is one, to the heir of its
// target. Drops the edge if its target has no heir.
fn redirect_tuple_edge<L: Ledger>(
    arena: &mut QcArena,
    tuple: &Cell,
    plan: &IndexMap<u32, NodePlan>,
    node: NodeNo,
    dim: u8,
    steps: &mut Steps<L>,
) -> Result<(), Memory>
    requires { CanRedirectIn arena.old tuple.now plan.now.entries node.0 dim }
    ensures here { OnOk result (map.get arena.new.now node.0
        ≡ option_map (with_own (heir_in plan.now.entries) dim (slice_index_or tuple.now dim None))
        (map.get arena.old.now node.0)) }
    ensures only { ChangesOnly node.0 arena.old arena.new }
    ensures steps { steps.new ≤ steps.old + 2 }
{
    match tuple.get(dim) {
        Entry::Any => Ok(()),
        Entry::Is(code) => match arena.edge(node, dim, code, steps) {
            None => Ok(()),
            Some(target) => {
                let edge = (dim, code, target);
                redirect_edge(arena, node, edge, heir_of(plan, edge.2), steps)
            }
        },
    }
}

// Redirects the edges with the tuple's values to the heirs of their targets. None of these edges is
// before the dimension.
fn redirect_tuple_edges<L: Ledger>(
    arena: &mut QcArena,
    tuple: &Cell,
    plan: &IndexMap<u32, NodePlan>,
    node: NodeNo,
    from: u8,
    steps: &mut Steps<L>,
) -> Result<(), Memory>
    requires { CanRedirectFrom arena.old tuple.now plan.now.entries node.0 from }
    ensures here { OnOk result (map.get arena.new.now node.0
        ≡ option_map (with_mixed (heir_target tuple.now (heir_in plan.now.entries)) 0)
        (map.get arena.old.now node.0)) }
    ensures only { ChangesOnly node.0 arena.old arena.new }
    ensures steps { steps.new ≤ steps.old + 2 * length tuple.now }
{
    'dims: for dim in from..tuple.dims() {
        redirect_tuple_edge(arena, tuple, plan, node, dim, steps)?;
    }
    Ok(())
}

// The forced child: the target of the edge with the next value.
fn forced_of<L: Ledger>(
    arena: &QcArena,
    node: NodeNo,
    next: Option<(u8, Code)>,
    steps: &mut Steps<L>,
) -> Option<Forced>
    requires node { IsSome (map.get arena.now.now node.0) }
    requires code { IfSome next (λ n. IsCode n.1) }
    ensures value { option_map edge_of result ≡ forced_by next (record_at arena.now.now node.0) }
    ensures small { IfSome result (λ f. IsCode f.code) }
    ensures steps { steps.new ≤ steps.old + 1 }
{
    match next {
        None => None,
        Some((dim, code)) => match arena.edge(node, dim, code, steps) {
            None => None,
            Some(child) => Some(Forced { dim, code, child }),
        },
    }
}

// Sets the forced child.
fn rewrite_forced<L: Ledger>(
    arena: &mut QcArena,
    node: NodeNo,
    next: Option<(u8, Code)>,
    steps: &mut Steps<L>,
)
    requires { CanForce arena.old node.0 next }
    ensures here { map.get arena.new.now node.0
        ≡ option_map (with_forced (forced_by next (record_at arena.old.now node.0)))
        (map.get arena.old.now node.0) }
    ensures only { ChangesOnly node.0 arena.old arena.new }
    ensures steps { steps.new ≤ steps.old + 2 }
{
    let forced = forced_of(arena, node, next, steps);
    arena.set_forced(node, forced, steps);
}

// The class of a node that stays: the aggregate of its rows, if they share no more than its cell.
fn class_agg_of_rest(rest: &Rest, cell: &Cell) -> Option<Agg>
    requires { length rest.now.shared ≡ length cell.now }
    ensures { option_map agg_in result ≡ class_by rest.now cell.now }
{
    if leq(&rest.shared, cell) {
        Some(rest.agg)
    } else {
        None
    }
}

// Writes the new record of a node that stays.
fn rewrite_record<L: Ledger>(
    arena: &mut QcArena,
    tuple: &Cell,
    plan: &IndexMap<u32, NodePlan>,
    below: &NodeCell,
    rest: &Rest,
    steps: &mut Steps<L>,
) -> Result<(), Memory>
    requires node { CanRewrite arena.old tuple.now below.now }
    requires rest { IsNewRest arena.old tuple.now plan.now.entries below.now rest.now }
    ensures here { OnOk result (map.get arena.new.now below.now.node.0
        ≡ option_map (rewritten tuple.now (heir_in plan.now.entries) below.now.cell rest.now)
        (map.get arena.old.now below.now.node.0)) }
    ensures only { ChangesOnly below.now.node.0 arena.old arena.new }
    ensures steps { steps.new ≤ steps.old
        + (5 + 2 * length tuple.now + 3 * length (record_at arena.old.now below.now.node.0).edges) }
{
    let from = depth(&below.cell);
    let next = next_value(&rest.shared, from);
    cut_edges(arena, below.node, next, steps);
    match redirect_tuple_edges(arena, tuple, plan, below.node, from, steps) {
        Ok(()) => {}
        Err(error) => return Err(error),
    }
    rewrite_forced(arena, below.node, next, steps);
    let class = class_agg_of_rest(rest, &below.cell);
    arena.set_class(below.node, class, steps);
    Ok(())
}

// The rest of a node's rows, if the node stays.
fn rest_if_stays(plan: &IndexMap<u32, NodePlan>, node: NodeNo) -> Option<&Rest>
    ensures { option_copied result ≡ rest_if_stays_in plan.now.entries node.0 }
{
    match plan.get(&node.0) {
        None => None,
        Some(fate) => rest_if_own_heir(node, fate),
    }
}

// The rest of a node's rows, if the node is its own heir.
fn rest_if_own_heir(node: NodeNo, fate: &NodePlan) -> Option<&Rest>
    ensures { option_copied result ≡ rest_if_own_heir_of node.0 fate.now.heir fate.now.after }
{
    match fate.heir {
        None => None,
        Some(heir) => {
            if heir.0 == node.0 {
                fate.after.as_ref()
            } else {
                None
            }
        }
    }
}

/// Gives a node its new record, or removes the node.
fn rewrite_or_remove<L: Ledger>(
    arena: &mut QcArena,
    tuple: &Cell,
    plan: &IndexMap<u32, NodePlan>,
    below: &NodeCell,
    steps: &mut Steps<L>,
) -> Result<(), Memory>
    requires { CanRewriteOrRemove arena.old tuple.now plan.now.entries below.now }
    ensures here { OnOk result (map.get arena.new.now below.now.node.0
        ≡ option_and_then (outcome tuple.now plan.now.entries below.now)
        (map.get arena.old.now below.now.node.0)) }
    ensures only { ChangesOnly below.now.node.0 arena.old arena.new }
    ensures steps { steps.new ≤ steps.old
        + (5 + 2 * length tuple.now + 3 * length (record_at arena.old.now below.now.node.0).edges) }
{
    match rest_if_stays(plan, below.node) {
        None => {
            arena.kill(below.node, steps);
            Ok(())
        }
        Some(rest) => rewrite_record(arena, tuple, plan, below, rest, steps),
    }
}

/// Gives each node of the list its new record, or removes it.
pub(crate) fn rewrite_or_remove_all<L: Ledger>(
    arena: &mut QcArena,
    tuple: &Cell,
    plan: &IndexMap<u32, NodePlan>,
    list: &Vec<NodeCell>,
    steps: &mut Steps<L>,
) -> Result<(), Memory>
    requires { CanRewriteAll arena.old tuple.now plan.now.entries list.now.items }
    ensures here { OnOk result ((k : ℕ) (b : NodeCell) → slice_get list.now.items k ≡ Some b →
        map.get arena.new.now b.node.0 ≡ option_and_then (outcome tuple.now plan.now.entries b)
        (map.get arena.old.now b.node.0)) }
    ensures others { (q : ℕ) → ((k : ℕ) (b : NodeCell) → slice_get list.now.items k ≡ Some b
        → b.node.0 ≢ q) → map.get arena.new.now q ≡ map.get arena.old.now q }
    ensures touched { (q : ℕ) → is_touched arena.new q ≡ is_touched arena.old q }
    ensures frame { frame arena.new ≡ frame arena.old }
    ensures steps { steps.new ≤ steps.old + rewriting_cost (length tuple.now) arena.old.now
        list.now.items }
{
    'nodes: for k in 0..list.len() {
        rewrite_or_remove(arena, tuple, plan, &list[k], steps)?;
    }
    Ok(())
}
