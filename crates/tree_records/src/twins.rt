// Whether two trees have the same records.
ghost use Rattle.std.specs.FinMap as map;
ghost use Rattle.std.specs.Prelude.{IsSome, length, map as mapped, option_map, true, ◌≡◌};
ghost use Rattle.aggregates.specs.Views.{agg_in, part_in};
ghost use Rattle.cube_defs.specs.Tree.{renamed_edge};
ghost use Rattle.qc_arena.specs.RecordReaders.{record_at};
ghost use Rattle.tree_records.specs.Lines.{line_at};
ghost use Rattle.tree_records.specs.Twins.{AreAlike, AreBothRooted, AreSame, HasTwin, HasTwins, HaveSameLine};

use crate::lines::{ANY, Line, NUMBERS, cell_at};
use aggregates::{Agg, Part};
use cell_core::{NodeNo, Steps};
use qc_arena::{Nodes, QcArena};
use std::sync::ledger::Ledger;

// The node to which the edges lead with a cell's values.
fn node_at<L: Ledger>(tree: &QcArena, cell: &Line, steps: &mut Steps<L>) -> Option<NodeNo> {
    let mut at = tree.root(steps)?;
    'dims: for dim in 0..6u8 {
        let value = cell[usize::from(dim)];
        if value != ANY {
            if !tree.has(at) {
                return None;
            }
            at = tree.edge(at, dim, u32::from(value), steps)?;
        }
    }
    Some(at)
}

// Whether both nodes are there and have the same cell.
fn is_same_node<L: Ledger>(
    one: &QcArena,
    a: NodeNo,
    other: &QcArena,
    b: NodeNo,
    steps: &mut Steps<L>,
) -> bool
    ensures { AreBothRooted one.now.now other.now.now → result ≡ true →
        HaveSameLine one.now.now a.0 other.now.now b.0 }
{
    match (cell_at(one, a, steps), cell_at(other, b, steps)) {
        (Some(c), Some(d)) => c == d,
        _ => false,
    }
}

// Whether both have no forced child, or have one with the same label and cell.
fn is_forced_same<L: Ledger>(
    one: &QcArena,
    a: NodeNo,
    other: &QcArena,
    b: NodeNo,
    steps: &mut Steps<L>,
) -> bool
    requires a { IsSome (map.get one.now.now a.0) }
    requires b { IsSome (map.get other.now.now b.0) }
    ensures { AreBothRooted one.now.now other.now.now → result ≡ true →
        option_map (renamed_edge (line_at one.now.now)) (record_at one.now.now a.0).forced
        ≡ option_map (renamed_edge (line_at other.now.now)) (record_at other.now.now b.0).forced }
{
    match (one.forced(a, steps), other.forced(b, steps)) {
        (Some(f), Some(g)) => {
            f.dim == g.dim && f.code == g.code && is_same_node(one, f.child, other, g.child, steps)
        }
        (None, None) => true,
        _ => false,
    }
}

// Whether both have the same labels, which lead to the same cells.
fn are_edges_same<L: Ledger>(
    one: &QcArena,
    a: NodeNo,
    other: &QcArena,
    b: NodeNo,
    steps: &mut Steps<L>,
) -> bool
    requires a { IsSome (map.get one.now.now a.0) }
    requires b { IsSome (map.get other.now.now b.0) }
    ensures { AreBothRooted one.now.now other.now.now → result ≡ true →
        mapped (renamed_edge (line_at one.now.now)) (record_at one.now.now a.0).edges
        ≡ mapped (renamed_edge (line_at other.now.now)) (record_at other.now.now b.0).edges }
{
    let count = one.edge_count(a, steps);
    if other.edge_count(b, steps) != count {
        return false;
    }
    'edges: for k in 0..count {
        let (dim, code, target) = one.edge_at(a, k, steps);
        let (own_dim, own_code, own) = other.edge_at(b, k, steps);
        if dim != own_dim || code != own_code || !is_same_node(one, target, other, own, steps) {
            return false;
        }
    }
    true
}

fn is_part_same(part: Part, own: Part) -> bool
    ensures { result ≡ true → part_in part ≡ part_in own }
{
    part.sum == own.sum && part.least == own.least && part.greatest == own.greatest
}

// Whether both aggregates are equal in each measure.
fn are_parts_same(parts: &[Part; 4], own: &[Part; 4]) -> bool
    ensures { result ≡ true → mapped part_in parts.now ≡ mapped part_in own.now }
{
    'measures: for k in 0..4 {
        if !is_part_same(parts[k], own[k]) {
            return false;
        }
    }
    true
}

fn is_agg_same(agg: &Agg, own: &Agg) -> bool
    ensures { result ≡ true → agg_in agg.now ≡ agg_in own.now }
{
    if agg.count != own.count || agg.measures != own.measures {
        return false;
    }
    are_parts_same(&agg.parts, &own.parts)
}

// Whether both are classes of the same aggregate, or none is one.
fn is_class_same<L: Ledger>(
    one: &QcArena,
    a: NodeNo,
    other: &QcArena,
    b: NodeNo,
    steps: &mut Steps<L>,
) -> bool
    requires a { IsSome (map.get one.now.now a.0) }
    requires b { IsSome (map.get other.now.now b.0) }
    ensures { result ≡ true →
        (record_at one.now.now a.0).class ≡ (record_at other.now.now b.0).class }
{
    match (one.class(a, steps), other.class(b, steps)) {
        (Some(agg), Some(own)) => is_agg_same(&agg, &own),
        (None, None) => true,
        _ => false,
    }
}

// Whether both nodes have the same record.
fn is_record_same<L: Ledger>(
    one: &QcArena,
    a: NodeNo,
    other: &QcArena,
    b: NodeNo,
    steps: &mut Steps<L>,
) -> bool
    requires a { IsSome (map.get one.now.now a.0) }
    requires b { IsSome (map.get other.now.now b.0) }
    ensures { AreBothRooted one.now.now other.now.now → result ≡ true →
        AreAlike one.now.now other.now.now (record_at one.now.now a.0)
        (record_at other.now.now b.0) }
{
    if !is_same_node(one, a, other, b, steps) || !is_forced_same(one, a, other, b, steps) {
        return false;
    }
    if !are_edges_same(one, a, other, b, steps) {
        return false;
    }
    is_class_same(one, a, other, b, steps)
}

// Whether the edges of the other tree lead with a node's cell to a node that has its record.
fn has_twin<L: Ledger>(one: &QcArena, node: NodeNo, other: &QcArena, steps: &mut Steps<L>) -> bool
    requires { IsSome (map.get one.now.now node.0) }
    ensures { AreBothRooted one.now.now other.now.now → result ≡ true →
        HasTwin one.now.now other.now.now (record_at one.now.now node.0) }
{
    let Some(cell) = cell_at(one, node, steps) else {
        return false;
    };
    let Some(twin) = node_at(other, &cell, steps) else {
        return false;
    };
    other.has(twin) && is_record_same(one, node, other, twin, steps)
}

// The same of each node whose number is below NUMBERS.
fn has_twins<L: Ledger>(one: &QcArena, other: &QcArena, steps: &mut Steps<L>) -> bool
    ensures { AreBothRooted one.now.now other.now.now → result ≡ true →
        HasTwins one.now.now other.now.now }
{
    'numbers: for number in 0..NUMBERS {
        if one.has(NodeNo(number)) && !has_twin(one, NodeNo(number), other, steps) {
            return false;
        }
    }
    true
}

// Whether all nodes have numbers below NUMBERS. No contract says so.
fn has_small_numbers(tree: &QcArena) -> bool {
    let mut found = 0u32;
    'numbers: for number in 0..NUMBERS {
        if tree.has(NodeNo(number)) {
            found = found.wrapping_add(1);
        }
    }
    found == tree.live()
}

/// Whether two trees have the same records, whatever the numbers. Nodes and forced children are
/// compared by their cells, classes by their aggregates, and edges by their labels and targets. Each
/// node of the one has its record in the other, and both have as many. The contract speaks of nodes
/// whose numbers are below NUMBERS. Where the one has others, the answer is no.
pub fn are_same<L: Ledger>(one: &QcArena, other: &QcArena, steps: &mut Steps<L>) -> bool
    ensures { AreBothRooted one.now.now other.now.now → result ≡ true →
        AreSame one.now.now other.now.now }
{
    if !has_small_numbers(one) {
        return false;
    }
    if one.live() != other.live() {
        return false;
    }
    has_twins(one, other, steps)
}
