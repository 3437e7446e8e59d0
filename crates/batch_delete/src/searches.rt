// Searches for the labels of a node in one dimension, some of them side by side.
ghost use Rattle.std.specs.FinMap as map;
ghost use Rattle.std.specs.Option.{option_map};
ghost use Rattle.std.specs.Prelude.{IsSome, None, Some, length, slice_get, slice_index_or, ℕ, ◌*◌, ◌+◌, ◌-◌, ◌<◌, ◌≡◌, ◌≤◌};
ghost use Rattle.cell_core.specs.Entry.{value_in};
ghost use Rattle.cube_defs.specs.Cell.{with_value};
ghost use Rattle.qc_arena.specs.RecordReaders.{number, record_at};
ghost use Rattle.tree_search.specs.Found.{IsNumberOfCell, closure_in};
ghost use Rattle.batch_delete.specs.DeletedRow.{IsPrefixNode};
ghost use Rattle.batch_delete.specs.Rests.{Deletion, source_before};
ghost use Rattle.batch_delete.specs.Searching.{AreFound, stepped, target_in};

use crate::deleted_row::Class;
use cell_core::{Entry, NodeNo, Steps};
use qc_arena::{Nodes, QcArena};
use std::sync::ledger::Ledger;
use tree_search::step;

/// So many searches go on side by side. What they read is far apart in memory, so the processor
/// fetches it for all of them at the same time.
pub(crate) const SEARCHES: u32 = 8;

/// The nodes found for some labels in a row. The labels are those from a place on, until another.
/// The labels to be searched for end at `end`.
#[derive(Clone, Copy)]
pub(crate) struct Searches {
    pub from: u32,
    pub until: u32,
    pub end: u32,
    pub nodes: [Option<NodeNo>; SEARCHES as usize],
}

// One dimension of a search. None if the search has found before that no row is left.
fn step_on<L: Ledger>(
    arena: &QcArena,
    node: Option<NodeNo>,
    dim: u8,
    asked: Entry,
    steps: &mut Steps<L>,
) -> Option<NodeNo>
    requires { (q : _) → node ≡ Some q → IsSome (map.get arena.now.now q.0) }
    ensures value { option_map number result
        ≡ stepped arena.now.now dim (value_in asked) (option_map number node) }
    ensures steps { steps.new ≤ steps.old + 2 }
{
    match node {
        None => None,
        Some(node) => step(arena, node, dim, asked, steps),
    }
}

// One dimension of the first searches, of which there are so many. No search waits for the node of
// another one.
fn step_all<L: Ledger>(
    arena: &QcArena,
    nodes: &mut [Option<NodeNo>; SEARCHES as usize],
    many: u32,
    dim: u8,
    asked: Entry,
    steps: &mut Steps<L>,
)
    requires many { many ≤ SEARCHES }
    requires there { (k : ℕ) (q : _) → k < many → slice_index_or nodes.old k None ≡ Some q
        → IsSome (map.get arena.now.now q.0) }
    ensures stepped { (k : ℕ) → k < many → option_map number (slice_index_or nodes.new k None)
        ≡ stepped arena.now.now dim (value_in asked)
        (option_map number (slice_index_or nodes.old k None)) }
    ensures steps { steps.new ≤ steps.old + 2 * many }
{
    'searches: for k in 0..many as usize {
        nodes[k] = step_on(arena, nodes[k], dim, asked, steps);
    }
}

// The target of a label, if the label is in the dimension.
fn target_at<L: Ledger>(
    arena: &QcArena,
    front: NodeNo,
    k: u32,
    dim: u8,
    steps: &mut Steps<L>,
) -> Option<NodeNo>
    requires front { IsSome (map.get arena.now.now front.0) }
    requires k { k < length (record_at arena.now.now front.0).edges }
    ensures value { (x : _) → slice_get (record_at arena.now.now front.0).edges k ≡ Some x
        → option_map number result ≡ target_in dim x }
    ensures steps { steps.new ≤ steps.old + 1 }
{
    let (at, _, target) = arena.edge_at(front, k, steps);
    if at == dim { Some(target) } else { None }
}

// The targets of the labels from a place on, until another. None for a label of another dimension.
fn targets<L: Ledger>(
    arena: &QcArena,
    front: NodeNo,
    from: u32,
    until: u32,
    dim: u8,
    steps: &mut Steps<L>,
) -> [Option<NodeNo>; SEARCHES as usize]
    requires front { IsSome (map.get arena.now.now front.0) }
    requires until { until ≤ length (record_at arena.now.now front.0).edges }
    requires from { from ≤ until }
    requires many { until ≤ from + SEARCHES }
    ensures targets { (k : ℕ) (x : _) → from + k < until
        → slice_get (record_at arena.now.now front.0).edges (from + k) ≡ Some x
        → option_map number (slice_index_or result k None) ≡ target_in dim x }
    ensures steps { steps.new ≤ steps.old + (until - from) }
{
    let mut nodes = [None; SEARCHES as usize];
    'labels: for k in from..until {
        nodes[(k - from) as usize] = target_at(arena, front, k, dim, steps);
    }
    nodes
}

// Searches for the parts of a class by the labels from a place on, until another. `front` is the
// node of the class's prefix before the dimension.
fn find_some<L: Ledger>(
    class: &Class<'_>,
    dim: u8,
    front: NodeNo,
    from: u32,
    until: u32,
    steps: &mut Steps<L>,
) -> [Option<NodeNo>; SEARCHES as usize]
    ghost d: { Deletion }
    requires front { IsPrefixNode d class.now dim front.0 }
    requires until { until ≤ length (record_at class.now.row.now.arena.now.now front.0).edges }
    requires from { from ≤ until }
    requires many { until ≤ from + SEARCHES }
    ensures found { AreFound d class.now.row.now.arena.now.now class.now.cell.now dim
        (record_at class.now.row.now.arena.now.now front.0).edges from until result }
    ensures steps { steps.new + (until - from)
        ≤ steps.old + 2 * length class.now.cell.now * (until - from) }
{
    let arena = class.row.arena;
    let dims = class.cell.dims();
    let mut nodes = targets(arena, front, from, until, dim, steps);
    'dims: for next in dim + 1..dims {
        step_all(
            arena,
            &mut nodes,
            until - from,
            next,
            class.cell.get(next),
            steps,
        );
    }
    nodes
}

/// Goes on to the searches for the labels from a place on, if the place is after those of before.
pub(crate) fn search_on<L: Ledger>(
    class: &Class<'_>,
    dim: u8,
    front: NodeNo,
    k: u32,
    searches: &mut Searches,
    steps: &mut Steps<L>,
)
    ghost d: { Deletion }
    requires front { IsPrefixNode d class.now dim front.0 }
    requires k { k < searches.old.end }
    requires from { searches.old.from ≤ k }
    requires until { k ≤ searches.old.until }
    requires many { searches.old.until ≤ searches.old.from + SEARCHES }
    requires ahead { searches.old.until ≤ searches.old.end }
    requires within { searches.old.end
        ≤ length (record_at class.now.row.now.arena.now.now front.0).edges }
    requires found { AreFound d class.now.row.now.arena.now.now class.now.cell.now dim
        (record_at class.now.row.now.arena.now.now front.0).edges searches.old.from
        searches.old.until searches.old.nodes }
    ensures from { searches.new.from ≤ k }
    ensures until { k < searches.new.until }
    ensures many { searches.new.until ≤ searches.new.from + SEARCHES }
    ensures end { searches.new.end ≡ searches.old.end }
    ensures ahead { searches.new.until ≤ searches.new.end }
    ensures found { AreFound d class.now.row.now.arena.now.now class.now.cell.now dim
        (record_at class.now.row.now.arena.now.now front.0).edges searches.new.from
        searches.new.until searches.new.nodes }
    ensures steps { steps.new + 2 * length class.now.cell.now * searches.old.until
        ≤ steps.old + 2 * length class.now.cell.now * searches.new.until }
{
    if k < searches.until {
        return;
    }
    let left = searches.end - k;
    let many = if left < SEARCHES { left } else { SEARCHES };
    searches.from = k;
    searches.until = k + many;
    searches.nodes = find_some(class, dim, front, k, k + many, steps);
}
