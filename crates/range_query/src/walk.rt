// The walk of a tree along a box: from a node on, dimension by dimension, through the entries that
// the box allows. It goes on only if rows are left. Where the box allows codes, a node with few
// edges is read edge by edge, and in other nodes each code is searched for.
ghost use Rattle.std.specs.FinMap as map;
ghost use Rattle.std.specs.Option.{option_map};
ghost use Rattle.std.specs.Ordering.{eq_by_cmp, nat_cmp};
ghost use Rattle.std.specs.Prelude.{All, IfNone, IfSome, None, Some, drop, length, slice_index_or, slice_set, take, ℕ, ◌+◌, ◌<◌, ◌≡◌, ◌≤◌};
ghost use Rattle.cell_core.specs.Entry.{IsCode};
ghost use Rattle.cube_defs.specs.Tree.{Node};
ghost use Rattle.qc_arena.specs.RecordReaders.{edge_of, record_at};
ghost use Rattle.tree_laws.specs.Walk.{by_forced};
ghost use Rattle.range_query.specs.Children.{AreRead};
ghost use Rattle.range_query.specs.Walk.{Finds, GoesOn, GoesOnWith, cost, entered, entry_cost, met};

use crate::add_hit::add_hit;
use crate::children::Children;
use crate::{Hit, RangeRefused};
use cell_core::{Cell, Code, Entry, NodeNo, Steps};
use qc_arena::{Forced, Nodes};
use std::sync::ledger::Ledger;
use value_dict::CellBox;

/// What a walk reads, and how many hits it may have.
#[derive(Drop)]
pub(crate) struct Scan<'a, T: Nodes> {
    pub(crate) tree: &'a T,
    pub(crate) cells: &'a CellBox,
    pub(crate) limit: u32,
}

/// A position of the walk: the next dimension, and a node.
#[derive(Clone, Copy)]
pub(crate) struct Position {
    pub(crate) node: NodeNo,
    pub(crate) dim: u8,
}

/// A position before a dimension in which the box allows codes, and these codes.
#[derive(Clone, Copy)]
struct Listed<'a> {
    node: NodeNo,
    dim: u8,
    codes: &'a [Code],
    ghost small: { All IsCode codes.now },
}

// The forced child, if it is in the dimension. Without one, the walk stays at its node for Any.
fn child_in(forced: Option<Forced>, dim: u8) -> Option<NodeNo>
    ensures child { IfSome result (λ child. (k : ℕ) (n : Node ℕ ℕ)
        → by_forced (eq_by_cmp nat_cmp) k n dim None (option_map edge_of forced) ≡ Some child.0) }
    ensures stays { IfNone result ((k : ℕ) (n : Node ℕ ℕ)
        → by_forced (eq_by_cmp nat_cmp) k n dim None (option_map edge_of forced) ≡ Some k) }
{
    match forced {
        Some(forced) if forced.dim == dim => Some(forced.child),
        _ => None,
    }
}

// All hits of the box whose entries before the dimension are the cell's, from a node that is
// reached.
#[cycle(walking)]
pub(crate) fn visit<T: Nodes, L: Ledger>(
    scan: &Scan<T>,
    at: Position,
    cell: &mut Cell,
    hits: &mut Vec<Hit>,
    steps: &mut Steps<L>,
) -> Result<(), RangeRefused>
    requires { GoesOn (T.width scan.now.tree.now) (T.tree scan.now.tree.now) scan.now.cells.now
        scan.now.limit at.node.0 cell.old at.dim hits.old.items }
    ensures { Finds (T.width scan.now.tree.now) (T.tree scan.now.tree.now) scan.now.limit
        (λ source. met source (drop at.dim scan.now.cells.now) cell.old at.dim)
        (λ source. cost source (drop at.dim scan.now.cells.now) cell.old at.dim)
        hits.old.items hits.new.items cell.old cell.new steps.old steps.new result }
{
    if at.dim >= scan.cells.dims() {
        return add_hit(scan.tree, scan.limit, at.node, cell, hits, steps);
    }
    if let Some(codes) = scan.cells.codes(at.dim) {
        let listed = Listed {
            node: at.node,
            dim: at.dim,
            codes,
        };
        return visit_codes(scan, listed, cell, hits, steps);
    }
    let dim = at.dim + 1;
    match child_in(scan.tree.forced(at.node, steps), at.dim) {
        Some(node) => visit(scan, Position { node, dim }, cell, hits, steps),
        None => visit(scan, Position { dim, ..at }, cell, hits, steps),
    }
}

// The hits for each of the codes that the box allows in the dimension.
#[cycle(walking)]
fn visit_codes<T: Nodes, L: Ledger>(
    scan: &Scan<T>,
    at: Listed,
    cell: &mut Cell,
    hits: &mut Vec<Hit>,
    steps: &mut Steps<L>,
) -> Result<(), RangeRefused>
    requires { GoesOnWith (T.width scan.now.tree.now) (T.tree scan.now.tree.now)
        scan.now.cells.now scan.now.limit at.node.0 cell.old at.dim at.codes.now hits.old.items }
    ensures { Finds (T.width scan.now.tree.now) (T.tree scan.now.tree.now) scan.now.limit
        (λ source. met source (drop at.entry.dim scan.now.cells.now) cell.old at.entry.dim)
        (λ source. cost source (drop at.entry.dim scan.now.cells.now) cell.old at.entry.dim)
        hits.old.items hits.new.items cell.old cell.new steps.old steps.new result }
{
    let mut children = Children::none();
    if !children.read(scan.tree, at.node, at.dim, at.codes, steps) {
        return visit_each(scan, at, cell, hits, steps);
    }
    visit_children(scan, at, &children, cell, hits, steps)
}

// The hits for each of the codes, by the children that were read.
#[cycle(walking)]
fn visit_children<T: Nodes, L: Ledger>(
    scan: &Scan<T>,
    at: Listed,
    children: &Children,
    cell: &mut Cell,
    hits: &mut Vec<Hit>,
    steps: &mut Steps<L>,
) -> Result<(), RangeRefused>
    requires at { GoesOnWith (T.width scan.now.tree.now) (T.tree scan.now.tree.now)
        scan.now.cells.now scan.now.limit at.node.0 cell.old at.dim at.codes.now hits.old.items }
    requires children { AreRead at.codes.now at.dim
        (record_at (T.tree scan.now.tree.now) at.node.0).edges
        (take children.now.len children.now.items) }
    ensures { Finds (T.width scan.now.tree.now) (T.tree scan.now.tree.now) scan.now.limit
        (λ source. met source (drop at.entry.dim scan.now.cells.now) cell.old at.entry.dim)
        (λ source. cost source (drop at.entry.dim scan.now.cells.now) cell.old at.entry.dim)
        hits.old.items hits.new.items cell.old cell.new steps.old
        (steps.new + (1 + length at.entry.codes.now)) result }
{
    let mut from = 0;
    'children: while let Some(child) = children.next(from, at.codes.len() as u32) {
        let after = Position {
            node: child.node,
            dim: at.dim,
        };
        match enter(
            scan,
            after,
            at.codes[child.place as usize],
            cell,
            hits,
            steps,
        ) {
            Ok(()) => {}
            Err(error) => return Err(error),
        }
        from = child.place + 1;
    }
    Ok(())
}

// The hits for each of the codes, which are searched for one after another.
#[cycle(walking)]
fn visit_each<T: Nodes, L: Ledger>(
    scan: &Scan<T>,
    at: Listed,
    cell: &mut Cell,
    hits: &mut Vec<Hit>,
    steps: &mut Steps<L>,
) -> Result<(), RangeRefused>
    requires { GoesOnWith (T.width scan.now.tree.now) (T.tree scan.now.tree.now)
        scan.now.cells.now scan.now.limit at.node.0 cell.old at.dim at.codes.now hits.old.items }
    ensures { Finds (T.width scan.now.tree.now) (T.tree scan.now.tree.now) scan.now.limit
        (λ source. met source (drop at.entry.dim scan.now.cells.now) cell.old at.entry.dim)
        (λ source. cost source (drop at.entry.dim scan.now.cells.now) cell.old at.entry.dim)
        hits.old.items hits.new.items cell.old cell.new steps.old (steps.new + 1) result }
{
    let codes = at.codes;
    'codes: for k in 0..codes.len() {
        match search(scan, at, codes[k], cell, hits, steps) {
            Ok(()) => {}
            Err(error) => return Err(error),
        }
    }
    Ok(())
}

// The hits for one code, if rows are left with it.
#[cycle(walking)]
fn search<T: Nodes, L: Ledger>(
    scan: &Scan<T>,
    at: Listed,
    code: Code,
    cell: &mut Cell,
    hits: &mut Vec<Hit>,
    steps: &mut Steps<L>,
) -> Result<(), RangeRefused>
    requires on { GoesOn (T.width scan.now.tree.now) (T.tree scan.now.tree.now) scan.now.cells.now
        scan.now.limit at.node.0 cell.old at.dim hits.old.items }
    requires dim { at.dim < T.width scan.now.tree.now }
    requires small { IsCode code }
    ensures { Finds (T.width scan.now.tree.now) (T.tree scan.now.tree.now) scan.now.limit
        (λ source. entered source (drop (at.entry.dim + 1) scan.now.cells.now) cell.old
        at.entry.dim (Some code))
        (λ source. entry_cost 1 source (drop (at.entry.dim + 1) scan.now.cells.now) cell.old
        at.entry.dim (Some code))
        hits.old.items hits.new.items cell.old cell.new steps.old steps.new result }
{
    let Some(node) = scan.tree.edge(at.node, at.dim, code, steps) else {
        return Ok(());
    };
    let dim = at.dim;
    enter(scan, Position { node, dim }, code, cell, hits, steps)
}

// The hits with the code, from the node that it leads to.
#[cycle(walking)]
fn enter<T: Nodes, L: Ledger>(
    scan: &Scan<T>,
    at: Position,
    code: Code,
    cell: &mut Cell,
    hits: &mut Vec<Hit>,
    steps: &mut Steps<L>,
) -> Result<(), RangeRefused>
    requires on { GoesOn (T.width scan.now.tree.now) (T.tree scan.now.tree.now) scan.now.cells.now
        scan.now.limit at.node.0 (slice_set cell.old at.dim (Some code)) (at.dim + 1)
        hits.old.items }
    requires dim { at.dim < length cell.old }
    requires back { slice_set (slice_set cell.old at.dim (Some code)) at.dim None ≡ cell.old }
    requires small { IsCode code }
    ensures { Finds (T.width scan.now.tree.now) (T.tree scan.now.tree.now) scan.now.limit
        (λ source. met source (drop (at.dim + 1) scan.now.cells.now)
        (slice_set cell.old at.dim (Some code)) (at.dim + 1))
        (λ source. cost source (drop (at.dim + 1) scan.now.cells.now)
        (slice_set cell.old at.dim (Some code)) (at.dim + 1))
        hits.old.items hits.new.items cell.old cell.new steps.old steps.new result }
{
    cell.set(at.dim, Entry::Is(code));
    let after = Position {
        node: at.node,
        dim: at.dim + 1,
    };
    match visit(scan, after, cell, hits, steps) {
        Ok(()) => {
            cell.set(at.dim, Entry::Any);
            Ok(())
        }
        Err(error) => Err(error),
    }
}
