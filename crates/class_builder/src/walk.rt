// The walk over the classes, depth first (Lakshmanan, Pei, Han, VLDB 2002).
ghost use Rattle.std.specs.FinMap as map;
ghost use Rattle.std.specs.Ordering.{nat_cmp};
ghost use Rattle.std.specs.Prelude.{Err, IfOk, IsSome, None, OnOk, length, slice_index_or, ◌+◌, ◌<◌, ◌≡◌, ◌≤◌};
ghost use Rattle.cube_defs.specs.Tree.{nodes};
ghost use Rattle.base_table.specs.Places.{named, rows_of};
ghost use Rattle.cell_closure.specs.Parts.{parted};
ghost use Rattle.build_trace.specs.Trace.{acts_at};
ghost use Rattle.qc_arena.specs.Map.{frame};
ghost use Rattle.class_builder.specs.Walk.{IsOnPath, acts_from};
ghost use Rattle.class_builder.specs.Stands.{HasDone, StandsAt, StandsBefore, group_acts};
ghost use Rattle.class_builder.specs.Costs.{cost_of_acts};

use crate::Memory;
use crate::acts::mark_class;
use crate::builder::Builder;
use crate::labels::{add_prefix_node, link_part};
use crate::part::{ChildEdge, Group, Partition};
use crate::path::Path;
use crate::total::total;
use crate::upper::{close, first_new_value};
use aggregates::Agg;
use cell_closure::{Parts, TableRows};
use cell_core::{Entry, NodeNo};
use qc_arena::ArenaRefused;
use std::sync::ledger::Ledger;

/// Builds the descendants of the node of the prefix, with the first dimensions, of what the part's
/// rows share.
#[cycle(drilling)]
pub(crate) fn drill<L: Ledger>(
    builder: &mut Builder<'_, L>,
    part: &Partition<'_>,
    first: u8,
    path: &mut Path,
) -> Result<(), ArenaRefused>
    requires first { first ≤ part.now.table.now.dims }
    requires stands { StandsAt part.now.table.now part.now.shared.now first
        (acts_from part.now.table.now first (named part.now.table.now part.now.rows.now))
        builder.old.arena.now path.old builder.old.fronts.now }
    ensures done { OnOk result (HasDone part.now.table.now
        (acts_from part.now.table.now first (named part.now.table.now part.now.rows.now))
        builder.old.arena.now builder.new.arena.now builder.new.fronts.now) }
    ensures full { result ≡ Err ArenaRefused.Full
        → builder.old.arena.now.max < length (nodes nat_cmp (rows_of part.now.table.now)) }
    ensures frame { frame builder.new.arena.now ≡ frame builder.old.arena.now }
    ensures same { builder.new.arena.ghost_name ≡ builder.old.arena.ghost_name }
    ensures same_steps { builder.new.steps.ghost_name ≡ builder.old.steps.ghost_name }
    ensures steps { OnOk result (builder.new.steps.now ≤ builder.old.steps.now
        + cost_of_acts part.now.table.now.dims
        (acts_from part.now.table.now first (named part.now.table.now part.now.rows.now)) + 1) }
{
    // Reads all amounts in their order now. The groups of these rows later read them in another
    // order.
    let mut agg = Agg::zero(part.table.measures());
    total(part, &mut agg);
    'dims: for dim in first..part.table.dims() {
        match drill_at(builder, part, dim, path) {
            Ok(()) => {}
            Err(error) => return Err(error),
        }
    }
    mark_class(
        builder.arena,
        path.at(part.table.dims()),
        agg,
        builder.steps,
    );
    Ok(())
}

/// Does the walk's work in one dimension. If the rows share a value there, adds its node. Else
/// builds the nodes of each group of rows with one code. The path goes on to the prefix through the
/// dimension.
#[cycle(drilling)]
fn drill_at<L: Ledger>(
    builder: &mut Builder<'_, L>,
    part: &Partition<'_>,
    dim: u8,
    path: &mut Path,
) -> Result<(), ArenaRefused>
    requires { StandsBefore part.now.table.now part.now.shared.now dim
        (acts_at (acts_from part.now.table.now (dim + 1)) dim part.now.shared.now
        (slice_index_or part.now.shared.now dim None) (named part.now.table.now part.now.rows.now))
        builder.old.arena.now path.old builder.old.fronts.now }
    ensures done { OnOk result (HasDone part.now.table.now
        (acts_at (acts_from part.now.table.now (dim + 1)) dim part.now.shared.now
        (slice_index_or part.now.shared.now dim None) (named part.now.table.now part.now.rows.now))
        builder.old.arena.now builder.new.arena.now builder.new.fronts.now) }
    ensures path { OnOk result
        (IsOnPath builder.new.arena.now path.new part.now.shared.now (dim + 1)) }
    ensures full { result ≡ Err ArenaRefused.Full
        → builder.old.arena.now.max < length (nodes nat_cmp (rows_of part.now.table.now)) }
    ensures frame { frame builder.new.arena.now ≡ frame builder.old.arena.now }
    ensures same { builder.new.arena.ghost_name ≡ builder.old.arena.ghost_name }
    ensures same_steps { builder.new.steps.ghost_name ≡ builder.old.steps.ghost_name }
    ensures steps { OnOk result (builder.new.steps.now ≤ builder.old.steps.now
        + cost_of_acts part.now.table.now.dims
        (acts_at (acts_from part.now.table.now (dim + 1)) dim part.now.shared.now
        (slice_index_or part.now.shared.now dim None)
        (named part.now.table.now part.now.rows.now))) }
{
    match part.shared.get(dim) {
        Entry::Is(code) => {
            let edge = ChildEdge {
                code,
                is_forced: true,
            };
            add_prefix_node(builder, part, dim, edge, path)
        }
        Entry::Any => match drill_in(builder, part, dim, path) {
            Ok(()) => {
                path.set(dim + 1, path.at(dim));
                Ok(())
            }
            Err(error) => Err(error),
        },
    }
}

/// Groups the rows by their codes in the dimension. Makes room at the node for one edge a group.
fn groups_of<L: Ledger>(
    builder: &mut Builder<'_, L>,
    part: &Partition<'_>,
    dim: u8,
    node: NodeNo,
) -> Result<Parts, Memory>
    requires dim { dim < part.now.table.now.dims }
    requires node { IsSome (map.get builder.old.arena.now.now node.0) }
    ensures parts { IfOk result (λ parts. parts ≡ parted part.now.table.now part.now.rows.now dim) }
    ensures arena { builder.new.arena.now ≡ builder.old.arena.now }
    ensures fronts { builder.new.fronts.now ≡ builder.old.fronts.now }
    ensures same { builder.new.arena.ghost_name ≡ builder.old.arena.ghost_name }
    ensures same_steps { builder.new.steps.ghost_name ≡ builder.old.steps.ghost_name }
    ensures steps { builder.new.steps.now ≡ builder.old.steps.now }
{
    let mut parts = builder.room.take();
    let rows = TableRows {
        table: part.table,
        numbers: part.rows,
    };
    parts.regroup(&rows, dim)?;
    match builder.arena.reserve_edges(node, parts.len()) {
        Ok(()) => Ok(parts),
        Err(error) => Err(error),
    }
}

/// Builds the nodes of each group of rows with one code in the dimension, in turn. The rows share
/// no value there.
#[cycle(drilling)]
fn drill_in<L: Ledger>(
    builder: &mut Builder<'_, L>,
    part: &Partition<'_>,
    dim: u8,
    path: &Path,
) -> Result<(), ArenaRefused>
    requires { StandsBefore part.now.table.now part.now.shared.now dim
        (acts_at (acts_from part.now.table.now (dim + 1)) dim part.now.shared.now None
        (named part.now.table.now part.now.rows.now))
        builder.old.arena.now path.now builder.old.fronts.now }
    ensures done { OnOk result (HasDone part.now.table.now
        (acts_at (acts_from part.now.table.now (dim + 1)) dim part.now.shared.now None
        (named part.now.table.now part.now.rows.now))
        builder.old.arena.now builder.new.arena.now builder.new.fronts.now) }
    ensures full { result ≡ Err ArenaRefused.Full
        → builder.old.arena.now.max < length (nodes nat_cmp (rows_of part.now.table.now)) }
    ensures frame { frame builder.new.arena.now ≡ frame builder.old.arena.now }
    ensures same { builder.new.arena.ghost_name ≡ builder.old.arena.ghost_name }
    ensures same_steps { builder.new.steps.ghost_name ≡ builder.old.steps.ghost_name }
    ensures steps { OnOk result (builder.new.steps.now ≤ builder.old.steps.now
        + cost_of_acts part.now.table.now.dims
        (acts_at (acts_from part.now.table.now (dim + 1)) dim part.now.shared.now None
        (named part.now.table.now part.now.rows.now))) }
{
    let Ok(parts) = groups_of(builder, part, dim, path.at(dim)) else {
        return Err(ArenaRefused::Memory);
    };
    'parts: for k in 0..parts.len() {
        let group = Group {
            table: part.table,
            rows: parts.rows(k),
            code: parts.code(k),
            upper: part.shared,
            dim,
        };
        match drill_part(builder, &group, path) {
            Ok(()) => {}
            Err(error) => return Err(error),
        }
    }
    match builder.room.give_back(parts) {
        Ok(()) => Ok(()),
        Err(_) => Err(ArenaRefused::Memory),
    }
}

/// Builds the nodes of a group. If its rows share a value before the dimension that `upper` doesn't
/// have, their class was built earlier, and only an edge is set.
#[cycle(drilling)]
fn drill_part<L: Ledger>(
    builder: &mut Builder<'_, L>,
    group: &Group<'_>,
    path: &Path,
) -> Result<(), ArenaRefused>
    requires { StandsAt group.now.table.now group.now.upper.now group.now.dim
        (group_acts group.now) builder.old.arena.now path.now builder.old.fronts.now }
    ensures done { OnOk result (HasDone group.now.table.now (group_acts group.now)
        builder.old.arena.now builder.new.arena.now builder.new.fronts.now) }
    ensures full { result ≡ Err ArenaRefused.Full
        → builder.old.arena.now.max < length (nodes nat_cmp (rows_of group.now.table.now)) }
    ensures frame { frame builder.new.arena.now ≡ frame builder.old.arena.now }
    ensures same { builder.new.arena.ghost_name ≡ builder.old.arena.ghost_name }
    ensures same_steps { builder.new.steps.ghost_name ≡ builder.old.steps.ghost_name }
    ensures steps { OnOk result (builder.new.steps.now ≤ builder.old.steps.now
        + cost_of_acts group.now.table.now.dims (group_acts group.now)) }
{
    match first_new_value(group) {
        Some(at) => match link_part(builder, group, at, path) {
            Ok(()) => Ok(()),
            Err(_) => Err(ArenaRefused::Memory),
        },
        None => {
            let mut shared = group.upper.copy();
            close(group, &mut shared);
            let part = Partition {
                table: group.table,
                rows: group.rows,
                shared: &shared,
            };
            let edge = ChildEdge {
                code: group.code,
                is_forced: false,
            };
            let mut below = *path;
            match add_prefix_node(builder, &part, group.dim, edge, &mut below) {
                Ok(()) => drill(builder, &part, group.dim + 1, &mut below),
                Err(error) => Err(error),
            }
        }
    }
}
