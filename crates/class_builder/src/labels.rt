// Edges of nodes of prefixes, to nodes that are added or exist already.
ghost use Rattle.std.specs.Ordering.{nat_cmp};
ghost use Rattle.std.specs.Prelude.{Err, IfSome, None, OnOk, Some, length, slice_index_or, suc, ◌+◌, ◌<◌, ◌≡◌, ◌≤◌};
ghost use Rattle.cube_defs.specs.Cell.{cell_prefix};
ghost use Rattle.cube_defs.specs.Tree.{cell_at, nodes};
ghost use Rattle.base_table.specs.Places.{named, rows_of};
ghost use Rattle.cube_laws.specs.Parting.{shared_by};
ghost use Rattle.qc_arena.specs.Map.{Arena, frame};
ghost use Rattle.class_builder.specs.Walk.{IsOnPath, prefix_acts};
ghost use Rattle.class_builder.specs.PrefixNodes.{ArePrefixNodes};
ghost use Rattle.class_builder.specs.Stands.{HasDone, StandsAtLink, StandsBefore, link_acts};

use crate::Memory;
use crate::acts::{add_child, set_link};
use crate::builder::Builder;
use crate::part::{ChildEdge, Group, Partition};
use crate::path::Path;
use crate::prefix_nodes::PrefixNodes;
use crate::upper::shared_prefix;
use cell_core::NodeNo;
use drill_links::descend;
use qc_arena::ArenaRefused;
use std::sync::ledger::Ledger;

/// Adds the node of the prefix through dimension `dim` of what the rows share. All rows have the
/// edge's code there. Its parent is the node before it on the path, and the path goes on to it.
pub(crate) fn add_prefix_node<L: Ledger>(
    builder: &mut Builder<'_, L>,
    part: &Partition<'_>,
    dim: u8,
    edge: ChildEdge,
    path: &mut Path,
) -> Result<(), ArenaRefused>
    requires value { slice_index_or part.now.shared.now dim None ≡ Some edge.code }
    requires stands { StandsBefore part.now.table.now part.now.shared.now dim
        (prefix_acts edge.is_forced part.now.shared.now dim edge.code)
        builder.old.arena.now path.old builder.old.fronts.now }
    ensures done { OnOk result
        (HasDone part.now.table.now (prefix_acts edge.is_forced part.now.shared.now dim edge.code)
        builder.old.arena.now builder.new.arena.now builder.new.fronts.now) }
    ensures path { OnOk result
        (IsOnPath builder.new.arena.now path.new part.now.shared.now (dim + 1)) }
    ensures full { result ≡ Err ArenaRefused.Full
        → builder.old.arena.now.max < length (nodes nat_cmp (rows_of part.now.table.now)) }
    ensures frame { frame builder.new.arena.now ≡ frame builder.old.arena.now }
    ensures same { builder.new.arena.ghost_name ≡ builder.old.arena.ghost_name }
    ensures same_steps { builder.new.steps.ghost_name ≡ builder.old.steps.ghost_name }
    ensures steps { builder.new.steps.now ≤ builder.old.steps.now + 3 }
{
    match add_child(
        builder.arena,
        path.at(dim),
        dim,
        edge.code,
        edge.is_forced,
        builder.steps,
    ) {
        Ok(node) => {
            path.set(dim + 1, node);
            builder.fronts.note(part, dim, node);
            Ok(())
        }
        Err(error) => Err(error),
    }
}

/// The node of the prefix through the dimension of a group's only row, if it is stored. None if the
/// group has more rows.
fn prefix_node_of_row(fronts: &PrefixNodes, group: &Group<'_>) -> Option<NodeNo>
    ensures { IfSome result (λ node. (arena : Arena)
        → ArePrefixNodes group.now.table.now arena fronts.now →
        cell_at arena.now node.0
        ≡ Some (cell_prefix (suc group.now.dim)
        (shared_by (named group.now.table.now group.now.rows.now)))) }
{
    if group.rows.len() != 1 {
        return None;
    }
    fronts.at(group.rows[0], group.dim)
}

/// The node of the prefix through the group's dimension of what its rows share. They share a value
/// in dimension `at`, where `upper` has Any. So the node exists already: it is stored, or found by
/// a descent from the path.
fn shared_prefix_node<L: Ledger>(
    builder: &mut Builder<'_, L>,
    group: &Group<'_>,
    at: u8,
    path: &Path,
) -> NodeNo
    requires { StandsAtLink group.now at builder.old.arena.now path.now builder.old.fronts.now }
    ensures node { cell_at builder.old.arena.now.now result.0
        ≡ Some (cell_prefix (suc group.now.dim)
        (shared_by (named group.now.table.now group.now.rows.now))) }
    ensures arena { builder.new.arena.now ≡ builder.old.arena.now }
    ensures fronts { builder.new.fronts.now ≡ builder.old.fronts.now }
    ensures same { builder.new.arena.ghost_name ≡ builder.old.arena.ghost_name }
    ensures same_steps { builder.new.steps.ghost_name ≡ builder.old.steps.ghost_name }
    ensures steps { builder.new.steps.now ≤ builder.old.steps.now + (group.now.dim + 1) }
{
    if let Some(node) = prefix_node_of_row(builder.fronts, group) {
        return node;
    }
    let dim = group.dim;
    let target = shared_prefix(group, at);
    match builder.fronts.find(group.rows[0], &target, dim) {
        Some(node) => node,
        None => descend(builder.arena, path.at(at), &target, at, dim, builder.steps),
    }
}

/// Sets the edge to a group's node. Its rows share a value in dimension `at`, where `upper` has
/// Any, so the node exists already.
pub(crate) fn link_part<L: Ledger>(
    builder: &mut Builder<'_, L>,
    group: &Group<'_>,
    at: u8,
    path: &Path,
) -> Result<(), Memory>
    requires { StandsAtLink group.now at builder.old.arena.now path.now builder.old.fronts.now }
    ensures done { OnOk result (HasDone group.now.table.now (link_acts group.now)
        builder.old.arena.now builder.new.arena.now builder.new.fronts.now) }
    ensures frame { frame builder.new.arena.now ≡ frame builder.old.arena.now }
    ensures same { builder.new.arena.ghost_name ≡ builder.old.arena.ghost_name }
    ensures same_steps { builder.new.steps.ghost_name ≡ builder.old.steps.ghost_name }
    ensures steps { builder.new.steps.now ≤ builder.old.steps.now + (group.now.dim + 2) }
{
    let to = shared_prefix_node(builder, group, at, path);
    set_link(
        builder.arena,
        path.at(group.dim),
        group.dim,
        group.code,
        to,
        builder.steps,
    )
}
