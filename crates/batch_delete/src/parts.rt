// The closure and the aggregate of a class after the deletion.
ghost use Rattle.std.specs.FinMap as map;
ghost use Rattle.std.specs.Prelude.{IfSome, IsSome, List, None, Some, [], false, length, nat_eq, slice_get, slice_index_or, ℕ, ◌*◌, ◌+◌, ◌++◌, ◌∷◌, ◌<◌, ◌≡◌, ◌≤◌};
ghost use Rattle.std.specs.Option.{option_copied, option_map};
ghost use Rattle.std.specs.Ordering.{eq_by_cmp, nat_cmp};
ghost use Rattle.cube_defs.specs.Cell.{cell_prefix, with_value};
ghost use Rattle.cube_laws.specs.Parts.{IsLastAny};
ghost use Rattle.aggregates.specs.Views.{agg_in};
ghost use Rattle.cube_defs.specs.Tree.{cell_at};
ghost use Rattle.qc_arena.specs.RecordReaders.{number, record_at};
ghost use Rattle.cube_laws.specs.Total.{join_aggs, join_cells};
ghost use Rattle.tree_search.specs.Found.{IsNumberOfCell, closure_in};
ghost use Rattle.batch_delete.specs.declared.generalizing.NodeCell.{NodeCell};
ghost use Rattle.batch_delete.specs.Generalizing.{AreGeneralizing};
ghost use Rattle.batch_delete.specs.DeletedRow.{ArePartOf, ArePartsPlanned, CanSettle, HasFound, HasOwnPart, IsKnown, IsLastPartPlanned, IsPartLabel, IsPrefixNode};
ghost use Rattle.batch_delete.specs.Plan.{planned_rest_in, prefix_labels, is_value, last_any_of};
ghost use Rattle.batch_delete.specs.Rests.{CanJoin, Deletion, IsRest, IsTotal, agg_of_rest, other_values, rows_after, rows_before, shared_of, source_before};

use crate::cells::{has, last_any};
use crate::deleted_row::{Class, DeletedRow, class_at_node};
use crate::generalizing::NodeCell;
use crate::labels::first_label;
use crate::partial_search::{find_from, prefix_node};
use crate::plan::{NodePlan, copied, planned_rest};
use crate::searches::{SEARCHES, Searches, search_on};
use crate::stays::settled;
use crate::subtracting::combined;
use aggregates::Agg;
use cell_core::{Cell, Code, Entry, NodeNo, Steps, meet_into};
use cube_defs::MAX_ROWS;
use indexmap::IndexMap;
use qc_arena::{Nodes, QcArena};
use std::sync::ledger::Ledger;
use tree_search::upper_into;

/// The values that some rows share, and the aggregate of these rows.
#[derive(Drop)]
pub(crate) struct Rest {
    pub shared: Cell,
    pub agg: Agg,
}

impl Rest {
    pub(crate) fn copy(&self) -> Rest
        ensures { result ≡ self.now }
    {
        Rest {
            shared: self.shared.copy(),
            agg: self.agg,
        }
    }
}

// Joins the rest of a group of rows to that of others, which may be none.
fn join(rest: &mut Option<Rest>, part: Rest)
    requires { IfSome rest.old (λ some. CanJoin some part) }
    ensures cells { shared_of rest.new ≡ join_cells nat_eq (shared_of rest.old)
        (Some part.shared) }
    ensures aggs { agg_of_rest rest.new ≡ join_aggs (agg_of_rest rest.old)
        (Some (agg_in part.agg)) }
    ensures parts { IfSome rest.new
        (λ some. length (agg_in some.agg).parts ≡ length (agg_in part.agg).parts) }
    ensures long { IfSome rest.new (λ some. length some.shared ≡ length part.shared) }
{
    match rest {
        None => *rest = Some(part),
        Some(some) => {
            meet_into(&mut some.shared, &part.shared);
            some.agg = combined(some.agg, part.agg);
        }
    }
}

// What the rows of a cell share, and their aggregate. The node is that of the cell's closure.
fn rest_at<L: Ledger>(
    arena: &QcArena,
    cell: Cell,
    node: NodeNo,
    steps: &mut Steps<L>,
) -> Option<Rest>
    ghost d: { Deletion }
    requires { HasFound d arena.now cell node.0 }
    ensures rest { IsRest d.measures (rows_before d) cell result }
    ensures steps { steps.new ≤ steps.old + (2 * length cell + 3) }
{
    match arena.class(node, steps) {
        None => None,
        Some(agg) => {
            let mut shared = cell;
            upper_into(arena, node, &mut shared, steps);
            Some(Rest { shared, agg })
        }
    }
}

// The rest of those rows of a class that have the tuple's value in a dimension of Any. `front` is
// the node of the class's prefix before that dimension.
fn own_part<'a, L: Ledger>(
    class: &Class<'_>,
    plan: &'a IndexMap<u32, NodePlan>,
    dim: u8,
    front: NodeNo,
    steps: &mut Steps<L>,
) -> Option<&'a Rest>
    ghost d: { Deletion }
    requires { HasOwnPart d class.now plan.now.entries dim front.0 }
    ensures rest { (v : ℕ) → slice_index_or class.now.row.now.tuple.now dim None ≡ Some v
        → IsRest d.measures (rows_after d) (with_value class.now.cell.now dim v)
        (option_copied result) }
    ensures steps { steps.new ≤ steps.old + (2 * length class.now.cell.now + 1) }
{
    let arena = class.row.arena;
    let Entry::Is(code) = class.row.tuple.get(dim) else {
        return None;
    };
    let Some(target) = arena.edge(front, dim, code, steps) else {
        return None;
    };
    let Some(node) = find_from(arena, class.cell, (dim, code, target), steps) else {
        return None;
    };
    planned_rest(plan, node)
}

// Joins the rows of a label to the rest. The label's value isn't the tuple's. Gives whether the
// label has any rows of the class. `node` is what the search for the label has found.
fn with_part<L: Ledger>(
    arena: &QcArena,
    cell: &Cell,
    label: (u8, Code, NodeNo),
    node: NodeNo,
    rest: &mut Option<Rest>,
    steps: &mut Steps<L>,
) -> bool
    ghost d: { Deletion }
    requires label { IsPartLabel d arena.now cell.now label.0 label.1 }
    requires found { IsNumberOfCell arena.now.now (Some node.0)
        (closure_in (source_before d) (with_value cell.now label.0 label.1)) }
    requires few { (part : _)
        → IsRest d.measures (rows_before d) (with_value cell.now label.0 label.1) (Some part) →
        IfSome rest.old (λ some. some.agg.count + part.agg.count ≤ MAX_ROWS) }
    requires rest { ArePartOf d cell.now rest.old }
    ensures rest { ArePartOf d cell.now rest.new }
    ensures total { (v : ℕ) (w : _) (vs : List ℕ) → eq_by_cmp nat_cmp label.1 v ≡ false
        → IsTotal d cell.now label.0 v w vs rest.old →
        IsTotal d cell.now label.0 v w (vs ++ label.1 ∷ []) rest.new }
    ensures same { result ≡ false → rest.new ≡ rest.old }
    ensures steps { steps.new ≤ steps.old + (2 * length cell.now + 3) }
{
    let (dim, code, _) = label;
    let mut more = cell.copy();
    more.set(dim, Entry::Is(code));
    match rest_at(arena, more, node, steps) {
        None => false,
        Some(part) => {
            join(rest, part);
            true
        }
    }
}

// Joins the rows of a label to the rest, unless the label has the tuple's value. Gives whether the
// rest has more rows. `node` is what the search for the label has found.
fn with_label<L: Ledger>(
    class: &Class<'_>,
    label: (u8, Code, NodeNo),
    node: NodeNo,
    rest: &mut Option<Rest>,
    steps: &mut Steps<L>,
) -> bool
    ghost d: { Deletion }
    requires class { IsKnown d class.now }
    requires label { IsPartLabel d class.now.row.now.arena.now class.now.cell.now label.0
        label.1 }
    requires found { IsNumberOfCell class.now.row.now.arena.now.now (Some node.0)
        (closure_in (source_before d) (with_value class.now.cell.now label.0 label.1)) }
    requires few { is_value (slice_index_or class.now.row.now.tuple.now label.0 None) label.1
        ≡ false → (part : _) →
        IsRest d.measures (rows_before d) (with_value class.now.cell.now label.0 label.1)
        (Some part) → IfSome rest.old (λ some. some.agg.count + part.agg.count ≤ MAX_ROWS) }
    requires rest { ArePartOf d class.now.cell.now rest.old }
    ensures rest { ArePartOf d class.now.cell.now rest.new }
    ensures total { (v : ℕ) (w : _) (vs : List ℕ)
        → slice_index_or class.now.row.now.tuple.now label.0 None ≡ Some v
        → IsTotal d class.now.cell.now label.0 v w vs rest.old →
        IsTotal d class.now.cell.now label.0 v w
        (vs ++ other_values label.0 v (record {
          dim = label.0;
          value = label.1;
          target
              = label.2.0;
        } ∷ [])) rest.new }
    ensures same { result ≡ false → rest.new ≡ rest.old }
    ensures steps { (v : ℕ) → slice_index_or class.now.row.now.tuple.now label.0 None ≡ Some v →
        steps.new ≤ steps.old + (2 * length class.now.cell.now + 3) * length
        (other_values label.0 v (record {
          dim = label.0;
          value = label.1;
          target
              = label.2.0;
        } ∷ [])) }
{
    if has(class.row.tuple, label.0, label.1) {
        return false;
    }
    with_part(class.row.arena, class.cell, label, node, rest, steps)
}

// The rest of a class. It begins with the rows that have the tuple's value in the dimension. Then
// the rows of one label after another are joined, until the rest of the whole class is settled.
fn with_labels<L: Ledger>(
    class: &Class<'_>,
    dim: u8,
    front: NodeNo,
    own: Option<&Rest>,
    steps: &mut Steps<L>,
) -> Option<Rest>
    ghost d: { Deletion }
    requires front { IsPrefixNode d class.now dim front.0 }
    requires rest { (v : ℕ) → slice_index_or class.now.row.now.tuple.now dim None ≡ Some v
        → IsRest d.measures (rows_after d) (with_value class.now.cell.now dim v)
        (option_copied own) }
    ensures rest { IsRest d.measures (rows_after d) class.now.cell.now result }
    ensures steps { steps.new ≤ steps.old + (2 + (4 * length class.now.cell.now + 7) * length
        (record_at class.now.row.now.arena.now.now front.0).edges) }
{
    let arena = class.row.arena;
    let labels = arena.edge_count(front, steps);
    match settled(class, own) {
        Some(done) => return Some(done),
        None => {}
    }
    let mut all = copied(own);
    let first = first_label(arena, front, dim as u16, 0, steps);
    if first == labels {
        return all;
    }
    let end = first_label(arena, front, dim as u16 + 1, first, steps);
    let mut searches = Searches {
        from: first,
        until: first,
        end,
        nodes: [None; SEARCHES as usize],
    };
    'labels: for k in first..end {
        search_on(class, dim, front, k, &mut searches, steps);
        let Some(node) = searches.nodes[(k - searches.from) as usize] else {
            continue;
        };
        let label = arena.edge_at(front, k, steps);
        if with_label(class, label, node, &mut all, steps) {
            match settled(class, all.as_ref()) {
                Some(done) => return Some(done),
                None => {}
            }
        }
    }
    all
}

// The rest of a class, joined from its parts by its last dimension of Any.
fn all_parts<L: Ledger>(
    row: &DeletedRow<'_>,
    plan: &IndexMap<u32, NodePlan>,
    below: &NodeCell,
    dim: u8,
    steps: &mut Steps<L>,
) -> Option<Rest>
    ghost d: { Deletion }
    requires { IsLastPartPlanned d row.now plan.now.entries below.now dim }
    ensures rest { IsRest d.measures (rows_after d) below.now.cell result }
    ensures steps { (q : ℕ)
        → cell_at row.now.arena.now.now q ≡ Some (cell_prefix dim below.now.cell) →
        steps.new ≤ steps.old + ((3 * length below.now.cell + 4)
        + (4 * length below.now.cell + 7) * length (record_at row.now.arena.now.now q).edges) }
{
    let class = class_at_node(&*row, below, steps);
    let front = prefix_node(row.arena, below, dim, steps);
    let own = own_part(&class, plan, dim, front, steps);
    with_labels(&class, dim, front, own, steps)
}

/// The rest of a class that generalizes the tuple.
pub(crate) fn class_after<L: Ledger>(
    row: &DeletedRow<'_>,
    plan: &IndexMap<u32, NodePlan>,
    below: &NodeCell,
    steps: &mut Steps<L>,
) -> Option<Rest>
    ghost d: { Deletion }
    requires { ArePartsPlanned d row.now plan.now.entries below.now }
    ensures rest { IsRest d.measures (rows_after d) below.now.cell result }
    ensures steps { (list : List NodeCell)
        → AreGeneralizing row.now.arena.now.now row.now.tuple.now (length row.now.tuple.now) list →
        steps.new ≤ steps.old + ((3 * length below.now.cell + 4)
        + (4 * length below.now.cell + 7) * prefix_labels row.now.arena.now.now list
        below.now.cell
        (last_any_of below.now.cell)) }
{
    match last_any(&below.cell) {
        Some(dim) => all_parts(row, plan, below, dim, steps),
        None => match row.duplicates {
            None => None,
            Some(agg) => Some(Rest {
                shared: below.cell.copy(),
                agg,
            }),
        },
    }
}
