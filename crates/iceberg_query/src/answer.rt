// The answer to an iceberg query.
ghost use Rattle.std.specs.Ordering.{nat_cmp};
ghost use Rattle.std.specs.Prelude.{All, IfOk, IfSome, IsSome, length, ◌*◌, ◌+◌, ◌^◌, ◌≡◌, ◌≤◌};
ghost use Rattle.cube_defs.specs.Answers as answers;
ghost use Rattle.cube_defs.specs.Text.{text_cmp};
ghost use Rattle.cube_laws.specs.Recoding.{RowsAreKnown};
ghost use Rattle.lower_bounds.specs.Classes.{hit_in};
ghost use Rattle.tree_search.specs.Found.{IsTreeOf, IsTree, TreeRows};
ghost use Rattle.value_dict.specs.Recoded.{has_code, decoded_row_list};
ghost use Rattle.value_dict.specs.TextLists.{IsDictionary};
ghost use Rattle.value_dict.specs.Decoded.{IsDecodableClass};
ghost use Rattle.measure_index.specs.Index.{ranking_of};
ghost use Rattle.measure_index.specs.Rankings.{IsIndex};
ghost use Rattle.iceberg_query.specs.Asked.{HasMeasure, ask_in};
ghost use Rattle.iceberg_query.specs.Costs.{tree_size};
ghost use Rattle.iceberg_query.specs.Subtree.{numbers};
ghost use Rattle.iceberg_query.specs.Hits.{decoded_classes};
ghost use Rattle.iceberg_query.specs.Indexed.{class_of_node};
ghost use Rattle.iceberg_query.specs.Picked.{ArePicked};

use crate::hits::{values_at, without_values};
use crate::indexed::indexed_nodes;
use crate::order::sort;
use crate::pick::pick_descendants;
use crate::{Ask, ClassHit, Memory, Selection};
use cell_core::{NodeNo, Steps};
use measure_index::Index;
use qc_arena::Nodes;
use std::alloc::Global;
use std::sync::ledger::Ledger;
use tree_search::CanonicalTree;
use value_dict::Dict;

// The classes of some nodes in order.
fn in_order<T: Nodes, L: Ledger>(
    alloc: Global,
    selection: &Selection<T>,
    dict: &Dict,
    nodes: &[NodeNo],
    steps: &mut Steps<L>,
) -> Result<Vec<ClassHit>, Memory>
    requires dims { length dict.now.lists ≡ selection.now.tree.now.width }
    requires dictionary { IsDictionary dict.now }
    requires picked { ArePicked selection.now.tree.now.tree selection.now.ask.now
        (numbers nodes.now) }
    ensures classes { (source : TreeRows) →
        IsTreeOf selection.now.tree.now.width selection.now.tree.now.tree source
        → RowsAreKnown (has_code dict.now.lists) source.rows →
        IfOk result (λ classes. decoded_classes dict.now.lists classes.items
        ≡ answers.iceberg text_cmp source.measures (decoded_row_list dict.now.lists source.rows)
        (ask_in selection.now.ask.now)) }
    ensures told { (source : TreeRows) →
        IsTreeOf selection.now.tree.now.width selection.now.tree.now.tree source
        → RowsAreKnown (has_code dict.now.lists) source.rows →
        IfOk result (λ classes. All
        (λ class. IsDecodableClass dict.now.lists source.measures (hit_in class))
        classes.items) }
    ensures count { IfOk result (λ classes. length classes.items ≡ length nodes.now) }
    ensures steps { steps.new ≤ steps.old
        + length nodes.now * (32 * (selection.now.tree.now.width + 1) ^ 2
        * 2 ^ selection.now.tree.now.width) }
{
    let _dims = selection.tree.dims();
    let mut values = match values_at(alloc, selection, nodes, steps) {
        Ok(values) => values,
        Err(error) => return Err(error),
    };
    match sort(dict, selection.ask.bound, &mut values) {
        Ok(()) => without_values(alloc, values),
        Err(error) => Err(error),
    }
}

// The nodes of the classes that pass.
fn picked<T: Nodes, L: Ledger>(
    alloc: Global,
    selection: &Selection<T>,
    steps: &mut Steps<L>,
) -> Result<Vec<NodeNo>, Memory>
    ensures picked { IfOk result
        (λ nodes. ArePicked selection.now.tree.now.tree selection.now.ask.now
        (numbers nodes.items)) }
    ensures steps { (source : TreeRows) →
        IsTreeOf selection.now.tree.now.width selection.now.tree.now.tree source →
        IfOk result (λ _. steps.new ≤ steps.old + (2 * tree_size nat_cmp source.rows + 1)) }
{
    let mut nodes = Vec::new(alloc);
    let tree = selection.tree;
    let dims = tree.dims();
    let Some(root) = tree.root(steps) else {
        return Ok(nodes);
    };
    match pick_descendants(selection, root, dims, &mut nodes, steps) {
        Ok(()) => Ok(nodes),
        Err(error) => Err(error),
    }
}

// The nodes of the classes that pass, from the index if it has the kind.
fn nodes_of<T: Nodes, L: Ledger>(
    alloc: Global,
    selection: &Selection<T>,
    index: &Index,
    steps: &mut Steps<L>,
) -> Result<Vec<NodeNo>, Memory>
    requires index { IsIndex (class_of_node selection.now.tree.now.tree) index.now }
    requires unit { IfSome (ranking_of selection.now.ask.now.kind index.now)
        (λ r. r.scale ≡ selection.now.ask.now.scale) }
    ensures picked { IfOk result
        (λ nodes. ArePicked selection.now.tree.now.tree selection.now.ask.now
        (numbers nodes.items)) }
    ensures steps { IsSome (ranking_of selection.now.ask.now.kind index.now)
        → steps.new ≡ steps.old }
    ensures walked { (source : TreeRows) →
        IsTreeOf selection.now.tree.now.width selection.now.tree.now.tree source →
        IfOk result (λ _. steps.new ≤ steps.old + (2 * tree_size nat_cmp source.rows + 1)) }
{
    if index.has(selection.ask.kind) {
        indexed_nodes(alloc, index, selection.ask)
    } else {
        picked(alloc, selection, steps)
    }
}

/// The classes whose value is at least or at most the given one, falling or rising by value, ties
/// in cell order by the texts. Each has its lower bounds in cell order.
///
/// If the index has the kind, it reads the index up to the first entry that doesn't pass. Of the
/// tree it then reads only the answer's classes: with n dimensions at most 32 (n + 1)^2 2^n steps
/// for each. Else it walks down the tree, and skips the descendants of a class if no part of its
/// rows can pass. The walk takes at most two steps for each node and edge of the tree, and one.
pub fn iceberg<T: Nodes, L: Ledger>(
    alloc: Global,
    tree: &T,
    index: &Index,
    dict: &Dict,
    ask: &Ask,
    steps: &mut Steps<L>,
) -> Result<Vec<ClassHit>, Memory>
    requires tree { IsTree (T.width tree.now) (T.tree tree.now) }
    requires index { IsIndex (class_of_node (T.tree tree.now)) index.now }
    requires unit { IfSome (ranking_of ask.now.kind index.now) (λ r. r.scale ≡ ask.now.scale) }
    requires dims { length dict.now.lists ≡ T.width tree.now }
    requires measure { HasMeasure (T.width tree.now) (T.tree tree.now) ask.now.kind }
    ensures classes { (source : TreeRows) → IsTreeOf (T.width tree.now) (T.tree tree.now) source
        → RowsAreKnown (has_code dict.now.lists) source.rows →
        IfOk result (λ classes. decoded_classes dict.now.lists classes.items
        ≡ answers.iceberg text_cmp source.measures (decoded_row_list dict.now.lists source.rows)
        (ask_in ask.now)) }
    ensures told { (source : TreeRows) → IsTreeOf (T.width tree.now) (T.tree tree.now) source
        → RowsAreKnown (has_code dict.now.lists) source.rows →
        IfOk result (λ classes. All
        (λ class. IsDecodableClass dict.now.lists source.measures (hit_in class))
        classes.items) }
    ensures steps { IsSome (ranking_of ask.now.kind index.now) →
        IfOk result (λ classes. steps.new ≤ steps.old
        + length classes.items * (32 * (T.width tree.now + 1) ^ 2 * 2 ^ T.width tree.now)) }
    ensures walked { (source : TreeRows) → IsTreeOf (T.width tree.now) (T.tree tree.now) source →
        IfOk result (λ classes. steps.new ≤ steps.old
        + (length classes.items * (32 * (T.width tree.now + 1) ^ 2 * 2 ^ T.width tree.now)
        + (2 * tree_size nat_cmp source.rows + 1))) }
{
    let _dims = dict.dims();
    let tree = CanonicalTree::of(tree);
    let selection = Selection { tree: &tree, ask };
    match nodes_of(alloc, &selection, index, steps) {
        Ok(nodes) => in_order(alloc, &selection, dict, &nodes, steps),
        Err(error) => Err(error),
    }
}
