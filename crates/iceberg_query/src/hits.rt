// The classes of nodes, with their values.
ghost use Rattle.std.specs.Prelude.{All, IfOk, IsSome, length, map, ◌*◌, ◌+◌, ◌^◌, ◌≡◌, ◌≤◌};
ghost use Rattle.qc_arena.specs.RecordReaders.{record_at};
ghost use Rattle.tree_search.specs.Found.{IsTreeOf, TreeRows};
ghost use Rattle.iceberg_query.specs.Subtree.{numbers};
ghost use Rattle.iceberg_query.specs.Hits.{AreClasses, IsValued, class_at, valued_class, valued_of};

use crate::{Memory, Selection};
use aggregates::{Ratio, value_of};
use cell_core::{Cell, NodeNo, Steps};
use lower_bounds::{ClassHit, lower_bounds};
use qc_arena::Nodes;
use std::alloc::Global;
use std::sync::ledger::Ledger;

/// A class with its value.
#[derive(Drop)]
pub(crate) struct ValuedClass {
    pub(crate) value: Ratio,
    pub(crate) class: ClassHit,
}

// The class of a node.
fn value_at<T: Nodes, L: Ledger>(
    alloc: Global,
    selection: &Selection<T>,
    node: NodeNo,
    steps: &mut Steps<L>,
) -> Result<ValuedClass, Memory>
    requires { IsSome (record_at selection.now.tree.now.tree node.0).class }
    ensures hit { (source : TreeRows) →
        IsTreeOf selection.now.tree.now.width selection.now.tree.now.tree source →
        IfOk result (λ v. valued_of v ≡ class_at source selection.now.tree.now.tree node.0) }
    ensures value { IfOk result (λ v. IsValued selection.now.ask.now v) }
    ensures steps { steps.new ≤ steps.old
        + 32 * (selection.now.tree.now.width + 1) ^ 2 * 2 ^ selection.now.tree.now.width }
{
    let tree = selection.tree;
    let mut upper = Cell::any(alloc, tree.dims());
    tree.upper_into(node, &mut upper, steps);
    let total = tree.class(node, steps).unwrap();
    match lower_bounds(alloc, tree, node, steps) {
        Ok(lowers) => Ok(ValuedClass {
            value: value_of(&total, selection.ask.kind, selection.ask.scale),
            class: ClassHit {
                upper,
                agg: total,
                lowers,
            },
        }),
        Err(error) => Err(error),
    }
}

/// The classes of some nodes.
pub(crate) fn values_at<T: Nodes, L: Ledger>(
    alloc: Global,
    selection: &Selection<T>,
    nodes: &[NodeNo],
    steps: &mut Steps<L>,
) -> Result<Vec<ValuedClass>, Memory>
    requires { AreClasses selection.now.tree.now.tree (numbers nodes.now) }
    ensures hits { (source : TreeRows) →
        IsTreeOf selection.now.tree.now.width selection.now.tree.now.tree source →
        IfOk result (λ vs. map valued_of vs.items
        ≡ map (class_at source selection.now.tree.now.tree) (numbers nodes.now)) }
    ensures values { IfOk result (λ vs. All (IsValued selection.now.ask.now) vs.items) }
    ensures steps { steps.new ≤ steps.old
        + length nodes.now * (32 * (selection.now.tree.now.width + 1) ^ 2
        * 2 ^ selection.now.tree.now.width) }
{
    let mut values = match Vec::with_capacity(alloc, nodes.len()) {
        Ok(values) => values,
        Err(error) => return Err(error),
    };
    'nodes: for node in nodes {
        let value = match value_at(alloc, selection, *node, steps) {
            Ok(value) => value,
            Err(error) => return Err(error),
        };
        values.push_reserved(value);
    }
    Ok(values)
}

/// The classes without their values.
pub(crate) fn without_values(
    alloc: Global,
    values: Vec<ValuedClass>,
) -> Result<Vec<ClassHit>, Memory>
    ensures { IfOk result (λ classes. classes.items ≡ map valued_class values.items) }
{
    values.into_iter().map(|value| value.class).collect(alloc)
}
