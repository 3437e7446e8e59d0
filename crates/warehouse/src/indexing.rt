// The index of the tree's classes: it is made for a schema, and changed with a batch.
ghost use Rattle.std.specs.FinMap as finmap;
ghost use Rattle.std.specs.Prelude.{All, IfOk, IfSome, List, MatchOption, OnErr, OnOk, [], length, map, take, true, ◌+◌, ◌*◌, ◌++◌, ◌<◌, ◌∷◌, ◌≡◌, ◌≤◌};
ghost use Rattle.aggregates.specs.Views.{IsThere};
ghost use Rattle.aggregates.specs.declared.agg.Agg as aggs;
ghost use Rattle.cell_core.specs.declared.cell.NodeNo as numbers;
ghost use Rattle.measure_index.specs.Builder.{AreKeysOf, gathered_units};
ghost use Rattle.qc_arena.specs.Map.{is_open};
ghost use Rattle.qc_schema.specs.Schema.{IsLayout};
ghost use Rattle.iceberg_query.specs.Subtree.{numbers as numbers_of};
ghost use Rattle.std.specs.Ordering.{nat_cmp};
ghost use Rattle.tree_laws.specs.Counts.{classes_in};
ghost use Rattle.warehouse.specs.NodeLists.{ListsClasses};
ghost use Rattle.warehouse.specs.State.{IsIndexed, scale_in};
ghost use Rattle.warehouse.specs.Stored.{IsTreeOfSome};

use crate::Memory;
use aggregates::Agg;
use cell_core::{NodeNo, Steps};
use cube_defs::MAX_MEASURES;
use measure_index::{Index, IndexBuilder};
use qc_arena::{Nodes, QcArena};
use qc_schema::Schema;
use std::alloc::Global;
use std::sync::ledger::Ledger;

// The scales of the measures.
fn scales(schema: &Schema) -> [u8; MAX_MEASURES as usize]
    ensures value { take (length schema.now.measures) result
        ≡ map (λ m. m.scale) schema.now.measures }
    ensures layout { IsLayout schema.now }
{
    // A schema has a layout of its own.
    let _dims = schema.dims();
    let mut scales = [0; MAX_MEASURES as usize];
    'measures: for measure in 0..schema.measures() {
        scales[usize::from(measure)] = schema.scale(measure);
    }
    scales
}

/// An index of the kinds that the schema names. It has no classes.
pub(crate) fn new_index(alloc: Global, schema: &Schema) -> Result<Index, Memory>
    ensures { IfOk result (λ index. IsIndexed schema.now finmap.empty index) }
{
    let all = scales(schema);
    let count = usize::from(schema.measures());
    Index::new(alloc, schema.indexes(), &all[..count])
}

// Puts the class of a number into an index that is being filled, if it is one.
fn push_class(filling: &mut IndexBuilder, number: u32, class: &Option<Agg>) -> Result<(), Memory>
    requires { IfSome class.now
        (λ class. All (λ unit. IsThere class.measures unit.0) (gathered_units filling.old)) }
    ensures units { gathered_units filling.new ≡ gathered_units filling.old }
    ensures classes { OnOk result
        (MatchOption class.now (filling.new ≡ filling.old)
        (λ class. (before : List (numbers.NodeNo × aggs.Agg)) →
        AreKeysOf before filling.old
        → AreKeysOf (before ++ (record { 0 = number }, class) ∷ []) filling.new)) }
{
    match class {
        None => Ok(()),
        Some(class) => filling.push(NodeNo(number), class),
    }
}

// An index of the kinds that the schema names, to be filled with the classes of the tree.
fn new_filling(alloc: Global, schema: &Schema, tree: &QcArena) -> Result<IndexBuilder, Memory>
    ensures layout { IsLayout schema.now }
    ensures units { IfOk result (λ filling. gathered_units filling
        ≡ map (λ kind. (kind, scale_in schema.now kind)) schema.now.indexes) }
    ensures classes { IfOk result (AreKeysOf []) }
    ensures few { classes_in nat_cmp tree.now.now < 4294967296 }
{
    let all = scales(schema);
    let count = usize::from(schema.measures());
    let room = tree.class_count() as usize;
    IndexBuilder::new(alloc, schema.indexes(), &all[..count], room)
}

// The index of the classes of a tree. Each class is among the listed nodes.
fn index_of_listed<L: Ledger>(
    alloc: Global,
    schema: &Schema,
    tree: &QcArena,
    nodes: &Vec<NodeNo>,
    steps: &mut Steps<L>,
) -> Result<Index, Memory>
    requires tree { IsTreeOfSome schema.now tree.now.now }
    requires nodes { ListsClasses tree.now.now (numbers_of nodes.now.items) }
    ensures index { IfOk result (λ index. IsIndexed schema.now tree.now.now index) }
    ensures steps { steps.new ≤ steps.old + length nodes.now.items }
{
    let mut filling = match new_filling(alloc, schema, tree) {
        Ok(filling) => filling,
        Err(error) => return Err(error),
    };
    'places: for place in 0..nodes.len() {
        let node = nodes[place];
        match push_class(&mut filling, node.0, &tree.class(node, steps)) {
            Ok(()) => {}
            Err(error) => return Err(error),
        }
    }
    filling.finish()
}

// The index of the tree's classes, whose numbers are listed first.
fn filled_index<L: Ledger>(
    alloc: Global,
    schema: &Schema,
    tree: &QcArena,
    steps: &mut Steps<L>,
) -> Result<Index, Memory>
    requires tree { IsTreeOfSome schema.now tree.now.now }
    ensures index { IfOk result (λ index. IsIndexed schema.now tree.now.now index) }
    ensures steps { steps.new ≤ steps.old + 2 * finmap.len tree.now.now }
{
    let numbers = match tree.class_numbers(alloc, steps) {
        Ok(numbers) => numbers,
        Err(error) => return Err(error),
    };
    index_of_listed(alloc, schema, tree, &numbers, steps)
}

/// The index of the classes of a tree. Each class is among the listed nodes. If the schema names no
/// kind, they are not read.
pub(crate) fn index_of_classes<L: Ledger>(
    alloc: Global,
    schema: &Schema,
    tree: &QcArena,
    nodes: &Vec<NodeNo>,
    steps: &mut Steps<L>,
) -> Result<Index, Memory>
    requires tree { IsTreeOfSome schema.now tree.now.now }
    requires nodes { ListsClasses tree.now.now (numbers_of nodes.now.items) }
    ensures index { IfOk result (λ index. IsIndexed schema.now tree.now.now index) }
    ensures steps { steps.new ≤ steps.old + length nodes.now.items }
{
    if schema.indexes().is_empty() {
        return new_index(alloc, schema);
    }
    index_of_listed(alloc, schema, tree, nodes, steps)
}

/// Changes the index of the tree at the begin of the batch into that of the present tree, which was
/// built from scratch. A refusal leaves it as it was. If the schema names no kind, the classes are
/// not read.
pub(crate) fn build_index<L: Ledger>(
    schema: &Schema,
    tree: &QcArena,
    index: &mut Index,
    alloc: Global,
    steps: &mut Steps<L>,
) -> Result<(), Memory>
    requires opened { is_open tree.now ≡ true }
    requires before { IfSome tree.now.was (λ before. IsTreeOfSome schema.now before.tree
        × IsIndexed schema.now before.tree index.old) }
    requires now { IsTreeOfSome schema.now tree.now.now }
    ensures indexed { OnOk result (IsIndexed schema.now tree.now.now index.new) }
    ensures err { OnErr result (index.new ≡ index.old) }
    ensures steps { steps.new ≤ steps.old + 2 * finmap.len tree.now.now }
{
    if schema.indexes().is_empty() {
        return Ok(());
    }
    match filled_index(alloc, schema, tree, steps) {
        Ok(filled) => {
            *index = filled;
            Ok(())
        }
        Err(error) => Err(error),
    }
}

/// Changes the index of the tree at the begin of the batch into that of the present tree, by the
/// classes that were removed and added. A refusal leaves it as it was. If the schema names no kind,
/// the classes are not listed.
pub(crate) fn change_index(
    schema: &Schema,
    tree: &QcArena,
    index: &mut Index,
    alloc: Global,
) -> Result<(), Memory>
    requires opened { is_open tree.now ≡ true }
    requires before { IfSome tree.now.was (λ before. IsTreeOfSome schema.now before.tree
        × IsIndexed schema.now before.tree index.old) }
    requires now { IsTreeOfSome schema.now tree.now.now }
    ensures indexed { OnOk result (IsIndexed schema.now tree.now.now index.new) }
    ensures err { OnErr result (index.new ≡ index.old) }
{
    // A schema has a layout of its own.
    let _dims = schema.dims();
    if schema.indexes().is_empty() {
        return Ok(());
    }
    let removed = match tree.classes_removed(alloc) {
        Ok(removed) => removed,
        Err(error) => return Err(error),
    };
    let added = match tree.classes_added(alloc) {
        Ok(added) => added,
        Err(error) => return Err(error),
    };
    index.change(&added, &removed)
}
