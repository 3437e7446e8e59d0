// Changes are made to rows and texts, all of them or none. The tree becomes that of the rows after
// them: in place for a batch, from scratch for a base file.
ghost use Rattle.std.specs.FinMap as finmap;
ghost use Rattle.std.specs.Prelude.{Err, IfErr, IfOk, IfSome, None, Ok, OnErr, OnOk, Some, [], false, length, option_map, true, ◌+◌, ◌*◌, ◌<◌, ◌∷◌, ◌≡◌, ◌≤◌};
ghost use Rattle.base_table.specs.Places.{has_id, rows_of};
ghost use Rattle.cell_core.specs.Gives.{Gives};
ghost use Rattle.class_builder.specs.Costs.{cost_of_building};
ghost use Rattle.csv_load.specs.Batch.{HasInsertion, change_at, id_of, inserted, row_of};
ghost use Rattle.cube_defs.specs.Tree.{IsCanonical, nodes};
ghost use Rattle.qc_arena.specs.Map as arena;
ghost use Rattle.qc_arena.specs.Map.{is_open, is_touched, overlaid};
ghost use Rattle.std.specs.Ordering.{nat_cmp};
ghost use Rattle.warehouse.specs.Batch as batches;
ghost use Rattle.warehouse.specs.Batch.{first_number, first_twice, full_dim, result_of, texts_after, with_tuple};
ghost use Rattle.warehouse.specs.Changing.{AreAsBefore, AreFit, AreInserted, AreMade, AreParts, CanInsert, IsBegun, IsInPlace, LeavesFrames, OnlyAdds, RowsAreMade, contents_of, state_in};
ghost use Rattle.warehouse.specs.InPlace.{KeepsOtherRecords, KeepsNumbers, TouchesOnly, cost_in, cost_of_insertions, has_image};
ghost use Rattle.warehouse.specs.Loading.{IsLoad, cost_of_tree};
ghost use Rattle.warehouse.specs.State.{IsIndexed, State};
ghost use Rattle.warehouse.specs.Steps.{IsCause, IsOpenFor, IsOver, IsTreeBefore, is_there, rows_before, rows_from_place};
ghost use Rattle.warehouse.specs.Stored.{IsTreeOfTable, IsStored, IsTreeOfSome, applied_in, refusal_in};

use crate::Memory;
use crate::checks::{check_once, first_present, is_full};
use crate::cube::Cube;
use crate::deleting::delete_rows;
use crate::indexing::{build_index, change_index};
use crate::learning::{learn_tuple, lengths, values_full};
use crate::refused::{Applied, Refused};
use crate::row_insertion::insert_in_tree;
use base_table::{Table, TableRefused};
use cell_core::{Cell, Steps};
use class_builder::build_classes;
use csv_load::RawBatch;
use drill_links::link_all;
use measure_index::Index;
use qc_arena::{ArenaRefused, QcArena};
use qc_schema::Schema;
use std::alloc::Global;
use std::sync::ledger::Ledger;
use value_dict::{Dict, Learn};

/// How the tree of the rows after a change is made.
#[derive(Clone, Copy)]
pub(crate) enum Building {
    /// From the tree of the rows before the change.
    InPlace,
    /// From no tree.
    FromScratch,
}

// Inserts a row whose id isn't there, if there is room.
fn insert_table_row(
    table: &mut Table,
    dict: &mut Dict,
    cell: &mut Cell,
    batch: &RawBatch,
    k: u32,
) -> Result<(), Learn>
    requires insertion { HasInsertion batch.now.changes k }
    requires cell_dims { length cell.old ≡ batch.now.dims }
    requires can { CanInsert dict.old table.old batch.now }
    requires new { has_id (rows_of table.old) (id_of (change_at batch.now.changes k)) ≡ false }
    requires room { length (rows_of table.old) < table.old.max }
    ensures inserted { OnOk result
        (AreInserted (with_tuple dict.old.lists (row_of (change_at batch.now.changes k)).tuple)
        (inserted (change_at batch.now.changes k ∷ [])) dict.old dict.new table.old table.new) }
    ensures full { result ≡ Err Learn.Full
        → IsOver dict.old.max (with_tuple dict.old.lists
        (row_of (change_at batch.now.changes k)).tuple) }
    ensures adds { OnlyAdds dict.old dict.new table.old table.new }
    ensures cell_dims { length cell.new ≡ length cell.old }
{
    match learn_tuple(dict, cell, batch, k) {
        Ok(()) => {}
        Err(refused) => return Err(refused),
    }
    match table.insert(batch.id(k), cell, batch.amounts(k)) {
        Ok(()) => Ok(()),
        Err(TableRefused::Memory) => Err(Learn::Memory),
        Err(TableRefused::Present | TableRefused::Full) => unreachable!(),
    }
}

// Inserts the rows of the file. None of their ids is there, and there is room.
fn insert_table_rows(
    table: &mut Table,
    dict: &mut Dict,
    cell: &mut Cell,
    batch: &RawBatch,
) -> Result<(), Learn>
    requires cell_dims { length cell.old ≡ batch.now.dims }
    requires can { CanInsert dict.old table.old batch.now }
    requires once { first_twice batch.now.changes ≡ None }
    requires new { first_number (is_there (rows_of table.old)) batch.now.changes ≡ None }
    requires room { length (rows_of table.old) + length (inserted batch.now.changes)
        ≤ table.old.max }
    ensures inserted { OnOk result (AreInserted (texts_after dict.old.lists batch.now.changes)
        (inserted batch.now.changes) dict.old dict.new table.old table.new) }
    ensures full { result ≡ Err Learn.Full
        → IsOver dict.old.max (texts_after dict.old.lists batch.now.changes) }
    ensures adds { OnlyAdds dict.old dict.new table.old table.new }
{
    'changes: for before in 0..batch.len() {
        let number = before + 1;
        if !batch.is_delete(number) {
            match insert_table_row(table, dict, cell, batch, number) {
                Ok(()) => {}
                Err(refused) => return Err(refused),
            }
        }
    }
    Ok(())
}

// Inserts the rows of the file, if no dimension would have too many texts. None of their ids is
// there, and there is room.
fn add_rows(
    schema: &Schema,
    table: &mut Table,
    dict: &mut Dict,
    batch: &RawBatch,
    alloc: Global,
) -> Result<(), Refused>
    requires dims { batch.now.dims ≡ length schema.now.dims }
    requires can { CanInsert dict.old table.old batch.now }
    requires once { first_twice batch.now.changes ≡ None }
    requires new { first_number (is_there (rows_of table.old)) batch.now.changes ≡ None }
    requires room { length (rows_of table.old) + length (inserted batch.now.changes)
        ≤ table.old.max }
    ensures inserted { OnOk result (AreInserted (texts_after dict.old.lists batch.now.changes)
        (inserted batch.now.changes) dict.old dict.new table.old table.new) }
    ensures full { IfErr result (λ refused. IfSome (refusal_in refused)
        (λ refusal. option_map (λ dim. batches.ValuesFull dim)
        (full_dim dict.old.max (texts_after dict.old.lists batch.now.changes))
        ≡ Some refusal)) }
    ensures adds { OnlyAdds dict.old dict.new table.old table.new }
{
    let dims = schema.dims();
    let lens = lengths(dict, dims);
    let mut cell = Cell::any(alloc, dims);
    if table.reserve(batch.insertions()).is_err() {
        return Err(Refused::Memory);
    }
    match insert_table_rows(table, dict, &mut cell, batch) {
        Ok(()) => Ok(()),
        Err(Learn::Full) => {
            let lens = &lens[..usize::from(dims)];
            dict.cut_back(lens);
            Err(values_full(dict, batch, lens))
        }
        Err(Learn::Memory) => Err(Refused::Memory),
    }
}

// Makes the changes to rows and texts in an open batch, and takes deleted rows out of the tree.
// Returns the number of places before the new rows. After a refusal some of the changes are made.
fn change_rows<L: Ledger>(
    schema: &Schema,
    cube: &mut Cube,
    batch: &RawBatch,
    steps: &mut Steps<L>,
) -> Result<u32, Refused>
    requires begun { IsBegun schema.now cube.old }
    requires fit { AreFit schema.now batch.now }
    ensures made { IfOk result (λ first.
        RowsAreMade schema.now batch.now.changes first cube.old cube.new steps.old steps.new) }
    ensures cause { IfErr result (λ refused.
        IsCause refused (state_in schema.now cube.old) batch.now.changes) }
    ensures frames { LeavesFrames cube.old cube.new }
{
    match delete_rows(&mut cube.table, &mut cube.tree, batch, cube.alloc, steps) {
        Ok(()) => {}
        Err(refused) => return Err(refused),
    }
    if let Some(k) = first_present(&cube.table, batch) {
        return Err(Refused::Present(k));
    }
    if is_full(&cube.table, batch, schema.rows()) {
        return Err(Refused::RowsFull);
    }
    let first = cube.table.places();
    match add_rows(schema, &mut cube.table, &mut cube.dict, batch, cube.alloc) {
        Ok(()) => {}
        Err(refused) => return Err(refused),
    }
    Ok(first)
}

// Removes all nodes, if there are any.
fn remove_nodes<L: Ledger>(tree: &mut QcArena, steps: &mut Steps<L>) -> Result<(), Memory>
    requires { is_open tree.old ≡ true }
    ensures none { OnOk result (tree.new.now ≡ finmap.empty) }
    ensures frame { arena.frame tree.new ≡ arena.frame tree.old }
    ensures steps { tree.old.now ≡ finmap.empty → steps.new ≡ steps.old }
{
    if tree.live() == 0 {
        return Ok(());
    }
    tree.clear(steps)
}

/// Builds the tree of the table's rows from scratch. After a refusal nothing is known of the tree.
pub(crate) fn rebuild<L: Ledger>(
    table: &Table,
    tree: &mut QcArena,
    alloc: Global,
    steps: &mut Steps<L>,
) -> Result<(), ArenaRefused>
    requires { IsOpenFor table.now tree.old }
    ensures tree { OnOk result
        (IsCanonical nat_cmp table.now.measures (rows_of table.now) tree.new.now) }
    ensures fits { OnOk result (length (nodes nat_cmp (rows_of table.now)) ≤ tree.old.max) }
    ensures full { result ≡ Err ArenaRefused.Full
        → tree.old.max < length (nodes nat_cmp (rows_of table.now)) }
    ensures frame { arena.frame tree.new ≡ arena.frame tree.old }
    ensures steps { OnOk result (tree.old.now ≡ finmap.empty →
        steps.new ≤ steps.old + cost_of_building table.now.dims tree.new.now) }
{
    match remove_nodes(tree, steps) {
        Ok(()) => {}
        Err(_) => return Err(ArenaRefused::Memory),
    }
    match build_classes(alloc, table, tree, steps) {
        Ok(()) => {}
        Err(refused) => return Err(refused),
    }
    match link_all(alloc, table, tree, steps) {
        Ok(()) => Ok(()),
        Err(_) => Err(ArenaRefused::Memory),
    }
}

// Makes the tree of the table's rows: in place from that of the rows before a place, or else from
// scratch. After a refusal nothing is known of the tree.
fn make_tree<L: Ledger>(
    table: &Table,
    tree: &mut QcArena,
    first: u32,
    building: Building,
    alloc: Global,
    steps: &mut Steps<L>,
) -> Result<(), ArenaRefused>
    requires open { IsOpenFor table.now tree.old }
    requires tree { IsTreeBefore table.now tree.old first }
    ensures tree { OnOk result
        (IsCanonical nat_cmp table.now.measures (rows_of table.now) tree.new.now) }
    ensures fits { OnOk result (length (nodes nat_cmp (rows_of table.now)) ≤ tree.old.max) }
    ensures full { result ≡ Err ArenaRefused.Full
        → tree.old.max < length (nodes nat_cmp (rows_of table.now)) }
    ensures numbers { building ≡ Building.InPlace → KeepsNumbers tree.old.now tree.new.now }
    ensures apart { building ≡ Building.InPlace →
        KeepsOtherRecords (rows_from_place table.now first) tree.old.now tree.new.now }
    ensures touches { OnOk result (building ≡ Building.InPlace →
        TouchesOnly (rows_from_place table.now first) tree.new.now tree.old tree.new) }
    ensures steps { OnOk result (building ≡ Building.InPlace → steps.new ≤ steps.old
        + cost_of_insertions table.now.dims (rows_before table.now first)
        (rows_from_place table.now first)) }
    ensures scratch { OnOk result (building ≡ Building.FromScratch → tree.old.now ≡ finmap.empty →
        steps.new ≤ steps.old + cost_of_building table.now.dims tree.new.now) }
    ensures frame { arena.frame tree.new ≡ arena.frame tree.old }
{
    match building {
        Building::InPlace => insert_in_tree(table, tree, first, alloc, steps),
        Building::FromScratch => rebuild(table, tree, alloc, steps),
    }
}

// Makes the changes in an open batch, and the tree of the rows after them. After a refusal some of
// them are made.
fn change_and_build<L: Ledger>(
    schema: &Schema,
    cube: &mut Cube,
    batch: RawBatch,
    building: Building,
    steps: &mut Steps<L>,
) -> Result<(), Refused>
    requires begun { IsBegun schema.now cube.old }
    requires fit { AreFit schema.now batch }
    ensures made { OnOk result (AreMade schema.now batch.changes cube.old cube.new) }
    ensures in_place { OnOk result (building ≡ Building.InPlace →
        IsInPlace (state_in schema.now cube.old) batch.changes cube.new.dict.lists
        cube.old.tree.now cube.new.tree.now (is_touched cube.new.tree) steps.old steps.new) }
    ensures loaded { OnOk result
        (IsLoad building (state_in schema.now cube.old) batch.changes →
        steps.new ≤ steps.old + cost_of_building (length schema.now.dims) cube.new.tree.now) }
    ensures cause { IfErr result (λ refused.
        IsCause refused (state_in schema.now cube.old) batch.changes) }
    ensures frames { LeavesFrames cube.old cube.new }
{
    let first = match change_rows(schema, cube, &batch, steps) {
        Ok(first) => first,
        Err(refused) => {
            drop(batch);
            return Err(refused);
        }
    };
    // The changes of the file are dropped before a tree is made.
    drop(batch);
    match make_tree(
        &cube.table,
        &mut cube.tree,
        first,
        building,
        cube.alloc,
        steps,
    ) {
        Ok(()) => Ok(()),
        Err(ArenaRefused::Full) => Err(Refused::NodesFull),
        Err(ArenaRefused::Memory) => Err(Refused::Memory),
    }
}

// Makes the index of the present tree: in place from that of the tree at the begin of the batch, or
// else from scratch. A refusal leaves it as it was.
fn make_index<L: Ledger>(
    schema: &Schema,
    tree: &QcArena,
    index: &mut Index,
    building: Building,
    alloc: Global,
    steps: &mut Steps<L>,
) -> Result<(), Memory>
    requires opened { is_open tree.now ≡ true }
    requires before { IfSome tree.now.was (λ before. IsTreeOfSome schema.now before.tree
        × IsIndexed schema.now before.tree index.old) }
    requires now { IsTreeOfSome schema.now tree.now.now }
    ensures indexed { OnOk result (IsIndexed schema.now tree.now.now index.new) }
    ensures err { OnErr result (index.new ≡ index.old) }
    ensures steps { building ≡ Building.InPlace → steps.new ≡ steps.old }
    ensures scratch { building ≡ Building.FromScratch →
        steps.new ≤ steps.old + 2 * finmap.len tree.now.now }
{
    match building {
        Building::InPlace => change_index(schema, tree, index, alloc),
        Building::FromScratch => build_index(schema, tree, index, alloc, steps),
    }
}

// Makes the changes in an open batch, the tree of the rows after them, and last the index of its
// classes. After a refusal some of the changes are made, and the index is as it was.
fn change_and_index<L: Ledger>(
    schema: &Schema,
    cube: &mut Cube,
    index: &mut Index,
    batch: RawBatch,
    building: Building,
    steps: &mut Steps<L>,
) -> Result<(), Refused>
    requires begun { IsBegun schema.now cube.old }
    requires fit { AreFit schema.now batch }
    requires before { IfSome cube.old.tree.was (λ before.
        IsTreeOfSome schema.now before.tree × IsIndexed schema.now before.tree index.old) }
    ensures made { OnOk result (AreMade schema.now batch.changes cube.old cube.new) }
    ensures in_place { OnOk result (building ≡ Building.InPlace →
        IsInPlace (state_in schema.now cube.old) batch.changes cube.new.dict.lists
        cube.old.tree.now cube.new.tree.now (is_touched cube.new.tree) steps.old steps.new) }
    ensures loaded { OnOk result
        (IsLoad building (state_in schema.now cube.old) batch.changes →
        steps.new ≤ steps.old + cost_of_tree (length schema.now.dims) cube.new.tree.now) }
    ensures cause { IfErr result (λ refused.
        IsCause refused (state_in schema.now cube.old) batch.changes) }
    ensures frames { LeavesFrames cube.old cube.new }
    ensures indexed { OnOk result (IsIndexed schema.now cube.new.tree.now index.new) }
    ensures same_index { OnErr result (index.new ≡ index.old) }
{
    match change_and_build(schema, cube, batch, building, steps) {
        Ok(()) => {}
        Err(refused) => return Err(refused),
    }
    cube.table.recall_invariant();
    match make_index(schema, &cube.tree, index, building, cube.alloc, steps) {
        Ok(()) => Ok(()),
        Err(_) => Err(Refused::Memory),
    }
}

/// Makes the changes in a batch of their own, all of them or none, with the tree of the rows after
/// them and the index of its classes.
pub(crate) fn make_changes<L: Ledger>(
    schema: &Schema,
    cube: &mut Cube,
    index: &mut Index,
    batch: RawBatch,
    building: Building,
    steps: &mut Steps<L>,
) -> Result<Applied, Refused>
    requires parts { AreParts schema.now cube.old index.old }
    requires images { cube.old.tree.last ≡ finmap.empty }
    requires dims { batch.dims ≡ length schema.now.dims }
    requires measures { batch.measures ≡ length schema.now.measures }
    ensures gives { Gives refusal_in (applied_in (state_in schema.now cube.new)) result
        (result_of (state_in schema.now cube.old) (Ok batch.changes)) }
    ensures same { OnErr result
        (contents_of schema.now cube.new index.new ≡ contents_of schema.now cube.old index.old) }
    ensures in_place { OnOk result (building ≡ Building.InPlace →
        IsInPlace (state_in schema.now cube.old) batch.changes cube.new.dict.lists
        cube.old.tree.now cube.new.tree.now (has_image cube.new.tree.last)
        steps.old steps.new) }
    ensures loaded { OnOk result
        (IsLoad building (state_in schema.now cube.old) batch.changes →
        steps.new ≤ steps.old + cost_of_tree (length schema.now.dims) cube.new.tree.now) }
    ensures parts { AreParts schema.now cube.new index.new }
    ensures images { OnOk result (overlaid cube.new.tree.last cube.new.tree.now
        ≡ cube.old.tree.now) }
{
    match check_once(cube.alloc, cube.table.hash_keys(), &batch) {
        Ok(()) => {}
        Err(refused) => {
            drop(batch);
            return Err(refused);
        }
    }
    let records = batch.len();
    let lens = cube.begin(schema);
    match change_and_index(schema, cube, index, batch, building, steps) {
        Ok(()) => {
            cube.commit();
            let classes = cube.tree.class_count();
            Ok(Applied { records, classes })
        }
        Err(refused) => {
            cube.roll_back(&lens[..usize::from(schema.dims())]);
            Err(refused)
        }
    }
}

/// A dry run of changes: leaves rows, texts and tree as they were.
pub(crate) fn attempt<L: Ledger>(
    schema: &Schema,
    cube: &mut Cube,
    batch: RawBatch,
    steps: &mut Steps<L>,
) -> Result<Applied, Refused>
    requires stored { IsStored schema.now cube.old.dict cube.old.table }
    requires kept { IsTreeOfTable schema.now cube.old.table cube.old.tree }
    requires images { cube.old.tree.last ≡ finmap.empty }
    requires dims { batch.dims ≡ length schema.now.dims }
    requires measures { batch.measures ≡ length schema.now.measures }
    ensures gives { (then : State) × Gives refusal_in (applied_in then) result
        (result_of (state_in schema.now cube.old) (Ok batch.changes)) }
    ensures steps { OnOk result
        (steps.new ≤ steps.old + cost_in (state_in schema.now cube.old) batch.changes) }
    ensures back { AreAsBefore schema.now cube.old cube.new }
{
    match check_once(cube.alloc, cube.table.hash_keys(), &batch) {
        Ok(()) => {}
        Err(refused) => {
            drop(batch);
            return Err(refused);
        }
    }
    let records = batch.len();
    let lens = cube.begin(schema);
    let built = change_and_build(schema, cube, batch, Building::InPlace, steps);
    cube.table.recall_invariant();
    let classes = cube.tree.class_count();
    let dims = usize::from(schema.dims());
    cube.roll_back(&lens[..dims]);
    match built {
        Ok(()) => Ok(Applied { records, classes }),
        Err(refused) => Err(refused),
    }
}
