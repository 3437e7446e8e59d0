// Adds a dimension: each row gets its value there, and each class of the tree a child with the
// value.
ghost use Rattle.std.specs.FinMap as finmap;
ghost use Rattle.std.specs.Ordering.{nat_cmp};
ghost use Rattle.std.specs.Prelude.{Err, IfOk, List, None, Ok, OnErr, OnOk, Some, false, if◌then◌else◌, length, map, nat_le, nat_lt, true, ℕ, ◌*◌, ◌+◌, ◌-◌, ◌<◌, ◌≡◌, ◌≤◌};
ghost use Rattle.base_table.specs.Places.{IsTable, rows_of, with_code};
ghost use Rattle.cell_core.specs.Gives.{Gives};
ghost use Rattle.cell_core.specs.declared.cell.NodeNo as numbers;
ghost use Rattle.cube_defs.specs.Rows.{Row};
ghost use Rattle.cube_defs.specs.Tree.{Tree};
ghost use Rattle.iceberg_query.specs.Subtree.{numbers as numbers_of};
ghost use Rattle.qc_arena.specs.Changes.{AreClassNumbers, class_now};
ghost use Rattle.qc_arena.specs.Map.{is_open};
ghost use Rattle.qc_schema.specs.Grammar.{is_new_name};
ghost use Rattle.qc_schema.specs.Schema.{max_dims};
ghost use Rattle.tree_laws.specs.Counts.{classes_in};
ghost use Rattle.tree_search.specs.Found.{IsTreeOf};
ghost use Rattle.warehouse.specs.Changing.{AreParts, contents_of, state_in};
ghost use Rattle.warehouse.specs.ClassMoves.{HasRoom, HaveChildren, IsWide};
ghost use Rattle.warehouse.specs.Dimensions.{AreWidened, CanWiden};
ghost use Rattle.warehouse.specs.NodeLists.{ListsClasses};
ghost use Rattle.warehouse.specs.State.{IsIndexed};
ghost use Rattle.warehouse.specs.Steps.{frame};
ghost use Rattle.warehouse.specs.Stored.{applied_in};
ghost use Rattle.warehouse.specs.Widening.{KeepsWidened, size_of, steps_of_widening, widen_refusal_in, widen_result};

use crate::Memory;
use crate::cube::Cube;
use crate::indexing::index_of_classes;
use crate::refused::{Applied, WidenRefused};
use base_table::Table;
use cell_core::{NodeNo, Steps};
use cube_defs::{MAX_DIMS, MAX_TEXT};
use measure_index::Index;
use qc_arena::{Nodes, QcArena};
use qc_schema::Schema;
use std::alloc::Global;
use std::sync::ledger::Ledger;

// Gives the classes of the nodes at the first so many places of a list back to their parents, and
// removes the last dimension: the tree is the one of before the dimension came. Takes no memory.
fn narrow_tree<L: Ledger>(
    tree: &mut QcArena,
    classes: &mut Vec<NodeNo>,
    count: usize,
    steps: &mut Steps<L>,
)
    requires closed { is_open tree.old ≡ false }
    requires some { 1 < tree.old.width }
    requires moved { (before : Tree ℕ) × (old : List numbers.NodeNo)
        × HaveChildren (tree.old.width - 1) count before tree.old.now old classes.old.items }
    ensures back { (before : Tree ℕ) (old : List numbers.NodeNo) →
        HaveChildren (tree.old.width - 1) count before tree.old.now old classes.old.items
        → tree.new.now ≡ before }
    ensures rest { tree.new
        ≡ record tree.old { width = tree.old.width - 1; now = tree.new.now } }
    ensures steps { steps.new ≡ steps.old + count }
{
    let dim = tree.dims() - 1;
    'places: for place in (0..count).rev() {
        classes[place] = tree.take_back(classes[place], dim, steps);
    }
    tree.narrow();
}

// Adds a dimension to the tree, in which all rows have the code 0. Each class moves to a new child,
// whose number takes its place in the list of the classes. If memory runs out, the tree is as it
// was.
fn widen_tree<L: Ledger>(
    tree: &mut QcArena,
    classes: &mut Vec<NodeNo>,
    steps: &mut Steps<L>,
) -> Result<(), Memory>
    requires closed { is_open tree.old ≡ false }
    requires some { 0 < tree.old.width }
    requires few { tree.old.width < MAX_DIMS }
    requires wide { IsWide tree.old.width tree.old.now }
    requires classes { AreClassNumbers (class_now tree.old) classes.old.items }
    requires room { HasRoom tree.old }
    ensures kept { OnOk result (KeepsWidened tree.old.width tree.old.now tree.new.now) }
    ensures classes { OnOk result (ListsClasses tree.new.now (numbers_of classes.new.items)) }
    ensures moved { OnOk result (HaveChildren tree.old.width (length classes.old.items) tree.old.now
        tree.new.now classes.old.items classes.new.items) }
    ensures few { OnOk result (finmap.len tree.new.now ≤ tree.new.max) }
    ensures rest { OnOk result (tree.new
        ≡ record tree.old { width = tree.old.width + 1; now = tree.new.now }) }
    ensures err { OnErr result (tree.new ≡ tree.old) }
    ensures steps { OnOk result (steps.new ≤ steps.old + length classes.old.items) }
{
    let dim = tree.dims();
    tree.widen();
    'places: for place in 0..classes.len() {
        classes[place] = match tree.hand_down(classes[place], dim, steps) {
            Ok(child) => child,
            Err(error) => {
                narrow_tree(tree, classes, place, steps);
                return Err(error);
            }
        };
    }
    Ok(())
}

// Adds the dimension to the tree, and builds the index of its classes, which are listed. If memory
// runs out, the tree is as it was.
fn widen_indexed<L: Ledger>(
    wide: &Schema,
    tree: &mut QcArena,
    classes: &mut Vec<NodeNo>,
    alloc: Global,
    steps: &mut Steps<L>,
) -> Result<Index, Memory>
    requires closed { is_open tree.old ≡ false }
    requires some { 0 < tree.old.width }
    requires few { tree.old.width < MAX_DIMS }
    requires dims { length wide.now.dims ≡ tree.old.width + 1 }
    requires tree { (rows : List (Row ℕ)) × IsTreeOf tree.old.width tree.old.now
        (record { measures = length wide.now.measures; rows = rows }) }
    requires classes { AreClassNumbers (class_now tree.old) classes.old.items }
    requires room { HasRoom tree.old }
    ensures kept { OnOk result (KeepsWidened tree.old.width tree.old.now tree.new.now) }
    ensures few { OnOk result (finmap.len tree.new.now ≤ tree.new.max) }
    ensures rest { OnOk result (tree.new
        ≡ record tree.old { width = tree.old.width + 1; now = tree.new.now }) }
    ensures err { OnErr result (tree.new ≡ tree.old) }
    ensures index { IfOk result (λ index. IsIndexed wide.now tree.new.now index) }
    ensures steps { OnOk result (steps.new ≤ steps.old + 2 * length classes.old.items) }
{
    match widen_tree(tree, classes, steps) {
        Ok(()) => {}
        Err(error) => return Err(error),
    }
    match index_of_classes(alloc, wide, tree, classes, steps) {
        Ok(index) => Ok(index),
        Err(error) => {
            let count = classes.len();
            narrow_tree(tree, classes, count, steps);
            Err(error)
        }
    }
}

// Adds a dimension to the rows, in which each has the code 0. Takes no memory.
fn widen_rows(table: &mut Table)
    requires closed { table.old.was ≡ None }
    requires few { table.old.dims < MAX_DIMS }
    ensures rows { rows_of table.new ≡ map (with_code 0) (rows_of table.old) }
    ensures frame { frame table.new ≡ record (frame table.old) { dims = table.old.dims + 1 } }
    ensures valid { IsTable table.new }
{
    table.begin();
    table.widen(0);
    table.commit();
    table.recall_invariant();
}

// Adds the dimension to rows, texts and tree, whose classes are listed, and builds the index of the
// classes. After a refusal all is as it was.
fn widen_parts<L: Ledger>(
    wide: &Schema,
    cube: &mut Cube,
    classes: &mut Vec<NodeNo>,
    value: &str,
    steps: &mut Steps<L>,
) -> Result<Index, Memory>
    requires can { CanWiden wide.now cube.old }
    requires classes { AreClassNumbers (class_now cube.old.tree) classes.old.items }
    ensures widened { OnOk result (AreWidened value.now cube.old cube.new) }
    ensures back { OnErr result (cube.new ≡ cube.old) }
    ensures index { IfOk result (λ index. IsIndexed wide.now cube.new.tree.now index) }
    ensures steps { OnOk result (steps.new ≤ steps.old + 2 * length classes.old.items) }
{
    match cube.dict.add_dim(value) {
        Ok(()) => {}
        Err(error) => return Err(error),
    }
    // The rows come last, for they take no memory.
    match widen_indexed(wide, &mut cube.tree, classes, cube.alloc, steps) {
        Ok(index) => {
            widen_rows(&mut cube.table);
            Ok(index)
        }
        Err(error) => {
            cube.dict.drop_dim();
            Err(error)
        }
    }
}

// Why no dimension can be added, if that is so.
fn widen_refusal(schema: &Schema, tree: &QcArena) -> Option<WidenRefused>
    ensures { result ≡ (if nat_le (max_dims schema.now.version) (length schema.now.dims)
        then Some WidenRefused.DimsFull
        else (if nat_lt schema.now.nodes (finmap.len tree.now.now + classes_in nat_cmp tree.now.now)
        then Some WidenRefused.NodesFull else None)) }
{
    if schema.max_dims() <= schema.dims() {
        return Some(WidenRefused::DimsFull);
    }
    let nodes = u64::from(tree.live()) + u64::from(tree.class_count());
    if u64::from(schema.nodes()) < nodes {
        return Some(WidenRefused::NodesFull);
    }
    None
}

/// Adds a dimension with one value to all parts of a warehouse, or to none.
pub(crate) fn widen<L: Ledger>(
    schema: &mut Schema,
    cube: &mut Cube,
    index: &mut Index,
    name: &str,
    value: &str,
    steps: &mut Steps<L>,
) -> Result<Applied, WidenRefused>
    requires parts { AreParts schema.old cube.old index.old }
    requires images { cube.old.tree.last ≡ finmap.empty }
    requires name { is_new_name schema.old name.now ≡ true }
    requires value { length value.now ≤ MAX_TEXT }
    ensures gives { Gives widen_refusal_in (applied_in (state_in schema.new cube.new)) result
        (widen_result (state_in schema.old cube.old) name.now value.now) }
    ensures records { OnOk result
        (KeepsWidened (length schema.old.dims) cube.old.tree.now cube.new.tree.now) }
    ensures steps { OnOk result
        (steps.new ≤ steps.old + steps_of_widening (length schema.old.dims)
        (size_of cube.old.tree.now)) }
    ensures same { OnErr result
        (contents_of schema.new cube.new index.new ≡ contents_of schema.old cube.old index.old) }
    ensures parts { AreParts schema.new cube.new index.new }
    ensures images { cube.new.tree.last ≡ finmap.empty }
{
    if let Some(refused) = widen_refusal(schema, &cube.tree) {
        return Err(refused);
    }
    let mut numbers = match cube.tree.class_numbers(cube.alloc, steps) {
        Ok(numbers) => numbers,
        Err(_) => return Err(WidenRefused::Memory),
    };
    let wide = match schema.with_dim(cube.alloc, name) {
        Ok(wide) => wide,
        Err(_) => return Err(WidenRefused::Memory),
    };
    // A schema has a layout of its own.
    let _dims = wide.dims();
    let made = match widen_parts(&wide, cube, &mut numbers, value, steps) {
        Ok(made) => made,
        Err(_) => {
            drop(wide);
            return Err(WidenRefused::Memory);
        }
    };
    *schema = wide;
    *index = made;
    let classes = cube.tree.class_count();
    Ok(Applied {
        records: 0,
        classes,
    })
}
