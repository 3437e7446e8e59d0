// The parts of a warehouse without rows; and the tree of rows that were made elsewhere, and the
// index of its classes.
ghost use Rattle.std.specs.FinMap as finmap;
ghost use Rattle.std.specs.Ordering.{nat_cmp};
ghost use Rattle.std.specs.Prelude.{Err, IfOk, None, [], length, ◌<◌, ◌≡◌};
ghost use Rattle.base_table.specs.Places.{IsTable, rows_of};
ghost use Rattle.cube_defs.specs.Tree.{nodes};
ghost use Rattle.qc_arena.specs.Map.{no_nodes};
ghost use Rattle.qc_schema.specs.Schema.{IsLayout};
ghost use Rattle.value_dict.specs.TextLists.{IsDictionary, no_texts};
ghost use Rattle.warehouse.specs.State.{IsIndexed};
ghost use Rattle.warehouse.specs.Stored.{IsNewTree, IsTreeOfTable};

use crate::Memory;
use crate::changing::rebuild;
use crate::indexing::{build_index, new_index};
use crate::refused::PartsRefused;
use base_table::Table;
use cell_core::{HashKeys, Steps};
use measure_index::Index;
use qc_arena::{ArenaRefused, QcArena};
use qc_schema::Schema;
use std::alloc::Global;
use std::sync::ledger::Ledger;
use value_dict::Dict;

/// No texts, and no rows.
pub(crate) fn no_rows(
    alloc: Global,
    keys: HashKeys,
    schema: &Schema,
) -> Result<(Dict, Table), Memory>
    ensures texts { IfOk result
        (λ made. made.0 ≡ no_texts (length schema.now.dims) schema.now.values) }
    ensures dictionary { IfOk result (λ made. IsDictionary made.0) }
    ensures rows { IfOk result (λ made. made.1 ≡ record {
      dims = length schema.now.dims;
      measures
          = length schema.now.measures;
      max = schema.now.rows;
      places = [];
      was = None;
    }) }
    ensures layout { IsLayout schema.now }
{
    let dict = Dict::with_keys(alloc, keys, schema.dims(), schema.values())?;
    match Table::with_keys(alloc, keys, schema.dims(), schema.measures(), schema.rows()) {
        Ok(table) => Ok((dict, table)),
        Err(error) => {
            drop(dict);
            Err(error)
        }
    }
}

/// A tree without nodes, and the index of no classes.
pub(crate) fn no_tree(alloc: Global, schema: &Schema) -> Result<(QcArena, Index), Memory>
    ensures tree { IfOk result
        (λ made. made.0 ≡ no_nodes (length schema.now.dims) schema.now.nodes) }
    ensures index { IfOk result (λ made. IsIndexed schema.now finmap.empty made.1) }
{
    let tree = QcArena::new(alloc, schema.dims(), schema.nodes())?;
    match new_index(alloc, schema) {
        Ok(index) => Ok((tree, index)),
        Err(error) => {
            drop(tree);
            Err(error)
        }
    }
}

// The tree of the rows, in a batch that is open.
fn open_tree<L: Ledger>(
    alloc: Global,
    schema: &Schema,
    table: &Table,
    steps: &mut Steps<L>,
) -> Result<QcArena, PartsRefused>
    requires { table.now.dims ≡ length schema.now.dims }
    ensures tree { IfOk result (λ tree. IsNewTree schema.now table.now tree) }
    ensures full { result ≡ Err PartsRefused.NodesFull
        → schema.now.nodes < length (nodes nat_cmp (rows_of table.now)) }
{
    let mut tree = QcArena::new(alloc, schema.dims(), schema.nodes())?;
    tree.begin();
    match rebuild(table, &mut tree, alloc, steps) {
        Ok(()) => Ok(tree),
        Err(ArenaRefused::Full) => {
            drop(tree);
            Err(PartsRefused::NodesFull)
        }
        Err(ArenaRefused::Memory) => {
            drop(tree);
            Err(PartsRefused::Memory)
        }
    }
}

/// The tree of a table's rows, and the index of its classes.
pub(crate) fn tree_and_index<L: Ledger>(
    alloc: Global,
    schema: &Schema,
    table: &Table,
    steps: &mut Steps<L>,
) -> Result<(QcArena, Index), PartsRefused>
    requires valid { IsTable table.now }
    requires dims { table.now.dims ≡ length schema.now.dims }
    requires measures { table.now.measures ≡ length schema.now.measures }
    ensures tree { IfOk result (λ made. IsTreeOfTable schema.now table.now made.0) }
    ensures index { IfOk result (λ made. IsIndexed schema.now made.0.now made.1) }
    ensures full { result ≡ Err PartsRefused.NodesFull
        → schema.now.nodes < length (nodes nat_cmp (rows_of table.now)) }
{
    let mut index = new_index(alloc, schema)?;
    let mut tree = match open_tree(alloc, schema, table, steps) {
        Ok(tree) => tree,
        Err(refused) => {
            drop(index);
            return Err(refused);
        }
    };
    let Ok(()) = build_index(schema, &tree, &mut index, alloc, steps) else {
        drop(tree);
        drop(index);
        return Err(PartsRefused::Memory);
    };
    tree.commit();
    tree.drop_images();
    Ok((tree, index))
}
