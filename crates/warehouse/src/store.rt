// The state, the tree of its rows, the index of the tree's classes, and what files do to them.
ghost use Rattle.std.specs.FinMap as finmap;
ghost use Rattle.std.specs.Mem.{manually_drop_value};
ghost use Rattle.std.specs.Prelude.{Err, IfOk, IfSome, IsErr, List, None, Ok, OnErr, OnOk, Result, length, true, ◌+◌, ◌<◌, ◌≡◌, ◌≤◌};
ghost use Rattle.base_table.specs.Places.{rows_of};
ghost use Rattle.cell_core.specs.Gives.{Gives};
ghost use Rattle.csv_load.specs.Batch.{Change};
ghost use Rattle.csv_load.specs.Faults.{Fault, fault_in};
ghost use Rattle.csv_load.specs.Files.{batch_in};
ghost use Rattle.cube_defs.specs.Text.{Text, text_cmp};
ghost use Rattle.cube_defs.specs.Tree as trees;
ghost use Rattle.aggregates.specs.declared.kind.AggKind.{AggKind};
ghost use Rattle.iceberg_query.specs.Indexed.{class_of_node};
ghost use Rattle.measure_index.specs.Index.{ranking_of};
ghost use Rattle.measure_index.specs.Rankings.{IsIndex};
ghost use Rattle.qc_arena.specs.Map.{overlaid};
ghost use Rattle.warehouse.specs.Batch as batches;
ghost use Rattle.warehouse.specs.Batch.{result_of};
ghost use Rattle.warehouse.specs.Changing.{IsInPlace};
ghost use Rattle.warehouse.specs.InPlace.{HasNoOtherImages, IsWithinCost, LeavesOtherRecords, LeavesNumbers, cost_in, has_image};
ghost use Rattle.warehouse.specs.Loading.{IsLoad, cost_of_load};
ghost use Rattle.warehouse.specs.State.{AreContents, State, coded_rows, empty, scale_in};
ghost use Rattle.warehouse.specs.Stored.{IsStored, applied_in, decoded_rows, refusal_in, state_of};
ghost use Rattle.warehouse.specs.Widening.{KeepsWidened, cost_of_widening, widen_refusal_in, widen_result};
ghost use Rattle.qc_schema.specs.Grammar.{is_new_name};

use crate::Memory;
use crate::changing::{Building, attempt, make_changes};
use crate::cube::Cube;
use crate::parts::{no_rows, no_tree, tree_and_index};
use crate::refused::{Applied, PartsRefused, Refused, Stats, WidenRefused};
use crate::widening::widen;
use base_table::Table;
use cell_core::{HashKeys, Steps};
use csv_load::{LoadRefused, RawBatch, read_base, read_batch};
use cube_defs::{MAX_FILE, MAX_TEXT};
use measure_index::Index;
use qc_arena::{Images, QcArena};
use qc_schema::Schema;
use std::alloc::Global;
use std::marker::Model;
use std::mem::ManuallyDrop;
use std::snapshot::Snapshot;
use std::sync::ledger::Ledger;
use value_dict::Dict;

/// A schema, the present rows, their tree, and the index of its classes. For each dimension it has
/// the texts that were ever accepted, in the order in which they were accepted. The before-images
/// of the last change stay until `last_images` moves them out, or until the next change.
#[derive(Drop)]
pub struct Warehouse {
    schema: Schema,
    cube: Cube,
    index: Index,
}

impl Model for Warehouse {
    ghost use Rattle.std.specs.Coded.{codes};
    ghost use Rattle.qc_arena.specs.Codes.{tree_code};
    ghost use Rattle.qc_arena.specs.Map.{images_code};
    ghost use Rattle.warehouse.specs.Changing.{AreParts, contents_of};
    ghost use Rattle.warehouse.specs.State.{Contents};

    ghost Value = { Contents };

    ghost coded = { Prim.hlevel (codes, tree_code, images_code) };

    ghost view = { λ w. contents_of w.schema w.cube w.index };

    ghost invariant = { λ w. AreParts w.schema w.cube w.index };
}

// The refusal for a file that gives no rows.
fn refused_file(refused: LoadRefused) -> Refused
    ensures { (s : State) (read : Result (List (Change Text)) Fault)
        → IfSome (fault_in refused) (λ fault. read ≡ Err fault) →
        IfSome (refusal_in result) (λ refusal. result_of s read ≡ Err refusal) }
{
    match refused {
        LoadRefused::Header => Refused::Header,
        LoadRefused::Fields(k) => Refused::Fields(k),
        LoadRefused::Utf8(k) => Refused::Utf8(k),
        LoadRefused::Op(k) => Refused::Op(k),
        LoadRefused::Id(k) => Refused::Id(k),
        LoadRefused::Amount(k) => Refused::Amount(k),
        LoadRefused::Value(k) => Refused::Value(k),
        LoadRefused::Memory => Refused::Memory,
    }
}

impl Warehouse {
    /// No rows, and no texts. What files bring is hashed under fixed keys, so a file of texts that
    /// are chosen to collide is slow.
    pub fn new(alloc: Global, schema: Schema) -> Result<Warehouse, Memory>
        ensures { IfOk result (λ warehouse. warehouse.state ≡ empty schema) }
    {
        Warehouse::with_keys(alloc, HashKeys::fixed(), schema)
    }

    /// No rows, and no texts. What files bring is hashed under these keys.
    pub fn with_keys(alloc: Global, keys: HashKeys, schema: Schema) -> Result<Warehouse, Memory>
        ensures { IfOk result (λ warehouse. warehouse.state ≡ empty schema) }
    {
        match no_rows(alloc, keys, &schema) {
            Ok((dict, table)) => match no_tree(alloc, &schema) {
                Ok((tree, index)) => Ok(Warehouse {
                    schema,
                    cube: Cube {
                        table,
                        dict,
                        tree,
                        alloc,
                    },
                    index,
                }),
                Err(error) => {
                    drop(schema);
                    drop(dict);
                    drop(table);
                    Err(error)
                }
            },
            Err(error) => {
                drop(schema);
                Err(error)
            }
        }
    }

    /// The state of a given schema, texts and rows, with the tree of the rows and the index of its
    /// classes. NodesFull is the answer exactly if the tree has more nodes than the schema allows,
    /// unless memory runs out. A refusal drops the parts.
    pub fn from_parts<L: Ledger>(
        alloc: Global,
        schema: Schema,
        dict: Dict,
        table: Table,
        steps: &mut Steps<L>,
    ) -> Result<Warehouse, PartsRefused>
        requires { IsStored schema dict table }
        ensures state { IfOk result (λ warehouse. warehouse.state ≡ state_of schema dict table) }
        ensures valid { IfOk result (λ warehouse. AreContents warehouse) }
        ensures nodes_full { result ≡ Err PartsRefused.NodesFull
            → schema.nodes < length (trees.nodes text_cmp (decoded_rows dict.lists table)) }
    {
        match tree_and_index(alloc, &schema, &table, steps) {
            Ok((tree, index)) => Ok(Warehouse {
                schema,
                cube: Cube {
                    table,
                    dict,
                    tree,
                    alloc,
                },
                index,
            }),
            Err(refused) => {
                drop(schema);
                drop(dict);
                drop(table);
                Err(refused)
            }
        }
    }

    /// Drops the warehouse. A crate that calls this needn't prove again how each of its parts is
    /// dropped.
    pub fn discard(self) {
        drop(self);
    }

    /// The schema.
    pub fn schema(&self) -> &Schema
        ensures value { result.now ≡ self.now.state.schema }
        ensures valid { AreContents self.now }
    {
        &self.schema
    }

    /// The texts that were ever accepted, each under its code.
    pub fn dict(&self) -> &Dict
        ensures texts { result.now.lists ≡ self.now.state.texts }
        ensures most { result.now.max ≡ self.now.state.schema.values }
        ensures valid { AreContents self.now }
    {
        &self.cube.dict
    }

    /// The rows by their codes. Takes no memory.
    pub fn table(&self) -> &Table
        ensures rows { rows_of result.now ≡ coded_rows self.now.state }
        ensures dims { result.now.dims ≡ length self.now.state.schema.dims }
        ensures measures { result.now.measures ≡ length self.now.state.schema.measures }
        ensures closed { result.now.was ≡ None }
        ensures valid { AreContents self.now }
    {
        &self.cube.table
    }

    /// Gives a proof what is true of every warehouse. At run time it does nothing.
    pub fn recall_invariant(&self)
        ensures { AreContents self.now }
    {
        let _read = &self.cube.tree;
    }

    /// The warehouse as it is, for proofs alone. It takes no memory, and dropping it drops nothing.
    pub fn snapshot(&self) -> ManuallyDrop<Snapshot<Warehouse>>
        ensures { (manually_drop_value result).value ≡ self.now }
    {
        ManuallyDrop::new(Snapshot::of(self))
    }

    /// The tree of the rows.
    pub fn tree(&self) -> &QcArena
        ensures value { result.now.now ≡ self.now.tree }
        ensures width { result.now.width ≡ length self.now.state.schema.dims }
        ensures max { result.now.max ≡ self.now.state.schema.nodes }
        ensures valid { AreContents self.now }
    {
        &self.cube.tree
    }

    /// The classes of the tree in order of value, for each kind that the schema's index lines name.
    pub fn index(&self) -> &Index
        ensures value { result.now ≡ self.now.index }
        ensures index { IsIndex (class_of_node self.now.tree) result.now }
        ensures unit { (kind : AggKind)
            → IfSome (ranking_of kind result.now)
            (λ r. r.scale ≡ scale_in self.now.state.schema kind) }
        ensures valid { AreContents self.now }
    {
        &self.index
    }

    /// The counts of the rows and of their tree. They are stored, not computed here.
    pub fn stats(&self) -> Stats
        ensures rows { result.rows ≡ length self.now.state.rows }
        ensures classes { result.classes ≡ length (trees.classes text_cmp self.now.state.rows) }
        ensures nodes { result.nodes ≡ length (trees.nodes text_cmp self.now.state.rows) }
        ensures tree_edges { result.tree_edges ≡ trees.tree_edges text_cmp self.now.state.rows }
        ensures links { result.links ≡ trees.links text_cmp self.now.state.rows }
    {
        let nodes = self.cube.tree.live();
        // Each node but the root is the child of one node.
        let tree_edges = u64::from(nodes.saturating_sub(1));
        Stats {
            rows: self.cube.table.count(),
            classes: self.cube.tree.class_count(),
            nodes,
            tree_edges,
            links: self.cube.tree.edge_total() - tree_edges,
        }
    }

    /// Drops the before-images of the last change. Takes no memory.
    pub fn drop_images(&mut self)
        ensures rest { self.new ≡ record self.old { images = finmap.empty } }
        ensures valid { AreContents self.new }
    {
        self.cube.tree.drop_images();
    }

    /// Moves out the before-images of the nodes that the last `load` or `apply` touched, by their
    /// numbers. After a refusal, after `attempt`, after `widen` and at a second call there are
    /// none. Takes no memory.
    pub fn last_images(&mut self) -> Images
        ensures images { result ≡ self.old.images }
        ensures rest { self.new ≡ record self.old { images = finmap.empty } }
        ensures valid { AreContents self.new }
    {
        self.cube.tree.last_images()
    }

    // Makes changes, all of them or none. No before-images of an earlier change are left.
    fn make_changes<L: Ledger>(
        &mut self,
        batch: RawBatch,
        building: Building,
        steps: &mut Steps<L>,
    ) -> Result<Applied, Refused>
        requires dims { batch.dims ≡ length self.old.state.schema.dims }
        requires measures { batch.measures ≡ length self.old.state.schema.measures }
        requires images { self.old.images ≡ finmap.empty }
        ensures gives { Gives refusal_in (applied_in self.new.state) result
            (result_of self.old.state (Ok batch.changes)) }
        ensures in_place { OnOk result (building ≡ Building.InPlace →
            IsInPlace self.old.state batch.changes self.new.state.texts
            self.old.tree self.new.tree (has_image self.new.images) steps.old steps.new) }
        ensures loaded { OnOk result (IsLoad building self.old.state batch.changes →
            steps.new ≤ steps.old + cost_of_load self.new.state) }
        ensures valid { AreContents self.new }
        ensures same { OnErr result (self.new ≡ self.old) }
        ensures images { overlaid self.new.images self.new.tree ≡ self.old.tree }
    {
        make_changes(
            &self.schema,
            &mut self.cube,
            &mut self.index,
            batch,
            building,
            steps,
        )
    }

    /// Loads a base file. All of its rows are inserted, or it is refused and nothing changes.
    pub fn load<L: Ledger>(
        &mut self,
        bytes: &[u8],
        steps: &mut Steps<L>,
    ) -> Result<Applied, Refused>
        requires { length bytes.now ≤ MAX_FILE }
        ensures gives { Gives refusal_in (applied_in self.new.state) result
            (batches.result self.old.state batches.Load bytes.now) }
        ensures steps { OnOk result (steps.new ≤ steps.old + cost_of_load self.new.state) }
        ensures valid { AreContents self.new }
        ensures state { OnErr result (self.new.state ≡ self.old.state) }
        ensures tree { OnErr result (self.new.tree ≡ self.old.tree) }
        ensures index { OnErr result (self.new.index ≡ self.old.index) }
        ensures images { overlaid self.new.images self.new.tree ≡ self.old.tree }
        ensures no_images { OnErr result (self.new.images ≡ finmap.empty) }
    {
        self.drop_images();
        if self.cube.table.count() != 0 {
            return Err(Refused::NotEmpty);
        }
        match read_base(self.cube.alloc, &self.schema, bytes) {
            Ok(batch) => self.make_changes(batch, Building::FromScratch, steps),
            Err(refused) => Err(refused_file(refused)),
        }
    }

    /// Applies a batch: its deletions, and then its insertions in their order. It is applied whole,
    /// or refused and nothing changes. The tree is changed in place. Each node that the rows left
    /// after the deletions have too keeps its number. A node that generalizes the tuple of no
    /// deleted or inserted row keeps its record. A number has a before-image only if its node,
    /// before or after, generalizes the tuple of a deleted or inserted row.
    pub fn apply<L: Ledger>(
        &mut self,
        bytes: &[u8],
        steps: &mut Steps<L>,
    ) -> Result<Applied, Refused>
        requires { length bytes.now ≤ MAX_FILE }
        ensures gives { Gives refusal_in (applied_in self.new.state) result
            (batches.result self.old.state batches.Apply bytes.now) }
        ensures numbers { OnOk result (LeavesNumbers self.old bytes.now self.new) }
        ensures apart { OnOk result (LeavesOtherRecords self.old bytes.now self.new) }
        ensures touches { OnOk result (HasNoOtherImages self.old bytes.now self.new) }
        ensures steps { OnOk result (IsWithinCost self.old.state bytes.now steps.old steps.new) }
        ensures unread { IsErr (batch_in self.old.state.schema bytes.now) → steps.new ≡ steps.old }
        ensures valid { AreContents self.new }
        ensures state { OnErr result (self.new.state ≡ self.old.state) }
        ensures tree { OnErr result (self.new.tree ≡ self.old.tree) }
        ensures index { OnErr result (self.new.index ≡ self.old.index) }
        ensures images { overlaid self.new.images self.new.tree ≡ self.old.tree }
        ensures no_images { OnErr result (self.new.images ≡ finmap.empty) }
    {
        self.drop_images();
        match read_batch(self.cube.alloc, &self.schema, bytes) {
            Ok(batch) => self.make_changes(batch, Building::InPlace, steps),
            Err(refused) => Err(refused_file(refused)),
        }
    }

    // A dry run of changes: they are made and rolled back. No before-images of an earlier change
    // are left.
    fn attempt_changes<L: Ledger>(
        &mut self,
        batch: RawBatch,
        steps: &mut Steps<L>,
    ) -> Result<Applied, Refused>
        requires dims { batch.dims ≡ length self.old.state.schema.dims }
        requires measures { batch.measures ≡ length self.old.state.schema.measures }
        requires images { self.old.images ≡ finmap.empty }
        ensures gives { (then : State)
            × Gives refusal_in (applied_in then) result
            (result_of self.old.state (Ok batch.changes)) }
        ensures steps { OnOk result (steps.new ≤ steps.old + cost_in self.old.state batch.changes) }
        ensures same { self.new ≡ self.old }
        ensures valid { AreContents self.new }
    {
        attempt(&self.schema, &mut self.cube, batch, steps)
    }

    /// A dry run of a batch: answers what `apply` would answer. Whatever the answer, the rows, the
    /// texts, the index, the tree and the numbers of its nodes are as they were. The batch is made
    /// as `apply` makes it, in as many steps, and then rolled back, which takes no memory. Like
    /// each change it drops the before-images of the last one.
    pub fn attempt<L: Ledger>(
        &mut self,
        bytes: &[u8],
        steps: &mut Steps<L>,
    ) -> Result<Applied, Refused>
        requires { length bytes.now ≤ MAX_FILE }
        ensures gives { (then : State)
            × Gives refusal_in (applied_in then) result
            (batches.result self.old.state batches.Apply bytes.now) }
        ensures steps { OnOk result (IsWithinCost self.old.state bytes.now steps.old steps.new) }
        ensures unread { IsErr (batch_in self.old.state.schema bytes.now) → steps.new ≡ steps.old }
        ensures same { self.new ≡ record self.old { images = finmap.empty } }
        ensures valid { AreContents self.new }
    {
        self.drop_images();
        match read_batch(self.cube.alloc, &self.schema, bytes) {
            Ok(batch) => self.attempt_changes(batch, steps),
            Err(refused) => Err(refused_file(refused)),
        }
    }

    /// Adds a last dimension, in which each present row has the value. The value is the dimension's
    /// only text.
    ///
    /// The tree is changed in place. Each node keeps its number. A node that is no class keeps its
    /// record, with Any in the new dimension. Each class gets a forced child with the value, which
    /// takes over its aggregate. The answer has no records, and the number of classes after it.
    ///
    /// DimsFull is the answer exactly if the schema has as many dimensions as its version allows.
    /// Else NodesFull is the answer exactly if nodes and classes together are more than the
    /// schema's nodes, unless memory runs out. After a refusal everything is as it was.
    pub fn widen<L: Ledger>(
        &mut self,
        name: &str,
        value: &str,
        steps: &mut Steps<L>,
    ) -> Result<Applied, WidenRefused>
        requires name { is_new_name self.old.state.schema name.now ≡ true }
        requires value { length value.now ≤ MAX_TEXT }
        ensures gives { Gives widen_refusal_in (applied_in self.new.state) result
            (widen_result self.old.state name.now value.now) }
        ensures records { OnOk result
            (KeepsWidened (length self.old.state.schema.dims) self.old.tree self.new.tree) }
        ensures steps { OnOk result
            (steps.new ≤ steps.old + cost_of_widening self.old.state) }
        ensures valid { AreContents self.new }
        ensures state { OnErr result (self.new.state ≡ self.old.state) }
        ensures tree { OnErr result (self.new.tree ≡ self.old.tree) }
        ensures index { OnErr result (self.new.index ≡ self.old.index) }
        ensures no_images { self.new.images ≡ finmap.empty }
    {
        self.drop_images();
        widen(
            &mut self.schema,
            &mut self.cube,
            &mut self.index,
            name,
            value,
            steps,
        )
    }
}
