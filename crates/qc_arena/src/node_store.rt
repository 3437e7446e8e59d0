// The nodes by number, with their aggregates.
ghost use Rattle.std.specs.Prelude.{IfOk, IfSome, IsSome, None, OnErr, OnOk, Some, [], is_some, length, slice_get, true, false, ℕ, ◌+◌, ◌<◌, ◌≡◌, ◌≢◌, ◌≤◌};
ghost use Rattle.cell_core.specs.Entry.{IsCode};
ghost use Rattle.std.specs.Option.{option_map};
ghost use Rattle.std.specs.Ordering.{eq_by_cmp, nat_cmp};
ghost use Rattle.aggregates.specs.Views.{agg_in};
ghost use Rattle.slab.specs.Slab as slots;
ghost use Rattle.cube_defs.specs.Cell.{depth, with_value};
ghost use Rattle.tree_laws.specs.Walk.{last_label, target_at};
ghost use Rattle.qc_arena.specs.Changes.{count_in};
ghost use Rattle.qc_arena.specs.Edges.{rises, with_edge, without_edge};
ghost use Rattle.qc_arena.specs.Inside.{join};
ghost use Rattle.qc_arena.specs.Map.{bare, with_class, with_forced};
ghost use Rattle.qc_arena.specs.Parts.{HasRoom, IsShown, IsStored, parts_in};
ghost use Rattle.qc_arena.specs.Resized.{resized};
ghost use Rattle.qc_arena.specs.RecordReaders.{edge_of, label_lt, number, record_or};

use crate::Memory;
use crate::edge::PlainEdge;
use crate::image::Record;
use crate::image_parts::ImageParts;
use crate::kept_record::KeptRecord;
use crate::measure_columns::MeasureColumns;
use crate::nodes::Forced;
use crate::record_store::RecordStore;
use aggregates::Agg;
use cell_core::{Code, NodeNo};
use std::alloc::Global;
use std::marker::Model;

/// The nodes by number, with their aggregates.
#[derive(Drop)]
pub(crate) struct NodeStore {
    records: RecordStore,
    parts: MeasureColumns,
}

impl Model for NodeStore {
    ghost use Rattle.std.specs.Prelude.{Option, ℕ};
    ghost use Rattle.std.specs.Coded.{coded_option};
    ghost use Rattle.slab.specs.Slab as slab;
    ghost use Rattle.cube_defs.specs.Tree.{Node};
    ghost use Rattle.qc_arena.specs.Codes.{node_code};

    ghost Value = { slab.Slab (Option (Node ℕ ℕ)) };

    ghost coded = { slab.slab_code (coded_option node_code) };

    ghost use Rattle.qc_arena.specs.Parts.{IsStored};

    ghost view = { λ s. s.records };

    ghost invariant = { λ s. IsStored s.records s.parts };
}

// Makes room for the parts of the next node.
fn reserve_parts(records: &RecordStore, parts: &mut MeasureColumns) -> Result<(), Memory>
    requires { IsStored records.now parts.old }
    ensures stored { IsStored records.now parts.new }
    ensures here { OnOk result (HasRoom parts.new records.now.vacant_key) }
{
    match records.next_number() {
        Ok(place) => parts.reserve(place),
        Err(error) => Err(error),
    }
}

impl NodeStore {
    // No nodes, with room for so many.
    pub(crate) fn with_room(alloc: Global, room: usize) -> Result<NodeStore, Memory>
        ensures { IfOk result (λ s. s.slots ≡ []) }
    {
        let parts = match MeasureColumns::with_room(alloc, room) {
            Ok(parts) => parts,
            Err(error) => return Err(error),
        };
        match RecordStore::with_room(alloc, room) {
            Ok(records) => Ok(NodeStore { records, parts }),
            Err(error) => {
                drop(parts);
                Err(error)
            }
        }
    }

    // Whether there is a node at a place.
    pub(crate) fn has(&self, place: usize) -> bool
        ensures { result ≡ is_some (join (slots.get self.now place)) }
    {
        self.records.has(place)
    }

    // Whether a number in use is that of a killed node.
    pub(crate) fn is_killed(&self, node: u32) -> bool
        requires { slots.ContainsKey self.now node }
        ensures killed { result ≡ true → slots.get self.now node ≡ Some None }
        ensures there { result ≡ false → slots.get self.now node ≢ Some None }
    {
        self.records.is_killed(node)
    }

    // The number of places in use.
    pub(crate) fn len(&self) -> usize
        ensures { result ≡ slots.slab_len self.now }
    {
        self.records.len()
    }

    // The number of places. Each number in use is smaller.
    pub(crate) fn capacity(&self) -> usize
        ensures value { result ≡ self.now.capacity }
        ensures slots { length self.now.slots ≤ result }
    {
        self.records.capacity()
    }

    // The last dimension in which a node has a value, and the value. None at the root.
    pub(crate) fn end_of(&self, node: u32) -> Option<(u8, Code)>
        requires { IsSome (join (slots.get self.now node)) }
        ensures value { result ≡ last_label (record_or (join (slots.get self.now node))).cell }
        ensures small { IfSome result (λ label. IsCode label.1) }
    {
        self.records.record(node).end_of()
    }

    // Whether two nodes have the same last value, or none each.
    pub(crate) fn shares_end(&self, node: u32, other: u32) -> bool
        requires node { IsSome (join (slots.get self.now node)) }
        requires other { IsSome (join (slots.get self.now other)) }
        ensures same { result ≡ true
            → last_label (record_or (join (slots.get self.now node))).cell
            ≡ last_label (record_or (join (slots.get self.now other))).cell }
        ensures apart { result ≡ false
            → last_label (record_or (join (slots.get self.now node))).cell
            ≢ last_label (record_or (join (slots.get self.now other))).cell }
    {
        let other = self.records.record(other);
        self.records.record(node).shares_end(other)
    }

    pub(crate) fn parent(&self, node: u32) -> Option<NodeNo>
        requires { IsSome (join (slots.get self.now node)) }
        ensures { option_map number result
            ≡ (record_or (join (slots.get self.now node))).parent }
    {
        self.records.record(node).parent()
    }

    pub(crate) fn forced(&self, node: u32) -> Option<Forced>
        requires { IsSome (join (slots.get self.now node)) }
        ensures value { option_map edge_of result
            ≡ (record_or (join (slots.get self.now node))).forced }
        ensures small { IfSome result (λ edge. IsCode edge.code) }
    {
        self.records.record(node).forced()
    }

    pub(crate) fn is_class(&self, node: u32) -> bool
        requires { IsSome (join (slots.get self.now node)) }
        ensures { result ≡ is_some (record_or (join (slots.get self.now node))).class }
    {
        self.records.record(node).is_class()
    }

    // COUNT of a node. 0 if it is no class.
    pub(crate) fn count(&self, node: u32) -> u32
        requires { IsSome (join (slots.get self.now node)) }
        ensures { result ≡ count_in (record_or (join (slots.get self.now node))).class }
    {
        self.records.record(node).count()
    }

    // The aggregate of a node, if it is a class.
    pub(crate) fn class(&self, node: u32) -> Option<Agg>
        requires { IsSome (join (slots.get self.now node)) }
        ensures { option_map agg_in result
            ≡ (record_or (join (slots.get self.now node))).class }
    {
        match self.records.record(node).heading() {
            None => None,
            Some((count, measures)) => Some(Agg {
                count,
                measures,
                parts: self.parts.at(node),
            }),
        }
    }

    pub(crate) fn edge(&self, node: u32, dim: u8, code: Code) -> Option<NodeNo>
        requires { IsSome (join (slots.get self.now node)) }
        ensures value { option_map number result ≡ target_at (eq_by_cmp nat_cmp) dim code
            (record_or (join (slots.get self.now node))).edges }
        ensures rising { rises (record_or (join (slots.get self.now node))).edges ≡ true }
    {
        self.records.edge(node, dim, code)
    }

    pub(crate) fn edge_count(&self, node: u32) -> u32
        requires { IsSome (join (slots.get self.now node)) }
        ensures value { result ≡ length (record_or (join (slots.get self.now node))).edges }
        ensures rising { (i j : ℕ) (e f : _) → i < j
            → slice_get (record_or (join (slots.get self.now node))).edges i ≡ Some e
            → slice_get (record_or (join (slots.get self.now node))).edges j ≡ Some f →
            label_lt e f ≡ true }
    {
        self.records.edge_count(node)
    }

    pub(crate) fn edge_at(&self, node: u32, k: u32) -> (u8, Code, NodeNo)
        requires there { IsSome (join (slots.get self.now node)) }
        requires within { k < length (record_or (join (slots.get self.now node))).edges }
        ensures value { slice_get (record_or (join (slots.get self.now node))).edges k
            ≡ Some (record { dim = result.0; value = result.1; target = result.2.0 }) }
        ensures small { IsCode result.1 }
    {
        self.records.edge_at(node, k)
    }

    // The record of a child of a node, with one more value. It isn't among the nodes yet.
    pub(crate) fn child_of(&self, node: u32, dim: u8, code: Code) -> KeptRecord
        requires there { IsSome (join (slots.get self.now node)) }
        requires behind { depth (record_or (join (slots.get self.now node))).cell ≤ dim }
        requires dim { dim < length (record_or (join (slots.get self.now node))).cell }
        requires code { IsCode code }
        ensures { result.node ≡ bare (with_value
            (record_or (join (slots.get self.now node))).cell dim code) (Some node) }
    {
        self.records.record(node).child(NodeNo(node), dim, code)
    }

    // A copy of a node's parts. They mean nothing if the node is no class, and aren't read then.
    fn copy_parts(&self, alloc: Global, node: u32) -> Result<ImageParts, Memory>
        requires { IsSome (join (slots.get self.now node)) }
        ensures { IfOk result (λ parts. IfSome
            (record_or (join (slots.get self.now node))).class
            (λ a. IsShown (parts_in parts) a)) }
    {
        if self.records.record(node).is_class() {
            return self.parts.copy(alloc, node);
        }
        Ok(ImageParts::none())
    }

    // A copy of a node's record and aggregate.
    pub(crate) fn copy(&self, alloc: Global, node: u32) -> Result<Record, Memory>
        requires { IsSome (join (slots.get self.now node)) }
        ensures { IfOk result (λ w. join (slots.get self.now node) ≡ Some w) }
    {
        let edges = match self.records.copy_edges(alloc, node) {
            Ok(edges) => edges,
            Err(error) => return Err(error),
        };
        match self.copy_parts(alloc, node) {
            Ok(parts) => {
                let record = self.records.record(node).copy();
                Ok(Record::new(record, edges, parts))
            }
            Err(error) => {
                drop(edges);
                Err(error)
            }
        }
    }

    // Adds a node that is no class, and gives its number, which was free.
    #[inline(always)]
    pub(crate) fn insert(&mut self, new: KeptRecord) -> Result<u32, Memory>
        requires class { new.node.class ≡ None }
        requires edges { new.node.edges ≡ [] }
        ensures free { IfOk result (λ k. slots.get self.old k ≡ None) }
        ensures here { IfOk result (λ k. slots.get self.new k ≡ Some (Some new.node)) }
        ensures others { IfOk result (λ k. (q : ℕ) → q ≢ k
            → slots.get self.new q ≡ slots.get self.old q) }
        ensures err { OnErr result (self.new.slots ≡ self.old.slots) }
    {
        match reserve_parts(&self.records, &mut self.parts) {
            Ok(()) => self.records.insert(new),
            Err(error) => Err(error),
        }
    }

    // Frees a place in use.
    pub(crate) fn remove(&mut self, node: u32)
        requires { slots.ContainsKey self.old node }
        ensures here { slots.get self.new node ≡ None }
        ensures others { (q : ℕ) → q ≢ node → slots.get self.new q ≡ slots.get self.old q }
    {
        self.records.remove(node);
    }

    // Puts a before-image into a place in use.
    pub(crate) fn restore(&mut self, node: u32, was: Record)
        requires { slots.ContainsKey self.old node }
        ensures here { slots.get self.new node ≡ Some (Some was) }
        ensures others { (q : ℕ) → q ≢ node → slots.get self.new q ≡ slots.get self.old q }
    {
        let (record, edges, parts) = was.split();
        self.parts.put(node, &parts);
        self.records.restore(node, record, edges);
    }

    // Gives the cell of the node at a place another number of dimensions, if there is one.
    pub(crate) fn set_width(&mut self, place: usize, dims: u8)
        requires none_killed { slots.get self.old place ≢ Some None }
        requires deep { IfSome (join (slots.get self.old place)) (λ n. depth n.cell ≤ dims) }
        ensures here { join (slots.get self.new place) ≡ option_map (resized dims)
            (join (slots.get self.old place)) }
        ensures none_killed { slots.get self.new place ≢ Some None }
        ensures others { (q : ℕ) → q ≢ place → slots.get self.new q ≡ slots.get self.old q }
    {
        if self.records.contains(place) {
            self.records.set_width(place, dims);
        }
    }

    // Sets an edge of a node. Gives how many edges more there are.
    pub(crate) fn set_edge(
        &mut self,
        node: u32,
        dim: u8,
        code: Code,
        target: u32,
    ) -> Result<u32, Memory>
        requires node { IsSome (join (slots.get self.old node)) }
        requires code { IsCode code }
        ensures others { (q : ℕ) → q ≢ node → slots.get self.new q ≡ slots.get self.old q }
        ensures here { IsSome (join (slots.get self.new node)) }
        ensures ok { OnOk result
            (join (slots.get self.new node) ≡ option_map
            (with_edge (record { dim = dim; value = code; target = target }))
            (join (slots.get self.old node))) }
        ensures more { IfOk result
            (λ n. length (record_or (join (slots.get self.new node))).edges
            ≡ length (record_or (join (slots.get self.old node))).edges + n) }
        ensures fits { OnOk result
            (length (record_or (join (slots.get self.new node))).edges < 4294967296) }
        ensures err { OnErr result
            (join (slots.get self.new node) ≡ join (slots.get self.old node)) }
    {
        self.records.set_edge(node, PlainEdge { dim, code, target })
    }

    // Makes room for so many more edges of a node.
    pub(crate) fn reserve_edges(&mut self, node: u32, more: u32) -> Result<(), Memory>
        requires { IsSome (join (slots.get self.old node)) }
        ensures others { (q : ℕ) → q ≢ node → slots.get self.new q ≡ slots.get self.old q }
        ensures there { IsSome (join (slots.get self.new node)) }
        ensures here { join (slots.get self.new node) ≡ join (slots.get self.old node) }
    {
        self.records.reserve_edges(node, more)
    }

    // Removes an edge of a node. Gives the number of edges before and after.
    pub(crate) fn drop_edge(&mut self, node: u32, dim: u8, code: Code) -> (u32, u32)
        requires { IsSome (join (slots.get self.old node)) }
        ensures others { (q : ℕ) → q ≢ node → slots.get self.new q ≡ slots.get self.old q }
        ensures here { join (slots.get self.new node) ≡ option_map (without_edge dim code)
            (join (slots.get self.old node)) }
        ensures had { result.0 ≡ length (record_or (join (slots.get self.old node))).edges }
        ensures has { result.1 ≡ length (record_or (join (slots.get self.new node))).edges }
    {
        self.records.drop_edge(node, dim, code)
    }

    // Kills a node. Gives whether it was a class, and the number of its edges. Its place stays in
    // use.
    pub(crate) fn kill(&mut self, node: u32) -> (bool, u32)
        requires { IsSome (join (slots.get self.old node)) }
        ensures others { (q : ℕ) → q ≢ node → slots.get self.new q ≡ slots.get self.old q }
        ensures here { slots.get self.new node ≡ Some None }
        ensures class { result.0 ≡ is_some (record_or (join (slots.get self.old node))).class }
        ensures edges { result.1 ≡ length (record_or (join (slots.get self.old node))).edges }
    {
        let is_class = self.is_class(node);
        let edges = self.records.edge_count(node);
        self.records.kill(node);
        (is_class, edges)
    }

    // Sets the forced child of a node.
    pub(crate) fn set_forced(&mut self, node: u32, forced: Option<Forced>)
        requires node { IsSome (join (slots.get self.old node)) }
        requires code { IfSome forced (λ f. IsCode f.code) }
        ensures others { (q : ℕ) → q ≢ node → slots.get self.new q ≡ slots.get self.old q }
        ensures here { join (slots.get self.new node)
            ≡ option_map (with_forced (option_map edge_of forced))
            (join (slots.get self.old node)) }
    {
        self.records.set_forced(node, forced);
    }

    // Sets the aggregate of a node, or marks it as no class.
    pub(crate) fn set_class(&mut self, node: u32, class: &Option<Agg>)
        requires { IsSome (join (slots.get self.old node)) }
        ensures others { (q : ℕ) → q ≢ node → slots.get self.new q ≡ slots.get self.old q }
        ensures here { join (slots.get self.new node)
            ≡ option_map (with_class (option_map agg_in class.now))
            (join (slots.get self.old node)) }
    {
        self.parts.put_class(node, class);
        self.records.set_class(node, class);
    }

    // Moves the class of a node to another node.
    pub(crate) fn move_class(&mut self, from: u32, to: u32)
        requires from { IsSome (join (slots.get self.old from)) }
        requires to { IsSome (join (slots.get self.old to)) }
        requires apart { from ≢ to }
        ensures from { join (slots.get self.new from)
            ≡ option_map (with_class None) (join (slots.get self.old from)) }
        ensures to { join (slots.get self.new to)
            ≡ option_map (with_class (record_or (join (slots.get self.old from))).class)
            (join (slots.get self.old to)) }
        ensures others { (q : ℕ) → q ≢ from → q ≢ to
            → slots.get self.new q ≡ slots.get self.old q }
    {
        let class = self.class(from);
        self.set_class(to, &class);
        self.set_class(from, &None);
    }
}
