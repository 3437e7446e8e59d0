// Nodes by their numbers. A rollback restores the nodes of `begin`, numbers included.
ghost use Rattle.std.specs.Prelude.{Err, IfNone, IfOk, IfSome, IsSome, None, Ok, OnErr, OnOk, Some, false, if◌then◌else◌, nat_eq, replicate, true, ℕ, ◌+◌, ◌<◌, ◌||◌, ◌↔◌, ◌≡◌, ◌≢◌, ◌≤◌};
ghost use Rattle.cell_core.specs.Entry.{IsCode};
ghost use Rattle.std.specs.FinMap as map;
ghost use Rattle.std.specs.FinSet as set;
ghost use Rattle.std.specs.Option.{option_map};
ghost use Rattle.std.specs.Ordering.{nat_cmp};
ghost use Rattle.aggregates.specs.Views.{agg_in};
ghost use Rattle.cube_defs.specs.Cell.{depth};
ghost use Rattle.cube_defs.specs.Tree.{cell_at};
ghost use Rattle.tree_laws.specs.Counts.{classes_in, links_in, tree_edges_in};
ghost use Rattle.widen_laws.specs.Widened.{with_any_by_number};
ghost use Rattle.qc_arena.specs.Changes.{AreClassNumbers, AreNew, class_now, class_was};
ghost use Rattle.qc_arena.specs.Edges.{with_edge, without_edge};
ghost use Rattle.qc_arena.specs.Lowered.{HandsDown, IsChildOf, TakesBack};
ghost use Rattle.qc_arena.specs.Map.{AreRooted, CanChange, IsPlace, Known, edges_in, frame, is_open, is_touched, new_record, no_nodes, overlaid, shape_of, was_at, with_class, with_forced};
ghost use Rattle.qc_arena.specs.RecordReaders.{edge_of, record_at};
ghost use Rattle.qc_arena.specs.Resized.{resized};

use crate::Memory;
use crate::class_changes::changed;
use crate::class_numbers::numbers_of_classes;
use crate::counted::tree_edges_of;
use crate::handing::{hand_down_at, take_back_at};
use crate::images::Images;
use crate::kept_record::KeptRecord;
use crate::node_store::NodeStore;
use crate::nodes::{Forced, Nodes};
use crate::slots::{add_record, free_places, resize_all, restore_all};
use crate::touched::Touched;
use crate::tree_totals::{Counts, TreeTotals};
use crate::unsorted_images::UnsortedImages;
use aggregates::Agg;
use cell_core::{Code, NodeNo, Steps};
use cube_defs::{MAX_DIMS, MAX_NODES};
use std::alloc::Global;
use std::marker::Model;
use std::mem::replace;
use std::sync::ledger::Ledger;

/// A new arena has room for so many nodes. The C library gives each such list pages of its own, and
/// makes it longer by mapping them elsewhere. A list that starts small is copied at each growth,
/// and leaves holes.
const FIRST_ROOM: usize = 8_192;

/// Why a node was not added.
#[derive(Clone, Copy)]
pub enum ArenaRefused {
    /// The tree already has its greatest number of nodes.
    Full,
    /// Memory ran out.
    Memory,
}

/// Nodes by their numbers. While a batch is open, the first touch of a node stores its
/// before-image. So a rollback takes no memory.
#[derive(Drop)]
pub struct QcArena {
    nodes: NodeStore,
    images: Touched,
    last: UnsortedImages,
    is_open: bool,
    dims: u8,
    max: u32,
    kept: TreeTotals,
    was: TreeTotals,
}

impl Model for QcArena {
    ghost use Rattle.qc_arena.specs.Inside.{IsArena, begun, now_of, touched_in, was_of};
    ghost use Rattle.qc_arena.specs.Map.{Arena, arena_code};

    ghost Value = { Arena };

    ghost coded = { arena_code };

    ghost view = { λ a. record {
      width = a.dims;
      max = a.max;
      now = now_of a.nodes;
      was = begun a.is_open a.dims (was_of (now_of a.nodes) a.images);
      touched = touched_in a.images;
      last = a.last;
    } };

    ghost invariant = { λ a. IsArena a.dims a.max a.nodes a.images a.is_open a.kept a.was };
}

impl QcArena {
    /// An arena without nodes, for cells of `dims` dimensions and at most `max` nodes. No batch is
    /// open.
    pub fn new(alloc: Global, dims: u8, max: u32) -> Result<QcArena, Memory>
        requires some_dims { 0 < dims }
        requires few_dims { dims ≤ MAX_DIMS }
        requires some { 0 < max }
        requires few { max ≤ MAX_NODES }
        ensures { IfOk result (λ a. a ≡ no_nodes dims max) }
    {
        let none = TreeTotals {
            root: None,
            nodes: 0,
            classes: 0,
            edges: 0,
        };
        let nodes = match NodeStore::with_room(alloc, FIRST_ROOM) {
            Ok(nodes) => nodes,
            Err(error) => return Err(error),
        };
        Ok(QcArena {
            nodes,
            images: Touched::new(alloc),
            last: UnsortedImages::none(alloc),
            is_open: false,
            dims,
            max,
            kept: none,
            was: none,
        })
    }

    /// Opens a batch. No node is touched yet.
    pub fn begin(&mut self)
        requires { is_open self.old ≡ false }
        ensures { self.new ≡ record self.old {
          was = Some (shape_of self.old);
          touched
              = set.empty;
          last = map.empty;
        } }
    {
        self.last = UnsortedImages::none(self.images.allocator());
        self.is_open = true;
    }

    /// Adds a last dimension, in which each cell has Any. Takes no memory.
    pub fn widen(&mut self)
        requires closed { is_open self.old ≡ false }
        requires few { self.old.width < MAX_DIMS }
        ensures value { self.new ≡ record self.old {
          width = self.old.width + 1;
          now
              = self.new.now;
        } }
        ensures nodes { (q : ℕ)
            → map.get self.new.now q ≡ option_map with_any_by_number (map.get self.old.now q) }
    {
        let dims = self.dims + 1;
        resize_all(&mut self.nodes, dims);
        self.dims = dims;
    }

    /// Removes the last dimension, in which each cell has Any. Takes no memory.
    pub fn narrow(&mut self)
        requires closed { is_open self.old ≡ false }
        requires some { 1 < self.old.width }
        requires free { (q : ℕ) (n : Known) → map.get self.old.now q ≡ Some n
            → depth n.cell < self.old.width }
        ensures width { self.new.width + 1 ≡ self.old.width }
        ensures value { self.new ≡ record self.old {
          width = self.new.width;
          now
              = self.new.now;
        } }
        ensures nodes { (q : ℕ) → map.get self.new.now q ≡ option_map (resized self.new.width)
            (map.get self.old.now q) }
    {
        let dims = self.dims - 1;
        resize_all(&mut self.nodes, dims);
        self.dims = dims;
    }

    // The record of a node to be added.
    fn new_rec(&self, under: Option<(NodeNo, u8, Code)>) -> KeptRecord
        requires { IsPlace self.now.width self.now.now under }
        ensures { result.node ≡ new_record self.now.width self.now.now under }
    {
        match under {
            None => KeptRecord::root(self.dims),
            Some((node, dim, code)) => self.nodes.child_of(node.0, dim, code),
        }
    }

    /// Adds the root, or the node with one later value than its parent. Its number is free now, and
    /// was free at `begin`. The new node counts as touched.
    pub fn add_node<L: Ledger>(
        &mut self,
        under: Option<(NodeNo, u8, Code)>,
        steps: &mut Steps<L>,
    ) -> Result<NodeNo, ArenaRefused>
        requires opened { is_open self.old ≡ true }
        requires under { IsPlace self.old.width self.old.now under }
        ensures here { IfOk result
            (λ k. map.get self.new.now k.0 ≡ Some (new_record self.old.width self.old.now under)) }
        ensures others { IfOk result (λ k. (q : ℕ) → q ≢ k.0
            → map.get self.new.now q ≡ map.get self.old.now q) }
        ensures free { IfOk result (λ k. map.get self.old.now k.0 ≡ None) }
        ensures untouched { IfOk result (λ k. is_touched self.old k.0 ≡ false) }
        ensures unused { IfOk result (λ k. was_at self.old k.0 ≡ None) }
        ensures touched { IfOk result (λ k. (q : ℕ)
            → is_touched self.new q ≡ (nat_eq k.0 q || is_touched self.old q)) }
        ensures frame { frame self.new ≡ frame self.old }
        ensures full { (result ≡ Err ArenaRefused.Full) ↔ (map.len self.old.now ≡ self.old.max) }
        ensures err { OnErr result (self.new ≡ self.old) }
        ensures steps { steps.new ≡ steps.old + 1 }
    {
        steps.tick();
        if self.kept.nodes >= self.max {
            return Err(ArenaRefused::Full);
        }
        let new = self.new_rec(under);
        match add_record(&mut self.nodes, &mut self.images, new) {
            Ok(node) => {
                self.kept = self.kept.with_node(under, node);
                Ok(NodeNo(node))
            }
            Err(_) => Err(ArenaRefused::Memory),
        }
    }

    /// Stores the before-image of a node. A node must be touched before it is changed.
    pub fn touch<L: Ledger>(&mut self, node: NodeNo, steps: &mut Steps<L>) -> Result<(), Memory>
        requires opened { is_open self.old ≡ true }
        requires node { IsSome (map.get self.old.now node.0) }
        ensures touched { OnOk result ((q : ℕ)
            → is_touched self.new q ≡ (nat_eq node.0 q || is_touched self.old q)) }
        ensures now { self.new.now ≡ self.old.now }
        ensures frame { frame self.new ≡ frame self.old }
        ensures err { OnErr result (self.new ≡ self.old) }
        ensures steps { steps.new ≡ steps.old + 1 }
    {
        steps.tick();
        if self.images.has(node.0) {
            return Ok(());
        }
        let alloc = self.images.allocator();
        match self.nodes.copy(alloc, node.0) {
            Ok(image) => self.images.add_was(node.0, image),
            Err(error) => Err(error),
        }
    }

    /// Makes room for so many more edges of a node, so that its list need not grow step by step.
    pub fn reserve_edges(&mut self, node: NodeNo, more: u32) -> Result<(), Memory>
        requires { IsSome (map.get self.old.now node.0) }
        ensures { self.new ≡ self.old }
    {
        self.nodes.reserve_edges(node.0, more)
    }

    /// Adds an edge with this label, or gives the edge that has the label a new target.
    pub fn set_edge<L: Ledger>(
        &mut self,
        node: NodeNo,
        dim: u8,
        code: Code,
        target: NodeNo,
        steps: &mut Steps<L>,
    ) -> Result<(), Memory>
        requires change { CanChange self.old node.0 }
        requires target { IsSome (map.get self.old.now target.0) }
        requires dim { dim < self.old.width }
        requires code { IsCode code }
        ensures here { OnOk result (map.get self.new.now node.0
            ≡ option_map (with_edge (record { dim = dim; value = code; target = target.0 }))
            (map.get self.old.now node.0)) }
        ensures others { (q : ℕ) → q ≢ node.0 → map.get self.new.now q ≡ map.get self.old.now q }
        ensures touched { (q : ℕ) → is_touched self.new q ≡ is_touched self.old q }
        ensures frame { frame self.new ≡ frame self.old }
        ensures err { OnErr result (self.new ≡ self.old) }
        ensures steps { steps.new ≡ steps.old + 1 }
    {
        steps.tick();
        match self.nodes.set_edge(node.0, dim, code, target.0) {
            Ok(more) => {
                self.kept = self.kept.with_more_edges(more);
                Ok(())
            }
            Err(error) => Err(error),
        }
    }

    /// Removes the edge with this label, if there is one.
    pub fn drop_edge<L: Ledger>(&mut self, node: NodeNo, dim: u8, code: Code, steps: &mut Steps<L>)
        requires change { CanChange self.old node.0 }
        ensures here { map.get self.new.now node.0 ≡ option_map (without_edge dim code)
            (map.get self.old.now node.0) }
        ensures others { (q : ℕ) → q ≢ node.0 → map.get self.new.now q ≡ map.get self.old.now q }
        ensures touched { (q : ℕ) → is_touched self.new q ≡ is_touched self.old q }
        ensures frame { frame self.new ≡ frame self.old }
        ensures steps { steps.new ≡ steps.old + 1 }
    {
        steps.tick();
        let (had, has) = self.nodes.drop_edge(node.0, dim, code);
        self.kept = self.kept.with_edges(had, has);
    }

    /// Removes a node. Edges to it stay, and lead nowhere from now on. No other node gets its
    /// number before `commit`.
    pub fn kill<L: Ledger>(&mut self, node: NodeNo, steps: &mut Steps<L>)
        requires change { CanChange self.old node.0 }
        ensures here { map.get self.new.now node.0 ≡ None }
        ensures others { (q : ℕ) → q ≢ node.0 → map.get self.new.now q ≡ map.get self.old.now q }
        ensures touched { (q : ℕ) → is_touched self.new q ≡ is_touched self.old q }
        ensures frame { frame self.new ≡ frame self.old }
        ensures steps { steps.new ≡ steps.old + 1 }
    {
        steps.tick();
        let (is_class, had) = self.nodes.kill(node.0);
        self.kept = self.kept.without_node(node.0, is_class, had);
    }

    // The node at a place, if there is one. Its number has 32 bits.
    fn node_at(&self, place: usize) -> Option<NodeNo>
        ensures some { IfSome result (λ k. (k.0 ≡ place) × IsSome (map.get self.now.now place)) }
        ensures none { IfNone result (map.get self.now.now place ≡ None) }
    {
        if self.nodes.has(place) {
            return Some(NodeNo(place as u32));
        }
        None
    }

    // Removes the node at a place, if there is one.
    fn clear_place<L: Ledger>(&mut self, place: usize, steps: &mut Steps<L>) -> Result<(), Memory>
        requires { is_open self.old ≡ true }
        ensures here { OnOk result (map.get self.new.now place ≡ None) }
        ensures others { OnOk result ((q : ℕ) → q ≢ place
            → map.get self.new.now q ≡ map.get self.old.now q) }
        ensures frame { frame self.new ≡ frame self.old }
    {
        let Some(node) = self.node_at(place) else {
            return Ok(());
        };
        match self.touch(node, steps) {
            Ok(()) => {
                self.kill(node, steps);
                Ok(())
            }
            Err(error) => Err(error),
        }
    }

    /// Removes all nodes. If memory runs out, some of them are already removed.
    pub fn clear<L: Ledger>(&mut self, steps: &mut Steps<L>) -> Result<(), Memory>
        requires { is_open self.old ≡ true }
        ensures none { OnOk result (self.new.now ≡ map.empty) }
        ensures frame { frame self.new ≡ frame self.old }
    {
        'places: for place in 0..self.places() {
            match self.clear_place(place, steps) {
                Ok(()) => {}
                Err(error) => return Err(error),
            }
        }
        Ok(())
    }

    /// Sets or removes the forced child.
    pub fn set_forced<L: Ledger>(
        &mut self,
        node: NodeNo,
        forced: Option<Forced>,
        steps: &mut Steps<L>,
    )
        requires change { CanChange self.old node.0 }
        requires code { IfSome forced (λ f. IsCode f.code) }
        ensures here { map.get self.new.now node.0
            ≡ option_map (with_forced (option_map edge_of forced)) (map.get self.old.now node.0) }
        ensures others { (q : ℕ) → q ≢ node.0 → map.get self.new.now q ≡ map.get self.old.now q }
        ensures touched { (q : ℕ) → is_touched self.new q ≡ is_touched self.old q }
        ensures frame { frame self.new ≡ frame self.old }
        ensures steps { steps.new ≡ steps.old + 1 }
    {
        steps.tick();
        self.nodes.set_forced(node.0, forced);
    }

    /// Sets the aggregate of the node's class, or marks the node as no class.
    pub fn set_class<L: Ledger>(&mut self, node: NodeNo, class: Option<Agg>, steps: &mut Steps<L>)
        requires change { CanChange self.old node.0 }
        ensures here { map.get self.new.now node.0
            ≡ option_map (with_class (option_map agg_in class)) (map.get self.old.now node.0) }
        ensures others { (q : ℕ) → q ≢ node.0 → map.get self.new.now q ≡ map.get self.old.now q }
        ensures touched { (q : ℕ) → is_touched self.new q ≡ is_touched self.old q }
        ensures frame { frame self.new ≡ frame self.old }
        ensures steps { steps.new ≡ steps.old + 1 }
    {
        steps.tick();
        let had = self.nodes.is_class(node.0);
        self.nodes.set_class(node.0, &class);
        self.kept = self.kept.with_class(had, class.is_some());
    }

    /// Moves the class of a node to a new child, which has the code 0 in the dimension and is the
    /// forced one. If memory runs out, all is as it was.
    pub fn hand_down<L: Ledger>(
        &mut self,
        node: NodeNo,
        dim: u8,
        steps: &mut Steps<L>,
    ) -> Result<NodeNo, Memory>
        requires closed { is_open self.old ≡ false }
        requires there { IsSome (map.get self.old.now node.0) }
        requires class { IsSome (record_at self.old.now node.0).class }
        requires shallow { depth (record_at self.old.now node.0).cell ≤ dim }
        requires within { dim < self.old.width }
        requires few { map.len self.old.now < self.old.max }
        ensures moved { IfOk result
            (λ child. HandsDown dim node.0 self.old.now self.new.now child.0) }
        ensures rest { self.new ≡ record self.old { now = self.new.now } }
        ensures err { OnErr result (self.new.now ≡ self.old.now) }
        ensures steps { steps.new ≡ steps.old + 1 }
    {
        steps.tick();
        match hand_down_at(&mut self.nodes, node.0, dim) {
            Ok(handed) => {
                let under = Some((node, dim, 0));
                let more = self.kept.with_node(under, handed.child);
                self.kept = more.with_edges(handed.had, handed.has);
                self.was = self.kept;
                Ok(NodeNo(handed.child))
            }
            Err(error) => Err(error),
        }
    }

    /// Gives the class of a child back to its parent, and removes the child. Gives the parent.
    pub fn take_back<L: Ledger>(&mut self, child: NodeNo, dim: u8, steps: &mut Steps<L>) -> NodeNo
        requires closed { is_open self.old ≡ false }
        requires child { (node : ℕ) × IsChildOf self.old.now node child.0 }
        ensures parent { (record_at self.old.now child.0).parent ≡ Some result.0 }
        ensures back { TakesBack dim result.0 self.old.now self.new.now child.0 }
        ensures rest { self.new ≡ record self.old { now = self.new.now } }
        ensures steps { steps.new ≡ steps.old + 1 }
    {
        steps.tick();
        let Some(node) = self.nodes.parent(child.0) else {
            unreachable!()
        };
        let back = take_back_at(&mut self.nodes, node.0, child.0, dim);
        let less = self
            .kept
            .without_node(child.0, back.child_is_class, back.child_edges);
        let moved = less.with_class(back.was_class, back.child_is_class);
        self.kept = moved.with_edges(back.had, back.has);
        self.was = self.kept;
        node
    }

    /// Closes the batch. Its changes stay. The before-images stay until the next batch, or until
    /// they are moved out.
    pub fn commit(&mut self)
        requires { is_open self.old ≡ true }
        ensures value { self.new ≡ record self.old {
          was = None;
          touched = set.empty;
          last
              = self.new.last;
        } }
        ensures last { (q : ℕ) → map.get self.new.last q ≡ (if is_touched self.old q
            then Some (was_at self.old q) else None) }
        ensures back { IfSome self.old.was
            (λ shape. overlaid self.new.last self.new.now ≡ shape.tree) }
    {
        free_places(&mut self.nodes, &self.images, self.kept.nodes);
        self.last = self.images.take();
        self.is_open = false;
        self.was = self.kept;
    }

    /// Closes the batch and restores the state at `begin`, numbers included.
    pub fn rollback(&mut self)
        requires { is_open self.old ≡ true }
        ensures back { Some (shape_of self.new) ≡ self.old.was }
        ensures closed { self.new.was ≡ None }
        ensures untouched { self.new.touched ≡ set.empty }
        ensures max { self.new.max ≡ self.old.max }
        ensures last { self.new.last ≡ self.old.last }
    {
        restore_all(&mut self.nodes, &mut self.images);
        self.is_open = false;
        self.kept = self.was;
    }

    /// Moves out the before-images of the last committed batch, sorted by node number. A second
    /// call gives none.
    pub fn last_images(&mut self) -> Images
        ensures images { result ≡ self.old.last }
        ensures rest { self.new ≡ record self.old { last = map.empty } }
    {
        let none = UnsortedImages::none(self.images.allocator());
        replace(&mut self.last, none).sorted()
    }

    /// Drops the before-images of the last committed batch.
    pub fn drop_images(&mut self)
        ensures { self.new ≡ record self.old { last = map.empty } }
    {
        self.last = UnsortedImages::none(self.images.allocator());
    }

    /// Whether there is a node with the number.
    pub fn has(&self, node: NodeNo) -> bool
        ensures { result ≡ map.contains_key self.now.now node.0 }
    {
        self.nodes.has(node.0 as usize)
    }

    // The number of places. Each node's number is smaller.
    fn places(&self) -> usize
        ensures { (q : ℕ) → result ≤ q → map.get self.now.now q ≡ None }
    {
        self.nodes.capacity()
    }

    /// The number of nodes.
    pub fn live(&self) -> u32
        ensures value { result ≡ map.len self.now.now }
        ensures few { result ≤ self.now.max }
    {
        self.kept.nodes
    }

    /// The pairs of node and aggregate that are there now and were not at `begin`, each once. A
    /// class with a new aggregate counts.
    pub fn classes_added(&self, alloc: Global) -> Result<Vec<(NodeNo, Agg)>, Memory>
        requires { is_open self.now ≡ true }
        ensures { IfOk result (λ pairs. AreNew (class_was self.now)
            (class_now self.now) pairs.items) }
    {
        changed(alloc, &self.nodes, &self.images, true)
    }

    /// The pairs of node and aggregate that were there at `begin` and are not now, each once. A
    /// class with a new aggregate counts.
    pub fn classes_removed(&self, alloc: Global) -> Result<Vec<(NodeNo, Agg)>, Memory>
        requires { is_open self.now ≡ true }
        ensures { IfOk result (λ pairs. AreNew (class_now self.now)
            (class_was self.now) pairs.items) }
    {
        changed(alloc, &self.nodes, &self.images, false)
    }

    /// The numbers of all classes, rising. Takes a step for each node, and passes over numbers
    /// that no node has now.
    pub fn class_numbers<L: Ledger>(
        &self,
        alloc: Global,
        steps: &mut Steps<L>,
    ) -> Result<Vec<NodeNo>, Memory>
        ensures numbers { IfOk result (λ numbers. AreClassNumbers (class_now self.now)
            numbers.items) }
        ensures steps { steps.new ≤ steps.old + map.len self.now.now }
    {
        numbers_of_classes(alloc, &self.nodes, self.kept.classes, steps)
    }

    /// The number of the node without values. None if there are no nodes. It is stored, as the
    /// counts are.
    pub fn root_number(&self) -> Option<NodeNo>
        ensures some { IfSome result
            (λ k. cell_at self.now.now k.0 ≡ Some (replicate self.now.width None)) }
        ensures none { IfNone result ((k : ℕ)
            → cell_at self.now.now k ≢ Some (replicate self.now.width None)) }
    {
        self.kept.root
    }

    /// The number of classes.
    pub fn class_count(&self) -> u32
        ensures { result ≡ classes_in nat_cmp self.now.now }
    {
        self.kept.classes
    }

    /// The number of edges, tree edges and links together.
    pub fn edge_total(&self) -> u64
        ensures value { result ≡ edges_in self.now.now }
        ensures kinds { result ≡ tree_edges_in nat_cmp self.now.now
            + links_in nat_cmp self.now.now }
    {
        self.kept.edges
    }

    /// The numbers of nodes, classes, tree edges and links. Reads all edges.
    pub fn counts(&self) -> Counts
        requires { AreRooted self.now.now }
        ensures nodes { result.nodes ≡ map.len self.now.now }
        ensures classes { result.classes ≡ classes_in nat_cmp self.now.now }
        ensures tree_edges { result.tree_edges ≡ tree_edges_in nat_cmp self.now.now }
        ensures links { result.links ≡ links_in nat_cmp self.now.now }
    {
        let tree_edges = tree_edges_of(&self.nodes, self.kept.edges);
        Counts {
            nodes: self.kept.nodes,
            classes: self.kept.classes,
            tree_edges,
            links: self.kept.edges - tree_edges,
        }
    }
}

impl Nodes for QcArena {
    ghost width = { λ a. a.width };

    ghost tree = { λ a. a.now };

    fn dims(&self) -> u8 {
        self.dims
    }

    fn root<L: Ledger>(&self, steps: &mut Steps<L>) -> Option<NodeNo> {
        steps.tick();
        self.root_number()
    }

    fn end_of<L: Ledger>(&self, node: NodeNo, steps: &mut Steps<L>) -> Option<(u8, Code)> {
        steps.tick();
        self.nodes.end_of(node.0)
    }

    fn parent<L: Ledger>(&self, node: NodeNo, steps: &mut Steps<L>) -> Option<NodeNo> {
        steps.tick();
        self.nodes.parent(node.0)
    }

    fn forced<L: Ledger>(&self, node: NodeNo, steps: &mut Steps<L>) -> Option<Forced> {
        steps.tick();
        self.nodes.forced(node.0)
    }

    fn edge<L: Ledger>(
        &self,
        node: NodeNo,
        dim: u8,
        code: Code,
        steps: &mut Steps<L>,
    ) -> Option<NodeNo> {
        steps.tick();
        self.nodes.edge(node.0, dim, code)
    }

    fn edge_count<L: Ledger>(&self, node: NodeNo, steps: &mut Steps<L>) -> u32 {
        steps.tick();
        self.nodes.edge_count(node.0)
    }

    fn edge_at<L: Ledger>(&self, node: NodeNo, k: u32, steps: &mut Steps<L>) -> (u8, Code, NodeNo) {
        steps.tick();
        self.nodes.edge_at(node.0, k)
    }

    fn class<L: Ledger>(&self, node: NodeNo, steps: &mut Steps<L>) -> Option<Agg> {
        steps.tick();
        self.nodes.class(node.0)
    }
}
