// A list of edges.
ghost use Rattle.std.specs.Prelude.{IfOk, OnErr, OnOk, Some, [], length, slice_get, true, ℕ, ◌+◌, ◌<◌, ◌∷◌, ◌≡◌};
ghost use Rattle.cell_core.specs.Entry.{IsCode};
ghost use Rattle.std.specs.Option.{option_map};
ghost use Rattle.std.specs.Ordering.{eq_by_cmp, nat_cmp};
ghost use Rattle.tree_laws.specs.Walk.{target_at};
ghost use Rattle.qc_arena.specs.Edges.{drop_label, edge_in, put_edge, rises};
ghost use Rattle.qc_arena.specs.RecordReaders.{label_lt, number};

use crate::Memory;
use crate::edge::{PlainEdge, StoredEdge};
use crate::edges::{Edges, count, put, take, target_in};
use cell_core::{Code, NodeNo};
use smallvec::SmallVec;
use std::alloc::Global;
use std::marker::Model;

/// The edges of a node in a list, in the order of their labels.
#[derive(Drop)]
pub(crate) struct EdgeList {
    edges: Edges,
}

impl Model for EdgeList {
    ghost use Rattle.std.specs.Prelude.{List, true, ℕ, ◌≡◌};
    ghost use Rattle.std.specs.Coded.{coded_list};
    ghost use Rattle.cube_defs.specs.Tree.{Edge};
    ghost use Rattle.qc_arena.specs.Codes.{edge_code};
    ghost use Rattle.qc_arena.specs.Edges.{edges_to, rises};

    ghost Value = { List (Edge ℕ ℕ) };

    ghost coded = { coded_list edge_code };

    ghost view = { λ l. edges_to l.edges.items };

    ghost invariant = { λ l. rises (edges_to l.edges.items) ≡ true };
}

impl EdgeList {
    // No edges.
    pub(crate) fn none(alloc: Global) -> EdgeList
        ensures { result ≡ [] }
    {
        EdgeList {
            edges: SmallVec::new(alloc),
        }
    }

    // One edge. Takes no memory, since five edges fit into the list itself.
    pub(crate) fn one(alloc: Global, edge: PlainEdge) -> EdgeList
        ensures { result ≡ edge_in edge ∷ [] }
    {
        let mut edges = SmallVec::new(alloc);
        edges.push_reserved(StoredEdge::of(edge));
        EdgeList { edges }
    }

    // Two edges in the order of their labels. Takes no memory, either.
    pub(crate) fn two(alloc: Global, first: PlainEdge, second: PlainEdge) -> EdgeList
        requires { label_lt (edge_in first) (edge_in second) ≡ true }
        ensures { result ≡ edge_in first ∷ edge_in second ∷ [] }
    {
        let mut edges = SmallVec::new(alloc);
        edges.push_reserved(StoredEdge::of(first));
        edges.push_reserved(StoredEdge::of(second));
        EdgeList { edges }
    }

    pub(crate) fn copy(&self) -> Result<EdgeList, Memory>
        ensures { IfOk result (λ l. l ≡ self.now) }
    {
        match SmallVec::from_slice(*self.edges.allocator(), self.edges.as_slice()) {
            Ok(edges) => Ok(EdgeList { edges }),
            Err(error) => Err(error),
        }
    }

    // Adds an edge in its place, or gives the edge with its label a new target. Gives how many
    // edges more there are.
    #[inline(always)]
    pub(crate) fn put(&mut self, edge: PlainEdge) -> Result<u32, Memory>
        ensures ok { OnOk result (self.new ≡ put_edge (edge_in edge) self.old) }
        ensures more { IfOk result (λ n. length self.new ≡ length self.old + n) }
        ensures fits { OnOk result (length self.new < 4294967296) }
        ensures err { OnErr result (self.new ≡ self.old) }
    {
        match put(&mut self.edges, edge) {
            Ok(more) => Ok(more),
            Err(error) => Err(error),
        }
    }

    // Removes the edge with a label, if there is one. Gives the number of edges before and after.
    pub(crate) fn take(&mut self, dim: u8, code: Code) -> (u32, u32)
        ensures taken { self.new ≡ drop_label dim code self.old }
        ensures had { result.0 ≡ length self.old }
        ensures has { result.1 ≡ length self.new }
    {
        let had = count(&self.edges);
        take(&mut self.edges, dim, code);
        (had, count(&self.edges))
    }

    // Makes room for so many more edges.
    pub(crate) fn reserve(&mut self, more: u32) -> Result<(), Memory>
        ensures { self.new ≡ self.old }
    {
        self.edges.reserve_exact(more as usize)
    }

    // The number of edges.
    pub(crate) fn count(&self) -> u32
        ensures value { result ≡ length self.now }
        ensures rising { (i j : ℕ) (e f : _) → i < j → slice_get self.now i ≡ Some e
            → slice_get self.now j ≡ Some f →
            label_lt e f ≡ true }
    {
        count(&self.edges)
    }

    // The target of the edge with a label.
    pub(crate) fn target(&self, dim: u8, code: Code) -> Option<NodeNo>
        ensures value { option_map number result
            ≡ target_at (eq_by_cmp nat_cmp) dim code self.now }
        ensures rising { rises self.now ≡ true }
    {
        target_in(self.edges.as_slice(), dim, code)
    }

    // The edge at a place in the order: its label and its target.
    pub(crate) fn at(&self, k: u32) -> (u8, Code, NodeNo)
        requires { k < length self.now }
        ensures value { slice_get self.now k
            ≡ Some (record { dim = result.0; value = result.1; target = result.2.0 }) }
        ensures small { IsCode result.1 }
    {
        let edges = self.edges.as_slice();
        let edge = edges[k as usize].plain();
        (edge.dim, edge.code, NodeNo(edge.target))
    }
}
