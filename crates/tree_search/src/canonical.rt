// Readers of canonical trees.
ghost use Rattle.std.specs.FinMap as map;
ghost use Rattle.std.specs.Option.{option_map};
ghost use Rattle.std.specs.Prelude.{IfSome, IsSome, Some, drop, length, ◌*◌, ◌+◌, ◌≡◌, ◌≤◌};
ghost use Rattle.cube_defs.specs.Tree.{cell_at};
ghost use Rattle.std.specs.Ordering.{eq_by_cmp, nat_cmp};
ghost use Rattle.tree_laws.specs.Walk.{walk};
ghost use Rattle.qc_arena.specs.RecordReaders.{number};
ghost use Rattle.tree_search.specs.Found.{IsNumberOfCell, IsTree, IsTreeOf, TreeRows, closure_in};

use crate::climb::upper_into;
use crate::search::{find, find_from};
use aggregates::Agg;
use cell_core::{Cell, Code, NodeNo, Steps};
use cube_defs::MAX_DIMS;
use qc_arena::{Forced, Nodes};
use std::marker::Model;
use std::sync::ledger::Ledger;

/// A tree that is the canonical tree of some rows. So a search in it needs no premise.
#[derive(Drop)]
pub struct CanonicalTree<'a, T: Nodes> {
    nodes: &'a T,
}

impl<'a, T: Nodes> Model for CanonicalTree<'a, T> {
    ghost use Rattle.qc_arena.specs.Codes.{Shape, shape_code};
    ghost use Rattle.tree_search.specs.Found.{IsTree};

    ghost Value = { Shape };

    ghost coded = { shape_code };

    ghost view = { λ t. record { width = T.width t.nodes.now; tree = T.tree t.nodes.now } };

    ghost invariant = { λ t. IsTree (T.width t.nodes.now) (T.tree t.nodes.now) };
}

impl<'a, T: Nodes> CanonicalTree<'a, T> {
    /// The tree of these nodes.
    pub fn of(nodes: &'a T) -> CanonicalTree<'a, T>
        requires { IsTree (T.width nodes.now) (T.tree nodes.now) }
        ensures width { result.width ≡ T.width nodes.now }
        ensures tree { result.tree ≡ T.tree nodes.now }
    {
        CanonicalTree { nodes }
    }

    /// The number of dimensions of the cells.
    pub fn dims(&self) -> u8
        ensures value { result ≡ self.now.width }
        ensures few { result ≤ MAX_DIMS }
        ensures rows { IsTree self.now.width self.now.tree }
    {
        self.nodes.dims()
    }

    /// The node of the cell's closure. None if the cell covers no row.
    pub fn find<L: Ledger>(&self, cell: &Cell, steps: &mut Steps<L>) -> Option<NodeNo>
        requires { length cell.now ≡ self.now.width }
        ensures found { (source : TreeRows) → IsTreeOf self.now.width self.now.tree source →
            IsNumberOfCell self.now.tree (option_map number result)
            (closure_in source cell.now) }
        ensures there { IfSome result (λ node. IsSome (map.get self.now.tree node.0)) }
        ensures steps { steps.new ≤ steps.old + (2 * length cell.now + 2) }
    {
        find(self.nodes, cell, steps)
    }

    /// The node that a search ends at which stands at a node before a dimension. None if no row is
    /// left.
    pub fn find_from<L: Ledger>(
        &self,
        node: NodeNo,
        dim: u8,
        cell: &Cell,
        steps: &mut Steps<L>,
    ) -> Option<NodeNo>
        requires node { IsSome (map.get self.now.tree node.0) }
        requires dim { dim ≤ length cell.now }
        ensures walk { option_map number result
            ≡ walk (eq_by_cmp nat_cmp) self.now.tree (drop dim cell.now) node.0 dim }
        ensures steps { steps.new + 2 * dim ≤ steps.old + 2 * length cell.now }
    {
        find_from(self.nodes, node, dim, cell, steps)
    }

    /// Replaces a cell by the node's cell.
    pub fn upper_into<L: Ledger>(&self, node: NodeNo, out: &mut Cell, steps: &mut Steps<L>)
        requires dims { length out.old ≡ self.now.width }
        requires node { IsSome (map.get self.now.tree node.0) }
        ensures cell { cell_at self.now.tree node.0 ≡ Some out.new }
        ensures dims { length out.new ≡ length out.old }
        ensures steps { steps.new ≤ steps.old + (2 * length out.old + 2) }
    {
        upper_into(self.nodes, node, out, steps)
    }
}

impl<'a, T: Nodes> Nodes for CanonicalTree<'a, T> {
    ghost width = { λ t. t.width };

    ghost tree = { λ t. t.tree };

    fn dims(&self) -> u8 {
        self.nodes.dims()
    }

    fn root<L: Ledger>(&self, steps: &mut Steps<L>) -> Option<NodeNo> {
        self.nodes.root(steps)
    }

    fn end_of<L: Ledger>(&self, node: NodeNo, steps: &mut Steps<L>) -> Option<(u8, Code)> {
        self.nodes.end_of(node, steps)
    }

    fn parent<L: Ledger>(&self, node: NodeNo, steps: &mut Steps<L>) -> Option<NodeNo> {
        self.nodes.parent(node, steps)
    }

    fn forced<L: Ledger>(&self, node: NodeNo, steps: &mut Steps<L>) -> Option<Forced> {
        self.nodes.forced(node, steps)
    }

    fn edge<L: Ledger>(
        &self,
        node: NodeNo,
        dim: u8,
        code: Code,
        steps: &mut Steps<L>,
    ) -> Option<NodeNo> {
        self.nodes.edge(node, dim, code, steps)
    }

    fn edge_count<L: Ledger>(&self, node: NodeNo, steps: &mut Steps<L>) -> u32 {
        self.nodes.edge_count(node, steps)
    }

    fn edge_at<L: Ledger>(&self, node: NodeNo, k: u32, steps: &mut Steps<L>) -> (u8, Code, NodeNo) {
        self.nodes.edge_at(node, k, steps)
    }

    fn class<L: Ledger>(&self, node: NodeNo, steps: &mut Steps<L>) -> Option<Agg> {
        self.nodes.class(node, steps)
    }
}
