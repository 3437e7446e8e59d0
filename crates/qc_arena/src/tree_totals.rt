// Totals of a tree, updated with each change.
ghost use Rattle.std.specs.Prelude.{None, Some, if◌then◌else◌, true, ◌+◌, ◌<◌, ◌≡◌, ◌≤◌};
ghost use Rattle.qc_arena.specs.Counted.{root_after, root_without};

use cell_core::{Code, NodeNo};
use cube_defs::MAX_NODES;

/// The numbers of nodes, classes, tree edges and links.
#[derive(Clone, Copy)]
pub struct Counts {
    pub nodes: u32,
    pub classes: u32,
    /// Edges that lead from a node to its child: the node with one more value.
    pub tree_edges: u64,
    /// All other edges.
    pub links: u64,
}

/// The root, if there is one, and the numbers of nodes, classes and edges.
#[derive(Clone, Copy)]
pub(crate) struct TreeTotals {
    pub root: Option<NodeNo>,
    pub nodes: u32,
    pub classes: u32,
    pub edges: u64,
}

impl TreeTotals {
    // The totals after a node is added. A node without a parent is the root.
    pub(crate) fn with_node(self, under: Option<(NodeNo, u8, Code)>, node: u32) -> TreeTotals
        requires { self.nodes < MAX_NODES }
        ensures nodes { result.nodes ≡ self.nodes + 1 }
        ensures classes { result.classes ≡ self.classes }
        ensures edges { result.edges ≡ self.edges }
        ensures root { result.root ≡ root_after self.root under node }
    {
        let root = match under {
            None => Some(NodeNo(node)),
            Some(_) => self.root,
        };
        TreeTotals {
            root,
            nodes: self.nodes + 1,
            classes: self.classes,
            edges: self.edges,
        }
    }

    // The root after a node is removed.
    fn root_left(self, node: u32) -> Option<NodeNo>
        ensures { result ≡ root_without self.root node }
    {
        match self.root {
            None => None,
            Some(root) => { if root.0 == node { None } else { Some(root) } }
        }
    }

    // The totals after a node is removed, by whether it was a class and how many edges it had.
    pub(crate) fn without_node(self, node: u32, is_class: bool, had: u32) -> TreeTotals
        requires nodes { 0 < self.nodes }
        requires classes { is_class ≡ true → 0 < self.classes }
        requires edges { had ≤ self.edges }
        ensures nodes { result.nodes + 1 ≡ self.nodes }
        ensures classes { result.classes + (if is_class then 1 else 0) ≡ self.classes }
        ensures edges { result.edges + had ≡ self.edges }
        ensures root { result.root ≡ root_without self.root node }
    {
        let mut classes = self.classes;
        if is_class {
            classes -= 1;
        }
        TreeTotals {
            root: self.root_left(node),
            nodes: self.nodes - 1,
            classes,
            edges: self.edges - had as u64,
        }
    }

    // The totals after a node becomes a class, or is one no more.
    pub(crate) fn with_class(self, had: bool, has: bool) -> TreeTotals
        requires room { self.classes < 4294967295 }
        requires had { had ≡ true → 0 < self.classes }
        ensures root { result.root ≡ self.root }
        ensures nodes { result.nodes ≡ self.nodes }
        ensures edges { result.edges ≡ self.edges }
        ensures classes { result.classes + (if had then 1 else 0) ≡ self.classes
            + (if has then 1 else 0) }
    {
        let mut classes = self.classes;
        if had {
            classes -= 1;
        }
        if has {
            classes += 1;
        }
        TreeTotals {
            root: self.root,
            nodes: self.nodes,
            classes,
            edges: self.edges,
        }
    }

    // The totals after a node has so many edges more.
    pub(crate) fn with_more_edges(self, more: u32) -> TreeTotals
        requires { self.edges < 18446744069414584320 }
        ensures root { result.root ≡ self.root }
        ensures nodes { result.nodes ≡ self.nodes }
        ensures classes { result.classes ≡ self.classes }
        ensures edges { result.edges ≡ self.edges + more }
    {
        TreeTotals {
            root: self.root,
            nodes: self.nodes,
            classes: self.classes,
            edges: self.edges + more as u64,
        }
    }

    // The totals after a node's number of edges changed. That number has 32 bits.
    pub(crate) fn with_edges(self, had: u32, has: u32) -> TreeTotals
        requires had { had ≤ self.edges }
        requires room { self.edges < 18446744069414584320 }
        ensures root { result.root ≡ self.root }
        ensures nodes { result.nodes ≡ self.nodes }
        ensures classes { result.classes ≡ self.classes }
        ensures edges { result.edges + had ≡ self.edges + has }
        ensures fits { has < 4294967296 }
    {
        TreeTotals {
            root: self.root,
            nodes: self.nodes,
            classes: self.classes,
            edges: self.edges - had as u64 + has as u64,
        }
    }
}
