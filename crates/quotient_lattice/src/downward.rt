// The children of a class, in cell order.
ghost use Rattle.std.specs.FinMap as map;
ghost use Rattle.std.specs.List.{IsDistinct};
ghost use Rattle.std.specs.List.Sorted.{IsSorted};
ghost use Rattle.std.specs.Ordering.{nat_cmp};
ghost use Rattle.std.specs.Prelude.{All, IfOk, IsSome, OnOk, Some, [], cond, length, map as mapped, nat_eq, ℕ, ◌*◌, ◌+◌, ◌++◌, ◌<◌, ◌≡◌, ◌≤◌, ◌↔◌, ◌∷◌};
ghost use Rattle.cube_defs.specs.Text.{text_cmp};
ghost use Rattle.cube_laws.specs.Lists.{Among};
ghost use Rattle.cube_laws.specs.Parts.{value_count};
ghost use Rattle.cube_laws.specs.Recoding.{RowsAreKnown};
ghost use Rattle.qc_arena.specs.RecordReaders.{record_at};
ghost use Rattle.tree_search.specs.Found.{IsTreeOf, IsTree, TreeRows};
ghost use Rattle.value_dict.specs.Recoded.{has_code, decoded_row_list};
ghost use Rattle.value_dict.specs.Decoded.{decoded_cell};
ghost use Rattle.quotient_lattice.specs.Candidates.{AreThere, edges_on_way};
ghost use Rattle.quotient_lattice.specs.Neighbours as lattice;
ghost use Rattle.quotient_lattice.specs.NodeCells as places;
ghost use Rattle.quotient_lattice.specs.NodeCells.{AreAt, IsPassing, IsPicked, number_of};
ghost use Rattle.quotient_lattice.specs.DecodedNodes.{decoded_nodes};

use crate::Memory;
use crate::candidates::child_candidates;
use crate::node_cells::{NodeCell, nodes_alone, sort};
use cell_core::{Cell, NodeNo, Steps};
use cells_below::count_values;
use qc_arena::Nodes;
use std::alloc::{AllocError, Global};
use std::sync::ledger::Ledger;
use tree_search::CanonicalTree;
use value_dict::Dict;

// Whether this is the last place of a number in a sorted list.
fn is_last(led: &Vec<u32>, i: usize) -> bool
    requires { i < length led.now.items }
    ensures { result ≡ places.is_last led.now.items i }
{
    i + 1 >= led.len() || led[i + 1] != led[i]
}

// Appends a node with its cell, if the cell has exactly so many values more.
fn push_child<T: Nodes, L: Ledger>(
    tree: &CanonicalTree<T>,
    node: NodeNo,
    values: u32,
    more: usize,
    children: &mut Vec<NodeCell>,
    steps: &mut Steps<L>,
) -> Result<(), Memory>
    requires node { IsSome (map.get tree.now.tree node.0) }
    ensures numbers { OnOk result (mapped number_of children.new.items
        ≡ mapped number_of children.old.items
        ++ cond (nat_eq (more + values) (value_count (record_at tree.now.tree node.0).cell))
        (node.0 ∷ []) []) }
    ensures cells { AreAt tree.now.tree children.old.items
        → OnOk result (AreAt tree.now.tree children.new.items) }
    ensures steps { steps.new ≤ steps.old + (2 * tree.now.width + 2) }
{
    let mut cell = Cell::any(*children.allocator(), tree.dims());
    tree.upper_into(node, &mut cell, steps);
    let all = count_values(&cell) as usize;
    if more <= all && all - more == values as usize {
        return match children.push(NodeCell { node, cell }) {
            Ok(()) => Ok(()),
            Err(_) => Err(AllocError),
        };
    }
    Ok(())
}

// The children among sorted candidates. A number is there once for each value that, added to u,
// gives its class. A child is a class with exactly that many values more than u, which has
// `values`.
fn children_among<T: Nodes, L: Ledger>(
    alloc: Global,
    tree: &CanonicalTree<T>,
    values: u32,
    led: &Vec<u32>,
    steps: &mut Steps<L>,
) -> Result<Vec<NodeCell>, Memory>
    requires there { AreThere tree.now.tree led.now.items }
    requires sorted { IsSorted nat_cmp led.now.items }
    ensures each { IfOk result (λ found. (k : ℕ) → Among k (mapped number_of found.items)
        ↔ IsPicked tree.now.tree values led.now.items (length led.now.items) k) }
    ensures once { IfOk result (λ found. IsDistinct nat_eq (mapped number_of found.items)) }
    ensures cells { IfOk result (λ found. AreAt tree.now.tree found.items) }
    ensures steps { steps.new ≤ steps.old + length led.now.items * (2 * tree.now.width + 2) }
{
    let mut found = Vec::new(alloc);
    let mut more = 0;
    'led: for i in 0..led.len() {
        more += 1;
        if is_last(led, i) {
            match push_child(tree, NodeNo(led[i]), values, more, &mut found, steps) {
                Ok(()) => {}
                Err(error) => return Err(error),
            }
            more = 0;
        }
    }
    Ok(found)
}

/// All children of a class, in no given order.
pub(crate) fn found_children<T: Nodes, L: Ledger>(
    alloc: Global,
    tree: &CanonicalTree<T>,
    node: NodeNo,
    steps: &mut Steps<L>,
) -> Result<Vec<NodeCell>, Memory>
    requires class { IsSome (record_at tree.now.tree node.0).class }
    ensures each { (source : TreeRows) → IsTreeOf tree.now.width tree.now.tree source →
        IfOk result (λ found. (k : ℕ) → Among k (mapped number_of found.items)
        ↔ IsPassing tree.now.tree source
        (λ d. lattice.is_parent nat_cmp source.rows (record_at tree.now.tree node.0).cell d)
        k) }
    ensures once { IfOk result (λ found. IsDistinct nat_eq (mapped number_of found.items)) }
    ensures cells { IfOk result (λ found. AreAt tree.now.tree found.items) }
    ensures steps { steps.new ≤ steps.old
        + 16 * (tree.now.width + 1) * (edges_on_way tree.now.tree node.0 + 1) }
{
    let mut u = Cell::any(alloc, tree.dims());
    tree.upper_into(node, &mut u, steps);
    let mut led = match child_candidates(alloc, tree, node, &mut u, steps) {
        Ok(led) => led,
        Err(error) => return Err(error),
    };
    led.sort_unstable();
    children_among(alloc, tree, count_values(&u), &led, steps)
}

/// The nodes of all children of a class, in cell order by the texts of the dictionary. With n
/// dimensions, and E edges at the nodes from the root to the class's, it takes at most
/// 16 (n + 1) (E + 1) steps.
pub fn children<T: Nodes, L: Ledger>(
    alloc: Global,
    tree: &T,
    dict: &Dict,
    node: NodeNo,
    steps: &mut Steps<L>,
) -> Result<Vec<NodeNo>, Memory>
    requires tree { IsTree (T.width tree.now) (T.tree tree.now) }
    requires class { IsSome (record_at (T.tree tree.now) node.0).class }
    requires dims { length dict.now.lists ≡ T.width tree.now }
    ensures nodes { (source : TreeRows) → IsTreeOf (T.width tree.now) (T.tree tree.now) source
        → RowsAreKnown (has_code dict.now.lists) source.rows →
        IfOk result (λ nodes. decoded_nodes dict.now.lists (T.tree tree.now) nodes.items
        ≡ lattice.children text_cmp (decoded_row_list dict.now.lists source.rows)
        (decoded_cell dict.now.lists (record_at (T.tree tree.now) node.0).cell)) }
    ensures classes { IfOk result
        (λ nodes. All (λ node. IsSome (record_at (T.tree tree.now) node.0).class) nodes.items) }
    ensures steps { steps.new ≤ steps.old
        + 16 * (T.width tree.now + 1) * (edges_on_way (T.tree tree.now) node.0 + 1) }
{
    let _dims = dict.dims();
    let tree = CanonicalTree::of(tree);
    let mut found = match found_children(alloc, &tree, node, steps) {
        Ok(found) => found,
        Err(error) => return Err(error),
    };
    match sort(dict, &mut found) {
        Ok(()) => nodes_alone(alloc, found),
        Err(error) => Err(error),
    }
}
