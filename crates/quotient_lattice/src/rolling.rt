// Roll-ups: the most general classes that pass, from a class on.
ghost use Rattle.std.specs.FinMap as map;
ghost use Rattle.std.specs.List.{IsDistinct};
ghost use Rattle.std.specs.Prelude.{All, IfOk, IsSome, OnOk, [], filter, length, map as mapped, nat_eq, ℕ, ◌≡◌, ◌↔◌, ◌∷◌, ◌++◌, true, ◌*◌, ◌+◌, ◌≤◌};
ghost use Rattle.std.specs.Ordering.{nat_cmp};
ghost use Rattle.cube_defs.specs.Text.{text_cmp};
ghost use Rattle.cube_laws.specs.Lists.{Among};
ghost use Rattle.cube_laws.specs.Recoding.{RowsAreKnown};
ghost use Rattle.iceberg_query.specs.Asked.{HasMeasure, ask_in};
ghost use Rattle.indexmap.specs.IndexSet.{insert_all};
ghost use Rattle.qc_arena.specs.RecordReaders.{record_at};
ghost use Rattle.tree_search.specs.Found.{IsTreeOf, IsTree, TreeRows};
ghost use Rattle.value_dict.specs.Recoded.{has_code, decoded_row_list};
ghost use Rattle.value_dict.specs.Decoded.{decoded_cell};
ghost use Rattle.quotient_lattice.specs.Candidates.{edges_on_way};
ghost use Rattle.quotient_lattice.specs.Costs.{size_from};
ghost use Rattle.quotient_lattice.specs.Neighbours as lattice;
ghost use Rattle.quotient_lattice.specs.NodeCells.{AreAt, IsPassing, number_of};
ghost use Rattle.quotient_lattice.specs.DecodedNodes.{decoded_nodes};
ghost use Rattle.quotient_lattice.specs.Visits as visits;
ghost use Rattle.quotient_lattice.specs.Visits.{AreMet, IsVisited};

use crate::Memory;
use crate::downward::found_children;
use crate::node_cells::{NodeCell, nodes_alone, sort};
use cell_core::{Cell, NodeNo, Steps, leq};
use iceberg_query::{Ask, Selection, passes};
use indexmap::IndexSet;
use qc_arena::Nodes;
use std::alloc::{AllocError, Global};
use std::sync::ledger::Ledger;
use tree_search::CanonicalTree;
use value_dict::Dict;

// Whether the class of a node passes.
fn wants<T: Nodes, L: Ledger>(selection: &Selection<T>, node: NodeNo, steps: &mut Steps<L>) -> bool
    requires { IsSome (record_at selection.now.tree.now.tree node.0).class }
    ensures value { result ≡ visits.wants selection.now.tree.now.tree selection.now.ask.now node.0 }
    ensures steps { steps.new ≤ steps.old + 1 }
{
    let total = selection.tree.class(node, steps).unwrap();
    passes(selection.ask, &total)
}

// Inserts the numbers that are not there yet.
fn insert_each(seen: &mut IndexSet<u32>, found: &Vec<NodeCell>) -> Result<(), Memory>
    ensures { OnOk result (seen.new.keys ≡ insert_all nat_eq seen.old.keys
        (mapped number_of found.now.items)) }
{
    'found: for k in 0..found.len() {
        match seen.insert(found[k].node.0) {
            Ok(_) => {}
            Err(_) => return Err(AllocError),
        }
    }
    Ok(())
}

// Appends a node with its cell.
fn push_placed<T: Nodes, L: Ledger>(
    tree: &CanonicalTree<T>,
    node: NodeNo,
    met: &mut Vec<NodeCell>,
    steps: &mut Steps<L>,
) -> Result<(), Memory>
    requires node { IsSome (map.get tree.now.tree node.0) }
    ensures numbers { OnOk result (mapped number_of met.new.items ≡ mapped number_of met.old.items
        ++ node.0 ∷ []) }
    ensures cells { AreAt tree.now.tree met.old.items
        → OnOk result (AreAt tree.now.tree met.new.items) }
    ensures steps { steps.new ≤ steps.old + (2 * tree.now.width + 2) }
{
    let mut cell = Cell::any(*met.allocator(), tree.dims());
    tree.upper_into(node, &mut cell, steps);
    match met.push(NodeCell { node, cell }) {
        Ok(()) => Ok(()),
        Err(_) => Err(AllocError),
    }
}

// Takes a class that passes; of another it looks at the children.
fn visit<T: Nodes, L: Ledger>(
    selection: &Selection<T>,
    node: NodeNo,
    seen: &mut IndexSet<u32>,
    met: &mut Vec<NodeCell>,
    steps: &mut Steps<L>,
) -> Result<(), Memory>
    requires { IsSome (record_at selection.now.tree.now.tree node.0).class }
    ensures visited { (source : TreeRows) →
        IsTreeOf selection.now.tree.now.width selection.now.tree.now.tree source →
        OnOk result (IsVisited selection.now.tree.now.tree source selection.now.ask.now node.0
        seen.old.keys seen.new.keys
        (mapped number_of met.old.items) (mapped number_of met.new.items)) }
    ensures cells { AreAt selection.now.tree.now.tree met.old.items
        → OnOk result (AreAt selection.now.tree.now.tree met.new.items) }
    ensures steps { steps.new ≤ steps.old + 17 * (selection.now.tree.now.width + 1)
        * (edges_on_way selection.now.tree.now.tree node.0 + 1) }
{
    if wants(selection, node, steps) {
        return push_placed(selection.tree, node, met, steps);
    }
    match found_children(*met.allocator(), selection.tree, node, steps) {
        Ok(found) => insert_each(seen, &found),
        Err(error) => Err(error),
    }
}

// Visits the class of each number that is seen, from the first one on. Each class is visited once.
fn meet_all<T: Nodes, L: Ledger>(
    selection: &Selection<T>,
    node: NodeNo,
    seen: &mut IndexSet<u32>,
    met: &mut Vec<NodeCell>,
    steps: &mut Steps<L>,
) -> Result<(), Memory>
    requires class { IsSome (record_at selection.now.tree.now.tree node.0).class }
    requires none_seen { seen.old.keys ≡ [] }
    requires none_met { met.old.items ≡ [] }
    ensures met { (source : TreeRows) →
        IsTreeOf selection.now.tree.now.width selection.now.tree.now.tree source →
        OnOk result (AreMet selection.now.tree.now.tree source selection.now.ask.now node.0
        (mapped number_of met.new.items)) }
    ensures once { OnOk result (IsDistinct nat_eq (mapped number_of met.new.items)) }
    ensures cells { OnOk result (AreAt selection.now.tree.now.tree met.new.items) }
    ensures steps { (source : TreeRows) →
        IsTreeOf selection.now.tree.now.width selection.now.tree.now.tree source →
        steps.new ≤ steps.old + 17 * (selection.now.tree.now.width + 1)
        * size_from nat_cmp source.rows (record_at selection.now.tree.now.tree node.0).cell }
{
    let _dims = selection.tree.dims();
    if seen.insert(node.0).is_err() {
        return Err(AllocError);
    }
    let mut i = 0;
    'seen: while i < seen.len() {
        let number = *seen.get_index(i).unwrap();
        match visit(selection, NodeNo(number), seen, met, steps) {
            Ok(()) => {}
            Err(error) => return Err(error),
        }
        i += 1;
    }
    Ok(())
}

// From a class on: all classes that pass and are met through the children of those that don't.
fn met_from<T: Nodes, L: Ledger>(
    alloc: Global,
    selection: &Selection<T>,
    node: NodeNo,
    steps: &mut Steps<L>,
) -> Result<Vec<NodeCell>, Memory>
    requires { IsSome (record_at selection.now.tree.now.tree node.0).class }
    ensures met { (source : TreeRows) →
        IsTreeOf selection.now.tree.now.width selection.now.tree.now.tree source →
        IfOk result (λ met. AreMet selection.now.tree.now.tree source selection.now.ask.now node.0
        (mapped number_of met.items)) }
    ensures once { IfOk result (λ met. IsDistinct nat_eq (mapped number_of met.items)) }
    ensures cells { IfOk result (λ met. AreAt selection.now.tree.now.tree met.items) }
    ensures steps { (source : TreeRows) →
        IsTreeOf selection.now.tree.now.width selection.now.tree.now.tree source →
        steps.new ≤ steps.old + 17 * (selection.now.tree.now.width + 1)
        * size_from nat_cmp source.rows (record_at selection.now.tree.now.tree node.0).cell }
{
    let mut seen = IndexSet::new(alloc);
    let mut met = Vec::new(alloc);
    match meet_all(selection, node, &mut seen, &mut met, steps) {
        Ok(()) => Ok(met),
        Err(error) => Err(error),
    }
}

// Whether no other of some nodes generalizes this one.
fn is_most_general(met: &Vec<NodeCell>, x: &NodeCell) -> bool
    requires { All (λ y. length y.cell ≡ length x.now.cell) met.now.items }
    ensures { result ≡ visits.is_most_general_among met.now.items x.now }
{
    'met: for k in 0..met.len() {
        let y = &met[k];
        if leq(&y.cell, &x.cell) && y.node.0 != x.node.0 {
            return false;
        }
    }
    true
}

// The nodes that no other of them generalizes.
fn most_general_of(alloc: Global, met: &Vec<NodeCell>) -> Result<Vec<NodeCell>, Memory>
    requires { All (λ x. All (λ y. length y.cell ≡ length x.cell) met.now.items) met.now.items }
    ensures { IfOk result (λ kept. kept.items ≡ filter (visits.is_most_general_among met.now.items)
        met.now.items) }
{
    let mut kept = Vec::new(alloc);
    'met: for k in 0..met.len() {
        let x = &met[k];
        if is_most_general(met, x) {
            let placed = NodeCell {
                node: x.node,
                cell: x.cell.copy(),
            };
            match kept.push(placed) {
                Ok(()) => {}
                Err(_) => return Err(AllocError),
            }
        }
    }
    Ok(kept)
}

/// The nodes of the most general classes that pass, of those that a class generalizes, itself
/// included, in cell order by the texts of the dictionary. It goes through the children, but not
/// past a class that passes. With n dimensions it takes at most 17 (n + 1) (E + 1) steps for each
/// class that the given one generalizes, where E counts the edges at the nodes from the root to it.
pub fn rollup<T: Nodes, L: Ledger>(
    alloc: Global,
    tree: &T,
    dict: &Dict,
    node: NodeNo,
    ask: &Ask,
    steps: &mut Steps<L>,
) -> Result<Vec<NodeNo>, Memory>
    requires tree { IsTree (T.width tree.now) (T.tree tree.now) }
    requires class { IsSome (record_at (T.tree tree.now) node.0).class }
    requires dims { length dict.now.lists ≡ T.width tree.now }
    requires measure { HasMeasure (T.width tree.now) (T.tree tree.now) ask.now.kind }
    ensures nodes { (source : TreeRows) → IsTreeOf (T.width tree.now) (T.tree tree.now) source
        → RowsAreKnown (has_code dict.now.lists) source.rows →
        IfOk result (λ nodes. decoded_nodes dict.now.lists (T.tree tree.now) nodes.items
        ≡ lattice.rollup text_cmp source.measures (decoded_row_list dict.now.lists source.rows)
        (ask_in ask.now)
        (decoded_cell dict.now.lists (record_at (T.tree tree.now) node.0).cell)) }
    ensures classes { IfOk result
        (λ nodes. All (λ node. IsSome (record_at (T.tree tree.now) node.0).class) nodes.items) }
    ensures steps { (source : TreeRows) → IsTreeOf (T.width tree.now) (T.tree tree.now) source →
        steps.new ≤ steps.old + 17 * (T.width tree.now + 1)
        * size_from nat_cmp source.rows (record_at (T.tree tree.now) node.0).cell }
{
    let _dims = dict.dims();
    let tree = CanonicalTree::of(tree);
    let selection = Selection { tree: &tree, ask };
    let met = match met_from(alloc, &selection, node, steps) {
        Ok(met) => met,
        Err(error) => return Err(error),
    };
    let mut kept = match most_general_of(alloc, &met) {
        Ok(kept) => kept,
        Err(error) => return Err(error),
    };
    match sort(dict, &mut kept) {
        Ok(()) => nodes_alone(alloc, kept),
        Err(error) => Err(error),
    }
}
