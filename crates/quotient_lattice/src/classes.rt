// The classes of nodes, as they are reported.
ghost use Rattle.std.specs.Ordering.{nat_cmp};
ghost use Rattle.std.specs.Prelude.{All, IfOk, IsSome, length, map, ◌*◌, ◌+◌, ◌≡◌, ◌≤◌};
ghost use Rattle.lower_bounds.specs.Classes.{hit_in};
ghost use Rattle.qc_arena.specs.RecordReaders.{record_at};
ghost use Rattle.tree_search.specs.Found.{IsTreeOf, IsTree, TreeRows};
ghost use Rattle.quotient_lattice.specs.Neighbours as lattice;

use crate::Memory;
use cell_core::{Cell, Cells, NodeNo, Steps};
use lower_bounds::ClassHit;
use qc_arena::Nodes;
use std::alloc::Global;
use std::sync::ledger::Ledger;
use tree_search::CanonicalTree;

// The class of a node, without its lower bounds.
fn class_alone<T: Nodes, L: Ledger>(
    alloc: Global,
    tree: &CanonicalTree<T>,
    node: NodeNo,
    steps: &mut Steps<L>,
) -> ClassHit
    requires { IsSome (record_at tree.now.tree node.0).class }
    ensures class { (source : TreeRows) → IsTreeOf tree.now.width tree.now.tree source →
        hit_in result ≡ lattice.class_alone nat_cmp source.measures source.rows
        (record_at tree.now.tree node.0).cell }
    ensures steps { steps.new ≤ steps.old + (2 * tree.now.width + 3) }
{
    let mut upper = Cell::any(alloc, tree.dims());
    tree.upper_into(node, &mut upper, steps);
    let total = tree.class(node, steps).unwrap();
    ClassHit {
        upper,
        agg: total,
        lowers: Cells::new(alloc),
    }
}

/// The classes of some nodes, without their lower bounds. With n dimensions it takes at most 2n + 3
/// steps for each.
pub fn classes_alone<T: Nodes, L: Ledger>(
    alloc: Global,
    tree: &T,
    nodes: &[NodeNo],
    steps: &mut Steps<L>,
) -> Result<Vec<ClassHit>, Memory>
    requires tree { IsTree (T.width tree.now) (T.tree tree.now) }
    requires classes { All (λ node. IsSome (record_at (T.tree tree.now) node.0).class) nodes.now }
    ensures classes { (source : TreeRows) → IsTreeOf (T.width tree.now) (T.tree tree.now) source →
        IfOk result (λ classes. map hit_in classes.items
        ≡ map (λ node. lattice.class_alone nat_cmp source.measures source.rows
        (record_at (T.tree tree.now) node.0).cell) nodes.now) }
    ensures steps { steps.new ≤ steps.old + length nodes.now * (2 * T.width tree.now + 3) }
{
    let tree = CanonicalTree::of(tree);
    let mut classes = match Vec::with_capacity(alloc, nodes.len()) {
        Ok(classes) => classes,
        Err(error) => return Err(error),
    };
    'nodes: for node in nodes {
        let class = class_alone(alloc, &tree, *node, steps);
        classes.push_reserved(class);
    }
    Ok(classes)
}
