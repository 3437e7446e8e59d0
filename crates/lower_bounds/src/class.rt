// The class of a cell.
ghost use Rattle.std.specs.Ordering.{nat_cmp};
ghost use Rattle.std.specs.Option.{option_map};
ghost use Rattle.std.specs.Prelude.{IfOk, length, ◌*◌, ◌+◌, ◌<◌, ◌^◌, ◌≡◌, ◌≤◌};
ghost use Rattle.cube_defs.specs.Answers.{class_of};
ghost use Rattle.tree_search.specs.Found.{IsTreeOf, IsTree, TreeRows};

use crate::Memory;
use crate::bounds::bounds_of;
use aggregates::Agg;
use cell_core::{Cell, Cells, Steps};
use cells_below::{UpperBound, count_values};
use qc_arena::Nodes;
use std::alloc::Global;
use std::sync::ledger::Ledger;
use tree_search::CanonicalTree;

/// A class of the rows, in codes.
#[derive(Drop)]
pub struct ClassHit {
    /// Its upper bound.
    pub upper: Cell,
    /// Its aggregate.
    pub agg: Agg,
    /// Its lower bounds, in cell order.
    pub lowers: Cells,
}

ghost use Rattle.lower_bounds.specs.Classes.{hit_in};

/// The class of the cell's closure. None if the cell covers no row. With n dimensions it takes at
/// most 7 (n + 1) 2^n steps.
pub fn find_class<T: Nodes, L: Ledger>(
    alloc: Global,
    tree: &T,
    cell: &Cell,
    steps: &mut Steps<L>,
) -> Result<Option<ClassHit>, Memory>
    requires dims { length cell.now ≡ T.width tree.now }
    requires tree { IsTree (T.width tree.now) (T.tree tree.now) }
    ensures class { (source : TreeRows) → IsTreeOf (T.width tree.now) (T.tree tree.now) source →
        IfOk result (λ class. option_map hit_in class
        ≡ class_of nat_cmp source.measures source.rows cell.now) }
    ensures steps { steps.new ≤ steps.old + 7 * (T.width tree.now + 1) * 2 ^ T.width tree.now }
{
    let tree = CanonicalTree::of(tree);
    let Some(node) = tree.find(cell, steps) else {
        return Ok(None);
    };
    let mut u = Cell::any(alloc, tree.dims());
    tree.upper_into(node, &mut u, steps);
    let total = tree.class(node, steps).unwrap();
    let upper = UpperBound {
        tree: &tree,
        node,
        cell: &u,
        values: count_values(&u),
    };
    let lowers = bounds_of(alloc, &upper, steps)?;
    Ok(Some(ClassHit {
        upper: u,
        agg: total,
        lowers,
    }))
}
