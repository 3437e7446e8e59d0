// The upper bound of a class in a tree.
ghost use Rattle.std.specs.Prelude.{Some, length, true, ◌≡◌, ◌≤◌};
ghost use Rattle.cube_defs.specs.Tree.{cell_at};
ghost use Rattle.cube_defs.specs.declared.limits.TheConstants.{MAX_DIMS};
ghost use Rattle.cube_laws.specs.Parts.{value_count};
ghost use Rattle.tree_search.specs.Found.{IsTreeOf, TreeRows};
ghost use Rattle.cells_below.specs.Closed.{has_closure_in};

use cell_core::{Cell, NodeNo};
use qc_arena::Nodes;
use tree_search::CanonicalTree;

/// The upper bound of a class: the cell of its node, which has so many values. It is its own
/// closure.
#[derive(Drop)]
pub struct UpperBound<'a, T: Nodes> {
    pub tree: &'a CanonicalTree<'a, T>,
    pub node: NodeNo,
    pub cell: &'a Cell,
    pub values: u32,
    pub ghost at_node: { cell_at tree.now.tree node.0 ≡ Some cell.now },
    pub ghost long: { length cell.now ≡ tree.now.width },
    pub ghost counted: { values ≡ value_count cell.now },
    pub ghost few: { values ≤ MAX_DIMS },
    pub ghost own: { (source : TreeRows) → IsTreeOf tree.now.width tree.now.tree source
        → has_closure_in source cell.now cell.now ≡ true },
}
