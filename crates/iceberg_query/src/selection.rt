// The classes of a tree that a condition selects.
ghost use Rattle.iceberg_query.specs.Measured.{AreMeasured};

use crate::Ask;
use qc_arena::Nodes;
use tree_search::CanonicalTree;

/// A condition on the classes of a tree. The aggregate of each class has its measure.
#[derive(Drop)]
pub struct Selection<'a, T: Nodes> {
    pub tree: &'a CanonicalTree<'a, T>,
    pub ask: &'a Ask,
    pub ghost measured: { AreMeasured tree.now.tree ask.now.kind },
}
