// The nodes on the walk's path.
ghost use Rattle.std.specs.Prelude.{ℕ, ◌≡◌, ◌≢◌, ◌≤◌};
ghost use Rattle.class_builder.specs.Walk.{node_on};

use cell_core::NodeNo;
use cube_defs::MAX_DIMS;

/// The nodes of a cell's prefixes, by the number of dimensions of the prefix.
#[derive(Clone, Copy)]
pub(crate) struct Path {
    nodes: [NodeNo; 17],
}

impl Path {
    /// A path at the root, which is the prefix without dimensions.
    pub(crate) fn start(root: NodeNo) -> Path
        ensures { node_on result 0 ≡ root.0 }
    {
        Path { nodes: [root; 17] }
    }

    /// The node of the prefix with so many dimensions.
    pub(crate) fn at(&self, dims: u8) -> NodeNo
        requires { dims ≤ MAX_DIMS }
        ensures { result.0 ≡ node_on self.now dims }
    {
        self.nodes[dims as usize]
    }

    pub(crate) fn set(&mut self, dims: u8, node: NodeNo)
        requires { dims ≤ MAX_DIMS }
        ensures here { node_on self.new dims ≡ node.0 }
        ensures others { (j : ℕ) → j ≢ dims → node_on self.new j ≡ node_on self.old j }
    {
        self.nodes[dims as usize] = node;
    }
}
