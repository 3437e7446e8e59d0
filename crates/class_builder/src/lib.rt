//! Builds the tree of a table's rows from scratch, by one walk.
#![tactic(auto)]

mod acts;
mod builder;
mod labels;
mod part;
mod path;
mod pool;
mod prefix_nodes;
mod total;
mod tree;
mod upper;
mod walk;

pub use acts::{add_child, add_root, mark_class, set_link};
pub use cube_defs::Memory;
pub use tree::build_classes;
