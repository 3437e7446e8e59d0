//! Searches in a tree: the node of a cell's closure, a node's cell, and a cell's aggregate. This is
//! the point query of QC-trees (Lakshmanan, Pei, Zhao, SIGMOD 2003). No call takes memory.
#![tactic(auto)]

mod canonical;
mod climb;
mod search;
mod totals;

pub use canonical::CanonicalTree;
pub use climb::upper_into;
pub use search::{find, find_from, step};
pub use totals::total_at;
