//! Two trees of up to six dimensions side by side, record by record, for tests. A node's cell is
//! read on the way up its parents. So the contracts speak of trees in which each node's parent is
//! there, and has the node's cell without its last value. The trees of rows are such trees.
#![tactic(auto)]

mod lines;
mod numbers_kept;
mod rooted;
mod twins;

pub use lines::{ANY, Line, NUMBERS, cell_at, cells};
pub use numbers_kept::are_kept;
pub use rooted::trees_of_rows_are_rooted;
pub use twins::are_same;
