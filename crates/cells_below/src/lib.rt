//! The cells that generalize a cell, named by numbers. A bit of the number says whether a value is
//! kept. Marks on these numbers, and tests of such a cell's closure by searches in a tree.
#![tactic(auto)]

mod closed;
mod marks;
mod numbers;
mod pruned;
mod search;
mod upper;
mod without;

pub use closed::bounds_at;
pub use cube_defs::Memory;
pub use marks::Marks;
pub use numbers::{count_values, flip_bit, is_bit_set, write_cell};
pub use pruned::is_minimal;
pub use search::CellSearch;
pub use upper::UpperBound;
pub use without::needed;
