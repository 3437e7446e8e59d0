//! The quotient lattice (Lakshmanan, Pei, Han, VLDB 2002): the parents and the children of a class,
//! and the most general classes that pass a bound, from a class on. They are found by searches in
//! the tree.
#![tactic(auto)]

mod candidates;
mod classes;
mod downward;
pub mod laws;
mod node_cells;
mod parent_test;
mod rolling;
mod upward;

pub use classes::classes_alone;
pub use cube_defs::Memory;
pub use downward::children;
pub use rolling::rollup;
pub use upward::parents;
