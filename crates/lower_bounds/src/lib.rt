//! The lower bounds of a class: the most general cells whose closure is the class (Lakshmanan, Pei,
//! Han, VLDB 2002). They are found by searches in the tree.
#![tactic(auto)]

mod bounds;
mod class;

pub use bounds::lower_bounds;
pub use class::{ClassHit, find_class};
use cube_defs::Memory;
