//! Finds the targets of links, which are nodes that exist already.
#![tactic(auto)]

mod linking;
mod way;

pub use cube_defs::Memory;
pub use linking::link_all;
pub use way::descend;
