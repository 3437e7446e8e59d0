//! The state of a cube: a schema, its rows, their texts, their tree and the index of its classes.
//! Whole files change it.
#![tactic(auto)]

mod changing;
mod checks;
mod cube;
mod deleting;
mod indexing;
mod learning;
mod parts;
mod refused;
mod row_insertion;
mod store;
mod widening;

pub use cube_defs::Memory;
pub use refused::{Applied, PartsRefused, Refused, Stats, WidenRefused};
pub use store::Warehouse;
