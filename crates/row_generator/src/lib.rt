//! Makes base files and batches of rows from a seed. One file at a time is made, in a buffer that
//! is reused.
#![tactic(auto)]

mod draws;
mod files;
pub mod laws;
mod rows;

pub use draws::Draws;
pub use files::{BATCHES, write_base, write_batch};
