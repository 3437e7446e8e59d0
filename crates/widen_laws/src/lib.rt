//! What changes when all rows get the same value in a new last dimension: the classes, the nodes
//! and their records. All of it is this project's own.
#![tactic(auto)]

pub mod widened_rows;
