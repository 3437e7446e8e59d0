//! The laws of the canonical tree, over any type of values. Each is the contract of a function with
//! an empty body. Their terms are defined in `cube_defs` and in this crate's `specs/`. A law marked
//! (own) is this project's own.
#![tactic(auto)]

pub mod apart_from_a_row;
pub mod counting;
pub mod labels;
pub mod one_row_more;
pub mod recoding;
pub mod same_rows;
pub mod search;
