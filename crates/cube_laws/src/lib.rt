//! The laws of the cube, over any type of values. Each is the contract of a function with an empty
//! body. Their terms are defined in `cube_defs` and in this crate's `specs/`. A law marked (own) is
//! this project's own.
#![tactic(auto)]

pub mod closure_operator;
pub mod deletion_step;
pub mod fractions;
pub mod iceberg_answers;
pub mod lattice;
pub mod lists_of_cells;
pub mod one_row_more;
pub mod parts_of_a_class;
pub mod recoding;
pub mod same_rows;
pub mod upper_bounds;
pub mod values;
pub mod witnesses;
