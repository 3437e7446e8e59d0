//! The answers to queries, over the tree of some rows of a warehouse's schema: the present ones, or
//! those of a pin.
#![tactic(auto)]

mod bounds;
mod iceberg;
mod lattice;
mod plain;
mod point;
mod query;
mod range;
mod source;

pub use iceberg::empty_index;
pub use plain::answer_plain_cell;
pub use query::{answer_present, answer_query};
pub use source::Source;
