//! Reads CSV files into changes of a table, by the columns of a schema.
#![tactic(auto)]

mod batch;
mod changes;
mod columns;
mod files;
mod reading;
mod row;
mod texts;

pub use batch::RawBatch;
pub use cube_defs::Memory;
pub use files::{LoadRefused, read_base, read_batch};
