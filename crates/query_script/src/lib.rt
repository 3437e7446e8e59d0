//! Reads the lines of a script into commands.
#![tactic(auto)]

mod asked_fields;
mod at;
mod coded;
mod iceberg;
mod line;
mod part;
mod plain;
mod query;
mod record;
mod rollup;
mod values;
mod widen;

pub use coded::{CellQuery, CellRead, read_cell_codes};
pub use line::{Command, LineRefused, read_line};
pub use query::Query;
