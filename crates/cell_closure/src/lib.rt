//! Rows in the order of the first values of their tuples, the values that rows share, and groups of
//! rows by their codes in a dimension.
#![tactic(auto)]

mod by_code;
mod closure;
mod coded_rows;
mod order;
mod parts;
mod sorted_rows;
mod table_rows;
mod width;

pub use closure::{closure_of, shared_entry};
pub use coded_rows::CodedRows;
pub use cube_defs::Memory;
pub use parts::{Parts, part};
pub use sorted_rows::SortedRows;
pub use table_rows::{SomeRows, TableRows};
pub use width::meet_fixed;
