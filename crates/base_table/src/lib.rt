//! Rows under their ids, in the order in which they were inserted. A batch of changes can be rolled
//! back.
#![tactic(auto)]

mod chains;
mod fingerprints;
mod group;
mod ids;
mod lines;
mod numbered;
mod presence;
mod store;
mod table;

pub use cube_defs::Memory;
pub use lines::line;
pub use table::{Missing, RowNo, Table, TableRefused, Taken};
