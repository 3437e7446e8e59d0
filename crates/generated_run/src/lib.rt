//! A warehouse whose rows are drawn from a seed, and its record.
#![tactic(auto)]

mod files;
pub mod laws;
mod run;
mod run_record;

pub use run::{Generated, generate};
