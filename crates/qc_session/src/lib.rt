//! The top call: runs a script over a base table, and writes its replies.
#![tactic(auto)]

mod answer;
mod failure;
pub mod laws;
mod lines;
mod pending;
mod pins;
mod quiet;
mod scripts;
mod session;
mod status;
mod widening;
mod words;

pub use scripts::{Outcome, run, run_counted, run_with_keys};
pub use status::run_to_status;
