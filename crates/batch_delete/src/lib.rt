//! Repairs a canonical tree in place when a row is deleted.
#![tactic(auto)]

mod cells;
mod delete;
mod deleted_row;
mod generalizing;
mod labels;
mod partial_search;
mod parts;
mod plan;
mod record_rewriting;
mod searches;
mod stays;
mod subtracting;

pub use delete::delete_row;

/// Memory ran out.
pub type Memory = std::alloc::AllocError;
