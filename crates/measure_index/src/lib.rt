//! For some kinds of aggregates, keeps the classes sorted by value.
#![tactic(auto)]

mod blocks;
mod builder;
mod column;
mod entry;
mod index;
mod key;
mod key_iter;
mod keying;
mod keys;
mod sorted_keys;
mod sorting;
mod walk;

pub use builder::IndexBuilder;
pub use cube_defs::Memory;
pub use entry::IndexEntry;
pub use index::Index;
pub use walk::Walk;
