//! Cells of a cube, texts, and the fields of a query.
#![tactic(auto)]

mod cell;
mod cells;
mod codes;
mod fields;
mod hash_keys;
mod steps;
mod texts;

pub use cell::{ANY, Cell, Code, Entry, NodeNo, last, leq, mask_of, meet_into, upto};
pub use cells::Cells;
pub use cube_defs::Memory;
pub use fields::{Field, Fields};
pub use hash_keys::HashKeys;
pub use steps::Steps;
pub use texts::{Text, Texts};
