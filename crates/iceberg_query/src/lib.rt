//! Iceberg queries: the classes whose aggregate passes a bound, in order of value.
#![tactic(auto)]

mod answer;
mod ask;
mod hits;
mod indexed;
mod order;
mod passing;
mod pick;
mod reach;
mod selection;

pub use answer::iceberg;
pub use ask::{Ask, Bound};
pub use cube_defs::Memory;
pub use lower_bounds::ClassHit;
pub use passing::passes;
pub use selection::Selection;
