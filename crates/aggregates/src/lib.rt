//! Aggregates of rows, their values, and numbers as they are read and printed. No call takes
//! memory.
#![tactic(auto)]

mod agg;
mod fraction;
mod kind;
pub mod laws;
mod print;
mod quotient;
mod read;
mod value;

pub use agg::{Agg, Part};
pub use fraction::{Fraction, Ratio};
pub use kind::{AggKind, same_kind};
pub use print::{print_amount, print_number, print_ratio};
pub use quotient::Quotient;
pub use read::{read_amount, read_fraction, read_id};
pub use value::{compare, mean, value_of};
