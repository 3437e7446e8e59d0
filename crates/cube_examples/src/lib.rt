//! Worked values of the cube's definitions. Each is the contract of a function with an empty body.
//! The values were worked out by hand, and those of `sales` by `sqlite3`.
#![tactic(auto)]

pub mod answers;
pub mod cells;
pub mod rows;
pub mod sales;
pub mod search;
pub mod texts;
pub mod tree;
