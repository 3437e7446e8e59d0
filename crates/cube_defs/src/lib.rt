//! The definitions of the cube: cells, rows, closures, classes, nodes, the canonical tree, answers
//! to queries, and limits. It has no functions. The contracts of the other crates cite its
//! `specs/`.
#![tactic(auto)]

mod limits;

pub use limits::{
    MAX_AMOUNT, MAX_CODES, MAX_DIMS, MAX_FILE, MAX_MEASURES, MAX_NODES, MAX_ROWS, MAX_SCALE,
    MAX_TEXT,
};

/// Memory ran out.
pub type Memory = std::alloc::AllocError;
