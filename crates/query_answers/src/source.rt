// What a query is answered from, and what it asks of a class.

use aggregates::{AggKind, Fraction};
use iceberg_query::Bound;
use measure_index::Index;
use qc_arena::Nodes;
use warehouse::{Stats, Warehouse};

/// The rows that a query asks about, by their tree. The warehouse has their schema and their texts.
#[derive(Drop)]
pub struct Source<'a, T: Nodes> {
    pub warehouse: &'a Warehouse,
    pub tree: &'a T,
    /// An index of the tree's classes, of any kinds.
    pub index: &'a Index,
    /// The counts of the rows and of their tree.
    pub counts: Stats,
}

/// A class passes if its value of the kind, in the unit of the measure, is at least or at most the
/// value.
#[derive(Clone, Copy)]
pub(crate) struct Condition {
    pub kind: AggKind,
    pub bound: Bound,
    pub value: Fraction,
}
