// Values with their nodes.
use aggregates::Ratio;

/// The value of a class with the number of its node. Entries are ordered by value and then by
/// number.
#[derive(Clone, Copy)]
pub struct IndexEntry {
    pub value: Ratio,
    pub node: u32,
}
