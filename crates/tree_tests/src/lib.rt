//! Tests of an arena and of indexes, and of what builds a tree and repairs it: batches that are
//! kept, taken back and stopped, a class that is handed down, before-images, single acts of building, classes in order of their
//! values, the way down, and rows that come one by one, against trees that are built from scratch,
//! record by record.
#![tactic(auto)]

#[cfg(test)]
mod acts;
#[cfg(test)]
mod batches;
#[cfg(test)]
mod draw;
#[cfg(test)]
mod grown;
#[cfg(test)]
mod images;
#[cfg(test)]
mod indexes;
#[cfg(test)]
mod one_by_one;
#[cfg(test)]
mod rows;
#[cfg(test)]
mod stopped;
#[cfg(test)]
mod tests;
#[cfg(test)]
mod together;
#[cfg(test)]
mod trees;
#[cfg(test)]
mod ways;
#[cfg(test)]
mod widening;
