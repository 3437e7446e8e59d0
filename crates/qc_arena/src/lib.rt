//! The nodes of a tree by their numbers, and the calls that read them.
#![tactic(auto)]

mod arena;
mod class_changes;
mod class_numbers;
mod counted;
mod edge;
mod edge_list;
mod edge_lists;
mod edges;
mod handing;
mod image;
mod image_parts;
mod images;
mod kept_record;
mod label_path;
mod marks;
mod measure_columns;
mod merge;
mod node_store;
mod nodes;
mod number_index;
mod number_list;
mod record_store;
mod same;
mod slots;
mod sorted_images;
mod touched;
mod tree_totals;
mod unsorted_images;

pub use arena::{ArenaRefused, QcArena};
pub use cube_defs::Memory;
pub use image::Record;
pub use images::{Images, Look};
pub use nodes::{Forced, Nodes};
pub use tree_totals::Counts;
