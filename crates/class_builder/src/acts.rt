// The acts of building a tree. Each is one call on an arena.
mod classes;
mod labels;
mod nodes;

pub use classes::mark_class;
pub use labels::set_link;
pub use nodes::{add_child, add_root};
