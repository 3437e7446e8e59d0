//! Earlier states of a warehouse under names (pins). A version is read from the present tree and
//! the before-images that were stored since.
#![tactic(auto)]

mod pinned;
mod pins;
mod refused;
mod stored_images;
mod view;

pub use pinned::Pinned;
pub use refused::{NotPinned, PinRefused, PinnedWiden};
pub use view::PinnedView;
