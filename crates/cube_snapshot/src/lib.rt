//! Snapshots: a state as bytes, and back. Each state has one encoding.
#![tactic(auto)]

mod contents;
mod decoding;
mod encoding;
pub mod laws;
mod reading;
mod refused;
mod rows;
mod sizes;
mod texts;
mod whole;
mod writing;

pub use decoding::{decode, decode_with_keys};
pub use encoding::encode;
pub use refused::{DecodeRefused, EncodeRefused};
