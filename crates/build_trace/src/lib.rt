//! The acts of building a tree depth first, in their order. The laws say that they make the
//! canonical tree; there is nothing to call.
#![tactic(auto)]
