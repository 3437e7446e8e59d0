//! The bytes of replies.
#![tactic(auto)]

mod cells;
mod classes;
mod fields;
mod points;
mod ranges;
mod refusals;
mod short;
mod totals;
mod values;

pub use classes::{bounds_reply, iceberg_reply, push_bounds};
pub use points::{point_reply, push_point};
pub use ranges::range_reply;
pub use refusals::{
    Detail, RefusalReport, all_pinned_refusal, file_refusal, line_refusal, many_refusal,
    name_taken_refusal, not_pinned_refusal, pinned_refusal, size_refusal, widen_refusal,
};
pub use short::{
    Reply, ShortReply, applied_reply, memory_reply, none_reply, pinned_reply, refused, stats_reply,
    unpinned_reply, widened_reply,
};
