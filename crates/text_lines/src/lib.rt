//! Parses texts: lines, the byte order mark at the start, comma-separated records, plain lines
//! without quotes, and words between spaces.
#![tactic(auto)]

mod byte_order_mark;
mod lines;
mod plain;
mod record_reader;
mod words;

pub use byte_order_mark::{has_byte_order_mark, has_two_byte_order_marks, trim_byte_order_mark};
pub use lines::{is_comment_line, split_line, trim_cr};
pub use plain::is_plain;
pub use record_reader::{RecordReader, field};
pub use words::split_word;
