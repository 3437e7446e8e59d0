// Texts, read by hand.
use csv::ByteRecord;
use std::alloc::Global;
use text_lines::{
    RecordReader, field, has_two_byte_order_marks, is_comment_line, is_plain, split_line,
    trim_byte_order_mark, trim_cr,
};

fn are_lines_cut() -> bool {
    let text = trim_byte_order_mark(b"\xef\xbb\xbf# x\r\ny");
    let (first, after) = split_line(text);
    text.len() == 6
        && trim_cr(first) == b"# x".as_slice()
        && is_comment_line(first)
        && after == b"y".as_slice()
}

fn are_marks_and_quotes_seen() -> bool {
    !has_two_byte_order_marks(b"\xef\xbb\xbfx")
        && has_two_byte_order_marks(b"\xef\xbb\xbf\xef\xbb\xbf")
        && is_plain("a,b c")
        && !is_plain("a,\"b\"")
}

// Whether a record comes next, or none.
fn is_next(rows: &mut RecordReader<'_>, row: &mut ByteRecord, comes: bool) -> bool {
    match rows.next(row) {
        Ok(came) => came == comes,
        Err(_) => false,
    }
}

// Two records: of two fields, the second with a quote, and of one.
fn are_two(rows: &mut RecordReader<'_>, row: &mut ByteRecord) -> bool {
    if !is_next(rows, row, true) || row.len() != 2 || field(row, 1) != b"b\"c".as_slice() {
        return false;
    }
    is_next(rows, row, true) && row.len() == 1 && is_next(rows, row, false)
}

// The same with a line between them.
fn are_records_read(alloc: Global) -> bool {
    let mut rows = RecordReader::new(alloc, b"a,\"b\"\"c\"\n\nd\n");
    let mut row = ByteRecord::new(alloc);
    let are_two = are_two(&mut rows, &mut row);
    drop(row);
    drop(rows);
    are_two
}

/// Whether lines and records are read.
pub(crate) fn are_right(alloc: Global) -> bool {
    are_lines_cut() && are_marks_and_quotes_seen() && are_records_read(alloc)
}
