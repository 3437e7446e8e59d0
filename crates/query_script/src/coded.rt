// Queries of a cell that are read into codes without a copy of their fields.
ghost use Rattle.std.specs.Prelude.{◌≡◌, ◌≢◌, ◌≤◌, ◌<◌, ◌∷◌, ℕ, slice_index, ◌++◌, None, IfSome, IsUtf8, MatchOption, false, length, slice_set};
ghost use Rattle.std.specs.Option.{option_map};
ghost use Rattle.cell_core.specs.Entry.{IsSmall, value_in};
ghost use Rattle.text_lines.specs.Plain.{pieces};
ghost use Rattle.value_dict.specs.TextLists.{entry_in, list_at};
ghost use Rattle.query_script.specs.Fields.{field_of};
ghost use Rattle.query_script.specs.declared.record.Shape.TheVariants as shapes;

use crate::record::named_value;
use cell_core::{Cell, Entry};
use cube_defs::MAX_FILE;
use qc_schema::Schema;
use text_lines::{has_byte_order_mark, is_plain};
use value_dict::Dict;

/// A query that is read so.
#[derive(Clone, Copy)]
pub enum CellQuery {
    /// The aggregate of a cell.
    Point,
    /// The bounds of the class of a cell.
    Bounds,
}

/// The outcome of reading a line as a query of a cell.
#[derive(Clone, Copy)]
pub enum CellRead {
    /// Not read into codes, which is no error: the line is no such query, or one that has to be
    /// read field by field.
    Unread,
    /// A value of the query isn't known, so its cell covers no row.
    Unknown(CellQuery),
    /// All values are known, and the cell has their codes.
    Known(CellQuery),
}

ghost use Rattle.query_script.specs.Coded.{AreCoded, IsCoded, command_start, pieces_left};

// The entry that a field asks for. The outer None: the field isn't allowed. The inner None: its
// value isn't known.
fn entry_of(dict: &Dict, dim: u8, field: &str) -> Option<Option<Entry>>
    requires { dim < length dict.now.lists }
    ensures value { option_map (λ found. option_map value_in found) result
        ≡ option_map (entry_in (list_at dict.now dim)) (field_of shapes.Cell field.now) }
    ensures small { IfSome result (λ found. IfSome found IsSmall) }
{
    match field.as_bytes() {
        b"*" => Some(Some(Entry::Any)),
        b"?" | [b'|' | b'~', ..] => None,
        _ => match dict.code(dim, named_value(field)) {
            Some(code) => Some(Some(Entry::Is(code))),
            None => Some(None),
        },
    }
}

// Puts an entry into a cell, if there is one, and says whether all are there.
fn put_entry(cell: &mut Cell, dim: u8, found: Option<Entry>, known: bool) -> bool
    requires dim { dim < length cell.old }
    requires small { IfSome found IsSmall }
    ensures value { MatchOption found (result ≡ false) (λ entry. (result ≡ known)
        × (cell.new ≡ slice_set cell.old dim (value_in entry))) }
    ensures dims { length cell.new ≡ length cell.old }
{
    match found {
        Some(entry) => {
            cell.set(dim, entry);
            known
        }
        None => false,
    }
}

// The place of the first comma, or the length if there is none.
fn first_comma(text: &str) -> usize
    ensures within { result ≤ length text.now }
    ensures before { (i : ℕ) → i < result → slice_index text.now i ≢ 44 }
    ensures comma { result < length text.now → slice_index text.now result ≡ 44 }
{
    for (at, b) in text.as_bytes().iter().enumerate() {
        if *b == b',' {
            return at;
        }
    }
    text.len()
}

// The text up to the first comma, the text after it, and whether there is one.
fn split_piece(text: &str) -> (&str, &str, bool)
    ensures pieces { pieces text.now ≡ result.0.now ∷ pieces_left result.2 result.1.now }
    ensures utf8 { IsUtf8 result.1.now }
{
    let end = first_comma(text);
    if end < text.len() {
        (&text[..end], &text[end + 1..], true)
    } else {
        (text, "", false)
    }
}

// Puts the codes of the pieces between commas into a cell, and says whether all are known. None:
// the pieces have to be read field by field.
fn put_codes(dict: &Dict, text: &str, cell: &mut Cell) -> Option<bool>
    requires { length cell.old ≡ length dict.now.lists }
    ensures coded { AreCoded result dict.now.lists (pieces text.now) cell.new }
    ensures dims { length cell.new ≡ length cell.old }
{
    let mut left = text;
    let mut more = true;
    let mut known = true;
    'dims: for dim in 0..dict.dims() {
        if !more {
            return None;
        }
        let (field, behind, comma) = split_piece(left);
        let Some(found) = entry_of(dict, dim, field) else {
            return None;
        };
        known = put_entry(cell, dim, found, known);
        left = behind;
        more = comma;
    }
    if more { None } else { Some(known) }
}

// The query that the command word names, and what follows the word.
fn split_word(line: &[u8]) -> Option<(CellQuery, &[u8])>
    ensures { IfSome result (λ found. line.now ≡ command_start found.0 ++ found.1.now) }
{
    match line {
        [b'p', b'o', b'i', b'n', b't', b' ', rest @ ..] => Some((CellQuery::Point, rest)),
        [b'b', b'o', b'u', b'n', b'd', b's', b' ', rest @ ..] => Some((CellQuery::Bounds, rest)),
        _ => None,
    }
}

/// Reads a line that is a point or `bounds`, without quotes, into the codes of its cell. It reads
/// no line that `read_line` refuses.
pub fn read_cell_codes(schema: &Schema, dict: &Dict, line: &[u8], cell: &mut Cell) -> CellRead
    requires dims { length cell.old ≡ length dict.now.lists }
    requires schema { length schema.now.dims ≡ length dict.now.lists }
    ensures coded { IsCoded result schema.now dict.now.lists line.now cell.new }
    ensures dims { length cell.new ≡ length cell.old }
{
    let Some((query, rest)) = split_word(line) else {
        return CellRead::Unread;
    };
    if rest.is_empty() || has_byte_order_mark(rest) {
        return CellRead::Unread;
    }
    match str::from_utf8(rest) {
        Ok(text) if is_plain(text) => match put_codes(dict, text, cell) {
            Some(true) => CellRead::Known(query),
            Some(false) => CellRead::Unknown(query),
            None => CellRead::Unread,
        },
        _ => CellRead::Unread,
    }
}
