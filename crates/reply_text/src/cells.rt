// A cell of codes, written with the texts of a dictionary.
ghost use Rattle.std.specs.Option.{option_map};
ghost use Rattle.std.specs.Prelude.{None, OnOk, decimal, length, map, slice_index_or, ◌++◌, ◌<◌, ◌∷◌, ◌≡◌};
ghost use Rattle.reply_text.specs.Replies.{entry_text, fields_text};
ghost use Rattle.value_dict.specs.TextLists.{list_at};
ghost use Rattle.value_dict.specs.Decoded.{HasTexts, text_of, decoded_cell};
ghost use Rattle.reply_text.specs.Told.{texts-prop};

use crate::fields::push_number;
use crate::values::push_value;
use cell_core::{Cell, Entry, Memory};
use value_dict::Dict;

/// A cell of codes, and a dictionary that has their texts.
#[derive(Drop)]
pub struct CodedCell<'a> {
    pub dict: &'a Dict,
    pub cell: &'a Cell,
    ghost texts: { HasTexts dict.now.lists cell.now } by { texts-prop dict.now.lists cell.now },
}

// The entry of a cell in a dimension, with a comma before it.
fn push_entry(out: &mut Vec<u8>, coded: &CodedCell<'_>, dim: u8) -> Result<(), Memory>
    requires { dim < length coded.now.cell.now }
    ensures { OnOk result (out.new.items ≡ out.old.items ++ 44
        ∷ entry_text (option_map (text_of (list_at coded.now.dict.now dim))
        (slice_index_or coded.now.cell.now dim None))) }
{
    match coded.cell.get(dim) {
        Entry::Any => {
            out.extend_from_slice(b",*")?;
            Ok(())
        }
        Entry::Is(code) => push_value(out, coded.dict.text(dim, code).as_bytes()),
    }
}

/// Appends the cell's fields, each with a comma before it.
pub fn push_cell(out: &mut Vec<u8>, coded: &CodedCell<'_>) -> Result<(), Memory>
    ensures { OnOk result (out.new.items ≡ out.old.items ++ fields_text
        (map entry_text (decoded_cell coded.now.dict.now.lists coded.now.cell.now))) }
{
    'dims: for dim in 0..coded.cell.dims() {
        push_entry(out, coded, dim)?;
    }
    Ok(())
}

/// Appends the first fields of a record: a word, the line's number and a cell.
pub fn push_record_start(
    out: &mut Vec<u8>,
    word: &[u8],
    line: u32,
    coded: &CodedCell<'_>,
) -> Result<(), Memory>
    ensures { OnOk result (out.new.items ≡ out.old.items ++ word.now ++ fields_text (decimal line
        ∷ map entry_text (decoded_cell coded.now.dict.now.lists coded.now.cell.now))) }
{
    out.extend_from_slice(word)?;
    push_number(out, u64::from(line))?;
    push_cell(out, coded)
}
