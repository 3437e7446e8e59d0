// The order of codes and cells by their texts.
ghost use Rattle.std.specs.Option.{option_cmp, option_map};
ghost use Rattle.std.specs.Prelude.{◌≡◌};
ghost use Rattle.cell_core.specs.Entry.{value_in};
ghost use Rattle.cube_defs.specs.Cell as defs;
ghost use Rattle.cube_defs.specs.Text.{text_cmp};
ghost use Rattle.cube_laws.specs.Recoding.{coded_cell};
ghost use Rattle.value_dict.specs.Recoded.{text_in};

use crate::Dict;
use cell_core::{Cell, Code, Entry};
use std::cmp::Ordering;

// The text of a code, or no bytes if there is no such code.
pub(crate) fn text_or_none(dict: &Dict, dim: u8, code: Code) -> &str
    ensures { result.now ≡ text_in dict.now.lists dim code }
{
    if dim >= dict.dims() || code >= dict.len(dim) {
        return "";
    }
    dict.text(dim, code)
}

fn entry_cmp(dict: &Dict, dim: u8, a: Entry, b: Entry) -> Ordering
    ensures { result ≡ option_cmp text_cmp (option_map (text_in dict.now.lists dim) (value_in a))
        (option_map (text_in dict.now.lists dim) (value_in b)) }
{
    match (a, b) {
        (Entry::Any, Entry::Any) => Ordering::Equal,
        (Entry::Any, Entry::Is(_)) => Ordering::Less,
        (Entry::Is(_), Entry::Any) => Ordering::Greater,
        (Entry::Is(a), Entry::Is(b)) => dict.rank_cmp(dim, a, b),
    }
}

impl Dict {
    /// The order of two codes by the bytes of their texts. A code that is not there counts as the
    /// text of no bytes.
    pub fn rank_cmp(&self, dim: u8, a: Code, b: Code) -> Ordering
        ensures { result ≡ text_cmp (text_in self.now.lists dim a) (text_in self.now.lists dim b) }
    {
        text_or_none(self, dim, a).cmp(text_or_none(self, dim, b))
    }

    /// The cell order: dimension by dimension, Any before each text.
    pub fn cell_cmp(&self, a: &Cell, b: &Cell) -> Ordering
        ensures { result ≡ defs.cell_cmp text_cmp (coded_cell (text_in self.now.lists) 0 a.now)
            (coded_cell (text_in self.now.lists) 0 b.now) }
    {
        'dims: for dim in 0..a.dims().min(b.dims()) {
            let order = entry_cmp(self, dim, a.get(dim), b.get(dim));
            if order != Ordering::Equal {
                return order;
            }
        }
        a.dims().cmp(&b.dims())
    }
}
