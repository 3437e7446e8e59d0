// Cells and boxes that fields ask for, in the order of texts.
use cell_core::{Cell, Code, Entry, Field, Fields, Text, Texts};
use std::alloc::{AllocError, Global};
use std::cmp::Ordering;
use value_dict::{CellBox, Dict};

#[derive(Clone, Copy)]
pub(crate) enum Asked {
    Any,
    All,
    One(&'static str),
    /// Those of [`LISTED`].
    Among,
    Between(&'static str, &'static str),
}

use Asked::{All, Among, Any, Between, One};

static LISTED: [&str; 4] = ["b", "c", "", "b"];

// Appends a text to a short list.
pub(crate) fn push_text(alloc: Global, texts: &mut Texts, word: &str) -> bool {
    if texts.len() > 9 {
        return false;
    }
    match Text::new(alloc, word) {
        Ok(text) => texts.push(text).is_ok(),
        Err(_) => false,
    }
}

fn push_listed(alloc: Global, texts: &mut Texts) -> bool {
    'words: for word in &LISTED {
        if !push_text(alloc, texts, *word) {
            return false;
        }
    }
    true
}

fn among(alloc: Global) -> Option<Field> {
    let mut texts = Texts::new(alloc);
    if push_listed(alloc, &mut texts) {
        Some(Field::Among(texts))
    } else {
        drop(texts);
        None
    }
}

fn one(alloc: Global, word: &str) -> Option<Field> {
    match Text::new(alloc, word) {
        Ok(text) => Some(Field::One(text)),
        Err(_) => None,
    }
}

fn between(alloc: Global, low: &str, high: &str) -> Option<Field> {
    let Ok(low) = Text::new(alloc, low) else {
        return None;
    };
    let Ok(high) = Text::new(alloc, high) else {
        drop(low);
        return None;
    };
    Some(Field::Between(low, high))
}

fn field(alloc: Global, asked: Asked) -> Option<Field> {
    match asked {
        Any => Some(Field::Any),
        All => Some(Field::All),
        One(word) => one(alloc, word),
        Among => among(alloc),
        Between(low, high) => between(alloc, low, high),
    }
}

fn push_field(fields: &mut Fields, field: Field) -> bool {
    if fields.len() > 9 {
        drop(field);
        return false;
    }
    fields.push(field).is_ok()
}

/// Appends what is asked to a short list.
pub(crate) fn push(alloc: Global, fields: &mut Fields, asked: Asked) -> bool {
    match field(alloc, asked) {
        Some(field) => push_field(fields, field),
        None => false,
    }
}

fn fields(alloc: Global, first: Asked, second: Asked) -> Option<Fields> {
    let mut fields = Fields::new(alloc);
    if push(alloc, &mut fields, first) && push(alloc, &mut fields, second) {
        return Some(fields);
    }
    drop(fields);
    None
}

fn learn(dict: &mut Dict, dim: u8, word: &str) {
    if dim < dict.dims() {
        dict.learn(dim, word).ok();
    }
}

static WORDS: [&str; 4] = ["b", "a", "ab", ""];

// Two dimensions of these words, in this order.
fn letters(alloc: Global) -> Result<Dict, AllocError> {
    let mut dict = Dict::new(alloc, 2, 4)?;
    'words: for word in &WORDS {
        learn(&mut dict, 0, *word);
        learn(&mut dict, 1, *word);
    }
    Ok(dict)
}

// The cell that the fields ask for, where they ask for one.
fn cell_of(dict: &Dict, fields: &Fields) -> Option<Cell> {
    if fields.len() != u32::from(dict.dims()) {
        return None;
    }
    dict.cell_of(fields)
}

// Two fields, and the entries of the cell that they ask for, where they ask for one.
type Asking = (Asked, Asked, Option<(Entry, Entry)>);

static CELLS: [Asking; 4] = [
    (One("a"), Any, Some((Entry::Is(1), Entry::Any))),
    (One("ab"), One(""), Some((Entry::Is(2), Entry::Is(3)))),
    (One("a"), One("c"), None),
    (All, Any, None),
];

pub(crate) fn has_entries(cell: &Cell, first: Entry, second: Entry) -> bool {
    cell.dims() == 2 && cell.get(0) == first && cell.get(1) == second
}

// Whether the fields ask for a cell of these entries, or for none.
fn gives(dict: &Dict, fields: &Fields, want: Option<(Entry, Entry)>) -> bool {
    match (cell_of(dict, fields), want) {
        (Some(cell), Some((first, second))) => has_entries(&cell, first, second),
        (None, None) => true,
        _ => false,
    }
}

fn is_cell(alloc: Global, dict: &Dict, case: &Asking) -> bool {
    let (first, second, want) = *case;
    let Some(fields) = fields(alloc, first, second) else {
        return false;
    };
    let is_cell = gives(dict, &fields, want);
    drop(fields);
    is_cell
}

fn are_cells(alloc: Global, dict: &Dict) -> bool {
    'cases: for case in &CELLS {
        if !is_cell(alloc, dict, case) {
            return false;
        }
    }
    true
}

static BOXES: [(Asked, &[Code]); 7] = [
    (All, &[3, 1, 2, 0]),
    (Among, &[3, 0]),
    (Between("a", "az"), &[1, 2]),
    (Between("ab", "b"), &[2, 0]),
    (Between("b", "ab"), &[]),
    (One("ab"), &[2]),
    (One("z"), &[]),
];

fn is_first(cells: &CellBox, want: &[Code]) -> bool {
    cells.dims() > 0 && cells.codes(0).unwrap_or(&[]) == want
}

// Whether the first of these fields asks for these codes.
fn has_codes(alloc: Global, dict: &Dict, fields: &Fields, want: &[Code]) -> bool {
    if fields.len() != u32::from(dict.dims()) {
        return false;
    }
    let Ok(cells) = dict.box_of(alloc, fields) else {
        return false;
    };
    let is_first = is_first(&cells, want);
    drop(cells);
    is_first
}

// Whether a field asks for these codes.
fn is_box(alloc: Global, dict: &Dict, asked: Asked, want: &[Code]) -> bool {
    let Some(fields) = fields(alloc, asked, Any) else {
        return false;
    };
    let has_codes = has_codes(alloc, dict, &fields, want);
    drop(fields);
    has_codes
}

fn are_boxes(alloc: Global, dict: &Dict) -> bool {
    'cases: for (asked, want) in &BOXES {
        if !is_box(alloc, dict, *asked, *want) {
            return false;
        }
    }
    true
}

// Two fields of the first dimension, and how their cells are ordered.
type Ordered = (Asked, Asked, Ordering);

static ORDERS: [Ordered; 3] = [
    (Any, One(""), Ordering::Less),
    (One(""), One("b"), Ordering::Less),
    (One("b"), One("b"), Ordering::Equal),
];

// The cell that a field and Any ask for, where they ask for one.
fn cell(alloc: Global, dict: &Dict, asked: Asked) -> Option<Cell> {
    let fields = fields(alloc, asked, Any)?;
    let cell = cell_of(dict, &fields);
    drop(fields);
    cell
}

fn is_order(alloc: Global, dict: &Dict, case: &Ordered) -> bool {
    let (one, other, want) = *case;
    match (cell(alloc, dict, one), cell(alloc, dict, other)) {
        (Some(one), Some(other)) => dict.cell_cmp(&one, &other) == want,
        _ => false,
    }
}

fn are_ordered(alloc: Global, dict: &Dict) -> bool {
    'cases: for case in &ORDERS {
        if !is_order(alloc, dict, case) {
            return false;
        }
    }
    true
}

/// Whether fields ask for the cells and the boxes that they should, and cells are ordered by their
/// texts.
pub(crate) fn are_right(alloc: Global) -> bool {
    let Ok(dict) = letters(alloc) else {
        return false;
    };
    let are_right = are_cells(alloc, &dict) && are_boxes(alloc, &dict) && are_ordered(alloc, &dict);
    drop(dict);
    are_right
}
