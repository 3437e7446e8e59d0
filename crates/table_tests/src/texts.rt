// Texts that are learnt, found and cut back.

use cell_core::Code;
use std::alloc::Global;
use std::cmp::Ordering;
use value_dict::{Dict, Learn};

#[derive(Clone, Copy)]
enum Step {
    /// A text is learnt in a dimension, which gives this.
    Learnt(u8, &'static str, Result<Code, Learn>),
    /// The code of a text in a dimension.
    Code(u8, &'static str, Option<Code>),
    /// The text of a code, where there is one.
    Text(u8, Code, &'static str),
    /// How many texts a dimension has.
    Len(u8, u32),
    /// How the texts of two codes of the first dimension are ordered.
    Order(Code, Code, Ordering),
    /// Each list is cut to its first texts, so many of each.
    Cut([u32; 2]),
    /// A dimension is added, with this text.
    Added(&'static str),
    /// The last dimension goes.
    Dropped,
    /// How many dimensions there are.
    Dims(u8),
}

use Step::{Added, Code as CodeOf, Cut, Dims, Dropped, Learnt, Len, Order, Text};

fn is_learnt(dict: &mut Dict, dim: u8, text: &str, want: Result<Code, Learn>) -> bool {
    if dim >= dict.dims() {
        return false;
    }
    match (dict.learn(dim, text), want) {
        (Ok(code), Ok(wanted)) => code == wanted,
        (Err(Learn::Full), Err(Learn::Full)) => true,
        _ => false,
    }
}

fn is_code(dict: &Dict, dim: u8, text: &str, want: Option<Code>) -> bool {
    dim < dict.dims() && dict.code(dim, text) == want
}

fn is_text(dict: &Dict, dim: u8, code: Code, want: &str) -> bool {
    dim < dict.dims() && code < dict.len(dim) && dict.text(dim, code) == want
}

fn is_len(dict: &Dict, dim: u8, want: u32) -> bool {
    dim < dict.dims() && dict.len(dim) == want
}

fn is_cut(dict: &mut Dict, lens: &[u32]) -> bool {
    if lens.len() != usize::from(dict.dims()) {
        return false;
    }
    dict.cut_back(lens);
    true
}

fn is_added(dict: &mut Dict, text: &str) -> bool {
    dict.dims() < 16 && dict.add_dim(text).is_ok()
}

fn is_dropped(dict: &mut Dict) -> bool {
    if dict.dims() < 2 {
        return false;
    }
    dict.drop_dim();
    true
}

// Whether a step gives what it says.
fn holds(dict: &mut Dict, step: Step) -> bool {
    match step {
        Learnt(dim, text, want) => is_learnt(dict, dim, text, want),
        CodeOf(dim, text, want) => is_code(dict, dim, text, want),
        Text(dim, code, want) => is_text(dict, dim, code, want),
        Len(dim, want) => is_len(dict, dim, want),
        Order(a, b, want) => dict.rank_cmp(0, a, b) == want,
        Cut(lens) => is_cut(dict, &lens),
        Added(text) => is_added(dict, text),
        Dropped => is_dropped(dict),
        Dims(want) => dict.dims() == want,
    }
}

// Two dimensions of at most two texts each, and for a while a third.
static STEPS: [Step; 34] = [
    Learnt(0, "S2", Ok(0)),
    Learnt(0, "S1", Ok(1)),
    Learnt(0, "S2", Ok(0)),
    Learnt(0, "S3", Err(Learn::Full)),
    Learnt(0, "", Err(Learn::Full)),
    Learnt(1, "", Ok(0)),
    Learnt(1, "S1", Ok(1)),
    Learnt(1, "S2", Err(Learn::Full)),
    Len(0, 2),
    Len(1, 2),
    CodeOf(0, "s2", None),
    CodeOf(1, "S2", None),
    CodeOf(0, "S1", Some(1)),
    Text(0, 1, "S1"),
    Order(0, 1, Ordering::Greater),
    Cut([1, 1]),
    CodeOf(0, "S2", Some(0)),
    CodeOf(0, "S1", None),
    Learnt(0, "S3", Ok(1)),
    Cut([0, 0]),
    CodeOf(0, "S2", None),
    Learnt(0, "S1", Ok(0)),
    Added("2003"),
    Dims(3),
    Len(2, 1),
    CodeOf(2, "2003", Some(0)),
    Text(2, 0, "2003"),
    Learnt(2, "2004", Ok(1)),
    Learnt(2, "2005", Err(Learn::Full)),
    CodeOf(1, "2003", None),
    CodeOf(0, "S1", Some(0)),
    Dropped,
    Dims(2),
    CodeOf(0, "S1", Some(0)),
];

// Whether all steps hold, one after another.
fn all_hold(dict: &mut Dict, steps: &[Step]) -> bool {
    'steps: for step in steps {
        if !holds(dict, *step) {
            return false;
        }
    }
    true
}

/// Whether texts have their codes.
pub(crate) fn are_right(alloc: Global) -> bool {
    let Ok(mut dict) = Dict::new(alloc, 2, 2) else {
        return false;
    };
    let are_right = all_hold(&mut dict, &STEPS);
    drop(dict);
    are_right
}
