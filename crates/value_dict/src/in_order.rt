// Codes in the order of their texts. Each is sorted with the first bytes of its text, so that few
// comparisons read a text.
ghost use Rattle.std.specs.Prelude.{All, IfOk, length, map, slice_index_or, vec_capacity, ◌∷◌, ◌≡◌, ◌≤◌};
ghost use Rattle.cube_defs.specs.Text.{text_cmp};
ghost use Rattle.cube_defs.specs.Tree.{distinct};
ghost use Rattle.value_dict.specs.Recoded.{HaveTexts, text_in};
ghost use Rattle.value_dict.specs.Starts.{HasStart, IsBytes, start_in};

use crate::order::text_or_none;
use crate::{Dict, Memory};
use cell_core::Code;
use std::alloc::Global;
use std::cmp::Ordering;

// A code, and the first eight bytes of its text as a number.
#[derive(Clone, Copy)]
struct Keyed {
    start: u64,
    code: Code,
}

// The byte at a place. Zeros follow a text.
fn byte_at(text: &[u8], k: usize) -> u8
    ensures { result ≡ slice_index_or text.now k 0 }
{
    if k < text.len() { text[k] } else { 0 }
}

// The first eight bytes of a text as a number, the first byte first.
fn start_of(text: &[u8]) -> u64
    ensures start { result ≡ start_in text.now }
    ensures bytes { IsBytes text.now }
{
    u64::from_be_bytes([
        byte_at(text, 0),
        byte_at(text, 1),
        byte_at(text, 2),
        byte_at(text, 3),
        byte_at(text, 4),
        byte_at(text, 5),
        byte_at(text, 6),
        byte_at(text, 7),
    ])
}

// The order of the starts, and of the texts if the starts are equal.
fn keyed_cmp(dict: &Dict, dim: u8, a: &Keyed, b: &Keyed) -> Ordering
    ensures { result ≡ text_cmp (a.now.start ∷ text_in dict.now.lists dim a.now.code)
        (b.now.start ∷ text_in dict.now.lists dim b.now.code) }
{
    if a.start != b.start {
        return a.start.cmp(&b.start);
    }
    dict.rank_cmp(dim, a.code, b.code)
}

// Each code with the start of its text.
fn keyed_codes(dict: &Dict, alloc: Global, dim: u8, codes: &[Code]) -> Result<Vec<Keyed>, Memory>
    ensures codes { IfOk result (λ keyed. map (λ k. k.code) keyed.items ≡ codes.now) }
    ensures starts { IfOk result (λ keyed. All
        (λ k. HasStart (text_in dict.now.lists dim k.code) k.start) keyed.items) }
{
    let mut keyed = Vec::with_capacity(alloc, codes.len())?;
    'codes: for k in 0..codes.len() {
        let code = codes[k];
        let start = start_of(text_or_none(dict, dim, code).as_bytes());
        keyed.push_reserved(Keyed { start, code });
    }
    Ok(keyed)
}

// Sorts the codes by their texts, and keeps each text once.
fn sorted(dict: &Dict, dim: u8, mut keyed: Vec<Keyed>) -> Vec<Keyed>
    requires { All (λ k. HasStart (text_in dict.now.lists dim k.code) k.start) keyed.items }
    ensures value { map (λ k. text_in dict.now.lists dim k.code) result.items ≡ distinct text_cmp
        (map (λ k. text_in dict.now.lists dim k.code) keyed.items) }
    ensures few { length result.items ≤ length keyed.items }
    ensures within { HaveTexts dict.now.lists dim (map (λ k. k.code) keyed.items)
        → HaveTexts dict.now.lists dim (map (λ k. k.code) result.items) }
{
    keyed.sort_unstable_by(|a, b| keyed_cmp(dict, dim, a, b));
    keyed.dedup_by(|a, b| keyed_cmp(dict, dim, a, b) == Ordering::Equal);
    keyed
}

// Replaces the codes of a list, which has room for the new ones.
fn replaced(mut codes: Vec<Code>, keyed: &[Keyed]) -> Vec<Code>
    requires { length keyed.now ≤ vec_capacity codes }
    ensures { result.items ≡ map (λ k. k.code) keyed.now }
{
    codes.clear();
    'codes: for k in 0..keyed.len() {
        codes.push_reserved(keyed[k].code);
    }
    codes
}

// The codes in the order of their texts, each once.
pub(crate) fn in_order(
    dict: &Dict,
    alloc: Global,
    dim: u8,
    codes: Vec<Code>,
) -> Result<Vec<Code>, Memory>
    ensures value { IfOk result (λ sorted. map (text_in dict.now.lists dim) sorted.items
        ≡ distinct text_cmp (map (text_in dict.now.lists dim) codes.items)) }
    ensures within { HaveTexts dict.now.lists dim codes.items
        → IfOk result (λ sorted. HaveTexts dict.now.lists dim sorted.items) }
{
    let keyed = keyed_codes(dict, alloc, dim, &codes)?;
    Ok(replaced(codes, &sorted(dict, dim, keyed)))
}
