// The boxes that fields ask for.
ghost use Rattle.std.specs.Option.{option_map};
ghost use Rattle.std.specs.Prelude.{IfOk, OnOk, [], filter, length, map, ◌++◌, ◌<◌, ◌∷◌, ◌≡◌};
ghost use Rattle.cube_defs.specs.Text.{text_cmp};
ghost use Rattle.cube_defs.specs.Tree.{distinct};
ghost use Rattle.cube_laws.specs.Recoding.{BoxIsKnown, known_box};
ghost use Rattle.value_dict.specs.Boxes.{AreFieldCodes, IsOrdered, fields_box, is_between, decoded_box};
ghost use Rattle.value_dict.specs.Recoded.{HaveTexts, has_code, text_in};
ghost use Rattle.value_dict.specs.TextLists.{list_at};
ghost use Rattle.value_dict.specs.Decoded.{has_text};

use crate::in_order::in_order;
use crate::{CellBox, Dict, Memory};
use cell_core::{Code, Field, Fields, Text, Texts};
use std::alloc::Global;
use std::cmp::Ordering;

fn is_within(text: &str, low: &str, high: &str) -> bool
    ensures { result ≡ is_between low.now high.now text.now }
{
    low.cmp(text) != Ordering::Greater && text.cmp(high) != Ordering::Greater
}

// The codes of a dimension, in the order in which its texts were learnt.
fn all_codes(dict: &Dict, alloc: Global, dim: u8) -> Result<Vec<Code>, Memory>
    requires { dim < length dict.now.lists }
    ensures value { IfOk result (λ codes. map (text_in dict.now.lists dim) codes.items
        ≡ list_at dict.now dim) }
    ensures within { IfOk result (λ codes. HaveTexts dict.now.lists dim codes.items) }
{
    let len = dict.len(dim);
    let mut codes = Vec::with_capacity(alloc, len as usize)?;
    'codes: for code in 0..len {
        codes.push_reserved(code);
    }
    Ok(codes)
}

// The codes of the texts between two texts, in the order in which they were learnt.
fn codes_between(
    dict: &Dict,
    alloc: Global,
    dim: u8,
    low: &str,
    high: &str,
) -> Result<Vec<Code>, Memory>
    requires { dim < length dict.now.lists }
    ensures value { IfOk result (λ codes. map (text_in dict.now.lists dim) codes.items
        ≡ filter (is_between low.now high.now) (list_at dict.now dim)) }
    ensures within { IfOk result (λ codes. HaveTexts dict.now.lists dim codes.items) }
{
    let mut codes = Vec::new(alloc);
    'codes: for code in 0..dict.len(dim) {
        if is_within(dict.text(dim, code), low, high) {
            codes.push(code)?;
        }
    }
    Ok(codes)
}

// Appends the code of a text, if the text is known.
fn push_code(dict: &Dict, dim: u8, text: &str, codes: &mut Vec<Code>) -> Result<(), Memory>
    requires { dim < length dict.now.lists }
    ensures value { OnOk result (map (text_in dict.now.lists dim) codes.new.items
        ≡ map (text_in dict.now.lists dim) codes.old.items ++ filter (has_text dict.now.lists dim)
        (text.now ∷ [])) }
    ensures within { HaveTexts dict.now.lists dim codes.old.items
        → OnOk result (HaveTexts dict.now.lists dim codes.new.items) }
{
    match dict.code(dim, text) {
        Some(code) => {
            codes.push(code)?;
            Ok(())
        }
        None => Ok(()),
    }
}

// The code of a text, if it is known.
fn known_code(dict: &Dict, alloc: Global, dim: u8, text: &Text) -> Result<Vec<Code>, Memory>
    requires { dim < length dict.now.lists }
    ensures value { IfOk result (λ codes. map (text_in dict.now.lists dim) codes.items
        ≡ filter (has_text dict.now.lists dim) (text.now ∷ [])) }
    ensures within { IfOk result (λ codes. HaveTexts dict.now.lists dim codes.items) }
{
    let mut codes = Vec::new(alloc);
    push_code(dict, dim, text.as_str(), &mut codes)?;
    Ok(codes)
}

// The codes of the known ones among the texts, in the order of the texts.
fn known_codes(dict: &Dict, alloc: Global, dim: u8, texts: &Texts) -> Result<Vec<Code>, Memory>
    requires { dim < length dict.now.lists }
    ensures value { IfOk result (λ codes. map (text_in dict.now.lists dim) codes.items
        ≡ filter (has_text dict.now.lists dim) texts.now) }
    ensures within { IfOk result (λ codes. HaveTexts dict.now.lists dim codes.items) }
{
    let mut codes = Vec::new(alloc);
    'texts: for k in 0..texts.len() {
        push_code(dict, dim, texts.get(k).as_str(), &mut codes)?;
    }
    Ok(codes)
}

impl Dict {
    /// The codes of the texts from `lo` to `hi`, both included, in the order of the texts'
    /// bytes.
    pub fn between(&self, alloc: Global, dim: u8, lo: &str, hi: &str) -> Result<Vec<Code>, Memory>
        requires { dim < length self.now.lists }
        ensures value { IfOk result (λ codes. map (text_in self.now.lists dim) codes.items
            ≡ distinct text_cmp (filter (is_between lo.now hi.now) (list_at self.now dim))) }
        ensures within { IfOk result (λ codes. HaveTexts self.now.lists dim codes.items) }
    {
        let codes = codes_between(self, alloc, dim, lo, hi)?;
        in_order(self, alloc, dim, codes)
    }

    // What a field asks for in a dimension.
    fn choice_of(&self, alloc: Global, dim: u8, field: &Field) -> Result<Option<Vec<Code>>, Memory>
        requires { dim < length self.now.lists }
        ensures { IfOk result (λ choice. AreFieldCodes self.now.lists dim field.now
            (option_map (λ codes. codes.items) choice)) }
    {
        match field {
            Field::Any => Ok(None),
            Field::All => {
                let codes = all_codes(self, alloc, dim)?;
                let sorted = in_order(self, alloc, dim, codes)?;
                Ok(Some(sorted))
            }
            Field::One(text) => Ok(Some(known_code(self, alloc, dim, text)?)),
            Field::Among(texts) => {
                let codes = known_codes(self, alloc, dim, texts)?;
                let sorted = in_order(self, alloc, dim, codes)?;
                Ok(Some(sorted))
            }
            Field::Between(low, high) => {
                let codes = self.between(alloc, dim, low.as_str(), high.as_str())?;
                Ok(Some(codes))
            }
        }
    }

    /// The box that the fields ask for. Unknown texts are left out: they cover nothing.
    pub fn box_of(&self, alloc: Global, fields: &Fields) -> Result<CellBox, Memory>
        requires { length fields.now ≡ length self.now.lists }
        ensures value { IfOk result (λ cells. decoded_box self.now.lists cells
            ≡ known_box (has_text self.now.lists) 0 (fields_box self.now.lists 0 fields.now)) }
        ensures known { IfOk result (λ cells. BoxIsKnown (has_code self.now.lists) 0 cells) }
        ensures order { IfOk result
            (λ cells. IsOrdered text_cmp (decoded_box self.now.lists cells)) }
        ensures dims { IfOk result (λ cells. length cells ≡ length self.now.lists) }
    {
        let mut cells = CellBox::new(alloc);
        'dims: for dim in 0..self.dims() {
            let choice = self.choice_of(alloc, dim, fields.get(dim as u32))?;
            cells.push(choice)?;
        }
        Ok(cells)
    }
}
