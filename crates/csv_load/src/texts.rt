// Texts that are stored one after another in one buffer.
ghost use Rattle.std.specs.Prelude.{◌≡◌, ◌<◌, ◌+◌, ◌^◌, ◌++◌, [], ◌∷◌, length, OnOk, OnErr, IfOk, slice_index_or, string_bytes};
ghost use Rattle.text_lines.specs.Records.{bytes_in};
ghost use Rattle.csv_load.specs.FieldTexts.{IsCut, text_between, texts_of};

use std::alloc::{AllocError, Global};
use std::marker::Model;

/// A list of texts in one buffer.
#[derive(Drop)]
pub struct FieldTexts {
    bytes: String,
    ends: Vec<u32>,
}

impl Model for FieldTexts {
    ghost use Rattle.std.specs.Prelude.{List, ℕ, string_bytes};
    ghost use Rattle.csv_load.specs.FieldTexts.{IsCut, texts_of};

    ghost Value = { List (List ℕ) };

    ghost view = { λ t. texts_of t.ends.items (string_bytes t.bytes) };

    ghost invariant = { λ t. IsCut t.ends.items (string_bytes t.bytes) };
}

// Appends a text, or leaves the others as they are.
fn push_text(bytes: &mut String, ends: &mut Vec<u32>, text: &str) -> Result<(), AllocError>
    requires cut { IsCut ends.old.items (string_bytes bytes.old) }
    requires room { length (string_bytes bytes.old) + length text.now < 2 ^ 32 }
    ensures cut { IsCut ends.new.items (string_bytes bytes.new) }
    ensures ok { OnOk result (texts_of ends.new.items (string_bytes bytes.new)
        ≡ texts_of ends.old.items (string_bytes bytes.old) ++ text.now ∷ []) }
    ensures err { OnErr result (texts_of ends.new.items (string_bytes bytes.new)
        ≡ texts_of ends.old.items (string_bytes bytes.old)) }
{
    let end = bytes.len() + text.len();
    ends.reserve(1)?;
    bytes.push_str(text)?;
    ends.push(end as u32).unwrap();
    Ok(())
}

// The text at a place.
fn text_in<'a>(bytes: &'a String, ends: &[u32], k: usize) -> &'a str
    requires cut { IsCut ends.now (string_bytes bytes.now) }
    requires within { k < length ends.now }
    ensures { result.now ≡ text_between ends.now (string_bytes bytes.now) k }
{
    let start = if k == 0 { 0 } else { ends[k - 1] };
    &bytes.as_str()[start as usize..ends[k] as usize]
}

impl FieldTexts {
    pub fn new(alloc: Global) -> FieldTexts
        ensures { result ≡ [] }
    {
        FieldTexts {
            bytes: String::new(alloc),
            ends: Vec::new(alloc),
        }
    }

    /// No texts yet, and room for so many bytes.
    pub fn with_room(alloc: Global, size: usize) -> Result<FieldTexts, AllocError>
        ensures { IfOk result (λ texts. texts ≡ []) }
    {
        Ok(FieldTexts {
            bytes: String::with_capacity(alloc, size)?,
            ends: Vec::new(alloc),
        })
    }

    pub fn len(&self) -> usize
        ensures { result ≡ length self.now }
    {
        self.ends.len()
    }

    pub fn push(&mut self, text: &str) -> Result<(), AllocError>
        requires { bytes_in self.old + length text.now < 2 ^ 32 }
        ensures ok { OnOk result (self.new ≡ self.old ++ text.now ∷ []) }
        ensures err { OnErr result (self.new ≡ self.old) }
    {
        push_text(&mut self.bytes, &mut self.ends, text)
    }

    /// The text at a place, counted from 0.
    pub fn get(&self, k: usize) -> &str
        requires { k < length self.now }
        ensures { result.now ≡ slice_index_or self.now k [] }
    {
        text_in(&self.bytes, self.ends.as_slice(), k)
    }
}
