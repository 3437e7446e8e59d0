//! Texts and codes: for each dimension a list of distinct texts, in which a text's code is its
//! place.
#![tactic(auto)]

ghost use Rattle.cell_core.specs.Entry.{IsCode, IsSmall, value_in};
ghost use Rattle.std.specs.Option.{option_map};
ghost use Rattle.std.specs.Prelude.{Err, IfOk, IfSome, None, OnErr, OnOk, Some, length, slice_get, ◌<◌, ◌≡◌, ◌≤◌, ◌↔◌};
ghost use Rattle.value_dict.specs.TextLists.{IsDictionary, cell_in, code_in, cut, entry_in, learnt, list_at, no_texts, with_dim, without_last_dim};

mod box_of_fields;
mod boxes;
mod in_order;
mod law;
mod order;
mod sets;
mod text_keys;

pub use boxes::CellBox;
use cell_core::{Cell, Code, Entry, Field, Fields, HashKeys};
pub use cube_defs::Memory;
use cube_defs::{MAX_CODES, MAX_DIMS};
use indexmap::IndexSet;
pub use law::an_added_dimension_is_dropped;
use sets::TextSet;
use std::alloc::{AllocError, Global};
use std::marker::Model;
use text_keys::TextKeys;

/// Why a text was not learnt.
#[derive(Clone, Copy)]
pub enum Learn {
    /// The text is unknown, and the dimension has as many texts as it may have.
    Full,
    /// Memory ran out.
    Memory,
}

/// For each of 1 to 16 dimensions a list of distinct texts, at most `max` each. A text's code is
/// its place, counted from 0. Texts are found by their hash under the dictionary's keys.
#[derive(Drop)]
pub struct Dict {
    lists: Vec<TextSet>,
    max: u32,
    keys: HashKeys,
}

impl Model for Dict {
    ghost use Rattle.std.specs.Prelude.{map};
    ghost use Rattle.value_dict.specs.TextLists.{IsDictionary, TextLists, texts_of};

    ghost Value = { TextLists };

    ghost view = { λ d. record { lists = map texts_of d.lists.items; max = d.max } };

    ghost invariant = { λ d. IsDictionary
        (record { lists = map texts_of d.lists.items; max = d.max }) };
}

impl Dict {
    /// No texts in any dimension, under fixed keys: texts that are chosen to collide make it slow.
    pub fn new(alloc: Global, dims: u8, max: u32) -> Result<Dict, Memory>
        requires some_dims { 0 < dims }
        requires few_dims { dims ≤ MAX_DIMS }
        requires some_texts { 0 < max }
        requires few_texts { max ≤ MAX_CODES }
        ensures value { IfOk result (λ dict. dict ≡ no_texts dims max) }
        ensures dictionary { IfOk result (λ dict. IsDictionary dict) }
    {
        Dict::with_keys(alloc, HashKeys::fixed(), dims, max)
    }

    /// No texts in any dimension, under these keys.
    pub fn with_keys(alloc: Global, keys: HashKeys, dims: u8, max: u32) -> Result<Dict, Memory>
        requires some_dims { 0 < dims }
        requires few_dims { dims ≤ MAX_DIMS }
        requires some_texts { 0 < max }
        requires few_texts { max ≤ MAX_CODES }
        ensures value { IfOk result (λ dict. dict ≡ no_texts dims max) }
        ensures dictionary { IfOk result (λ dict. IsDictionary dict) }
    {
        let mut lists = Vec::with_capacity(alloc, dims as usize)?;
        for _ in 0..dims {
            lists.push_reserved(IndexSet::with_hasher(alloc, TextKeys::of(keys)));
        }
        Ok(Dict { lists, max, keys })
    }

    /// The number of dimensions.
    pub fn dims(&self) -> u8
        ensures value { result ≡ length self.now.lists }
        ensures dictionary { IsDictionary self.now }
    {
        self.lists.len() as u8
    }

    /// The number of texts of the dimension.
    pub fn len(&self, dim: u8) -> u32
        requires { dim < length self.now.lists }
        ensures value { result ≡ length (list_at self.now dim) }
        ensures dictionary { IsDictionary self.now }
    {
        self.lists[dim as usize].len() as u32
    }

    /// The code of a text, if it is known.
    pub fn code(&self, dim: u8, text: &str) -> Option<Code>
        requires { dim < length self.now.lists }
        ensures value { result ≡ code_in (list_at self.now dim) text.now }
        ensures within { IfSome result (λ code. code < length (list_at self.now dim)) }
        ensures small { IfSome result IsCode }
    {
        let place = sets::place_of(&self.lists[dim as usize], text)?;
        Some(place as u32)
    }

    /// The text of a code.
    pub fn text(&self, dim: u8, code: Code) -> &str
        requires dim { dim < length self.now.lists }
        requires code { code < length (list_at self.now dim) }
        ensures value { slice_get (list_at self.now dim) code ≡ Some result.now }
        ensures code { code_in (list_at self.now dim) result.now ≡ Some code }
    {
        let texts = self.lists[dim as usize].as_slice();
        texts[code as usize].as_str()
    }

    /// The code of a text. An unknown text is added as the last.
    pub fn learn(&mut self, dim: u8, text: &str) -> Result<Code, Learn>
        requires { dim < length self.old.lists }
        ensures code { IfOk result (λ code. code_in (list_at self.new dim) text.now ≡ Some code) }
        ensures within { IfOk result (λ code. code < length (list_at self.new dim)) }
        ensures small { IfOk result IsCode }
        ensures ok { OnOk result (self.new ≡ learnt self.old dim text.now) }
        ensures err { OnErr result (self.new ≡ self.old) }
        ensures full { (result ≡ Err Learn.Full)
            ↔ ((code_in (list_at self.old dim) text.now ≡ None)
            × (length (list_at self.old dim) ≡ self.old.max)) }
        ensures dims { length self.new.lists ≡ length self.old.lists }
        ensures dictionary { IsDictionary self.new }
    {
        let max = self.max;
        sets::learn(&mut self.lists[dim as usize], max, text)
    }

    /// Cuts each list to its first so many texts. Takes no memory.
    pub fn cut_back(&mut self, lens: &[u32])
        requires { length lens.now ≡ length self.old.lists }
        ensures lists { self.new.lists ≡ cut self.old.lists lens.now }
        ensures max { self.new.max ≡ self.old.max }
        ensures dims { length self.new.lists ≡ length self.old.lists }
        ensures dictionary { IsDictionary self.new }
    {
        sets::cut_back(&mut self.lists, lens);
    }

    /// Adds a last dimension, whose list is this text.
    pub fn add_dim(&mut self, text: &str) -> Result<(), Memory>
        requires few { length self.old.lists < MAX_DIMS }
        ensures ok { OnOk result (self.new ≡ with_dim self.old text.now) }
        ensures err { OnErr result (self.new ≡ self.old) }
        ensures dictionary { IsDictionary self.new }
    {
        let list = sets::only(*self.lists.allocator(), self.keys, text)?;
        self.lists.push(list)?;
        Ok(())
    }

    /// Drops the last dimension, with its texts. Takes no memory.
    pub fn drop_dim(&mut self)
        requires some { 1 < length self.old.lists }
        ensures value { self.new ≡ without_last_dim self.old }
        ensures dictionary { IsDictionary self.new }
    {
        self.lists.pop();
    }

    // The entry that a field asks for, if it asks for Any or for one known text.
    fn entry_of(&self, dim: u8, field: &Field) -> Option<Entry>
        requires { dim < length self.now.lists }
        ensures value { option_map value_in result ≡ entry_in (list_at self.now dim) field.now }
        ensures small { IfSome result (λ entry. IsSmall entry) }
    {
        match field {
            Field::Any => Some(Entry::Any),
            Field::One(text) => {
                let code = self.code(dim, text.as_str())?;
                Some(Entry::Is(code))
            }
            _ => None,
        }
    }

    /// The cell of the fields, each of which is Any or one text. None if a text is unknown, or a
    /// field allows more than one value.
    pub fn cell_of(&self, fields: &Fields) -> Option<Cell>
        requires { length fields.now ≡ length self.now.lists }
        ensures { result ≡ cell_in self.now.lists fields.now }
    {
        let dims = self.lists.len() as u8;
        let mut cell = Cell::any(*self.lists.allocator(), dims);
        for dim in 0..dims {
            let entry = self.entry_of(dim, fields.get(dim as u32))?;
            cell.set(dim, entry);
        }
        Some(cell)
    }
}
