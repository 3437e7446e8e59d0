// The fields of a query.
ghost use Rattle.std.specs.Prelude.{◌≡◌, ◌<◌, ◌==◌, ◌++◌, ◌∷◌, [], Some, OnOk, OnErr, length, slice_get};

use crate::{Memory, Text, Texts};
use std::alloc::Global;
use std::marker::Model;

/// What a query asks of one dimension.
#[derive(Drop)]
pub enum Field {
    /// Any alone.
    Any,
    /// Each value of the dimension, and not Any.
    All,
    /// One value.
    One(Text),
    /// A set of values.
    Among(Texts),
    /// The values from the first to the second, by their bytes, both included.
    Between(Text, Text),
}

/// A list of fields.
#[derive(Drop)]
pub struct Fields {
    fields: Vec<Field>,
}

impl Model for Fields {
    ghost use Rattle.std.specs.Prelude.{List, ◌^◌, ◌<◌, length};
    ghost use Rattle.cell_core.specs.declared.fields.Field.{Field};

    ghost Value = { List Field };

    ghost view = { λ f. f.fields.items };

    ghost invariant = { λ f. length f.fields.items < 2 ^ 32 };
}

impl Fields {
    /// The empty list. Takes no memory.
    pub fn new(alloc: Global) -> Fields
        ensures { result ≡ [] }
    {
        Fields {
            fields: Vec::new(alloc),
        }
    }

    /// Appends a field. A refusal drops it.
    pub fn push(&mut self, field: Field) -> Result<(), Memory>
        requires { length self.old < 4294967295 }
        ensures ok { OnOk result (self.new ≡ self.old ++ field ∷ []) }
        ensures err { OnErr result (self.new ≡ self.old) }
    {
        self.fields.push(field)?;
        Ok(())
    }

    /// The field at a place, counted from 0.
    pub fn get(&self, k: u32) -> &Field
        requires { k < length self.now }
        ensures { slice_get self.now k ≡ Some result.now }
    {
        &self.fields[k as usize]
    }

    /// The number of fields.
    pub fn len(&self) -> u32
        ensures { result ≡ length self.now }
    {
        self.fields.len() as u32
    }

    pub fn is_empty(&self) -> bool
        ensures { result ≡ (length self.now == 0) }
    {
        self.fields.is_empty()
    }
}
