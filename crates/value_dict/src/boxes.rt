// Boxes: the entries that are allowed in each dimension.
ghost use Rattle.std.specs.Prelude.{All, IfNone, IfSome, None, OnErr, OnOk, Some, [], length, slice_index_or, ◌++◌, ◌<◌, ◌≡◌, ◌≤◌, ◌∷◌};
ghost use Rattle.cell_core.specs.Entry.{IsCode};

use crate::Memory;
use cell_core::Code;
use cube_defs::MAX_DIMS;
use std::alloc::Global;
use std::marker::Model;

/// Allows in each of at most 16 dimensions Any alone, or a list of codes. Its cells have in each
/// dimension an entry that the box allows there.
#[derive(Drop)]
pub struct CellBox {
    choices: Vec<Option<Vec<Code>>>,
}

impl Model for CellBox {
    ghost use Rattle.std.specs.Prelude.{List, Option, ℕ};
    ghost use Rattle.value_dict.specs.Boxes.{IsCellBox, choices_of};

    ghost Value = { List (Option (List ℕ)) };

    ghost view = { λ b. choices_of b.choices.items };

    ghost invariant = { λ b. IsCellBox (choices_of b.choices.items) };
}

impl CellBox {
    /// The box of no dimensions. Takes no memory.
    pub fn new(alloc: Global) -> CellBox
        ensures { result ≡ [] }
    {
        CellBox {
            choices: Vec::new(alloc),
        }
    }

    /// Adds a dimension in which Any alone is allowed, or these codes. A refusal drops them.
    pub fn push(&mut self, choice: Option<Vec<Code>>) -> Result<(), Memory>
        requires few { length self.old < MAX_DIMS }
        requires small { IfSome choice (λ codes. All IsCode codes.items) }
        ensures any { choice ≡ None → OnOk result (self.new ≡ self.old ++ None ∷ []) }
        ensures among { IfSome choice
            (λ codes. OnOk result (self.new ≡ self.old ++ Some codes.items ∷ [])) }
        ensures err { OnErr result (self.new ≡ self.old) }
    {
        self.choices.push(choice)?;
        Ok(())
    }

    /// The number of dimensions.
    pub fn dims(&self) -> u8
        ensures value { result ≡ length self.now }
        ensures few { length self.now ≤ MAX_DIMS }
    {
        self.choices.len() as u8
    }

    /// The codes that are allowed in a dimension, counted from 0. None for Any alone.
    pub fn codes(&self, dim: u8) -> Option<&[Code]>
        requires { dim < length self.now }
        ensures any { IfNone result (slice_index_or self.now dim None ≡ None) }
        ensures among { IfSome result (λ codes. slice_index_or self.now dim None ≡ Some codes.now) }
        ensures small { IfSome result (λ codes. All IsCode codes.now) }
    {
        match &self.choices[dim as usize] {
            Some(codes) => Some(codes),
            None => None,
        }
    }
}
