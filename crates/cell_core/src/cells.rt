// Lists of cells.
ghost use Rattle.std.specs.Prelude.{OnErr, OnOk, Some, [], length, slice_get, ◌++◌, ◌<◌, ◌==◌, ◌≡◌, ◌∷◌};

use crate::{Cell, Memory};
use std::alloc::Global;
use std::marker::Model;

/// A list of cells.
#[derive(Drop)]
pub struct Cells {
    cells: Vec<Cell>,
}

impl Model for Cells {
    ghost use Rattle.std.specs.Prelude.{List, Option, length, ℕ, ◌<◌, ◌^◌};

    ghost Value = { List (List (Option ℕ)) };

    ghost view = { λ c. c.cells.items };

    ghost invariant = { λ c. length c.cells.items < 2 ^ 32 };
}

impl Cells {
    /// The empty list. Takes no memory.
    pub fn new(alloc: Global) -> Cells
        ensures { result ≡ [] }
    {
        Cells {
            cells: Vec::new(alloc),
        }
    }

    /// Appends a cell. A refusal drops it.
    pub fn push(&mut self, cell: Cell) -> Result<(), Memory>
        requires { length self.old < 4294967295 }
        ensures ok { OnOk result (self.new ≡ self.old ++ cell ∷ []) }
        ensures err { OnErr result (self.new ≡ self.old) }
    {
        self.cells.push(cell)?;
        Ok(())
    }

    /// The cell at a place, counted from 0.
    pub fn get(&self, k: u32) -> &Cell
        requires { k < length self.now }
        ensures { slice_get self.now k ≡ Some result.now }
    {
        &self.cells[k as usize]
    }

    /// The number of cells.
    pub fn len(&self) -> u32
        ensures { result ≡ length self.now }
    {
        self.cells.len() as u32
    }

    pub fn is_empty(&self) -> bool
        ensures { result ≡ (length self.now == 0) }
    {
        self.cells.is_empty()
    }
}
