// Cells: a value, by its code, or Any for each dimension.
ghost use Rattle.std.specs.Prelude.{IfSome, IsTrue, None, length, nat_eq, replicate, slice_index_or, slice_set, ◌<◌, ◌≡◌, ◌≤◌};
ghost use Rattle.cell_core.specs.Codes.{entry_of, is_kept};
ghost use Rattle.cell_core.specs.Entry.{IsSmall, value_in};
ghost use Rattle.cube_defs.specs.Cell as defs;

use crate::codes;
use cube_defs::MAX_DIMS;
use std::alloc::Global;
use std::marker::Model;

/// The number of a value in its dimension, counted from 0. Every code is less than 4,000,000.
pub type Code = u32;

/// The stored code of Any.
pub const ANY: u32 = u32::MAX;

/// The number of a node.
#[derive(Clone, Copy, PartialEq, Eq, Hash)]
pub struct NodeNo(pub u32);

/// The entry of a cell in a dimension.
#[derive(Clone, Copy, PartialEq, Eq)]
pub enum Entry {
    /// No value.
    Any,
    /// The value with this code.
    Is(Code),
}

impl Entry {
    /// The entry of a stored code: its value, or Any for [`ANY`].
    pub fn of(code: u32) -> Entry
        requires { IsTrue (is_kept code) }
        ensures value { value_in result ≡ entry_of code }
        ensures small { IsSmall result }
    {
        if code == ANY {
            Entry::Any
        } else {
            Entry::Is(code)
        }
    }
}

/// A value or Any for each of at most 16 dimensions. The entries are stored in the cell itself, so
/// no call on a cell takes memory.
#[derive(Drop)]
pub struct Cell {
    codes: [u32; MAX_DIMS as usize],
    dims: u8,
}

impl Model for Cell {
    ghost use Rattle.std.specs.Prelude.{All, IsTrue, List, Option, take, ℕ, ◌≤◌};
    ghost use Rattle.cell_core.specs.Codes.{entries_of, is_kept};
    ghost use Rattle.cube_defs.specs.declared.limits.TheConstants.{MAX_DIMS};

    ghost Value = { List (Option ℕ) };

    ghost view = { λ c. entries_of (take c.dims c.codes) };

    ghost invariant = { λ c. (c.dims ≤ MAX_DIMS) × All (λ code. IsTrue (is_kept code)) c.codes };
}

impl Cell {
    /// The cell with Any in each dimension.
    pub fn any(_alloc: Global, dims: u8) -> Cell
        requires { dims ≤ MAX_DIMS }
        ensures value { result ≡ replicate dims None }
        ensures dims { length result ≡ dims }
    {
        Cell {
            codes: [ANY; MAX_DIMS as usize],
            dims,
        }
    }

    /// The number of dimensions.
    pub fn dims(&self) -> u8
        ensures value { result ≡ length self.now }
        ensures few { length self.now ≤ MAX_DIMS }
    {
        self.dims
    }

    /// The entry in a dimension, counted from 0.
    pub fn get(&self, dim: u8) -> Entry
        requires { dim < length self.now }
        ensures value { value_in result ≡ slice_index_or self.now dim None }
        ensures small { IsSmall result }
    {
        Entry::of(self.codes[dim as usize])
    }

    /// Replaces the entry in a dimension.
    pub fn set(&mut self, dim: u8, entry: Entry)
        requires dim { dim < length self.old }
        requires entry { IsSmall entry }
        ensures value { self.new ≡ slice_set self.old dim (value_in entry) }
        ensures dims { length self.new ≡ length self.old }
    {
        self.codes[dim as usize] = codes::stored_code(entry);
    }

    pub fn copy(&self) -> Cell
        ensures value { result ≡ self.now }
        ensures dims { length result ≡ length self.now }
    {
        Cell {
            codes: self.codes,
            dims: self.dims,
        }
    }
}

/// Whether c generalizes d: d has c's value wherever c has one.
pub fn leq(c: &Cell, d: &Cell) -> bool
    requires { length c.now ≡ length d.now }
    ensures { result ≡ defs.leq nat_eq c.now d.now }
{
    codes::leq(&c.codes[..c.dims as usize], &d.codes[..d.dims as usize])
}

/// Makes c the meet of both: the entries on which they agree, and Any elsewhere.
pub fn meet_into(c: &mut Cell, d: &Cell)
    requires { length c.old ≡ length d.now }
    ensures value { c.new ≡ defs.meet nat_eq c.old d.now }
    ensures dims { length c.new ≡ length c.old }
{
    codes::meet_into(&mut c.codes[..c.dims as usize], &d.codes[..d.dims as usize]);
}

/// The last dimension with a value. None if all is Any.
pub fn last(c: &Cell) -> Option<u8>
    ensures value { result ≡ defs.last c.now }
    ensures within { IfSome result (λ dim. dim < length c.now) }
{
    match codes::last(&c.codes[..c.dims as usize]) {
        Some(dim) => Some(dim as u8),
        None => None,
    }
}

/// Makes each entry after dimension j Any.
pub fn upto(c: &mut Cell, j: u8)
    requires { j < length c.old }
    ensures value { c.new ≡ defs.upto c.old j }
    ensures dims { length c.new ≡ length c.old }
{
    codes::upto(&mut c.codes[..c.dims as usize], j as usize);
}

/// The dimensions with a value: bit i is set if dimension i has one.
pub fn mask_of(c: &Cell) -> u16
    ensures { result ≡ defs.mask c.now }
{
    codes::mask_of(&c.codes[..c.dims as usize])
}
