// Rows in the order in which they were inserted, the deleted ones too.
ghost use Rattle.std.specs.Prelude.{All, [], length, map, nat_abs, nat_eq, pos, slice_index_or, take, true, ℕ, ◌+◌, ◌++◌, ◌<◌, ◌∷◌, ◌^◌, ◌≡◌, ◌≤◌, OnErr, OnOk, is_some};
ghost use Rattle.cell_core.specs.Entry.{IsCode};
ghost use Rattle.cube_defs.specs.Cell.{cell_eq, cell_of};
ghost use Rattle.cube_defs.specs.Rows.{Row};
ghost use Rattle.base_table.specs.Last.{last_of, picked};
ghost use Rattle.base_table.specs.Places.{IsRow, narrowed, row_of, with_code};
ghost use Rattle.base_table.specs.Store.{id_of, print_in, print_of};

use crate::chains::{self, Chains};
use crate::fingerprints::Fingerprinter;
use crate::ids::Ids;
use crate::{Memory, lines};
use cell_core::{Cell, HashKeys};
use cube_defs::{MAX_AMOUNT, MAX_DIMS, MAX_MEASURES};
use std::alloc::{AllocError, Global};
use std::marker::Model;

/// Rows in the order in which they were inserted. The last row of an id and of a tuple is found in
/// one step, and from a row the one before of the same tuple.
#[derive(Drop)]
pub struct Store {
    dims: u8,
    // The number of dimensions when the rows were settled last.
    dims_then: u8,
    // It makes fingerprints of the codes that a tuple had from the start.
    printer: Fingerprinter,
    measures: u8,
    keys: HashKeys,
    ids: Ids,
    // A fingerprint for each tuple. Equal tuples have equal ones.
    prints: Chains<u32>,
    // It has room for the most dimensions, so that a new one takes no memory.
    codes: Vec<u32>,
    amounts: Vec<i64>,
}

impl Model for Store {
    ghost use Rattle.base_table.specs.Store.{IsStore, StoredRows, rows_from};

    ghost Value = { StoredRows };

    ghost use Rattle.std.specs.Prelude.{vec_capacity};

    ghost view = { λ s. record {
      dims = s.dims;
      dims_then = s.dims_then;
      printer = s.printer;
      measures = s.measures;
      rows = rows_from s.dims s.measures s.ids s.codes.items s.amounts.items;
    } };

    ghost invariant = { λ s. IsStore s.dims s.measures s.printer s.dims_then s.ids s.prints
        s.codes.items s.amounts.items (vec_capacity s.codes) };
}

impl Store {
    pub fn new(alloc: Global, keys: HashKeys, dims: u8, measures: u8) -> Store
        requires dims { dims ≤ MAX_DIMS }
        requires measures { measures ≤ MAX_MEASURES }
        ensures dims { result.dims ≡ dims }
        ensures dims_then { result.dims_then ≡ dims }
        ensures measures { result.measures ≡ measures }
        ensures rows { result.rows ≡ [] }
    {
        Store {
            dims,
            dims_then: dims,
            printer: Fingerprinter::new(keys, dims),
            measures,
            keys,
            ids: Ids::new(alloc, keys.number()),
            prints: Chains::new(alloc, keys.number()),
            codes: Vec::new(alloc),
            amounts: Vec::new(alloc),
        }
    }

    pub fn hash_keys(&self) -> HashKeys {
        self.keys
    }

    pub fn dims(&self) -> u8
        ensures { result ≡ self.now.dims }
    {
        self.dims
    }

    pub fn measures(&self) -> u8
        ensures { result ≡ self.now.measures }
    {
        self.measures
    }

    /// The number of rows.
    pub fn len(&self) -> u32
        ensures { result ≡ length self.now.rows }
    {
        self.ids.len()
    }

    /// The id of a row.
    pub fn id(&self, place: u32) -> u64
        requires { place < length self.now.rows }
        ensures { (d : Row ℕ) → result ≡ (slice_index_or self.now.rows place d).id }
    {
        self.ids.key(place)
    }

    /// One more than the place of the last row with the id, or 0.
    pub fn last(&self, id: u64) -> u32
        ensures { result ≡ last_of (nat_eq id) (map id_of self.now.rows) }
    {
        self.ids.last(id)
    }

    /// One more than the last place of a tuple that shares its fingerprint with the cell, or 0.
    pub fn last_with_fingerprint(&self, tuple: &Cell) -> u32
        requires { length tuple.now ≡ self.now.dims }
        ensures { result ≡ last_of (nat_eq (print_in self.now.printer tuple.now))
            (map (print_of self.now.printer) self.now.rows) }
    {
        self.prints.last(&self.printer.of(tuple))
    }

    /// One more than the last place before this one whose row has the fingerprint of the row here,
    /// or 0.
    pub fn previous_with_fingerprint(&self, place: u32) -> u32
        requires { place < length self.now.rows }
        ensures { (d : Row ℕ) → result
            ≡ last_of (nat_eq (print_of self.now.printer (slice_index_or self.now.rows place d)))
            (take place (map (print_of self.now.printer) self.now.rows)) }
    {
        self.prints.before(place)
    }

    /// The codes of a row.
    pub fn codes(&self, place: u32) -> &[u32]
        requires { place < length self.now.rows }
        ensures value { (d : Row ℕ) → result.now ≡ (slice_index_or self.now.rows place d).tuple }
        ensures dims { length result.now ≡ self.now.dims }
        ensures few { self.now.dims ≤ MAX_DIMS }
        ensures small { All IsCode result.now }
    {
        lines::line(&self.codes, place, self.dims)
    }

    /// The amounts of a row.
    pub fn amounts(&self, place: u32) -> &[i64]
        requires { place < length self.now.rows }
        ensures value { (d : Row ℕ) → result.now ≡ (slice_index_or self.now.rows place d).amounts }
        ensures measures { length result.now ≡ self.now.measures }
        ensures few { self.now.measures ≤ MAX_MEASURES }
        ensures small { All (λ a. nat_abs a ≤ MAX_AMOUNT) result.now }
    {
        lines::line(&self.amounts, place, self.measures)
    }

    /// The amount of a row in a measure.
    pub fn amount(&self, place: u32, measure: u8) -> i64
        requires place { place < length self.now.rows }
        requires measure { measure < self.now.measures }
        ensures { (d : Row ℕ) → result ≡ slice_index_or
            (slice_index_or self.now.rows place d).amounts measure (pos 0) }
    {
        self.amounts(place)[measure as usize]
    }

    /// The code of a row in a dimension.
    pub fn code(&self, place: u32, dim: u8) -> u32
        requires place { place < length self.now.rows }
        requires dim { dim < self.now.dims }
        ensures value { (d : Row ℕ)
            → result ≡ slice_index_or (slice_index_or self.now.rows place d).tuple dim 0 }
        ensures small { IsCode result }
    {
        self.codes(place)[dim as usize]
    }

    /// The tuple of a row.
    pub fn tuple(&self, place: u32) -> Cell
        requires { place < length self.now.rows }
        ensures value { (d : Row ℕ)
            → result ≡ cell_of (slice_index_or self.now.rows place d).tuple }
        ensures dims { length result ≡ self.now.dims }
    {
        lines::cell_with(*self.codes.allocator(), self.codes(place))
    }

    /// Whether a row has just this tuple.
    pub fn has_tuple(&self, place: u32, tuple: &Cell) -> bool
        requires place { place < length self.now.rows }
        requires dims { length tuple.now ≡ self.now.dims }
        ensures { (d : Row ℕ) → result ≡ cell_eq nat_eq
            (cell_of (slice_index_or self.now.rows place d).tuple) tuple.now }
    {
        lines::is_cell(self.codes(place), tuple)
    }

    /// Appends a row.
    pub fn push(&mut self, id: u64, tuple: &Cell, amounts: &[i64]) -> Result<(), Memory>
        requires dims { length tuple.now ≡ self.old.dims }
        requires no_any { All (λ entry. is_some entry ≡ true) tuple.now }
        requires measures { length amounts.now ≡ self.old.measures }
        requires small { All (λ a. nat_abs a ≤ MAX_AMOUNT) amounts.now }
        requires few { length self.old.rows + 1 < 2 ^ 32 }
        ensures ok { OnOk result
            (self.new ≡ record self.old {
              rows
                  = self.old.rows ++ row_of id tuple.now amounts.now ∷ [];
            }) }
        ensures row { OnOk result
            (IsRow self.old.dims self.old.measures (row_of id tuple.now amounts.now)) }
        ensures err { OnErr result (self.new ≡ self.old) }
    {
        let most = (self.ids.len() as usize + 1) * MAX_DIMS as usize;
        self.codes.reserve(most - self.codes.len())?;
        self.amounts.reserve(self.measures as usize)?;
        self.ids.push(id)?;
        let Ok(()) = self.prints.push_unlinked(self.printer.of(tuple)) else {
            self.ids.pop();
            return Err(AllocError);
        };
        lines::push_codes(&mut self.codes, tuple);
        lines::push_amounts(&mut self.amounts, amounts);
        Ok(())
    }

    /// Prepares the look-ups by ids for all rows that were appended since it was prepared last.
    /// Takes no memory.
    pub fn link_ids(&mut self)
        ensures { self.new ≡ self.old }
    {
        self.ids.link();
    }

    /// Prepares the look-ups by ids and fingerprints for all rows that were appended since they
    /// were prepared last. Takes no memory.
    pub fn link(&mut self)
        ensures { self.new ≡ self.old }
    {
        self.ids.link();
        self.prints.link();
    }

    /// Makes room for the ids and fingerprints of so many more rows.
    pub fn reserve(&mut self, more: u32) -> Result<(), Memory>
        ensures { self.new ≡ self.old }
    {
        self.ids.reserve(more)?;
        self.prints.reserve(more)
    }

    /// Removes rows from the end, down to so many. Takes no memory.
    pub fn cut(&mut self, len: u32)
        requires { len ≤ length self.old.rows }
        ensures { self.new ≡ record self.old { rows = take len self.old.rows } }
    {
        self.ids.cut(len);
        chains::cut(&mut self.prints, len);
        self.codes.truncate(len as usize * self.dims as usize);
        self.amounts.truncate(len as usize * self.measures as usize);
    }

    /// Keeps the rows whose mark is set, in order. Takes no memory.
    pub fn retain_marked(&mut self, kept: &[bool])
        requires { length kept.now ≡ length self.old.rows }
        ensures { self.new ≡ record self.old { rows = picked kept.now self.old.rows } }
    {
        self.ids.retain_marked(kept);
        self.prints.retain_marked(kept);
        lines::retain_lines(&mut self.codes, self.dims as usize, kept);
        lines::retain_lines(&mut self.amounts, self.measures as usize, kept);
    }

    /// Adds a last dimension, in which each row has the code. Takes no memory.
    pub fn widen(&mut self, code: u32)
        requires few { self.old.dims < MAX_DIMS }
        requires small { IsCode code }
        ensures { self.new ≡ record self.old {
          dims = self.old.dims + 1;
          rows
              = map (with_code code) self.old.rows;
        } }
    {
        let rows = self.ids.len() as usize;
        lines::lengthen(&mut self.codes, self.dims as usize, rows, code);
        self.dims += 1;
    }

    /// Drops the dimensions that were added since the rows were settled last. Takes no memory.
    pub fn narrow(&mut self)
        ensures { self.new ≡ record self.old {
          dims = self.old.dims_then;
          rows
              = map (narrowed self.old.dims_then) self.old.rows;
        } }
    {
        if self.dims_then < self.dims {
            let rows = self.ids.len() as usize;
            lines::shorten(
                &mut self.codes,
                self.dims as usize,
                self.dims_then as usize,
                rows,
            );
            self.dims = self.dims_then;
        }
    }

    /// Settles the rows, with as many dimensions as they have.
    pub fn settle(&mut self)
        ensures { self.new ≡ record self.old { dims_then = self.old.dims } }
    {
        self.dims_then = self.dims;
    }
}
