// Rows at places, and a batch that can be rolled back.
ghost use Rattle.std.specs.Prelude.{All, nat_abs, pos, true, false, Err, IfOk, IfSome, None, OnErr, OnOk, Some, [], length, map, slice_index_or, ◌++◌, ◌<◌, ◌∷◌, ◌≡◌, ◌≤◌, ◌↔◌, is_some};
ghost use Rattle.cell_core.specs.Entry.{IsCode};
ghost use Rattle.base_table.specs.Places.{AreThere, IsTable, base_of, cleared, has_id, named, numbers, padded, row_at, row_of, row_with_id, rows_of, total_of, widened, with_code, with_tuple, without_id};
ghost use Rattle.std.specs.Option.{option_map};
ghost use Rattle.cube_defs.specs.Cell.{cell_of};
ghost use Rattle.aggregates.specs.Views.{agg_in};

use crate::store::Store;
use crate::{Memory, group, presence};
use aggregates::Agg;
use cell_core::{Cell, Code, HashKeys};
use cube_defs::{MAX_AMOUNT, MAX_DIMS, MAX_MEASURES, MAX_ROWS};
use std::alloc::{AllocError, Global};
use std::marker::Model;

/// The number of a row: its place in the table.
#[derive(Clone, Copy)]
pub struct RowNo(pub u32);

/// Why a row wasn't inserted.
#[derive(Clone, Copy)]
pub enum TableRefused {
    /// A row with this id is there.
    Present,
    /// There are as many rows as allowed.
    Full,
    /// Memory ran out.
    Memory,
}

/// The refusal of a deletion: no row has the id.
#[derive(Clone, Copy)]
pub struct Missing;

/// The tuple and the amounts of a deleted row. The amounts after those of the measures are zero.
#[derive(Drop)]
pub struct Taken {
    pub tuple: Cell,
    pub amounts: [i64; MAX_MEASURES as usize],
}

/// Rows under distinct ids, each with a code in every dimension and an amount in every measure, in
/// the order in which they were inserted.
#[derive(Drop)]
pub struct Table {
    store: Store,
    // Whether the row at each place is present. A deleted row stays in the store.
    here: Vec<bool>,
    // The places of the rows that were there when the batch began and were deleted since. It has
    // room for every place, so that a deletion takes no memory.
    touched: Vec<u32>,
    // The numbers of places and rows when the batch began, or the present ones if none is open.
    begun: u32,
    count_then: u32,
    is_open: bool,
    count: u32,
    max: u32,
}

impl Model for Table {
    ghost use Rattle.std.specs.Prelude.{vec_capacity};
    ghost use Rattle.base_table.specs.Places.{Places};
    ghost use Rattle.base_table.specs.Store.{AreTableFields, places_with};

    ghost Value = { Places };

    ghost view = { λ t. places_with t.store t.here.items t.touched.items t.begun t.is_open t.max };

    ghost invariant = { λ t. AreTableFields t.store t.here.items t.touched.items
        (vec_capacity t.touched) t.begun t.count_then t.is_open t.count t.max };
}

// The most places that have numbers. Only a batch that inserts and deletes rows without end needs
// more; that counts as out of memory.
const MOST_PLACES: usize = 4_000_000_000;

impl Table {
    /// A table without rows, under fixed hash keys: ids and tuples that are chosen to collide make
    /// it slow. No batch is open.
    pub fn new(alloc: Global, dims: u8, measures: u8, max: u32) -> Result<Table, Memory>
        requires some_dims { 0 < dims }
        requires few_dims { dims ≤ MAX_DIMS }
        requires few_measures { measures ≤ MAX_MEASURES }
        requires some_rows { 0 < max }
        requires few_rows { max ≤ MAX_ROWS }
        ensures value { IfOk result (λ table. table ≡ record {
          dims = dims;
          measures = measures;
          max
              = max;
          places = [];
          was = None;
        }) }
    {
        Table::with_keys(alloc, HashKeys::fixed(), dims, measures, max)
    }

    /// A table without rows, under these hash keys. No batch is open.
    pub fn with_keys(
        alloc: Global,
        keys: HashKeys,
        dims: u8,
        measures: u8,
        max: u32,
    ) -> Result<Table, Memory>
        requires some_dims { 0 < dims }
        requires few_dims { dims ≤ MAX_DIMS }
        requires few_measures { measures ≤ MAX_MEASURES }
        requires some_rows { 0 < max }
        requires few_rows { max ≤ MAX_ROWS }
        ensures value { IfOk result (λ table. table ≡ record {
          dims = dims;
          measures = measures;
          max
              = max;
          places = [];
          was = None;
        }) }
    {
        Ok(Table {
            store: Store::new(alloc, keys, dims, measures),
            here: Vec::new(alloc),
            touched: Vec::new(alloc),
            begun: 0,
            count_then: 0,
            is_open: false,
            count: 0,
            max,
        })
    }

    /// The keys under which ids and tuples are hashed.
    pub fn hash_keys(&self) -> HashKeys {
        self.store.hash_keys()
    }

    /// The number of dimensions.
    pub fn dims(&self) -> u8
        ensures value { result ≡ self.now.dims }
        ensures valid { IsTable self.now }
    {
        self.store.dims()
    }

    /// The number of measures.
    pub fn measures(&self) -> u8
        ensures value { result ≡ self.now.measures }
        ensures valid { IsTable self.now }
    {
        self.store.measures()
    }

    /// Gives a proof what is true of every table. At run time it does nothing.
    pub fn recall_invariant(&self)
        ensures { IsTable self.now }
    {
        let _read = self.max;
    }

    /// The number of rows.
    pub fn count(&self) -> u32
        ensures value { result ≡ length (rows_of self.now) }
        ensures valid { IsTable self.now }
    {
        self.count
    }

    /// Whether a row has the id.
    pub fn has(&self, id: u64) -> bool
        ensures { result ≡ has_id (rows_of self.now) id }
    {
        match presence::find(&self.store, &self.here, id) {
            Some(_) => true,
            None => false,
        }
    }

    /// The number of places, with a row or empty.
    pub fn places(&self) -> u32
        ensures value { result ≡ length self.now.places }
        ensures valid { IsTable self.now }
    {
        self.here.len() as u32
    }

    /// The row at a place, counted from 0, if there is one.
    pub fn at(&self, place: u32) -> Option<RowNo>
        requires { place < length self.now.places }
        ensures some { IfSome result (λ no. (no.0 ≡ place)
            × (is_some (row_at self.now place) ≡ true)) }
        ensures none { result ≡ None → row_at self.now place ≡ None }
    {
        if self.here[place as usize] {
            Some(RowNo(place))
        } else {
            None
        }
    }

    /// The id of a row. Takes no memory.
    pub fn id(&self, row: RowNo) -> u64
        requires { is_some (row_at self.now row.0) ≡ true }
        ensures { IfSome (row_at self.now row.0) (λ r. result ≡ r.id) }
    {
        self.store.id(row.0)
    }

    /// The code of a row in a dimension.
    pub fn code(&self, row: RowNo, dim: u8) -> Code
        requires row { is_some (row_at self.now row.0) ≡ true }
        requires dim { dim < self.now.dims }
        ensures value { IfSome (row_at self.now row.0)
            (λ r. result ≡ slice_index_or r.tuple dim 0) }
        ensures small { IsCode result }
    {
        self.store.code(row.0, dim)
    }

    /// The codes of a row, one for each dimension.
    pub fn codes(&self, row: RowNo) -> &[Code]
        requires row { is_some (row_at self.now row.0) ≡ true }
        ensures value { IfSome (row_at self.now row.0) (λ r. result.now ≡ r.tuple) }
        ensures dims { length result.now ≡ self.now.dims }
    {
        self.store.codes(row.0)
    }

    /// The tuple of a row.
    pub fn tuple(&self, row: RowNo) -> Cell
        requires row { is_some (row_at self.now row.0) ≡ true }
        ensures value { IfSome (row_at self.now row.0) (λ r. result ≡ cell_of r.tuple) }
        ensures dims { length result ≡ self.now.dims }
    {
        self.store.tuple(row.0)
    }

    /// The amount of a row in a measure, in units of the last digit of its scale.
    pub fn amount(&self, row: RowNo, measure: u8) -> i64
        requires row { is_some (row_at self.now row.0) ≡ true }
        requires measure { measure < self.now.measures }
        ensures { IfSome (row_at self.now row.0)
            (λ r. result ≡ slice_index_or r.amounts measure (pos 0)) }
    {
        self.store.amount(row.0, measure)
    }

    /// The amounts of a row, one for each measure.
    pub fn amounts(&self, row: RowNo) -> &[i64]
        requires row { is_some (row_at self.now row.0) ≡ true }
        ensures value { IfSome (row_at self.now row.0) (λ r. result.now ≡ r.amounts) }
        ensures measures { length result.now ≡ self.now.measures }
        ensures small { All (λ a. nat_abs a ≤ MAX_AMOUNT) result.now }
    {
        self.store.amounts(row.0)
    }

    /// The aggregate of the rows with exactly this tuple. None if there is no such row.
    pub fn group(&self, tuple: &Cell) -> Option<Agg>
        requires { length tuple.now ≡ self.now.dims }
        ensures value { option_map agg_in result ≡ total_of self.now.measures
            (with_tuple (rows_of self.now) tuple.now) }
        ensures measures { IfSome result (λ agg. agg.measures ≡ self.now.measures) }
    {
        group::group_in(&self.store, &self.here, tuple)
    }

    /// The numbers of all rows, in insertion order. A row's number stays until the next `commit` or
    /// `rollback`.
    pub fn all(&self, alloc: Global) -> Result<Vec<RowNo>, Memory>
        ensures numbers { IfOk result (λ nos. map (λ no. no.0) nos.items ≡ numbers self.now) }
        ensures rows { IfOk result (λ nos. named self.now nos.items ≡ rows_of self.now) }
        ensures there { IfOk result (λ nos. AreThere self.now nos.items) }
    {
        presence::numbers_in(alloc, &self.here)
    }

    /// Opens a batch. Takes no memory.
    pub fn begin(&mut self)
        requires closed { self.old.was ≡ None }
        ensures value { self.new ≡ record self.old { was = Some (base_of self.old) } }
    {
        // All rows so far in one go: a load inserts many. No row of a batch is asked for by its
        // tuple before the next one, and hardly one by its id.
        self.store.link();
        self.is_open = true;
    }

    /// Makes room for so many more rows. Insertions need no call of it, but many of them are faster
    /// after it.
    pub fn reserve(&mut self, rows: u32) -> Result<(), Memory>
        ensures { self.new ≡ self.old }
    {
        self.store.reserve(rows)
    }

    /// Inserts a row as the last.
    pub fn insert(&mut self, id: u64, tuple: &Cell, amounts: &[i64]) -> Result<(), TableRefused>
        requires is_open { is_some self.old.was ≡ true }
        requires dims { length tuple.now ≡ self.old.dims }
        requires no_any { All (λ entry. is_some entry ≡ true) tuple.now }
        requires measures { length amounts.now ≡ self.old.measures }
        requires small { All (λ a. nat_abs a ≤ MAX_AMOUNT) amounts.now }
        ensures ok { OnOk result
            (self.new ≡ record self.old {
              places
                  = self.old.places ++ Some (row_of id tuple.now amounts.now) ∷ [];
            }) }
        ensures rows { OnOk result (rows_of self.new ≡ rows_of self.old
            ++ row_of id tuple.now amounts.now ∷ []) }
        ensures err { OnErr result (self.new ≡ self.old) }
        ensures present { (result ≡ Err TableRefused.Present)
            ↔ (has_id (rows_of self.old) id ≡ true) }
        ensures full { (result ≡ Err TableRefused.Full)
            ↔ ((has_id (rows_of self.old) id ≡ false)
            × (length (rows_of self.old) ≡ self.old.max)) }
    {
        if self.has(id) {
            return Err(TableRefused::Present);
        }
        if self.count >= self.max {
            return Err(TableRefused::Full);
        }
        match self.put(id, tuple, amounts) {
            Ok(()) => Ok(()),
            Err(_) => Err(TableRefused::Memory),
        }
    }

    /// Deletes the row of an id. No other row moves, and it takes no memory.
    pub fn delete(&mut self, id: u64) -> Result<Taken, Missing>
        requires is_open { is_some self.old.was ≡ true }
        ensures ok { OnOk result
            (self.new ≡ record self.old { places = map (cleared id) self.old.places }) }
        ensures rows { OnOk result (rows_of self.new ≡ without_id (rows_of self.old) id) }
        ensures taken { IfOk result (λ taken. IfSome (row_with_id (rows_of self.old) id)
            (λ row. (taken.tuple ≡ cell_of row.tuple) × (taken.amounts ≡ padded row.amounts))) }
        ensures there { OnOk result (has_id (rows_of self.old) id ≡ true) }
        ensures missing { OnErr result (has_id (rows_of self.old) id ≡ false) }
        ensures err { OnErr result (self.new ≡ self.old) }
    {
        self.link_ids();
        match presence::find(&self.store, &self.here, id) {
            Some(place) => Ok(self.delete_at(place)),
            None => Err(Missing),
        }
    }

    /// Adds a last dimension, in which each row has the code. It takes no memory, and touches each
    /// row.
    pub fn widen(&mut self, code: Code)
        requires is_open { is_some self.old.was ≡ true }
        requires few { self.old.dims < MAX_DIMS }
        requires small { IsCode code }
        ensures value { self.new ≡ widened code self.old }
        ensures rows { rows_of self.new ≡ map (with_code code) (rows_of self.old) }
    {
        self.store.widen(code);
    }

    /// Commits the batch. Rows may get other numbers. Takes no memory.
    pub fn commit(&mut self)
        requires is_open { is_some self.old.was ≡ true }
        ensures rows { rows_of self.new ≡ rows_of self.old }
        ensures was { self.new.was ≡ None }
        ensures dims { self.new.dims ≡ self.old.dims }
        ensures measures { self.new.measures ≡ self.old.measures }
        ensures max { self.new.max ≡ self.old.max }
    {
        self.is_open = false;
        self.touched.clear();
        presence::compact_if_sparse(&mut self.store, &mut self.here, self.count);
        self.store.settle();
        self.begun = self.here.len() as u32;
        self.count_then = self.count;
    }

    /// Rolls the batch back: rows and dimensions are again those at its begin. Takes no memory.
    pub fn rollback(&mut self)
        requires is_open { is_some self.old.was ≡ true }
        ensures back { Some (base_of self.new) ≡ self.old.was }
        ensures was { self.new.was ≡ None }
        ensures measures { self.new.measures ≡ self.old.measures }
        ensures max { self.new.max ≡ self.old.max }
    {
        self.is_open = false;
        self.store.cut(self.begun);
        self.store.narrow();
        self.here.truncate(self.begun as usize);
        presence::restore(&mut self.here, &self.touched);
        self.touched.clear();
        self.count = self.count_then;
    }

    // Appends a row that isn't there, and for which there is a number.
    fn put(&mut self, id: u64, tuple: &Cell, amounts: &[i64]) -> Result<(), Memory>
        requires is_open { is_some self.old.was ≡ true }
        requires dims { length tuple.now ≡ self.old.dims }
        requires no_any { All (λ entry. is_some entry ≡ true) tuple.now }
        requires measures { length amounts.now ≡ self.old.measures }
        requires small { All (λ a. nat_abs a ≤ MAX_AMOUNT) amounts.now }
        requires absent { has_id (rows_of self.old) id ≡ false }
        requires room { length (rows_of self.old) < self.old.max }
        ensures ok { OnOk result
            (self.new ≡ record self.old {
              places
                  = self.old.places ++ Some (row_of id tuple.now amounts.now) ∷ [];
            }) }
        ensures err { OnErr result (self.new ≡ self.old) }
    {
        if self.here.len() >= MOST_PLACES {
            return Err(AllocError);
        }
        self.here.reserve(1)?;
        self.touched
            .reserve(self.here.len() + 1 - self.touched.len())?;
        self.store.push(id, tuple, amounts)?;
        self.here.push_reserved(true);
        self.count += 1;
        Ok(())
    }

    // Prepares the look-up by ids for all rows so far.
    fn link_ids(&mut self)
        ensures { self.new ≡ self.old }
    {
        self.store.link_ids();
    }

    // Deletes the row at a place.
    fn delete_at(&mut self, place: u32) -> Taken
        requires is_open { is_some self.old.was ≡ true }
        requires there { is_some (row_at self.old place) ≡ true }
        ensures table { IfSome (row_at self.old place)
            (λ row. self.new ≡ record self.old { places = map (cleared row.id) self.old.places }) }
        ensures taken { IfSome (row_at self.old place) (λ row. (result.tuple ≡ cell_of row.tuple)
            × (result.amounts ≡ padded row.amounts)) }
    {
        let taken = Taken {
            tuple: self.store.tuple(place),
            amounts: presence::padded(self.store.amounts(place)),
        };
        presence::push_touched(&mut self.touched, place, self.begun);
        self.here[place as usize] = false;
        self.count -= 1;
        taken
    }
}
