// The rows of a table in the order of the first values of their tuples.
ghost use Rattle.std.specs.Prelude.{All, IfOk, IfSome, flat_map, is_some, length, nat_abs, slice_index_or, true, ◌++◌, ◌<◌, ◌≡◌, ◌≤◌};
ghost use Rattle.cell_core.specs.Entry.{IsCode};
ghost use Rattle.base_table.specs.Places.{AreThere, IsTable, named, row_at, rows_of};
ghost use Rattle.cube_laws.specs.Lists.{Reordered};

use crate::Memory;
use crate::order::sorted_numbers;
use crate::table_rows::TableRows;
use base_table::{RowNo, Table, line};
use cell_core::Code;
use cube_defs::MAX_AMOUNT;
use std::alloc::Global;
use std::marker::Model;
use std::mem::ManuallyDrop;
use std::snapshot::Snapshot;

/// A copy of the rows of a table in the order of the first values of their tuples: rows whose
/// tuples begin alike lie next to each other. Only so many dimensions count for the order that few
/// rows agree on all of them. Tuples of one dimension keep the order of the table, since a walk
/// groups them only once. The number of a row is its place in this order.
#[derive(Drop)]
pub struct SortedRows {
    dims: u8,
    measures: u8,
    count: u32,
    codes: Vec<Code>,
    amounts: Vec<i64>,
    // The table, and the numbers of its rows in this order. Only proofs read them.
    table: ManuallyDrop<Snapshot<Table>>,
    numbers: ManuallyDrop<Snapshot<Vec<RowNo>>>,
}

impl Model for SortedRows {
    ghost use Rattle.base_table.specs.Places.{Places};
    ghost use Rattle.base_table.specs.Places.{named};
    ghost use Rattle.cell_closure.specs.Copies.{AreCopied, places_of};
    ghost use Rattle.std.specs.Mem.{manually_drop_value};

    ghost Value = { Places };

    ghost view = { λ s. places_of s.dims s.measures (named (manually_drop_value s.table).value
        (manually_drop_value s.numbers).value.items) };

    ghost invariant = { λ s. AreCopied s.dims s.measures s.count s.codes.items s.amounts.items
        (named (manually_drop_value s.table).value (manually_drop_value s.numbers).value.items) };
}

impl SortedRows {
    /// The rows of the table in the order of the first values of their tuples, or in its own if it
    /// has one dimension.
    pub fn of(alloc: Global, table: &Table) -> Result<SortedRows, Memory>
        ensures rows { IfOk result (λ rows. Reordered (rows_of table.now) (rows_of rows)) }
        ensures dims { IfOk result (λ rows. rows.dims ≡ table.now.dims) }
        ensures measures { IfOk result (λ rows. rows.measures ≡ table.now.measures) }
    {
        let numbers = sorted_numbers(alloc, table)?;
        let rows = TableRows {
            table,
            numbers: &numbers,
        };
        let codes = codes_of(alloc, &rows)?;
        let amounts = amounts_of(alloc, &rows)?;
        Ok(SortedRows {
            dims: table.dims(),
            measures: table.measures(),
            count: table.count(),
            codes,
            amounts,
            table: ManuallyDrop::new(Snapshot::of(table)),
            numbers: ManuallyDrop::new(Snapshot::of(&numbers)),
        })
    }

    /// The number of measures.
    pub fn measures(&self) -> u8
        ensures value { result ≡ self.now.measures }
        ensures valid { IsTable self.now }
    {
        self.measures
    }

    /// The number of dimensions.
    pub fn dims(&self) -> u8
        ensures value { result ≡ self.now.dims }
        ensures valid { IsTable self.now }
    {
        self.dims
    }

    /// The number of rows. Each place has a row.
    pub fn places(&self) -> u32
        ensures value { result ≡ length self.now.places }
        ensures valid { IsTable self.now }
    {
        self.count
    }

    /// Gives a proof what is true of all rows. At run time it does nothing.
    pub fn recall_invariant(&self)
        ensures { IsTable self.now }
    {
        let _read = self.count;
    }

    /// The codes of a row, one for each dimension.
    fn codes(&self, row: RowNo) -> &[Code]
        requires { is_some (row_at self.now row.0) ≡ true }
        ensures value { IfSome (row_at self.now row.0) (λ r. result.now ≡ r.tuple) }
        ensures dims { length result.now ≡ self.now.dims }
        ensures small { All IsCode result.now }
    {
        line(&self.codes, row.0, self.dims)
    }

    /// The code of a row in a dimension.
    pub fn code(&self, row: RowNo, dim: u8) -> Code
        requires row { is_some (row_at self.now row.0) ≡ true }
        requires dim { dim < self.now.dims }
        ensures value { IfSome (row_at self.now row.0)
            (λ r. result ≡ slice_index_or r.tuple dim 0) }
        ensures small { IsCode result }
    {
        self.codes(row)[dim as usize]
    }

    /// The amounts of a row, one for each measure.
    pub fn amounts(&self, row: RowNo) -> &[i64]
        requires row { is_some (row_at self.now row.0) ≡ true }
        ensures value { IfSome (row_at self.now row.0) (λ r. result.now ≡ r.amounts) }
        ensures measures { length result.now ≡ self.now.measures }
        ensures small { All (λ a. nat_abs a ≤ MAX_AMOUNT) result.now }
    {
        line(&self.amounts, row.0, self.measures)
    }

    /// The numbers of all rows, in their order.
    pub fn all(&self, alloc: Global) -> Result<Vec<RowNo>, Memory>
        ensures rows { IfOk result (λ nos. named self.now nos.items ≡ rows_of self.now) }
        ensures there { IfOk result (λ nos. AreThere self.now nos.items) }
    {
        let mut nos = Vec::with_capacity(alloc, self.count as usize)?;
        'rows: for place in 0..self.count {
            nos.push_reserved(RowNo(place));
        }
        Ok(nos)
    }
}

/// The codes of the rows, one after another.
fn codes_of(alloc: Global, rows: &TableRows<'_, Table>) -> Result<Vec<Code>, Memory>
    ensures { IfOk result (λ codes. codes.items
        ≡ flat_map (λ row. row.tuple) (named rows.now.table.now rows.now.numbers.now)) }
{
    let table = rows.table;
    let mut codes = Vec::with_capacity(alloc, table.count() as usize * table.dims() as usize)?;
    'rows: for row in rows.numbers {
        codes.extend_from_slice(table.codes(*row))?;
    }
    Ok(codes)
}

/// The amounts of the rows, one after another.
fn amounts_of(alloc: Global, rows: &TableRows<'_, Table>) -> Result<Vec<i64>, Memory>
    ensures { IfOk result (λ amounts. amounts.items
        ≡ flat_map (λ row. row.amounts) (named rows.now.table.now rows.now.numbers.now)) }
{
    let table = rows.table;
    let measures = table.measures() as usize;
    let mut amounts = Vec::with_capacity(alloc, table.count() as usize * measures)?;
    'rows: for row in rows.numbers {
        push_amounts(&mut amounts, table.amounts(*row))?;
    }
    Ok(amounts)
}

/// Appends amounts. Many tables have none.
fn push_amounts(amounts: &mut Vec<i64>, more: &[i64]) -> Result<(), Memory>
    ensures { IfOk result (λ _. amounts.new.items ≡ amounts.old.items ++ more.now) }
{
    if !more.is_empty() {
        amounts.extend_from_slice(more)?;
    }
    Ok(())
}
