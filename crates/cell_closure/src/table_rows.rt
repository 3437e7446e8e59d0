// Rows of a table, by their numbers.
ghost use Rattle.base_table.specs.Places.{AreThere};
ghost use Rattle.cell_closure.specs.SomeRows.{AreSomeRows};
ghost use Rattle.std.proofs.Props.{props};

use crate::coded_rows::CodedRows;
use base_table::RowNo;

/// Rows of a table, by their numbers.
#[derive(Drop)]
pub struct TableRows<'a, R: CodedRows> {
    pub table: &'a R,
    pub numbers: &'a [RowNo],
    pub ghost there: { AreThere (R.rows table.now) numbers.now },
}

/// Rows of a table, of which there are some, by their numbers.
#[derive(Drop)]
pub struct SomeRows<'a, R: CodedRows> {
    pub table: &'a R,
    pub numbers: &'a [RowNo],
    pub ghost are: { AreSomeRows (R.rows table.now) numbers.now } by { Prim.hlevel props },
}
