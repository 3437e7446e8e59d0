// Rows whose codes can be read.
ghost use Rattle.std.specs.Prelude.{IfSome, is_some, slice_index_or, true, ◌<◌, ◌≡◌};
ghost use Rattle.base_table.specs.Places.{Places, row_at};
ghost use Rattle.cell_core.specs.Entry.{IsCode};

use crate::sorted_rows::SortedRows;
use base_table::{RowNo, Table};
use cell_core::Code;

/// Rows whose codes can be read: a table, or the copy of it that a walk reads.
pub trait CodedRows {
    /// the rows at their places
    ghost rows: { Self → Places };

    /// The code of a row in a dimension.
    fn code(&self, row: RowNo, dim: u8) -> Code
        requires row { is_some (row_at (rows self.now) row.0) ≡ true }
        requires dim { dim < (rows self.now).dims }
        ensures value { IfSome (row_at (rows self.now) row.0)
            (λ r. result ≡ slice_index_or r.tuple dim 0) }
        ensures small { IsCode result };
}

impl CodedRows for Table {
    ghost rows = { λ table. table };

    fn code(&self, row: RowNo, dim: u8) -> Code {
        Table::code(self, row, dim)
    }
}

impl CodedRows for SortedRows {
    ghost rows = { λ sorted. sorted };

    fn code(&self, row: RowNo, dim: u8) -> Code {
        SortedRows::code(self, row, dim)
    }
}
