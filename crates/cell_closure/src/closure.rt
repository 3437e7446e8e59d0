// The values that rows share.
ghost use Rattle.std.specs.Prelude.{None, Some, length, map, nat_eq, slice_index_or, ◌<◌, ◌==◌, ◌≡◌};
ghost use Rattle.std.specs.List.{list_all};
ghost use Rattle.cube_defs.specs.Cell.{cell_of};
ghost use Rattle.cube_defs.specs.Rows.{meet_all};
ghost use Rattle.cell_core.specs.Entry.{IsSmall, value_in};
ghost use Rattle.base_table.specs.Places.{AreThere, named};
ghost use Rattle.cell_closure.specs.Parts.{code_at};
ghost use Rattle.cube_laws.specs.Parting.{shared_by};

use crate::sorted_rows::SortedRows;
use crate::table_rows::{SomeRows, TableRows};
use crate::width::closure_in;
use base_table::{RowNo, Table};
use cell_core::{Cell, Code, Entry};
use cube_defs::MAX_DIMS;

/// Whether all the rows have the code in the dimension.
fn all_have(rows: &TableRows<'_, SortedRows>, dim: u8, code: Code) -> bool
    requires { dim < rows.now.table.now.dims }
    ensures { result
        ≡ list_all (λ no. code_at rows.now.table.now dim no == code) rows.now.numbers.now }
{
    let table = rows.table;
    'rows: for row in rows.numbers {
        if table.code(*row, dim) != code {
            return false;
        }
    }
    true
}

/// The value that all the rows have in the dimension. Any if they differ.
pub fn shared_entry(rows: &SomeRows<'_, SortedRows>, dim: u8) -> Entry
    requires { dim < rows.now.table.now.dims }
    ensures value { value_in result ≡ slice_index_or
        (shared_by (named rows.now.table.now rows.now.numbers.now)) dim None }
    ensures small { IsSmall result }
{
    let code = rows.table.code(rows.numbers[0], dim);
    let rest = TableRows {
        table: rows.table,
        numbers: &rows.numbers[1..],
    };
    if all_have(&rest, dim, code) {
        Entry::Is(code)
    } else {
        Entry::Any
    }
}

// The width of an array that every row fits.
const WIDEST: usize = MAX_DIMS as usize;

// One branch for each array width: the arrays have the least width in which the dimensions fit.
macro_rules! closure_by_width {
    ($rows:expr, $($width:literal)*) => {
        $(if $rows.table.dims() <= $width {
            return closure_in::<$width>($rows);
        })*
    };
}

/// The values that all the rows have, and Any in the other dimensions. It reads rows only until
/// they share no value any more.
pub fn closure_of(table: &Table, rows: &[RowNo]) -> Cell
    requires some { 0 < length rows.now }
    requires there { AreThere table.now rows.now }
    ensures closure { Some result ≡ meet_all nat_eq
        (map (λ row. cell_of row.tuple) (named table.now rows.now)) }
    ensures dims { length result ≡ table.now.dims }
{
    table.recall_invariant();
    let rows = SomeRows {
        table,
        numbers: rows,
    };
    closure_by_width!(&rows, 4 8 12);
    closure_in::<WIDEST>(&rows)
}
