// The values that rows share, computed on arrays of a fixed width.
ghost use Rattle.std.specs.Prelude.{None, Some, false, is_some, length, map, nat_eq, slice_index, slice_index_or, true, ℕ, ◌<◌, ◌≡◌, ◌≤◌};
ghost use Rattle.cube_defs.specs.Cell.{cell_of, meet};
ghost use Rattle.cube_defs.specs.Rows.{meet_all};
ghost use Rattle.cell_core.specs.Codes.{entries_of, entry_of, is_kept};
ghost use Rattle.cell_core.specs.Entry.{IsCode};
ghost use Rattle.base_table.specs.Places.{named, row_at};
ghost use Rattle.cell_closure.specs.Parts.{code_at};
ghost use Rattle.cell_closure.specs.Widths.{met};
ghost use Rattle.cube_laws.specs.Parting.{shared_by};

use crate::table_rows::SomeRows;
use base_table::{RowNo, Table};
use cell_core::{ANY, Cell, Entry};
use cube_defs::MAX_DIMS;

/// Replaces the accumulator by its meet with a row, entry by entry: the code if both have it, else
/// [`ANY`], which stands for Any. Each entry of both is a code or `ANY`.
pub fn meet_fixed<const N: usize>(acc: &mut [u32; N], row: &[u32; N])
    ensures meet { entries_of acc.new ≡ meet nat_eq (entries_of acc.old) (entries_of row.now) }
    ensures width { length acc.new ≡ N }
    ensures codes { (i : ℕ) → i < N
        → slice_index acc.new i ≡ met (slice_index acc.old i) (slice_index row.now i) }
{
    'entries: for i in 0..N {
        if acc[i] != row[i] {
            acc[i] = ANY;
        }
    }
}

/// The codes of a row, and 0 in the places after them.
fn codes_of<const N: usize>(table: &Table, row: RowNo) -> [u32; N]
    requires row { is_some (row_at table.now row.0) ≡ true }
    requires width { table.now.dims ≤ N }
    ensures value { (j : ℕ) → j < table.now.dims → slice_index result j ≡ code_at table.now j row }
    ensures small { (j : ℕ) → j < table.now.dims → IsCode (slice_index result j) }
{
    let mut codes = [0; N];
    'dims: for dim in 0..table.dims() {
        codes[dim as usize] = table.code(row, dim);
    }
    codes
}

/// Whether any dimension has a value.
fn has_value<const N: usize>(codes: &[u32; N], dims: u8) -> bool
    requires { dims ≤ N }
    ensures { result ≡ false → (j : ℕ) → j < dims → slice_index codes.now j ≡ ANY }
{
    'dims: for dim in 0..dims {
        if codes[dim as usize] != ANY {
            return true;
        }
    }
    false
}

/// The code that all the rows have in each dimension. [`ANY`] if they differ.
fn shared_codes<const N: usize>(rows: &SomeRows<'_, Table>) -> [u32; N]
    requires { rows.now.table.now.dims ≤ N }
    ensures value { (j : ℕ) → j < rows.now.table.now.dims →
        entry_of (slice_index result j) ≡ slice_index_or
        (shared_by (named rows.now.table.now rows.now.numbers.now)) j None }
    ensures kept { (j : ℕ) → j < rows.now.table.now.dims
        → is_kept (slice_index result j) ≡ true }
{
    let table = rows.table;
    let mut shared = codes_of(table, rows.numbers[0]);
    let rest = &rows.numbers[1..];
    'rows: for row in rest {
        if !has_value(&shared, table.dims()) {
            return shared;
        }
        meet_fixed(&mut shared, &codes_of(table, *row));
    }
    shared
}

/// The values that all the rows have, read as arrays of N codes.
pub(crate) fn closure_in<const N: usize>(rows: &SomeRows<'_, Table>) -> Cell
    requires width { rows.now.table.now.dims ≤ N }
    requires small { N ≤ MAX_DIMS }
    ensures closure { Some result ≡ meet_all nat_eq
        (map (λ row. cell_of row.tuple) (named rows.now.table.now rows.now.numbers.now)) }
    ensures dims { length result ≡ rows.now.table.now.dims }
{
    let table = rows.table;
    let codes: [u32; N] = shared_codes(rows);
    let mut shared = table.tuple(rows.numbers[0]);
    'dims: for dim in 0..table.dims() {
        shared.set(dim, Entry::of(codes[dim as usize]));
    }
    shared
}
