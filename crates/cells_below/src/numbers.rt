// The cells that generalize a cell, named by numbers.
ghost use Rattle.std.specs.Prelude.{None, if◌then◌else◌, length, slice_index_or, ℕ, ◌<◌, ◌≡◌, ◌≤◌};
ghost use Rattle.cell_core.specs.Entry.{IsSmall, value_in};
ghost use Rattle.cells_below.specs.Numbers.{cell_of_number, has_bit, turned};
ghost use Rattle.cube_laws.specs.Parts.{value_count};

use cell_core::{Cell, Entry};
use cube_defs::MAX_DIMS;

/// Whether bit k of a number is set.
pub fn is_bit_set(m: u32, k: u32) -> bool
    requires { k < 32 }
    ensures { result ≡ has_bit m k }
{
    (m >> k) & 1 == 1
}

/// The number with bit k flipped.
pub fn flip_bit(m: u32, k: u32) -> u32
    requires { k < 32 }
    ensures { result ≡ turned m k }
{
    m ^ (1 << k)
}

/// The number of values of a cell.
pub fn count_values(u: &Cell) -> u32
    ensures value { result ≡ value_count u.now }
    ensures few { result ≤ MAX_DIMS }
{
    let mut count = 0;
    'dims: for dim in (0..u.dims()).rev() {
        if u.get(dim) != Entry::Any {
            count += 1;
        }
    }
    count
}

// The entry if bit k of the number is set, else Any.
fn entry_if_bit(entry: Entry, m: u32, k: u32) -> Entry
    requires bit { k < 32 }
    requires small { IsSmall entry }
    ensures value { value_in result ≡ (if has_bit m k then value_in entry else None) }
    ensures small { IsSmall result }
{
    if is_bit_set(m, k) { entry } else { Entry::Any }
}

/// Writes the cell of a number, which generalizes u, over `out`.
pub fn write_cell(u: &Cell, m: u32, out: &mut Cell)
    requires { length out.old ≡ length u.now }
    ensures value { out.new ≡ cell_of_number u.now m }
    ensures dims { length out.new ≡ length u.now }
{
    let mut k = 0;
    'dims: for dim in (0..u.dims()).rev() {
        let entry = u.get(dim);
        out.set(dim, entry_if_bit(entry, m, k));
        if entry != Entry::Any {
            k += 1;
        }
    }
}

/// Turns the cell of a number into that of another one. Returns a dimension before which both cells
/// are alike. The bits are gone through from the lowest up to the highest that differs.
pub(crate) fn turn_cell(u: &Cell, from: u32, to: u32, cell: &mut Cell) -> u8
    requires dims { length cell.old ≡ length u.now }
    requires cell { cell.old ≡ cell_of_number u.now from }
    ensures dims { length cell.new ≡ length u.now }
    ensures value { cell.new ≡ cell_of_number u.now to }
    ensures alike { (j : ℕ) →
        j < result → slice_index_or cell.new j None ≡ slice_index_or cell.old j None }
    ensures few { result ≤ length u.now }
{
    let mut k = 0;
    'dims: for dim in (0..u.dims()).rev() {
        if from >> k == to >> k {
            return dim + 1;
        }
        let entry = u.get(dim);
        cell.set(dim, entry_if_bit(entry, to, k));
        if entry != Entry::Any {
            k += 1;
        }
    }
    0
}
