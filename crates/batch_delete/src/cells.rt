// Prefixes of cells, and the entries after them.
ghost use Rattle.std.specs.Prelude.{IfNone, IfSome, None, Some, length, slice_get, slice_index_or, ℕ, ◌<◌, ◌≡◌, ◌≢◌, ◌≤◌};
ghost use Rattle.cell_core.specs.Entry.{IsCode};
ghost use Rattle.std.specs.Ordering.{nat_cmp};
ghost use Rattle.cube_defs.specs.Cell as defs;
ghost use Rattle.cube_defs.specs.Tree as trees;
ghost use Rattle.cube_laws.specs.Parts.{IsLastAny};
ghost use Rattle.batch_delete.specs.Plan.{is_value, next_entry};

use cell_core::{Cell, Code, Entry, last, upto};

/// One more than the last dimension with a value.
pub(crate) fn depth(cell: &Cell) -> u8
    ensures value { result ≡ defs.depth cell.now }
    ensures within { result ≤ length cell.now }
{
    match last(cell) {
        None => 0,
        Some(dim) => {
            let _dims = cell.dims();
            dim + 1
        }
    }
}

/// The first entries of the cell, and Any after them.
pub(crate) fn front(cell: &Cell, len: u8) -> Cell
    requires { len ≤ length cell.now }
    ensures value { result ≡ defs.cell_prefix len cell.now }
    ensures dims { length result ≡ length cell.now }
{
    let mut front = cell.copy();
    if len > 0 {
        upto(&mut front, len - 1);
    } else if front.dims() > 0 {
        upto(&mut front, 0);
        front.set(0, Entry::Any);
    }
    front
}

/// The last dimension in which the cell has Any.
pub(crate) fn last_any(cell: &Cell) -> Option<u8>
    ensures none { IfNone result ((k : ℕ) → slice_get cell.now k ≢ Some None) }
    ensures some { IfSome result (λ dim. IsLastAny cell.now dim) }
    ensures within { IfSome result (λ dim. dim < length cell.now) }
{
    'dims: for k in 0..cell.dims() {
        let dim = cell.dims() - 1 - k;
        match cell.get(dim) {
            Entry::Any => return Some(dim),
            Entry::Is(_) => {}
        }
    }
    None
}

/// The first value of the cell from a dimension on, with its dimension.
pub(crate) fn next_value(cell: &Cell, from: u8) -> Option<(u8, Code)>
    requires { from ≤ length cell.now }
    ensures entry { result ≡ next_entry from cell.now }
    ensures none { IfNone result (trees.next_value nat_cmp from cell.now ≡ length cell.now) }
    ensures some { IfSome result (λ next. trees.next_value nat_cmp from cell.now ≡ next.0) }
    ensures value { IfSome result (λ next. slice_get cell.now next.0 ≡ Some (Some next.1)) }
    ensures within { IfSome result (λ next. next.0 < length cell.now) }
    ensures small { IfSome result (λ next. IsCode next.1) }
{
    'dims: for dim in from..cell.dims() {
        if let Entry::Is(code) = cell.get(dim) {
            return Some((dim, code));
        }
    }
    None
}

/// Whether the cell has the value in the dimension.
pub(crate) fn has(cell: &Cell, dim: u8, code: Code) -> bool
    requires { dim < length cell.now }
    ensures { result ≡ is_value (slice_index_or cell.now dim None) code }
{
    match cell.get(dim) {
        Entry::Any => false,
        Entry::Is(other) => other == code,
    }
}
