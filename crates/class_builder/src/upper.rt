// The values that the rows of a part share.
ghost use Rattle.std.specs.Prelude.{IfNone, IfSome, None, false, is_some, length, slice_index_or, suc, true, ◌<◌, ◌≡◌, ◌≤◌};
ghost use Rattle.cube_defs.specs.Cell.{cell_prefix};
ghost use Rattle.cell_core.specs.Entry.{IsSmall, value_in};
ghost use Rattle.base_table.specs.Places.{named};
ghost use Rattle.cube_laws.specs.Parting.{shared_by};
ghost use Rattle.build_trace.specs.Walk.{same_prefix};

use crate::part::Group;
use cell_closure::{SomeRows, SortedRows, shared_entry};
use cell_core::{Cell, Entry};
use std::alloc::Global;

/// The value that the group's rows share in the dimension, or Any.
fn entry_of(group: &Group<'_>, dim: u8) -> Entry
    requires { dim < group.now.table.now.dims }
    ensures value { value_in result ≡ slice_index_or
        (shared_by (named group.now.table.now group.now.rows.now)) dim None }
    ensures small { IsSmall result }
{
    match group.upper.get(dim) {
        Entry::Is(code) => Entry::Is(code),
        Entry::Any => {
            let rows = SomeRows {
                table: group.table,
                numbers: group.rows,
            };
            shared_entry(&rows, dim)
        }
    }
}

/// Whether the group's rows share a value in the dimension, and `upper` has Any there. A single row
/// isn't read: most groups have only one.
fn gains(group: &Group<'_>, dim: u8) -> bool
    requires { dim < group.now.table.now.dims }
    ensures same { result ≡ false →
        slice_index_or (shared_by (named group.now.table.now group.now.rows.now)) dim None
        ≡ slice_index_or group.now.upper.now dim None }
    ensures other { result ≡ true →
        slice_index_or (shared_by (named group.now.table.now group.now.rows.now)) dim None
        ≡ slice_index_or group.now.upper.now dim None → ⊥ }
{
    match group.upper.get(dim) {
        Entry::Is(_) => return false,
        Entry::Any => {}
    }
    if group.rows.len() == 1 {
        return true;
    }
    let rows = SomeRows {
        table: group.table,
        numbers: group.rows,
    };
    match shared_entry(&rows, dim) {
        Entry::Is(_) => true,
        Entry::Any => false,
    }
}

/// The first dimension before the group's in which its rows share a value and `upper` has Any. None
/// if there is no such dimension.
pub(crate) fn first_new_value(group: &Group<'_>) -> Option<u8>
    ensures none { IfNone result (same_prefix group.now.dim
        (shared_by (named group.now.table.now group.now.rows.now)) group.now.upper.now ≡ true) }
    ensures before { IfSome result (λ at. at < group.now.dim) }
    ensures front { IfSome result (λ at. same_prefix at
        (shared_by (named group.now.table.now group.now.rows.now)) group.now.upper.now ≡ true) }
    ensures gains { IfSome result (λ at. same_prefix (suc at)
        (shared_by (named group.now.table.now group.now.rows.now)) group.now.upper.now ≡ false) }
{
    'dims: for i in 0..group.dim {
        if gains(group, i) {
            return Some(i);
        }
    }
    None
}

/// The values that all the rows share. It reads a dimension at a time, until two codes differ.
pub(crate) fn closure_of_all(alloc: Global, rows: &SomeRows<'_, SortedRows>) -> Cell
    ensures { result ≡ shared_by (named rows.now.table.now rows.now.numbers.now) }
{
    let table = rows.table;
    let mut shared = Cell::any(alloc, table.dims());
    'dims: for dim in 0..table.dims() {
        shared.set(dim, shared_entry(rows, dim));
    }
    shared
}

/// Makes a copy of `upper` the closure of the group's rows. Before the group's dimension they share
/// no more than `upper` has.
pub(crate) fn close(group: &Group<'_>, shared: &mut Cell)
    requires upper { shared.old ≡ group.now.upper.now }
    requires front { same_prefix group.now.dim
        (shared_by (named group.now.table.now group.now.rows.now)) group.now.upper.now ≡ true }
    ensures { shared.new ≡ shared_by (named group.now.table.now group.now.rows.now) }
{
    let table = group.table;
    let dim = group.dim;
    shared.set(dim, Entry::Is(table.code(group.rows[0], dim)));
    'dims: for i in dim + 1..table.dims() {
        let entry = entry_of(group, i);
        shared.set(i, entry);
    }
}

/// The prefix through the group's dimension of what its rows share. Before dimension `at` they
/// share no more than `upper` has. The later entries are those of `upper`.
pub(crate) fn shared_prefix(group: &Group<'_>, at: u8) -> Cell
    requires at { at ≤ group.now.dim }
    requires front { same_prefix at
        (shared_by (named group.now.table.now group.now.rows.now)) group.now.upper.now ≡ true }
    ensures front { cell_prefix (suc group.now.dim) result ≡ cell_prefix (suc group.now.dim)
        (shared_by (named group.now.table.now group.now.rows.now)) }
    ensures dims { length result ≡ group.now.table.now.dims }
{
    let mut front = group.upper.copy();
    'dims: for i in at..group.dim + 1 {
        let entry = entry_of(group, i);
        front.set(i, entry);
    }
    front
}
