// Whether a class stays when the row is deleted.
ghost use Rattle.std.specs.Prelude.{IfSome, None, Some, false, length, slice_get, true, ℕ, ◌+◌, ◌<◌, ◌≡◌};
ghost use Rattle.std.specs.Option.{option_copied};
ghost use Rattle.batch_delete.specs.DeletedRow.{CanSettle};
ghost use Rattle.batch_delete.specs.Rests.{Deletion, IsRest, rows_after};

use crate::cells::has;
use crate::deleted_row::Class;
use crate::parts::Rest;
use crate::subtracting::{agg_without_row, are_told};
use aggregates::Agg;
use cell_core::{Cell, Entry};

/// The values that some rows of a class share, beside the class's cell and the deleted tuple. All
/// three are as wide.
#[derive(Drop)]
struct Shared<'a> {
    tuple: &'a Cell,
    cell: &'a Cell,
    values: &'a Cell,
    ghost tuple_wide: { length tuple.now ≡ length cell.now },
    ghost values_wide: { length values.now ≡ length cell.now },
}

// Whether some rows of a class share a value in the dimension where the class has Any, other than
// the tuple's.
fn is_new(shared: &Shared<'_>, dim: u8) -> bool
    requires { dim < length shared.now.cell.now }
    ensures { result ≡ false → (v : ℕ) → slice_get shared.now.cell.now dim ≡ Some None
        → slice_get shared.now.values.now dim ≡ Some (Some v) →
        slice_get shared.now.tuple.now dim ≡ Some (Some v) }
{
    match shared.cell.get(dim) {
        Entry::Is(_) => false,
        Entry::Any => match shared.values.get(dim) {
            Entry::Any => false,
            Entry::Is(code) => !has(shared.tuple, dim, code),
        },
    }
}

// Whether all values that some rows of a class share, beyond the class's own, are the tuple's.
fn is_settled(shared: &Shared<'_>) -> bool
    ensures { result ≡ true → (k v : ℕ) → slice_get shared.now.cell.now k ≡ Some None
        → slice_get shared.now.values.now k ≡ Some (Some v) →
        slice_get shared.now.tuple.now k ≡ Some (Some v) }
{
    'dims: for dim in 0..shared.cell.dims() {
        if is_new(shared, dim) {
            return false;
        }
    }
    true
}

// Whether these are all rows of the class but one.
fn are_all_but_one(some: &Rest, whole: &Option<Agg>) -> bool
    ensures { result ≡ true → (agg : Agg) × (whole.now ≡ Some agg)
        × (some.now.agg.count + 1 ≡ agg.count) }
{
    match whole {
        None => false,
        Some(agg) => some.agg.count + 1 == agg.count,
    }
}

/// The rest of a class, if some of its rows settle it. They do if they are all rows but the deleted
/// one. They also do if they show that the class stays, and its aggregate without the row is known.
pub(crate) fn settled(class: &Class<'_>, some: Option<&Rest>) -> Option<Rest>
    ghost d: { Deletion }
    requires { CanSettle d class.now (option_copied some) }
    ensures rest { IfSome result
        (λ rest. IsRest d.measures (rows_after d) class.now.cell.now (Some rest)) }
{
    let Some(rest) = some else {
        return None;
    };
    if are_all_but_one(rest, &class.whole) {
        return Some(rest.copy());
    }
    let shared = Shared {
        tuple: class.row.tuple,
        cell: class.cell,
        values: &rest.shared,
    };
    if !is_settled(&shared) {
        return None;
    }
    let Some(whole) = &class.whole else {
        return None;
    };
    let Some(gone) = &class.row.all else {
        return None;
    };
    if !are_told(whole, gone) {
        return None;
    }
    Some(Rest {
        shared: class.cell.copy(),
        agg: agg_without_row(class.row, class.cell, whole, gone),
    })
}
