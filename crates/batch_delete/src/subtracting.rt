// Aggregates without some of their rows, if they follow without a look at each row.
ghost use Rattle.std.specs.Option.{option_map};
ghost use Rattle.std.specs.Ordering.{eq_by_cmp, nat_cmp};
ghost use Rattle.std.specs.Prelude.{IfSome, Some, length, nat_abs, true, ◌*◌, ◌+◌, ◌<◌, ◌^◌, ◌≡◌, ◌≤◌};
ghost use Rattle.aggregates.specs.Views.{agg_in, part_in};
ghost use Rattle.cube_defs.specs.Rows as defs;
ghost use Rattle.cube_laws.specs.Total.{agg_at, combine, combine_part, join_aggs};
ghost use Rattle.batch_delete.specs.DeletedRow.{IsClassNode, IsDeletedRow};
ghost use Rattle.batch_delete.specs.Told.{AreTold, IsTold};
ghost use Rattle.batch_delete.specs.Rests.{Deletion, rows_after, rows_before};

use crate::deleted_row::DeletedRow;
use crate::generalizing::NodeCell;
use aggregates::{Agg, Part};
use cell_core::{Cell, Steps};
use cube_defs::{MAX_AMOUNT, MAX_ROWS};
use qc_arena::{Nodes, QcArena};
use std::sync::ledger::Ledger;

// Whether a measure without some of its rows is told. It isn't if these have its MIN or its MAX, or
// if the sum is too large for so many rows.
fn is_told(whole: &Part, part: &Part, count: u32) -> bool
    requires whole { nat_abs whole.now.sum ≤ 10 ^ 18 }
    requires part { nat_abs part.now.sum ≤ 10 ^ 18 }
    requires count { count ≤ MAX_ROWS }
    ensures { result ≡ true → IsTold whole.now part.now count }
{
    if whole.least >= part.least || whole.greatest <= part.greatest {
        return false;
    }
    let sum = whole.sum - part.sum;
    sum.unsigned_abs() <= count as u64 * MAX_AMOUNT
}

/// Whether the aggregate of some rows without others of them is told by both. It isn't if these
/// have the MIN or the MAX of any measure.
pub(crate) fn are_told(whole: &Agg, part: &Agg) -> bool
    ensures { result ≡ true → AreTold whole.now part.now }
{
    if whole.measures != part.measures || whole.count <= part.count {
        return false;
    }
    let count = whole.count - part.count;
    'parts: for k in 0..whole.measures as usize {
        if !is_told(&whole.parts[k], &part.parts[k], count) {
            return false;
        }
    }
    true
}

// A measure without some of its rows.
fn measure_without_part(whole: &Part, part: &Part, count: u32) -> Part
    requires whole { nat_abs whole.now.sum ≤ 10 ^ 18 }
    requires part { nat_abs part.now.sum ≤ 10 ^ 18 }
    requires told { IsTold whole.now part.now count }
    ensures rest { (o : defs.Part) → combine_part (part_in part.now) o ≡ part_in whole.now
        → part_in result ≡ o }
    ensures small { nat_abs result.sum ≤ count * MAX_AMOUNT }
{
    Part {
        sum: whole.sum - part.sum,
        least: whole.least,
        greatest: whole.greatest,
    }
}

// The aggregate of some rows without others of them.
fn without_part(whole: &Agg, part: &Agg) -> Agg
    requires { AreTold whole.now part.now }
    ensures { (o : defs.Agg) → length o.parts ≡ length (agg_in part.now).parts
        → combine (agg_in part.now) o ≡ agg_in whole.now → agg_in result ≡ o }
{
    let count = whole.count - part.count;
    let mut parts = whole.parts;
    'parts: for k in 0..part.measures as usize {
        parts[k] = measure_without_part(&whole.parts[k], &part.parts[k], count);
    }
    Agg {
        count,
        measures: whole.measures,
        parts,
    }
}

/// The aggregate of both groups of rows.
pub(crate) fn combined(mut some: Agg, others: Agg) -> Agg
    requires parts { length (agg_in others).parts ≡ length (agg_in some).parts }
    requires few { some.count + others.count ≤ MAX_ROWS }
    ensures agg { agg_in result ≡ combine (agg_in some) (agg_in others) }
    ensures parts { length (agg_in result).parts ≡ length (agg_in others).parts }
{
    some.combine(&others);
    some
}

// Joins the rows of a group, which may be empty, to others.
fn add_twins(duplicates: &Option<Agg>, others: &mut Agg)
    requires parts { IfSome duplicates.now
        (λ agg. length (agg_in others.old).parts ≡ length (agg_in agg).parts) }
    requires few { IfSome duplicates.now (λ agg. agg.count + others.old.count ≤ MAX_ROWS) }
    ensures { Some (agg_in others.new) ≡ join_aggs (option_map agg_in duplicates.now)
        (Some (agg_in others.old)) }
{
    match duplicates {
        None => {}
        Some(twins) => *others = combined(*twins, *others),
    }
}

/// The aggregate of a class without the row, where that of all rows of the row's tuple tells it.
pub(crate) fn agg_without_row(row: &DeletedRow<'_>, cell: &Cell, whole: &Agg, gone: &Agg) -> Agg
    ghost d: { Deletion }
    requires row { IsDeletedRow d row.now }
    requires below { defs.covers (eq_by_cmp nat_cmp) cell.now d.r ≡ true }
    requires whole { Some (agg_in whole.now) ≡ agg_at (eq_by_cmp nat_cmp) d.measures
        (rows_before d) cell.now }
    requires gone { row.now.all ≡ Some gone.now }
    requires told { AreTold whole.now gone.now }
    ensures { Some (agg_in result) ≡ agg_at (eq_by_cmp nat_cmp) d.measures (rows_after d)
        cell.now }
{
    let mut agg = without_part(whole, gone);
    add_twins(&row.duplicates, &mut agg);
    agg
}
