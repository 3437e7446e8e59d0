// The aggregate of the rows of one tuple.
ghost use Rattle.std.specs.Prelude.{All, IfSome, None, Some, false, length, nat_abs, nat_eq, slice_index_or, true, ℕ, ◌<◌, ◌≡◌, ◌≤◌};
ghost use Rattle.std.specs.Option.{option_map};
ghost use Rattle.aggregates.specs.Rows.{agg_of_row};
ghost use Rattle.aggregates.specs.Views.{agg_in};
ghost use Rattle.cube_defs.specs.Cell.{cell_eq, cell_of};
ghost use Rattle.cube_defs.specs.Rows.{Row};
ghost use Rattle.cube_laws.specs.Total.{join_aggs};
ghost use Rattle.base_table.specs.Last.{picked};
ghost use Rattle.base_table.specs.Places.{IsRow, total_of, with_tuple};
ghost use Rattle.base_table.specs.Store.{added};

use crate::store::Store;
use aggregates::Agg;
use cell_core::Cell;
use cube_defs::{MAX_AMOUNT, MAX_MEASURES, MAX_ROWS};

// The aggregate with one more row.
fn with_row(sum: Option<Agg>, amounts: &[i64]) -> Agg
    requires four { length amounts.now ≤ MAX_MEASURES }
    requires measures { IfSome sum (λ agg. agg.measures ≡ length amounts.now) }
    requires small { All (λ a. nat_abs a ≤ MAX_AMOUNT) amounts.now }
    requires few { IfSome sum (λ agg. agg.count < MAX_ROWS) }
    ensures aggregate { Some (agg_in result) ≡ join_aggs (option_map agg_in sum)
        (Some (agg_of_row amounts.now)) }
    ensures measures { result.measures ≡ length amounts.now }
{
    match sum {
        None => Agg::one(amounts),
        Some(agg) => {
            let mut more = agg;
            more.add_row(amounts);
            more
        }
    }
}

// The aggregate with the row at a place, if it is present and has the tuple.
fn with_place(
    store: &Store,
    here: &Vec<bool>,
    place: u32,
    tuple: &Cell,
    sum: Option<Agg>,
) -> Option<Agg>
    requires place { place < length here.now.items }
    requires places { length store.now.rows ≡ length here.now.items }
    requires dims { length tuple.now ≡ store.now.dims }
    requires measures { IfSome sum (λ agg. agg.measures ≡ store.now.measures) }
    requires few { slice_index_or here.now.items place false ≡ true → (d : Row ℕ) →
        cell_eq nat_eq (cell_of (slice_index_or store.now.rows place d).tuple) tuple.now ≡ true
        → IfSome sum (λ agg. agg.count < MAX_ROWS) }
    ensures aggregate { (d : Row ℕ)
        → option_map agg_in result ≡ join_aggs (option_map agg_in sum)
        (added here.now.items store.now.rows tuple.now place d) }
    ensures measures { IfSome result (λ agg. agg.measures ≡ store.now.measures) }
{
    if !here[place as usize] || !store.has_tuple(place, tuple) {
        return sum;
    }
    Some(with_row(sum, store.amounts(place)))
}

// The aggregate of the present rows that have exactly this tuple. Only rows that share the tuple's
// fingerprint are read.
pub(crate) fn group_in(store: &Store, here: &Vec<bool>, tuple: &Cell) -> Option<Agg>
    requires places { length store.now.rows ≡ length here.now.items }
    requires few { length (picked here.now.items store.now.rows) ≤ MAX_ROWS }
    requires each { All (IsRow store.now.dims store.now.measures) store.now.rows }
    requires dims { length tuple.now ≡ store.now.dims }
    ensures value { option_map agg_in result ≡ total_of store.now.measures
        (with_tuple (picked here.now.items store.now.rows) tuple.now) }
    ensures measures { IfSome result (λ agg. agg.measures ≡ store.now.measures) }
{
    let mut at = store.last_with_fingerprint(tuple);
    let mut sum = None;
    'rows: while at > 0 {
        sum = with_place(store, here, at - 1, tuple, sum);
        at = store.previous_with_fingerprint(at - 1);
    }
    sum
}
