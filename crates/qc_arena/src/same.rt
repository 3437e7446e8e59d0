// Comparing aggregates.
ghost use Rattle.std.specs.Prelude.{false, length, slice_index_or, true, ℕ, ◌<◌, ◌≡◌, ◌≢◌, ◌≤◌};
ghost use Rattle.aggregates.specs.Bounds.{zero_part};
ghost use Rattle.aggregates.specs.Views.{agg_in, part_in};

use aggregates::{Agg, Part};
use cube_defs::MAX_MEASURES;

fn same_part(a: Part, b: Part) -> bool
    ensures same { result ≡ true → part_in a ≡ part_in b }
    ensures other { result ≡ false → part_in a ≢ part_in b }
{
    a.sum == b.sum && a.least == b.least && a.greatest == b.greatest
}

fn same_parts(
    a: &[Part; MAX_MEASURES as usize],
    b: &[Part; MAX_MEASURES as usize],
    measures: u8,
) -> bool
    requires { measures ≤ MAX_MEASURES }
    ensures same { result ≡ true → (k : ℕ) → k < measures →
        part_in (slice_index_or a.now k zero_part) ≡ part_in (slice_index_or b.now k zero_part) }
    ensures other { result ≡ false → (k : ℕ) × (k < measures)
        × (part_in (slice_index_or a.now k zero_part)
        ≢ part_in (slice_index_or b.now k zero_part)) }
    ensures four_a { length a.now ≡ MAX_MEASURES }
    ensures four_b { length b.now ≡ MAX_MEASURES }
{
    'parts: for k in 0..usize::from(measures) {
        if !same_part(a[k], b[k]) {
            return false;
        }
    }
    true
}

/// Whether two classes have the same aggregate.
pub(crate) fn same_agg(a: &Agg, b: &Agg) -> bool
    ensures same { result ≡ true → agg_in a.now ≡ agg_in b.now }
    ensures other { result ≡ false → agg_in a.now ≢ agg_in b.now }
{
    if a.count != b.count {
        return false;
    }
    let same = same_parts(&a.parts, &b.parts, a.measures);
    if a.measures != b.measures {
        return false;
    }
    same
}
