// Sorting of keys.
ghost use Rattle.std.specs.List.{All};
ghost use Rattle.std.specs.List.Sorted.{IsPermutation, IsSorted};
ghost use Rattle.std.specs.Prelude.{true, vec_len, ◌≡◌};
ghost use Rattle.measure_index.specs.ColumnKeys.{key_cmp};

use crate::key::Key;

// Whether all keys are whole numbers.
fn are_whole(keys: &[Key]) -> bool
    ensures { result ≡ true → All (λ k. k.den ≡ 1) keys.now }
{
    keys.iter().all(|key| key.den == 1)
}

/// Sorts keys in place. Only the keys of means aren't whole numbers. Whole numbers are compared as
/// they are, which is faster than by products.
pub(crate) fn sort_keys(keys: &mut Vec<Key>)
    ensures permutation { IsPermutation keys.old.items keys.new.items }
    ensures sorted { IsSorted key_cmp keys.new.items }
    ensures len { vec_len keys.new ≡ vec_len keys.old }
{
    if are_whole(keys) {
        keys.sort_unstable_by(|a, b| a.compare_numbers(b));
    } else {
        keys.sort_unstable_by(|a, b| a.compare_products(b));
    }
}
