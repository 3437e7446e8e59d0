// The keys by which an index is sorted.
ghost use Rattle.std.specs.Prelude.{nat_abs, pos, ◌*ℤ◌, ◌*◌, ◌<◌, ◌^◌, ◌≡◌};
ghost use Rattle.std.specs.Ordering.{int_cmp, nat_cmp, ordering_then};
ghost use Rattle.aggregates.specs.Quotients.{IsDivisor};

use std::cmp::Ordering;

/// The value of a class as a number and its divisor, with the number of its node. Keys are ordered
/// by value and then by number. A key isn't in lowest terms, so it is quick to make, and it is
/// smaller than an entry.
#[derive(Clone, Copy)]
pub struct Key {
    pub num: i64,
    pub den: u32,
    pub node: u32,
    pub ghost in_range: { IsDivisor den },
}

// A number times a divisor.
fn times(num: i128, den: u64) -> i128
    requires { nat_abs num * den < 2 ^ 127 }
    ensures { result ≡ num *ℤ pos den }
{
    num * i128::from(den)
}

// The order of two values, and of their nodes where the values are equal.
fn order_of(value: i128, other_value: i128, node: u32, other_node: u32) -> Ordering
    ensures { result ≡ ordering_then (int_cmp value other_value) (nat_cmp node other_node) }
{
    if value == other_value {
        node.cmp(&other_node)
    } else {
        value.cmp(&other_value)
    }
}

impl PartialEq for Key {
    ghost use Rattle.std.specs.Cmp.{partial_equiv_from_equiv, eq_by_cmp_equiv};
    ghost use Rattle.std.specs.Ordering.{eq_by_cmp};
    ghost use Rattle.measure_index.specs.ColumnKeys.{key_cmp, key_total};

    ghost eq = { eq_by_cmp key_cmp };

    ghost laws = { partial_equiv_from_equiv (eq_by_cmp_equiv key_total) };

    fn eq(&self, other: &Key) -> bool {
        self.cmp(other).is_eq()
    }
}

impl Eq for Key {
    ghost use Rattle.std.specs.Cmp.{eq_by_cmp_equiv};
    ghost use Rattle.measure_index.specs.ColumnKeys.{key_total};

    ghost laws = { eq_by_cmp_equiv key_total };
}

impl PartialOrd for Key {
    ghost use Rattle.std.specs.Prelude.{refl};
    ghost use Rattle.std.specs.Cmp.{partial_order_from_agreeing_total};
    ghost use Rattle.std.specs.Ordering.{as_partial_cmp};
    ghost use Rattle.measure_index.specs.ColumnKeys.{key_cmp, key_total};

    ghost partial_cmp = { as_partial_cmp key_cmp };

    ghost laws = { partial_order_from_agreeing_total key_cmp key_total (λ x y. refl)
        (λ x y. refl) };

    fn partial_cmp(&self, other: &Key) -> Option<Ordering> {
        Some(self.cmp(other))
    }
}

impl Ord for Key {
    ghost use Rattle.std.specs.Prelude.{refl};
    ghost use Rattle.measure_index.specs.ColumnKeys.{key_cmp, key_total};

    ghost cmp = { key_cmp };

    ghost total = { key_total };

    ghost matches_partial_cmp = { λ x y. refl };

    ghost matches_eq = { λ x y. refl };

    // Keys with equal divisors are compared by their numbers, without products.
    fn cmp(&self, other: &Key) -> Ordering {
        if self.den == other.den {
            self.compare_numbers(other)
        } else {
            self.compare_products(other)
        }
    }
}

impl Key {
    ghost use Rattle.std.specs.Prelude.{◌≡◌};
    ghost use Rattle.std.specs.Ordering.{int_cmp, is_lt, nat_cmp, ordering_then};
    ghost use Rattle.measure_index.specs.ColumnKeys.{key_cmp};

    /// The same as `cmp` for keys with equal divisors. Most numbers differ, so a sort seldom reads
    /// the nodes.
    pub(crate) fn compare_numbers(&self, other: &Key) -> Ordering
        ensures { result ≡ ordering_then (int_cmp self.now.num other.now.num)
            (nat_cmp self.now.node other.now.node) }
    {
        if self.num == other.num {
            self.node.cmp(&other.node)
        } else {
            self.num.cmp(&other.num)
        }
    }

    // The same as `is_before` for keys with equal divisors.
    fn has_smaller_number(&self, other: &Key) -> bool
        ensures { result ≡ is_lt (ordering_then (int_cmp self.now.num other.now.num)
            (nat_cmp self.now.node other.now.node)) }
    {
        self.num < other.num || self.num == other.num && self.node < other.node
    }

    /// Whether the key is smaller. A search asks no more, and this takes fewer instructions than
    /// `cmp`.
    pub(crate) fn is_before(&self, other: &Key) -> bool
        ensures { result ≡ is_lt (key_cmp self.now other.now) }
    {
        if self.den == other.den {
            self.has_smaller_number(other)
        } else {
            self.compare_products(other).is_lt()
        }
    }

    /// The same as `cmp`. The products are always computed. A test for equal divisors would be a
    /// branch that a sort of means mispredicts.
    pub(crate) fn compare_products(&self, other: &Key) -> Ordering
        ensures { result ≡ key_cmp self.now other.now }
    {
        let value = times(i128::from(self.num), u64::from(other.den));
        let other_value = times(i128::from(other.num), u64::from(self.den));
        order_of(value, other_value, self.node, other.node)
    }
}
