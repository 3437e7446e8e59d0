// Fractions: the values of aggregates, and the values that queries compare them with.
ghost use Rattle.aggregates.specs.Bounds.{IsRatio, IsFraction};

use crate::value::order_of;
use std::cmp::Ordering;

/// The value of an aggregate, in lowest terms. Ratios are ordered by value.
#[derive(Clone, Copy)]
pub struct Ratio {
    pub num: i64,
    pub den: u64,
    pub ghost lowest: { IsRatio num den },
}

/// A fraction that values are compared with. It needn't be in lowest terms.
#[derive(Clone, Copy)]
pub struct Fraction {
    pub num: i128,
    pub den: u64,
    pub ghost in_range: { IsFraction num den },
}

impl PartialEq for Ratio {
    ghost use Rattle.std.specs.Cmp.{partial_equiv_from_equiv, eq_by_cmp_equiv};
    ghost use Rattle.std.specs.Ordering.{eq_by_cmp};
    ghost use Rattle.aggregates.specs.Order.{ratio_cmp, ratio_total};

    ghost eq = { eq_by_cmp ratio_cmp };

    ghost laws = { partial_equiv_from_equiv (eq_by_cmp_equiv ratio_total) };

    fn eq(&self, other: &Ratio) -> bool {
        self.cmp(other).is_eq()
    }
}

impl Eq for Ratio {
    ghost use Rattle.std.specs.Cmp.{eq_by_cmp_equiv};
    ghost use Rattle.aggregates.specs.Order.{ratio_total};

    ghost laws = { eq_by_cmp_equiv ratio_total };
}

impl PartialOrd for Ratio {
    ghost use Rattle.std.specs.Prelude.{refl};
    ghost use Rattle.std.specs.Cmp.{partial_order_from_agreeing_total};
    ghost use Rattle.std.specs.Ordering.{as_partial_cmp};
    ghost use Rattle.aggregates.specs.Order.{ratio_cmp, ratio_total};

    ghost partial_cmp = { as_partial_cmp ratio_cmp };

    ghost laws = { partial_order_from_agreeing_total ratio_cmp ratio_total (λ x y. refl)
        (λ x y. refl) };

    fn partial_cmp(&self, other: &Ratio) -> Option<Ordering> {
        Some(self.cmp(other))
    }
}

impl Ord for Ratio {
    ghost use Rattle.std.specs.Prelude.{refl};
    ghost use Rattle.aggregates.specs.Order.{ratio_cmp, ratio_total};

    ghost cmp = { ratio_cmp };

    ghost total = { ratio_total };

    ghost matches_partial_cmp = { λ x y. refl };

    ghost matches_eq = { λ x y. refl };

    fn cmp(&self, other: &Ratio) -> Ordering {
        order_of(self.num, self.den, other.num, other.den)
    }
}
