// Values of aggregates before they are reduced to lowest terms.
ghost use Rattle.std.specs.Prelude.{◌≡◌, ◌<◌, ◌≤◌, ◌*◌, ◌^◌, ◌*ℤ◌, pos};
ghost use Rattle.std.specs.Ordering.{int_cmp};
ghost use Rattle.cube_defs.specs.Rows.{lowest_terms};
ghost use Rattle.aggregates.specs.Quotients.{IsDivisor, IsQuotient, unit_of};
ghost use Rattle.aggregates.specs.Views.{IsThere, ratio_in};

use crate::value::{lowest, order_of, part_at, power_of_ten};
use crate::{Agg, AggKind, Ratio};
use cube_defs::MAX_SCALE;
use std::cmp::Ordering;

/// The value of a kind as a number and a divisor: the number of rows for the mean, else 1. It isn't
/// in lowest terms, so it is quick to make and to compare.
#[derive(Clone, Copy)]
pub struct Quotient {
    pub num: i64,
    pub den: u32,
    pub ghost in_range: { IsDivisor den },
}

// A number over 1.
fn whole(num: i64) -> Quotient
    ensures num { result.num ≡ num }
    ensures den { result.den ≡ 1 }
{
    Quotient { num, den: 1 }
}

// How many units of the last digit make one of the measure's units; 1 for a count.
fn unit(kind: AggKind, scale: u8) -> u64
    requires { scale ≤ MAX_SCALE }
    ensures value { result ≡ unit_of kind scale }
    ensures positive { 0 < result }
    ensures small { result ≤ 10 ^ MAX_SCALE }
{
    match kind {
        AggKind::Count => 1,
        AggKind::Sum(_) => power_of_ten(scale),
        AggKind::Least(_) => power_of_ten(scale),
        AggKind::Greatest(_) => power_of_ten(scale),
        AggKind::Mean(_) => power_of_ten(scale),
    }
}

impl Quotient {
    /// The value of the kind, in units of the last digit of its measure.
    pub fn of(agg: &Agg, kind: AggKind) -> Quotient
        requires { IsThere agg.now.measures kind }
        ensures { IsQuotient kind agg.now result.num result.den }
    {
        match kind {
            AggKind::Count => whole(i64::from(agg.count)),
            AggKind::Sum(measure) => whole(part_at(agg, measure).sum),
            AggKind::Least(measure) => whole(part_at(agg, measure).least),
            AggKind::Greatest(measure) => whole(part_at(agg, measure).greatest),
            AggKind::Mean(measure) => Quotient {
                num: part_at(agg, measure).sum,
                den: agg.count,
            },
        }
    }

    /// The value in the measure's unit, in lowest terms.
    pub fn in_lowest_terms(self, kind: AggKind, scale: u8) -> Ratio
        requires { scale ≤ MAX_SCALE }
        ensures { ratio_in result ≡ lowest_terms self.num (self.den * unit_of kind scale) }
    {
        lowest(self.num, u64::from(self.den) * unit(kind, scale))
    }

    /// The order by value of two quotients of one kind.
    pub fn order(self, other: Quotient) -> Ordering
        ensures { result ≡ int_cmp (self.num *ℤ pos other.den) (other.num *ℤ pos self.den) }
    {
        order_of(
            self.num,
            u64::from(self.den),
            other.num,
            u64::from(other.den),
        )
    }
}
