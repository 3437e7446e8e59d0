// Values of aggregates, as fractions in lowest terms.
ghost use Rattle.std.specs.Prelude.{◌≡◌, ◌<◌, ◌≤◌, ◌*◌, ◌^◌, ◌*ℤ◌, pos, nat_abs, int_div};
ghost use Rattle.std.specs.Ordering.{int_cmp};
ghost use Rattle.cube_defs.specs.Answers.{fraction_cmp, part, value_of as value_in};
ghost use Rattle.cube_defs.specs.Rows.{gcd, lowest_terms, mean_of};
ghost use Rattle.aggregates.specs.Views.{IsThere, agg_in, fraction_in, kind_in, part_in, ratio_in};

use crate::{Agg, AggKind, Fraction, Part, Quotient, Ratio};
use cube_defs::MAX_SCALE;
use std::cmp::Ordering;

/// The mean of a measure, in the measure's unit.
pub fn mean(agg: &Agg, measure: u8, scale: u8) -> Ratio
    requires there { measure < agg.now.measures }
    requires scale { scale ≤ MAX_SCALE }
    ensures { ratio_in result ≡ mean_of (part (agg_in agg.now) measure) agg.now.count scale }
{
    lowest(
        part_at(agg, measure).sum,
        u64::from(agg.count) * power_of_ten(scale),
    )
}

/// The value of the kind, in the measure's unit. A count has no unit.
pub fn value_of(agg: &Agg, kind: AggKind, scale: u8) -> Ratio
    requires there { IsThere agg.now.measures kind }
    requires scale { scale ≤ MAX_SCALE }
    ensures { ratio_in result ≡ value_in (kind_in kind) scale (agg_in agg.now) }
{
    Quotient::of(agg, kind).in_lowest_terms(kind, scale)
}

/// The order of a value and a fraction, by value, without rounding.
pub fn compare(a: &Ratio, b: &Fraction) -> Ordering
    ensures { result ≡ fraction_cmp (ratio_in a.now) (fraction_in b.now) }
{
    cross(i128::from(a.num), b.den).cmp(&cross(b.num, a.den))
}

pub(crate) fn cross(num: i128, den: u64) -> i128
    requires { nat_abs num * den < 2 ^ 127 }
    ensures { result ≡ num *ℤ pos den }
{
    num * i128::from(den)
}

/// The order of two fractions by value. Over one denominator it is that of their numerators.
pub(crate) fn order_of(num: i64, den: u64, other_num: i64, other_den: u64) -> Ordering
    requires positive { 0 < den }
    ensures { result ≡ int_cmp (num *ℤ pos other_den) (other_num *ℤ pos den) }
{
    if den == other_den {
        return num.cmp(&other_num);
    }
    cross(i128::from(num), other_den).cmp(&cross(i128::from(other_num), den))
}

pub(crate) fn part_at(agg: &Agg, measure: u8) -> Part
    requires { measure < agg.now.measures }
    ensures { part_in result ≡ part (agg_in agg.now) measure }
{
    agg.parts[usize::from(measure)]
}

pub(crate) fn power_of_ten(scale: u8) -> u64
    requires scale { scale ≤ MAX_SCALE }
    ensures value { result ≡ 10 ^ scale }
    ensures positive { 0 < result }
    ensures small { result ≤ 10 ^ MAX_SCALE }
{
    match scale {
        0 => 1,
        1 => 10,
        2 => 100,
        3 => 1000,
        4 => 10_000,
        5 => 100_000,
        _ => 1_000_000,
    }
}

pub(crate) fn lowest(num: i64, den: u64) -> Ratio
    requires positive { 0 < den }
    requires small { den ≤ 10 ^ 12 }
    ensures { ratio_in result ≡ lowest_terms num den }
{
    let divisor = greatest_common_divisor(num.unsigned_abs(), den);
    // Divisions are slow, and many values are in lowest terms already.
    if divisor == 1 {
        return Ratio { num, den };
    }
    Ratio {
        num: divided(num, divisor),
        den: den / divisor,
    }
}

fn divided(num: i64, divisor: u64) -> i64
    requires positive { 0 < divisor }
    requires small { divisor ≤ 10 ^ 12 }
    ensures { result ≡ int_div num (pos divisor) }
{
    num / divisor as i64
}

// By Euclid's rule.
fn greatest_common_divisor(first: u64, second: u64) -> u64
    ensures value { result ≡ gcd first second }
    ensures positive { 0 < second → 0 < result }
    ensures small { 0 < second → result ≤ second }
{
    let mut a = first;
    let mut b = second;
    'euclid: while b > 0 {
        let rest = a % b;
        a = b;
        b = rest;
    }
    a
}
