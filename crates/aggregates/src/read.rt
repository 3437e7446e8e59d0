// Numbers as they are read.
ghost use Rattle.std.specs.Prelude.{◌≡◌, ◌<◌, ◌≤◌, ◌+◌, ◌*◌, ◌^◌, length, pos, IfSome, MatchOption};
ghost use Rattle.std.specs.Option.{option_map};
ghost use Rattle.aggregates.specs.Numbers.{amount_in, digit_prefix, fraction_written, id_in, magnitude_in, number, places_in, point_tail, positive_fraction, fraction_tail, slash_tail, tail_in};
ghost use Rattle.aggregates.specs.Views.{fraction_in};

use crate::Fraction;
use crate::value::power_of_ten;
use cube_defs::{MAX_AMOUNT, MAX_SCALE};

/// The id of a row: one or more digits.
pub fn read_id(text: &[u8]) -> Option<u64>
    ensures { result ≡ id_in text.now }
{
    let digits = leading_digits(text)?;
    if digits.len == 0 || digits.len < text.len() {
        return None;
    }
    Some(digits.value)
}

/// An amount, in units of the scale's last digit.
pub fn read_amount(text: &[u8], scale: u8) -> Option<i64>
    requires { scale ≤ MAX_SCALE }
    ensures { result ≡ amount_in scale text.now }
{
    match text {
        [b'-', rest @ ..] => Some(-(read_magnitude(rest, scale)? as i64)),
        [b'+', rest @ ..] => Some(read_magnitude(rest, scale)? as i64),
        _ => Some(read_magnitude(text, scale)? as i64),
    }
}

fn read_magnitude(text: &[u8], scale: u8) -> Option<u64>
    requires { scale ≤ MAX_SCALE }
    ensures value { result ≡ magnitude_in scale text.now }
    ensures small { IfSome result (λ n. n ≤ MAX_AMOUNT) }
{
    let whole = leading_digits(text)?;
    if whole.len == 0 || whole.value > MAX_AMOUNT {
        return None;
    }
    let units = whole.value * power_of_ten(scale) + read_tail(&text[whole.len..], scale)?;
    if units > MAX_AMOUNT {
        return None;
    }
    Some(units)
}

fn read_tail(text: &[u8], scale: u8) -> Option<u64>
    requires { scale ≤ MAX_SCALE }
    ensures value { result ≡ tail_in scale text.now }
    ensures small { IfSome result (λ n. n ≤ 10 ^ MAX_SCALE) }
{
    match text {
        [] => Some(0),
        [b'.', places @ ..] => read_places(places, scale),
        _ => None,
    }
}

// The digits after the point. Those after the scale's last digit are all 0.
fn read_places(text: &[u8], scale: u8) -> Option<u64>
    requires { scale ≤ MAX_SCALE }
    ensures value { result ≡ places_in scale text.now }
    ensures small { IfSome result (λ n. n ≤ 10 ^ MAX_SCALE) }
{
    if text.is_empty() {
        return None;
    }
    let mut value = 0;
    let mut unit = power_of_ten(scale);
    'places: for byte in text {
        if !byte.is_ascii_digit() {
            return None;
        }
        unit /= 10;
        let digit = u64::from(*byte - b'0');
        if unit == 0 && digit != 0 {
            return None;
        }
        value += digit * unit;
    }
    Some(value)
}

/// A fraction as it is written, not reduced.
pub fn read_fraction(text: &[u8]) -> Option<Fraction>
    ensures { option_map fraction_in result ≡ fraction_written text.now }
{
    match text {
        [b'-', rest @ ..] => {
            let fraction = read_positive(rest)?;
            Some(Fraction {
                num: -fraction.num,
                den: fraction.den,
            })
        }
        _ => read_positive(text),
    }
}

fn read_positive(text: &[u8]) -> Option<Fraction>
    ensures { option_map fraction_in result ≡ positive_fraction text.now }
{
    let whole = leading_digits(text)?;
    if whole.len == 0 || whole.len > 18 {
        return None;
    }
    read_fraction_tail(whole.value, &text[whole.len..])
}

fn read_fraction_tail(whole: u64, text: &[u8]) -> Option<Fraction>
    requires { whole < 10 ^ 18 }
    ensures { option_map fraction_in result ≡ fraction_tail whole text.now }
{
    match text {
        [] => Some(Fraction {
            num: i128::from(whole),
            den: 1,
        }),
        [b'.', places @ ..] => read_decimal(whole, places),
        [b'/', digits @ ..] => read_quotient(whole, digits),
        _ => None,
    }
}

fn read_decimal(whole: u64, places: &[u8]) -> Option<Fraction>
    requires { whole < 10 ^ 18 }
    ensures { option_map fraction_in result ≡ point_tail whole places.now }
{
    if places.len() > usize::from(MAX_SCALE) {
        return None;
    }
    let value = read_id(places)?;
    let den = power_of_ten(places.len() as u8);
    Some(Fraction {
        num: numerator(whole, den, value),
        den,
    })
}

fn numerator(whole: u64, den: u64, value: u64) -> i128
    requires { whole * den + value < 10 ^ 24 }
    ensures { result ≡ pos (whole * den + value) }
{
    i128::from(whole) * i128::from(den) + i128::from(value)
}

fn read_quotient(whole: u64, digits: &[u8]) -> Option<Fraction>
    requires { whole < 10 ^ 18 }
    ensures { option_map fraction_in result ≡ slash_tail whole digits.now }
{
    if digits.len() > 18 {
        return None;
    }
    let den = read_id(digits)?;
    if den == 0 {
        return None;
    }
    Some(Fraction {
        num: i128::from(whole),
        den,
    })
}

#[derive(Clone, Copy)]
struct Digits {
    value: u64,
    len: usize,
}

// The number that the first digits write, and how many they are, unless the number is too large.
fn leading_digits(text: &[u8]) -> Option<Digits>
    ensures { MatchOption result (2 ^ 64 ≤ number (digit_prefix text.now))
        (λ d. (d.value ≡ number (digit_prefix text.now))
        × (d.len ≡ length (digit_prefix text.now))) }
{
    let mut value: u64 = 0;
    let mut len = 0;
    'digits: for byte in text {
        if !byte.is_ascii_digit() {
            break;
        }
        value = value.checked_mul(10)?.checked_add(u64::from(*byte - b'0'))?;
        len += 1;
    }
    Some(Digits { value, len })
}
