// Numbers as they are read and printed, and what rows come to.
ghost use Rattle.std.specs.Prelude.{◌≡◌};
ghost use Rattle.aggregates.specs.Views.{IsThere};

use aggregates::{
    Agg, AggKind, Part, Ratio, compare, mean, print_amount, print_number, print_ratio, read_amount,
    read_fraction, read_id, value_of,
};
use std::cmp::Ordering;

static IDS: [(&[u8], Option<u64>); 13] = [
    (b"7", Some(7)),
    (b"007", Some(7)),
    (b"0", Some(0)),
    (b"18446744073709551615", Some(18446744073709551615)),
    (b"00018446744073709551615", Some(18446744073709551615)),
    (b"0000000000000000000000000000000000000000", Some(0)),
    (b"18446744073709551616", None),
    (b"99999999999999999999", None),
    (b"", None),
    (b"+7", None),
    (b"-7", None),
    (b" 7", None),
    (b"7x", None),
];

static AMOUNTS: [(&[u8], u8, Option<i64>); 28] = [
    (b"6.5", 2, Some(650)),
    (b"6.50", 2, Some(650)),
    (b"+6.500", 2, Some(650)),
    (b"6", 2, Some(600)),
    (b"6.00", 2, Some(600)),
    (b"-0.07", 2, Some(-7)),
    (b"-0", 0, Some(0)),
    (b"0.000001", 6, Some(1)),
    (b"0.0000001", 6, None),
    (b"0.0000010", 6, Some(1)),
    (b"12.0", 0, Some(12)),
    (b"12.5", 0, None),
    (b"999999999999", 0, Some(999_999_999_999)),
    (b"-999999999999", 0, Some(-999_999_999_999)),
    (b"1000000000000", 0, None),
    (b"-1000000000000", 0, None),
    (b"9999999999.99", 2, Some(999_999_999_999)),
    (b"10000000000.00", 2, None),
    (b"000000000000000000000000000000000000000000009", 0, Some(9)),
    (b"0000000000000000000000000000000000000000", 6, Some(0)),
    (b"18446744073709551617", 0, None),
    (b".5", 2, None),
    (b"6.", 2, None),
    (b"1e3", 2, None),
    (b"1,000", 2, None),
    (b"", 2, None),
    (b"+", 2, None),
    (b"+-1", 2, None),
];

static FRACTIONS: [(&[u8], Option<(i128, u64)>); 20] = [
    (b"5", Some((5, 1))),
    (b"-5", Some((-5, 1))),
    (b"-0", Some((0, 1))),
    (b"2.50", Some((250, 100))),
    (b"-0.000001", Some((-1, 1_000_000))),
    (b"6/4", Some((6, 4))),
    (b"-6/004", Some((-6, 4))),
    (
        b"999999999999999999.999999",
        Some((999_999_999_999_999_999_999_999, 1_000_000)),
    ),
    (
        b"999999999999999999/999999999999999999",
        Some((999_999_999_999_999_999, 999_999_999_999_999_999)),
    ),
    (b"1000000000000000000", None),
    (b"0.0000001", None),
    (b"1/1000000000000000000", None),
    (b"1/0", None),
    (b"1/000", None),
    (b"1/", None),
    (b"1.", None),
    (b".5", None),
    (b"+5", None),
    (b"1.5/2", None),
    (b"", None),
];

static PRINTED: [(i64, u8, &[u8]); 7] = [
    (-7, 2, b"-0.07"),
    (650, 2, b"6.50"),
    (0, 0, b"0"),
    (0, 6, b"0.000000"),
    (-12, 0, b"-12"),
    (999_999_999_999, 6, b"999999.999999"),
    (-1_000_000_000_000_000_000, 2, b"-10000000000000000.00"),
];

// A fraction, and how 999999.999999 compares to it.
static ORDERS: [(&[u8], Ordering); 4] = [
    (b"999999.999999", Ordering::Equal),
    (b"999999.999998", Ordering::Greater),
    (b"999999999999999999/999999999999", Ordering::Less),
    (b"-999999999999999999.999999", Ordering::Greater),
];

fn are_ids_read() -> bool {
    'cases: for (text, id) in &IDS {
        if read_id(*text) != *id {
            return false;
        }
    }
    true
}

fn are_amounts_read() -> bool {
    'cases: for (text, scale, amount) in &AMOUNTS {
        if *scale > 6 || read_amount(*text, *scale) != *amount {
            return false;
        }
    }
    true
}

fn is_fraction_read(text: &[u8], parts: Option<(i128, u64)>) -> bool {
    match read_fraction(text) {
        Some(f) => parts == Some((f.num, f.den)),
        None => parts.is_none(),
    }
}

fn are_fractions_read() -> bool {
    'cases: for (text, parts) in &FRACTIONS {
        if !is_fraction_read(*text, *parts) {
            return false;
        }
    }
    true
}

// Whether so many first bytes are there, and are the text.
fn starts_with(out: &[u8], len: usize, text: &[u8]) -> bool {
    len <= out.len() && &out[..len] == text
}

fn is_amount_printed(amount: i64, scale: u8, text: &[u8]) -> bool {
    if scale > 6 {
        return false;
    }
    let mut out = [b'x'; 48];
    let len = print_amount(amount, scale, &mut out);
    starts_with(&out, len, text)
}

fn are_amounts_printed() -> bool {
    'cases: for (amount, scale, text) in &PRINTED {
        if !is_amount_printed(*amount, *scale, *text) {
            return false;
        }
    }
    true
}

fn is_number_printed(number: u64, text: &[u8]) -> bool {
    let mut out = [b'x'; 48];
    let len = print_number(number, &mut out);
    starts_with(&out, len, text)
}

fn is_ratio_printed(ratio: &Ratio, text: &[u8]) -> bool {
    let mut out = [b'x'; 48];
    let len = print_ratio(ratio, &mut out);
    starts_with(&out, len, text)
}

fn is_part(part: Part, sum: i64, least: i64, greatest: i64) -> bool {
    part.sum == sum && part.least == least && part.greatest == greatest
}

// Whether the value of a kind of what rows come to is printed so.
fn is_value(agg: &Agg, kind: AggKind, text: &[u8]) -> bool
    requires { IsThere agg.now.measures kind }
{
    is_ratio_printed(&value_of(agg, kind, 2), text)
}

fn are_values(agg: &Agg) -> bool
    requires { agg.now.measures ≡ 1 }
{
    is_ratio_printed(&mean(agg, 0, 2), b"-17/10")
        && is_value(agg, AggKind::Count, b"3/1")
        && is_value(agg, AggKind::Sum(0), b"-51/10")
        && is_value(agg, AggKind::Least(0), b"-12/1")
        && is_value(agg, AggKind::Greatest(0), b"6/1")
        && is_value(agg, AggKind::Mean(0), b"-17/10")
}

// The rows with the amounts 600, -1200 and 90, added up.
fn are_three_rows_added() -> bool {
    let mut agg = Agg::one(&[600]);
    agg.add_row(&[-1200]);
    agg.combine(&Agg::one(&[90]));
    if agg.count != 3 || agg.measures != 1 {
        return false;
    }
    is_part(agg.parts[0], -510, -1200, 600) && agg.parts[1].sum == 0 && are_values(&agg)
}

fn is_order(text: &[u8], order: Ordering) -> bool {
    let agg = Agg::one(&[999_999_999_999]);
    let value = value_of(&agg, AggKind::Sum(0), 6);
    match read_fraction(text) {
        Some(f) => compare(&value, &f) == order,
        None => false,
    }
}

fn are_ordered() -> bool {
    'cases: for (text, order) in &ORDERS {
        if !is_order(*text, *order) {
            return false;
        }
    }
    true
}

/// Whether numbers are read and printed as they should be, added up, and compared without rounding.
pub(crate) fn are_right() -> bool {
    are_ids_read()
        && are_amounts_read()
        && are_fractions_read()
        && are_amounts_printed()
        && is_number_printed(18446744073709551615, b"18446744073709551615")
        && are_three_rows_added()
        && are_ordered()
}
