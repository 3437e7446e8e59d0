// Numbers as they are printed.
ghost use Rattle.std.specs.Prelude.{◌≡◌, ◌+◌, ◌<◌, ◌≤◌, ◌/◌, ◌^◌, ◌++◌, ◌∷◌, decimal, drop, length, take};
ghost use Rattle.aggregates.specs.Texts.{amount_text, last_digits, places_text, ratio_text, sign_text};
ghost use Rattle.aggregates.specs.Views.{ratio_in};

use crate::Ratio;
use crate::value::power_of_ten;
use cube_defs::MAX_SCALE;
use itoa::Buffer;

/// A whole number. The text is put at the beginning of `out`, and its length is returned.
pub fn print_number(value: u64, out: &mut [u8]) -> usize
    requires { 48 ≤ length out.old }
    ensures text { out.new ≡ decimal value ++ drop result out.old }
    ensures len { result ≡ length (decimal value) }
{
    put_number(value, out, 0)
}

/// An amount in units of the scale's last digit. The text is put at the beginning of `out`, and its
/// length is returned.
pub fn print_amount(value: i64, scale: u8, out: &mut [u8]) -> usize
    requires room { 48 ≤ length out.old }
    requires scale { scale ≤ MAX_SCALE }
    ensures text { out.new ≡ amount_text scale value ++ drop result out.old }
    ensures len { result ≡ length (amount_text scale value) }
{
    let magnitude = value.unsigned_abs();
    let sign = put_sign(value, out);
    let whole = put_number(magnitude / power_of_ten(scale), out, sign);
    put_places(magnitude, scale, out, whole)
}

/// A fraction. The text is put at the beginning of `out`, and its length is returned.
pub fn print_ratio(value: &Ratio, out: &mut [u8]) -> usize
    requires { 48 ≤ length out.old }
    ensures text { out.new ≡ ratio_text (ratio_in value.now) ++ drop result out.old }
    ensures len { result ≡ length (ratio_text (ratio_in value.now)) }
{
    let num = put(Buffer::new().format(value.num).as_bytes(), out, 0);
    let slash = put(b"/", out, num);
    put_number(value.den, out, slash)
}

// Puts the text at `at`, and returns the place of its end.
fn put(text: &[u8], out: &mut [u8], at: usize) -> usize
    requires { at + length text.now ≤ length out.old }
    ensures end { result ≡ at + length text.now }
    ensures text { out.new ≡ take at out.old ++ text.now ++ drop result out.old }
{
    let end = at + text.len();
    out[at..end].copy_from_slice(text);
    end
}

fn put_number(value: u64, out: &mut [u8], at: usize) -> usize
    requires { at + 20 ≤ length out.old }
    ensures end { result ≡ at + length (decimal value) }
    ensures text { out.new ≡ take at out.old ++ decimal value ++ drop result out.old }
    ensures short { result ≤ at + 20 }
{
    put(Buffer::new().format(value).as_bytes(), out, at)
}

// A minus at the beginning, if the value is negative.
fn put_sign(value: i64, out: &mut [u8]) -> usize
    requires { 1 ≤ length out.old }
    ensures end { result ≡ length (sign_text value) }
    ensures text { out.new ≡ sign_text value ++ drop result out.old }
    ensures short { result ≤ 1 }
{
    if value >= 0 {
        return 0;
    }
    out[0] = b'-';
    1
}

// A point and as many digits as the scale, if it isn't 0.
fn put_places(value: u64, scale: u8, out: &mut [u8], at: usize) -> usize
    requires room { at + 7 ≤ length out.old }
    requires scale { scale ≤ MAX_SCALE }
    ensures end { result ≡ at + length (places_text scale value) }
    ensures text { out.new ≡ take at out.old ++ places_text scale value ++ drop result out.old }
{
    if scale == 0 {
        return at;
    }
    let point = put(b".", out, at);
    put_digits(value, scale, out, point)
}

// The last so many digits, written from the last to the first.
fn put_digits(value: u64, count: u8, out: &mut [u8], at: usize) -> usize
    requires room { at + count ≤ length out.old }
    ensures end { result ≡ at + count }
    ensures text { out.new ≡ take at out.old ++ last_digits count value ++ drop result out.old }
{
    let end = at + usize::from(count);
    let mut left = value;
    let mut place = end;
    'digits: while place > at {
        place -= 1;
        out[place] = b'0' + (left % 10) as u8;
        left /= 10;
    }
    end
}
