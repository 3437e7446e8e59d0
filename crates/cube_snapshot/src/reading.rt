// The parts of a snapshot, read from the beginning of some bytes.
ghost use Rattle.std.specs.Int.{w32, w64};
ghost use Rattle.std.specs.Option.{option_map};
ghost use Rattle.std.specs.Prelude.{IfSome, length, nat_abs, ◌≡◌, ◌≤◌};
ghost use Rattle.cube_snapshot.specs.Format.{byte, number};
ghost use Rattle.cube_snapshot.specs.Parts.{amount, text};

use cube_defs::{MAX_AMOUNT, MAX_TEXT};

/// A number of four bytes, and the bytes after it.
pub(crate) fn u32_at(bytes: &[u8]) -> Option<(u32, &[u8])>
    ensures { option_map (λ x. (x.0, x.1.now)) result ≡ (number w32).get bytes.now }
{
    if bytes.len() < 4 {
        return None;
    }
    let (front, rest) = bytes.split_at(4);
    let value = u32::from_be_bytes([front[0], front[1], front[2], front[3]]);
    Some((value, rest))
}

/// A number of eight bytes, and the bytes after it.
pub(crate) fn u64_at(bytes: &[u8]) -> Option<(u64, &[u8])>
    ensures { option_map (λ x. (x.0, x.1.now)) result ≡ (number w64).get bytes.now }
{
    if bytes.len() < 8 {
        return None;
    }
    let (front, rest) = bytes.split_at(8);
    let value = u64::from_be_bytes([
        front[0], front[1], front[2], front[3], front[4], front[5], front[6], front[7],
    ]);
    Some((value, rest))
}

fn byte_at(bytes: &[u8]) -> Option<(u8, &[u8])>
    ensures { option_map (λ x. (x.0, x.1.now)) result ≡ byte.get bytes.now }
{
    match bytes {
        [] => None,
        [first, rest @ ..] => Some((*first, rest)),
    }
}

/// An amount in two's complement, and the bytes after it.
pub(crate) fn amount_at(bytes: &[u8]) -> Option<(i64, &[u8])>
    ensures read { option_map (λ x. (x.0, x.1.now)) result ≡ amount.get bytes.now }
    ensures small { IfSome result (λ x. nat_abs x.0 ≤ MAX_AMOUNT) }
{
    let (bits, rest) = u64_at(bytes)?;
    let value = bits.cast_signed();
    if value.unsigned_abs() > MAX_AMOUNT {
        return None;
    }
    Some((value, rest))
}

/// The bytes of a text after its length, and the bytes after them.
pub(crate) fn text_at(bytes: &[u8]) -> Option<(&[u8], &[u8])>
    ensures read { option_map (λ x. (x.0.now, x.1.now)) result ≡ text.get bytes.now }
    ensures short { IfSome result (λ x. length x.0.now ≤ MAX_TEXT) }
{
    let (len, rest) = byte_at(bytes)?;
    let len = len as usize;
    if rest.len() < len {
        return None;
    }
    Some(rest.split_at(len))
}
