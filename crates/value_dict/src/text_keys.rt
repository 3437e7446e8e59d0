// The hash of texts, under drawn keys.
ghost use Rattle.std.specs.Prelude.{length, slice_index_or, ◌<◌, ◌≡◌, ◌≤◌};
ghost use Rattle.value_dict.specs.Hashing.{coefficient, step, value_of};

use cell_core::HashKeys;
use std::hash::{BuildHasher, Hasher};

/// The largest prime below 2^32.
const PRIME: u64 = 4_294_967_291;

/// Makes the low and the high bits of a hash depend on all of its value.
const SPREAD: u64 = 0x9e37_79b9_7f4a_7c15;

/// So many bytes of a text make one coefficient.
const PIECE: usize = 3;

/// This byte is written after each text. It is in no text.
const END: u8 = 255;

/// The hash of a text: the value of a polynomial at a drawn multiplier, modulo a prime. It has a
/// coefficient for each piece of three bytes, and one for the bytes that are left. Two texts share
/// a value under at most as many multipliers as the longer one has pieces (Carter and Wegman,
/// 1979). So whoever doesn't know the multiplier can hardly choose two texts that share a value.
/// Only the text that was written last counts.
#[derive(Clone, Copy)]
pub(crate) struct TextHasher {
    value: u32,
    multiplier: u32,
}

// A byte of a piece. It is zero after the piece's end.
fn byte_at(piece: &[u8], place: usize) -> u32
    ensures value { result ≡ slice_index_or piece.now place 0 }
    ensures small { result < 256 }
{
    match piece.get(place) {
        None => 0,
        Some(byte) => u32::from(*byte),
    }
}

// The coefficient of a piece: the number whose bytes are those of the piece and then its length.
fn coefficient(piece: &[u8]) -> u32
    requires { length piece.now ≤ 3 }
    ensures { result ≡ coefficient piece.now }
{
    byte_at(piece, 0)
        + 256 * byte_at(piece, 1)
        + 65_536 * byte_at(piece, 2)
        + 16_777_216 * piece.len() as u32
}

// The value of the polynomial with one more coefficient.
fn step(multiplier: u32, value: u32, coefficient: u32) -> u32
    ensures { result ≡ step multiplier value coefficient }
{
    ((u64::from(value) * u64::from(multiplier) + u64::from(coefficient)) % PRIME) as u32
}

// The value of a text's polynomial.
fn value_of(multiplier: u32, text: &[u8]) -> u32
    ensures { result ≡ value_of multiplier text.now }
{
    if text.len() <= PIECE {
        return coefficient(text);
    }
    let mut value = coefficient(&text[..PIECE]);
    let mut at = PIECE;
    'pieces: while text.len() - at > PIECE {
        value = step(multiplier, value, coefficient(&text[at..at + PIECE]));
        at += PIECE;
    }
    step(multiplier, value, coefficient(&text[at..]))
}

impl Hasher for TextHasher {
    ghost use Rattle.value_dict.specs.Hashing.{write, finish};

    ghost write = { write };

    ghost finish = { finish };

    fn finish(&self) -> u64 {
        (u64::from(self.value) * u64::from(self.multiplier)).wrapping_mul(SPREAD)
    }

    fn write(&mut self, bytes: &[u8]) {
        if bytes.len() == 1 && bytes[0] == END {
            return;
        }
        self.value = value_of(self.multiplier, bytes);
    }
}

/// What makes a hasher for each text of a dictionary.
#[derive(Clone, Copy)]
pub(crate) struct TextKeys {
    multiplier: u32,
}

impl TextKeys {
    /// The multiplier that the keys determine.
    pub(crate) fn of(keys: HashKeys) -> TextKeys {
        TextKeys {
            multiplier: keys.number(),
        }
    }
}

impl BuildHasher for TextKeys {
    type Hasher = TextHasher;

    ghost build_hasher = { λ keys. record { value = 0; multiplier = keys.multiplier } };

    fn build_hasher(&self) -> TextHasher {
        TextHasher {
            value: 0,
            multiplier: self.multiplier,
        }
    }
}
