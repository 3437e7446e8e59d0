// The names and numbers in a schema.
ghost use Rattle.std.specs.Prelude.{◌≡◌, ◌≤◌, length, option_map, Some, None, if◌then◌else◌};
ghost use Rattle.std.specs.List.{list_all};
ghost use Rattle.std.specs.Str.Parse.{digits_value};
ghost use Rattle.std.specs.Str.{all_ascii_digits};
ghost use Rattle.qc_schema.specs.Grammar.{limit_in, scale_in};
ghost use Rattle.qc_schema.specs.Schema.{is_name, is_name_byte};
ghost use Rattle.cell_core.specs.Gives.{Gives};
ghost use Rattle.qc_schema.specs.Progress.{cause_in};

use crate::refusal::{SchemaCause, SchemaLineRefused};
use cube_defs::MAX_SCALE;

fn has_name_bytes(word: &[u8]) -> bool
    ensures { result ≡ list_all is_name_byte word.now }
{
    word.iter().all(|b| b.is_ascii_alphanumeric() || *b == b'_')
}

/// Whether the word is a name.
pub fn is_good_name(word: &[u8]) -> bool
    ensures { result ≡ is_name word.now }
{
    if word.is_empty() || word.len() > 32 || word == b"op".as_slice() {
        return false;
    }
    word[0].is_ascii_alphabetic() && has_name_bytes(word)
}

/// The word, if it is a name.
pub fn name_in(word: &[u8]) -> Option<&str>
    ensures { option_map (λ s. s.now) result ≡ (if is_name word.now then Some word.now else None) }
{
    if !is_good_name(word) {
        return None;
    }
    str::from_utf8(word).ok()
}

// The number that at most 7 digits write.
fn short_number(word: &[u8]) -> Option<u32>
    requires { length word.now ≤ 7 }
    ensures { result ≡ (if all_ascii_digits word.now
        then Some (digits_value 10 word.now) else None) }
{
    let mut value: u32 = 0;
    for digit in word {
        if !digit.is_ascii_digit() {
            return None;
        }
        value = value * 10 + (*digit - b'0') as u32;
    }
    Some(value)
}

/// The scale that a word writes.
pub fn read_scale(word: &[u8]) -> Result<u8, SchemaLineRefused>
    ensures { Gives cause_in (λ n. n) result (scale_in word.now) }
{
    if word.len() == 1
        && let Some(value) = short_number(word)
        && value <= u32::from(MAX_SCALE)
    {
        return Ok(value as u8);
    }
    Err(SchemaLineRefused::Cause(SchemaCause::Number))
}

/// The limit that a word writes, from 1 to the most.
pub fn read_limit(most: u32, word: &[u8]) -> Result<u32, SchemaLineRefused>
    ensures { Gives cause_in (λ n. n) result (limit_in most word.now) }
{
    if word.is_empty() || word.len() > 7 {
        return Err(SchemaLineRefused::Cause(SchemaCause::Number));
    }
    match short_number(word) {
        Some(value) if 1 <= value && value <= most => Ok(value),
        _ => Err(SchemaLineRefused::Cause(SchemaCause::Number)),
    }
}
