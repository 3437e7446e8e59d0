// A value as a field.
ghost use Rattle.std.specs.Prelude.{OnOk, false, true, ◌++◌, ◌∷◌, ◌≡◌};
ghost use Rattle.std.specs.List.{flat_map, list_any};
ghost use Rattle.reply_text.specs.Replies.{doubled, is_marked, quoted, value_text, wants_quotes};

use cell_core::Memory;

// Whether a value would be read as Any, as several values, or without its first byte.
fn is_special(value: &[u8]) -> bool
    ensures { result ≡ is_marked value.now }
{
    matches!(value, b"*" | b"?" | [b'|' | b'~' | b'=', ..])
}

fn needs_quotes(value: &[u8]) -> bool
    ensures { result ≡ list_any wants_quotes value.now }
{
    value
        .iter()
        .any(|b| *b == b',' || *b == b'"' || *b == b'\r' || *b == b'\n')
}

// A byte, twice if it is a quote.
fn push_byte(out: &mut Vec<u8>, b: u8) -> Result<(), Memory>
    ensures { OnOk result (out.new.items ≡ out.old.items ++ doubled b) }
{
    if b == b'"' {
        out.extend_from_slice(b"\"\"")?;
        return Ok(());
    }
    out.push(b)?;
    Ok(())
}

// The bytes of a value, with each quote doubled.
fn push_doubled(out: &mut Vec<u8>, value: &[u8]) -> Result<(), Memory>
    ensures { OnOk result (out.new.items ≡ out.old.items ++ flat_map doubled value.now) }
{
    for b in value {
        push_byte(out, *b)?;
    }
    Ok(())
}

// A value in quotes, with a comma before it.
fn push_quoted(out: &mut Vec<u8>, value: &[u8]) -> Result<(), Memory>
    requires { list_any wants_quotes value.now ≡ true }
    ensures { OnOk result (out.new.items ≡ out.old.items ++ 44 ∷ quoted (value_text value.now)) }
{
    out.extend_from_slice(b",\"")?;
    if is_special(value) {
        out.push(b'=')?;
    }
    push_doubled(out, value)?;
    out.push(b'"')?;
    Ok(())
}

// A value as it stands, with a comma before it.
fn push_plain(out: &mut Vec<u8>, value: &[u8]) -> Result<(), Memory>
    requires { list_any wants_quotes value.now ≡ false }
    ensures { OnOk result (out.new.items ≡ out.old.items ++ 44 ∷ quoted (value_text value.now)) }
{
    out.push(b',')?;
    if is_special(value) {
        out.push(b'=')?;
    }
    out.extend_from_slice(value)?;
    Ok(())
}

/// Appends a value, with a comma before it. It has `=` or quotes if it would be read as something
/// else without them.
pub fn push_value(out: &mut Vec<u8>, value: &[u8]) -> Result<(), Memory>
    ensures { OnOk result (out.new.items ≡ out.old.items ++ 44 ∷ quoted (value_text value.now)) }
{
    if needs_quotes(value) {
        push_quoted(out, value)
    } else {
        push_plain(out, value)
    }
}
