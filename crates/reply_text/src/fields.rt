// Fields of a record.
ghost use Rattle.std.specs.Prelude.{OnOk, decimal, ◌++◌, ◌∷◌, ◌≡◌};
ghost use Rattle.reply_text.specs.Replies.{end_text};

use cell_core::Memory;
use itoa::Buffer;

/// Appends a field, with a comma before it.
#[inline(always)]
pub fn push_field(out: &mut Vec<u8>, field: &[u8]) -> Result<(), Memory>
    ensures { OnOk result (out.new.items ≡ out.old.items ++ 44 ∷ field.now) }
{
    out.push(b',')?;
    out.extend_from_slice(field)?;
    Ok(())
}

/// Appends a number, with a comma before it.
pub fn push_number(out: &mut Vec<u8>, number: u64) -> Result<(), Memory>
    ensures { OnOk result (out.new.items ≡ out.old.items ++ 44 ∷ decimal number) }
{
    push_field(out, Buffer::new().format(number).as_bytes())
}

/// Appends the last record of a reply with so many entries.
pub fn push_end(out: &mut Vec<u8>, line: u32, count: u64) -> Result<(), Memory>
    ensures { OnOk result (out.new.items ≡ out.old.items ++ end_text line count) }
{
    out.extend_from_slice(b"end")?;
    push_number(out, u64::from(line))?;
    push_number(out, count)?;
    out.push(b'\n')?;
    Ok(())
}
