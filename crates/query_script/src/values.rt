// A field that stands for several values.
ghost use Rattle.std.specs.Prelude.{◌≡◌, ◌≤◌, ◌<◌, ◌+◌, ◌++◌, length, IfOk};
ghost use Rattle.text_lines.specs.Cuts.{cut_at};
ghost use Rattle.query_script.specs.Fields.{between_of, several_of};

use crate::part::Part;
use cell_core::{Field, Memory, Text, Texts};
use std::alloc::Global;

// The texts with `|` between them.
fn read_list(alloc: Global, list: &Part) -> Result<Texts, Memory>
    ensures { IfOk result (λ texts. texts ≡ cut_at 124 list.now.text.now) }
{
    let mut texts = Texts::new(alloc);
    let mut left = list.text;
    'pieces: while let Some((piece, behind)) = left.split_once('|') {
        texts.push(Text::new(alloc, piece)?)?;
        left = behind;
    }
    texts.push(Text::new(alloc, left)?)?;
    Ok(texts)
}

// The values between two texts with one `~` between them.
fn read_between(alloc: Global, ends: &str) -> Result<Option<Field>, Memory>
    ensures { IfOk result (λ asked. asked ≡ between_of (cut_at 126 ends.now)) }
{
    let Some((low, high)) = ends.split_once('~') else {
        return Ok(None);
    };
    if high.split_once('~').is_some() {
        return Ok(None);
    }
    Ok(Some(Field::Between(Text::new(alloc, low)?, Text::new(alloc, high)?)))
}

/// What a field asks that is `?`, or begins with `|` or `~`, if it is allowed.
pub(crate) fn read_several(alloc: Global, field: &Part) -> Result<Option<Field>, Memory>
    ensures { IfOk result (λ asked. asked ≡ several_of field.now.text.now) }
{
    if let Some(text) = field.text.strip_prefix('|') {
        return Ok(Some(Field::Among(read_list(alloc, &Part { text })?)));
    }
    match field.text.strip_prefix('~') {
        Some(ends) => read_between(alloc, ends),
        None => Ok(Some(Field::All)),
    }
}
