// A new dimension.
ghost use Rattle.std.specs.Prelude.{◌≡◌};
ghost use Rattle.cell_core.specs.Gives.{Gives};
ghost use Rattle.query_script.specs.Faults.{line_fault_in};
ghost use Rattle.query_script.specs.Lines.{rest_of, word_of};
ghost use Rattle.query_script.specs.Questions.{question_in};
ghost use Rattle.query_script.specs.Widens.{has_value, widen_in};

use crate::line::{Command, LineRefused};
use crate::part::split_command;
use cell_core::Text;
use cube_defs::MAX_TEXT;
use qc_schema::Schema;
use std::alloc::Global;

// Whether a space ends the name, and what follows it is short enough.
fn has_short_value(rest: &str, name: &str, value: &str) -> bool
    requires name { name.now ≡ word_of rest.now }
    requires value { value.now ≡ rest_of rest.now }
    ensures { result ≡ has_value rest.now }
{
    name.len() < rest.len() && value.len() <= MAX_TEXT
}

/// Reads what follows the word `widen`.
pub(crate) fn read_widen(alloc: Global, schema: &Schema, rest: &str) -> Result<Command, LineRefused>
    ensures { Gives line_fault_in question_in result (widen_in schema.now rest.now) }
{
    let (name, value) = split_command(rest);
    if !schema.may_name(name.as_bytes()) {
        return Err(LineRefused::Field(1));
    }
    if !has_short_value(rest, name, value) {
        return Err(LineRefused::Field(2));
    }
    Ok(Command::Widen(Text::new(alloc, name)?, Text::new(alloc, value)?))
}
