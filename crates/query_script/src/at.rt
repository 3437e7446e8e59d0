// The name of a pin, and the query of its rows.
ghost use Rattle.std.specs.Prelude.{◌≡◌};
ghost use Rattle.cell_core.specs.Gives.{Gives};
ghost use Rattle.query_script.specs.Commands.{asked_with, at_in, is_pin_name, pin_name_in};
ghost use Rattle.query_script.specs.Faults.{line_fault_in};
ghost use Rattle.query_script.specs.Questions.{Pin, Unpin, question_in};

use crate::line::{Command, LineRefused};
use crate::part::Part;
use crate::query::read_query_line;
use cell_core::Text;
use qc_schema::{Schema, is_good_name};
use std::alloc::Global;

// Whether a pin may have this name: it is a name of the grammar, or `op`.
fn may_name_pin(name: &str) -> bool
    ensures { result ≡ is_pin_name name.now }
{
    is_good_name(name.as_bytes()) || name == "op"
}

// Reads the name of a pin.
fn read_pin_name(alloc: Global, name: &str) -> Result<Text, LineRefused>
    ensures { Gives line_fault_in (λ name. name) result (pin_name_in name.now) }
{
    if !may_name_pin(name) {
        return Err(LineRefused::Field(1));
    }
    Ok(Text::new(alloc, name)?)
}

/// Reads what follows the word `pin`.
pub(crate) fn read_pin(alloc: Global, rest: &str) -> Result<Command, LineRefused>
    ensures { Gives line_fault_in question_in result (asked_with Pin (pin_name_in rest.now)) }
{
    match read_pin_name(alloc, rest) {
        Ok(name) => Ok(Command::Pin(name)),
        Err(cause) => Err(cause),
    }
}

/// Reads what follows the word `unpin`.
pub(crate) fn read_unpin(alloc: Global, rest: &str) -> Result<Command, LineRefused>
    ensures { Gives line_fault_in question_in result (asked_with Unpin (pin_name_in rest.now)) }
{
    match read_pin_name(alloc, rest) {
        Ok(name) => Ok(Command::Unpin(name)),
        Err(cause) => Err(cause),
    }
}

/// Reads what follows the word `at`.
pub(crate) fn read_at(alloc: Global, schema: &Schema, rest: &Part) -> Result<Command, LineRefused>
    ensures { Gives line_fault_in question_in result (at_in schema.now rest.now.text.now) }
{
    let (name, line) = rest.split();
    let name = read_pin_name(alloc, name)?;
    Ok(Command::At(name, read_query_line(alloc, schema, &line)?))
}
