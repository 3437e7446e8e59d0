// A line of a script.
ghost use Rattle.std.specs.Prelude.{◌≡◌, ◌≤◌, true, length, IfOk, IfErr};
ghost use Rattle.std.specs.Str.{bytes_eq};
ghost use Rattle.query_script.specs.Commands.{IsQuestion, asked_with, command_in, command_named, name_in, query_named, wants_memory};
ghost use Rattle.cell_core.specs.Gives.{Gives};
ghost use Rattle.query_script.specs.Faults.{line_fault_in};
ghost use Rattle.query_script.specs.Questions.{Ask, question_in};
ghost use Rattle.query_script.specs.Lines.{may_want_memory, names_more, names_query, stats_line};

use crate::at::{read_at, read_pin, read_unpin};
use crate::part::Part;
use crate::query::{Query, read_query};
use crate::widen::read_widen;
use cell_core::Text;
use cube_defs::MAX_FILE;
use qc_schema::Schema;
use std::alloc::{AllocError, Global};

/// A line of a script, read.
#[derive(Drop)]
pub enum Command {
    /// Load the base file of this name.
    Load(Text),
    /// Apply the batch of this name.
    Apply(Text),
    /// A dry run of the batch of this name.
    Try(Text),
    /// Add a last dimension of this name, in which each row has the value.
    Widen(Text, Text),
    /// Pin the present rows under this name.
    Pin(Text),
    /// Drop the pin of this name.
    Unpin(Text),
    /// Answer a query of the rows of the pin of this name.
    At(Text, Query),
    /// Answer a query of the present rows.
    Ask(Query),
}

/// Why a line is no command.
#[derive(Clone, Copy, PartialEq)]
pub enum LineRefused {
    /// The line isn't UTF-8.
    Utf8,
    /// The first word is no command.
    Command,
    /// The field at this place, counted from 1, is missing, isn't allowed or is one too many.
    Field(u32),
    /// A value is no number.
    Number,
    /// Memory ran out.
    Memory,
}

impl From<AllocError> for LineRefused {
    ghost use Rattle.query_script.specs.declared.line.LineRefused.TheVariants as refusals;

    ghost from_gives = { λ _ e. e ≡ refusals.Memory };

    fn from(_: AllocError) -> Self {
        LineRefused::Memory
    }
}

// The name of a file.
fn read_name(alloc: Global, rest: &str) -> Result<Text, LineRefused>
    ensures { Gives line_fault_in (λ name. name) result (name_in rest.now) }
{
    if rest.is_empty() {
        return Err(LineRefused::Field(1));
    }
    Ok(Text::new(alloc, rest)?)
}

// The command that asks a query of the present rows.
fn read_present_query(
    alloc: Global,
    schema: &Schema,
    word: &str,
    rest: &Part,
) -> Result<Command, LineRefused>
    ensures gives { Gives line_fault_in question_in result
        (asked_with Ask (query_named schema.now word.now rest.now.text.now)) }
    ensures memory { IfErr result (λ e. e ≡ LineRefused.Memory → names_query word.now ≡ true) }
{
    match read_query(alloc, schema, word, rest) {
        Ok(query) => Ok(Command::Ask(query)),
        Err(cause) => Err(cause),
    }
}

/// Whether the line is the word `stats` alone.
pub(crate) fn is_stats(line: &str) -> bool
    ensures { result ≡ bytes_eq line.now stats_line }
{
    line == "stats"
}

// The command of a word and what follows it.
fn read_command(
    alloc: Global,
    schema: &Schema,
    word: &str,
    rest: &Part,
) -> Result<Command, LineRefused>
    ensures gives { Gives line_fault_in question_in result
        (command_named schema.now word.now rest.now.text.now) }
    ensures memory { IfErr result (λ e. e ≡ LineRefused.Memory → names_more word.now ≡ true) }
{
    match word {
        "load" => read_name(alloc, rest.text).map(Command::Load),
        "apply" => read_name(alloc, rest.text).map(Command::Apply),
        "try" => read_name(alloc, rest.text).map(Command::Try),
        "widen" => read_widen(alloc, schema, rest.text),
        "pin" => read_pin(alloc, rest.text),
        "unpin" => read_unpin(alloc, rest.text),
        "at" => read_at(alloc, schema, rest),
        _ => read_present_query(alloc, schema, word, rest),
    }
}

/// Reads a line without its end, with the schema of the state before it. The grammar is that of
/// docs/formats.md.
///
/// The line `stats` is just that word. Else the first word runs to the first space. After `load`,
/// `apply` and `try` follows the name of a file, which may hold spaces.
///
/// After the word of a query follow fields as in a CSV file. `*` is Any, `=` stands before a value
/// of any bytes, and each other field is that value. In a `range` a field may also be `?` for each
/// value, or a list of values with `|` before each. Two texts with `~` before each stand for the
/// values from the one to the other, by their bytes.
///
/// After `iceberg` follow words instead: an aggregate (`count`, `sum`, `least`, `greatest` or
/// `mean`), its measure but for `count`, `>=` or `<=`, and a number. After `rollup` follow these
/// words, each up to one space, and then fields as for `point`.
///
/// After `widen` follows a name that no column of the schema has, up to one space, and then a value
/// of at most 255 bytes. After `pin` and `unpin` follows a name: a letter, and then letters, digits
/// or `_`, at most 32 bytes. After `at` follows such a name, up to one space, and then a query of
/// its rows, whose fields are counted as without `at`.
pub fn read_line(alloc: Global, schema: &Schema, line: &[u8]) -> Result<Command, LineRefused>
    requires { length line.now ≤ MAX_FILE }
    ensures gives { Gives line_fault_in question_in result (command_in schema.now line.now) }
    ensures memory { IfErr result (λ e. e ≡ LineRefused.Memory → may_want_memory line.now ≡ true) }
    ensures question { IfOk result (λ command. IsQuestion schema.now (question_in command)) }
    ensures wants { IfOk result (λ command. wants_memory (question_in command) ≡ true
        → may_want_memory line.now ≡ true) }
{
    match str::from_utf8(line) {
        Ok(text) => {
            if is_stats(text) {
                return Ok(Command::Ask(Query::Stats));
            }
            let (word, rest) = Part { text }.split();
            read_command(alloc, schema, word, &rest)
        }
        Err(_) => Err(LineRefused::Utf8),
    }
}
