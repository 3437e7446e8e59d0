// Why a run ended before the end of its script, and the line on standard error that says so.
ghost use Rattle.std.specs.Prelude.{◌≡◌, ◌≤◌, ◌++◌, OnOk, length};
ghost use Rattle.qc_io.specs.Outside.{HasCause, Rose, with_taken};
ghost use Rattle.qc_session.specs.Runs.{HasReported, cause_text, error_text, status_of};

use arrayvec::ArrayString;
use itoa::Buffer;
use qc_io::{Sink, WriteFailed, write_all};
use qc_schema::{SchemaCause, SchemaRefused};

/// Why a run ended before the end of its script.
#[derive(Clone, Copy)]
pub enum Failure<'a> {
    /// Usage error: the words have no listed form.
    Usage,
    /// The file of this name couldn't be read.
    CannotRead(&'a str),
    /// A reply couldn't be written.
    CannotWrite,
    /// Memory ran out before the first line.
    OutOfMemory,
    /// The bytes are no schema, for this cause.
    NoSchema(SchemaRefused),
    /// The bytes are the snapshot of no state.
    NoSnapshot,
    /// The snapshot has more bytes than a file may have.
    LongSnapshot,
    /// The file of this name has more bytes than a file may have.
    TooLong(&'a str),
}

ghost use Rattle.qc_session.specs.Failures.{TellsFault, TellsFixed, TellsSchema, cause_of};

fn cause_word(cause: SchemaCause) -> &'static str
    ensures text { result.now ≡ cause_text cause }
    ensures short { length result.now ≤ 7 }
{
    match cause {
        SchemaCause::Version => "version",
        SchemaCause::Order => "order",
        SchemaCause::Words => "words",
        SchemaCause::Name => "name",
        SchemaCause::Number => "number",
        SchemaCause::End => "end",
    }
}

// The words for why bytes are no schema, if that isn't 'out of memory'.
fn schema_fault_text(refused: SchemaRefused) -> ArrayString<32>
    ensures { TellsFault refused result.bytes }
{
    let mut text = ArrayString::new();
    match refused {
        SchemaRefused::NotUtf8 => text.push_str("not UTF-8"),
        SchemaRefused::Line { line, cause } => {
            text.push_str("line ");
            text.push_str(Buffer::new().format(line));
            text.push_str(": ");
            text.push_str(cause_word(cause));
        }
        SchemaRefused::Memory => {}
    }
    text
}

impl<'a> Failure<'a> {
    /// The status with which the run ends.
    pub fn status(&self) -> u8
        ensures { result ≡ status_of (cause_of self.now) }
    {
        match self {
            Failure::Usage => 2,
            Failure::CannotRead(_) => 3,
            Failure::CannotWrite => 4,
            Failure::OutOfMemory | Failure::NoSchema(SchemaRefused::Memory) => 5,
            Failure::NoSchema(_)
            | Failure::NoSnapshot
            | Failure::LongSnapshot
            | Failure::TooLong(_) => 6,
        }
    }

    // The words for the fault of a schema, if there is one.
    fn schema_text(&self) -> ArrayString<32>
        ensures { TellsSchema self.now result.bytes }
    {
        match self {
            Failure::NoSchema(refused) => schema_fault_text(*refused),
            _ => ArrayString::new(),
        }
    }

    // The line for the failure, if nothing in it differs.
    fn fixed_text(&self) -> &'static str
        ensures { TellsFixed self.now result.now }
    {
        match self {
            Failure::Usage => {
                "usage: qcube run SCHEMA SCRIPT | qcube gen ROWS SEED | qcube pack SCHEMA SCRIPT \
                 | qcube open SNAPSHOT SCRIPT\n"
            }
            Failure::CannotWrite => "qcube: cannot write\n",
            Failure::OutOfMemory => "qcube: out of memory\n",
            Failure::NoSnapshot => "qcube: snapshot refused\n",
            Failure::LongSnapshot => "qcube: snapshot is too long\n",
            Failure::CannotRead(_) | Failure::NoSchema(_) | Failure::TooLong(_) => "",
        }
    }

    // The line for the failure, in three parts.
    fn parts<'b>(&'b self, schema_text: &'b str) -> (&'b str, &'b str, &'b str)
        requires { TellsSchema self.now schema_text.now }
        ensures { result.0.now ++ (result.1.now ++ result.2.now) ≡ error_text (cause_of self.now) }
    {
        match self {
            Failure::CannotRead(name) => ("qcube: cannot read ", name, "\n"),
            Failure::NoSchema(SchemaRefused::Memory) => ("qcube: out of memory\n", "", ""),
            Failure::NoSchema(_) => ("qcube: schema ", schema_text, "\n"),
            Failure::TooLong(name) => ("qcube: ", name, " is too long\n"),
            _ => (self.fixed_text(), "", ""),
        }
    }
}

// Writes three parts, one after another.
fn write_parts<E: Sink>(err: &mut E, front: &str, name: &str, back: &str) -> Result<(), WriteFailed>
    ensures cause { HasCause (E.faults err.old) (E.faults err.new) result }
    ensures all { OnOk result (E.taken err.new ≡ with_taken (front.now ++ (name.now ++ back.now))
        (E.taken err.old)) }
{
    write_all(err, front.as_bytes())?;
    write_all(err, name.as_bytes())?;
    write_all(err, back.as_bytes())
}

/// Writes the line for a failure. If a write fails, nothing more is written.
pub fn report<E: Sink>(err: &mut E, failure: &Failure<'_>)
    ensures later { E.faults err.old ≤ E.faults err.new }
    ensures said { HasReported (Rose (E.faults err.old) (E.faults err.new)) (cause_of failure.now)
        (E.taken err.old) (E.taken err.new) }
{
    let schema_text = failure.schema_text();
    let (front, name, back) = failure.parts(schema_text.as_str());
    let _ = write_parts(err, front, name, back);
}
