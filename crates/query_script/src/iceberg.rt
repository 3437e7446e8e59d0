// The words of an iceberg query.
ghost use Rattle.std.specs.Prelude.{◌≡◌, ◌≤◌, ◌<◌, ℕ};
ghost use Rattle.std.specs.Option.{option_map};
ghost use Rattle.cell_core.specs.Gives.{Gives};
ghost use Rattle.aggregates.specs.Views.{kind_in};
ghost use Rattle.text_lines.specs.Cuts.{words_of};
ghost use Rattle.iceberg_query.specs.Asked.{bound_in};
ghost use Rattle.query_script.specs.Faults.{line_fault_in};
ghost use Rattle.query_script.specs.Icebergs.{bound_at, bound_named, iceberg_in, measure_kind, value_at};
ghost use Rattle.query_script.specs.Queries.{query_in};

use crate::line::LineRefused;
use crate::query::Query;
use aggregates::{AggKind, read_fraction};
use iceberg_query::Bound;
use qc_schema::Schema;
use text_lines::split_word;

/// The aggregates of a measure.
#[derive(Clone, Copy)]
pub(crate) enum MeasureKind {
    Sum,
    Least,
    Greatest,
    Mean,
}

ghost use Rattle.query_script.specs.Makes.{make_of};

impl MeasureKind {
    /// The aggregate that a word names.
    pub(crate) fn named(word: &[u8]) -> Option<MeasureKind>
        ensures { option_map make_of result ≡ measure_kind word.now }
    {
        if word == b"sum".as_slice() {
            Some(MeasureKind::Sum)
        } else if word == b"least".as_slice() {
            Some(MeasureKind::Least)
        } else if word == b"greatest".as_slice() {
            Some(MeasureKind::Greatest)
        } else if word == b"mean".as_slice() {
            Some(MeasureKind::Mean)
        } else {
            None
        }
    }

    /// The aggregate of a measure.
    pub(crate) fn of(self, measure: u8) -> AggKind
        ensures { kind_in result ≡ make_of self measure }
    {
        match self {
            MeasureKind::Sum => AggKind::Sum(measure),
            MeasureKind::Least => AggKind::Least(measure),
            MeasureKind::Greatest => AggKind::Greatest(measure),
            MeasureKind::Mean => AggKind::Mean(measure),
        }
    }
}

/// The bound that a word names.
pub(crate) fn named_bound(word: &[u8]) -> Option<Bound>
    ensures { option_map bound_in result ≡ bound_named word.now }
{
    if word == b">=".as_slice() {
        Some(Bound::AtLeast)
    } else if word == b"<=".as_slice() {
        Some(Bound::AtMost)
    } else {
        None
    }
}

// The value, at a place. No word may follow it.
fn read_value(kind: AggKind, bound: Bound, place: u32, words: &[u8]) -> Result<Query, LineRefused>
    requires { place < 10 }
    ensures { Gives line_fault_in query_in result
        (value_at (kind_in kind) (bound_in bound) place (words_of words.now)) }
{
    let Some((word, behind)) = split_word(words) else {
        return Err(LineRefused::Field(place));
    };
    if split_word(behind).is_some() {
        return Err(LineRefused::Field(place + 1));
    }
    match read_fraction(word) {
        Some(value) => Ok(Query::Iceberg(kind, bound, value)),
        None => Err(LineRefused::Number),
    }
}

// The bound, at a place, and the value after it.
fn read_bound(kind: AggKind, place: u32, words: &[u8]) -> Result<Query, LineRefused>
    requires { place < 9 }
    ensures { Gives line_fault_in query_in result
        (bound_at (kind_in kind) place (words_of words.now)) }
{
    let Some((word, behind)) = split_word(words) else {
        return Err(LineRefused::Field(place));
    };
    match named_bound(word) {
        Some(bound) => read_value(kind, bound, place + 1, behind),
        None => Err(LineRefused::Field(place)),
    }
}

/// Reads what follows the word `iceberg`.
pub fn read_iceberg(schema: &Schema, rest: &str) -> Result<Query, LineRefused>
    ensures { Gives line_fault_in query_in result (iceberg_in schema.now rest.now) }
{
    let Some((word, behind)) = split_word(rest.as_bytes()) else {
        return Err(LineRefused::Field(1));
    };
    if word == b"count".as_slice() {
        return read_bound(AggKind::Count, 2, behind);
    }
    let Some(aggregate) = MeasureKind::named(word) else {
        return Err(LineRefused::Field(1));
    };
    let Some((name, behind)) = split_word(behind) else {
        return Err(LineRefused::Field(2));
    };
    let Some(measure) = schema.measure_named(name) else {
        return Err(LineRefused::Field(2));
    };
    read_bound(aggregate.of(measure), 3, behind)
}
