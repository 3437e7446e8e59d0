// The words of a roll-up.
ghost use Rattle.std.specs.Option.{option_map};
ghost use Rattle.std.specs.Prelude.{IfSome, length, ◌<◌, ◌≡◌};
ghost use Rattle.cell_core.specs.Gives.{Gives};
ghost use Rattle.aggregates.specs.Views.{kind_in};
ghost use Rattle.iceberg_query.specs.Asked.{bound_in};
ghost use Rattle.qc_schema.specs.Grammar.{measure_from};
ghost use Rattle.query_script.specs.Faults.{line_fault_in};
ghost use Rattle.query_script.specs.Lines.{rest_of, word_of};
ghost use Rattle.query_script.specs.Queries.{query_in};
ghost use Rattle.query_script.specs.Makes.{make_of};
ghost use Rattle.query_script.specs.Rollups.{IsLow, after_words, bound_at, rollup_in, value_at, with_measure};

use crate::iceberg::{MeasureKind, named_bound};
use crate::line::LineRefused;
use crate::part::Part;
use crate::query::Query;
use crate::record::{Shape, read_fields};
use aggregates::{AggKind, read_fraction};
use iceberg_query::Bound;
use qc_schema::Schema;
use std::alloc::Global;

// The refusal of a record that follows so many words.
fn shift_field(cause: LineRefused, words: u32) -> LineRefused
    requires few { words < 10 }
    requires low { IfSome (line_fault_in cause) IsLow }
    ensures { line_fault_in result ≡ option_map (after_words words) (line_fault_in cause) }
{
    match cause {
        LineRefused::Field(place) => LineRefused::Field(words + place),
        LineRefused::Utf8 => LineRefused::Utf8,
        LineRefused::Command => LineRefused::Command,
        LineRefused::Number => LineRefused::Number,
        LineRefused::Memory => LineRefused::Memory,
    }
}

// The value, at a place, and the record after it.
fn read_value(
    alloc: Global,
    schema: &Schema,
    kind: AggKind,
    bound: Bound,
    place: u32,
    words: &Part,
) -> Result<Query, LineRefused>
    requires { place < 10 }
    ensures { Gives line_fault_in query_in result
        (value_at (length schema.now.dims) (kind_in kind) (bound_in bound) place
        (word_of words.now.text.now) (rest_of words.now.text.now)) }
{
    let _dims = schema.dims();
    let (word, rest) = words.split();
    if word.is_empty() {
        return Err(LineRefused::Field(place));
    }
    let fields = match read_fields(alloc, Shape::Cell, schema, &rest) {
        Ok(fields) => fields,
        Err(cause) => return Err(shift_field(cause, place)),
    };
    match read_fraction(word.as_bytes()) {
        Some(value) => Ok(Query::Rollup(kind, bound, value, fields)),
        None => Err(LineRefused::Number),
    }
}

// The bound, at a place, and what follows it.
fn read_bound(
    alloc: Global,
    schema: &Schema,
    kind: AggKind,
    place: u32,
    words: &Part,
) -> Result<Query, LineRefused>
    requires { place < 9 }
    ensures { Gives line_fault_in query_in result
        (bound_at (length schema.now.dims) (kind_in kind) place words.now.text.now) }
{
    let (word, rest) = words.split();
    match named_bound(word.as_bytes()) {
        Some(bound) => read_value(alloc, schema, kind, bound, place + 1, &rest),
        None => Err(LineRefused::Field(place)),
    }
}

// The measure of an aggregate, and what follows it.
fn read_measured(
    alloc: Global,
    schema: &Schema,
    aggregate: MeasureKind,
    words: &Part,
) -> Result<Query, LineRefused>
    ensures { Gives line_fault_in query_in result
        (with_measure (length schema.now.dims) (make_of aggregate) (rest_of words.now.text.now)
        (measure_from schema.now.measures 0 (word_of words.now.text.now))) }
{
    let (name, behind) = words.split();
    match schema.measure_named(name.as_bytes()) {
        Some(measure) => read_bound(alloc, schema, aggregate.of(measure), 3, &behind),
        None => Err(LineRefused::Field(2)),
    }
}

/// Reads what follows the word `rollup`.
pub(crate) fn read_rollup(alloc: Global, schema: &Schema, rest: &Part) -> Result<Query, LineRefused>
    ensures { Gives line_fault_in query_in result (rollup_in schema.now rest.now.text.now) }
{
    let (word, behind) = rest.split();
    if word == "count" {
        return read_bound(alloc, schema, AggKind::Count, 2, &behind);
    }
    match MeasureKind::named(word.as_bytes()) {
        Some(aggregate) => read_measured(alloc, schema, aggregate, &behind),
        None => Err(LineRefused::Field(1)),
    }
}
