// Queries, and the lines that ask them.
ghost use Rattle.std.specs.Prelude.{IfErr, true, ◌≡◌};
ghost use Rattle.cell_core.specs.Gives.{Gives};
ghost use Rattle.query_script.specs.Commands.{query_in_line, query_named};
ghost use Rattle.query_script.specs.Faults.{line_fault_in};
ghost use Rattle.query_script.specs.Lines.{names_query};
ghost use Rattle.query_script.specs.Queries.{query_in};

use crate::iceberg::read_iceberg;
use crate::line::{LineRefused, is_stats};
use crate::part::Part;
use crate::record::{Shape, read_fields};
use crate::rollup::read_rollup;
use aggregates::{AggKind, Fraction};
use cell_core::Fields;
use iceberg_query::Bound;
use qc_schema::Schema;
use std::alloc::Global;

/// A question about rows: the present ones, or those of a pin.
#[derive(Drop)]
pub enum Query {
    /// The aggregate of a cell, by its fields.
    Point(Fields),
    /// Each cell of a box that covers a row, with its aggregate.
    Range(Fields),
    /// The bounds of the class of a cell.
    Bounds(Fields),
    /// The classes whose aggregate is at least or at most the value, which is in the unit of the
    /// printed amounts.
    Iceberg(AggKind, Bound, Fraction),
    /// The counts of the rows and of their tree.
    Stats,
    /// The parents of the class of a cell.
    Parents(Fields),
    /// The children of the class of a cell.
    Children(Fields),
    /// The most general classes whose aggregate is at least or at most the value, among those that
    /// the class of a cell generalizes.
    Rollup(AggKind, Bound, Fraction, Fields),
}

/// The query of a word and what follows it.
pub(crate) fn read_query(
    alloc: Global,
    schema: &Schema,
    word: &str,
    rest: &Part,
) -> Result<Query, LineRefused>
    ensures gives { Gives line_fault_in query_in result
        (query_named schema.now word.now rest.now.text.now) }
    ensures memory { IfErr result (λ e. e ≡ LineRefused.Memory → names_query word.now ≡ true) }
{
    match word {
        "point" => read_fields(alloc, Shape::Cell, schema, rest).map(Query::Point),
        "range" => read_fields(alloc, Shape::Box, schema, rest).map(Query::Range),
        "bounds" => read_fields(alloc, Shape::Cell, schema, rest).map(Query::Bounds),
        "iceberg" => read_iceberg(schema, rest.text),
        "parents" => read_fields(alloc, Shape::Cell, schema, rest).map(Query::Parents),
        "children" => read_fields(alloc, Shape::Cell, schema, rest).map(Query::Children),
        "rollup" => read_rollup(alloc, schema, rest),
        _ => Err(LineRefused::Command),
    }
}

/// Reads a line that is a query. The line `stats` is just that word.
pub(crate) fn read_query_line(
    alloc: Global,
    schema: &Schema,
    line: &Part,
) -> Result<Query, LineRefused>
    ensures { Gives line_fault_in query_in result (query_in_line schema.now line.now.text.now) }
{
    if is_stats(line.text) {
        return Ok(Query::Stats);
    }
    let (word, rest) = line.split();
    read_query(alloc, schema, word, &rest)
}
