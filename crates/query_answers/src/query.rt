// The answer to a query.
ghost use Rattle.std.specs.Prelude.{IfOk, List, OnErr, OnOk, is_some, ◌+◌, ◌≡◌, ◌≢◌, ◌≤◌};
ghost use Rattle.cube_defs.specs.Rows.{Row};
ghost use Rattle.cube_defs.specs.Text.{Text};
ghost use Rattle.measure_index.specs.Index.{ranking_of};
ghost use Rattle.query_answers.specs.Queries.{IsSource, names_kind, query_cost, query_reply};
ghost use Rattle.query_script.specs.Commands.{IsQuery};
ghost use Rattle.query_script.specs.Queries as queries;
ghost use Rattle.query_script.specs.Queries.{query_in};
ghost use Rattle.reply_text.specs.Words.{reply_bytes};
ghost use Rattle.warehouse.specs.Counted.{AreCounted};
ghost use Rattle.warehouse.specs.State.{HasTree, with_rows};

use crate::bounds::answer_bounds;
use crate::iceberg::answer_iceberg;
use crate::lattice::{answer_children, answer_parents, answer_rollup};
use crate::point::answer_point;
use crate::range::answer_range;
use crate::source::{Condition, Source};
use cell_core::{Memory, Steps};
use qc_arena::Nodes;
use query_script::Query;
use reply_text::{Reply, stats_reply};
use std::alloc::Global;
use std::sync::ledger::Ledger;
use warehouse::Warehouse;

/// Answers a query of the rows of the source.
pub fn answer_query<T: Nodes, L: Ledger>(
    alloc: Global,
    source: &Source<T>,
    number: u32,
    query: &Query,
    steps: &mut Steps<L>,
) -> Result<Reply, Memory>
    requires query { IsQuery source.now.warehouse.now.state.schema (query_in query.now) }
    requires source { IsSource source.now.warehouse.now (T.width source.now.tree.now)
        (T.tree source.now.tree.now) source.now.index.now }
    ensures reply { (rows : List (Row Text)) →
        HasTree (with_rows source.now.warehouse.now.state rows) (T.tree source.now.tree.now) →
        AreCounted rows source.now.counts →
        IfOk result (λ reply. reply_bytes reply
        ≡ query_reply (with_rows source.now.warehouse.now.state rows) number (query_in query.now)) }
    ensures steps { (rows : List (Row Text)) →
        HasTree (with_rows source.now.warehouse.now.state rows) (T.tree source.now.tree.now) →
        OnOk result (steps.new ≤ steps.old
        + query_cost (with_rows source.now.warehouse.now.state rows)
        (λ kind. is_some (ranking_of kind source.now.index.now)) (query_in query.now)) }
    ensures memory { OnErr result (query_in query.now ≢ queries.Stats) }
{
    match query {
        Query::Point(asked) => answer_point(alloc, source, number, asked, steps),
        Query::Range(asked) => answer_range(alloc, source, number, asked, steps),
        Query::Bounds(asked) => answer_bounds(alloc, source, number, asked, steps),
        Query::Iceberg(kind, bound, value) => {
            let condition = Condition {
                kind: *kind,
                bound: *bound,
                value: *value,
            };
            answer_iceberg(alloc, source, number, condition, steps)
        }
        Query::Stats => Ok(Reply::Short(stats_reply(number, source.counts))),
        Query::Parents(asked) => answer_parents(alloc, source, number, asked, steps),
        Query::Children(asked) => answer_children(alloc, source, number, asked, steps),
        Query::Rollup(kind, bound, value, asked) => {
            let condition = Condition {
                kind: *kind,
                bound: *bound,
                value: *value,
            };
            answer_rollup(alloc, source, number, condition, asked, steps)
        }
    }
}

/// Answers a query of the present rows.
pub fn answer_present<L: Ledger>(
    alloc: Global,
    warehouse: &Warehouse,
    number: u32,
    query: &Query,
    steps: &mut Steps<L>,
) -> Result<Reply, Memory>
    requires query { IsQuery warehouse.now.state.schema (query_in query.now) }
    ensures reply { IfOk result (λ reply. reply_bytes reply ≡ query_reply warehouse.now.state number
        (query_in query.now)) }
    ensures steps { OnOk result
        (steps.new ≤ steps.old + query_cost warehouse.now.state
        (names_kind warehouse.now.state.schema) (query_in query.now)) }
    ensures memory { OnErr result (query_in query.now ≢ queries.Stats) }
{
    let source = Source {
        warehouse,
        tree: warehouse.tree(),
        index: warehouse.index(),
        counts: warehouse.stats(),
    };
    answer_query(alloc, &source, number, query, steps)
}
