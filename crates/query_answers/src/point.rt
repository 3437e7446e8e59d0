// The answer to a point.
ghost use Rattle.std.specs.Prelude.{All, IfOk, IfSome, List, length, option_map, ◌*◌, ◌+◌, ◌≡◌, ◌≤◌};
ghost use Rattle.aggregates.specs.Views.{agg_in};
ghost use Rattle.cube_defs.specs.Rows.{Row};
ghost use Rattle.cube_defs.specs.Text.{Text, text_eq};
ghost use Rattle.cube_laws.specs.Total.{agg_at};
ghost use Rattle.query_answers.specs.Queries.{AsksForCell, cell_of_fields, point_answer};
ghost use Rattle.reply_text.specs.Words.{reply_bytes};
ghost use Rattle.value_dict.specs.Decoded.{HasTexts, decoded_cell};
ghost use Rattle.warehouse.specs.State.{HasTree, with_rows};

use crate::source::Source;
use aggregates::Agg;
use cell_core::{Cell, Fields, Memory, Steps};
use qc_arena::Nodes;
use reply_text::{Reply, none_reply, point_reply};
use std::alloc::Global;
use std::sync::ledger::Ledger;
use tree_search::total_at;

// The fields' cell in codes, and its aggregate. None if it covers no row.
fn find_total<T: Nodes, L: Ledger>(
    source: &Source<T>,
    asked: &Fields,
    steps: &mut Steps<L>,
) -> Option<(Cell, Agg)>
    requires { AsksForCell source.now.warehouse.now (T.width source.now.tree.now)
        (T.tree source.now.tree.now) source.now.index.now asked.now }
    ensures value { (rows : List (Row Text)) →
        HasTree (with_rows source.now.warehouse.now.state rows) (T.tree source.now.tree.now) →
        option_map (λ found. agg_in found.1) result
        ≡ agg_at text_eq (length source.now.warehouse.now.state.schema.measures) rows
        (cell_of_fields asked.now) }
    ensures measures { IfSome result (λ found.
        length (agg_in found.1).parts ≡ length source.now.warehouse.now.state.schema.measures) }
    ensures told { IfSome result (λ found.
        decoded_cell source.now.warehouse.now.state.texts found.0 ≡ cell_of_fields asked.now) }
    ensures texts { IfSome result (λ found. HasTexts source.now.warehouse.now.state.texts found.0) }
    ensures steps { steps.new
        ≤ steps.old + (2 * length source.now.warehouse.now.state.schema.dims + 3) }
{
    let cell = source.warehouse.dict().cell_of(asked)?;
    let total = total_at(source.tree, &cell, steps)?;
    Some((cell, total))
}

/// Answers a point, which has Any or a value in each dimension. With n dimensions it takes at most
/// 2n + 3 steps.
pub(crate) fn answer_point<T: Nodes, L: Ledger>(
    alloc: Global,
    source: &Source<T>,
    number: u32,
    asked: &Fields,
    steps: &mut Steps<L>,
) -> Result<Reply, Memory>
    requires { AsksForCell source.now.warehouse.now (T.width source.now.tree.now)
        (T.tree source.now.tree.now) source.now.index.now asked.now }
    ensures reply { (rows : List (Row Text)) →
        HasTree (with_rows source.now.warehouse.now.state rows) (T.tree source.now.tree.now) →
        IfOk result (λ reply. reply_bytes reply
        ≡ point_answer (with_rows source.now.warehouse.now.state rows) number
        (cell_of_fields asked.now)) }
    ensures steps { steps.new
        ≤ steps.old + (2 * length source.now.warehouse.now.state.schema.dims + 3) }
{
    let Some((cell, total)) = find_total(source, asked, steps) else {
        return Ok(Reply::Short(none_reply(number)));
    };
    let reply = point_reply(
        alloc,
        number,
        source.warehouse.schema(),
        source.warehouse.dict(),
        &cell,
        &total,
    )?;
    Ok(Reply::Long(reply))
}
