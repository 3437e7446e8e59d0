// The answer to a range query.
ghost use Rattle.std.specs.Prelude.{All, Err, IfOk, List, length, ◌*◌, ◌+◌, ◌<◌, ◌≡◌, ◌≤◌};
ghost use Rattle.cube_defs.specs.Rows.{Row};
ghost use Rattle.cube_defs.specs.Text.{Text};
ghost use Rattle.range_query.specs.DecodedHits.{IsDecodableHit, hit_in, decoded_hits};
ghost use Rattle.reply_text.specs.Words.{reply_bytes};
ghost use Rattle.query_answers.specs.Queries.{IsSource, hits_of, range_answer, work_of};
ghost use Rattle.warehouse.specs.State.{HasTree, with_rows};

use crate::source::Source;
use cell_core::{Fields, Memory, Steps};
use qc_arena::Nodes;
use range_query::{Hit, MAX_RANGE_CELLS, RangeRefused, range};
use reply_text::{Reply, many_refusal, range_reply, refused};
use std::alloc::{AllocError, Global};
use std::sync::ledger::Ledger;

// The cells of the fields' box that cover rows.
fn find_hits<T: Nodes, L: Ledger>(
    alloc: Global,
    source: &Source<T>,
    asked: &Fields,
    steps: &mut Steps<L>,
) -> Result<Vec<Hit>, RangeRefused>
    requires dims { length asked.now ≡ length source.now.warehouse.now.state.schema.dims }
    requires source { IsSource source.now.warehouse.now (T.width source.now.tree.now)
        (T.tree source.now.tree.now) source.now.index.now }
    ensures hits { (rows : List (Row Text)) →
        HasTree (with_rows source.now.warehouse.now.state rows) (T.tree source.now.tree.now) →
        IfOk result (λ hits. decoded_hits source.now.warehouse.now.state.texts hits.items
        ≡ hits_of (with_rows source.now.warehouse.now.state rows) asked.now) }
    ensures told { IfOk result (λ hits. All (λ hit.
        IsDecodableHit source.now.warehouse.now.state.texts
        (length source.now.warehouse.now.state.schema.measures) (hit_in hit)) hits.items) }
    ensures few { IfOk result (λ hits. length hits.items ≤ MAX_RANGE_CELLS) }
    ensures too_many { result ≡ Err RangeRefused.TooMany → (rows : List (Row Text)) →
        HasTree (with_rows source.now.warehouse.now.state rows) (T.tree source.now.tree.now) →
        MAX_RANGE_CELLS
        < length (hits_of (with_rows source.now.warehouse.now.state rows) asked.now) }
    ensures steps { (rows : List (Row Text)) →
        HasTree (with_rows source.now.warehouse.now.state rows) (T.tree source.now.tree.now) →
        steps.new ≤ steps.old
        + 3 * (1 + work_of (with_rows source.now.warehouse.now.state rows) asked.now) }
{
    let dict = source.warehouse.dict();
    match dict.box_of(alloc, asked) {
        Ok(cells) => range(alloc, source.tree, dict, &cells, MAX_RANGE_CELLS, steps),
        Err(_) => Err(RangeRefused::Memory),
    }
}

/// Reports the cells of a box that cover rows, if they are at most 100,000. It takes at most three
/// steps, and three for each cell that is reached before a dimension and each known value that the
/// box allows there.
pub(crate) fn answer_range<T: Nodes, L: Ledger>(
    alloc: Global,
    source: &Source<T>,
    number: u32,
    asked: &Fields,
    steps: &mut Steps<L>,
) -> Result<Reply, Memory>
    requires dims { length asked.now ≡ length source.now.warehouse.now.state.schema.dims }
    requires source { IsSource source.now.warehouse.now (T.width source.now.tree.now)
        (T.tree source.now.tree.now) source.now.index.now }
    ensures reply { (rows : List (Row Text)) →
        HasTree (with_rows source.now.warehouse.now.state rows) (T.tree source.now.tree.now) →
        IfOk result (λ reply. reply_bytes reply
        ≡ range_answer (with_rows source.now.warehouse.now.state rows) number asked.now) }
    ensures steps { (rows : List (Row Text)) →
        HasTree (with_rows source.now.warehouse.now.state rows) (T.tree source.now.tree.now) →
        steps.new ≤ steps.old
        + 3 * (1 + work_of (with_rows source.now.warehouse.now.state rows) asked.now) }
{
    match find_hits(alloc, source, asked, steps) {
        Ok(hits) => {
            let warehouse = source.warehouse;
            let reply = range_reply(alloc, number, warehouse.schema(), warehouse.dict(), &hits)?;
            Ok(Reply::Long(reply))
        }
        Err(RangeRefused::TooMany) => Ok(Reply::Short(refused(number, many_refusal()))),
        Err(RangeRefused::Memory) => Err(AllocError),
    }
}
