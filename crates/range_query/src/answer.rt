// The answer to a range query.
ghost use Rattle.std.specs.Prelude.{All, Err, IfOk, [], length, ◌*◌, ◌+◌, ◌<◌, ◌≡◌, ◌≤◌};
ghost use Rattle.cube_defs.specs.Text.{text_cmp};
ghost use Rattle.cube_laws.specs.Recoding.{BoxIsKnown, RowsAreKnown};
ghost use Rattle.tree_search.specs.Found.{IsTreeOf, IsTree, TreeRows};
ghost use Rattle.value_dict.specs.Boxes.{IsOrdered, decoded_box};
ghost use Rattle.value_dict.specs.Recoded.{has_code};
ghost use Rattle.range_query.specs.DecodedHits.{IsDecodableHit, hit_in, decoded_hits, decoded_range, decoded_work};

use crate::walk::{Position, Scan, visit};
use crate::{Hit, MAX_RANGE_CELLS, RangeRefused};
use cell_core::{Cell, Steps};
use qc_arena::Nodes;
use std::alloc::Global;
use std::sync::ledger::Ledger;
use value_dict::{CellBox, Dict};

// An empty list. It has room for the largest answer, if there is so much memory.
fn no_hits(alloc: Global, limit: u32) -> Vec<Hit>
    ensures { result.items ≡ [] }
{
    match Vec::with_capacity(alloc, limit.min(MAX_RANGE_CELLS) as usize) {
        Ok(hits) => hits,
        Err(_) => Vec::new(alloc),
    }
}

/// The cells of the box that cover a row, in cell order, each with its aggregate. Both the box's
/// lists and the cells are in the order of the texts. TooMany is the answer if there are more than
/// `limit`. It takes at most one step, and two for each cell of the answer. It takes one more for
/// each cell that is reached before a dimension and each value that the box allows there.
pub fn range<T: Nodes, L: Ledger>(
    alloc: Global,
    tree: &T,
    dict: &Dict,
    cells: &CellBox,
    limit: u32,
    steps: &mut Steps<L>,
) -> Result<Vec<Hit>, RangeRefused>
    requires tree { IsTree (T.width tree.now) (T.tree tree.now) }
    requires dims { length cells.now ≡ T.width tree.now }
    requires dict_dims { length dict.now.lists ≡ T.width tree.now }
    requires known { BoxIsKnown (has_code dict.now.lists) 0 cells.now }
    requires order { IsOrdered text_cmp (decoded_box dict.now.lists cells.now) }
    ensures hits { (source : TreeRows) → IsTreeOf (T.width tree.now) (T.tree tree.now) source
        → RowsAreKnown (has_code dict.now.lists) source.rows →
        IfOk result (λ hits. decoded_hits dict.now.lists hits.items
        ≡ decoded_range dict.now.lists source cells.now) }
    ensures told { (source : TreeRows) → IsTreeOf (T.width tree.now) (T.tree tree.now) source
        → RowsAreKnown (has_code dict.now.lists) source.rows →
        IfOk result (λ hits. All
        (λ hit. IsDecodableHit dict.now.lists source.measures (hit_in hit)) hits.items) }
    ensures few { IfOk result (λ hits. length hits.items ≤ limit) }
    ensures too_many { result ≡ Err RangeRefused.TooMany → (source : TreeRows)
        → IsTreeOf (T.width tree.now) (T.tree tree.now) source →
        RowsAreKnown (has_code dict.now.lists) source.rows
        → limit < length (decoded_range dict.now.lists source cells.now) }
    ensures steps { (source : TreeRows) → IsTreeOf (T.width tree.now) (T.tree tree.now) source
        → RowsAreKnown (has_code dict.now.lists) source.rows →
        steps.new ≤ steps.old + (1 + decoded_work dict.now.lists source cells.now
        + 2 * length (decoded_range dict.now.lists source cells.now)) }
    ensures bounded { (source : TreeRows) → IsTreeOf (T.width tree.now) (T.tree tree.now) source
        → RowsAreKnown (has_code dict.now.lists) source.rows →
        steps.new ≤ steps.old + 3 * (1 + decoded_work dict.now.lists source cells.now) }
{
    let dims = dict.dims();
    let mut hits = no_hits(alloc, limit);
    let Some(root) = tree.root(steps) else {
        return Ok(hits);
    };
    let mut cell = Cell::any(alloc, dims);
    let scan = Scan { tree, cells, limit };
    let at = Position { node: root, dim: 0 };
    match visit(&scan, at, &mut cell, &mut hits, steps) {
        Ok(()) => Ok(hits),
        Err(error) => Err(error),
    }
}
