// The hits, which have a limit.
ghost use Rattle.std.specs.Prelude.{Err, OnOk, [], length, ◌++◌, ◌≡◌, ◌≤◌, ◌∷◌};
ghost use Rattle.tree_search.specs.Found.{IsTree};
ghost use Rattle.range_query.specs.Walk.{Ends, Finds};

use crate::{Hit, RangeRefused};
use cell_core::{Cell, NodeNo, Steps};
use qc_arena::Nodes;
use std::sync::ledger::Ledger;

// Appends a hit, if the limit allows one.
fn push_within(hits: &mut Vec<Hit>, limit: u32, hit: Hit) -> Result<(), RangeRefused>
    requires { length hits.old.items ≤ limit }
    ensures ok { OnOk result (hits.new.items ≡ hits.old.items ++ hit ∷ []) }
    ensures few { OnOk result (length hits.new.items ≤ limit) }
    ensures too_many { result ≡ Err RangeRefused.TooMany → limit ≡ length hits.old.items }
{
    if hits.len() >= limit as usize {
        return Err(RangeRefused::TooMany);
    }
    match hits.push(hit) {
        Ok(()) => Ok(()),
        Err(_) => Err(RangeRefused::Memory),
    }
}

// Appends a cell with its aggregate, at the node of its closure.
pub(crate) fn add_hit<T: Nodes, L: Ledger>(
    tree: &T,
    limit: u32,
    node: NodeNo,
    cell: &Cell,
    hits: &mut Vec<Hit>,
    steps: &mut Steps<L>,
) -> Result<(), RangeRefused>
    requires tree { IsTree (T.width tree.now) (T.tree tree.now) }
    requires ends { Ends (T.width tree.now) (T.tree tree.now) node.0 cell.now }
    requires few { length hits.old.items ≤ limit }
    ensures { Finds (T.width tree.now) (T.tree tree.now) limit
        (λ source. cell.now ∷ []) (λ source. 1)
        hits.old.items hits.new.items cell.now cell.now steps.old steps.new result }
{
    let agg = tree.class(node, steps).unwrap();
    let hit = Hit {
        cell: cell.copy(),
        agg,
    };
    push_within(hits, limit, hit)
}
