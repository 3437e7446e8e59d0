// The nodes of the classes that pass, from an index.
ghost use Rattle.std.specs.Prelude.{IfOk, IsSome, map, ◌≡◌};
ghost use Rattle.measure_index.specs.Index.{ranking_of};
ghost use Rattle.iceberg_query.specs.Subtree.{numbers};
ghost use Rattle.iceberg_query.specs.Indexed.{qualifying_entries, node_of};

use crate::{Ask, Bound, Memory};
use cell_core::NodeNo;
use measure_index::{Index, Walk};
use std::alloc::{AllocError, Global};

// The classes that pass, in their order by value.
fn walk_of<'a>(index: &'a Index, ask: &Ask) -> Walk<'a>
    requires { IsSome (ranking_of ask.now.kind index.now) }
    ensures { result.left ≡ qualifying_entries ask.now index.now }
{
    match ask.bound {
        Bound::AtLeast => index.at_least(ask.kind, &ask.value),
        Bound::AtMost => index.at_most(ask.kind, &ask.value),
    }
}

/// The nodes of the classes that pass. It reads no more of the index than their entries and one
/// more.
pub(crate) fn indexed_nodes(alloc: Global, index: &Index, ask: &Ask) -> Result<Vec<NodeNo>, Memory>
    requires { IsSome (ranking_of ask.now.kind index.now) }
    ensures { IfOk result (λ nodes. numbers nodes.items
        ≡ map node_of (qualifying_entries ask.now index.now)) }
{
    let mut nodes = Vec::new(alloc);
    let mut walk = walk_of(index, ask);
    'walk: while let Some((node, _value)) = walk.next() {
        match nodes.push(node) {
            Ok(()) => {}
            Err(_) => return Err(AllocError),
        }
    }
    Ok(nodes)
}
