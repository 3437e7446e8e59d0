// Arenas of one and of two nodes.
ghost use Rattle.std.specs.Prelude.{IfSome, IsSome, None, Some, replicate, true, ℕ, ◌≡◌, ◌≢◌};
ghost use Rattle.std.specs.FinMap as map;
ghost use Rattle.qc_arena.specs.Map.{bare, is_open, is_touched};

use cell_core::{NodeNo, Steps};
use qc_arena::{ArenaRefused, QcArena};
use std::alloc::Global;
use std::sync::ledger::Ledger;

// An arena of at most two nodes, with its root.
pub(crate) fn planted<L: Ledger>(alloc: Global, steps: &mut Steps<L>) -> Option<(QcArena, NodeNo)>
    ensures width { IfSome result (λ p. p.0.width ≡ 3) }
    ensures max { IfSome result (λ p. p.0.max ≡ 2) }
    ensures opened { IfSome result (λ p. is_open p.0 ≡ true) }
    ensures root { IfSome result
        (λ p. map.get p.0.now p.1.0 ≡ Some (bare (replicate 3 None) None)) }
    ensures alone { IfSome result (λ p. (q : ℕ) → q ≢ p.1.0 → map.get p.0.now q ≡ None) }
    ensures touched { IfSome result (λ p. is_touched p.0 p.1.0 ≡ true) }
{
    let Ok(mut arena) = QcArena::new(alloc, 3, 2) else {
        return None;
    };
    arena.begin();
    let Ok(root) = arena.add_node(None, steps) else {
        drop(arena);
        return None;
    };
    Some((arena, root))
}

// The same with a node under the root, with the value 7 in dimension 1, and the edge to it.
pub(crate) fn grown<L: Ledger>(
    alloc: Global,
    steps: &mut Steps<L>,
) -> Option<(QcArena, NodeNo, NodeNo)>
    ensures width { IfSome result (λ p. p.0.width ≡ 3) }
    ensures opened { IfSome result (λ p. is_open p.0 ≡ true) }
    ensures root { IfSome result (λ p. IsSome (map.get p.0.now p.1.0)) }
    ensures child { IfSome result (λ p. IsSome (map.get p.0.now p.2.0)) }
{
    let (mut arena, root) = planted(alloc, steps)?;
    let Ok(child) = arena.add_node(Some((root, 1, 7)), steps) else {
        drop(arena);
        return None;
    };
    // A third node is one too many.
    let Err(ArenaRefused::Full) = arena.add_node(Some((root, 2, 1)), steps) else {
        drop(arena);
        return None;
    };
    if arena.set_edge(root, 1, 7, child, steps).is_err() {
        drop(arena);
        return None;
    }
    Some((arena, root, child))
}
