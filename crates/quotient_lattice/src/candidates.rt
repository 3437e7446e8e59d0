// The candidates for the children of a class: the classes of its cell with one more value.
ghost use Rattle.std.specs.FinMap as map;
ghost use Rattle.std.specs.Prelude.{IfOk, IsSome, None, OnOk, Some, cond, length, slice_get, true, ℕ, ◌*◌, ◌+◌, ◌≡◌, ◌≤◌};
ghost use Rattle.cell_core.specs.Entry.{IsCode};
ghost use Rattle.cube_defs.specs.Cell.{cell_prefix, depth, with_value};
ghost use Rattle.cube_defs.specs.Tree.{cell_at};
ghost use Rattle.qc_arena.specs.RecordReaders.{record_at};
ghost use Rattle.tree_search.specs.Found.{IsTreeOf, TreeRows};
ghost use Rattle.cells_below.specs.Closed.{has_closure_in};
ghost use Rattle.quotient_lattice.specs.Candidates.{AreFound, AreThere, edges_on_way, times};

use crate::Memory;
use cell_core::{Cell, Code, Entry, NodeNo, Steps};
use qc_arena::Nodes;
use std::alloc::{AllocError, Global};
use std::sync::ledger::Ledger;
use tree_search::CanonicalTree;

// Appends the number of the class of u with one more value, if that cell covers a row.
fn push_candidate<T: Nodes, L: Ledger>(
    tree: &CanonicalTree<T>,
    u: &mut Cell,
    dim: u8,
    code: Code,
    led: &mut Vec<u32>,
    steps: &mut Steps<L>,
) -> Result<(), Memory>
    requires dims { length u.old ≡ tree.now.width }
    requires any { slice_get u.old dim ≡ Some None }
    requires small { IsCode code }
    ensures same { u.new ≡ u.old }
    ensures led { (source : TreeRows) → IsTreeOf tree.now.width tree.now.tree source →
        OnOk result ((k : ℕ) → IsSome (map.get tree.now.tree k) →
        times k led.new.items ≡ times k led.old.items
        + cond (has_closure_in source (record_at tree.now.tree k).cell
        (with_value u.old dim code)) 1 0) }
    ensures there { AreThere tree.now.tree led.old.items
        → OnOk result (AreThere tree.now.tree led.new.items) }
    ensures few { OnOk result (length led.new.items ≤ length led.old.items + 1) }
    ensures steps { steps.new ≤ steps.old + (2 * length u.old + 2) }
{
    u.set(dim, Entry::Is(code));
    let found = tree.find(u, steps);
    u.set(dim, Entry::Any);
    let Some(node) = found else {
        return Ok(());
    };
    match led.push(node.0) {
        Ok(()) => Ok(()),
        Err(_) => Err(AllocError),
    }
}

// Appends these numbers for the labels of a node on the path from the root to u. Labels from
// dimension `end` on are done already.
fn push_labels<T: Nodes, L: Ledger>(
    tree: &CanonicalTree<T>,
    u: &mut Cell,
    at: NodeNo,
    end: u8,
    led: &mut Vec<u32>,
    steps: &mut Steps<L>,
) -> Result<(), Memory>
    requires dims { length u.old ≡ tree.now.width }
    requires own { (source : TreeRows) → IsTreeOf tree.now.width tree.now.tree source →
        has_closure_in source u.old u.old ≡ true }
    requires at { IsSome (map.get tree.now.tree at.0) }
    requires end { end ≤ tree.now.width }
    requires front { (record_at tree.now.tree at.0).cell ≡ cell_prefix end u.old }
    requires led { (source : TreeRows) → IsTreeOf tree.now.width tree.now.tree source →
        AreFound source tree.now.tree u.old end tree.now.width led.old.items }
    requires there { AreThere tree.now.tree led.old.items }
    ensures same { u.new ≡ u.old }
    ensures led { (source : TreeRows) → IsTreeOf tree.now.width tree.now.tree source →
        OnOk result (AreFound source tree.now.tree u.old
        (depth (record_at tree.now.tree at.0).cell) tree.now.width led.new.items) }
    ensures there { OnOk result (AreThere tree.now.tree led.new.items) }
    ensures few { OnOk result (length led.new.items ≤ length led.old.items
        + length (record_at tree.now.tree at.0).edges) }
    ensures steps { steps.new ≤ steps.old
        + (1 + length (record_at tree.now.tree at.0).edges * (2 * length u.old + 3)) }
{
    let _dims = tree.dims();
    'edges: for k in 0..tree.edge_count(at, steps) {
        let (dim, code, _target) = tree.edge_at(at, k, steps);
        if dim < end {
            match push_candidate(tree, u, dim, code, led, steps) {
                Ok(()) => {}
                Err(error) => return Err(error),
            }
        }
    }
    Ok(())
}

/// The numbers of the classes of u with one more value, once for each value with which the cell
/// covers a row. Each of these values is in a label at a node on the path from the root to u.
pub(crate) fn child_candidates<T: Nodes, L: Ledger>(
    alloc: Global,
    tree: &CanonicalTree<T>,
    node: NodeNo,
    u: &mut Cell,
    steps: &mut Steps<L>,
) -> Result<Vec<u32>, Memory>
    requires upper { cell_at tree.now.tree node.0 ≡ Some u.old }
    requires own { (source : TreeRows) → IsTreeOf tree.now.width tree.now.tree source →
        has_closure_in source u.old u.old ≡ true }
    ensures same { u.new ≡ u.old }
    ensures led { (source : TreeRows) → IsTreeOf tree.now.width tree.now.tree source →
        IfOk result (λ led. AreFound source tree.now.tree u.old 0
        tree.now.width led.items) }
    ensures there { IfOk result (λ led. AreThere tree.now.tree led.items) }
    ensures few { IfOk result (λ led. length led.items ≤ edges_on_way tree.now.tree node.0) }
    ensures steps { steps.new ≤ steps.old
        + ((2 * tree.now.width + 3) * edges_on_way tree.now.tree node.0
        + 3 * tree.now.width + 2) }
{
    let mut led = Vec::new(alloc);
    let mut at = node;
    match push_labels(tree, u, at, tree.dims(), &mut led, steps) {
        Ok(()) => {}
        Err(error) => return Err(error),
    }
    'up: while let Some((dim, _code)) = tree.end_of(at, steps) {
        at = tree.parent(at, steps).unwrap();
        match push_labels(tree, u, at, dim, &mut led, steps) {
            Ok(()) => {}
            Err(error) => return Err(error),
        }
    }
    Ok(led)
}
