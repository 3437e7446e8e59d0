// The cells of nodes as lines of numbers.
ghost use Rattle.std.specs.Prelude.{IfOk, Option, Some, ℕ, List, length, slice_get, ◌≡◌};
ghost use Rattle.qc_arena.specs.Map.{AreRooted};
ghost use Rattle.tree_records.specs.Lines.{IsReadAs};

use cell_core::{NodeNo, Steps};
use qc_arena::{Nodes, QcArena};
use std::alloc::{AllocError, Global};
use std::sync::ledger::Ledger;

/// Of a cell the entries, of which only those of the dimensions count.
pub type Line = [u8; 6];

/// In a cell; values are smaller.
pub const ANY: u8 = 9;

/// No node of a test has this number or a greater one.
pub const NUMBERS: u32 = 600;

/// The cell of a node, by the last values on the way up its parents. None where the node isn't
/// there, and where its cell has a value in a seventh dimension or a value of 9 or more.
pub fn cell_at<L: Ledger>(tree: &QcArena, node: NodeNo, steps: &mut Steps<L>) -> Option<Line>
    ensures { AreRooted tree.now.now → IsReadAs tree.now.now node.0 result }
{
    let mut cell = [ANY; 6];
    let mut at = node;
    'up: for _ in 0..7u8 {
        if !tree.has(at) {
            return None;
        }
        let Some((dim, code)) = tree.end_of(at, steps) else {
            return Some(cell);
        };
        if dim >= 6 || code >= 9 {
            return None;
        }
        cell[usize::from(dim)] = code as u8;
        at = tree.parent(at, steps)?;
    }
    None
}

/// The cell of each number.
pub fn cells<L: Ledger>(
    alloc: Global,
    tree: &QcArena,
    steps: &mut Steps<L>,
) -> Result<Vec<Option<Line>>, AllocError>
    ensures count { IfOk result (λ cells. length cells.items ≡ NUMBERS) }
    ensures cells { IfOk result (λ cells. AreRooted tree.now.now →
        (k : ℕ) (read : Option (List ℕ)) → slice_get cells.items k ≡ Some read
        → IsReadAs tree.now.now k read) }
{
    let mut cells = Vec::new(alloc);
    'numbers: for number in 0..NUMBERS {
        cells.push(cell_at(tree, NodeNo(number), steps))?;
    }
    Ok(cells)
}
