// Whether nodes keep their numbers from one tree to another.
ghost use Rattle.std.specs.FinMap as map;
ghost use Rattle.std.specs.Prelude.{Some, false, true, ℕ, slice_get, ◌<◌, ◌≡◌, ◌≢◌};
ghost use Rattle.qc_arena.specs.Map.{AreRooted, Known};
ghost use Rattle.tree_records.specs.Lines.{IsSmall, line_of};
ghost use Rattle.tree_records.specs.Twins.{AreBothRooted, KeepsNumber, KeepsNumbers};

use crate::lines::{Line, NUMBERS, cell_at};
use cell_core::{NodeNo, Steps};
use qc_arena::QcArena;
use std::sync::ledger::Ledger;

// Whether a node whose number is below NUMBERS has this cell.
fn has_cell<L: Ledger>(tree: &QcArena, cell: &Line, steps: &mut Steps<L>) -> bool
    ensures { AreRooted tree.now.now → result ≡ false →
        (k : ℕ) (n : Known) → k < NUMBERS → map.get tree.now.now k ≡ Some n
        → IsSmall n.cell → line_of n.cell ≢ cell.now }
{
    'numbers: for number in 0..NUMBERS {
        if cell_at(tree, NodeNo(number), steps) == Some(*cell) {
            return true;
        }
    }
    false
}

// Whether a number has a cell, if there is one, in a tree, where a node of another tree has it.
fn is_kept<L: Ledger>(
    cell: &Option<Line>,
    other: &QcArena,
    tree: &QcArena,
    number: NodeNo,
    steps: &mut Steps<L>,
) -> bool
    ensures { AreBothRooted other.now.now tree.now.now → result ≡ true →
        KeepsNumber cell.now other.now.now tree.now.now number.0 }
{
    match cell {
        Some(line) => {
            cell_at(tree, number, steps) == Some(*line) || !has_cell(other, line, steps)
        }
        None => true,
    }
}

/// Whether each number has its cell still in a tree, where a node of another tree has that cell.
pub fn are_kept<L: Ledger>(
    cells: &[Option<Line>],
    other: &QcArena,
    tree: &QcArena,
    steps: &mut Steps<L>,
) -> bool
    ensures { AreBothRooted other.now.now tree.now.now → result ≡ true →
        KeepsNumbers cells.now other.now.now tree.now.now }
{
    if cells.len() > NUMBERS as usize {
        return false;
    }
    'numbers: for number in 0..cells.len() as u32 {
        if !is_kept(&cells[number as usize], other, tree, NodeNo(number), steps) {
            return false;
        }
    }
    true
}
