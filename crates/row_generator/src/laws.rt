//! Laws of the generated files, as the contracts of functions that do nothing.
ghost use Rattle.std.specs.Prelude.{Ok, length, ℕ, ◌<◌, ◌≡◌, ◌≤◌};
ghost use Rattle.cube_defs.specs.Text.{text_cmp};
ghost use Rattle.cube_defs.specs.Tree.{nodes};
ghost use Rattle.csv_load.specs.Files.{base_in, batch_in};
ghost use Rattle.row_generator.specs.Drawn.{base_changes, batch_changes, drawn_rows, layout};
ghost use Rattle.row_generator.specs.Generator.{base_text, batch_text};

use crate::files::BATCHES;
use aggregates::laws::{printed_amounts_are_read, printed_ids_are_read};
use cube_defs::MAX_ROWS;

/// The loader reads a base file without a fault, as the insertions of the rows that the seed gives.
pub fn base_files_are_read()
    ensures { (rows seed : ℕ) → rows ≤ MAX_ROWS →
        base_in layout (base_text rows seed) ≡ Ok (base_changes rows seed) }
{
    printed_ids_are_read();
    printed_amounts_are_read();
}

/// The loader reads each batch without a fault: the deletions of the oldest rows, and after them
/// the insertions of the rows that are drawn next.
pub fn batches_are_read()
    ensures { (rows before draws : ℕ) → rows ≤ MAX_ROWS → before < BATCHES →
        batch_in layout (batch_text rows before draws) ≡ Ok (batch_changes rows before draws) }
{
    printed_ids_are_read();
    printed_amounts_are_read();
}

/// However many rows are drawn, their tree has at most 284,130 nodes: each node is a cell with one
/// of the 40, 20, 10, 5 and 4 values or Any in the five dimensions.
pub fn drawn_rows_have_few_nodes()
    ensures { (rows id draws : ℕ) → length (nodes text_cmp (drawn_rows rows id draws)) ≤ 284130 }
{}
