// What a tree answers, beside a filter of rows.
ghost use Rattle.std.specs.Prelude.{length, ◌≡◌};
ghost use Rattle.warehouse_tests.specs.Cubes.{IsOfOneMeasure};

use crate::drawn_pins::iceberg_answers::{are_lowers, is_total};
use crate::drawn_pins::icebergs::are_icebergs;
use crate::drawn_pins::lines::{Line, Sale, cell_at, cell_of, closes, is_same, line_of, total_of};
use crate::drawn_pins::ranges::are_ranges;
use cell_core::Steps;
use lower_bounds::{ClassHit, find_class};
use qc_arena::Nodes;
use std::alloc::Global;
use std::sync::ledger::Ledger;
use tree_search::total_at;
use value_dict::Dict;

// Whether a point comes to what the rows do that it covers.
fn is_point<T: Nodes, L: Ledger>(
    alloc: Global,
    tree: &T,
    cell: &Line,
    sales: &[Sale],
    steps: &mut Steps<L>,
) -> bool
    requires tree { IsOfOneMeasure (T.tree tree.now) }
    requires width { T.width tree.now ≡ 3 }
{
    let total = total_of(cell, sales);
    match total_at(tree, &cell_of(alloc, cell), steps) {
        Some(agg) => is_total(&agg, &total),
        None => total.count == 0,
    }
}

fn are_points<T: Nodes, L: Ledger>(
    alloc: Global,
    tree: &T,
    sales: &[Sale],
    steps: &mut Steps<L>,
) -> bool
    requires tree { IsOfOneMeasure (T.tree tree.now) }
    requires width { T.width tree.now ≡ 3 }
{
    'cells: for place in 0..64 {
        if !is_point(alloc, tree, &cell_at(place), sales, steps) {
            return false;
        }
    }
    true
}

// Whether a class is that of a cell. Its lower bounds are looked at where the cell is its upper
// bound.
fn is_class_of(class: &ClassHit, cell: &Line, sales: &[Sale]) -> bool {
    let upper = line_of(&class.upper);
    closes(cell, &upper, sales)
        && is_total(&class.agg, &total_of(&upper, sales))
        && (!is_same(cell, &upper) || are_lowers(&upper, sales, &class.lowers))
}

// Whether a cell has its class, or covers no row and has none.
fn has_class<T: Nodes, L: Ledger>(
    alloc: Global,
    tree: &T,
    cell: &Line,
    sales: &[Sale],
    steps: &mut Steps<L>,
) -> bool
    requires tree { IsOfOneMeasure (T.tree tree.now) }
    requires width { T.width tree.now ≡ 3 }
{
    let Ok(found) = find_class(alloc, tree, &cell_of(alloc, cell), steps) else {
        return false;
    };
    let Some(class) = found else {
        return total_of(cell, sales).count == 0;
    };
    let is_right = is_class_of(&class, cell, sales);
    drop(class);
    is_right
}

fn are_classes<T: Nodes, L: Ledger>(
    alloc: Global,
    tree: &T,
    sales: &[Sale],
    steps: &mut Steps<L>,
) -> bool
    requires tree { IsOfOneMeasure (T.tree tree.now) }
    requires width { T.width tree.now ≡ 3 }
{
    'cells: for place in 0..64 {
        if !has_class(alloc, tree, &cell_at(place), sales, steps) {
            return false;
        }
    }
    true
}

/// What is asked of a tree.
#[derive(Clone, Copy)]
pub enum Asked {
    Points,
    /// And classes, ranges and icebergs.
    All,
}

/// Whether what is asked is answered as a filter of the rows does.
pub fn are_right<T: Nodes, L: Ledger>(
    alloc: Global,
    tree: &T,
    dict: &Dict,
    asked: Asked,
    sales: &[Sale],
    steps: &mut Steps<L>,
) -> bool
    requires tree { IsOfOneMeasure (T.tree tree.now) }
    requires width { T.width tree.now ≡ 3 }
    requires lists { length dict.now.lists ≡ 3 }
{
    if !are_points(alloc, tree, sales, steps) {
        return false;
    }
    match asked {
        Asked::Points => true,
        Asked::All => {
            are_classes(alloc, tree, sales, steps)
                && are_ranges(alloc, tree, dict, sales, steps)
                && are_icebergs(alloc, tree, dict, sales, steps)
        }
    }
}
