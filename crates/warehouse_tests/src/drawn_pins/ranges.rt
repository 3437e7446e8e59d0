// Ranges, beside the cells that are asked and cover rows.
ghost use Rattle.std.specs.Prelude.{length, ◌≡◌};
ghost use Rattle.warehouse_tests.specs.Cubes.{IsOfOneMeasure};

use crate::drawn_pins::iceberg_answers::is_total;
use crate::drawn_pins::lines::{ANY, Line, Sale, cell_at, cell_order, line_of, total_of};
use crate::range_fields::three;
use cell_core::{Fields, Steps};
use qc_arena::Nodes;
use range_query::{Hit, RangeRefused, range};
use std::alloc::Global;
use std::sync::ledger::Ledger;
use value_dict::Dict;

// What each dimension is asked: 0 for Any, 1 for the text a, 2 for each text, 3 for b or c, and 4
// for those from a to b.
type Choices = [u8; 3];

// The choices with a number below 125.
fn choices(number: u8) -> Choices {
    [number / 25 % 5, number / 5 % 5, number % 5]
}

// A choice as in a script.
fn word_of(choice: u8) -> &'static str {
    match choice {
        0 => "*",
        1 => "=a",
        2 => "?",
        3 => "|c|b",
        _ => "~a~b",
    }
}

// Whether a choice asks for an entry. The texts of 0, 1 and 2 are c, a and b.
fn allows(choice: u8, entry: u8) -> bool {
    match choice {
        0 => entry == ANY,
        1 => entry == 1,
        2 => entry != ANY,
        3 => entry == 0 || entry == 2,
        _ => entry == 1 || entry == 2,
    }
}

// Whether a cell is asked and covers a row.
fn is_told(choices: &Choices, cell: &Line, sales: &[Sale]) -> bool {
    allows(choices[0], cell[0])
        && allows(choices[1], cell[1])
        && allows(choices[2], cell[2])
        && total_of(cell, sales).count > 0
}

fn count_told(choices: &Choices, sales: &[Sale]) -> usize {
    let mut count = 0usize;
    'cells: for place in 0..64 {
        if is_told(choices, &cell_at(place), sales) {
            count = count.wrapping_add(1);
        }
    }
    count
}

// Whether just the cells are told that are asked and cover a row, in cell order.
fn are_right(choices: &Choices, sales: &[Sale], hits: &[Hit]) -> bool {
    let mut last: Option<Line> = None;
    'hits: for hit in hits {
        let cell = line_of(&hit.cell);
        if !is_told(choices, &cell, sales) || !is_total(&hit.agg, &total_of(&cell, sales)) {
            return false;
        }
        if let Some(before) = last
            && !cell_order(&before, &cell).is_lt()
        {
            return false;
        }
        last = Some(cell);
    }
    hits.len() == count_told(choices, sales)
}

// The answer to a range.
fn answer<T: Nodes, L: Ledger>(
    alloc: Global,
    tree: &T,
    dict: &Dict,
    asked: &Fields,
    steps: &mut Steps<L>,
) -> Result<Vec<Hit>, RangeRefused>
    requires tree { IsOfOneMeasure (T.tree tree.now) }
    requires width { T.width tree.now ≡ 3 }
    requires lists { length dict.now.lists ≡ 3 }
    requires asked { length asked.now ≡ 3 }
{
    match dict.box_of(alloc, asked) {
        Ok(cells) => {
            let hits = range(alloc, tree, dict, &cells, 64, steps);
            drop(cells);
            hits
        }
        Err(_) => Err(RangeRefused::Memory),
    }
}

// Whether the range of some choices is right.
fn is_right<T: Nodes, L: Ledger>(
    alloc: Global,
    tree: &T,
    dict: &Dict,
    choices: &Choices,
    sales: &[Sale],
    steps: &mut Steps<L>,
) -> bool
    requires tree { IsOfOneMeasure (T.tree tree.now) }
    requires width { T.width tree.now ≡ 3 }
    requires lists { length dict.now.lists ≡ 3 }
{
    let words = [
        word_of(choices[0]),
        word_of(choices[1]),
        word_of(choices[2]),
    ];
    let Some(asked) = three(alloc, &words) else {
        return false;
    };
    let hits = answer(alloc, tree, dict, &asked, steps);
    drop(asked);
    let Ok(hits) = hits else {
        return false;
    };
    let are_right = are_right(choices, sales, &hits);
    drop(hits);
    are_right
}

/// Whether each range is answered by the cells that are asked and cover a row.
pub fn are_ranges<T: Nodes, L: Ledger>(
    alloc: Global,
    tree: &T,
    dict: &Dict,
    sales: &[Sale],
    steps: &mut Steps<L>,
) -> bool
    requires tree { IsOfOneMeasure (T.tree tree.now) }
    requires width { T.width tree.now ≡ 3 }
    requires lists { length dict.now.lists ≡ 3 }
{
    'choices: for number in 0..125 {
        if !is_right(alloc, tree, dict, &choices(number), sales, steps) {
            return false;
        }
    }
    true
}
