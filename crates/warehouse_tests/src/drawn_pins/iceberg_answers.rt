// The definition of an iceberg over all cells of a cube of three dimensions.

use crate::drawn_pins::lines::{
    ANY, Line, Sale, Total, cell_at, cell_order, closes, compare, line_of, passes, total_of, value,
};
use aggregates::Agg;
use cell_core::Cells;
use iceberg_query::{Ask, Bound, ClassHit};

// Whether the cell has the closure, and no cell with one value less.
fn is_lower(cell: &Line, upper: &Line, rows: &[Sale]) -> bool {
    if !closes(cell, upper, rows) {
        return false;
    }
    'dims: for i in 0..3 {
        let mut less = *cell;
        less[i] = ANY;
        if cell[i] != ANY && closes(&less, upper, rows) {
            return false;
        }
    }
    true
}

// Whether one class stands before another.
fn is_before(ask: &Ask, rows: &[Sale], x: &ClassHit, y: &ClassHit) -> bool {
    let (c, d) = (line_of(&x.upper), line_of(&y.upper));
    let b = value(&total_of(&d, rows), ask.kind);
    let order = compare(
        value(&total_of(&c, rows), ask.kind),
        i128::from(b.0),
        i128::from(b.1),
    );
    let turned = match ask.bound {
        Bound::AtLeast => order.reverse(),
        Bound::AtMost => order,
    };
    turned.then(cell_order(&c, &d)).is_lt()
}

/// Whether the aggregate is that of the rows.
pub fn is_total(agg: &Agg, total: &Total) -> bool {
    let parts = agg.parts;
    i64::from(agg.count) == total.count
        && parts[0].sum == total.sum
        && parts[0].least == total.least
        && parts[0].greatest == total.greatest
}

fn count_lowers(upper: &Line, rows: &[Sale]) -> u32 {
    let mut count = 0u32;
    'cells: for place in 0..64 {
        if is_lower(&cell_at(place), upper, rows) {
            count = count.wrapping_add(1);
        }
    }
    count
}

/// Whether just the lower bounds are there, in cell order.
pub fn are_lowers(upper: &Line, rows: &[Sale], lowers: &Cells) -> bool {
    let mut last: Option<Line> = None;
    'lowers: for k in 0..lowers.len() {
        let cell = line_of(lowers.get(k));
        if let Some(before) = last {
            if !cell_order(&before, &cell).is_lt() {
                return false;
            }
        }
        if !is_lower(&cell, upper, rows) {
            return false;
        }
        last = Some(cell);
    }
    lowers.len() == count_lowers(upper, rows)
}

fn is_class_right(ask: &Ask, rows: &[Sale], class: &ClassHit) -> bool {
    let upper = line_of(&class.upper);
    let total = total_of(&upper, rows);
    class.upper.dims() == 3
        && closes(&upper, &upper, rows)
        && passes(ask, &total)
        && is_total(&class.agg, &total)
        && are_lowers(&upper, rows, &class.lowers)
}

fn count_classes(ask: &Ask, rows: &[Sale]) -> usize {
    let mut count = 0usize;
    'cells: for place in 0..64 {
        let cell = cell_at(place);
        if closes(&cell, &cell, rows) && passes(ask, &total_of(&cell, rows)) {
            count = count.wrapping_add(1);
        }
    }
    count
}

/// Whether just the classes are answered that are asked for, each right, and in order.
pub fn is_right(ask: &Ask, rows: &[Sale], classes: &[ClassHit]) -> bool {
    'classes: for k in 0..classes.len() {
        if !is_class_right(ask, rows, &classes[k]) {
            return false;
        }
        if k > 0 && !is_before(ask, rows, &classes[k - 1], &classes[k]) {
            return false;
        }
    }
    classes.len() == count_classes(ask, rows)
}
