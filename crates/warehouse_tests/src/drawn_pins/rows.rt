// Batches with the rows after each, in the parts of a text.
use crate::drawn_pins::lines::Sale;
use std::alloc::Global;

// A batch, and a base file of the rows after it.
fn part(text: &str, batch: u32) -> Option<(&str, &str)> {
    text.split("\n====\n")
        .nth(batch as usize)?
        .split_once("\n--\n")
}

/// A batch. The first one, and the one after all rows went, is loaded as a base file.
pub fn file_at(text: &str, batch: u32) -> &str {
    match part(text, batch) {
        Some((file, _)) => file,
        None => "",
    }
}

fn value_of(text: &str) -> u8 {
    match text {
        "c" => 0,
        "a" => 1,
        _ => 2,
    }
}

// A row of an id, three values and a whole amount.
fn sale_of(line: &str) -> Option<Sale> {
    let mut fields = line.split(',');
    fields.next()?;
    let values = [
        value_of(fields.next()?),
        value_of(fields.next()?),
        value_of(fields.next()?),
    ];
    let amount = fields.next()?.parse::<i64>().ok()?;
    Some(Sale {
        values,
        amount: amount.wrapping_mul(10),
    })
}

fn push_sales(sales: &mut Vec<Sale>, rows: &str) -> bool {
    'rows: for line in rows.lines() {
        let Some(sale) = sale_of(line) else {
            return false;
        };
        if sales.push(sale).is_err() {
            return false;
        }
    }
    true
}

/// The rows after a batch.
pub fn sales_at(alloc: Global, text: &str, batch: u32) -> Option<Vec<Sale>> {
    let (_, base) = part(text, batch)?;
    let (_, rows) = base.split_once('\n')?;
    let mut sales = Vec::new(alloc);
    if push_sales(&mut sales, rows) {
        return Some(sales);
    }
    drop(sales);
    None
}
