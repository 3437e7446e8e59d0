// A warehouse with pins that takes batches.
use crate::drawn_pins::answers::{Asked, are_right};
use crate::drawn_pins::lines::Sale;
use crate::drawn_pins::rows::{file_at, sales_at};
use cell_core::Steps;
use pinned_view::{PinRefused, Pinned};
use qc_schema::read_schema;
use std::alloc::Global;
use std::sync::ledger::Ledger;
use warehouse::{Refused, Warehouse};

const SCHEMA: &[u8] = b"qcube 1\nid id\ndim x\ndim y\ndim z\nmeasure sale 1\n";

// Of a row that was never there.
const MISSING: &[u8] = b"op,id,x,y,z,sale\n+,1001,a,c,b,1\n-,1002,,,,\n";

// Of a row that may come.
const MORE: &[u8] = b"op,id,x,y,z,sale\n+,1001,a,c,b,1\n+,1002,b,d,b,1\n";

/// The number of the batch with which all rows go.
const LAST_OF_ALL: u32 = 9;

/// A warehouse without rows and without pins.
pub fn opened(alloc: Global) -> Option<Pinned> {
    match read_schema(alloc, SCHEMA) {
        Ok(schema) => Pinned::new(alloc, Warehouse::new(alloc, schema).ok()?).ok(),
        Err(_) => None,
    }
}

// The name of the pin of a batch.
fn name_of(alloc: Global, batch: u32) -> Option<String> {
    match format!(in alloc; "p{batch}") {
        Ok(name) => Some(name),
        Err(_) => None,
    }
}

/// Whether a batch is taken. The first one, and the one after all rows went, is a base file.
pub fn takes<L: Ledger>(pinned: &mut Pinned, text: &str, batch: u32, steps: &mut Steps<L>) -> bool {
    let file = file_at(text, batch);
    if file.len() > 10_000 {
        return false;
    }
    let answer = if batch == 0 || batch == LAST_OF_ALL + 1 {
        pinned.load(file.as_bytes(), steps)
    } else {
        pinned.apply(file.as_bytes(), steps)
    };
    answer.is_ok()
}

// What pinning the rows of now under a name answers.
fn pin_as(pinned: &mut Pinned, name: &str) -> Option<Result<(), PinRefused>> {
    if name.len() > 32 {
        return None;
    }
    Some(pinned.pin(name))
}

/// What pinning the rows of now under the name of a batch answers.
pub fn pin(alloc: Global, pinned: &mut Pinned, batch: u32) -> Option<Result<(), PinRefused>> {
    let name = name_of(alloc, batch)?;
    let answer = pin_as(pinned, name.as_str());
    drop(name);
    answer
}

fn lets_go(pinned: &mut Pinned, name: &str) -> bool {
    pinned.unpin(name).is_ok() && pinned.view(name).is_none()
}

/// Whether the pin of a batch was there, and is let go.
pub fn unpins(alloc: Global, pinned: &mut Pinned, batch: u32) -> bool {
    let Some(name) = name_of(alloc, batch) else {
        return false;
    };
    let lets_go = lets_go(pinned, name.as_str());
    drop(name);
    lets_go
}

// Whether the version of a name answers what is asked as the rows that were there.
fn answers<L: Ledger>(
    alloc: Global,
    pinned: &Pinned,
    name: &str,
    asked: Asked,
    sales: &[Sale],
    steps: &mut Steps<L>,
) -> bool {
    let shop = pinned.now();
    if shop.schema().dims() != 3 || shop.schema().measures() != 1 {
        return false;
    }
    match pinned.view(name) {
        Some(view) => are_right(alloc, &view, shop.dict(), asked, sales, steps),
        None => false,
    }
}

/// Whether the pin of a batch answers what is asked as the rows do that were there after it.
pub fn is_kept<L: Ledger>(
    alloc: Global,
    pinned: &Pinned,
    asked: Asked,
    text: &str,
    batch: u32,
    steps: &mut Steps<L>,
) -> bool {
    let Some(sales) = sales_at(alloc, text, batch) else {
        return false;
    };
    let is_kept = match name_of(alloc, batch) {
        Some(name) => {
            let answers = answers(alloc, pinned, name.as_str(), asked, &sales, steps);
            drop(name);
            answers
        }
        None => false,
    };
    drop(sales);
    is_kept
}

/// Whether a batch is refused that deletes a row that isn't there, and another is tried.
pub fn refuses_and_tries<L: Ledger>(pinned: &mut Pinned, steps: &mut Steps<L>) -> bool {
    let refused = pinned.apply(MISSING, steps);
    let tried = pinned.attempt(MORE, steps);
    matches!(refused, Err(Refused::Missing(2))) && tried.is_ok()
}
