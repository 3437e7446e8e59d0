// Warehouses that take files.
use cell_core::Steps;
use qc_schema::read_schema;
use std::alloc::Global;
use std::sync::ledger::Ledger;
use warehouse::{Applied, Refused, Warehouse};

/// A base file, or a batch.
#[derive(Clone, Copy)]
pub struct File<'a> {
    pub is_base: bool,
    pub bytes: &'a [u8],
}

/// A base file of these bytes.
pub fn base(bytes: &[u8]) -> File<'_> {
    let is_base = true;
    File { is_base, bytes }
}

/// A batch of these bytes.
pub fn batch(bytes: &[u8]) -> File<'_> {
    let is_base = false;
    File { is_base, bytes }
}

/// What a file answers, if it is short.
pub fn change<L: Ledger>(
    shop: &mut Warehouse,
    file: File<'_>,
    steps: &mut Steps<L>,
) -> Result<Applied, Refused> {
    if file.bytes.len() > 10_000 {
        return Err(Refused::Memory);
    }
    if file.is_base {
        shop.load(file.bytes, steps)
    } else {
        shop.apply(file.bytes, steps)
    }
}

fn are_taken<L: Ledger>(shop: &mut Warehouse, files: &[File<'_>], steps: &mut Steps<L>) -> bool {
    'files: for file in files {
        if change(shop, *file, steps).is_err() {
            return false;
        }
    }
    true
}

// A warehouse without rows.
fn empty(alloc: Global, schema: &[u8]) -> Option<Warehouse> {
    if schema.len() > 1000 {
        return None;
    }
    match read_schema(alloc, schema) {
        Ok(schema) => Warehouse::new(alloc, schema).ok(),
        Err(_) => None,
    }
}

/// A warehouse that has taken these files.
pub fn filled<L: Ledger>(
    alloc: Global,
    schema: &[u8],
    files: &[File<'_>],
    steps: &mut Steps<L>,
) -> Option<Warehouse> {
    let mut shop = empty(alloc, schema)?;
    if are_taken(&mut shop, files, steps) {
        Some(shop)
    } else {
        shop.discard();
        None
    }
}

/// How many records a batch has, if it is taken.
pub fn apply<L: Ledger>(
    shop: &mut Warehouse,
    bytes: &[u8],
    steps: &mut Steps<L>,
) -> Result<u32, Refused> {
    match change(shop, batch(bytes), steps) {
        Ok(applied) => Ok(applied.records),
        Err(refused) => Err(refused),
    }
}

pub fn code(shop: &Warehouse, dim: u8, text: &str) -> Option<u32> {
    if dim < shop.schema().dims() {
        shop.dict().code(dim, text)
    } else {
        None
    }
}
