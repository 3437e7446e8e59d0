// What the images of the last change say of the root.

use crate::shops::{apply, base, filled};
use cell_core::{NodeNo, Steps};
use qc_arena::Look;
use std::alloc::Global;
use std::sync::ledger::Ledger;
use warehouse::{Refused, Warehouse};

const SCHEMA: &[u8] = b"qcube 1\nid id\ndim city\ndim item\nmeasure sale 0\nrows 3\nvalues 2\n";

// Rows of one city.
const BASE: &[u8] = b"id,city,item,sale\n1,Bonn,ink,5\n2,Bonn,pen,7\n";

const PLUS: &[u8] = b"op,id,city,item,sale\n+,3,Ulm,ink,1\n";

const MINUS: &[u8] = b"op,id,city,item,sale\n-,3,,,\n";

// What they say: nothing, that there was none, or how many edges it had.
fn root_before(shop: &mut Warehouse) -> Option<Option<u32>> {
    let images = shop.last_images();
    let root = match images.look(NodeNo(0)) {
        Look::Same => None,
        Look::Gone => Some(None),
        Look::Was(root) => Some(Some(root.edge_count())),
    };
    drop(images);
    root
}

// Whether the root had the edge of Bonn alone, which all rows shared, before another city came; and
// whether images are there once, and none after a refusal.
fn tell_of_the_root<L: Ledger>(shop: &mut Warehouse, steps: &mut Steps<L>) -> bool {
    let (loaded, again) = (root_before(shop), root_before(shop));
    let came = apply(shop, PLUS, steps);
    let applied = root_before(shop);
    let went = apply(shop, MINUS, steps);
    let missing = apply(shop, MINUS, steps);
    let refused = root_before(shop);
    let answers = matches!((came, went), (Ok(1), Ok(1)));
    let is_missing = matches!(missing, Err(Refused::Missing(1)));
    answers
        && is_missing
        && (loaded, again, applied, refused) == (Some(None), None, Some(Some(1)), None)
}

/// Whether they say what they should.
pub fn are_right<L: Ledger>(alloc: Global, steps: &mut Steps<L>) -> bool {
    let Some(mut shop) = filled(alloc, SCHEMA, &[base(BASE)], steps) else {
        return false;
    };
    let is_right = tell_of_the_root(&mut shop, steps);
    shop.discard();
    is_right
}
