// The worked tree: its cells are found under their numbers again.
ghost use Rattle.std.specs.Prelude.{IfSome, length, ◌≡◌};

use crate::shops::{apply, base, filled};
use cell_core::{Cell, Entry, NodeNo, Steps};
use std::alloc::Global;
use std::sync::ledger::Ledger;
use tree_search::find;
use warehouse::Warehouse;

const SCHEMA: &[u8] = b"qcube 1\nid id\ndim store\ndim product\ndim season\nmeasure sale 0\n";

const BASE: &[u8] = b"id,store,product,season,sale\n1,S1,P1,s,6\n2,S1,P2,s,12\n3,S2,P1,f,9\n";

const PLUS: &[u8] = b"op,id,store,product,season,sale\n+,4,S2,P2,f,3\n";

const MINUS: &[u8] = b"op,id,store,product,season,sale\n-,4,,,,\n";

// The texts of a cell; `*` stands for Any.
type Texts = [&'static str; 3];

// The cells of the nodes, with the place of the closure of each; `*` stands for Any.
static NODES: [(Texts, usize); 11] = [
    (["*", "*", "*"], 0),
    (["*", "P1", "*"], 1),
    (["S1", "*", "*"], 3),
    (["S1", "*", "s"], 3),
    (["S1", "P1", "*"], 5),
    (["S1", "P1", "s"], 5),
    (["S1", "P2", "*"], 7),
    (["S1", "P2", "s"], 7),
    (["S2", "*", "*"], 10),
    (["S2", "P1", "*"], 10),
    (["S2", "P1", "f"], 10),
];

// The place of the one cell whose closure is another while the fourth row is there.
const S2: usize = 8;

type Numbers = [Option<NodeNo>; 11];

// The cell with these texts, where all are known.
fn cell_of(alloc: Global, shop: &Warehouse, texts: &Texts) -> Option<Cell>
    ensures { IfSome result (λ cell. length cell ≡ length shop.now.state.schema.dims) }
{
    if shop.schema().dims() != 3 {
        return None;
    }
    let mut cell = Cell::any(alloc, 3);
    'dims: for dim in 0..3u8 {
        let text = texts[usize::from(dim)];
        if text != "*" {
            let code = shop.dict().code(dim, text)?;
            cell.set(dim, Entry::Is(code));
        }
    }
    Some(cell)
}

// The number of a cell's closure.
fn number_of<L: Ledger>(
    alloc: Global,
    shop: &Warehouse,
    texts: &Texts,
    steps: &mut Steps<L>,
) -> Option<NodeNo> {
    let cell = cell_of(alloc, shop, texts)?;
    find(shop.tree(), &cell, steps)
}

fn numbers<L: Ledger>(alloc: Global, shop: &Warehouse, steps: &mut Steps<L>) -> Numbers {
    let mut numbers = [None; 11];
    'nodes: for place in 0..11 {
        let (texts, _) = NODES[place];
        numbers[place] = number_of(alloc, shop, &texts, steps);
    }
    numbers
}

// The numbers after a batch, where it is taken.
fn numbers_after<L: Ledger>(
    alloc: Global,
    shop: &mut Warehouse,
    batch: &[u8],
    steps: &mut Steps<L>,
) -> Option<Numbers> {
    match apply(shop, batch, steps) {
        Ok(_) => Some(numbers(alloc, shop, steps)),
        Err(_) => None,
    }
}

// The numbers after the base file, after the fourth row came, and after it went.
fn found<L: Ledger>(alloc: Global, steps: &mut Steps<L>) -> Option<[Option<Numbers>; 3]> {
    let mut shop = filled(alloc, SCHEMA, &[base(BASE)], steps)?;
    let first = numbers(alloc, &shop, steps);
    let with = numbers_after(alloc, &mut shop, PLUS, steps);
    let last = numbers_after(alloc, &mut shop, MINUS, steps);
    shop.discard();
    Some([Some(first), with, last])
}

// Whether two cells have one number just where they have one closure.
fn are_closures(numbers: &Numbers) -> bool {
    for one in 0..11 {
        for other in 0..11 {
            let is_same = NODES[one].1 == NODES[other].1;
            if numbers[one].is_none() || (numbers[one] == numbers[other]) != is_same {
                return false;
            }
        }
    }
    true
}

// Whether each cell but one has its number again.
fn differ_at_one(with: &Numbers, first: &Numbers) -> bool {
    'cells: for place in 0..11 {
        if (with[place] == first[place]) != (place != S2) {
            return false;
        }
    }
    true
}

// Whether these are the numbers after the base file, after the fourth row came, and after it went.
fn are_kept(numbers: &[Option<Numbers>; 3]) -> bool {
    let [Some(first), Some(with), Some(last)] = *numbers else {
        return false;
    };
    are_closures(&first) && differ_at_one(&with, &first) && last == first
}

/// Whether the worked tree keeps its numbers.
pub fn is_right<L: Ledger>(alloc: Global, steps: &mut Steps<L>) -> bool {
    match found(alloc, steps) {
        Some(numbers) => are_kept(&numbers),
        None => false,
    }
}
