ghost use Rattle.std.specs.Prelude.{All, IfOk, OnOk, length, nat_abs, ◌<◌, ◌≡◌, ◌≤◌};
ghost use Rattle.aggregates.specs.Views.{IsThere};

use aggregates::{Agg, AggKind, read_fraction};
use cell_core::NodeNo;
use cube_defs::{MAX_AMOUNT, Memory};
use measure_index::{Index, IndexBuilder, Walk};
use std::alloc::Global;

// Classes of one row, by the numbers of their nodes and their amounts.
fn classes(alloc: Global, told: &[(u32, i64)]) -> Result<Vec<(NodeNo, Agg)>, Memory>
    requires { All (λ class. nat_abs class.1 ≤ MAX_AMOUNT) told.now }
    ensures { IfOk result (λ classes. All (λ class. class.1.measures ≡ 1) classes.items) }
{
    let mut classes = Vec::new(alloc);
    'told: for k in 0..told.len() {
        let (node, amount) = told[k];
        classes.push((NodeNo(node), Agg::one(&[amount])))?;
    }
    Ok(classes)
}

// Changes an index of kinds of one measure.
fn change(
    alloc: Global,
    index: &mut Index,
    add: &[(u32, i64)],
    remove: &[(u32, i64)],
) -> Result<(), Memory>
    requires kinds { All (λ r. IsThere 1 r.kind) index.old }
    requires add { All (λ class. nat_abs class.1 ≤ MAX_AMOUNT) add.now }
    requires remove { All (λ class. nat_abs class.1 ≤ MAX_AMOUNT) remove.now }
    ensures { OnOk result (All (λ r. IsThere 1 r.kind) index.new) }
{
    let add = classes(alloc, add)?;
    let remove = classes(alloc, remove)?;
    index.change(&add, &remove)
}

// An index of kinds of one measure, filled.
fn filled(alloc: Global, kinds: &[AggKind], add: &[(u32, i64)]) -> Result<Index, Memory>
    requires kinds { All (IsThere 1) kinds.now }
    requires add { All (λ class. nat_abs class.1 ≤ MAX_AMOUNT) add.now }
    requires few { length add.now < 4294967296 }
{
    let mut filling = IndexBuilder::new(alloc, kinds, &[2], add.len())?;
    'told: for k in 0..add.len() {
        let (node, amount) = add[k];
        filling.push(NodeNo(node), &Agg::one(&[amount]))?;
    }
    filling.finish()
}

// The numbers of the first nodes that are left, with zeros after them.
fn nodes_left(walk: &mut Walk<'_>) -> [u32; 6] {
    let mut nodes = [0; 6];
    'walk: for k in 0..6 {
        if let Some((node, _value)) = walk.next() {
            nodes[k] = node.0;
        }
    }
    nodes
}

// The nodes with at least a value and with at most, each with the entries read.
type Found = [([u32; 6], u64); 2];

// What qualifies with at least a value, and with at most the value, each with the entries read.
// None where the value is no fraction, or the index doesn't have the kind.
fn asked(index: &Index, kind: AggKind, value: &[u8]) -> Option<Found> {
    let value = read_fraction(value)?;
    if !index.has(kind) {
        return None;
    }
    let mut falling = index.at_least(kind, &value);
    let least = nodes_left(&mut falling);
    let mut rising = index.at_most(kind, &value);
    let most = nodes_left(&mut rising);
    Some([(least, falling.taken()), (most, rising.taken())])
}

fn answers(index: &Index, kind: AggKind, value: &[u8], want: &Found) -> bool {
    asked(index, kind, value) == Some(*want)
}

static TOLD: [(u32, i64); 5] = [(4, 150), (9, -200), (2, 150), (7, 0), (5, -33)];

// The value, and the nodes with at least the value and with at most, with the entries read.
static WALKS: [(&[u8], Found); 6] = [
    (b"3/2", [([4, 2, 0, 0, 0, 0], 3), ([9, 5, 7, 2, 4, 0], 5)]),
    (b"-1/3", [([4, 2, 7, 5, 0, 0], 5), ([9, 0, 0, 0, 0, 0], 2)]),
    (
        b"-33/100",
        [([4, 2, 7, 5, 0, 0], 5), ([9, 5, 0, 0, 0, 0], 3)],
    ),
    (
        b"-0.330001",
        [([4, 2, 7, 5, 0, 0], 5), ([9, 0, 0, 0, 0, 0], 2)],
    ),
    (b"1.51", [([0; 6], 1), ([9, 5, 7, 2, 4, 0], 5)]),
    (b"-2.01", [([4, 2, 7, 5, 9, 0], 5), ([0; 6], 1)]),
];

// Whether all walks over an index of sums give what they should.
fn are_walks_right(index: &Index) -> bool {
    'walks: for (value, expected) in &WALKS {
        if !answers(index, AggKind::Sum(0), value, expected) {
            return false;
        }
    }
    true
}

fn are_classes_walked(alloc: Global) -> bool {
    let Ok(mut index) = Index::new(alloc, &[AggKind::Sum(0)], &[2]) else {
        return false;
    };
    let are_walked = change(alloc, &mut index, &TOLD, &[]).is_ok() && are_walks_right(&index);
    drop(index);
    are_walked
}

const KINDS: [AggKind; 3] = [AggKind::Sum(0), AggKind::Count, AggKind::Mean(0)];

// What is asked of a filled index of three kinds, and what comes.
static FILLED: [(&[u8], Found); 3] = [
    (b"-0.33", [([4, 2, 7, 5, 0, 0], 5), ([9, 5, 0, 0, 0, 0], 3)]),
    (b"1", [([9, 7, 5, 4, 2, 0], 5), ([2, 4, 5, 7, 9, 0], 5)]),
    (
        b"-33/100",
        [([4, 2, 7, 5, 0, 0], 5), ([9, 5, 0, 0, 0, 0], 3)],
    ),
];

fn is_filled_right(index: &Index) -> bool {
    'kinds: for k in 0..3 {
        let (value, expected) = FILLED[k];
        if !answers(index, KINDS[k], value, &expected) {
            return false;
        }
    }
    true
}

fn is_filled(alloc: Global) -> bool {
    let Ok(index) = filled(alloc, &KINDS, &TOLD) else {
        return false;
    };
    let is_right = is_filled_right(&index);
    drop(index);
    is_right
}

const LEAST: AggKind = AggKind::Least(0);

// Three classes come; one of them goes and comes, two go and two come; all go.
fn come_and_go(alloc: Global, index: &mut Index) -> bool
    requires { All (λ r. IsThere 1 r.kind) index.old }
{
    let came = [(1, 5), (2, 5), (3, -7)];
    let there = [(1, 5), (3, 5), (4, 6)];
    if change(alloc, index, &came, &[]).is_err() || change(alloc, index, &there, &came).is_err() {
        return false;
    }
    let are_there = answers(index, LEAST, b"5", &THREE);
    change(alloc, index, &[], &there).is_ok() && are_there && answers(index, LEAST, b"5", &NONE)
}

static THREE: Found = [([4, 3, 1, 0, 0, 0], 3), ([1, 3, 0, 0, 0, 0], 3)];

static NONE: Found = [([0; 6], 0), ([0; 6], 0)];

fn have_come_and_gone(alloc: Global) -> bool {
    let Ok(mut index) = Index::new(alloc, &[LEAST], &[0]) else {
        return false;
    };
    let is_right = come_and_go(alloc, &mut index);
    drop(index);
    is_right
}

static BOTH: Found = [([3, 0, 0, 0, 0, 0], 1), ([3, 0, 0, 0, 0, 0], 1)];

// Whether the one class of two rows, with the amounts -3 and 8, qualifies from both sides.
fn is_found(alloc: Global, kind: AggKind, value: &[u8]) -> bool
    requires { IsThere 1 kind }
{
    let mut agg = Agg::one(&[-3]);
    agg.add_row(&[8]);
    let classes = [(NodeNo(3), agg)];
    let Ok(mut index) = Index::new(alloc, &[kind], &[1]) else {
        return false;
    };
    let is_found = index.change(&classes, &[]).is_ok() && answers(&index, kind, value, &BOTH);
    drop(index);
    is_found
}

// Whether each kind has its value.
fn have_values(alloc: Global) -> bool {
    is_found(alloc, AggKind::Count, b"2")
        && is_found(alloc, AggKind::Sum(0), b"0.5")
        && is_found(alloc, AggKind::Least(0), b"-3/10")
        && is_found(alloc, AggKind::Greatest(0), b"8/10")
        && is_found(alloc, AggKind::Mean(0), b"0.25")
}

fn are_kinds_named(index: &Index) -> bool {
    index.has(AggKind::Count)
        && index.has(AggKind::Mean(0))
        && !index.has(AggKind::Mean(1))
        && !index.has(AggKind::Sum(0))
}

fn has_named_kinds(alloc: Global) -> bool {
    let Ok(index) = Index::new(alloc, &[AggKind::Mean(0), AggKind::Count], &[0]) else {
        return false;
    };
    let is_right = are_kinds_named(&index);
    drop(index);
    is_right
}

/// Whether classes are walked from either end, come and go, and only the kinds that were named are
/// there.
pub(crate) fn are_right(alloc: Global) -> bool {
    are_classes_walked(alloc)
        && is_filled(alloc)
        && have_come_and_gone(alloc)
        && have_values(alloc)
        && has_named_kinds(alloc)
}
