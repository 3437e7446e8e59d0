// The aggregates of the classes, one column for each measure.
ghost use Rattle.std.specs.Prelude.{IfOk, IfSome, IsTrue, OnOk, [], if◌then◌else◌, length, nat_eq, slice_index_or, vec_capacity, ℕ, ◌<◌, ◌≡◌, ◌≢◌, ◌≤◌};
ghost use Rattle.aggregates.specs.Bounds.{IsZero, zero_part};
ghost use Rattle.qc_arena.specs.Parts.{HasRoom, parts_in, shown};

use crate::Memory;
use crate::image_parts::ImageParts;
use aggregates::{Agg, Part};
use cube_defs::MAX_MEASURES;
use std::alloc::Global;

/// The part of a measure that isn't there.
pub(crate) const ZERO: Part = Part {
    sum: 0,
    least: 0,
    greatest: 0,
};

/// The parts of each class's aggregate, by node number. There is a column for each possible
/// measure. The column of a measure that no class has stays empty. Room is made when a node is
/// added.
#[derive(Drop)]
pub(crate) struct MeasureColumns {
    pub first: Vec<Part>,
    pub second: Vec<Part>,
    pub third: Vec<Part>,
    pub fourth: Vec<Part>,
}

// Makes room up to a number.
fn make_room(column: &mut Vec<Part>, node: u32) -> Result<(), Memory>
    ensures items { column.new.items ≡ column.old.items }
    ensures ok { OnOk result (node < vec_capacity column.new) }
    ensures room { (q : ℕ) → q < vec_capacity column.old → q < vec_capacity column.new }
{
    let place = node as usize;
    if place < column.len() {
        return Ok(());
    }
    column.reserve(place + 1 - column.len())
}

// The part at a number. It is zero after the column's end.
fn part_at(column: &Vec<Part>, node: u32) -> Part
    ensures { result ≡ slice_index_or column.now.items node zero_part }
{
    match column.get(node as usize) {
        None => ZERO,
        Some(part) => *part,
    }
}

pub(crate) fn is_zero(part: Part) -> bool
    ensures { IsTrue result → part ≡ zero_part }
{
    part.sum == 0 && part.least == 0 && part.greatest == 0
}

// Fills a column with zeros up to a number, which comes next.
fn fill(column: &mut Vec<Part>, node: u32)
    requires room { node < vec_capacity column.old }
    requires short { length column.old.items ≤ node }
    ensures same { (q : ℕ) → slice_index_or column.new.items q zero_part
        ≡ slice_index_or column.old.items q zero_part }
    ensures reached { length column.new.items ≡ node }
    ensures room { vec_capacity column.new ≡ vec_capacity column.old }
{
    'more: while column.len() < node as usize {
        column.push_reserved(ZERO);
    }
}

// Adds a part at the end of a column.
fn push_part(column: &mut Vec<Part>, part: Part)
    requires { length column.old.items < vec_capacity column.old }
    ensures parts { (q : ℕ)
        → slice_index_or column.new.items q zero_part
        ≡ (if nat_eq (length column.old.items) q then part
        else slice_index_or column.old.items q zero_part) }
    ensures room { vec_capacity column.new ≡ vec_capacity column.old }
{
    column.push_reserved(part);
}

// Writes the part at a number.
fn put_part(column: &mut Vec<Part>, node: u32, part: Part)
    requires { node < vec_capacity column.old }
    ensures parts { (q : ℕ)
        → slice_index_or column.new.items q zero_part ≡ (if nat_eq node q then part
        else slice_index_or column.old.items q zero_part) }
    ensures room { vec_capacity column.new ≡ vec_capacity column.old }
{
    if (node as usize) < column.len() {
        column[node as usize] = part;
        return;
    }
    if is_zero(part) {
        return;
    }
    fill(column, node);
    push_part(column, part);
}

impl MeasureColumns {
    // No parts, with room for those of so many nodes.
    pub(crate) fn with_room(alloc: Global, room: usize) -> Result<MeasureColumns, Memory> {
        Ok(MeasureColumns {
            first: Vec::with_capacity(alloc, room)?,
            second: Vec::with_capacity(alloc, room)?,
            third: Vec::with_capacity(alloc, room)?,
            fourth: Vec::with_capacity(alloc, room)?,
        })
    }

    // Whether there is room for the parts of a node.
    fn has_room(&self, node: u32) -> bool
        ensures { IsTrue result → HasRoom self.now node }
    {
        let place = node as usize;
        place < self.first.capacity()
            && place < self.second.capacity()
            && place < self.third.capacity()
            && place < self.fourth.capacity()
    }

    // Makes room for the parts of a node. The room is only set aside, and isn't written yet.
    pub(crate) fn reserve(&mut self, node: u32) -> Result<(), Memory>
        ensures same { (q : ℕ) → shown self.new q ≡ shown self.old q }
        ensures ok { OnOk result (HasRoom self.new node) }
        ensures room { (q : ℕ) → HasRoom self.old q → HasRoom self.new q }
    {
        if self.has_room(node) {
            return Ok(());
        }
        self.make_all_room(node)
    }

    // Makes room in each column.
    #[cold]
    #[inline(never)]
    fn make_all_room(&mut self, node: u32) -> Result<(), Memory>
        ensures same { (q : ℕ) → shown self.new q ≡ shown self.old q }
        ensures ok { OnOk result (HasRoom self.new node) }
        ensures room { (q : ℕ) → HasRoom self.old q → HasRoom self.new q }
    {
        match make_room(&mut self.first, node) {
            Ok(()) => {}
            Err(error) => return Err(error),
        }
        match make_room(&mut self.second, node) {
            Ok(()) => {}
            Err(error) => return Err(error),
        }
        match make_room(&mut self.third, node) {
            Ok(()) => {}
            Err(error) => return Err(error),
        }
        make_room(&mut self.fourth, node)
    }

    // The parts of a node.
    pub(crate) fn at(&self, node: u32) -> [Part; MAX_MEASURES as usize]
        ensures { result ≡ shown self.now node }
    {
        [
            part_at(&self.first, node),
            part_at(&self.second, node),
            part_at(&self.third, node),
            part_at(&self.fourth, node),
        ]
    }

    // The parts of a node for a before-image.
    pub(crate) fn copy(&self, alloc: Global, node: u32) -> Result<ImageParts, Memory>
        ensures { IfOk result (λ stored. parts_in stored ≡ shown self.now node) }
    {
        if self.has_one_column() {
            let first = part_at(&self.first, node);
            return Ok(ImageParts {
                first,
                others: None,
            });
        }
        ImageParts::of(alloc, &self.at(node))
    }

    // Writes the parts of a node.
    #[inline(never)]
    pub(crate) fn put(&mut self, node: u32, parts: &[Part; MAX_MEASURES as usize])
        requires { HasRoom self.old node }
        ensures here { shown self.new node ≡ parts.now }
        ensures others { (q : ℕ) → q ≢ node → shown self.new q ≡ shown self.old q }
        ensures room { (q : ℕ) → HasRoom self.old q → HasRoom self.new q }
        ensures four { length parts.now ≡ MAX_MEASURES }
    {
        put_part(&mut self.first, node, parts[0]);
        put_part(&mut self.second, node, parts[1]);
        put_part(&mut self.third, node, parts[2]);
        put_part(&mut self.fourth, node, parts[3]);
    }

    // Whether no class has a second measure.
    fn has_one_column(&self) -> bool
        ensures second { IsTrue result → self.now.second.items ≡ [] }
        ensures third { IsTrue result → self.now.third.items ≡ [] }
        ensures fourth { IsTrue result → self.now.fourth.items ≡ [] }
    {
        self.second.is_empty() && self.third.is_empty() && self.fourth.is_empty()
    }

    // Writes the parts of a node that has one measure at most, where no class has a second one.
    fn put_one(&mut self, node: u32, parts: &[Part; MAX_MEASURES as usize])
        requires room { HasRoom self.old node }
        requires second { self.old.second.items ≡ [] }
        requires third { self.old.third.items ≡ [] }
        requires fourth { self.old.fourth.items ≡ [] }
        requires one { (k : ℕ) → 1 ≤ k → IsZero (slice_index_or parts.now k zero_part) }
        ensures here { shown self.new node ≡ parts.now }
        ensures others { (q : ℕ) → q ≢ node → shown self.new q ≡ shown self.old q }
        ensures room { (q : ℕ) → HasRoom self.old q → HasRoom self.new q }
        ensures four { length parts.now ≡ MAX_MEASURES }
    {
        put_part(&mut self.first, node, parts[0]);
    }

    // Writes the parts of a class, if there is one.
    #[inline(never)]
    pub(crate) fn put_class(&mut self, node: u32, class: &Option<Agg>)
        requires { HasRoom self.old node }
        ensures here { IfSome class.now (λ a. (shown self.new node ≡ a.parts)
            × (length a.parts ≡ MAX_MEASURES)) }
        ensures others { (q : ℕ) → q ≢ node → shown self.new q ≡ shown self.old q }
        ensures room { (q : ℕ) → HasRoom self.old q → HasRoom self.new q }
    {
        let Some(agg) = class else {
            return;
        };
        if agg.measures <= 1 && self.has_one_column() {
            self.put_one(node, &agg.parts);
            return;
        }
        self.put(node, &agg.parts);
    }
}
