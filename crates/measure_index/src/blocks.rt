// Keys in rising order, in blocks none of which is empty.
ghost use Rattle.std.specs.List.{All, insert, remove};
ghost use Rattle.std.specs.Ordering.{is_gt, is_lt};
ghost use Rattle.std.specs.declared.cmp.Ordering.TheVariants.{Less};
ghost use Rattle.std.specs.Prelude.{IfOk, OnErr, Vec, drop, false, if◌then◌else◌, is_ok, length, slice_index_or, true, vec_capacity, vec_len, ◌+◌, ◌++◌, ◌-◌, ◌<◌, ◌≡◌, ◌≤◌};
ghost use Rattle.measure_index.specs.Blocks.{AreBlocks, AreBounds, HasCome, HasGone, joined, place_of};
ghost use Rattle.measure_index.specs.ColumnKeys.{key_cmp};
ghost use Rattle.measure_index.specs.Keys.{IsPlace, among};
ghost use Rattle.measure_index.specs.Spots.{IsSpot};

use crate::key::Key;
use cube_defs::Memory;
use std::alloc::{AllocError, Global};

/// A block with so many keys is split before another one comes into it.
const MOST: usize = 64;

/// How many keys stay in a block that is split.
const HALF: usize = 32;

/// How many keys a block has that is made together with others.
const FILLED: usize = 48;

/// A block with fewer keys is joined with the next one if that leaves room.
const FEWEST: usize = 8;

/// How many blocks a search passes one by one before its steps grow.
const SINGLE_STEPS: usize = 4;

/// How many keys of a block a search passes at once.
const STRIDE: usize = 8;

/// Where a key stands or would stand: the number of its block, its place there, and whether it is
/// there.
#[derive(Clone, Copy)]
pub(crate) struct Spot {
    pub(crate) block: usize,
    pub(crate) place: usize,
    pub(crate) found: bool,
}

// Whether the keys of a block begin with one that is greater.
fn begins_after(block: &Vec<Key>, key: &Key) -> bool
    requires { 0 < length block.now.items }
    ensures { (d : Key)
        → result ≡ is_gt (key_cmp (slice_index_or block.now.items 0 d) key.now) }
{
    key.is_before(&block[0])
}

// The last block up to a number that doesn't begin after the key, and the first one from there on
// that does. The search begins at a block that is near. The next key of a batch is seldom far, so
// only the later steps grow.
fn bounds_near(blocks: &[Vec<Key>], near: usize, key: &Key) -> (usize, usize)
    requires near { near < length blocks.now }
    requires full { All (λ b. 0 < length b.items) blocks.now }
    ensures { AreBounds blocks.now key.now result.0 result.1 }
{
    let mut low = if begins_after(&blocks[near], key) {
        0
    } else {
        near
    };
    let mut step = 1;
    let mut passed = 0;
    'steps: while low + step < blocks.len() && !begins_after(&blocks[low + step], key) {
        low += step;
        passed += 1;
        if passed > SINGLE_STEPS {
            step *= 2;
        }
    }
    (low, blocks.len().min(low + step))
}

// The last block that doesn't begin after the key, or else the first block.
fn block_for(blocks: &[Vec<Key>], near: usize, key: &Key) -> usize
    requires near { near < length blocks.now }
    requires full { All (λ b. 0 < length b.items) blocks.now }
    ensures { AreBounds blocks.now key.now result (result + 1) }
{
    let (mut low, mut high) = bounds_near(blocks, near, key);
    'halves: while high - low > 1 {
        let middle = low + (high - low) / 2;
        if begins_after(&blocks[middle], key) {
            high = middle;
        } else {
            low = middle;
        }
    }
    low
}

// A place before which a smaller key stands, or 0, with fewer smaller keys from there on than a
// stride has. Sorted keys are passed in strides.
fn passed_in(keys: &[Key], key: &Key) -> usize
    ensures within { result ≤ length keys.now }
    ensures less { (d : Key) → 0 < result
        → key_cmp (slice_index_or keys.now (result - 1) d) key.now ≡ Less }
    ensures near { (d : Key) → result + 8 ≤ length keys.now
        → is_lt (key_cmp (slice_index_or keys.now (result + 7) d) key.now) ≡ false }
{
    let mut place = 0;
    'strides: while place + STRIDE <= keys.len() && keys[place + STRIDE - 1].is_before(key) {
        place += STRIDE;
    }
    place
}

// The first place whose key isn't smaller, among sorted keys. They are read in their order, so the
// processor fetches them ahead.
fn place_in(keys: &[Key], key: &Key) -> usize
    ensures { IsPlace key_cmp keys.now key.now result }
{
    let mut place = passed_in(keys, key);
    'places: while place < keys.len() && keys[place].is_before(key) {
        place += 1;
    }
    place
}

// Where a key stands or would stand. The search begins at a block that is near.
#[inline(always)]
fn spot_of(blocks: &[Vec<Key>], near: usize, key: &Key) -> Spot
    requires some { 0 < length blocks.now }
    requires are { AreBlocks blocks.now }
    ensures { IsSpot blocks.now key.now result }
{
    let block = block_for(blocks, near.min(blocks.len() - 1), key);
    let keys: &[Key] = &blocks[block];
    let place = place_in(keys, key);
    Spot {
        block,
        place,
        found: place < keys.len() && keys[place].cmp(key).is_eq(),
    }
}

// A block of some keys, with room for more.
fn block_of(alloc: Global, keys: &[Key]) -> Result<Vec<Key>, Memory>
    ensures { IfOk result (λ block. block.items ≡ keys.now) }
{
    let mut block = Vec::with_capacity(alloc, MOST)?;
    block.extend_from_slice(keys)?;
    Ok(block)
}

// Takes the upper keys of a block to a block of their own.
fn split(alloc: Global, blocks: &mut Vec<Vec<Key>>, at: usize) -> Result<(), Memory>
    requires are { AreBlocks blocks.old.items }
    requires within { at < length blocks.old.items }
    requires long { (d : Vec Key Global)
        → 32 < length (slice_index_or blocks.old.items at d).items }
    ensures are { AreBlocks blocks.new.items }
    ensures same { joined blocks.new.items ≡ joined blocks.old.items }
    ensures some { 0 < length blocks.new.items }
{
    let upper = block_of(alloc, &blocks[at][HALF..])?;
    if blocks.insert(at + 1, upper).is_err() {
        return Err(AllocError);
    }
    blocks[at].truncate(HALF);
    Ok(())
}

// Splits the block of a key that isn't there, and gives the key's spot then.
#[inline(never)]
fn spot_after_split(
    alloc: Global,
    blocks: &mut Vec<Vec<Key>>,
    block: usize,
    key: &Key,
) -> Result<Spot, Memory>
    requires are { AreBlocks blocks.old.items }
    requires within { block < length blocks.old.items }
    requires long { (d : Vec Key Global)
        → 32 < length (slice_index_or blocks.old.items block d).items }
    ensures are { AreBlocks blocks.new.items }
    ensures same { joined blocks.new.items ≡ joined blocks.old.items }
    ensures spot { IfOk result (λ spot. IsSpot blocks.new.items key.now spot) }
{
    split(alloc, blocks, block)?;
    Ok(spot_of(blocks, block, key))
}

// The spot of a key. If the key isn't there, its block has room.
fn roomy_spot(
    alloc: Global,
    blocks: &mut Vec<Vec<Key>>,
    near: usize,
    key: &Key,
) -> Result<Spot, Memory>
    requires some { 0 < length blocks.old.items }
    requires are { AreBlocks blocks.old.items }
    ensures are { AreBlocks blocks.new.items }
    ensures same { joined blocks.new.items ≡ joined blocks.old.items }
    ensures spot { IfOk result (λ spot. IsSpot blocks.new.items key.now spot) }
{
    let spot = spot_of(blocks, near, key);
    if spot.found || blocks[spot.block].len() < MOST {
        return Ok(spot);
    }
    spot_after_split(alloc, blocks, spot.block, key)
}

// Adds a key at a place of a block. The keys from there on are moved at once.
fn insert_at(block: &mut Vec<Key>, place: usize, key: Key) -> Result<(), Memory>
    requires { place ≤ length block.old.items }
    ensures { block.new.items
        ≡ (if is_ok result then insert block.old.items place key else block.old.items) }
{
    block.push(key)?;
    block[place..].rotate_right(1);
    Ok(())
}

/// Adds a key if it isn't there, and says whether it came. The search begins at the block of the
/// last one.
pub(crate) fn insert_key(
    alloc: Global,
    blocks: &mut Vec<Vec<Key>>,
    near: &mut usize,
    key: Key,
) -> Result<bool, Memory>
    requires { AreBlocks blocks.old.items }
    ensures are { AreBlocks blocks.new.items }
    ensures come { IfOk result (HasCome key (joined blocks.old.items) (joined blocks.new.items)) }
    ensures err { OnErr result (joined blocks.new.items ≡ joined blocks.old.items) }
{
    if blocks.is_empty() {
        blocks.push(block_of(alloc, &[key])?)?;
        return Ok(true);
    }
    let spot = roomy_spot(alloc, blocks, *near, &key)?;
    *near = spot.block;
    if spot.found {
        return Ok(false);
    }
    match insert_at(&mut blocks[spot.block], spot.place, key) {
        Ok(()) => Ok(true),
        Err(error) => Err(error),
    }
}

// Takes the next block's keys into a block.
fn join(blocks: &mut Vec<Vec<Key>>, at: usize)
    requires are { AreBlocks blocks.old.items }
    requires next { at + 1 < length blocks.old.items }
    requires room { (d : Vec Key Global)
        → vec_len (slice_index_or blocks.old.items at d)
        + vec_len (slice_index_or blocks.old.items (at + 1) d)
        ≤ vec_capacity (slice_index_or blocks.old.items at d) }
    ensures are { AreBlocks blocks.new.items }
    ensures same { joined blocks.new.items ≡ joined blocks.old.items }
{
    let next = blocks.remove(at + 1);
    let _ = blocks[at].extend_from_slice(&next);
}

// Joins a small block with the next one if there is room, which takes no memory.
fn join_small(blocks: &mut Vec<Vec<Key>>, at: usize)
    requires { AreBlocks blocks.old.items }
    ensures are { AreBlocks blocks.new.items }
    ensures same { joined blocks.new.items ≡ joined blocks.old.items }
{
    if blocks.len().saturating_sub(at) < 2 || blocks[at].len() >= FEWEST {
        return;
    }
    let both = blocks[at].len() + blocks[at + 1].len();
    if both <= FILLED && both <= blocks[at].capacity() {
        join(blocks, at);
    }
}

// Takes the key at a place of a block out, with the block if that was its only key.
fn take_out(blocks: &mut Vec<Vec<Key>>, block: usize, place: usize)
    requires are { AreBlocks blocks.old.items }
    requires block { block < length blocks.old.items }
    requires place { (d : Vec Key Global)
        → place < length (slice_index_or blocks.old.items block d).items }
    ensures are { AreBlocks blocks.new.items }
    ensures taken { joined blocks.new.items
        ≡ remove (joined blocks.old.items) (place_of blocks.old.items block place) }
{
    if blocks[block].len() == 1 {
        blocks.remove(block);
        return;
    }
    blocks[block].remove(place);
}

/// Takes a key out if it is there, and says whether it went. The search begins at the block of the
/// last one.
pub(crate) fn remove_key(blocks: &mut Vec<Vec<Key>>, near: &mut usize, key: &Key) -> bool
    requires { AreBlocks blocks.old.items }
    ensures are { AreBlocks blocks.new.items }
    ensures gone { HasGone key.now (joined blocks.old.items) (joined blocks.new.items) result }
{
    if blocks.is_empty() {
        return false;
    }
    let spot = spot_of(blocks, *near, key);
    *near = spot.block;
    if spot.found {
        take_out(blocks, spot.block, spot.place);
        join_small(blocks, spot.block);
    }
    spot.found
}

/// The blocks of some keys, which rise.
pub(crate) fn blocks_of(alloc: Global, keys: &[Key]) -> Result<Vec<Vec<Key>>, Memory>
    ensures full { IfOk result (λ blocks. All (λ b. 0 < length b.items) blocks.items) }
    ensures keys { IfOk result (λ blocks. joined blocks.items ≡ keys.now) }
{
    let mut blocks = Vec::with_capacity(alloc, keys.len() / FILLED + 1)?;
    let mut rest = keys;
    'parts: while rest.len() > 0 {
        let (front, back) = rest.split_at(rest.len().min(FILLED));
        blocks.push(block_of(alloc, front)?)?;
        rest = back;
    }
    Ok(blocks)
}
