// A list of keys that finds the last place of a key, and from each place the one before of the same
// key.
ghost use Rattle.std.specs.Prelude.{IfNone, IfSome, OnErr, OnOk, [], length, slice_index, slice_index_or, take, vec_capacity, vec_len, ◌+◌, ◌++◌, ◌-◌, ◌<◌, ◌∷◌, ◌^◌, ◌≡◌, ◌≤◌, ℕ};
ghost use Rattle.base_table.specs.Last.{AreChains, AreLinkable, bucket_in, in_bucket, last_of, picked};

use crate::numbered::Numbered;
use std::alloc::{AllocError, Global};
use std::marker::Model;

// Keys in buckets. A head is one more than the last place of its bucket, or 0. Each place has one
// more than the place before of the same bucket, or 0. The last keys may have no links yet, but
// there is room for these.
#[derive(Drop)]
pub(crate) struct Links<K: Numbered> {
    multiplier: u32,
    heads: Vec<u32>,
    keys: Vec<K>,
    before: Vec<u32>,
}

/// A list of keys. The last place of a key is found in a few steps, and from a place the one before
/// of the same key. Keys without links are looked at one by one, from the end.
#[derive(Drop)]
pub struct Chains<K: Numbered> {
    links: Links<K>,
}

impl<K: Numbered> Model for Chains<K> {
    ghost use Rattle.std.specs.Prelude.{List, vec_capacity};
    ghost use Rattle.base_table.specs.Last.{AreLinkable};

    ghost Value = { List K };

    ghost view = { λ c. c.links.keys.items };

    ghost invariant = { λ c. AreLinkable K.number c.links.multiplier c.links.heads.items
        c.links.keys.items c.links.before.items (vec_capacity c.links.before)
        (vec_capacity c.links.heads) };
}

// The bucket of a key.
fn bucket<K: Numbered>(key: &K, multiplier: u32, heads: &Vec<u32>) -> usize
    requires { 0 < length heads.now.items }
    ensures bucket { result ≡ bucket_in K.number multiplier (length heads.now.items) key.now }
    ensures within { result < length heads.now.items }
{
    key.number(multiplier) as usize % heads.len()
}

// One more than the last place of the key among those with links, or 0, by a walk that starts at
// the last place of its bucket.
fn find_from<K: Numbered>(links: &Links<K>, key: &K, start: u32) -> u32
    requires chains { AreChains K.number links.now.multiplier links.now.heads.items
        (take (length links.now.before.items) links.now.keys.items) links.now.before.items }
    requires within { start ≤ length (take (length links.now.before.items) links.now.keys.items) }
    requires last { last_of
        (in_bucket (bucket_in K.number links.now.multiplier (length links.now.heads.items)) key.now)
        (take start (take (length links.now.before.items) links.now.keys.items)) ≡ start }
    ensures { result ≡ last_of (K.eq key.now)
        (take start (take (length links.now.before.items) links.now.keys.items)) }
{
    let mut at = start;
    'places: while at > 0 && *key != links.keys[at as usize - 1] {
        at = links.before[at as usize - 1];
    }
    at
}

// One more than the last place of the key among those with links, or 0.
fn last_linked<K: Numbered>(links: &Links<K>, key: &K) -> u32
    requires { AreChains K.number links.now.multiplier links.now.heads.items
        (take (length links.now.before.items) links.now.keys.items) links.now.before.items }
    ensures { result ≡ last_of (K.eq key.now)
        (take (length links.now.before.items) links.now.keys.items) }
{
    if links.heads.is_empty() {
        return 0;
    }
    let at = bucket(key, links.multiplier, &links.heads);
    find_from(links, key, links.heads[at])
}

// One more than the last place of the key among those before a place that have no links.
fn last_unlinked<K: Numbered>(links: &Links<K>, key: &K, place: usize) -> Option<u32>
    requires linked { length links.now.before.items ≤ place }
    requires within { place ≤ length links.now.keys.items }
    requires small { length links.now.keys.items < 2 ^ 32 }
    ensures some { IfSome result (λ at. at ≡ last_of (K.eq key.now)
        (take place links.now.keys.items)) }
    ensures none { IfNone result (last_of (K.eq key.now) (take place links.now.keys.items)
        ≡ last_of (K.eq key.now) (take (length links.now.before.items) links.now.keys.items)) }
{
    let mut at = place;
    'places: while at > links.before.len() {
        if *key == links.keys[at - 1] {
            return Some(at as u32);
        }
        at -= 1;
    }
    None
}

// One more than the last place of the key before a place, or 0. The keys from there on have no
// links.
fn last_before<K: Numbered>(links: &Links<K>, key: &K, place: usize) -> u32
    requires linked { length links.now.before.items ≤ place }
    requires within { place ≤ length links.now.keys.items }
    requires small { length links.now.keys.items < 2 ^ 32 }
    requires chains { AreChains K.number links.now.multiplier links.now.heads.items
        (take (length links.now.before.items) links.now.keys.items) links.now.before.items }
    ensures { result ≡ last_of (K.eq key.now) (take place links.now.keys.items) }
{
    match last_unlinked(links, key, place) {
        Some(at) => at,
        None => last_linked(links, key),
    }
}

// Links the first key that has no link yet.
fn link_next<K: Numbered>(links: &mut Links<K>)
    requires more { length links.old.before.items < length links.old.keys.items }
    requires room { length links.old.before.items < vec_capacity links.old.before }
    requires small { length links.old.keys.items < 2 ^ 32 }
    requires some { 0 < length links.old.heads.items }
    requires chains { AreChains K.number links.old.multiplier links.old.heads.items
        (take (length links.old.before.items) links.old.keys.items) links.old.before.items }
    ensures chains { AreChains K.number links.new.multiplier links.new.heads.items
        (take (length links.new.before.items) links.new.keys.items) links.new.before.items }
    ensures keys { links.new.keys ≡ links.old.keys }
    ensures len { length links.new.before.items ≡ length links.old.before.items + 1 }
    ensures room { vec_capacity links.new.before ≡ vec_capacity links.old.before }
    ensures heads { length links.new.heads.items ≡ length links.old.heads.items }
    ensures buckets { vec_capacity links.new.heads ≡ vec_capacity links.old.heads }
{
    let place = links.before.len();
    let at = bucket(&links.keys[place], links.multiplier, &links.heads);
    links.before.push_reserved(links.heads[at]);
    links.heads[at] = place as u32 + 1;
}

// Removes all links, and makes as many buckets as there is room for. Takes no memory.
fn clear_links<K: Numbered>(links: &mut Links<K>)
    ensures zero { (j : ℕ) → slice_index links.new.heads.items j ≡ 0 }
    ensures heads { length links.new.heads.items ≡ vec_capacity links.old.heads }
    ensures before { links.new.before.items ≡ [] }
    ensures multiplier { links.new.multiplier ≡ links.old.multiplier }
    ensures keys { links.new.keys ≡ links.old.keys }
    ensures room { vec_capacity links.new.before ≡ vec_capacity links.old.before }
    ensures buckets { vec_capacity links.old.heads ≤ vec_capacity links.new.heads }
{
    let room = links.heads.capacity();
    links.before.clear();
    links.heads.clear();
    links.heads.resize(room, 0).unwrap();
}

// Links the keys that have no links yet, for which there are buckets. Takes no memory.
fn link_on<K: Numbered>(links: &mut Links<K>)
    requires few { length links.old.before.items ≤ length links.old.keys.items }
    requires small { length links.old.keys.items < 2 ^ 32 }
    requires some { length links.old.keys.items < length links.old.heads.items }
    requires fits { length links.old.keys.items ≤ vec_capacity links.old.before }
    requires chains { AreChains K.number links.old.multiplier links.old.heads.items
        (take (length links.old.before.items) links.old.keys.items) links.old.before.items }
    ensures chains { AreChains K.number links.new.multiplier links.new.heads.items
        links.new.keys.items links.new.before.items }
    ensures keys { links.new.keys ≡ links.old.keys }
    ensures room { vec_capacity links.new.before ≡ vec_capacity links.old.before }
    ensures buckets { vec_capacity links.new.heads ≡ vec_capacity links.old.heads }
{
    'keys: while links.before.len() < links.keys.len() {
        link_next(links);
    }
}

// Links all keys from scratch, if there are any. Takes no memory.
fn relink<K: Numbered>(links: &mut Links<K>)
    requires small { length links.old.keys.items < 2 ^ 32 }
    requires some { 0 < length links.old.keys.items
        → length links.old.keys.items < vec_capacity links.old.heads }
    requires room { length links.old.keys.items ≤ vec_capacity links.old.before }
    ensures chains { AreChains K.number links.new.multiplier links.new.heads.items
        links.new.keys.items links.new.before.items }
    ensures keys { links.new.keys ≡ links.old.keys }
    ensures room { vec_capacity links.new.before ≡ vec_capacity links.old.before }
    ensures buckets { vec_capacity links.old.heads ≤ vec_capacity links.new.heads }
{
    clear_links(links);
    if !links.keys.is_empty() {
        link_on(links);
    }
}

// Links the keys that have no links yet. Takes no memory.
fn link_rest<K: Numbered>(links: &mut Links<K>)
    requires { AreLinkable K.number links.old.multiplier links.old.heads.items
        links.old.keys.items links.old.before.items (vec_capacity links.old.before)
        (vec_capacity links.old.heads) }
    ensures chains { AreChains K.number links.new.multiplier links.new.heads.items
        links.new.keys.items links.new.before.items }
    ensures keys { links.new.keys ≡ links.old.keys }
    ensures room { vec_capacity links.new.before ≡ vec_capacity links.old.before }
    ensures buckets { vec_capacity links.old.heads ≤ vec_capacity links.new.heads }
{
    if links.keys.len() < links.heads.len() {
        link_on(links);
    } else {
        relink(links);
    }
}

// Makes room for more buckets, if there is room for no more of them than so many keys. They are
// made when keys are linked.
fn reserve_buckets(heads: &mut Vec<u32>, keys: usize) -> Result<(), AllocError>
    requires few { keys < 2 ^ 33 }
    ensures items { heads.new.items ≡ heads.old.items }
    ensures ok { OnOk result (keys < vec_capacity heads.new) }
    ensures room { vec_capacity heads.old ≤ vec_capacity heads.new }
{
    if keys < heads.capacity() {
        return Ok(());
    }
    heads.reserve(2 * keys + FEW_BUCKETS - heads.len())
}

// There is room for some more buckets than twice the keys, after it was made.
const FEW_BUCKETS: usize = 16;

// Makes room for one more key, and for the links of all keys.
fn make_room<K>(keys: &mut Vec<K>, before: &mut Vec<u32>) -> Result<(), AllocError>
    requires { vec_len before.old ≤ vec_len keys.old }
    ensures keys { keys.new.items ≡ keys.old.items }
    ensures before { before.new.items ≡ before.old.items }
    ensures key_room { OnOk result (vec_len keys.new < vec_capacity keys.new) }
    ensures link_room { OnOk result (vec_len keys.new < vec_capacity before.new) }
    ensures room { vec_capacity before.old ≤ vec_capacity before.new }
{
    keys.reserve(1)?;
    before.reserve(keys.len() + 1 - before.len())
}

// Moves the kept keys to the beginning, and gives their number.
fn pack<K: Copy + Drop>(keys: &mut [K], kept: &[bool]) -> usize
    requires { length kept.now ≡ length keys.old }
    ensures within { result ≤ length keys.old }
    ensures picked { take result keys.new ≡ picked kept.now keys.old }
{
    let mut len = 0;
    'keys: for i in 0..kept.len() {
        if kept[i] {
            keys[len] = keys[i];
            len += 1;
        }
    }
    len
}

// Removes keys down to a length. Takes no memory.
pub(crate) fn cut<K: Numbered + Copy + Drop>(chains: &mut Chains<K>, len: u32)
    requires { len ≤ length chains.old }
    ensures { chains.new ≡ take len chains.old }
{
    'keys: while chains.len() > len {
        chains.pop();
    }
}

impl<K: Numbered + Copy + Drop> Chains<K> {
    /// No keys. They will have their numbers under the multiplier.
    pub fn new(alloc: Global, multiplier: u32) -> Self
        ensures { result ≡ [] }
    {
        Chains {
            links: Links {
                multiplier,
                heads: Vec::new(alloc),
                keys: Vec::new(alloc),
                before: Vec::new(alloc),
            },
        }
    }

    /// The number of keys.
    pub fn len(&self) -> u32
        ensures { result ≡ length self.now }
    {
        self.links.keys.len() as u32
    }

    /// The key at a place.
    pub fn key(&self, place: u32) -> K
        requires { place < length self.now }
        ensures { (d : K) → result ≡ slice_index_or self.now place d }
    {
        self.links.keys[place as usize]
    }

    /// One more than the last place of the key, or 0.
    pub fn last(&self, key: &K) -> u32
        ensures value { result ≡ last_of (K.eq key.now) self.now }
    {
        last_before(&self.links, key, self.links.keys.len())
    }

    /// One more than the last place of the same key before the place, or 0.
    pub fn before(&self, place: u32) -> u32
        requires { place < length self.now }
        ensures { (d : K) → result ≡ last_of (K.eq (slice_index_or self.now place d))
            (take place self.now) }
    {
        let links = &self.links;
        let place = place as usize;
        let key = links.keys[place];
        if place < links.before.len() {
            return find_from(links, &key, links.before[place]);
        }
        last_before(links, &key, place)
    }

    /// Appends a key without a link.
    pub fn push_unlinked(&mut self, key: K) -> Result<(), AllocError>
        requires { length self.old + 1 < 2 ^ 32 }
        ensures ok { OnOk result (self.new ≡ self.old ++ key ∷ []) }
        ensures err { OnErr result (self.new ≡ self.old) }
    {
        make_room(&mut self.links.keys, &mut self.links.before)?;
        let keys = self.links.keys.len();
        reserve_buckets(&mut self.links.heads, keys + 1)?;
        self.links.keys.push_reserved(key);
        Ok(())
    }

    /// Appends a key.
    pub fn push(&mut self, key: K) -> Result<(), AllocError>
        requires { length self.old + 1 < 2 ^ 32 }
        ensures ok { OnOk result (self.new ≡ self.old ++ key ∷ []) }
        ensures err { OnErr result (self.new ≡ self.old) }
    {
        self.push_unlinked(key)?;
        self.link();
        Ok(())
    }

    /// Links the keys that have no links yet. Many at once take less time than one by one. Takes no
    /// memory.
    pub fn link(&mut self)
        ensures { self.new ≡ self.old }
    {
        link_rest(&mut self.links);
    }

    /// Makes room for so many more keys, so that their links are made once.
    pub fn reserve(&mut self, more: u32) -> Result<(), AllocError>
        ensures { self.new ≡ self.old }
    {
        let links = &mut self.links;
        links.keys.reserve(more as usize)?;
        links
            .before
            .reserve(links.keys.len() + more as usize - links.before.len())?;
        let keys = links.keys.len() + more as usize;
        reserve_buckets(&mut links.heads, keys)
    }

    /// Removes the last key. Takes no memory.
    pub fn pop(&mut self)
        requires { 0 < length self.old }
        ensures { self.new ≡ take (length self.old - 1) self.old }
    {
        link_rest(&mut self.links);
        let key = self.links.keys.pop().unwrap();
        let head = self.links.before.pop().unwrap();
        let at = bucket(&key, self.links.multiplier, &self.links.heads);
        self.links.heads[at] = head;
    }

    /// Keeps the marked places alone, in order. Takes no memory.
    pub fn retain_marked(&mut self, kept: &[bool])
        requires { length kept.now ≡ length self.old }
        ensures { self.new ≡ picked kept.now self.old }
    {
        let len = pack(self.links.keys.as_mut_slice(), kept);
        self.links.keys.truncate(len);
        relink(&mut self.links);
    }
}
