// The records of nodes by number, with their edges.
ghost use Rattle.std.specs.Prelude.{IfOk, IfSome, IsSome, IsTrue, None, OnErr, OnOk, Some, [], is_some, length, slice_get, true, false, ℕ, ◌+◌, ◌<◌, ◌≡◌, ◌≢◌, ◌≤◌};
ghost use Rattle.cell_core.specs.Entry.{IsCode};
ghost use Rattle.std.specs.Option.{option_map};
ghost use Rattle.std.specs.Ordering.{eq_by_cmp, nat_cmp};
ghost use Rattle.aggregates.specs.Views.{agg_in};
ghost use Rattle.slab.specs.Slab as slots;
ghost use Rattle.cube_defs.specs.Cell.{depth};
ghost use Rattle.tree_laws.specs.Walk.{target_at};
ghost use Rattle.qc_arena.specs.Edges.{edge_in, put_edge, rises, with_edge, without_edge};
ghost use Rattle.qc_arena.specs.Inside.{join};
ghost use Rattle.qc_arena.specs.KeptSlot.{CanForce, with_edges};
ghost use Rattle.qc_arena.specs.Map.{with_class, with_forced};
ghost use Rattle.qc_arena.specs.Records.{AreListed, nodes_of};
ghost use Rattle.qc_arena.specs.Resized.{resized};
ghost use Rattle.qc_arena.specs.RecordReaders.{edge_of, label_lt, number, record_or};

use crate::Memory;
use crate::edge::PlainEdge;
use crate::edge_list::EdgeList;
use crate::edge_lists::EdgeLists;
use crate::kept_record::KeptRecord;
use crate::nodes::Forced;
use aggregates::Agg;
use cell_core::{Code, NodeNo};
use cube_defs::MAX_MEASURES;
use slab::Slab;
use std::alloc::{AllocError, Global};
use std::marker::Model;

// The records by number, and lists of edges. Each list is that of one record.
#[derive(Drop)]
struct ListedRecords {
    records: Slab<KeptRecord>,
    lists: EdgeLists,
    ghost listed: { AreListed records lists },
}

/// So many records at most may be there, and each number is smaller. So it has 32 bits.
const MAX_RECORDS: usize = 4_000_000_000;

/// The records of nodes by number, with their edges. Up to one edge lies in the record itself. More
/// edges lie in a list elsewhere. So a record is small, and most nodes need no list.
#[derive(Drop)]
pub(crate) struct RecordStore {
    held: ListedRecords,
}

impl Model for RecordStore {
    ghost use Rattle.std.specs.Prelude.{Option, ℕ};
    ghost use Rattle.std.specs.Coded.{coded_option};
    ghost use Rattle.slab.specs.Slab as slab;
    ghost use Rattle.cube_defs.specs.Tree.{Node};
    ghost use Rattle.qc_arena.specs.Codes.{node_code};

    ghost Value = { slab.Slab (Option (Node ℕ ℕ)) };

    ghost coded = { slab.slab_code (coded_option node_code) };

    ghost use Rattle.qc_arena.specs.Records.{nodes_of};

    ghost view = { λ s. nodes_of s.held.records s.held.lists };
}

// The edges of a record that keeps them itself, as a list.
fn own_edges(alloc: Global, kept: &KeptRecord) -> EdgeList
    ensures { result ≡ kept.now.node.edges }
{
    match kept.only() {
        Some(edge) => EdgeList::one(alloc, edge),
        None => EdgeList::none(alloc),
    }
}

// Gives a record a list in place of its own edges.
fn store_list(store: &mut ListedRecords, node: u32, list: EdgeList)
    requires node { slots.ContainsKey store.old.records node }
    requires unlisted { IfSome (slots.get store.old.records node) (λ h. h.place ≡ None) }
    ensures here { slots.get (nodes_of store.new.records store.new.lists) node
        ≡ option_map (option_map (with_edges list))
        (slots.get (nodes_of store.old.records store.old.lists) node) }
    ensures others { (q : ℕ) → q ≢ node → slots.get (nodes_of store.new.records store.new.lists) q
        ≡ slots.get (nodes_of store.old.records store.old.lists) q }
    ensures bare { IfSome (slots.get store.new.records node) (λ h. h.node.edges ≡ []) }
    ensures there { slots.ContainsKey store.new.records node }
{
    let place = store.lists.insert(list);
    store.records[node as usize].set_place(place);
}

// Removes the edges of a record whose list is at this place.
fn drop_list(store: &mut ListedRecords, node: u32, place: u32)
    requires node { slots.ContainsKey store.old.records node }
    requires place { IfSome (slots.get store.old.records node) (λ h. h.place ≡ Some place) }
    ensures here { slots.get (nodes_of store.new.records store.new.lists) node
        ≡ option_map (option_map (with_edges []))
        (slots.get (nodes_of store.old.records store.old.lists) node) }
    ensures others { (q : ℕ) → q ≢ node → slots.get (nodes_of store.new.records store.new.lists) q
        ≡ slots.get (nodes_of store.old.records store.old.lists) q }
    ensures unlisted { IfSome (slots.get store.new.records node) (λ h. h.place ≡ None) }
    ensures there { slots.ContainsKey store.new.records node }
{
    drop(store.lists.remove(place));
    store.records[node as usize].clear_edges();
}

// Removes the edges of a record, and its list.
fn drop_edges(store: &mut ListedRecords, node: u32)
    requires { slots.ContainsKey store.old.records node }
    ensures here { slots.get (nodes_of store.new.records store.new.lists) node
        ≡ option_map (option_map (with_edges []))
        (slots.get (nodes_of store.old.records store.old.lists) node) }
    ensures others { (q : ℕ) → q ≢ node → slots.get (nodes_of store.new.records store.new.lists) q
        ≡ slots.get (nodes_of store.old.records store.old.lists) q }
    ensures unlisted { IfSome (slots.get store.new.records node) (λ h. h.place ≡ None) }
    ensures there { slots.ContainsKey store.new.records node }
{
    match store.records[node as usize].place() {
        Some(place) => drop_list(store, node, place),
        None => store.records[node as usize].clear_edges(),
    }
}

// The edges of a record that keeps them itself, with one more, or with another target at its label.
fn own_with(alloc: Global, kept: &KeptRecord, edge: PlainEdge) -> EdgeList
    ensures edges { result ≡ put_edge (edge_in edge) kept.now.node.edges }
    ensures grows { length kept.now.node.edges ≤ length result }
{
    let Some(own) = kept.only() else {
        return EdgeList::one(alloc, edge);
    };
    if own.dim < edge.dim || own.dim == edge.dim && own.code < edge.code {
        return EdgeList::two(alloc, own, edge);
    }
    if own.dim == edge.dim && own.code == edge.code {
        return EdgeList::one(alloc, edge);
    }
    EdgeList::two(alloc, edge, own)
}

// Adds an edge to a record that has no list, or gives its edge a new target. Gives the number of
// edges before and after.
fn put_own(store: &mut ListedRecords, node: u32, edge: PlainEdge) -> (u32, u32)
    requires node { IsSome (join (slots.get (nodes_of store.old.records store.old.lists) node)) }
    requires unlisted { IfSome (slots.get store.old.records node) (λ h. h.place ≡ None) }
    ensures here { slots.get (nodes_of store.new.records store.new.lists) node
        ≡ option_map (option_map (with_edge (edge_in edge)))
        (slots.get (nodes_of store.old.records store.old.lists) node) }
    ensures had { result.0 ≡ length (record_or
        (join (slots.get (nodes_of store.old.records store.old.lists) node))).edges }
    ensures has { result.1 ≡ length (record_or
        (join (slots.get (nodes_of store.new.records store.new.lists) node))).edges }
    ensures grows { result.0 ≤ result.1 }
    ensures others { (q : ℕ) → q ≢ node → slots.get (nodes_of store.new.records store.new.lists) q
        ≡ slots.get (nodes_of store.old.records store.old.lists) q }
{
    if store.records[node as usize].try_only(edge) {
        return (0, 1);
    }
    let list = own_with(store.lists.allocator(), &store.records[node as usize], edge);
    let had = store.records[node as usize].own_count();
    let has = list.count();
    store_list(store, node, list);
    (had, has)
}

// Adds an edge to a record, or gives the edge that has its label a new target. Gives how
// many edges more there are.
fn put_at(store: &mut ListedRecords, node: u32, edge: PlainEdge) -> Result<u32, Memory>
    requires { IsSome (join (slots.get (nodes_of store.old.records store.old.lists) node)) }
    ensures ok { OnOk result (slots.get (nodes_of store.new.records store.new.lists) node
        ≡ option_map (option_map (with_edge (edge_in edge)))
        (slots.get (nodes_of store.old.records store.old.lists) node)) }
    ensures more { IfOk result (λ n. length (record_or
        (join (slots.get (nodes_of store.new.records store.new.lists) node))).edges
        ≡ length (record_or
        (join (slots.get (nodes_of store.old.records store.old.lists) node))).edges + n) }
    ensures fits { OnOk result (length (record_or
        (join (slots.get (nodes_of store.new.records store.new.lists) node))).edges < 4294967296) }
    ensures err { OnErr result (slots.get (nodes_of store.new.records store.new.lists) node
        ≡ slots.get (nodes_of store.old.records store.old.lists) node) }
    ensures others { (q : ℕ) → q ≢ node → slots.get (nodes_of store.new.records store.new.lists) q
        ≡ slots.get (nodes_of store.old.records store.old.lists) q }
{
    match store.records[node as usize].place() {
        Some(place) => store.lists.put(place, edge),
        None => {
            let (had, has) = put_own(store, node, edge);
            Ok(has - had)
        }
    }
}

// Gives edges to a record that has none. Up to one edge lies in the record, if it can.
fn give_edges(store: &mut ListedRecords, node: u32, list: EdgeList)
    requires node { IsSome (join (slots.get (nodes_of store.old.records store.old.lists) node)) }
    requires none { (record_or
        (join (slots.get (nodes_of store.old.records store.old.lists) node))).edges ≡ [] }
    requires unlisted { IfSome (slots.get store.old.records node) (λ h. h.place ≡ None) }
    ensures here { slots.get (nodes_of store.new.records store.new.lists) node
        ≡ option_map (option_map (with_edges list))
        (slots.get (nodes_of store.old.records store.old.lists) node) }
    ensures others { (q : ℕ) → q ≢ node → slots.get (nodes_of store.new.records store.new.lists) q
        ≡ slots.get (nodes_of store.old.records store.old.lists) q }
{
    match list.count() {
        0 => {}
        1 => {
            let (dim, code, child) = list.at(0);
            let edge = PlainEdge {
                dim,
                code,
                target: child.0,
            };
            put_own(store, node, edge);
        }
        _ => store_list(store, node, list),
    }
}

// Gives a record that has no list one with its own edges.
fn list_own(store: &mut ListedRecords, node: u32)
    requires node { slots.ContainsKey store.old.records node }
    requires unlisted { IfSome (slots.get store.old.records node) (λ h. h.place ≡ None) }
    ensures same { (q : ℕ) → slots.get (nodes_of store.new.records store.new.lists) q
        ≡ slots.get (nodes_of store.old.records store.old.lists) q }
    ensures there { slots.ContainsKey store.new.records node }
{
    let list = own_edges(store.lists.allocator(), &store.records[node as usize]);
    store_list(store, node, list);
}

// Gives a record a list if it has none, and several edges are to come. One edge needs no list.
fn make_list(store: &mut ListedRecords, node: u32, more: u32)
    requires { slots.ContainsKey store.old.records node }
    ensures same { (q : ℕ) → slots.get (nodes_of store.new.records store.new.lists) q
        ≡ slots.get (nodes_of store.old.records store.old.lists) q }
    ensures there { slots.ContainsKey store.new.records node }
{
    if more <= 1 {
        return;
    }
    match store.records[node as usize].place() {
        Some(_) => {}
        None => list_own(store, node),
    }
}

// Makes room for so many more edges of a record.
fn reserve_at(store: &mut ListedRecords, node: u32, more: u32) -> Result<(), Memory>
    requires { slots.ContainsKey store.old.records node }
    ensures { (q : ℕ) → slots.get (nodes_of store.new.records store.new.lists) q
        ≡ slots.get (nodes_of store.old.records store.old.lists) q }
{
    make_list(store, node, more);
    match store.records[node as usize].place() {
        Some(place) => store.lists.reserve_at(place, more),
        None => Ok(()),
    }
}

// Removes an edge of a record that has no list, if its label is this one. Gives the number of edges
// before and after.
fn take_own(kept: &mut KeptRecord, dim: u8, code: Code) -> (u32, u32)
    requires { kept.old.place ≡ None }
    ensures taken { kept.new ≡ record kept.old {
      node
          = without_edge dim code kept.old.node;
    } }
    ensures had { result.0 ≡ length kept.old.node.edges }
    ensures has { result.1 ≡ length kept.new.node.edges }
{
    let Some(edge) = kept.only() else {
        return (0, 0);
    };
    if edge.dim == dim && edge.code == code {
        kept.clear_edges();
        return (1, 0);
    }
    (1, 1)
}

// Removes the edge with a label from the list of a record, if there is one. A list that is empty
// then goes. Gives the number of edges before and after.
fn take_listed(store: &mut ListedRecords, node: u32, place: u32, dim: u8, code: Code) -> (u32, u32)
    requires node { IsSome (join (slots.get (nodes_of store.old.records store.old.lists) node)) }
    requires place { IfSome (slots.get store.old.records node) (λ h. h.place ≡ Some place) }
    ensures here { slots.get (nodes_of store.new.records store.new.lists) node
        ≡ option_map (option_map (without_edge dim code))
        (slots.get (nodes_of store.old.records store.old.lists) node) }
    ensures had { result.0 ≡ length (record_or
        (join (slots.get (nodes_of store.old.records store.old.lists) node))).edges }
    ensures has { result.1 ≡ length (record_or
        (join (slots.get (nodes_of store.new.records store.new.lists) node))).edges }
    ensures others { (q : ℕ) → q ≢ node → slots.get (nodes_of store.new.records store.new.lists) q
        ≡ slots.get (nodes_of store.old.records store.old.lists) q }
{
    let (had, has) = store.lists.take(place, dim, code);
    if has == 0 {
        drop_list(store, node, place);
    }
    (had, has)
}

// Removes the edge with a label from a record, if there is one. Gives the number of edges before
// and after.
fn take_at(store: &mut ListedRecords, node: u32, dim: u8, code: Code) -> (u32, u32)
    requires { IsSome (join (slots.get (nodes_of store.old.records store.old.lists) node)) }
    ensures here { slots.get (nodes_of store.new.records store.new.lists) node
        ≡ option_map (option_map (without_edge dim code))
        (slots.get (nodes_of store.old.records store.old.lists) node) }
    ensures had { result.0 ≡ length (record_or
        (join (slots.get (nodes_of store.old.records store.old.lists) node))).edges }
    ensures has { result.1 ≡ length (record_or
        (join (slots.get (nodes_of store.new.records store.new.lists) node))).edges }
    ensures others { (q : ℕ) → q ≢ node → slots.get (nodes_of store.new.records store.new.lists) q
        ≡ slots.get (nodes_of store.old.records store.old.lists) q }
{
    match store.records[node as usize].place() {
        Some(place) => take_listed(store, node, place, dim, code),
        None => take_own(&mut store.records[node as usize], dim, code),
    }
}

// Makes sure that a record can have a forced child: its only edge goes to a list if it leads to
// another node.
fn make_forceable(store: &mut ListedRecords, node: u32, forced: Option<Forced>)
    requires { slots.ContainsKey store.old.records node }
    ensures same { (q : ℕ) → slots.get (nodes_of store.new.records store.new.lists) q
        ≡ slots.get (nodes_of store.old.records store.old.lists) q }
    ensures can { IfSome (slots.get store.new.records node) (λ h. CanForce h forced) }
    ensures there { slots.ContainsKey store.new.records node }
{
    if store.records[node as usize].can_force(forced) {
        return;
    }
    let list = own_edges(store.lists.allocator(), &store.records[node as usize]);
    store_list(store, node, list);
}

// Whether there is room for one more record, and for its list.
#[inline(always)]
fn has_room(store: &ListedRecords) -> bool
    ensures records { IsTrue result → slots.HasRoomFor store.now.records 1 }
    ensures lists { IsTrue result
        → slots.slab_len store.now.records + 1 ≤ store.now.lists.capacity }
    ensures few { IsTrue result → slots.slab_len store.now.records < 4000000000 }
{
    let len = store.records.len();
    len < store.records.capacity() && len < store.lists.room() && len < MAX_RECORDS
}

// Makes room for one more record, and for its list.
#[cold]
#[inline(never)]
fn make_room(store: &mut ListedRecords) -> Result<(), Memory>
    ensures room { OnOk result (slots.HasRoomFor store.new.records 1) }
    ensures lists { OnOk result (slots.slab_len store.new.records + 1 ≤ store.new.lists.capacity) }
    ensures few { OnOk result (slots.slab_len store.new.records < 4000000000) }
    ensures slots { store.new.records.slots ≡ store.old.records.slots }
    ensures next { store.new.records.vacant_key ≡ store.old.records.vacant_key }
    ensures same { store.new.lists.slots ≡ store.old.lists.slots }
{
    match store.records.reserve(1) {
        Ok(()) => {}
        Err(error) => return Err(error),
    }
    let len = store.records.len();
    if len >= MAX_RECORDS {
        return Err(AllocError);
    }
    store.lists.reserve(len + 1)
}

// Makes room for a record, and gives the number that it will have. Numbers have 32 bits. A batch
// can use them up, since the number of a killed node is given to no other node before `commit`.
fn reserve_record(store: &mut ListedRecords) -> Result<u32, Memory>
    ensures number { IfOk result (λ k. k ≡ store.new.records.vacant_key) }
    ensures free { IfOk result (λ k. slots.get store.new.records k ≡ None) }
    ensures room { OnOk result (slots.HasRoomFor store.new.records 1) }
    ensures lists { OnOk result (slots.slab_len store.new.records + 1 ≤ store.new.lists.capacity) }
    ensures few { OnOk result (slots.slab_len store.new.records < 4000000000) }
    ensures slots { store.new.records.slots ≡ store.old.records.slots }
    ensures next { store.new.records.vacant_key ≡ store.old.records.vacant_key }
    ensures same { store.new.lists.slots ≡ store.old.lists.slots }
{
    if !has_room(store) {
        match make_room(store) {
            Ok(()) => {}
            Err(error) => return Err(error),
        }
    }
    let key = store.records.vacant_key();
    if key >= MAX_RECORDS {
        return Err(AllocError);
    }
    Ok(key as u32)
}

impl RecordStore {
    // No records, with room for so many.
    pub(crate) fn with_room(alloc: Global, room: usize) -> Result<RecordStore, Memory>
        ensures { IfOk result (λ s. s.slots ≡ []) }
    {
        let lists = match EdgeLists::with_room(alloc, room) {
            Ok(lists) => lists,
            Err(error) => return Err(error),
        };
        match Slab::with_capacity(alloc, room) {
            Ok(records) => Ok(RecordStore {
                held: ListedRecords { records, lists },
            }),
            Err(error) => {
                drop(lists);
                Err(error)
            }
        }
    }

    // The record of a node. Its edges may lie in a list.
    pub(crate) fn record(&self, node: u32) -> &KeptRecord
        requires { IsSome (join (slots.get self.now node)) }
        ensures { with_edges [] result.now.node
            ≡ with_edges [] (record_or (join (slots.get self.now node))) }
    {
        match self.held.records.get(node as usize) {
            Some(record) => record,
            None => unreachable!(),
        }
    }

    // Whether there is a node at a place.
    pub(crate) fn has(&self, place: usize) -> bool
        ensures { result ≡ is_some (join (slots.get self.now place)) }
    {
        match self.held.records.get(place) {
            Some(record) => !record.is_killed(),
            None => false,
        }
    }

    // Whether a number in use is that of a killed node.
    pub(crate) fn is_killed(&self, node: u32) -> bool
        requires { slots.ContainsKey self.now node }
        ensures killed { result ≡ true → slots.get self.now node ≡ Some None }
        ensures there { result ≡ false → slots.get self.now node ≢ Some None }
    {
        self.held.records[node as usize].is_killed()
    }

    // The number of places in use.
    pub(crate) fn len(&self) -> usize
        ensures { result ≡ slots.slab_len self.now }
    {
        self.held.records.len()
    }

    // The number of places. Each number in use is smaller.
    pub(crate) fn capacity(&self) -> usize
        ensures value { result ≡ self.now.capacity }
        ensures slots { length self.now.slots ≤ result }
    {
        self.held.records.capacity()
    }

    // Whether a place is in use.
    pub(crate) fn contains(&self, place: usize) -> bool
        ensures { result ≡ is_some (slots.get self.now place) }
    {
        self.held.records.contains(place)
    }

    pub(crate) fn edge(&self, node: u32, dim: u8, code: Code) -> Option<NodeNo>
        requires { IsSome (join (slots.get self.now node)) }
        ensures value { option_map number result ≡ target_at (eq_by_cmp nat_cmp) dim code
            (record_or (join (slots.get self.now node))).edges }
        ensures rising { rises (record_or (join (slots.get self.now node))).edges ≡ true }
    {
        let record = &self.held.records[node as usize];
        if let Some(place) = record.place() {
            return self.held.lists.at(place).target(dim, code);
        }
        record.own_target(dim, code)
    }

    pub(crate) fn edge_count(&self, node: u32) -> u32
        requires { IsSome (join (slots.get self.now node)) }
        ensures value { result ≡ length (record_or (join (slots.get self.now node))).edges }
        ensures rising { (i j : ℕ) (e f : _) → i < j
            → slice_get (record_or (join (slots.get self.now node))).edges i ≡ Some e
            → slice_get (record_or (join (slots.get self.now node))).edges j ≡ Some f →
            label_lt e f ≡ true }
    {
        let record = &self.held.records[node as usize];
        if let Some(place) = record.place() {
            return self.held.lists.at(place).count();
        }
        record.own_count()
    }

    pub(crate) fn edge_at(&self, node: u32, k: u32) -> (u8, Code, NodeNo)
        requires there { IsSome (join (slots.get self.now node)) }
        requires within { k < length (record_or (join (slots.get self.now node))).edges }
        ensures value { slice_get (record_or (join (slots.get self.now node))).edges k
            ≡ Some (record { dim = result.0; value = result.1; target = result.2.0 }) }
        ensures small { IsCode result.1 }
    {
        let record = &self.held.records[node as usize];
        if let Some(place) = record.place() {
            return self.held.lists.at(place).at(k);
        }
        let Some(edge) = record.only() else {
            unreachable!()
        };
        (edge.dim, edge.code, NodeNo(edge.target))
    }

    // A copy of a node's edges.
    pub(crate) fn copy_edges(&self, alloc: Global, node: u32) -> Result<EdgeList, Memory>
        requires { IsSome (join (slots.get self.now node)) }
        ensures { IfOk result (λ l. l ≡ (record_or (join (slots.get self.now node))).edges) }
    {
        let record = &self.held.records[node as usize];
        match record.place() {
            Some(place) => self.held.lists.at(place).copy(),
            None => Ok(own_edges(alloc, record)),
        }
    }

    // The number that the next record will have. Numbers have 32 bits.
    pub(crate) fn next_number(&self) -> Result<u32, Memory>
        ensures number { IfOk result (λ k. k ≡ self.now.vacant_key) }
        ensures free { IfOk result (λ k. slots.get self.now k ≡ None) }
    {
        let key = self.held.records.vacant_key();
        if key >= MAX_RECORDS {
            return Err(AllocError);
        }
        Ok(key as u32)
    }

    // Adds a record without edges, and gives its number, which was free.
    pub(crate) fn insert(&mut self, new: KeptRecord) -> Result<u32, Memory>
        requires { new.node.edges ≡ [] }
        ensures number { IfOk result (λ k. k ≡ self.old.vacant_key) }
        ensures free { IfOk result (λ k. slots.get self.old k ≡ None) }
        ensures here { IfOk result (λ k. slots.get self.new k ≡ Some (Some new.node)) }
        ensures others { IfOk result (λ k. (q : ℕ) → q ≢ k
            → slots.get self.new q ≡ slots.get self.old q) }
        ensures err { OnErr result (self.new.slots ≡ self.old.slots) }
    {
        match reserve_record(&mut self.held) {
            Ok(key) => {
                self.held.records.insert_reserved(new.copy());
                Ok(key)
            }
            Err(error) => Err(error),
        }
    }

    // Frees a place in use.
    pub(crate) fn remove(&mut self, node: u32)
        requires { slots.ContainsKey self.old node }
        ensures here { slots.get self.new node ≡ None }
        ensures others { (q : ℕ) → q ≢ node → slots.get self.new q ≡ slots.get self.old q }
    {
        drop_edges(&mut self.held, node);
        self.held.records.remove(node as usize);
    }

    // Writes a record and its edges into a place in use.
    pub(crate) fn restore(&mut self, node: u32, was: KeptRecord, edges: EdgeList)
        requires { slots.ContainsKey self.old node }
        ensures here { slots.get self.new node ≡ Some (Some (with_edges edges was.node)) }
        ensures others { (q : ℕ) → q ≢ node → slots.get self.new q ≡ slots.get self.old q }
    {
        drop_edges(&mut self.held, node);
        self.held.records[node as usize] = was.copy();
        give_edges(&mut self.held, node, edges);
    }

    // Gives the cell of a node another number of dimensions.
    pub(crate) fn set_width(&mut self, node: usize, dims: u8)
        requires node { IsSome (join (slots.get self.old node)) }
        requires deep { depth (record_or (join (slots.get self.old node))).cell ≤ dims }
        ensures here { join (slots.get self.new node) ≡ option_map (resized dims)
            (join (slots.get self.old node)) }
        ensures others { (q : ℕ) → q ≢ node → slots.get self.new q ≡ slots.get self.old q }
    {
        self.held.records[node].set_width(dims);
    }

    // Adds an edge, or gives the edge with its label a new target. Gives how many edges more
    // there are.
    pub(crate) fn set_edge(&mut self, node: u32, edge: PlainEdge) -> Result<u32, Memory>
        requires { IsSome (join (slots.get self.old node)) }
        ensures ok { OnOk result
            (join (slots.get self.new node) ≡ option_map (with_edge (edge_in edge))
            (join (slots.get self.old node))) }
        ensures more { IfOk result
            (λ n. length (record_or (join (slots.get self.new node))).edges
            ≡ length (record_or (join (slots.get self.old node))).edges + n) }
        ensures fits { OnOk result
            (length (record_or (join (slots.get self.new node))).edges < 4294967296) }
        ensures err { OnErr result
            (join (slots.get self.new node) ≡ join (slots.get self.old node)) }
        ensures others { (q : ℕ) → q ≢ node → slots.get self.new q ≡ slots.get self.old q }
    {
        put_at(&mut self.held, node, edge)
    }

    // Makes room for so many more edges of a node.
    pub(crate) fn reserve_edges(&mut self, node: u32, more: u32) -> Result<(), Memory>
        requires { IsSome (join (slots.get self.old node)) }
        ensures { (q : ℕ) → slots.get self.new q ≡ slots.get self.old q }
    {
        reserve_at(&mut self.held, node, more)
    }

    // Removes the edge with a label, if there is one. Gives the number of edges before and after.
    pub(crate) fn drop_edge(&mut self, node: u32, dim: u8, code: Code) -> (u32, u32)
        requires { IsSome (join (slots.get self.old node)) }
        ensures here { join (slots.get self.new node) ≡ option_map (without_edge dim code)
            (join (slots.get self.old node)) }
        ensures had { result.0 ≡ length (record_or (join (slots.get self.old node))).edges }
        ensures has { result.1 ≡ length (record_or (join (slots.get self.new node))).edges }
        ensures others { (q : ℕ) → q ≢ node → slots.get self.new q ≡ slots.get self.old q }
    {
        take_at(&mut self.held, node, dim, code)
    }

    // Kills a node. Its place stays in use.
    pub(crate) fn kill(&mut self, node: u32)
        requires { IsSome (join (slots.get self.old node)) }
        ensures here { slots.get self.new node ≡ Some None }
        ensures others { (q : ℕ) → q ≢ node → slots.get self.new q ≡ slots.get self.old q }
    {
        drop_edges(&mut self.held, node);
        self.held.records[node as usize].kill();
    }

    // Sets the forced child of a node.
    pub(crate) fn set_forced(&mut self, node: u32, forced: Option<Forced>)
        requires node { IsSome (join (slots.get self.old node)) }
        requires code { IfSome forced (λ f. IsCode f.code) }
        ensures here { join (slots.get self.new node)
            ≡ option_map (with_forced (option_map edge_of forced))
            (join (slots.get self.old node)) }
        ensures others { (q : ℕ) → q ≢ node → slots.get self.new q ≡ slots.get self.old q }
    {
        make_forceable(&mut self.held, node, forced);
        self.held.records[node as usize].set_forced(forced);
    }

    // Sets COUNT and the number of measures of a node, or marks it as no class.
    pub(crate) fn set_class(&mut self, node: u32, class: &Option<Agg>)
        requires node { IsSome (join (slots.get self.old node)) }
        requires four { IfSome class.now (λ a. length a.parts ≡ MAX_MEASURES) }
        ensures here { join (slots.get self.new node)
            ≡ option_map (with_class (option_map agg_in class.now))
            (join (slots.get self.old node)) }
        ensures others { (q : ℕ) → q ≢ node → slots.get self.new q ≡ slots.get self.old q }
    {
        self.held.records[node as usize].set_class(class);
    }
}
