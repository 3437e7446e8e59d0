// Lists of edges by place.
ghost use Rattle.std.specs.Prelude.{IfOk, IsSome, None, OnErr, OnOk, Some, [], is_some, length, ℕ, ◌+◌, ◌<◌, ◌≡◌, ◌≢◌, ◌≤◌};
ghost use Rattle.slab.specs.Slab as slots;
ghost use Rattle.qc_arena.specs.EdgeLists.{list_at, list_in};
ghost use Rattle.qc_arena.specs.Edges.{drop_label, edge_in, put_edge};

use crate::Memory;
use crate::edge::PlainEdge;
use crate::edge_list::EdgeList;
use cell_core::Code;
use std::alloc::Global;
use std::marker::Model;

const _: () = prove!(size_of::<Option<EdgeList>>() == 64);

/// Lists of edges by place. A place that is free is given out again. A place has 32 bits.
#[derive(Drop)]
pub(crate) struct EdgeLists {
    lists: Vec<Option<EdgeList>>,
    free: Vec<u32>,
    room: usize,
}

impl Model for EdgeLists {
    ghost use Rattle.std.specs.Prelude.{List, vec_capacity, ℕ};
    ghost use Rattle.std.specs.Coded.{coded_list};
    ghost use Rattle.slab.specs.Slab as slots;
    ghost use Rattle.cube_defs.specs.Tree.{Edge};
    ghost use Rattle.qc_arena.specs.Codes.{edge_code};
    ghost use Rattle.qc_arena.specs.EdgeLists.{AreLists, next_place};

    ghost Value = { slots.Slab (List (Edge ℕ ℕ)) };

    ghost coded = { slots.slab_code (coded_list edge_code) };

    ghost view = { λ s. record {
      slots = s.lists.items;
      vacant_key = next_place s.lists.items s.free.items;
      capacity = s.room;
    } };

    ghost invariant = { λ s. AreLists s.lists.items s.free.items s.room (vec_capacity s.lists)
        (vec_capacity s.free) };
}

// Adds an edge to the list that is there. Gives how many edges more there are.
#[inline(always)]
fn put_in(slot: &mut Option<EdgeList>, edge: PlainEdge) -> Result<u32, Memory>
    requires { IsSome slot.old }
    ensures there { IsSome slot.new }
    ensures more { IfOk result
        (λ n. length (list_in slot.new) ≡ length (list_in slot.old) + n) }
    ensures fits { OnOk result (length (list_in slot.new) < 4294967296) }
    ensures ok { OnOk result (slot.new ≡ Some (put_edge (edge_in edge) (list_in slot.old))) }
    ensures err { OnErr result (slot.new ≡ slot.old) }
{
    match slot {
        Some(list) => list.put(edge),
        None => unreachable!(),
    }
}

// Removes an edge from the list that is there.
fn take_in(slot: &mut Option<EdgeList>, dim: u8, code: Code) -> (u32, u32)
    requires { IsSome slot.old }
    ensures taken { slot.new ≡ Some (drop_label dim code (list_in slot.old)) }
    ensures had { result.0 ≡ length (list_in slot.old) }
    ensures has { result.1 ≡ length (list_in slot.new) }
{
    match slot {
        Some(list) => list.take(dim, code),
        None => unreachable!(),
    }
}

// Makes room in the list that is there.
fn reserve_in(slot: &mut Option<EdgeList>, more: u32) -> Result<(), Memory>
    requires { IsSome slot.old }
    ensures { slot.new ≡ slot.old }
{
    match slot {
        Some(list) => list.reserve(more),
        None => unreachable!(),
    }
}

impl EdgeLists {
    pub(crate) fn allocator(&self) -> Global {
        *self.free.allocator()
    }

    // No lists, with room for so many.
    pub(crate) fn with_room(alloc: Global, room: usize) -> Result<EdgeLists, Memory>
        ensures none { IfOk result (λ s. s.slots ≡ []) }
        ensures room { IfOk result (λ s. room ≤ s.capacity) }
    {
        let free = Vec::with_capacity(alloc, room)?;
        let lists = Vec::with_capacity(alloc, room)?;
        Ok(EdgeLists { lists, free, room })
    }

    // How many lists there is room for in all.
    pub(crate) fn room(&self) -> usize
        ensures { result ≡ self.now.capacity }
    {
        self.room
    }

    // Makes room for so many lists in all.
    pub(crate) fn reserve(&mut self, many: usize) -> Result<(), Memory>
        ensures room { OnOk result (many ≤ self.new.capacity) }
        ensures slots { self.new.slots ≡ self.old.slots }
        ensures next { self.new.vacant_key ≡ self.old.vacant_key }
        ensures capacity { self.old.capacity ≤ self.new.capacity }
    {
        if many <= self.room {
            return Ok(());
        }
        self.grow(many)
    }

    // Makes room for so many lists, which are more than there is room for.
    #[cold]
    #[inline(never)]
    fn grow(&mut self, many: usize) -> Result<(), Memory>
        requires { self.old.capacity ≤ many }
        ensures room { OnOk result (many ≤ self.new.capacity) }
        ensures slots { self.new.slots ≡ self.old.slots }
        ensures next { self.new.vacant_key ≡ self.old.vacant_key }
        ensures capacity { self.old.capacity ≤ self.new.capacity }
    {
        match self.lists.reserve(many - self.lists.len()) {
            Ok(()) => {}
            Err(error) => return Err(error),
        }
        match self.free.reserve(many - self.free.len()) {
            Ok(()) => {}
            Err(error) => return Err(error),
        }
        let lists = self.lists.capacity();
        let free = self.free.capacity();
        self.room = if lists < free { lists } else { free };
        Ok(())
    }

    // Stores a list, and gives its place.
    pub(crate) fn insert(&mut self, list: EdgeList) -> u32
        requires room { slots.HasRoomFor self.old 1 }
        requires few { slots.slab_len self.old < 4000000000 }
        ensures small { result < 4000000000 }
        ensures next { result ≡ self.old.vacant_key }
        ensures free { slots.get self.old result ≡ None }
        ensures updates { slots.Updates self.old self.new result (Some list) }
        ensures len { slots.slab_len self.new ≡ slots.slab_len self.old + 1 }
        ensures capacity { self.new.capacity ≡ self.old.capacity }
    {
        match self.free.pop() {
            Some(place) => {
                self.lists[place as usize] = Some(list);
                place
            }
            None => {
                let place = self.lists.len() as u32;
                self.lists.push_reserved(Some(list));
                place
            }
        }
    }

    // Takes a list out, and frees its place.
    pub(crate) fn remove(&mut self, place: u32) -> EdgeList
        requires { slots.ContainsKey self.old place }
        ensures value { slots.get self.old place ≡ Some result }
        ensures updates { slots.Updates self.old self.new place None }
        ensures len { slots.slab_len self.new + 1 ≡ slots.slab_len self.old }
        ensures capacity { self.new.capacity ≡ self.old.capacity }
    {
        let Some(list) = self.lists[place as usize].take() else {
            unreachable!()
        };
        self.free.push_reserved(place);
        list
    }

    // The list at a place.
    pub(crate) fn at(&self, place: u32) -> &EdgeList
        requires { slots.ContainsKey self.now place }
        ensures { slots.get self.now place ≡ Some result.now }
    {
        match &self.lists[place as usize] {
            Some(list) => list,
            None => unreachable!(),
        }
    }

    // Adds an edge to the list at a place, or gives the edge with its label a new target. Gives how
    // many edges more there are.
    #[inline(always)]
    pub(crate) fn put(&mut self, place: u32, edge: PlainEdge) -> Result<u32, Memory>
        requires { slots.ContainsKey self.old place }
        ensures ok { OnOk result (slots.Updates self.old self.new place
            (Some (put_edge (edge_in edge) (list_at self.old place)))) }
        ensures more { IfOk result
            (λ n. length (list_at self.new place) ≡ length (list_at self.old place) + n) }
        ensures fits { OnOk result (length (list_at self.new place) < 4294967296) }
        ensures others { (q : ℕ) → q ≢ place → slots.get self.new q ≡ slots.get self.old q }
        ensures err { OnErr result (slots.SameValues self.old self.new) }
        ensures there { (q : ℕ)
            → is_some (slots.get self.new q) ≡ is_some (slots.get self.old q) }
        ensures len { slots.slab_len self.new ≡ slots.slab_len self.old }
        ensures next { self.new.vacant_key ≡ self.old.vacant_key }
        ensures capacity { self.new.capacity ≡ self.old.capacity }
    {
        put_in(&mut self.lists[place as usize], edge)
    }

    // Removes the edge with a label from the list at a place, if there is one. Gives the number of
    // edges before and after.
    pub(crate) fn take(&mut self, place: u32, dim: u8, code: Code) -> (u32, u32)
        requires { slots.ContainsKey self.old place }
        ensures had { result.0 ≡ length (list_at self.old place) }
        ensures has { result.1 ≡ length (list_at self.new place) }
        ensures taken { slots.Updates self.old self.new place
            (Some (drop_label dim code (list_at self.old place))) }
        ensures there { (q : ℕ)
            → is_some (slots.get self.new q) ≡ is_some (slots.get self.old q) }
        ensures len { slots.slab_len self.new ≡ slots.slab_len self.old }
        ensures next { self.new.vacant_key ≡ self.old.vacant_key }
        ensures capacity { self.new.capacity ≡ self.old.capacity }
    {
        take_in(&mut self.lists[place as usize], dim, code)
    }

    // Makes room for so many more edges in the list at a place.
    pub(crate) fn reserve_at(&mut self, place: u32, more: u32) -> Result<(), Memory>
        requires { slots.ContainsKey self.old place }
        ensures same { slots.SameValues self.old self.new }
        ensures len { slots.slab_len self.new ≡ slots.slab_len self.old }
        ensures next { self.new.vacant_key ≡ self.old.vacant_key }
        ensures capacity { self.new.capacity ≡ self.old.capacity }
    {
        reserve_in(&mut self.lists[place as usize], more)
    }
}
