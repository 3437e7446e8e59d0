// Work on the marks that say which rows are present.
ghost use Rattle.std.specs.Prelude.{All, IfNone, IfOk, IfSome, None, Some, [], filter, if◌then◌else◌, length, map, nat_lt, slice_index_or, vec_capacity, vec_len, ◌*◌, ◌++◌, ◌<◌, ◌^◌, ◌∷◌, ◌≡◌, ◌≤◌, false};
ghost use Rattle.std.specs.List.{range_with_len};
ghost use Rattle.base_table.specs.Last.{picked};
ghost use Rattle.base_table.specs.Places.{IsRow, has_id, padded};
ghost use Rattle.base_table.specs.Store.{AreLast, IsFound, restored};

use crate::Memory;
use crate::store::Store;
use crate::table::RowNo;
use cube_defs::MAX_MEASURES;
use std::alloc::Global;

// The place of the present row with the id.
pub(crate) fn find(store: &Store, here: &Vec<bool>, id: u64) -> Option<u32>
    requires last { AreLast here.now.items store.now.rows }
    requires places { length store.now.rows ≡ length here.now.items }
    ensures none { IfNone result (has_id (picked here.now.items store.now.rows) id ≡ false) }
    ensures found { IfSome result (λ k. IsFound here.now.items store.now.rows id k) }
{
    let last = store.last(id);
    if last == 0 {
        return None;
    }
    let place = last - 1;
    if here[place as usize] {
        Some(place)
    } else {
        None
    }
}

// Four amounts: the given ones, and then zeros.
pub(crate) fn padded(amounts: &[i64]) -> [i64; MAX_MEASURES as usize]
    requires { length amounts.now ≤ MAX_MEASURES }
    ensures { result ≡ padded amounts.now }
{
    let mut four = [0; MAX_MEASURES as usize];
    'amounts: for i in 0..amounts.len() {
        four[i] = amounts[i];
    }
    four
}

// Sets the marks of these places again.
pub(crate) fn restore(here: &mut Vec<bool>, touched: &Vec<u32>)
    requires { All (λ k. k < length here.old.items) touched.now.items }
    ensures marks { here.new.items ≡ restored touched.now.items here.old.items }
    ensures len { vec_len here.new ≡ vec_len here.old }
{
    'places: for place in touched {
        here[*place as usize] = true;
    }
}

// Records the place of a deleted row, if it was there when the batch began.
pub(crate) fn push_touched(touched: &mut Vec<u32>, place: u32, begun: u32)
    requires { vec_len touched.old < vec_capacity touched.old }
    ensures items { touched.new.items ≡ (if nat_lt place begun then touched.old.items ++ place ∷ []
        else touched.old.items) }
    ensures capacity { vec_capacity touched.new ≡ vec_capacity touched.old }
{
    if place < begun {
        touched.push_reserved(place);
    }
}

// Removes the empty places.
fn compact(store: &mut Store, here: &mut Vec<bool>)
    requires { length store.old.rows ≡ length here.old.items }
    ensures store { store.new ≡ record store.old { rows = picked here.old.items store.old.rows } }
    ensures here { here.new.items ≡ filter (λ mark. mark) here.old.items }
{
    store.retain_marked(here.as_slice());
    here.retain(|mark| *mark);
}

// Removes the empty places if there are more of them than rows. Takes no memory.
pub(crate) fn compact_if_sparse(store: &mut Store, here: &mut Vec<bool>, count: u32)
    requires last { AreLast here.old.items store.old.rows }
    requires places { length store.old.rows ≡ length here.old.items }
    requires each { All (IsRow store.old.dims store.old.measures) store.old.rows }
    requires count { count ≡ length (picked here.old.items store.old.rows) }
    ensures rows { picked here.new.items store.new.rows ≡ picked here.old.items store.old.rows }
    ensures dims { store.new.dims ≡ store.old.dims }
    ensures measures { store.new.measures ≡ store.old.measures }
    ensures last { AreLast here.new.items store.new.rows }
    ensures places { length store.new.rows ≡ length here.new.items }
    ensures each { All (IsRow store.new.dims store.new.measures) store.new.rows }
    ensures dense { length here.new.items ≤ 2 * count }
    ensures fewer { length here.new.items ≤ length here.old.items }
{
    if here.len() > 2 * count as usize {
        compact(store, here);
    }
}

// The places of the marks that are set.
pub(crate) fn numbers_in(alloc: Global, here: &Vec<bool>) -> Result<Vec<RowNo>, Memory>
    requires { length here.now.items < 2 ^ 32 }
    ensures { IfOk result (λ nos. map (λ no. no.0) nos.items
        ≡ filter (λ k. slice_index_or here.now.items k false)
        (range_with_len 0 (length here.now.items))) }
{
    let mut nos = Vec::new(alloc);
    'places: for place in 0..here.len() {
        if here[place] {
            nos.push(RowNo(place as u32))?;
        }
    }
    Ok(nos)
}
