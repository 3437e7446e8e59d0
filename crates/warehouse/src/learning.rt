// Learns texts, row by row or dimension by dimension.
ghost use Rattle.std.specs.Prelude.{[], Err, IfOk, IfSome, OnOk, Some, length, map, option_map, slice_set, take, ◌<◌, ◌≡◌, ◌≤◌};
ghost use Rattle.csv_load.specs.Batch.{HasInsertion, change_at, row_of};
ghost use Rattle.value_dict.specs.TextLists.{IsDictionary, list_at};
ghost use Rattle.warehouse.specs.Batch.{full_dim, texts_after, with_tuple};
ghost use Rattle.warehouse.specs.Batch as batches;
ghost use Rattle.warehouse.specs.Steps.{AreLonger, CanLearn, IsLearnt, IsOver, column_after};
ghost use Rattle.warehouse.specs.Stored.{refusal_in};

use crate::Memory;
use crate::refused::Refused;
use cell_core::{Cell, Entry};
use csv_load::RawBatch;
use cube_defs::MAX_DIMS;
use value_dict::{Dict, Learn};

/// The number of texts of each dimension.
pub(crate) fn lengths(dict: &Dict, dims: u8) -> [u32; MAX_DIMS as usize]
    requires dims { dims ≡ length dict.now.lists }
    requires few { dims ≤ MAX_DIMS }
    ensures lengths { take dims result ≡ map length dict.now.lists }
{
    let mut lens = [0; MAX_DIMS as usize];
    'dims: for dim in 0..dims {
        lens[usize::from(dim)] = dict.len(dim);
    }
    lens
}

/// Learns the texts of an insertion, and puts their codes into a cell. After a refusal some of
/// them are learnt.
pub(crate) fn learn_tuple(
    dict: &mut Dict,
    cell: &mut Cell,
    batch: &RawBatch,
    k: u32,
) -> Result<(), Learn>
    requires insertion { HasInsertion batch.now.changes k }
    requires cell_dims { length cell.old ≡ batch.now.dims }
    requires can { CanLearn dict.old batch.now }
    ensures learnt { OnOk result
        (IsLearnt dict.old.lists dict.new.lists
        (row_of (change_at batch.now.changes k)).tuple cell.new) }
    ensures full { result ≡ Err Learn.Full
        → IsOver dict.old.max (with_tuple dict.old.lists
        (row_of (change_at batch.now.changes k)).tuple) }
    ensures longer { AreLonger dict.old.lists dict.new.lists }
    ensures max { dict.new.max ≡ dict.old.max }
    ensures cell_dims { length cell.new ≡ length cell.old }
    ensures dictionary { IsDictionary dict.new }
{
    'dims: for dim in 0..cell.dims() {
        match dict.learn(dim, batch.text(k, dim)) {
            Ok(code) => cell.set(dim, Entry::Is(code)),
            Err(refused) => return Err(refused),
        }
    }
    Ok(())
}

// Learns the texts of the insertions in a dimension.
fn learn_column(dict: &mut Dict, batch: &RawBatch, dim: u8) -> Result<(), Learn>
    requires dim { dim < batch.now.dims }
    requires can { CanLearn dict.old batch.now }
    ensures ok { OnOk result
        (dict.new.lists ≡ slice_set dict.old.lists dim
        (column_after (list_at dict.old dim) dim batch.now.changes)) }
    ensures full { result ≡ Err Learn.Full
        → dict.old.max < length (column_after (list_at dict.old dim) dim batch.now.changes) }
    ensures longer { AreLonger dict.old.lists dict.new.lists }
    ensures max { dict.new.max ≡ dict.old.max }
    ensures dictionary { IsDictionary dict.new }
{
    'changes: for before in 0..batch.len() {
        let number = before + 1;
        if !batch.is_delete(number) {
            match dict.learn(dim, batch.text(number, dim)) {
                Ok(_) => {}
                Err(refused) => return Err(refused),
            }
        }
    }
    Ok(())
}

// The first dimension that would have too many texts. Some texts are learnt on the way.
fn first_full(dict: &mut Dict, batch: &RawBatch, dims: u8) -> Result<u8, Memory>
    requires dims { dims ≡ batch.now.dims }
    requires can { CanLearn dict.old batch.now }
    requires over { IsOver dict.old.max (texts_after dict.old.lists batch.now.changes) }
    ensures first { IfOk result
        (λ dim. full_dim dict.old.max (texts_after dict.old.lists batch.now.changes) ≡ Some dim) }
    ensures longer { AreLonger dict.old.lists dict.new.lists }
    ensures max { dict.new.max ≡ dict.old.max }
    ensures dictionary { IsDictionary dict.new }
{
    'columns: for dim in 0..dims {
        match learn_column(dict, batch, dim) {
            Ok(()) => {}
            Err(Learn::Full) => return Ok(dim),
            Err(Learn::Memory) => return Err(std::alloc::AllocError),
        }
    }
    unreachable!()
}

/// The refusal that names the first dimension that would have too many texts.
pub(crate) fn values_full(dict: &mut Dict, batch: &RawBatch, lens: &[u32]) -> Refused
    requires lens { lens.now ≡ map length dict.old.lists }
    requires can { CanLearn dict.old batch.now }
    requires over { IsOver dict.old.max (texts_after dict.old.lists batch.now.changes) }
    ensures refusal { IfSome (refusal_in result)
        (λ refusal. option_map (λ dim. batches.ValuesFull dim)
        (full_dim dict.old.max (texts_after dict.old.lists batch.now.changes)) ≡ Some refusal) }
    ensures dict { dict.new ≡ dict.old }
{
    let found = first_full(dict, batch, lens.len() as u8);
    dict.cut_back(lens);
    match found {
        Ok(dim) => Refused::ValuesFull(dim),
        Err(_) => Refused::Memory,
    }
}
