// What finds a number among before-images.
ghost use Rattle.std.specs.Prelude.{IfOk, map, ◌≡◌};
ghost use Rattle.qc_arena.specs.Entries.{entry_number};
ghost use Rattle.qc_arena.specs.Index.{IsIndexOf};

use crate::Memory;
use crate::image::Image;
use crate::marks::Marks;
use crate::number_list::NumberList;
use std::alloc::Global;

/// The numbers of sorted entries side by side, which a search reads with fewer misses of the cache
/// than the entries themselves, and the marks of these numbers and of those of new nodes.
#[derive(Drop)]
pub(crate) struct NumberIndex {
    pub(crate) numbers: Vec<u32>,
    pub(crate) marks: Marks,
}

// The numbers of entries.
fn numbers_of(changed: &Vec<(u32, Image)>, alloc: Global) -> Result<Vec<u32>, Memory>
    ensures { IfOk result (λ numbers. numbers.items ≡ map entry_number changed.now.items) }
{
    let mut numbers = Vec::with_capacity(alloc, changed.len())?;
    'entries: for at in 0..changed.len() {
        let (node, _) = &changed[at];
        numbers.push_reserved(*node);
    }
    Ok(numbers)
}

impl NumberIndex {
    // The index of the numbers of entries and of new nodes.
    pub(crate) fn of(changed: &Vec<(u32, Image)>, added: &NumberList) -> Result<NumberIndex, Memory>
        ensures { IfOk result (λ index. IsIndexOf index changed.now.items added.now.items) }
    {
        let alloc = added.allocator();
        let numbers = numbers_of(changed, alloc)?;
        let mut marks = Marks::with_room(alloc, numbers.len() + added.len())?;
        marks.add_all(&numbers);
        marks.add_listed(added);
        Ok(NumberIndex { numbers, marks })
    }
}
