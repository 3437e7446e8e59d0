// Room that the walk reuses.
use crate::Memory;
use cell_closure::Parts;
use std::alloc::Global;

/// Parts that are no longer used.
#[derive(Drop)]
pub(crate) struct PartsPool {
    spare: Vec<Parts>,
    alloc: Global,
}

impl PartsPool {
    pub(crate) fn new(alloc: Global) -> PartsPool {
        PartsPool {
            spare: Vec::new(alloc),
            alloc,
        }
    }

    /// Parts to group rows in: such as are no longer used, if there are any.
    pub(crate) fn take(&mut self) -> Parts {
        match self.spare.pop() {
            Some(parts) => parts,
            None => Parts::new(self.alloc),
        }
    }

    /// Takes back parts that are no longer used.
    pub(crate) fn give_back(&mut self, parts: Parts) -> Result<(), Memory> {
        self.spare.push(parts)?;
        Ok(())
    }
}
