// Changes, stored one after another.
ghost use Rattle.std.specs.Prelude.{◌≡◌, ◌++◌, [], ◌∷◌, IfOk, OnOk};

use crate::texts::FieldTexts;
use std::alloc::{AllocError, Global};

/// The ids, texts and amounts of changes. A deletion has texts and amounts too, which mean nothing,
/// so that those of the k-th change are at the k-th place.
#[derive(Drop)]
pub struct ChangeColumns {
    pub ids: Vec<u64>,
    pub deletes: Vec<bool>,
    pub texts: FieldTexts,
    pub amounts: Vec<i64>,
}

impl ChangeColumns {
    pub fn new(alloc: Global) -> ChangeColumns
        ensures ids { result.ids.items ≡ [] }
        ensures deletes { result.deletes.items ≡ [] }
        ensures texts { result.texts ≡ [] }
        ensures amounts { result.amounts.items ≡ [] }
    {
        ChangeColumns {
            ids: Vec::new(alloc),
            deletes: Vec::new(alloc),
            texts: FieldTexts::new(alloc),
            amounts: Vec::new(alloc),
        }
    }

    /// No changes yet, and room for texts of so many bytes.
    pub fn with_room(alloc: Global, size: usize) -> Result<ChangeColumns, AllocError>
        ensures ids { IfOk result (λ changes. changes.ids.items ≡ []) }
        ensures deletes { IfOk result (λ changes. changes.deletes.items ≡ []) }
        ensures texts { IfOk result (λ changes. changes.texts ≡ []) }
        ensures amounts { IfOk result (λ changes. changes.amounts.items ≡ []) }
    {
        Ok(ChangeColumns {
            texts: FieldTexts::with_room(alloc, size)?,
            ..ChangeColumns::new(alloc)
        })
    }

    /// Appends an id, whose texts and amounts are there already.
    pub fn push_id(&mut self, id: u64, deletes: bool) -> Result<(), AllocError>
        ensures ids { OnOk result (self.new.ids.items ≡ self.old.ids.items ++ id ∷ []) }
        ensures deletes { OnOk result (self.new.deletes.items ≡ self.old.deletes.items
            ++ deletes ∷ []) }
        ensures texts { self.new.texts ≡ self.old.texts }
        ensures amounts { self.new.amounts.items ≡ self.old.amounts.items }
    {
        self.deletes.push(deletes)?;
        self.ids.push(id)?;
        Ok(())
    }
}
