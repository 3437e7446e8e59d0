//! Labels that only proofs read. They take no memory, and their methods do nothing at run time.
ghost use Rattle.std.specs.Prelude.{◌≡◌, List, [], ◌∷◌, ◌++◌};
ghost use Rattle.std.specs.Borrow.{ftrue};
ghost use Rattle.qc_arena.specs.Resized.{with_first};

use std::marker::{Model, PhantomData};

/// The labels on the way from the root down to a node, each a dimension and a value. A clause reads
/// them as `items`.
#[derive(Drop)]
pub(crate) struct LabelPath<A, B> {
    of: PhantomData<(A, B)>,
    pub ghost items: { List (A × B) },
}

impl<A, B> Model for LabelPath<A, B> {
    ghost also_owns = { λ _. ftrue };
}

impl<A, B> LabelPath<A, B> {
    // No labels.
    pub(crate) fn new() -> LabelPath<A, B>
        ensures { result.items ≡ [] }
    {
        LabelPath { of: PhantomData }
    }

    // The trail with one more label at its end.
    pub(crate) fn and(&self, first: &A, second: &B) -> LabelPath<A, B>
        ensures { result.items ≡ self.now.items ++ (first.now, second.now) ∷ [] }
    {
        LabelPath { of: PhantomData }
    }

    // The trail with one more label at its start.
    pub(crate) fn behind(&self, first: &A, second: &B) -> LabelPath<A, B>
        ensures { result.items ≡ with_first (first.now, second.now) self.now.items }
    {
        LabelPath { of: PhantomData }
    }

    // A copy of the trail.
    pub(crate) fn copy(&self) -> LabelPath<A, B>
        ensures { result.items ≡ self.now.items }
    {
        LabelPath { of: PhantomData }
    }
}
