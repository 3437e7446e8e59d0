// The state of the walk.
ghost use Rattle.std.specs.Prelude.{◌≡◌};

use crate::pool::PartsPool;
use crate::prefix_nodes::PrefixNodes;
use cell_core::Steps;
use qc_arena::QcArena;
use std::sync::ledger::Ledger;

/// The arena in which a tree is built, the nodes stored for prefixes of tuples, reusable room for
/// parts, and the steps so far.
pub(crate) struct Builder<'a, L: Ledger> {
    pub(crate) arena: &'a mut QcArena,
    pub(crate) fronts: &'a mut PrefixNodes,
    pub(crate) room: &'a mut PartsPool,
    pub(crate) steps: &'a mut Steps<L>,
}

/// Gives back what was borrowed, unchanged.
impl<L: Ledger> Drop for Builder<'_, L> {
    fn drop(self)
        ensures arena { self.exit.0.now ≡ self.entry.arena.now }
        ensures steps { self.exit.1.1.1.0.now ≡ self.entry.steps.now }
    {
        let Builder {
            arena: _arena,
            fronts: _fronts,
            room: _room,
            steps: _steps,
        } = self;
    }
}
