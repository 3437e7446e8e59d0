// The step after the walk of a build.
ghost use Rattle.std.specs.Ordering.{nat_cmp};
ghost use Rattle.std.specs.Prelude.{OnOk, true, ◌≡◌};
ghost use Rattle.cube_defs.specs.Tree.{IsCanonical};
ghost use Rattle.base_table.specs.Places.{rows_of};
ghost use Rattle.qc_arena.specs.Map.{frame, is_open};

use base_table::Table;
use cell_core::Steps;
use qc_arena::{Memory, QcArena};
use std::alloc::Global;
use std::sync::ledger::Ledger;

/// Changes nothing, since the walk of a build sets all links.
pub fn link_all<L: Ledger>(
    alloc: Global,
    table: &Table,
    arena: &mut QcArena,
    steps: &mut Steps<L>,
) -> Result<(), Memory>
    requires opened { is_open arena.old ≡ true }
    requires built { IsCanonical nat_cmp table.now.measures (rows_of table.now) arena.old.now }
    ensures same { OnOk result (arena.new ≡ arena.old) }
    ensures tree { OnOk result
        (IsCanonical nat_cmp table.now.measures (rows_of table.now) arena.new.now) }
    ensures frame { frame arena.new ≡ frame arena.old }
    ensures steps { steps.new ≡ steps.old }
{
    Ok(())
}
