// The aggregate of rows.
ghost use Rattle.std.specs.Prelude.{◌≡◌};
ghost use Rattle.cube_defs.specs.Rows.{agg_of};
ghost use Rattle.base_table.specs.Places.{named};
ghost use Rattle.aggregates.specs.Views.{agg_in};

use crate::part::Partition;
use aggregates::Agg;

/// Makes it the aggregate of the part's rows. It stays where it is: a copy of it right after the
/// last row was added would wait for what was just written.
pub(crate) fn total(part: &Partition<'_>, agg: &mut Agg)
    requires { agg.old.measures ≡ part.now.table.now.measures }
    ensures { agg_in agg.new
        ≡ agg_of part.now.table.now.measures (named part.now.table.now part.now.rows.now) }
{
    let table = part.table;
    let rows = part.rows;
    agg.restart(table.amounts(rows[0]));
    'rows: for i in 1..rows.len() {
        agg.add_row(table.amounts(rows[i]));
    }
}
