// Whether a class passes.
ghost use Rattle.std.specs.Prelude.{◌≡◌};
ghost use Rattle.cube_defs.specs.Answers as answers;
ghost use Rattle.aggregates.specs.Views.{IsThere, agg_in};
ghost use Rattle.iceberg_query.specs.Asked.{ask_in};

use crate::{Ask, Bound};
use aggregates::{Agg, compare, value_of};

/// Whether a class with this aggregate passes.
pub fn passes(ask: &Ask, agg: &Agg) -> bool
    requires { IsThere agg.now.measures ask.now.kind }
    ensures { result ≡ answers.passes_bound (ask_in ask.now) (agg_in agg.now) }
{
    let order = compare(&value_of(agg, ask.kind, ask.scale), &ask.value);
    match ask.bound {
        Bound::AtLeast => order.is_ge(),
        Bound::AtMost => order.is_le(),
    }
}
