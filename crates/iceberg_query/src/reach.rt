// Whether a class of fewer rows may pass.
ghost use Rattle.std.specs.Ordering.{int_cmp};
ghost use Rattle.std.specs.Prelude.{false, pos, ℕ, ◌*ℤ◌, ◌<◌, ◌≡◌};
ghost use Rattle.cube_defs.specs.Answers as answers;
ghost use Rattle.cube_defs.specs.Rows as defs;
ghost use Rattle.aggregates.specs.Views.{IsThere, agg_in};
ghost use Rattle.iceberg_query.specs.Asked.{ask_in};
ghost use Rattle.iceberg_query.specs.Reach.{IsOfSome, farther, is_reached, sum_passes, outer};

use crate::passing::passes;
use crate::{Ask, Bound};
use aggregates::{Agg, AggKind, value_of};

// The kind that bounds each amount: the greatest or the least.
fn extreme_kind(bound: Bound, measure: u8) -> AggKind
    ensures { result ≡ outer bound measure }
{
    match bound {
        Bound::AtLeast => AggKind::Greatest(measure),
        Bound::AtMost => AggKind::Least(measure),
    }
}

fn more_extreme(bound: Bound, one: i128, all: i128) -> i128
    ensures { result ≡ farther bound one all }
{
    match bound {
        Bound::AtLeast => one.max(all),
        Bound::AtMost => one.min(all),
    }
}

fn times(amount: i64, count: u32) -> i128
    ensures { result ≡ amount *ℤ pos count }
{
    i128::from(amount) * i128::from(count)
}

fn is_past_bound(bound: Bound, reached: i128, wanted: i128) -> bool
    ensures { result ≡ is_reached bound (int_cmp reached wanted) }
{
    let order = reached.cmp(&wanted);
    match bound {
        Bound::AtLeast => order.is_ge(),
        Bound::AtMost => order.is_le(),
    }
}

// Whether a sum may pass. A sum of amounts is no farther out than one outermost amount, or than as
// many as there are rows.
fn may_pass_by_sum(ask: &Ask, agg: &Agg, measure: u8) -> bool
    requires { measure < agg.now.measures }
    ensures { result ≡ false → (measures : ℕ) (some : defs.Agg) → measure < measures
        → IsOfSome measures (agg_in agg.now) some →
        sum_passes ask.now measure some ≡ false }
{
    let end = value_of(agg, extreme_kind(ask.bound, measure), ask.scale);
    let all = times(end.num, agg.count);
    let most = more_extreme(ask.bound, i128::from(end.num), all);
    let Some(reached) = most.checked_mul(i128::from(ask.value.den)) else {
        return true;
    };
    let Some(wanted) = ask.value.num.checked_mul(i128::from(end.den)) else {
        return true;
    };
    is_past_bound(ask.bound, reached, wanted)
}

/// Whether the aggregate of some of the rows may pass, where that of all is given. If it can't, no
/// more special class passes.
pub(crate) fn may_pass(ask: &Ask, agg: &Agg) -> bool
    requires { IsThere agg.now.measures ask.now.kind }
    ensures { result ≡ false → (measures : ℕ) (some : defs.Agg) → IsThere measures ask.now.kind
        → IsOfSome measures (agg_in agg.now) some →
        answers.passes_bound (ask_in ask.now) some ≡ false }
{
    match ask.kind {
        AggKind::Count => match ask.bound {
            Bound::AtLeast => passes(ask, agg),
            Bound::AtMost => true,
        },
        AggKind::Sum(measure) => may_pass_by_sum(ask, agg, measure),
        AggKind::Least(measure) | AggKind::Greatest(measure) | AggKind::Mean(measure) => {
            let outermost = Ask {
                kind: extreme_kind(ask.bound, measure),
                scale: ask.scale,
                bound: ask.bound,
                value: ask.value,
            };
            passes(&outermost, agg)
        }
    }
}
