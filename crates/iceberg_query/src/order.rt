// The order of an answer: by value, and then by cell.
ghost use Rattle.std.specs.List.Sorted.{IsPermutation, IsSortedBy};
ghost use Rattle.std.specs.Prelude.{OnOk, ◌≡◌};
ghost use Rattle.iceberg_query.specs.Order.{is_before, valued_cmp};

use crate::hits::ValuedClass;
use crate::{Bound, Memory};
use std::cmp::Ordering;
use value_dict::Dict;

fn order(dict: &Dict, bound: Bound, x: &ValuedClass, y: &ValuedClass) -> Ordering
    ensures { result ≡ valued_cmp dict.now.lists bound x.now y.now }
{
    let values = x.value.cmp(&y.value);
    let turned = match bound {
        Bound::AtLeast => values.reverse(),
        Bound::AtMost => values,
    };
    turned.then(dict.cell_cmp(&x.class.upper, &y.class.upper))
}

/// Puts classes in order.
pub(crate) fn sort(dict: &Dict, bound: Bound, values: &mut Vec<ValuedClass>) -> Result<(), Memory>
    ensures same { IsPermutation values.old.items values.new.items }
    ensures sorted { OnOk result (IsSortedBy (is_before dict.now.lists bound) values.new.items) }
{
    values.sort_by(|x, y| order(dict, bound, x, y))
}
