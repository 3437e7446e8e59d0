// Icebergs by a walk over a tree, beside the classes that pass.
ghost use Rattle.std.specs.Prelude.{length, ◌≡◌};
ghost use Rattle.aggregates.specs.Views.{IsThere};
ghost use Rattle.warehouse_tests.specs.Cubes.{IsOfOneMeasure};

use crate::drawn_pins::iceberg_answers;
use crate::drawn_pins::lines::Sale;
use aggregates::{AggKind, Fraction, read_fraction};
use cell_core::Steps;
use iceberg_query::{Ask, Bound, iceberg};
use measure_index::Index;
use qc_arena::Nodes;
use std::alloc::Global;
use std::sync::ledger::Ledger;
use value_dict::Dict;

static VALUES: [&[u8]; 3] = [b"2", b"-1/2", b"0"];

// Whether an iceberg is right. Its index has no kinds.
fn is_right<T: Nodes, L: Ledger>(
    alloc: Global,
    tree: &T,
    dict: &Dict,
    ask: &Ask,
    sales: &[Sale],
    steps: &mut Steps<L>,
) -> bool
    requires tree { IsOfOneMeasure (T.tree tree.now) }
    requires width { T.width tree.now ≡ 3 }
    requires lists { length dict.now.lists ≡ 3 }
    requires kind { IsThere 1 ask.now.kind }
{
    let Ok(index) = Index::new(alloc, &[], &[1]) else {
        return false;
    };
    let classes = iceberg(alloc, tree, &index, dict, ask, steps);
    drop(index);
    let Ok(classes) = classes else {
        return false;
    };
    let is_right = iceberg_answers::is_right(ask, sales, &classes);
    drop(classes);
    is_right
}

// Whether the icebergs of a kind are right, from both sides.
fn are_both_right<T: Nodes, L: Ledger>(
    alloc: Global,
    tree: &T,
    dict: &Dict,
    kind: AggKind,
    value: Fraction,
    sales: &[Sale],
    steps: &mut Steps<L>,
) -> bool
    requires tree { IsOfOneMeasure (T.tree tree.now) }
    requires width { T.width tree.now ≡ 3 }
    requires lists { length dict.now.lists ≡ 3 }
    requires kind { IsThere 1 kind }
{
    let scale = 1;
    let least = Ask {
        kind,
        scale,
        bound: Bound::AtLeast,
        value,
    };
    let most = Ask {
        kind,
        scale,
        bound: Bound::AtMost,
        value,
    };
    is_right(alloc, tree, dict, &least, sales, steps)
        && is_right(alloc, tree, dict, &most, sales, steps)
}

// Whether the icebergs of a value are right, of each kind.
fn are_right<T: Nodes, L: Ledger>(
    alloc: Global,
    tree: &T,
    dict: &Dict,
    value: Fraction,
    sales: &[Sale],
    steps: &mut Steps<L>,
) -> bool
    requires tree { IsOfOneMeasure (T.tree tree.now) }
    requires width { T.width tree.now ≡ 3 }
    requires lists { length dict.now.lists ≡ 3 }
{
    are_both_right(alloc, tree, dict, AggKind::Count, value, sales, steps)
        && are_both_right(alloc, tree, dict, AggKind::Sum(0), value, sales, steps)
        && are_both_right(alloc, tree, dict, AggKind::Least(0), value, sales, steps)
        && are_both_right(alloc, tree, dict, AggKind::Greatest(0), value, sales, steps)
        && are_both_right(alloc, tree, dict, AggKind::Mean(0), value, sales, steps)
}

/// Whether each iceberg is answered by the classes that pass.
pub fn are_icebergs<T: Nodes, L: Ledger>(
    alloc: Global,
    tree: &T,
    dict: &Dict,
    sales: &[Sale],
    steps: &mut Steps<L>,
) -> bool
    requires tree { IsOfOneMeasure (T.tree tree.now) }
    requires width { T.width tree.now ≡ 3 }
    requires lists { length dict.now.lists ≡ 3 }
{
    'values: for text in &VALUES {
        let Some(value) = read_fraction(*text) else {
            return false;
        };
        if !are_right(alloc, tree, dict, value, sales, steps) {
            return false;
        }
    }
    true
}
