// The keys of classes, and the entries that they stand for.
ghost use Rattle.std.specs.List.{AllZip};
ghost use Rattle.std.specs.Prelude.{IfOk, ◌≡◌, ◌≤◌};
ghost use Rattle.aggregates.specs.Views.{IsThere};
ghost use Rattle.measure_index.specs.Entries.{HaveMeasure};
ghost use Rattle.measure_index.specs.ColumnKeys.{IsKey, entry_of};

use crate::entry::IndexEntry;
use crate::key::Key;
use aggregates::{Agg, AggKind, Quotient};
use cell_core::NodeNo;
use cube_defs::{MAX_SCALE, Memory};
use std::alloc::Global;

impl Key {
    pub(crate) fn of(kind: AggKind, node: NodeNo, class: &Agg) -> Key
        requires { IsThere class.now.measures kind }
        ensures { IsKey kind (node, class.now) result }
    {
        let value = Quotient::of(class, kind);
        Key {
            num: value.num,
            den: value.den,
            node: node.0,
        }
    }

    fn value(self) -> Quotient
        ensures num { result.num ≡ self.num }
        ensures den { result.den ≡ self.den }
    {
        Quotient {
            num: self.num,
            den: self.den,
        }
    }

    /// The entry of a key. `scale` is that of the kind's measure.
    pub(crate) fn entry(self, kind: AggKind, scale: u8) -> IndexEntry
        requires { scale ≤ MAX_SCALE }
        ensures { result ≡ entry_of kind scale self }
    {
        IndexEntry {
            value: self.value().in_lowest_terms(kind, scale),
            node: self.node,
        }
    }
}

/// The keys of some classes, in their order.
pub(crate) fn keys_of(
    alloc: Global,
    kind: AggKind,
    classes: &[(NodeNo, Agg)],
) -> Result<Vec<Key>, Memory>
    requires { HaveMeasure kind classes.now }
    ensures { IfOk result (λ keys. AllZip (IsKey kind) classes.now keys.items) }
{
    let mut keys = Vec::with_capacity(alloc, classes.len())?;
    'classes: for class in classes {
        keys.push_reserved(Key::of(kind, class.0, &class.1));
    }
    Ok(keys)
}
