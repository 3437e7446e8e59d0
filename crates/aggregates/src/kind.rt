// The kinds of aggregates.
ghost use Rattle.std.specs.Prelude.{◌≡◌};
ghost use Rattle.aggregates.specs.Views.{same_kind};

/// An aggregate that an iceberg compares or an index sorts by. All but the count name a measure.
#[derive(Clone, Copy, PartialEq, Eq)]
pub enum AggKind {
    Count,
    Sum(u8),
    Least(u8),
    Greatest(u8),
    Mean(u8),
}

/// Whether both ask for the same aggregate of the same measure.
pub fn same_kind(a: AggKind, b: AggKind) -> bool
    ensures { result ≡ same_kind a b }
{
    a == b
}
