// The classes in order of value, for each of some kinds.
ghost use Rattle.std.specs.List.{AllZip};
ghost use Rattle.std.specs.Option.{option_copied};
ghost use Rattle.std.specs.Prelude.{All, IfOk, IsSome, None, OnErr, OnOk, Option, [], filter, is_some, length, map, reverse, ℕ, ◌≡◌, ◌≤◌};
ghost use Rattle.aggregates.specs.Views.{IsThere};
ghost use Rattle.cube_defs.specs.Rows as defs;
ghost use Rattle.qc_arena.specs.Changes.{AreNew};
ghost use Rattle.measure_index.specs.Changes.{HasChanged};
ghost use Rattle.measure_index.specs.Entries.{HaveMeasure};
ghost use Rattle.measure_index.specs.Index.{empty_ranking, entries_of, ranking_of, scale_of, units};
ghost use Rattle.measure_index.specs.Rankings.{IsIndex, IsRising, Ranking, no_entries};
ghost use Rattle.measure_index.specs.Walks.{is_at_least, is_at_most};

use crate::column::Column;
use crate::walk::{Direction, Walk};
use aggregates::{Agg, AggKind, Fraction, same_kind};
use cell_core::NodeNo;
use cube_defs::{MAX_SCALE, Memory};
use std::alloc::Global;
use std::marker::Model;

/// For some kinds of aggregates, the values of classes with their nodes, in rising order of value
/// and then of node. A value is in the unit of its measure's scale.
#[derive(Drop)]
pub struct Index {
    columns: Vec<Column>,
}

impl Model for Index {
    ghost use Rattle.std.specs.Prelude.{List};
    ghost use Rattle.measure_index.specs.Rankings.{Ranking};

    ghost Value = { List Ranking };

    ghost view = { λ x. x.columns.items };
}

// The scale of the kind's measure. The scale of COUNT is 0.
pub(crate) fn scale_in(scales: &[u8], kind: AggKind) -> u8
    requires there { IsThere (length scales.now) kind }
    requires scales { All (λ scale. scale ≤ MAX_SCALE) scales.now }
    ensures value { result ≡ scale_of scales.now kind }
    ensures small { result ≤ MAX_SCALE }
{
    match kind {
        AggKind::Count => 0,
        AggKind::Sum(measure) => scales[usize::from(measure)],
        AggKind::Least(measure) => scales[usize::from(measure)],
        AggKind::Greatest(measure) => scales[usize::from(measure)],
        AggKind::Mean(measure) => scales[usize::from(measure)],
    }
}

// Changes all columns, or leaves them as they were. All additions come first, column by column. So
// a refusal is undone by removals, which take no memory.
fn change_columns(
    alloc: Global,
    columns: &mut [Column],
    add: &[(NodeNo, Agg)],
    remove: &[(NodeNo, Agg)],
) -> Result<(), Memory>
    requires add { All (λ r. HaveMeasure r.kind add.now) columns.old }
    requires remove { All (λ r. HaveMeasure r.kind remove.now) columns.old }
    ensures ok { OnOk result (AllZip (HasChanged add.now remove.now) columns.old columns.new) }
    ensures units { units columns.new ≡ units columns.old }
    ensures err { OnErr result (columns.new ≡ columns.old) }
{
    let Some((first, rest)) = columns.split_first_mut() else {
        return Ok(());
    };
    let plan = first.plan(alloc, add, remove)?;
    let came = first.put(alloc, &plan.added)?;
    match change_columns(alloc, rest, add, remove) {
        Ok(()) => {
            first.take(&plan.going);
            Ok(())
        }
        Err(error) => {
            first.take(&came);
            Err(error)
        }
    }
}

impl Index {
    /// An index without entries. `scales` has the scales of the measures.
    pub fn new(alloc: Global, kinds: &[AggKind], scales: &[u8]) -> Result<Index, Memory>
        requires there { All (IsThere (length scales.now)) kinds.now }
        requires scales { All (λ scale. scale ≤ MAX_SCALE) scales.now }
        ensures value { IfOk result (λ index. index ≡ map (empty_ranking scales.now) kinds.now) }
        ensures classes { IfOk result (λ index. IsIndex (λ _. None) index) }
    {
        let mut columns = Vec::with_capacity(alloc, kinds.len())?;
        'kinds: for kind in kinds {
            let column = Column::new(alloc, *kind, scale_in(scales, *kind));
            columns.push_reserved(column);
        }
        Ok(Index { columns })
    }

    pub(crate) fn of(columns: Vec<Column>) -> Index
        ensures { result ≡ columns.items }
    {
        Index { columns }
    }

    // The column of a kind.
    fn column(&self, kind: AggKind) -> Option<&Column>
        ensures { option_copied result ≡ ranking_of kind self.now }
    {
        self.columns
            .iter()
            .find(|column| same_kind(kind, column.kind()))
    }

    /// Whether the index has the kind.
    pub fn has(&self, kind: AggKind) -> bool
        ensures { result ≡ is_some (ranking_of kind self.now) }
    {
        self.column(kind).is_some()
    }

    /// The number of entries of the kind.
    pub fn len(&self, kind: AggKind) -> u32
        requires { IsSome (ranking_of kind self.now) }
        ensures { result ≡ length (entries_of kind self.now) }
    {
        self.column(kind).unwrap().len()
    }

    /// Removes the classes of `remove` and adds those of `add`, in each kind. An entry that is in
    /// both stays. Each class and kind takes one search in the index. A refusal leaves the index as
    /// it was. It is also refused if a kind would have more than 4,294,967,295 entries.
    pub fn change(&mut self, add: &[(NodeNo, Agg)], remove: &[(NodeNo, Agg)]) -> Result<(), Memory>
        requires add { All (λ r. HaveMeasure r.kind add.now) self.old }
        requires remove { All (λ r. HaveMeasure r.kind remove.now) self.old }
        ensures entries { OnOk result (AllZip (HasChanged add.now remove.now) self.old self.new) }
        ensures classes { OnOk result ((from to : ℕ → Option defs.Agg) → AreNew from to add.now
            → AreNew to from remove.now → IsIndex from self.old →
            IsIndex to self.new) }
        ensures units { units self.new ≡ units self.old }
        ensures err { OnErr result (self.new ≡ self.old) }
    {
        let alloc = *self.columns.allocator();
        change_columns(alloc, &mut self.columns, add, remove)
    }

    /// The classes with at least a value, from the greatest on. The value is in the unit of the
    /// kind's measure. Takes no memory, and reads only as far as the walk goes.
    pub fn at_least(&self, kind: AggKind, value: &Fraction) -> Walk<'_>
        requires { IsSome (ranking_of kind self.now) }
        ensures left { result.left
            ≡ reverse (filter (is_at_least value.now) (entries_of kind self.now)) }
        ensures rising { IsRising (entries_of kind self.now) }
        ensures given { result.given ≡ 0 }
        ensures taken { result.taken ≡ 0 }
    {
        self.column(kind).unwrap().walk(Direction::Falling, value)
    }

    /// The classes with at most a value, from the least on. The value is in the unit of the kind's
    /// measure. Takes no memory, and reads only as far as the walk goes.
    pub fn at_most(&self, kind: AggKind, value: &Fraction) -> Walk<'_>
        requires { IsSome (ranking_of kind self.now) }
        ensures left { result.left ≡ filter (is_at_most value.now) (entries_of kind self.now) }
        ensures rising { IsRising (entries_of kind self.now) }
        ensures given { result.given ≡ 0 }
        ensures taken { result.taken ≡ 0 }
    {
        self.column(kind).unwrap().walk(Direction::Rising, value)
    }
}
