// Classes that are gathered for an index.
ghost use Rattle.std.specs.List.{AllZip};
ghost use Rattle.std.specs.Prelude.{All, IfOk, List, None, OnOk, Option, [], length, map, ℕ, ◌++◌, ◌<◌, ◌∷◌, ◌≡◌, ◌≤◌};
ghost use Rattle.aggregates.specs.Views.{IsThere};
ghost use Rattle.aggregates.specs.declared.agg.Agg as aggs;
ghost use Rattle.cell_core.specs.declared.cell.NodeNo as numbers;
ghost use Rattle.cube_defs.specs.Rows as defs;
ghost use Rattle.qc_arena.specs.Changes.{AreNew};
ghost use Rattle.measure_index.specs.Builder.{AreKeysOf, GatheredKeys, HasOneMore, IsRankingOf, gathered_units};
ghost use Rattle.measure_index.specs.Index.{scale_of, units};
ghost use Rattle.measure_index.specs.Rankings.{IsIndex};

use crate::column::Column;
use crate::index::{Index, scale_in};
use crate::key::Key;
use aggregates::{Agg, AggKind};
use cell_core::NodeNo;
use cube_defs::{MAX_SCALE, Memory};
use std::alloc::Global;
use std::marker::Model;

// The keys gathered so far for a kind. `scale` is the scale of its measure, the number of decimals.
#[derive(Drop)]
pub(crate) struct ColumnBuilder {
    kind: AggKind,
    scale: u8,
    keys: Vec<Key>,
}

impl Model for ColumnBuilder {
    ghost use Rattle.std.specs.Prelude.{◌≤◌};
    ghost use Rattle.cube_defs.specs.declared.limits.TheConstants.{MAX_SCALE};
    ghost use Rattle.measure_index.specs.Builder.{GatheredKeys};

    ghost Value = { GatheredKeys };

    ghost view = { λ c. record { kind = c.kind; scale = c.scale; keys = c.keys.items } };

    ghost invariant = { λ c. c.scale ≤ MAX_SCALE };
}

impl ColumnBuilder {
    fn new(alloc: Global, kind: AggKind, scale: u8, room: usize) -> Result<ColumnBuilder, Memory>
        requires { scale ≤ MAX_SCALE }
        ensures { IfOk result (λ coming. coming ≡ record {
          kind = kind;
          scale
              = scale;
          keys = [];
        }) }
    {
        match Vec::with_capacity(alloc, room) {
            Ok(keys) => Ok(ColumnBuilder { kind, scale, keys }),
            Err(error) => Err(error),
        }
    }

    fn push(&mut self, node: NodeNo, class: &Agg) -> Result<(), Memory>
        requires { IsThere class.now.measures self.old.kind }
        ensures more { OnOk result (HasOneMore (node, class.now) self.old self.new) }
        ensures kind { self.new.kind ≡ self.old.kind }
        ensures scale { self.new.scale ≡ self.old.scale }
    {
        self.keys.push(Key::of(self.kind, node, class))?;
        Ok(())
    }

    fn in_order(self, alloc: Global) -> Result<Column, Memory>
        requires { length self.keys < 4294967296 }
        ensures { IfOk result (λ column. IsRankingOf self column) }
    {
        Column::filled(alloc, self.kind, self.scale, self.keys)
    }
}

// Adds a class to each kind.
fn push_all(columns: &mut [ColumnBuilder], node: NodeNo, class: &Agg) -> Result<(), Memory>
    requires { All (λ c. IsThere class.now.measures c.kind) columns.old }
    ensures more { OnOk result (AllZip (HasOneMore (node, class.now)) columns.old columns.new) }
    ensures units { gathered_units columns.new ≡ gathered_units columns.old }
{
    let Some((first, rest)) = columns.split_first_mut() else {
        return Ok(());
    };
    match first.push(node, class) {
        Ok(()) => push_all(rest, node, class),
        Err(error) => Err(error),
    }
}

/// Classes that are gathered for an index of some kinds. They may be added in any order, each of
/// them once.
#[derive(Drop)]
pub struct IndexBuilder {
    columns: Vec<ColumnBuilder>,
}

impl Model for IndexBuilder {
    ghost use Rattle.std.specs.Prelude.{List};
    ghost use Rattle.measure_index.specs.Builder.{GatheredKeys};

    ghost Value = { List GatheredKeys };

    ghost view = { λ x. x.columns.items };
}

impl IndexBuilder {
    /// No classes yet, with room for some. `scales` has the scales of the measures.
    pub fn new(
        alloc: Global,
        kinds: &[AggKind],
        scales: &[u8],
        room: usize,
    ) -> Result<IndexBuilder, Memory>
        requires there { All (IsThere (length scales.now)) kinds.now }
        requires scales { All (λ scale. scale ≤ MAX_SCALE) scales.now }
        ensures units { IfOk result
            (λ filling. gathered_units filling
            ≡ map (λ kind. (kind, scale_of scales.now kind)) kinds.now) }
        ensures classes { IfOk result (AreKeysOf []) }
    {
        let mut columns = Vec::with_capacity(alloc, kinds.len())?;
        'kinds: for kind in kinds {
            let column = ColumnBuilder::new(alloc, *kind, scale_in(scales, *kind), room)?;
            columns.push_reserved(column);
        }
        Ok(IndexBuilder { columns })
    }

    /// Adds a class, with its node.
    pub fn push(&mut self, node: NodeNo, class: &Agg) -> Result<(), Memory>
        requires { All (λ unit. IsThere class.now.measures unit.0) (gathered_units self.old) }
        ensures classes { OnOk result ((before : List (numbers.NodeNo × aggs.Agg))
            → AreKeysOf before self.old →
            AreKeysOf (before ++ (node, class.now) ∷ []) self.new) }
        ensures units { gathered_units self.new ≡ gathered_units self.old }
    {
        push_all(&mut self.columns, node, class)
    }

    /// The index of the classes, made without a search for each. A kind has up to 4,294,967,295
    /// entries.
    pub fn finish(self) -> Result<Index, Memory>
        requires { All (λ c. length c.keys < 4294967296) self }
        ensures units { IfOk result (λ index. units index ≡ gathered_units self) }
        ensures classes { IfOk result
            (λ index. (classes : List (numbers.NodeNo × aggs.Agg)) (class : ℕ → Option defs.Agg)
            → AreKeysOf classes self →
            AreNew (λ _. None) class classes → IsIndex class index) }
    {
        let alloc = *self.columns.allocator();
        let mut columns = Vec::with_capacity(alloc, self.columns.len())?;
        'kinds: for keys in self.columns {
            let column = keys.in_order(alloc)?;
            columns.push(column)?;
        }
        Ok(Index::of(columns))
    }
}
