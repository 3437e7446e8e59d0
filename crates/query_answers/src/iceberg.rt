// The answer to an iceberg query.
ghost use Rattle.std.specs.Prelude.{All, IfOk, IsSome, List, None, Option, length, ℕ, ◌*◌, ◌+◌, ◌≡◌, ◌≤◌};
ghost use Rattle.aggregates.specs.Views.{fraction_in, kind_in};
ghost use Rattle.aggregates.specs.declared.kind.AggKind as kinds;
ghost use Rattle.cube_defs.specs.Rows.{Agg, Row};
ghost use Rattle.cube_defs.specs.Text.{Text};
ghost use Rattle.iceberg_query.specs.Asked.{bound_in};
ghost use Rattle.iceberg_query.specs.Hits.{decoded_classes};
ghost use Rattle.lower_bounds.specs.Classes.{hit_in};
ghost use Rattle.measure_index.specs.Index.{ranking_of};
ghost use Rattle.measure_index.specs.Rankings.{IsIndex};
ghost use Rattle.qc_schema.specs.Schema.{IsLayout};
ghost use Rattle.query_script.specs.Commands.{IsMeasured};
ghost use Rattle.reply_text.specs.Words.{reply_bytes};
ghost use Rattle.value_dict.specs.Decoded.{IsDecodableClass};
ghost use Rattle.query_answers.specs.Queries.{IsSource, classes_of, iceberg_answer, scale_of, steps_of_class, steps_of_walk};
ghost use Rattle.warehouse.specs.State.{HasTree, with_rows};

use crate::source::{Condition, Source};
use aggregates::AggKind;
use cell_core::{Memory, Steps};
use cube_defs::MAX_SCALE;
use iceberg_query::{Ask, ClassHit, iceberg};
use measure_index::Index;
use qc_arena::Nodes;
use qc_schema::Schema;
use reply_text::{Reply, iceberg_reply};
use std::alloc::Global;
use std::sync::ledger::Ledger;

/// The scale of the measure of a kind; a count has none.
pub(crate) fn scale_of_kind(schema: &Schema, kind: AggKind) -> u8
    requires layout { IsLayout schema.now }
    requires measured { IsMeasured (length schema.now.measures) (kind_in kind) }
    ensures value { result ≡ scale_of schema.now.measures (kind_in kind) }
    ensures few { result ≤ MAX_SCALE }
{
    match kind {
        AggKind::Count => 0,
        AggKind::Sum(m) | AggKind::Least(m) | AggKind::Greatest(m) | AggKind::Mean(m) => {
            schema.scale(m)
        }
    }
}

/// An index of no kinds, which is that of every tree.
pub fn empty_index(alloc: Global) -> Result<Index, Memory>
    ensures index { IfOk result (λ index. (class : ℕ → Option Agg) → IsIndex class index) }
    ensures kinds { IfOk result (λ index. (kind : kinds.AggKind) → ranking_of kind index ≡ None) }
{
    Index::new(alloc, &[], &[])
}

// The classes that pass.
fn find_classes<T: Nodes, L: Ledger>(
    alloc: Global,
    source: &Source<T>,
    condition: Condition,
    steps: &mut Steps<L>,
) -> Result<Vec<ClassHit>, Memory>
    requires measured { IsMeasured (length source.now.warehouse.now.state.schema.measures)
        (kind_in condition.kind) }
    requires source { IsSource source.now.warehouse.now (T.width source.now.tree.now)
        (T.tree source.now.tree.now) source.now.index.now }
    ensures classes { (rows : List (Row Text)) →
        HasTree (with_rows source.now.warehouse.now.state rows) (T.tree source.now.tree.now) →
        IfOk result (λ classes. decoded_classes source.now.warehouse.now.state.texts classes.items
        ≡ classes_of (with_rows source.now.warehouse.now.state rows)
        (kind_in condition.kind) (bound_in condition.bound) (fraction_in condition.value)) }
    ensures told { IfOk result (λ classes. All (λ class.
        IsDecodableClass source.now.warehouse.now.state.texts
        (length source.now.warehouse.now.state.schema.measures) (hit_in class)) classes.items) }
    ensures steps { IsSome (ranking_of condition.kind source.now.index.now) →
        IfOk result (λ classes. steps.new ≤ steps.old
        + length classes.items * steps_of_class source.now.warehouse.now.state.schema) }
    ensures walked { (rows : List (Row Text)) →
        HasTree (with_rows source.now.warehouse.now.state rows) (T.tree source.now.tree.now) →
        IfOk result (λ classes. steps.new ≤ steps.old
        + (length classes.items * steps_of_class source.now.warehouse.now.state.schema
        + steps_of_walk (with_rows source.now.warehouse.now.state rows))) }
{
    let ask = Ask {
        kind: condition.kind,
        scale: scale_of_kind(source.warehouse.schema(), condition.kind),
        bound: condition.bound,
        value: condition.value,
    };
    iceberg(
        alloc,
        source.tree,
        source.index,
        source.warehouse.dict(),
        &ask,
        steps,
    )
}

/// Reports the classes whose value, in the unit of the measure, is at least or at most the given
/// one. With n dimensions it takes at most 32 (n + 1)^2 2^n steps for each of these classes. If no
/// index has the kind, it also walks over the tree.
pub(crate) fn answer_iceberg<T: Nodes, L: Ledger>(
    alloc: Global,
    source: &Source<T>,
    number: u32,
    condition: Condition,
    steps: &mut Steps<L>,
) -> Result<Reply, Memory>
    requires measured { IsMeasured (length source.now.warehouse.now.state.schema.measures)
        (kind_in condition.kind) }
    requires source { IsSource source.now.warehouse.now (T.width source.now.tree.now)
        (T.tree source.now.tree.now) source.now.index.now }
    ensures reply { (rows : List (Row Text)) →
        HasTree (with_rows source.now.warehouse.now.state rows) (T.tree source.now.tree.now) →
        IfOk result (λ reply. reply_bytes reply
        ≡ iceberg_answer (with_rows source.now.warehouse.now.state rows) number
        (kind_in condition.kind) (bound_in condition.bound) (fraction_in condition.value)) }
    ensures steps { IsSome (ranking_of condition.kind source.now.index.now) →
        (rows : List (Row Text)) →
        HasTree (with_rows source.now.warehouse.now.state rows) (T.tree source.now.tree.now) →
        IfOk result (λ _. steps.new ≤ steps.old
        + length (classes_of (with_rows source.now.warehouse.now.state rows)
        (kind_in condition.kind) (bound_in condition.bound) (fraction_in condition.value))
        * steps_of_class source.now.warehouse.now.state.schema) }
    ensures walked { (rows : List (Row Text)) →
        HasTree (with_rows source.now.warehouse.now.state rows) (T.tree source.now.tree.now) →
        IfOk result (λ _. steps.new ≤ steps.old
        + (length (classes_of (with_rows source.now.warehouse.now.state rows)
        (kind_in condition.kind) (bound_in condition.bound) (fraction_in condition.value))
        * steps_of_class source.now.warehouse.now.state.schema
        + steps_of_walk (with_rows source.now.warehouse.now.state rows))) }
{
    let classes = find_classes(alloc, source, condition, steps)?;
    let reply = iceberg_reply(
        alloc,
        number,
        source.warehouse.schema(),
        source.warehouse.dict(),
        &classes,
    )?;
    Ok(Reply::Long(reply))
}
