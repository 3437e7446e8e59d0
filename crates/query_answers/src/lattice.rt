// The answers that report classes of the quotient lattice.
ghost use Rattle.std.specs.Prelude.{All, IfOk, IfSome, IsSome, List, length, option_map, ◌*◌, ◌+◌, ◌≡◌, ◌≤◌};
ghost use Rattle.aggregates.specs.Views.{fraction_in, kind_in};
ghost use Rattle.cube_defs.specs.Rows.{Row};
ghost use Rattle.cube_defs.specs.Text.{Text};
ghost use Rattle.iceberg_query.specs.Asked.{bound_in};
ghost use Rattle.qc_arena.specs.RecordReaders.{record_at};
ghost use Rattle.query_script.specs.Commands.{IsMeasured};
ghost use Rattle.quotient_lattice.specs.DecodedNodes.{decoded_nodes};
ghost use Rattle.reply_text.specs.Words.{reply_bytes};
ghost use Rattle.value_dict.specs.Decoded.{decoded_cell};
ghost use Rattle.query_answers.specs.Queries.{AsksForCell, IsSource, ask_of, cell_of_fields};
ghost use Rattle.query_answers.specs.Lattice.{children_answer, code_of, parents_answer, rollup_answer, steps_of_children, steps_of_parents, steps_of_rollup, upper_of, uppers_text};
ghost use Rattle.warehouse.specs.State.{HasTree, with_rows};

use crate::iceberg::scale_of_kind;
use crate::source::{Condition, Source};
use cell_core::{Fields, Memory, NodeNo, Steps};
use iceberg_query::Ask;
use qc_arena::Nodes;
use quotient_lattice::{children, classes_alone, parents, rollup};
use reply_text::{Reply, iceberg_reply, none_reply};
use std::alloc::Global;
use std::sync::ledger::Ledger;
use tree_search::find;

// The node of the class of the fields' cell. None if the cell covers no row.
fn find_upper_node<T: Nodes, L: Ledger>(
    source: &Source<T>,
    asked: &Fields,
    steps: &mut Steps<L>,
) -> Option<NodeNo>
    requires { AsksForCell source.now.warehouse.now (T.width source.now.tree.now)
        (T.tree source.now.tree.now) source.now.index.now asked.now }
    ensures class { IfSome result (λ node.
        IsSome (record_at (T.tree source.now.tree.now) node.0).class) }
    ensures upper { (rows : List (Row Text)) →
        HasTree (with_rows source.now.warehouse.now.state rows) (T.tree source.now.tree.now) →
        option_map (λ node. decoded_cell source.now.warehouse.now.state.texts
        (record_at (T.tree source.now.tree.now) node.0).cell) result
        ≡ upper_of (with_rows source.now.warehouse.now.state rows) (cell_of_fields asked.now) }
    ensures code { (rows : List (Row Text)) →
        HasTree (with_rows source.now.warehouse.now.state rows) (T.tree source.now.tree.now) →
        option_map (λ node. (record_at (T.tree source.now.tree.now) node.0).cell) result
        ≡ option_map (code_of (with_rows source.now.warehouse.now.state rows))
        (upper_of (with_rows source.now.warehouse.now.state rows) (cell_of_fields asked.now)) }
    ensures steps { steps.new
        ≤ steps.old + (2 * length source.now.warehouse.now.state.schema.dims + 2) }
{
    let Some(cell) = source.warehouse.dict().cell_of(asked) else {
        return None;
    };
    find(source.tree, &cell, steps)
}

// Reports the classes of some nodes.
fn nodes_reply<T: Nodes, L: Ledger>(
    alloc: Global,
    source: &Source<T>,
    number: u32,
    nodes: &[NodeNo],
    steps: &mut Steps<L>,
) -> Result<Reply, Memory>
    requires classes { All (λ node.
        IsSome (record_at (T.tree source.now.tree.now) node.0).class) nodes.now }
    requires source { IsSource source.now.warehouse.now (T.width source.now.tree.now)
        (T.tree source.now.tree.now) source.now.index.now }
    ensures reply { (rows : List (Row Text)) →
        HasTree (with_rows source.now.warehouse.now.state rows) (T.tree source.now.tree.now) →
        IfOk result (λ reply. reply_bytes reply
        ≡ uppers_text (with_rows source.now.warehouse.now.state rows) number
        (decoded_nodes source.now.warehouse.now.state.texts
        (T.tree source.now.tree.now) nodes.now)) }
    ensures steps { steps.new ≤ steps.old
        + length nodes.now * (2 * length source.now.warehouse.now.state.schema.dims + 3) }
{
    let dict = source.warehouse.dict();
    let _dims = dict.dims();
    let classes = classes_alone(alloc, source.tree, nodes, steps)?;
    let reply = iceberg_reply(alloc, number, source.warehouse.schema(), dict, &classes)?;
    Ok(Reply::Long(reply))
}

/// Reports the parents of the class of a cell, which has Any or a value in each dimension. With n
/// dimensions, d values of the class and P parents it takes at most 17 (n + 1) (2^d + P + 1) steps.
pub(crate) fn answer_parents<T: Nodes, L: Ledger>(
    alloc: Global,
    source: &Source<T>,
    number: u32,
    asked: &Fields,
    steps: &mut Steps<L>,
) -> Result<Reply, Memory>
    requires { AsksForCell source.now.warehouse.now (T.width source.now.tree.now)
        (T.tree source.now.tree.now) source.now.index.now asked.now }
    ensures reply { (rows : List (Row Text)) →
        HasTree (with_rows source.now.warehouse.now.state rows) (T.tree source.now.tree.now) →
        IfOk result (λ reply. reply_bytes reply
        ≡ parents_answer (with_rows source.now.warehouse.now.state rows) number
        (cell_of_fields asked.now)) }
    ensures steps { (rows : List (Row Text)) →
        HasTree (with_rows source.now.warehouse.now.state rows) (T.tree source.now.tree.now) →
        steps.new ≤ steps.old + steps_of_parents (with_rows source.now.warehouse.now.state rows)
        (cell_of_fields asked.now) }
{
    let Some(node) = find_upper_node(source, asked, steps) else {
        return Ok(Reply::Short(none_reply(number)));
    };
    match parents(alloc, source.tree, source.warehouse.dict(), node, steps) {
        Ok(nodes) => nodes_reply(alloc, source, number, &nodes, steps),
        Err(error) => Err(error),
    }
}

/// Reports the children of the class of a cell, which has Any or a value in each dimension. With n
/// dimensions, E edges at the nodes from the root to the class's and C children it takes at most
/// 17 (n + 1) (E + C + 2) steps.
pub(crate) fn answer_children<T: Nodes, L: Ledger>(
    alloc: Global,
    source: &Source<T>,
    number: u32,
    asked: &Fields,
    steps: &mut Steps<L>,
) -> Result<Reply, Memory>
    requires { AsksForCell source.now.warehouse.now (T.width source.now.tree.now)
        (T.tree source.now.tree.now) source.now.index.now asked.now }
    ensures reply { (rows : List (Row Text)) →
        HasTree (with_rows source.now.warehouse.now.state rows) (T.tree source.now.tree.now) →
        IfOk result (λ reply. reply_bytes reply
        ≡ children_answer (with_rows source.now.warehouse.now.state rows) number
        (cell_of_fields asked.now)) }
    ensures steps { (rows : List (Row Text)) →
        HasTree (with_rows source.now.warehouse.now.state rows) (T.tree source.now.tree.now) →
        steps.new ≤ steps.old + steps_of_children (with_rows source.now.warehouse.now.state rows)
        (cell_of_fields asked.now) }
{
    let Some(node) = find_upper_node(source, asked, steps) else {
        return Ok(Reply::Short(none_reply(number)));
    };
    match children(alloc, source.tree, source.warehouse.dict(), node, steps) {
        Ok(nodes) => nodes_reply(alloc, source, number, &nodes, steps),
        Err(error) => Err(error),
    }
}

/// Reports the most general classes that pass, among those that the class of the cell generalizes.
/// A class passes if its value, in the unit of the measure, is at least or at most the given one.
/// The cell has Any or a value in each dimension. With n dimensions and R classes of the answer it
/// takes at most 17 (n + 1) (S + R + 1) steps. S counts each class that the class of the cell
/// generalizes, and for each of these the edges at the nodes from the root to it.
pub(crate) fn answer_rollup<T: Nodes, L: Ledger>(
    alloc: Global,
    source: &Source<T>,
    number: u32,
    condition: Condition,
    asked: &Fields,
    steps: &mut Steps<L>,
) -> Result<Reply, Memory>
    requires measured { IsMeasured (length source.now.warehouse.now.state.schema.measures)
        (kind_in condition.kind) }
    requires asked { AsksForCell source.now.warehouse.now (T.width source.now.tree.now)
        (T.tree source.now.tree.now) source.now.index.now asked.now }
    ensures reply { (rows : List (Row Text)) →
        HasTree (with_rows source.now.warehouse.now.state rows) (T.tree source.now.tree.now) →
        IfOk result (λ reply. reply_bytes reply
        ≡ rollup_answer (with_rows source.now.warehouse.now.state rows) number
        (ask_of source.now.warehouse.now.state.schema.measures
        (kind_in condition.kind) (bound_in condition.bound) (fraction_in condition.value))
        (cell_of_fields asked.now)) }
    ensures steps { (rows : List (Row Text)) →
        HasTree (with_rows source.now.warehouse.now.state rows) (T.tree source.now.tree.now) →
        steps.new ≤ steps.old + steps_of_rollup (with_rows source.now.warehouse.now.state rows)
        (ask_of source.now.warehouse.now.state.schema.measures
        (kind_in condition.kind) (bound_in condition.bound) (fraction_in condition.value))
        (cell_of_fields asked.now) }
{
    let Some(node) = find_upper_node(source, asked, steps) else {
        return Ok(Reply::Short(none_reply(number)));
    };
    let ask = Ask {
        kind: condition.kind,
        scale: scale_of_kind(source.warehouse.schema(), condition.kind),
        bound: condition.bound,
        value: condition.value,
    };
    match rollup(
        alloc,
        source.tree,
        source.warehouse.dict(),
        node,
        &ask,
        steps,
    ) {
        Ok(nodes) => nodes_reply(alloc, source, number, &nodes, steps),
        Err(error) => Err(error),
    }
}
