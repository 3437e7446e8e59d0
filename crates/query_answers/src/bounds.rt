// The answer to `bounds`.
ghost use Rattle.std.specs.Option.{option_map};
ghost use Rattle.std.specs.Prelude.{All, IfOk, IfSome, List, length, ◌*◌, ◌+◌, ◌^◌, ◌≡◌, ◌≤◌};
ghost use Rattle.cube_defs.specs.Rows.{Row};
ghost use Rattle.cube_defs.specs.Text.{Text, text_cmp};
ghost use Rattle.query_answers.specs.Queries.{AsksForCell, bounds_answer, cell_of_fields};
ghost use Rattle.cube_defs.specs.Answers.{class_of};
ghost use Rattle.lower_bounds.specs.Classes.{hit_in};
ghost use Rattle.value_dict.specs.Decoded.{IsDecodableClass, decoded_class};
ghost use Rattle.reply_text.specs.Words.{reply_bytes};
ghost use Rattle.warehouse.specs.State.{HasTree, with_rows};

use crate::source::Source;
use cell_core::{Fields, Memory, Steps};
use lower_bounds::{ClassHit, find_class};
use qc_arena::Nodes;
use reply_text::{Reply, bounds_reply, none_reply};
use std::alloc::Global;
use std::sync::ledger::Ledger;

// The class of the fields' cell. None if the cell covers no row.
fn find_fields_class<T: Nodes, L: Ledger>(
    alloc: Global,
    source: &Source<T>,
    asked: &Fields,
    steps: &mut Steps<L>,
) -> Result<Option<ClassHit>, Memory>
    requires { AsksForCell source.now.warehouse.now (T.width source.now.tree.now)
        (T.tree source.now.tree.now) source.now.index.now asked.now }
    ensures value { (rows : List (Row Text)) →
        HasTree (with_rows source.now.warehouse.now.state rows) (T.tree source.now.tree.now) →
        IfOk result (λ class.
        option_map (λ c. decoded_class source.now.warehouse.now.state.texts (hit_in c)) class
        ≡ class_of text_cmp (length source.now.warehouse.now.state.schema.measures) rows
        (cell_of_fields asked.now)) }
    ensures told { IfOk result (λ class. IfSome class (λ c.
        IsDecodableClass source.now.warehouse.now.state.texts
        (length source.now.warehouse.now.state.schema.measures) (hit_in c))) }
    ensures steps { steps.new ≤ steps.old
        + 7 * (length source.now.warehouse.now.state.schema.dims + 1)
        * 2 ^ length source.now.warehouse.now.state.schema.dims }
{
    let Some(cell) = source.warehouse.dict().cell_of(asked) else {
        return Ok(None);
    };
    find_class(alloc, source.tree, &cell, steps)
}

/// Reports the bounds of the class of a cell, which has Any or a value in each dimension. With n
/// dimensions it takes at most 7 (n + 1) 2^n steps.
pub(crate) fn answer_bounds<T: Nodes, L: Ledger>(
    alloc: Global,
    source: &Source<T>,
    number: u32,
    asked: &Fields,
    steps: &mut Steps<L>,
) -> Result<Reply, Memory>
    requires { AsksForCell source.now.warehouse.now (T.width source.now.tree.now)
        (T.tree source.now.tree.now) source.now.index.now asked.now }
    ensures reply { (rows : List (Row Text)) →
        HasTree (with_rows source.now.warehouse.now.state rows) (T.tree source.now.tree.now) →
        IfOk result (λ reply. reply_bytes reply
        ≡ bounds_answer (with_rows source.now.warehouse.now.state rows) number
        (cell_of_fields asked.now)) }
    ensures steps { steps.new ≤ steps.old
        + 7 * (length source.now.warehouse.now.state.schema.dims + 1)
        * 2 ^ length source.now.warehouse.now.state.schema.dims }
{
    let Some(class) = find_fields_class(alloc, source, asked, steps)? else {
        return Ok(Reply::Short(none_reply(number)));
    };
    let warehouse = source.warehouse;
    let reply = bounds_reply(alloc, number, warehouse.schema(), warehouse.dict(), &class)?;
    Ok(Reply::Long(reply))
}
