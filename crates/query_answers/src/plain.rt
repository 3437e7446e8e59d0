// The answers to queries of a cell that are read into codes.
ghost use Rattle.std.specs.Prelude.{IfSome, None, OnErr, OnOk, length, true, ◌≡◌};
ghost use Rattle.aggregates.specs.Views.{agg_in};
ghost use Rattle.lower_bounds.specs.Classes.{hit_in};
ghost use Rattle.query_answers.specs.Queries.{IsAnswered};
ghost use Rattle.query_script.specs.Lines.{may_want_memory};
ghost use Rattle.range_query.specs.DecodedHits.{IsDecodableHit};
ghost use Rattle.reply_text.specs.Replies.{bounds_text, none_text, point_text};
ghost use Rattle.value_dict.specs.Decoded.{IsDecodableClass, decoded_cell, decoded_class};

use aggregates::Agg;
use cell_core::{Cell, Memory, Steps};
use lower_bounds::{ClassHit, find_class};
use query_script::{CellQuery, CellRead, read_cell_codes};
use reply_text::{none_reply, push_bounds, push_point};
use std::alloc::Global;
use std::sync::ledger::Ledger;
use tree_search::total_at;
use warehouse::Warehouse;

// Replaces the reply by `none_reply`.
fn put_none(number: u32, reply: &mut Vec<u8>) -> Result<(), Memory>
    ensures { OnOk result (reply.new.items ≡ none_text number) }
{
    reply.clear();
    reply.extend_from_slice(none_reply(number).as_bytes())
}

// Replaces the reply by that of a cell with this aggregate.
fn put_total(
    warehouse: &Warehouse,
    number: u32,
    cell: &Cell,
    total: &Agg,
    reply: &mut Vec<u8>,
) -> Result<(), Memory>
    requires { IsDecodableHit warehouse.now.state.texts
        (length warehouse.now.state.schema.measures)
        (record { cell = cell.now; agg = agg_in total.now }) }
    ensures { OnOk result
        (reply.new.items ≡ point_text number (decoded_cell warehouse.now.state.texts cell.now)
        warehouse.now.state.schema.measures
        (agg_in total.now)) }
{
    reply.clear();
    push_point(
        reply,
        number,
        warehouse.schema(),
        warehouse.dict(),
        cell,
        total,
    )
}

// Replaces the reply by that of a class, and drops the class.
fn put_class(
    warehouse: &Warehouse,
    number: u32,
    class: ClassHit,
    reply: &mut Vec<u8>,
) -> Result<(), Memory>
    requires { IsDecodableClass warehouse.now.state.texts
        (length warehouse.now.state.schema.measures) (hit_in class) }
    ensures { OnOk result (reply.new.items ≡ bounds_text number
        warehouse.now.state.schema.measures
        (decoded_class warehouse.now.state.texts (hit_in class))) }
{
    reply.clear();
    let done = push_bounds(reply, number, warehouse.schema(), warehouse.dict(), &class);
    drop(class);
    done
}

/// Answers a line that is a point or `bounds`, without quotes, over the present rows, and replaces
/// the reply by its own. None if the line is neither: then no step is taken. With n dimensions a
/// point takes at most 2n + 3 steps, and `bounds` at most 7 (n + 1) 2^n.
pub fn answer_plain_cell<L: Ledger>(
    alloc: Global,
    warehouse: &Warehouse,
    number: u32,
    line: &[u8],
    reply: &mut Vec<u8>,
    steps: &mut Steps<L>,
) -> Option<Result<(), Memory>>
    ensures answered { IfSome result (λ done. IsAnswered warehouse.now.state line.now number
        done reply.new.items steps.old steps.new) }
    ensures memory { IfSome result (λ done. OnErr done (may_want_memory line.now ≡ true)) }
    ensures unread { result ≡ None → steps.new ≡ steps.old }
{
    let dict = warehouse.dict();
    let tree = warehouse.tree();
    let mut cell = Cell::any(alloc, dict.dims());
    match read_cell_codes(warehouse.schema(), dict, line, &mut cell) {
        CellRead::Unread => None,
        CellRead::Unknown(_) => Some(put_none(number, reply)),
        CellRead::Known(CellQuery::Point) => match total_at(tree, &cell, steps) {
            Some(total) => Some(put_total(warehouse, number, &cell, &total, reply)),
            None => Some(put_none(number, reply)),
        },
        CellRead::Known(CellQuery::Bounds) => match find_class(alloc, tree, &cell, steps) {
            Ok(Some(class)) => Some(put_class(warehouse, number, class, reply)),
            Ok(None) => Some(put_none(number, reply)),
            Err(refused) => Some(Err(refused)),
        },
    }
}
