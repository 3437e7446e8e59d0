// Names for the present rows, and queries of the rows of a name.
ghost use Rattle.std.specs.Prelude.{IfOk, OnOk, length, ◌≡◌, ◌≤◌, ◌+◌};
ghost use Rattle.query_script.specs.Commands.{IsQuery};
ghost use Rattle.query_script.specs.Queries.{query_in};
ghost use Rattle.reply_text.specs.Words.{reply_bytes};
ghost use Rattle.qc_session.specs.Costs.{cost_over};
ghost use Rattle.qc_session.specs.Pins.{at_reply, pinned_state_in, pin_answer, rows_at, unpin_answer};

use cell_core::{Memory, Steps, Text};
use pinned_view::{NotPinned, PinRefused, Pinned};
use query_answers::{Source, answer_query, empty_index};
use query_script::Query;
use reply_text::{
    Reply, ShortReply, all_pinned_refusal, name_taken_refusal, not_pinned_refusal, pinned_reply,
    refused, unpinned_reply,
};
use std::alloc::{AllocError, Global};
use std::sync::ledger::Ledger;

/// Pins the present rows under a name, and makes the reply to its line. Takes no memory.
pub fn answer_pin(held: &mut Pinned, number: u32, name: &Text) -> ShortReply
    requires { length name.now ≤ 32 }
    ensures { pin_answer (pinned_state_in held.old) number name.now ≡ record {
      state
          = pinned_state_in held.new;
      reply = result;
    } }
{
    match held.pin(name.as_str()) {
        Ok(()) => pinned_reply(number, name.as_str(), held.now().stats().classes),
        Err(PinRefused::NameTaken) => refused(number, name_taken_refusal()),
        Err(PinRefused::AllPinned) => refused(number, all_pinned_refusal()),
    }
}

/// Drops a pin, and makes the reply to its line. Takes no memory.
pub fn answer_unpin(held: &mut Pinned, number: u32, name: &Text) -> ShortReply
    requires { length name.now ≤ 32 }
    ensures { unpin_answer (pinned_state_in held.old) number name.now ≡ record {
      state
          = pinned_state_in held.new;
      reply = result;
    } }
{
    match held.unpin(name.as_str()) {
        Ok(()) => unpinned_reply(number, name.as_str()),
        Err(NotPinned) => refused(number, not_pinned_refusal()),
    }
}

/// Answers a query of the rows of a pin, over the tree of that time.
pub fn answer_at<L: Ledger>(
    alloc: Global,
    held: &Pinned,
    number: u32,
    name: &Text,
    query: &Query,
    steps: &mut Steps<L>,
) -> Result<Reply, Memory>
    requires { IsQuery held.now.now.state.schema (query_in query.now) }
    ensures reply { IfOk result (λ reply. reply_bytes reply ≡ at_reply (pinned_state_in held.now)
        number name.now (query_in query.now)) }
    ensures steps { OnOk result (steps.new ≤ steps.old + cost_over held.now.now.state
        (query_in query.now) (rows_at (pinned_state_in held.now).pins name.now)) }
{
    let Some(view) = held.view(name.as_str()) else {
        return Ok(Reply::Short(refused(number, not_pinned_refusal())));
    };
    let Ok(index) = empty_index(alloc) else {
        return Err(AllocError);
    };
    let source = Source {
        warehouse: held.now(),
        tree: &view,
        index: &index,
        counts: view.stats(),
    };
    let reply = answer_query(alloc, &source, number, query, steps);
    drop(index);
    reply
}
