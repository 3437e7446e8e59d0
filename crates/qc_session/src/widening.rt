// A new dimension.
ghost use Rattle.std.specs.Prelude.{IfOk, IfSome, OnErr, OnOk, length, true, ◌≡◌, ◌≤◌};
ghost use Rattle.qc_schema.specs.Grammar.{is_new_name};
ghost use Rattle.reply_text.specs.Replies.{refused_text, widen_texts};
ghost use Rattle.reply_text.specs.Words.{reply_bytes};
ghost use Rattle.warehouse.specs.Widening.{widen_refusal_in};
ghost use Rattle.qc_session.specs.Answers.{widen_with};
ghost use Rattle.qc_session.specs.Costs.{IsWithin, widen_cost};
ghost use Rattle.qc_session.specs.Pins.{pinned_state_in};

use cell_core::{Memory, Steps, Text};
use cube_defs::MAX_TEXT;
use pinned_view::{Pinned, PinnedWiden};
use reply_text::{Reply, pinned_refusal, refused, widen_refusal, widened_reply};
use std::alloc::AllocError;
use std::sync::ledger::Ledger;
use warehouse::WidenRefused;

// Why no dimension is added.
fn refused_widening(number: u32, cause: WidenRefused) -> Result<Reply, Memory>
    ensures { IfOk result (λ reply. IfSome (widen_refusal_in cause)
        (λ refusal. reply_bytes reply ≡ refused_text number (widen_texts refusal))) }
{
    match widen_refusal(cause) {
        Some(words) => Ok(Reply::Short(refused(number, words))),
        None => Err(AllocError),
    }
}

/// Adds a dimension of a new name, in which each row has the value, if no name is pinned, and makes
/// the reply to its line.
pub fn answer_widen<L: Ledger>(
    pinned: &mut Pinned,
    number: u32,
    name: &Text,
    value: &Text,
    steps: &mut Steps<L>,
) -> Result<Reply, Memory>
    requires name { is_new_name pinned.old.now.state.schema name.now ≡ true }
    requires value { length value.now ≤ MAX_TEXT }
    ensures ok { IfOk result
        (λ reply. widen_with (pinned_state_in pinned.old) (pinned_state_in pinned.old).pins number
        name.now value.now
        ≡ record { state = pinned_state_in pinned.new; reply = reply_bytes reply }) }
    ensures same { OnErr result (pinned.new ≡ pinned.old) }
    ensures steps { OnOk result (IsWithin (widen_cost pinned.old.now.state
        (pinned_state_in pinned.old).pins name.now value.now) steps.old steps.new) }
{
    match pinned.widen(name.as_str(), value.as_str(), steps) {
        Ok(taken) => {
            let schema = pinned.now().schema();
            Ok(Reply::Short(widened_reply(number, schema.dims(), taken.classes)))
        }
        Err(PinnedWiden::Pinned) => Ok(Reply::Short(refused(number, pinned_refusal()))),
        Err(PinnedWiden::DimsFull) => refused_widening(number, WidenRefused::DimsFull),
        Err(PinnedWiden::NodesFull) => refused_widening(number, WidenRefused::NodesFull),
        Err(PinnedWiden::Memory) => Err(AllocError),
    }
}
