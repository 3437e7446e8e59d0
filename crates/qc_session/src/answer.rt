// The answer to one line.
ghost use Rattle.std.specs.Prelude.{Err, IfErr, IsErr, IfOk, IfSome, IsTrue, None, Ok, OnErr, OnOk, Some, length, option_map, true, ⊤, ◌≡◌, ◌≤◌};
ghost use Rattle.csv_load.specs.Files.{batch_in};
ghost use Rattle.cube_defs.specs.declared.limits.TheConstants.{MAX_FILE};
ghost use Rattle.qc_io.specs.Outside.{Rose, FileContents};
ghost use Rattle.pinned_view.specs.Versions.{ShowsSame};
ghost use Rattle.query_script.specs.Commands.{IsQuestion, wants_memory};
ghost use Rattle.query_script.specs.Lines.{may_want_memory};
ghost use Rattle.query_script.specs.Questions.{question_in};
ghost use Rattle.warehouse.specs.Batch as batches;
ghost use Rattle.warehouse.specs.InPlace.{LeavesOtherRecords, LeavesNumbers};
ghost use Rattle.warehouse.specs.State.{State};
ghost use Rattle.qc_session.specs.Answers.{answer, answer_to, with_pins, change_answer, file_answer, file_named, file_of};
ghost use Rattle.qc_session.specs.Costs.{IsWithin, bytes_cost, line_cost, question_cost, taken_bytes_cost};
ghost use Rattle.qc_session.specs.Pins.{pinned_state_in};
ghost use Rattle.qc_session.specs.Reading.{FilesStay};

use self::FileUse::{Apply, Load, Try};
use crate::pins::{answer_at, answer_pin, answer_unpin};
use crate::widening::answer_widen;
use cell_core::{Memory, Steps, Text};
use cube_defs::MAX_FILE;
use pinned_view::Pinned;
use qc_io::{Files, ReadRefused, read_all};
use query_answers::answer_present;
use query_script::{Command, read_line};
use reply_text::{
    Reply, ShortReply, applied_reply, file_refusal, line_refusal, refused, size_refusal,
};
use std::alloc::{AllocError, Global};
use std::sync::ledger::Ledger;
use warehouse::{Applied, Refused};

/// What a file is read for.
#[derive(Clone, Copy)]
pub enum FileUse {
    /// A base file.
    Load,
    /// A batch.
    Apply,
    /// A dry run of a batch.
    Try,
}

/// Why a line has no reply.
#[derive(Drop)]
pub enum LineStop {
    /// Memory ran out. The line changed nothing.
    Memory,
    /// The file of this name couldn't be read.
    Fault(Text),
}

ghost use Rattle.qc_session.specs.Stops.{MatchLineStop, kind_in, answer_by_use, state_by_use};
ghost use Rattle.reply_text.specs.Words.{reply_bytes};
ghost use Rattle.cell_core.specs.Gives.{Gives};
ghost use Rattle.warehouse.specs.Stored.{applied_in, refusal_in};

// What a file is read for, and its bytes, which are no more than a file may have.
#[derive(Clone, Copy)]
struct FileRead<'a> {
    kind: FileUse,
    bytes: &'a [u8],
    ghost short: { length bytes.now ≤ MAX_FILE },
}

// Takes the bytes of a file. A batch is applied in place, or is a dry run.
fn take_file<L: Ledger>(
    pinned: &mut Pinned,
    file: FileRead<'_>,
    steps: &mut Steps<L>,
) -> Result<Applied, Refused>
    ensures gives { (then : State)
        × Gives refusal_in (applied_in then) result
        (batches.result pinned.old.now.state (kind_in file.entry.kind) file.entry.bytes.now)
        × OnOk result
        (pinned.new.now.state ≡ state_by_use file.entry.kind pinned.old.now.state then) }
    ensures pins { pinned.new.pins ≡ pinned.old.pins }
    ensures tried { file.entry.kind ≡ FileUse.Try → pinned.new ≡ pinned.old }
    ensures numbers { OnOk result (file.entry.kind ≡ FileUse.Apply
        → LeavesNumbers pinned.old.now file.entry.bytes.now pinned.new.now) }
    ensures apart { OnOk result (file.entry.kind ≡ FileUse.Apply
        → LeavesOtherRecords pinned.old.now file.entry.bytes.now pinned.new.now) }
    ensures steps { OnOk result
        (IsWithin (taken_bytes_cost (kind_in file.entry.kind) pinned.old.now.state
        file.entry.bytes.now) steps.old steps.new) }
    ensures unread { kind_in file.entry.kind ≡ batches.Apply
        → IsErr (batch_in pinned.old.now.state.schema file.entry.bytes.now)
        → steps.new ≡ steps.old }
    ensures same { OnErr result (ShowsSame pinned.old pinned.new) }
{
    match file.kind {
        FileUse::Load => pinned.load(file.bytes, steps),
        FileUse::Apply => pinned.apply(file.bytes, steps),
        FileUse::Try => pinned.attempt(file.bytes, steps),
    }
}

// Takes the bytes of a file, and makes the reply to its line.
fn file_reply<L: Ledger>(
    pinned: &mut Pinned,
    number: u32,
    file: FileRead<'_>,
    steps: &mut Steps<L>,
) -> Result<ShortReply, Memory>
    ensures ok { IfOk result (λ reply.
        answer_by_use file.entry.kind pinned.old.now.state
        (change_answer pinned.old.now.state number
        (batches.result pinned.old.now.state (kind_in file.entry.kind) file.entry.bytes.now))
        ≡ record { state = pinned.new.now.state; reply = reply }) }
    ensures pins { pinned.new.pins ≡ pinned.old.pins }
    ensures tried { file.entry.kind ≡ FileUse.Try → pinned.new ≡ pinned.old }
    ensures numbers { file.entry.kind ≡ FileUse.Apply
        → LeavesNumbers pinned.old.now file.entry.bytes.now pinned.new.now }
    ensures apart { file.entry.kind ≡ FileUse.Apply
        → LeavesOtherRecords pinned.old.now file.entry.bytes.now pinned.new.now }
    ensures steps { OnOk result
        (IsWithin (taken_bytes_cost (kind_in file.entry.kind) pinned.old.now.state
        file.entry.bytes.now) steps.old steps.new) }
    ensures same { OnErr result (ShowsSame pinned.old pinned.new) }
{
    match take_file(pinned, file, steps) {
        Ok(taken) => Ok(applied_reply(number, taken.records, taken.classes)),
        Err(cause) => match file_refusal(cause, pinned.now().schema()) {
            Some(words) => Ok(refused(number, words)),
            None => Err(AllocError),
        },
    }
}

// The file that a line names, and what for.
#[derive(Drop)]
struct FileLine {
    kind: FileUse,
    name: Text,
}

// Takes the file of a name.
fn answer_file<F: Files, L: Ledger>(
    alloc: Global,
    files: &mut F,
    pinned: &mut Pinned,
    number: u32,
    line: FileLine,
    steps: &mut Steps<L>,
) -> Result<Reply, LineStop>
    ensures stay { FilesStay (F.faults files.old) (F.faults files.new) (F.told files.old)
        (F.told files.new) (F.steady files.old) (F.steady files.new) }
    ensures same { OnErr result (ShowsSame pinned.old pinned.new) }
    ensures fault { IfErr result (λ stop. MatchLineStop stop ⊤ (λ file. (file ≡ line.name)
        × Rose (F.faults files.old) (F.faults files.new))) }
    ensures untold { IfErr result (λ stop. MatchLineStop stop ⊤ (λ file. IsTrue (F.steady files.old)
        → IfSome (F.told files.old) (λ t. t file ≡ None))) }
    ensures answered { IfOk result (λ reply. IfSome (F.told files.old)
        (λ t. option_map (λ bytes. with_pins (pinned_state_in pinned.old)
        (answer_by_use line.kind pinned.old.now.state
        (file_answer pinned.old.now.state number (kind_in line.kind) bytes))) (t line.name)
        ≡ Some (record { state = pinned_state_in pinned.new; reply = reply_bytes reply }))) }
    ensures tried { line.kind ≡ FileUse.Try → pinned.new ≡ pinned.old }
    ensures numbers { IfSome (F.told files.old) (λ t. IfSome (t line.name)
        (λ bytes. line.kind ≡ FileUse.Apply → LeavesNumbers pinned.old.now bytes pinned.new.now)) }
    ensures apart { IfSome (F.told files.old)
        (λ t. IfSome (t line.name) (λ bytes. line.kind ≡ FileUse.Apply
        → LeavesOtherRecords pinned.old.now bytes pinned.new.now)) }
    ensures steps { OnOk result (IfSome (F.told files.old)
        (λ t. IfSome (t line.name) (λ bytes. IsWithin
        (bytes_cost (kind_in line.kind) pinned.old.now.state bytes) steps.old steps.new))) }
{
    let FileLine { kind, name } = line;
    match read_all(alloc, files, name.as_str(), MAX_FILE) {
        Ok(bytes) => {
            let file = FileRead {
                kind,
                bytes: &bytes,
            };
            match file_reply(pinned, number, file, steps) {
                Ok(reply) => Ok(Reply::Short(reply)),
                Err(_) => Err(LineStop::Memory),
            }
        }
        Err(ReadRefused::TooLong) => Ok(Reply::Short(refused(number, size_refusal()))),
        Err(ReadRefused::Failed) => Err(LineStop::Fault(name)),
        Err(ReadRefused::Memory) => Err(LineStop::Memory),
    }
}

// Carries out a command that names no file, and makes its reply.
fn answer_without_file<L: Ledger>(
    alloc: Global,
    pinned: &mut Pinned,
    number: u32,
    command: &Command,
    steps: &mut Steps<L>,
) -> Result<Reply, Memory>
    requires question { IsQuestion pinned.old.now.state.schema (question_in command.now) }
    requires unnamed { file_named (Ok (question_in command.now)) ≡ None }
    ensures same { OnErr result (pinned.new ≡ pinned.old) }
    ensures memory { OnErr result (wants_memory (question_in command.now) ≡ true) }
    ensures answered { IfOk result (λ reply. (t : FileContents)
        → answer_to (pinned_state_in pinned.old) t number (Ok (question_in command.now))
        ≡ Some (record { state = pinned_state_in pinned.new; reply = reply_bytes reply })) }
    ensures steps { OnOk result ((t : FileContents)
        → IsWithin (question_cost (pinned_state_in pinned.old) t (Ok (question_in command.now)))
        steps.old steps.new) }
{
    match command {
        Command::Widen(name, value) => answer_widen(pinned, number, name, value, steps),
        Command::Pin(name) => Ok(Reply::Short(answer_pin(pinned, number, name))),
        Command::Unpin(name) => Ok(Reply::Short(answer_unpin(pinned, number, name))),
        Command::At(name, query) => answer_at(alloc, pinned, number, name, query, steps),
        Command::Ask(query) => answer_present(alloc, pinned.now(), number, query, steps),
        Command::Load(_) | Command::Apply(_) | Command::Try(_) => unreachable!(),
    }
}

// Carries out a command, and makes its reply.
fn answer_command<F: Files, L: Ledger>(
    alloc: Global,
    files: &mut F,
    pinned: &mut Pinned,
    number: u32,
    command: Command,
    steps: &mut Steps<L>,
) -> Result<Reply, LineStop>
    requires { IsQuestion pinned.old.now.state.schema (question_in command) }
    ensures stay { FilesStay (F.faults files.old) (F.faults files.new) (F.told files.old)
        (F.told files.new) (F.steady files.old) (F.steady files.new) }
    ensures same { OnErr result (ShowsSame pinned.old pinned.new) }
    ensures memory { IfErr result
        (λ stop. MatchLineStop stop (wants_memory (question_in command) ≡ true) (λ file. ⊤)) }
    ensures fault { IfErr result (λ stop. MatchLineStop stop ⊤
        (λ file. (file_named (Ok (question_in command)) ≡ Some file)
        × Rose (F.faults files.old) (F.faults files.new))) }
    ensures untold { IfErr result (λ stop. MatchLineStop stop ⊤ (λ file. IsTrue (F.steady files.old)
        → IfSome (F.told files.old) (λ t. t file ≡ None))) }
    ensures answered { IfOk result (λ reply. IfSome (F.told files.old)
        (λ t. answer_to (pinned_state_in pinned.old) t number (Ok (question_in command))
        ≡ Some (record { state = pinned_state_in pinned.new; reply = reply_bytes reply }))) }
    ensures steps { OnOk result (IfSome (F.told files.old)
        (λ t. IsWithin (question_cost (pinned_state_in pinned.old) t (Ok (question_in command)))
        steps.old steps.new)) }
{
    match command {
        Command::Load(name) => {
            let line = FileLine { kind: Load, name };
            answer_file(alloc, files, pinned, number, line, steps)
        }
        Command::Apply(name) => {
            let line = FileLine { kind: Apply, name };
            answer_file(alloc, files, pinned, number, line, steps)
        }
        Command::Try(name) => {
            let line = FileLine { kind: Try, name };
            answer_file(alloc, files, pinned, number, line, steps)
        }
        other => {
            let reply = answer_without_file(alloc, pinned, number, &other, steps);
            drop(other);
            match reply {
                Ok(reply) => Ok(reply),
                Err(_) => Err(LineStop::Memory),
            }
        }
    }
}

/// Carries out a line that isn't ignored, and makes its reply.
pub fn answer_line<F: Files, L: Ledger>(
    alloc: Global,
    files: &mut F,
    pinned: &mut Pinned,
    number: u32,
    line: &[u8],
    steps: &mut Steps<L>,
) -> Result<Reply, LineStop>
    requires { length line.now ≤ MAX_FILE }
    ensures stay { FilesStay (F.faults files.old) (F.faults files.new) (F.told files.old)
        (F.told files.new) (F.steady files.old) (F.steady files.new) }
    ensures same { OnErr result (ShowsSame pinned.old pinned.new) }
    ensures skips { IfErr result (λ stop. MatchLineStop stop (may_want_memory line.now ≡ true)
        (λ file. file_of pinned.old.now.state.schema line.now ≡ Some file)) }
    ensures fault { IfErr result
        (λ stop. MatchLineStop stop ⊤ (λ file. Rose (F.faults files.old) (F.faults files.new))) }
    ensures untold { IfErr result (λ stop. MatchLineStop stop ⊤ (λ file. IsTrue (F.steady files.old)
        → IfSome (F.told files.old) (λ t. t file ≡ None))) }
    ensures answered { IfOk result (λ reply. IfSome (F.told files.old)
        (λ t. answer (pinned_state_in pinned.old) t number line.now
        ≡ Some (record { state = pinned_state_in pinned.new; reply = reply_bytes reply }))) }
    ensures steps { OnOk result (IfSome (F.told files.old)
        (λ t. IsWithin (line_cost (pinned_state_in pinned.old) t line.now) steps.old steps.new)) }
{
    match read_line(alloc, pinned.now().schema(), line) {
        Ok(command) => answer_command(alloc, files, pinned, number, command, steps),
        Err(cause) => match line_refusal(cause) {
            Some(words) => Ok(Reply::Short(refused(number, words))),
            None => Err(LineStop::Memory),
        },
    }
}
