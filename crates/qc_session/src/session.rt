// The lines of a script, in order.
ghost use Rattle.std.specs.Prelude.{◌≡◌, ◌≤◌, ◌+◌, ◌++◌, ◌∷◌, [], IfOk, IfSome, IsTrue, OnOk, false, length, map, vec_capacity};
ghost use Rattle.qc_io.specs.Outside.{Rose};
ghost use Rattle.reply_text.specs.Replies.{memory_text};
ghost use Rattle.qc_session.specs.Costs.{IsWithin, item_cost, script_cost};
ghost use Rattle.qc_session.specs.Lines.{is_passed, lines_of, without_cr};
ghost use Rattle.qc_session.specs.Reading.{FilesStay};

use crate::answer::{LineStop, answer_line};
use crate::lines::{is_ignored, names_file};
use crate::pending::Pending;
use cell_core::{Steps, Text};
use cube_defs::{MAX_FILE, Memory};
use pinned_view::Pinned;
use qc_io::{Files, Sink};
use query_answers::answer_plain_cell;
use reply_text::memory_reply;
use std::alloc::Global;
use std::sync::ledger::Ledger;
use text_lines::{split_line, trim_cr};
use warehouse::Warehouse;

/// Why a script ended before its last line.
#[derive(Drop)]
pub enum Stop {
    /// The file of this name couldn't be read.
    Read(Text),
    /// A reply couldn't be written.
    Write,
}

/// The state of a run after some lines of its script.
#[derive(Drop)]
pub struct Session {
    /// How many lines were taken.
    pub number: u32,
    pub pinned: Pinned,
    pub skipped: Vec<u32>,
    pub pending: Pending,
    /// The reply to a point or to `bounds`, in a buffer that the next one uses again.
    pub reply: Vec<u8>,
}

impl Session {
    /// Drops the session.
    pub fn discard(self) {
        self.pinned.discard();
    }
}

ghost use Rattle.qc_session.specs.Pins.{pinned_state_in};
ghost use Rattle.qc_session.specs.Session.{CanTake, HasRoom, IsReady, LineEnds, LinesEnd, Puts};
ghost use Rattle.qc_session.specs.Transcript.{item};

// Gathers a reply, and flushes all if it is not to wait.
fn put_reply<O: Sink>(
    pending: &mut Pending,
    out: &mut O,
    reply: &[u8],
    at_once: bool,
) -> Result<(), Stop>
    ensures later { O.faults out.old ≤ O.faults out.new }
    ensures puts { Puts (Rose (O.faults out.old) (O.faults out.new))
        (pending.old ++ reply.now) pending.new (O.taken out.old) (O.taken out.new) result }
{
    match pending.put(out, reply, at_once) {
        Ok(()) => Ok(()),
        Err(_) => Err(Stop::Write),
    }
}

// Skips a line that ran out of memory, and gathers its reply.
fn skip_line<O: Sink>(session: &mut Session, out: &mut O, at_once: bool) -> Result<(), Stop>
    requires { HasRoom session.old }
    ensures later { O.faults out.old ≤ O.faults out.new }
    ensures kept { (session.new.number ≡ session.old.number)
        × (session.new.pinned ≡ session.old.pinned)
        × (vec_capacity session.old.skipped ≤ vec_capacity session.new.skipped) }
    ensures skipped { session.new.skipped.items
        ≡ session.old.skipped.items ++ (session.old.number + 1) ∷ [] }
    ensures puts { Puts (Rose (O.faults out.old) (O.faults out.new))
        (session.old.pending ++ memory_text (session.old.number + 1)) session.new.pending
        (O.taken out.old) (O.taken out.new) result }
{
    let number = session.number + 1;
    session.skipped.push(number).unwrap();
    let reply = memory_reply(number);
    put_reply(&mut session.pending, out, reply.as_bytes(), at_once)
}

// Carries out a line that isn't ignored, and gathers its reply. Before and after a line that names
// a file all replies are flushed, and at a stop none is left.
fn carry_out<F: Files, O: Sink, L: Ledger>(
    alloc: Global,
    files: &mut F,
    out: &mut O,
    session: &mut Session,
    line: &[u8],
    steps: &mut Steps<L>,
) -> Result<(), Stop>
    requires next { CanTake session.old line.now }
    requires taken { is_passed line.now ≡ false }
    ensures stay { FilesStay (F.faults files.old) (F.faults files.new) (F.told files.old)
        (F.told files.new) (F.steady files.old) (F.steady files.new) }
    ensures later { O.faults out.old ≤ O.faults out.new }
    ensures ends { LineEnds (F.told files.old) (IsTrue (F.steady files.old))
        (Rose (F.faults files.old) (F.faults files.new))
        (Rose (O.faults out.old) (O.faults out.new))
        line.now session.old session.new (O.taken out.old) (O.taken out.new) result }
    ensures steps { OnOk result (IfSome (F.told files.old)
        (λ t. IsWithin (item_cost (pinned_state_in session.old.pinned) t
        (item session.new.skipped.items (session.old.number + 1) line.now)) steps.old steps.new)) }
{
    let number = session.number + 1;
    let alone = names_file(line);
    let Ok(()) = session.pending.flush_if(out, alone) else {
        return Err(Stop::Write);
    };
    match answer_line(alloc, files, &mut session.pinned, number, line, steps) {
        Ok(reply) => put_reply(&mut session.pending, out, reply.as_bytes(), alone),
        Err(LineStop::Memory) => skip_line(session, out, alone),
        Err(LineStop::Fault(name)) => match session.pending.flush(out) {
            Ok(()) => Err(Stop::Read(name)),
            Err(_) => Err(Stop::Write),
        },
    }
}

// Takes one line, and gathers its reply.
fn take_line<F: Files, O: Sink, L: Ledger>(
    alloc: Global,
    files: &mut F,
    out: &mut O,
    session: &mut Session,
    line: &[u8],
    steps: &mut Steps<L>,
) -> Result<(), Stop>
    requires { CanTake session.old line.now }
    ensures stay { FilesStay (F.faults files.old) (F.faults files.new) (F.told files.old)
        (F.told files.new) (F.steady files.old) (F.steady files.new) }
    ensures later { O.faults out.old ≤ O.faults out.new }
    ensures ends { LineEnds (F.told files.old) (IsTrue (F.steady files.old))
        (Rose (F.faults files.old) (F.faults files.new))
        (Rose (O.faults out.old) (O.faults out.new))
        line.now session.old session.new (O.taken out.old) (O.taken out.new) result }
    ensures steps { OnOk result (IfSome (F.told files.old)
        (λ t. IsWithin (item_cost (pinned_state_in session.old.pinned) t
        (item session.new.skipped.items (session.old.number + 1) line.now)) steps.old steps.new)) }
{
    if is_ignored(line) {
        return Ok(());
    }
    let number = session.number + 1;
    match answer_plain_cell(
        alloc,
        session.pinned.now(),
        number,
        line,
        &mut session.reply,
        steps,
    ) {
        None => carry_out(alloc, files, out, session, line, steps),
        Some(Ok(())) => put_reply(&mut session.pending, out, &session.reply, false),
        Some(Err(_)) => skip_line(session, out, false),
    }
}

// The number of lines of a text.
fn count_lines(text: &[u8]) -> usize
    ensures count { result ≡ length (lines_of text.now) }
    ensures bound { result ≤ length text.now }
{
    let mut rest = text;
    let mut count = 0;
    'lines: while !rest.is_empty() {
        let (_, behind) = split_line(rest);
        rest = behind;
        count += 1;
    }
    count
}

// The memory for the number of each line, and for the replies.
fn reserve_buffers(alloc: Global, script: &[u8]) -> Result<(Vec<u32>, Pending), Memory>
    ensures fresh { IfOk result (λ made. (made.0.items ≡ []) × (made.1 ≡ [])) }
    ensures room { IfOk result (λ made. length (lines_of script.now) ≤ vec_capacity made.0) }
    ensures few { length (lines_of script.now) ≤ length script.now }
{
    let skipped = Vec::with_capacity(alloc, count_lines(script))?;
    let pending = Pending::new(alloc)?;
    Ok((skipped, pending))
}

/// A session before the first line of a script, with the memory for the number of each line. It is
/// ready for a script that is no longer than a file may be.
pub fn begin(alloc: Global, warehouse: Warehouse, script: &[u8]) -> Result<Session, Memory>
    ensures state { IfOk result (λ session. session.pinned.now.state ≡ warehouse.state) }
    ensures ready { IfOk result
        (λ session. length script.now ≤ MAX_FILE → IsReady session script.now) }
{
    match reserve_buffers(alloc, script) {
        Ok((skipped, pending)) => {
            let pinned = Pinned::new(alloc, warehouse)?;
            Ok(Session {
                number: 0,
                pinned,
                skipped,
                pending,
                reply: Vec::new(alloc),
            })
        }
        Err(refused) => {
            warehouse.discard();
            Err(refused)
        }
    }
}

/// Carries out the lines of a script in order, and flushes all their replies.
pub fn take_lines<F: Files, O: Sink, L: Ledger>(
    alloc: Global,
    files: &mut F,
    out: &mut O,
    session: &mut Session,
    script: &[u8],
    steps: &mut Steps<L>,
) -> Result<(), Stop>
    requires { IsReady session.old script.now }
    ensures ends { LinesEnd (F.told files.old) (IsTrue (F.steady files.old))
        (Rose (F.faults files.old) (F.faults files.new))
        (Rose (O.faults out.old) (O.faults out.new))
        (map without_cr (lines_of script.now)) session.old session.new (O.taken out.old)
        (O.taken out.new) result }
    ensures steps { OnOk result (IfSome (F.told files.old)
        (λ t. IsWithin (script_cost t session.old.pinned.now.state session.new.skipped.items
        (map without_cr (lines_of script.now))) steps.old steps.new)) }
{
    let mut rest = script;
    'lines: while !rest.is_empty() {
        let (line, behind) = split_line(rest);
        match take_line(alloc, files, out, session, trim_cr(line), steps) {
            Ok(()) => {
                session.number += 1;
                rest = behind;
            }
            Err(stop) => return Err(stop),
        }
    }
    match session.pending.flush(out) {
        Ok(()) => Ok(()),
        Err(_) => Err(Stop::Write),
    }
}
