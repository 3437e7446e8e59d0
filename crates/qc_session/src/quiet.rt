// A script without replies.
ghost use Rattle.std.specs.Prelude.{IsTrue, map};
ghost use Rattle.qc_io.specs.Outside.{Rose};
ghost use Rattle.qc_session.specs.Lines.{lines_of, without_cr};

use crate::session::{Session, Stop, take_lines};
use cell_core::{Steps, Text};
use qc_io::{Files, SureSink};
use std::alloc::Global;
use std::sync::ledger::Ledger;

/// Why a script without replies didn't end.
#[derive(Drop)]
pub enum SilentStop {
    /// The file of this name couldn't be read.
    Read(Text),
    /// A line ran out of memory.
    Memory,
}

ghost use Rattle.qc_session.specs.Quiet.{QuietEnds};
ghost use Rattle.qc_session.specs.Session.{IsReady};

/// Carries out the lines of a script in order, without their replies.
pub fn run_silently<F: Files, L: Ledger>(
    alloc: Global,
    files: &mut F,
    session: &mut Session,
    script: &[u8],
    steps: &mut Steps<L>,
) -> Result<(), SilentStop>
    requires { IsReady session.old script.now }
    ensures { QuietEnds (F.told files.old) (IsTrue (F.steady files.old))
        (Rose (F.faults files.old) (F.faults files.new)) (map without_cr (lines_of script.now))
        session.old session.new result }
{
    let mut out = SureSink::new();
    match take_lines(alloc, files, &mut out, session, script, steps) {
        Ok(()) => {
            if session.skipped.is_empty() {
                Ok(())
            } else {
                Err(SilentStop::Memory)
            }
        }
        Err(Stop::Read(name)) => {
            if session.skipped.is_empty() {
                Err(SilentStop::Read(name))
            } else {
                Err(SilentStop::Memory)
            }
        }
        Err(Stop::Write) => unreachable!(),
    }
}
