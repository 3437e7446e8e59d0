// Replies that are gathered until they are flushed.
ghost use Rattle.std.specs.Prelude.{◌≡◌, ◌++◌, [], IfOk, IsTrue, OnErr, OnOk};
ghost use Rattle.qc_io.specs.Outside.{HasCause};
ghost use Rattle.qc_session.specs.Flushed.{IsFlushed, TookPrefix};

use cube_defs::Memory;
use qc_io::{Sink, WriteFailed, write_all};
use std::alloc::Global;
use std::marker::Model;

// The most bytes that are gathered.
const ROOM: usize = 65_536;

/// Replies that are gathered, and not yet flushed. The model is their bytes.
#[derive(Drop)]
pub struct Pending {
    bytes: Vec<u8>,
}

impl Model for Pending {
    ghost use Rattle.std.specs.Prelude.{◌≤◌, ℕ, List, vec_capacity, vec_len};
    ghost use Rattle.qc_session.specs.declared.pending.TheConstants.{ROOM};

    ghost Value = { List ℕ };

    ghost view = { λ p. p.bytes.items };

    ghost invariant = { λ p. (vec_len p.bytes ≤ ROOM) × (ROOM ≤ vec_capacity p.bytes) };
}

impl Pending {
    /// No replies. The memory for all later ones is taken here.
    pub fn new(alloc: Global) -> Result<Self, Memory>
        ensures { IfOk result (λ pending. pending ≡ []) }
    {
        Ok(Pending {
            bytes: Vec::with_capacity(alloc, ROOM)?,
        })
    }

    /// Flushes all replies.
    pub fn flush<O: Sink>(&mut self, out: &mut O) -> Result<(), WriteFailed>
        ensures cause { HasCause (O.faults out.old) (O.faults out.new) result }
        ensures ok { OnOk result (IsFlushed self.old [] (O.taken out.old) (O.taken out.new)) }
        ensures none { OnOk result (self.new ≡ []) }
        ensures err { OnErr result (TookPrefix self.old (O.taken out.old) (O.taken out.new)) }
    {
        write_all(out, &self.bytes)?;
        self.bytes.clear();
        Ok(())
    }

    /// Flushes all replies, each of them once, if that is due.
    pub fn flush_if<O: Sink>(&mut self, out: &mut O, due: bool) -> Result<(), WriteFailed>
        ensures cause { HasCause (O.faults out.old) (O.faults out.new) result }
        ensures ok { OnOk result (IsFlushed self.old self.new (O.taken out.old) (O.taken out.new)) }
        ensures due { IsTrue due → OnOk result (self.new ≡ []) }
        ensures err { OnErr result (TookPrefix self.old (O.taken out.old) (O.taken out.new)) }
    {
        if due { self.flush(out) } else { Ok(()) }
    }

    // Appends a reply. If it has no room, the gathered ones are flushed first.
    fn add<O: Sink>(&mut self, out: &mut O, reply: &[u8]) -> Result<(), WriteFailed>
        ensures cause { HasCause (O.faults out.old) (O.faults out.new) result }
        ensures ok { OnOk result (IsFlushed (self.old ++ reply.now) self.new (O.taken out.old)
            (O.taken out.new)) }
        ensures err { OnErr result
            (TookPrefix (self.old ++ reply.now) (O.taken out.old) (O.taken out.new)) }
    {
        if reply.len() <= ROOM - self.bytes.len() {
            self.bytes.extend_from_slice(reply).unwrap();
            return Ok(());
        }
        self.flush(out)?;
        if reply.len() <= ROOM {
            self.bytes.extend_from_slice(reply).unwrap();
            return Ok(());
        }
        write_all(out, reply)
    }

    /// Appends a reply, and flushes all if it is not to wait.
    pub fn put<O: Sink>(
        &mut self,
        out: &mut O,
        reply: &[u8],
        at_once: bool,
    ) -> Result<(), WriteFailed>
        ensures cause { HasCause (O.faults out.old) (O.faults out.new) result }
        ensures ok { OnOk result (IsFlushed (self.old ++ reply.now) self.new (O.taken out.old)
            (O.taken out.new)) }
        ensures err { OnErr result
            (TookPrefix (self.old ++ reply.now) (O.taken out.old) (O.taken out.new)) }
    {
        self.add(out, reply)?;
        self.flush_if(out, at_once)
    }
}
