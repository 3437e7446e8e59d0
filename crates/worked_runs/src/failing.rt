// A worked script with each call of its files refused in turn, and each write: files and sinks move
// one byte a call.
use crate::runs::{Ran, run_over, run_words, sink, words_of};
use cell_core::HashKeys;
use qc_io::{MemoryFiles, SureFiles, SureSink};
use std::alloc::Global;

// A file in the order in which the run reads it, and what out and err take where its reading fails.
struct Read {
    name: &'static str,
    bytes: &'static [u8],
    out: &'static [u8],
    err: &'static [u8],
}

static READS: [Read; 4] = [
    Read {
        name: "schema",
        bytes: b"qcube 1\nid id\ndim store\ndim product\ndim season\nmeasure sale 0\n",
        out: b"",
        err: b"qcube: cannot read schema\n",
    },
    Read {
        name: "script",
        bytes: b"load base.csv\napply plus4.csv\nstats\npoint *,P2,*\npoint S2,*,*\n",
        out: b"",
        err: b"qcube: cannot read script\n",
    },
    Read {
        name: "base.csv",
        bytes: b"id,store,product,season,sale\n1,S1,P1,s,6\n2,S1,P2,s,12\n3,S2,P1,f,9\n",
        out: b"",
        err: b"qcube: cannot read base.csv\n",
    },
    Read {
        name: "plus4.csv",
        bytes: b"op,id,store,product,season,sale\n+,4,S2,P2,f,3\n",
        out: b"applied,1,3,6\n",
        err: b"qcube: cannot read plus4.csv\n",
    },
];

static TRANSCRIPT: &[u8] =
    b"applied,1,3,6\napplied,2,1,9\nstats,3,4,9,15,14,6\npoint,4,*,P2,*,2,15,3,12,15/2\npoint,5,S2,*,*,2,12,3,9,6/1\n";

const RUN: [&str; 3] = ["run", "schema", "script"];

// More calls than the run makes: one that isn't made can't fail.
const CALLS: u64 = 300;

// These files, of whose calls those that are listed fail.
fn files_of(alloc: Global, calls: &[u64], reads: &[Read]) -> Option<MemoryFiles> {
    let Ok(mut files) = MemoryFiles::new(alloc, calls, 1) else {
        return None;
    };
    'reads: for read in reads {
        let Ok(()) = files.add(read.name, read.bytes) else {
            drop(files);
            return None;
        };
    }
    Some(files)
}

// Runs over these files, where these writes to out and these to err fail.
fn run_into(
    alloc: Global,
    words: &[String],
    files: &mut MemoryFiles,
    out: &[u64],
    err: &[u64],
) -> Option<Ran> {
    let out = sink(alloc, out, 1, 1000)?;
    let Some(err) = sink(alloc, err, 1, 1000) else {
        drop(out);
        return None;
    };
    Some(run_over(alloc, HashKeys::fixed(), words, files, out, err))
}

// The same, where these calls of the files fail.
fn run_with(
    alloc: Global,
    words: &[String],
    calls: &[u64],
    out: &[u64],
    err: &[u64],
) -> Option<Ran> {
    let mut files = files_of(alloc, calls, &READS)?;
    let ran = run_into(alloc, words, &mut files, out, err);
    drop(files);
    ran
}

// The same with these words.
fn run_failing(
    alloc: Global,
    words: &[&str],
    calls: &[u64],
    out: &[u64],
    err: &[u64],
) -> Option<Ran> {
    let words = words_of(alloc, words)?;
    let ran = run_with(alloc, &words, calls, out, err);
    drop(words);
    ran
}

// Whether a run ended with this status, and out and err took these bytes.
fn ended(ran: Option<Ran>, status: u8, out: &[u8], err: &[u8]) -> bool {
    let Some(ran) = ran else {
        return false;
    };
    let is_right = ran.ended_with(status, out, err);
    drop(ran);
    is_right
}

// The file that is read at a call: it is opened, each of its bytes is read, and then its end.
fn read_at(reads: &'static [Read], call: u64) -> Option<&'static Read> {
    let mut behind = 0u64;
    'reads: for read in reads {
        behind = behind.wrapping_add(read.bytes.len() as u64).wrapping_add(2);
        if call < behind {
            return Some(read);
        }
    }
    None
}

// Whether the run ends at the file whose call fails, and else with its transcript.
fn stops_at_call(alloc: Global, call: u64) -> bool {
    let ran = run_failing(alloc, &RUN, &[call], &[], &[]);
    match read_at(&READS, call) {
        Some(read) => ended(ran, 3, read.out, read.err),
        None => ended(ran, 0, TRANSCRIPT, b""),
    }
}

/// Whether the run stops at each call of the files that fails.
pub fn stops_at_each_call(alloc: Global) -> bool {
    'calls: for call in 0..CALLS {
        if !stops_at_call(alloc, call) {
            return false;
        }
    }
    true
}

// Whether the run ends after as many bytes of its transcript as are written before the write that
// fails.
fn stops_at_write(alloc: Global, transcript: &[u8], write: usize) -> bool {
    let ran = run_failing(alloc, &RUN, &[], &[write as u64], &[]);
    if write < transcript.len() {
        ended(ran, 4, &transcript[..write], b"qcube: cannot write\n")
    } else {
        ended(ran, 0, transcript, b"")
    }
}

/// Whether the run stops at each write to out that fails.
pub fn stops_at_each_write(alloc: Global) -> bool {
    'writes: for write in 0..=TRANSCRIPT.len() {
        if !stops_at_write(alloc, TRANSCRIPT, write) {
            return false;
        }
    }
    true
}

/// Whether no words end with their status, where the first write to err fails.
pub fn stops_without_a_message(alloc: Global) -> bool {
    ended(run_failing(alloc, &[], &[], &[], &[0]), 2, b"", b"")
}

fn sure_files(alloc: Global, reads: &[Read]) -> Option<SureFiles> {
    let Ok(mut files) = SureFiles::new(alloc, 4096) else {
        return None;
    };
    'reads: for read in reads {
        let Ok(()) = files.add(read.name, read.bytes) else {
            drop(files);
            return None;
        };
    }
    Some(files)
}

// Whether a run of these words ends over files that never fail and a sink that takes all.
fn ends_surely(alloc: Global, words: &[String]) -> bool {
    let Some(mut files) = sure_files(alloc, &READS) else {
        return false;
    };
    let (mut out, mut err) = (SureSink::new(), SureSink::new());
    let ended = run_words(
        alloc,
        HashKeys::fixed(),
        words,
        &mut files,
        &mut out,
        &mut err,
    );
    drop(files);
    ended.status == 0 && ended.skipped == 0
}

/// Whether the run ends so.
pub fn never_fails(alloc: Global) -> bool {
    let Some(words) = words_of(alloc, &RUN) else {
        return false;
    };
    let ends_surely = ends_surely(alloc, &words);
    drop(words);
    ends_surely
}
