// Runs, and how they ended.

use cell_core::HashKeys;
use qc_io::{Files, MemorySink, Sink};
use qc_session::run_with_keys;
use std::alloc::{AllocError, Global};

/// How a run ended: its status, how many lines were skipped, and whether it left a warehouse.
#[derive(Clone, Copy)]
pub struct Ended {
    pub status: u8,
    pub skipped: usize,
    pub has_end: bool,
}

fn push_words(alloc: Global, words: &mut Vec<String>, texts: &[&str]) -> Result<(), AllocError> {
    'texts: for text in texts {
        words.push(String::from_str(alloc, text)?)?;
    }
    Ok(())
}

/// The words of a run over the files of these names.
pub fn words_of(alloc: Global, texts: &[&str]) -> Option<Vec<String>> {
    let mut words = Vec::new(alloc);
    if push_words(alloc, &mut words, texts).is_ok() {
        return Some(words);
    }
    drop(words);
    None
}

/// Runs under these hash keys, with these words, over these files and sinks.
pub fn run_words<F: Files, O: Sink, E: Sink>(
    alloc: Global,
    keys: HashKeys,
    words: &[String],
    files: &mut F,
    out: &mut O,
    err: &mut E,
) -> Ended {
    let outcome = run_with_keys(alloc, keys, words, files, out, err);
    let ended = Ended {
        status: outcome.status,
        skipped: outcome.skipped.len(),
        has_end: outcome.end.is_some(),
    };
    outcome.discard();
    ended
}

/// A sink that takes at most so many bytes a write, and whose writes that are listed fail.
pub fn sink(alloc: Global, fails: &[u64], piece: usize, room: usize) -> Option<MemorySink> {
    match MemorySink::new(alloc, fails, piece.max(1), room) {
        Ok(sink) => Some(sink),
        Err(_) => None,
    }
}

/// How a run ended, with what out and err took.
#[derive(Drop)]
pub struct Ran {
    pub ended: Ended,
    pub out: MemorySink,
    pub err: MemorySink,
}

impl Ran {
    /// Whether it ended with this status, out and err took these bytes, and no line was skipped. A
    /// warehouse is left at status
    /// 0 alone.
    pub fn ended_with(&self, status: u8, out: &[u8], err: &[u8]) -> bool {
        self.ended.status == status
            && self.out.bytes() == out
            && self.err.bytes() == err
            && self.ended.skipped == 0
            && self.ended.has_end == (status == 0)
    }
}

/// Runs under these hash keys, with these words, over these files and sinks.
pub fn run_over<F: Files>(
    alloc: Global,
    keys: HashKeys,
    words: &[String],
    files: &mut F,
    mut out: MemorySink,
    mut err: MemorySink,
) -> Ran {
    let ended = run_words(alloc, keys, words, files, &mut out, &mut err);
    Ran { ended, out, err }
}
