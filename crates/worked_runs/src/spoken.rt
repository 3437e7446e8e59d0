// What the runs of all folders write: which refusals and which messages are among it.

use std::alloc::{AllocError, Global};
use std::{fs, io, str};

fn push_lines(alloc: Global, lines: &mut Vec<String>, text: &str) -> Result<(), AllocError> {
    for line in text.lines() {
        lines.push(String::from_str(alloc, line)?)?;
    }
    Ok(())
}

/// The lines of a file.
pub fn read_lines(rt: &HostRuntime, path: &str) -> io::Result<Vec<String>> {
    let text = fs::read_to_string(rt, path)?;
    let mut lines = Vec::new(rt.alloc());
    let are_pushed = push_lines(rt.alloc(), &mut lines, text.as_str());
    drop(text);
    if let Err(error) = are_pushed {
        drop(lines);
        return Err(error.into());
    }
    Ok(lines)
}

// Whether the record `refused,LINE,WORD` or one with more after it has this word.
fn is_refused_with(record: &str, word: &str) -> bool {
    let mut fields = record.split(',');
    if fields.next() != Some("refused") {
        return false;
    }
    fields.next();
    fields.next() == Some(word)
}

/// The replies and the messages of all folders.
#[derive(Drop)]
pub struct Spoken {
    replies: String,
    messages: String,
}

// Appends bytes to a text, where they are one.
fn push_text(text: &mut String, bytes: &[u8]) -> Result<(), AllocError> {
    match str::from_utf8(bytes) {
        Ok(more) => text.push_str(more),
        Err(_) => Ok(()),
    }
}

impl Spoken {
    pub fn new(alloc: Global) -> Spoken {
        Spoken {
            replies: String::new(alloc),
            messages: String::new(alloc),
        }
    }

    /// Adds what a run writes.
    pub fn push(&mut self, out: &[u8], err: &[u8]) -> Result<(), AllocError> {
        push_text(&mut self.replies, out)?;
        push_text(&mut self.messages, err)
    }

    /// Whether a line is refused with this word.
    pub fn has_refusal(&self, word: &str) -> bool {
        self.replies
            .as_str()
            .lines()
            .any(|record| is_refused_with(record, word))
    }

    /// Whether a message ends so.
    pub fn has_message(&self, end: &str) -> bool {
        self.messages
            .as_str()
            .lines()
            .any(|line| line.ends_with(end))
    }
}
