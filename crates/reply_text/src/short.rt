// Replies that take no memory.
ghost use Rattle.std.specs.Prelude.{[], decimal, length, ◌+◌, ◌++◌, ◌<◌, ◌∷◌, ◌≡◌, ◌≤◌};
ghost use Rattle.reply_text.specs.Replies.{applied_text, fields_text, memory_text, none_text, pinned_text, refused_text, stats_text, unpinned_text, widened_text};

use crate::refusals::{Detail, RefusalReport};
use arrayvec::ArrayString;
use itoa::Buffer;
use std::marker::Model;
use warehouse::Stats;

/// A reply to a line.
#[derive(Drop)]
pub enum Reply {
    Short(ShortReply),
    Long(Vec<u8>),
}

const ROOM: usize = 96;

/// A reply in a fixed buffer, seen as its bytes.
#[derive(Drop)]
pub struct ShortReply {
    text: ArrayString<ROOM>,
}

impl Model for ShortReply {
    ghost use Rattle.std.specs.Prelude.{ℕ, List};

    ghost Value = { List ℕ };

    ghost view = { λ r. r.text.bytes };
}

impl ShortReply {
    /// The reply's bytes.
    pub fn as_bytes(&self) -> &[u8]
        ensures { result.now ≡ self.now }
    {
        self.text.as_str().as_bytes()
    }
}

ghost use Rattle.reply_text.specs.Words.{IsShort, IsShortDetail, detail_texts, reply_bytes, texts_of};

impl Reply {
    /// The reply's bytes.
    pub fn as_bytes(&self) -> &[u8]
        ensures { result.now ≡ reply_bytes self.now }
    {
        match self {
            Reply::Short(reply) => reply.as_bytes(),
            Reply::Long(bytes) => bytes.as_slice(),
        }
    }
}

// The word and the line's number, with room for so many bytes after them.
pub(crate) fn begun(word: &str, line: u32) -> ShortReply
    requires { length word.now ≤ 8 }
    ensures text { result ≡ word.now ++ 44 ∷ decimal line }
    ensures short { length result ≤ 19 }
{
    let mut text = ArrayString::new();
    text.push_str(word);
    text.push_str(",");
    text.push_str(Buffer::new().format(line));
    ShortReply { text }
}

impl ShortReply {
    // Appends a field.
    fn field(&mut self, field: &str)
        requires { length self.old + length field.now < 95 }
        ensures text { self.new ≡ self.old ++ 44 ∷ field.now }
    {
        self.text.push_str(",");
        self.text.push_str(field);
    }

    // A number more.
    fn number(&mut self, number: u32)
        requires { length self.old < 85 }
        ensures text { self.new ≡ self.old ++ 44 ∷ decimal number }
        ensures long { length self.new ≤ length self.old + 11 }
    {
        self.field(Buffer::new().format(number));
    }

    // A number of edges more.
    fn edges(&mut self, edges: u64)
        requires { length self.old < 75 }
        ensures text { self.new ≡ self.old ++ 44 ∷ decimal edges }
        ensures long { length self.new ≤ length self.old + 21 }
    {
        self.field(Buffer::new().format(edges));
    }

    // Appends what follows the code of a refusal.
    fn detail(&mut self, detail: Detail<'_>)
        requires short { IsShortDetail detail }
        requires room { length self.old < 63 }
        ensures text { self.new ≡ self.old ++ fields_text (detail_texts detail.entry) }
        ensures long { length self.new ≤ length self.old + 33 }
    {
        match detail {
            Detail::Nothing => {}
            Detail::Number(k) => self.number(k),
            Detail::Name(name) => self.field(name),
        }
    }

    // Ends the record.
    fn ended(mut self) -> ShortReply
        requires { length self < 96 }
        ensures { result ≡ self ++ 10 ∷ [] }
    {
        self.text.push_str("\n");
        self
    }
}

/// The reply to a line that ran out of memory and changed nothing.
pub fn memory_reply(line: u32) -> ShortReply
    ensures { result ≡ memory_text line }
{
    begun("memory", line).ended()
}

/// The reply to a query of a cell that covers no row.
pub fn none_reply(line: u32) -> ShortReply
    ensures { result ≡ none_text line }
{
    begun("none", line).ended()
}

/// The reply to a file that was applied: its number of records, and the number of classes after it.
pub fn applied_reply(line: u32, records: u32, classes: u32) -> ShortReply
    ensures { result ≡ applied_text line records classes }
{
    let mut reply = begun("applied", line);
    reply.number(records);
    reply.number(classes);
    reply.ended()
}

/// The reply to `widen`: the numbers of dimensions and classes after it.
pub fn widened_reply(line: u32, dims: u8, classes: u32) -> ShortReply
    ensures { result ≡ widened_text line dims classes }
{
    let mut reply = begun("widened", line);
    reply.number(u32::from(dims));
    reply.number(classes);
    reply.ended()
}

/// The reply to `pin`: the name, and the number of classes of the rows that it pins.
pub fn pinned_reply(line: u32, name: &str, classes: u32) -> ShortReply
    requires { length name.now ≤ 32 }
    ensures { result ≡ pinned_text line name.now classes }
{
    let mut reply = begun("pinned", line);
    reply.field(name);
    reply.number(classes);
    reply.ended()
}

/// The reply to `unpin`, with the name that was dropped.
pub fn unpinned_reply(line: u32, name: &str) -> ShortReply
    requires { length name.now ≤ 32 }
    ensures { result ≡ unpinned_text line name.now }
{
    let mut reply = begun("unpinned", line);
    reply.field(name);
    reply.ended()
}

/// The counts of the rows and of their tree.
pub fn stats_reply(line: u32, counts: Stats) -> ShortReply
    ensures { result ≡ stats_text line counts.rows counts.classes counts.nodes counts.tree_edges
        counts.links }
{
    let mut reply = begun("stats", line);
    reply.number(counts.rows);
    reply.number(counts.classes);
    reply.number(counts.nodes);
    reply.edges(counts.tree_edges);
    reply.edges(counts.links);
    reply.ended()
}

/// Makes the reply to a line that was refused and changed nothing: `refused`, the number of the
/// line, the word of the refusal and its detail.
pub fn refused(line: u32, words: RefusalReport<'_>) -> ShortReply
    requires { IsShort words }
    ensures { result ≡ refused_text line (texts_of words.entry) }
{
    let mut reply = begun("refused", line);
    reply.field(words.code);
    reply.detail(words.detail);
    reply.ended()
}
