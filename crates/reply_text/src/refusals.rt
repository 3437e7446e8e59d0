// The words of a refusal.
ghost use Rattle.std.specs.Prelude.{IfSome, [], length, option_map, ◌<◌, ◌∷◌, ◌≡◌, ◌≤◌};
ghost use Rattle.qc_schema.specs.Schema.{IsLayout};
ghost use Rattle.reply_text.specs.Replies.{all_pinned_texts, batch_texts, line_texts, many_texts, name_taken_texts, not_pinned_texts, numbered, pinned_texts, size_texts, widen_texts};
ghost use Rattle.warehouse.specs.Stored.{refusal_in};
ghost use Rattle.warehouse.specs.Widening.{widen_refusal_in};

use qc_schema::Schema;
use query_script::LineRefused;
use warehouse::{Refused, WidenRefused};

/// What follows the word of a refusal: nothing, a number or a name.
#[derive(Clone, Copy)]
pub enum Detail<'a> {
    Nothing,
    Number(u32),
    Name(&'a str),
}

/// The word of a refusal, and what follows it.
#[derive(Clone, Copy)]
pub struct RefusalReport<'a> {
    pub(crate) code: &'static str,
    pub(crate) detail: Detail<'a>,
}

ghost use Rattle.reply_text.specs.Words.{IsDimension, IsShort, texts_of};
ghost use Rattle.query_script.specs.Faults.{line_fault_in};

impl<'a> RefusalReport<'a> {
    fn code(code: &'static str) -> RefusalReport<'a>
        requires { length code.now ≤ 14 }
        ensures texts { texts_of result ≡ code.now ∷ [] }
        ensures short { IsShort result }
    {
        RefusalReport {
            code,
            detail: Detail::Nothing,
        }
    }

    fn number(code: &'static str, k: u32) -> RefusalReport<'a>
        requires { length code.now ≤ 14 }
        ensures texts { texts_of result ≡ numbered code.now k }
        ensures short { IsShort result }
    {
        RefusalReport {
            code,
            detail: Detail::Number(k),
        }
    }

    fn name(code: &'static str, name: &'a str) -> RefusalReport<'a>
        requires code { length code.now ≤ 14 }
        requires name { length name.now ≤ 32 }
        ensures texts { texts_of result ≡ code.now ∷ name.now ∷ [] }
        ensures short { IsShort result }
    {
        RefusalReport {
            code,
            detail: Detail::Name(name),
        }
    }
}

/// Why a line is no command. None for 'out of memory'.
pub fn line_refusal(refused: LineRefused) -> Option<RefusalReport<'static>>
    ensures texts { option_map texts_of result ≡ option_map line_texts (line_fault_in refused) }
    ensures short { IfSome result (λ words. IsShort words) }
{
    match refused {
        LineRefused::Utf8 => Some(RefusalReport::code("utf8")),
        LineRefused::Command => Some(RefusalReport::code("command")),
        LineRefused::Field(k) => Some(RefusalReport::number("field", k)),
        LineRefused::Number => Some(RefusalReport::code("number")),
        LineRefused::Memory => None,
    }
}

/// Why a file of changes is refused. None for 'out of memory'.
pub fn file_refusal(refused: Refused, schema: &Schema) -> Option<RefusalReport<'_>>
    requires dim { IsDimension refused (length schema.now.dims) }
    requires layout { IsLayout schema.now }
    ensures texts { option_map texts_of result ≡ option_map (batch_texts schema.now)
        (refusal_in refused) }
    ensures short { IfSome result (λ words. IsShort words) }
{
    match refused {
        Refused::NotEmpty => Some(RefusalReport::code("not-empty")),
        Refused::Header => Some(RefusalReport::code("header")),
        Refused::Fields(k) => Some(RefusalReport::number("fields", k)),
        Refused::Utf8(k) => Some(RefusalReport::number("utf8", k)),
        Refused::Op(k) => Some(RefusalReport::number("op", k)),
        Refused::Id(k) => Some(RefusalReport::number("id", k)),
        Refused::Amount(k) => Some(RefusalReport::number("amount", k)),
        Refused::Value(k) => Some(RefusalReport::number("value", k)),
        Refused::Twice(k) => Some(RefusalReport::number("twice", k)),
        Refused::Missing(k) => Some(RefusalReport::number("missing", k)),
        Refused::Present(k) => Some(RefusalReport::number("present", k)),
        Refused::RowsFull => Some(RefusalReport::code("rows")),
        Refused::ValuesFull(dim) => Some(RefusalReport::name("values", schema.dim_name(dim))),
        Refused::NodesFull => Some(RefusalReport::code("nodes")),
        Refused::Memory => None,
    }
}

/// Why no dimension is added. None for 'out of memory'.
pub fn widen_refusal(refused: WidenRefused) -> Option<RefusalReport<'static>>
    ensures texts { option_map texts_of result ≡ option_map widen_texts (widen_refusal_in refused) }
    ensures short { IfSome result (λ words. IsShort words) }
{
    match refused {
        WidenRefused::DimsFull => Some(RefusalReport::code("dims")),
        WidenRefused::NodesFull => Some(RefusalReport::code("nodes")),
        WidenRefused::Memory => None,
    }
}

/// The name is pinned.
pub fn name_taken_refusal() -> RefusalReport<'static>
    ensures texts { texts_of result ≡ name_taken_texts }
    ensures short { IsShort result }
{
    RefusalReport::code("name-taken")
}

/// The most names are pinned.
pub fn all_pinned_refusal() -> RefusalReport<'static>
    ensures texts { texts_of result ≡ all_pinned_texts }
    ensures short { IsShort result }
{
    RefusalReport::code("all-pinned")
}

/// The name isn't pinned.
pub fn not_pinned_refusal() -> RefusalReport<'static>
    ensures texts { texts_of result ≡ not_pinned_texts }
    ensures short { IsShort result }
{
    RefusalReport::code("not-pinned")
}

/// A name is pinned, so no dimension is added.
pub fn pinned_refusal() -> RefusalReport<'static>
    ensures texts { texts_of result ≡ pinned_texts }
    ensures short { IsShort result }
{
    RefusalReport::code("pinned")
}

/// The file has too many bytes.
pub fn size_refusal() -> RefusalReport<'static>
    ensures texts { texts_of result ≡ size_texts }
    ensures short { IsShort result }
{
    RefusalReport::code("size")
}

/// More cells of the box cover a row than are reported.
pub fn many_refusal() -> RefusalReport<'static>
    ensures texts { texts_of result ≡ many_texts }
    ensures short { IsShort result }
{
    RefusalReport::code("too-many-cells")
}
