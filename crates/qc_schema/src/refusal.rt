// Why a text is no schema.
ghost use Rattle.std.specs.Prelude.{◌≡◌};
ghost use Rattle.qc_schema.specs.declared.refusal.SchemaLineRefused.TheVariants as faults;
ghost use Rattle.qc_schema.specs.Progress.{refused_at};

use std::alloc::{AllocError, AllocFailed};

/// What is wrong with a line. If several causes hold, the first in this order is reported.
#[derive(Clone, Copy)]
pub enum SchemaCause {
    /// The first line is neither `qcube 1` nor `qcube 2`.
    Version,
    /// The line's first word isn't known, or the line may not stand here.
    Order,
    /// The line has too many or too few words.
    Words,
    /// A name has another form, or is used before; or an index is unknown or given twice.
    Name,
    /// A number is outside its range.
    Number,
    /// The text ends before it has a dimension.
    End,
}

/// Why bytes are no schema.
#[derive(Clone, Copy)]
pub enum SchemaRefused {
    /// The text isn't UTF-8.
    NotUtf8,
    /// The first wrong line, counted from 1. At the end of the text it is one more than the number
    /// of lines.
    Line { line: u32, cause: SchemaCause },
    /// Memory ran out.
    Memory,
}

/// Why a line isn't taken.
#[derive(Clone, Copy)]
pub enum SchemaLineRefused {
    Cause(SchemaCause),
    Memory,
}

impl SchemaLineRefused {
    /// The refusal of the text, if this is about the line with that number.
    pub fn at(self, line: u32) -> SchemaRefused
        ensures { result ≡ refused_at line self }
    {
        match self {
            SchemaLineRefused::Cause(cause) => SchemaRefused::Line { line, cause },
            SchemaLineRefused::Memory => SchemaRefused::Memory,
        }
    }
}

impl From<AllocError> for SchemaLineRefused {
    ghost from_gives = { λ _ e. e ≡ faults.Memory };

    fn from(_: AllocError) -> Self {
        SchemaLineRefused::Memory
    }
}

impl<T: Drop> From<AllocFailed<T>> for SchemaLineRefused {
    ghost from_gives = { λ _ e. e ≡ faults.Memory };

    fn from(_: AllocFailed<T>) -> Self {
        SchemaLineRefused::Memory
    }
}
