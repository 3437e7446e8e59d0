// The byte order mark at the start of a text.
ghost use Rattle.std.specs.Prelude.{◌≡◌, ◌≤◌};
ghost use Rattle.text_lines.specs.Lines.{begins_with_mark, begins_with_two_marks, without_mark};

/// Whether a text begins with a byte order mark.
pub fn has_byte_order_mark(text: &[u8]) -> bool
    ensures { result ≡ begins_with_mark text.now }
{
    matches!(text, [0xEF, 0xBB, 0xBF, ..])
}

/// Whether a text begins with two byte order marks.
pub fn has_two_byte_order_marks(text: &[u8]) -> bool
    ensures { result ≡ begins_with_two_marks text.now }
{
    has_byte_order_mark(text) && has_byte_order_mark(&text[3..])
}

/// A text without the byte order mark at its start.
pub fn trim_byte_order_mark(text: &[u8]) -> &[u8]
    ensures { result.now ≡ without_mark text.now }
{
    match text {
        [0xEF, 0xBB, 0xBF, behind @ ..] => behind,
        _ => text,
    }
}
