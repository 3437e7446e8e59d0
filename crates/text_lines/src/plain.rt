// Texts that have no quotes and one line.
ghost use Rattle.std.specs.Prelude.{◌≡◌};
ghost use Rattle.std.specs.List.{list_all};
ghost use Rattle.text_lines.specs.Plain.{is_plain_byte};

/// Whether a text has neither a quote nor a line end.
pub fn is_plain(text: &str) -> bool
    ensures { result ≡ list_all is_plain_byte text.now }
{
    text.as_bytes()
        .iter()
        .all(|b| !matches!(b, b'"' | b'\r' | b'\n'))
}
