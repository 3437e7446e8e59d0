// Lines that are ignored.
ghost use Rattle.std.specs.Prelude.{◌≡◌};
ghost use Rattle.qc_session.specs.Lines.{has_file_word, is_passed};

/// Whether a line has no bytes or is a comment.
pub fn is_ignored(line: &[u8]) -> bool
    ensures { result ≡ is_passed line.now }
{
    matches!(line, [] | [b'#', ..])
}

/// Whether a line has the word of a command that names a file, and a space after it.
pub fn names_file(line: &[u8]) -> bool
    ensures { result ≡ has_file_word line.now }
{
    line.starts_with(b"load ") || line.starts_with(b"apply ") || line.starts_with(b"try ")
}
