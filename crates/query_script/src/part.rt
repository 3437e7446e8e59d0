// Parts of a line.
ghost use Rattle.std.specs.Prelude.{length, ◌≡◌, ◌≤◌};
ghost use Rattle.cube_defs.specs.declared.limits.TheConstants.{MAX_FILE};
ghost use Rattle.query_script.specs.Lines.{rest_of, word_of};

/// A text that is a line or a part of one. It is no longer than a file.
#[derive(Clone, Copy)]
pub(crate) struct Part<'a> {
    pub text: &'a str,
    pub ghost short: { length text.now ≤ MAX_FILE },
}

/// The word up to the first space, and what follows that space.
pub(crate) fn split_command(line: &str) -> (&str, &str)
    ensures word { result.0.now ≡ word_of line.now }
    ensures rest { result.1.now ≡ rest_of line.now }
    ensures shorter { length result.1.now ≤ length line.now }
{
    match line.split_once(' ') {
        Some((word, rest)) => (word, rest),
        None => (line, ""),
    }
}

impl<'a> Part<'a> {
    /// The word up to the first space, and what follows that space.
    pub fn split(&self) -> (&'a str, Part<'a>)
        ensures word { result.0.now ≡ word_of self.now.text.now }
        ensures rest { result.1.text.now ≡ rest_of self.now.text.now }
    {
        let (word, text) = split_command(self.text);
        (word, Part { text })
    }
}
