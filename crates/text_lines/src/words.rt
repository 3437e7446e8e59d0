// The words of a line.
ghost use Rattle.std.specs.Prelude.{◌≡◌, ◌≢◌, ◌<◌, [], ◌∷◌, length, slice_index, MatchOption};
ghost use Rattle.text_lines.specs.Cuts.{words_of};

// A line without the spaces at its start.
fn trim_spaces(line: &[u8]) -> &[u8]
    ensures words { words_of result.now ≡ words_of line.now }
    ensures front { 0 < length result.now → slice_index result.now 0 ≢ 32 }
{
    for (i, b) in line.iter().enumerate() {
        if *b != b' ' {
            return &line[i..];
        }
    }
    &[]
}

/// The first word, and the text after it. None if there is no word.
pub fn split_word(line: &[u8]) -> Option<(&[u8], &[u8])>
    ensures { MatchOption result (words_of line.now ≡ []) (λ p. words_of line.now ≡ p.0.now
        ∷ words_of p.1.now) }
{
    let text = trim_spaces(line);
    if text.is_empty() {
        return None;
    }
    for (i, b) in text.iter().enumerate() {
        if *b == b' ' {
            return Some((&text[..i], &text[i..]));
        }
    }
    Some((text, &[]))
}
