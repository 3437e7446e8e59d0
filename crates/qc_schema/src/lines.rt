// The words of a line.
ghost use Rattle.qc_schema.specs.Grammar.{one_word, two_words};
ghost use Rattle.text_lines.specs.Cuts.{words_of};
ghost use Rattle.cell_core.specs.Gives.{Gives};
ghost use Rattle.qc_schema.specs.Progress.{cause_in};

use crate::refusal::{SchemaCause, SchemaLineRefused};
use text_lines::split_word;

/// The one word that a text has.
pub fn only_word(text: &[u8]) -> Result<&[u8], SchemaLineRefused>
    ensures { Gives cause_in (λ word. word.now) result (one_word (words_of text.now)) }
{
    let Some((word, behind)) = split_word(text) else {
        return Err(SchemaLineRefused::Cause(SchemaCause::Words));
    };
    if split_word(behind).is_some() {
        return Err(SchemaLineRefused::Cause(SchemaCause::Words));
    }
    Ok(word)
}

/// The two words that a text has.
pub fn only_words(text: &[u8]) -> Result<(&[u8], &[u8]), SchemaLineRefused>
    ensures { Gives cause_in (λ p. (p.0.now, p.1.now)) result (two_words (words_of text.now)) }
{
    let Some((first, behind)) = split_word(text) else {
        return Err(SchemaLineRefused::Cause(SchemaCause::Words));
    };
    let Some((second, rest)) = split_word(behind) else {
        return Err(SchemaLineRefused::Cause(SchemaCause::Words));
    };
    if split_word(rest).is_some() {
        return Err(SchemaLineRefused::Cause(SchemaCause::Words));
    }
    Ok((first, second))
}
