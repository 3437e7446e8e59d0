// The words after the program's name.
ghost use Rattle.std.specs.Prelude.{◌≡◌, ◌∷◌, []};
ghost use Rattle.aggregates.specs.Numbers.{id_in};
ghost use Rattle.qc_session.specs.Forms.{drawing_of, form_of};

use aggregates::read_id;
use cube_defs::MAX_ROWS;

/// The kind of the first file, which gives the state at which a run starts.
#[derive(Clone, Copy)]
pub enum Source {
    /// A schema: there are no rows.
    FromSchema,
    /// The snapshot of a state.
    FromSnapshot,
}

/// The names of the first file and of the script, and the kind of the first.
#[derive(Clone, Copy)]
pub struct InputFiles<'a> {
    pub source: Source,
    pub first: &'a str,
    pub script: &'a str,
}

/// The form of the words.
#[derive(Clone, Copy)]
pub enum Form<'a> {
    /// `run SCHEMA SCRIPT` or `open SNAPSHOT SCRIPT`: the names of two files.
    Run(InputFiles<'a>),
    /// `pack SCHEMA SCRIPT`: the names of two files.
    Pack(InputFiles<'a>),
    /// `gen ROWS SEED`: the number of rows, and the seed from which they are drawn.
    Gen(u32, u64),
    /// Usage error: the words have no listed form.
    Invalid,
}

ghost use Rattle.qc_session.specs.Words.{HasFewRows, form_in};

// The form of these numbers, which are decimal digits alone.
fn read_numbers<'a>(rows: &str, seed: &str) -> Form<'a>
    ensures form { form_in result ≡ drawing_of (id_in rows.now) (id_in seed.now) }
    ensures few { HasFewRows result }
{
    match (read_id(rows.as_bytes()), read_id(seed.as_bytes())) {
        (Some(rows), Some(seed)) if rows > 0 && rows <= u64::from(MAX_ROWS) => {
            Form::Gen(rows as u32, seed)
        }
        _ => Form::Invalid,
    }
}

// The form of three words.
fn read_three<'a>(word: &String, first: &'a String, script: &'a String) -> Form<'a>
    ensures form { form_in result ≡ form_of (word.now ∷ first.entry.now ∷ script.entry.now ∷ []) }
    ensures few { HasFewRows result }
{
    let (first, script) = (first.as_str(), script.as_str());
    match word.as_str() {
        "run" => Form::Run(InputFiles {
            source: Source::FromSchema,
            first,
            script,
        }),
        "open" => Form::Run(InputFiles {
            source: Source::FromSnapshot,
            first,
            script,
        }),
        "pack" => Form::Pack(InputFiles {
            source: Source::FromSchema,
            first,
            script,
        }),
        "gen" => read_numbers(first, script),
        _ => Form::Invalid,
    }
}

/// The form of these words.
pub fn read_words(words: &[String]) -> Form<'_>
    ensures form { form_in result ≡ form_of words.now }
    ensures few { HasFewRows result }
{
    let [word, first, script] = words else {
        return Form::Invalid;
    };
    read_three(word, first, script)
}
