// The contents of a schema, before all of it is read.
ghost use Rattle.std.specs.Prelude.{IfOk, [], ◌∷◌, ◌++◌, ◌≡◌, ◌≤◌, map, length, string_bytes};
ghost use Rattle.std.specs.List.{list_any};
ghost use Rattle.std.specs.Str.{bytes_eq};
ghost use Rattle.qc_schema.specs.Grammar.{is_new_name, is_used, kind_named, kind_of, measure_from, new_kind, new_name, start};
ghost use Rattle.text_lines.specs.Cuts.{words_of};
ghost use Rattle.aggregates.specs.Views.{same_kind};
ghost use Rattle.cell_core.specs.Gives.{Gives};
ghost use Rattle.qc_schema.specs.Progress.{cause_in, layout_in, measure_in};
ghost use Rattle.qc_schema.specs.Schema.{with_dim};

use crate::limits::{DEFAULT_NODES, SchemaVersion};
use crate::lines::only_word;
use crate::refusal::{SchemaCause, SchemaLineRefused};
use crate::words::{is_good_name, name_in};
use aggregates::{AggKind, same_kind};
use cube_defs::{MAX_CODES, MAX_MEASURES, MAX_ROWS, Memory};
use std::alloc::Global;
use text_lines::split_word;

/// A column of amounts, and the number of digits after the point.
#[derive(Drop)]
pub struct Measure {
    pub name: String,
    pub scale: u8,
}

/// What was read of a schema so far.
#[derive(Drop)]
pub struct Draft {
    pub version: SchemaVersion,
    pub id: String,
    pub dims: Vec<String>,
    pub measures: Vec<Measure>,
    pub indexes: Vec<AggKind>,
    pub nodes: u32,
    pub rows: u32,
    pub values: u32,
}

// Whether a name is among these.
fn has_name(names: &Vec<String>, name: &[u8]) -> bool
    ensures { result ≡ list_any (λ y. bytes_eq y name.now) (map string_bytes names.now.items) }
{
    for other in names {
        if other.as_bytes() == name {
            return true;
        }
    }
    false
}

// Whether a measure has this name.
fn has_measure(measures: &Vec<Measure>, name: &[u8]) -> bool
    ensures { result ≡ list_any (λ y. bytes_eq y name.now)
        (map (λ m. m.name) (map measure_in measures.now.items)) }
{
    for measure in measures {
        if measure.name.as_bytes() == name {
            return true;
        }
    }
    false
}

/// The place of the measure with this name.
pub fn measure_named(measures: &Vec<Measure>, name: &[u8]) -> Option<u8>
    requires { length measures.now.items ≤ MAX_MEASURES }
    ensures { result ≡ measure_from (map measure_in measures.now.items) 0 name.now }
{
    for (k, measure) in measures.iter().enumerate() {
        if measure.name.as_bytes() == name {
            return Some(k as u8);
        }
    }
    None
}

// The aggregate of this name, of the measure.
fn kind_with(aggregate: &[u8], measure: Option<u8>) -> Result<AggKind, SchemaLineRefused>
    ensures { Gives cause_in (λ kind. kind) result (kind_named aggregate.now measure) }
{
    let Some(place) = measure else {
        return Err(SchemaLineRefused::Cause(SchemaCause::Name));
    };
    if aggregate == b"sum".as_slice() {
        Ok(AggKind::Sum(place))
    } else if aggregate == b"least".as_slice() {
        Ok(AggKind::Least(place))
    } else if aggregate == b"greatest".as_slice() {
        Ok(AggKind::Greatest(place))
    } else if aggregate == b"mean".as_slice() {
        Ok(AggKind::Mean(place))
    } else {
        Err(SchemaLineRefused::Cause(SchemaCause::Name))
    }
}

// Whether an aggregate is indexed already.
fn has_kind(kinds: &Vec<AggKind>, kind: AggKind) -> bool
    ensures { result ≡ list_any (λ k. same_kind k kind) kinds.now.items }
{
    for other in kinds {
        if same_kind(*other, kind) {
            return true;
        }
    }
    false
}

// The names, copied, with one more at the end.
fn names_and(alloc: Global, names: &Vec<String>, last: &str) -> Result<Vec<String>, Memory>
    ensures { IfOk result (λ more. map string_bytes more.items ≡ map string_bytes names.now.items
        ++ last.now ∷ []) }
{
    let mut more = Vec::with_capacity(alloc, names.len() + 1)?;
    for name in names {
        more.push_reserved(String::from_str(alloc, name.as_str())?);
    }
    more.push_reserved(String::from_str(alloc, last)?);
    Ok(more)
}

// The measures, copied.
fn copied_measures(alloc: Global, measures: &Vec<Measure>) -> Result<Vec<Measure>, Memory>
    ensures { IfOk result (λ copy. map measure_in copy.items ≡ map measure_in measures.now.items) }
{
    let mut copy = Vec::with_capacity(alloc, measures.len())?;
    for measure in measures {
        let name = String::from_str(alloc, measure.name.as_str())?;
        let scale = measure.scale;
        copy.push_reserved(Measure { name, scale });
    }
    Ok(copy)
}

impl Draft {
    /// Nothing read yet: the limits are the defaults.
    pub fn new(alloc: Global) -> Draft
        ensures { layout_in result ≡ start.layout }
    {
        Draft {
            version: SchemaVersion::One,
            id: String::new(alloc),
            dims: Vec::new(alloc),
            measures: Vec::new(alloc),
            indexes: Vec::new(alloc),
            nodes: DEFAULT_NODES,
            rows: MAX_ROWS,
            values: MAX_CODES,
        }
    }

    // Whether the id, a dimension or a measure has this name.
    #[tactic(auto, using(crate::proofs::Searching::any_append))]
    fn has_column(&self, name: &[u8]) -> bool
        ensures { result ≡ is_used (layout_in self.now) name.now }
    {
        if self.id.as_bytes() == name {
            return true;
        }
        has_name(&self.dims, name) || has_measure(&self.measures, name)
    }

    /// Whether the word is a name that isn't used yet.
    pub fn may_name(&self, word: &[u8]) -> bool
        ensures { result ≡ is_new_name (layout_in self.now) word.now }
    {
        is_good_name(word) && !self.has_column(word)
    }

    /// The same, with one more dimension at the end.
    pub fn with_dim(&self, alloc: Global, name: &str) -> Result<Draft, Memory>
        ensures { IfOk result (λ draft. layout_in draft ≡ with_dim (layout_in self.now) name.now) }
    {
        let id = String::from_str(alloc, self.id.as_str())?;
        let dims = names_and(alloc, &self.dims, name)?;
        let measures = copied_measures(alloc, &self.measures)?;
        let indexes = Vec::from_slice(alloc, self.indexes.as_slice())?;
        Ok(Draft {
            version: self.version,
            id,
            dims,
            measures,
            indexes,
            nodes: self.nodes,
            rows: self.rows,
            values: self.values,
        })
    }

    /// The word, if it is a name that isn't used yet.
    pub fn unused_name<'a>(&self, word: &'a [u8]) -> Result<&'a str, SchemaLineRefused>
        ensures { Gives cause_in (λ s. s.now) result (new_name (layout_in self.now) word.now) }
    {
        let Some(name) = name_in(word) else {
            return Err(SchemaLineRefused::Cause(SchemaCause::Name));
        };
        if self.has_column(word) {
            return Err(SchemaLineRefused::Cause(SchemaCause::Name));
        }
        Ok(name)
    }

    /// The aggregate that words name.
    #[tactic(auto, unfolding(crate::specs::Grammar::kind_of))]
    pub fn kind_in(&self, words: &[u8]) -> Result<AggKind, SchemaLineRefused>
        requires { length self.now.measures.items ≤ MAX_MEASURES }
        ensures { Gives cause_in (λ kind. kind) result
            (kind_of (layout_in self.now).measures (words_of words.now)) }
    {
        let Some((aggregate, rest)) = split_word(words) else {
            return Err(SchemaLineRefused::Cause(SchemaCause::Words));
        };
        if aggregate == b"count".as_slice() {
            if split_word(rest).is_some() {
                return Err(SchemaLineRefused::Cause(SchemaCause::Words));
            }
            return Ok(AggKind::Count);
        }
        let name = only_word(rest)?;
        kind_with(aggregate, measure_named(&self.measures, name))
    }

    /// The aggregate, if it isn't indexed yet.
    pub fn unused_kind(&self, kind: AggKind) -> Result<AggKind, SchemaLineRefused>
        ensures { Gives cause_in (λ fresh. fresh) result (new_kind (layout_in self.now) kind) }
    {
        if has_kind(&self.indexes, kind) {
            return Err(SchemaLineRefused::Cause(SchemaCause::Name));
        }
        Ok(kind)
    }
}
