// Reads a schema line by line.
ghost use Rattle.std.specs.Prelude.{◌≡◌, ◌≤◌, ◌&&◌, length, nat_lt};
ghost use Rattle.qc_schema.specs.Grammar.{dim_line, id_line, in_order, index_line, is_start, may_dim, may_end, may_id, may_index, may_measure, may_rows, may_values, measure_line, named_line, nodes_line, rows_line, start, take_line, values_line, version_in, version_line};
ghost use Rattle.text_lines.specs.Cuts.{words_of};
ghost use Rattle.cell_core.specs.Gives.{Gives};
ghost use Rattle.qc_schema.specs.Progress.{cause_in, layout_in, progress_in};
ghost use Rattle.qc_schema.specs.Schema.{max_dims, max_measures};

use crate::draft::{Draft, Measure};
use crate::limits::SchemaVersion;
use crate::lines::{only_word, only_words};
use crate::refusal::{SchemaCause, SchemaLineRefused};
use crate::words::{read_limit, read_scale};
use cube_defs::{MAX_CODES, MAX_MEASURES, MAX_NODES, MAX_ROWS};
use std::alloc::Global;
use text_lines::{is_comment_line, split_word};

/// The kind of the last line that was read.
#[derive(Clone, Copy)]
pub enum LastLine {
    Start,
    Qcube,
    Id,
    Dim,
    Measure,
    Index,
    Nodes,
    Rows,
    Values,
}

impl LastLine {
    fn is_start(self) -> bool
        ensures { result ≡ is_start self }
    {
        matches!(self, LastLine::Start)
    }

    fn may_id(self) -> bool
        ensures { result ≡ may_id self }
    {
        matches!(self, LastLine::Qcube)
    }

    fn may_dim(self) -> bool
        ensures { result ≡ may_dim self }
    {
        matches!(self, LastLine::Id | LastLine::Dim)
    }

    fn may_measure(self) -> bool
        ensures { result ≡ may_measure self }
    {
        matches!(self, LastLine::Dim | LastLine::Measure)
    }

    // Whether an `index` line may come next. A `nodes` line may come at the same places.
    fn may_index(self) -> bool
        ensures { result ≡ may_index self }
    {
        matches!(self, LastLine::Dim | LastLine::Measure | LastLine::Index)
    }

    fn may_rows(self) -> bool
        ensures { result ≡ may_rows self }
    {
        matches!(self, LastLine::Nodes) || self.may_index()
    }

    fn may_values(self) -> bool
        ensures { result ≡ may_values self }
    {
        matches!(self, LastLine::Rows) || self.may_rows()
    }

    fn may_end(self) -> bool
        ensures { result ≡ may_end self }
    {
        matches!(self, LastLine::Values) || self.may_values()
    }
}

/// A schema that is being read.
#[derive(Drop)]
pub struct SchemaReader {
    pub stage: LastLine,
    pub draft: Draft,
}

fn check_order(may: bool) -> Result<(), SchemaLineRefused>
    ensures { Gives cause_in (λ _. tt) result (in_order may) }
{
    if may {
        Ok(())
    } else {
        Err(SchemaLineRefused::Cause(SchemaCause::Order))
    }
}

// The version that one word names.
fn version_in(words: &[u8]) -> Option<SchemaVersion>
    ensures { result ≡ version_in (words_of words.now) }
{
    let (word, rest) = split_word(words)?;
    if split_word(rest).is_some() {
        None
    } else if word == b"1".as_slice() {
        Some(SchemaVersion::One)
    } else if word == b"2".as_slice() {
        Some(SchemaVersion::Two)
    } else {
        None
    }
}

impl SchemaReader {
    pub fn new(alloc: Global) -> SchemaReader
        ensures { progress_in result ≡ start }
    {
        SchemaReader {
            stage: LastLine::Start,
            draft: Draft::new(alloc),
        }
    }

    #[tactic(auto, unfolding(crate::specs::Grammar::version_line))]
    fn read_version(&mut self, word: &[u8], words: &[u8]) -> Result<(), SchemaLineRefused>
        ensures { Gives cause_in (λ _. progress_in self.new) result
            (version_line (progress_in self.old) word.now (words_of words.now)) }
    {
        if word != b"qcube".as_slice() {
            return Err(SchemaLineRefused::Cause(SchemaCause::Version));
        }
        let Some(version) = version_in(words) else {
            return Err(SchemaLineRefused::Cause(SchemaCause::Version));
        };
        self.draft.version = version;
        self.stage = LastLine::Qcube;
        Ok(())
    }

    #[tactic(auto, unfolding(crate::specs::Grammar::id_line))]
    fn read_id(&mut self, alloc: Global, words: &[u8]) -> Result<(), SchemaLineRefused>
        ensures { Gives cause_in (λ _. progress_in self.new) result
            (id_line (progress_in self.old) (words_of words.now)) }
    {
        check_order(self.stage.may_id())?;
        let name = self.draft.unused_name(only_word(words)?)?;
        self.draft.id = String::from_str(alloc, name)?;
        self.stage = LastLine::Id;
        Ok(())
    }

    // Whether a `dim` line may come next.
    fn may_add_dim(&self) -> bool
        ensures { result ≡ (may_dim self.now.stage
            && nat_lt (length (layout_in self.now.draft).dims) (max_dims self.now.draft.version)) }
    {
        self.stage.may_dim() && self.draft.dims.len() < self.draft.version.max_dims() as usize
    }

    #[tactic(auto, unfolding(crate::specs::Grammar::dim_line))]
    fn read_dim(&mut self, alloc: Global, words: &[u8]) -> Result<(), SchemaLineRefused>
        ensures { Gives cause_in (λ _. progress_in self.new) result
            (dim_line (progress_in self.old) (words_of words.now)) }
    {
        check_order(self.may_add_dim())?;
        let name = self.draft.unused_name(only_word(words)?)?;
        let dim = String::from_str(alloc, name)?;
        self.draft.dims.push(dim)?;
        self.stage = LastLine::Dim;
        Ok(())
    }

    // Whether a `measure` line may come next.
    fn may_add_measure(&self) -> bool
        ensures { result ≡ (may_measure self.now.stage
            && nat_lt (length (layout_in self.now.draft).measures)
            (max_measures self.now.draft.version)) }
    {
        self.stage.may_measure()
            && self.draft.measures.len() < self.draft.version.max_measures() as usize
    }

    #[tactic(auto, unfolding(crate::specs::Grammar::measure_line))]
    fn read_measure(&mut self, alloc: Global, words: &[u8]) -> Result<(), SchemaLineRefused>
        ensures { Gives cause_in (λ _. progress_in self.new) result
            (measure_line (progress_in self.old) (words_of words.now)) }
    {
        check_order(self.may_add_measure())?;
        let (word, digit) = only_words(words)?;
        let name = self.draft.unused_name(word)?;
        let scale = read_scale(digit)?;
        let name = String::from_str(alloc, name)?;
        self.draft.measures.push(Measure { name, scale })?;
        self.stage = LastLine::Measure;
        Ok(())
    }

    #[tactic(auto, unfolding(crate::specs::Grammar::index_line))]
    fn read_index(&mut self, words: &[u8]) -> Result<(), SchemaLineRefused>
        requires { length self.old.draft.measures.items ≤ MAX_MEASURES }
        ensures { Gives cause_in (λ _. progress_in self.new) result
            (index_line (progress_in self.old) (words_of words.now)) }
    {
        check_order(self.stage.may_index())?;
        let kind = self.draft.kind_in(words)?;
        let fresh = self.draft.unused_kind(kind)?;
        self.draft.indexes.push(fresh)?;
        self.stage = LastLine::Index;
        Ok(())
    }

    #[tactic(auto, unfolding(crate::specs::Grammar::nodes_line))]
    fn read_nodes(&mut self, words: &[u8]) -> Result<(), SchemaLineRefused>
        ensures { Gives cause_in (λ _. progress_in self.new) result
            (nodes_line (progress_in self.old) (words_of words.now)) }
    {
        check_order(self.stage.may_index())?;
        self.draft.nodes = read_limit(MAX_NODES, only_word(words)?)?;
        self.stage = LastLine::Nodes;
        Ok(())
    }

    #[tactic(auto, unfolding(crate::specs::Grammar::rows_line))]
    fn read_rows(&mut self, words: &[u8]) -> Result<(), SchemaLineRefused>
        ensures { Gives cause_in (λ _. progress_in self.new) result
            (rows_line (progress_in self.old) (words_of words.now)) }
    {
        check_order(self.stage.may_rows())?;
        self.draft.rows = read_limit(MAX_ROWS, only_word(words)?)?;
        self.stage = LastLine::Rows;
        Ok(())
    }

    #[tactic(auto, unfolding(crate::specs::Grammar::values_line))]
    fn read_values(&mut self, words: &[u8]) -> Result<(), SchemaLineRefused>
        ensures { Gives cause_in (λ _. progress_in self.new) result
            (values_line (progress_in self.old) (words_of words.now)) }
    {
        check_order(self.stage.may_values())?;
        self.draft.values = read_limit(MAX_CODES, only_word(words)?)?;
        self.stage = LastLine::Values;
        Ok(())
    }

    // A line after the first, by its first word.
    #[tactic(auto, unfolding(crate::specs::Grammar::named_line))]
    fn read_named(
        &mut self,
        alloc: Global,
        word: &[u8],
        words: &[u8],
    ) -> Result<(), SchemaLineRefused>
        requires { length self.old.draft.measures.items ≤ MAX_MEASURES }
        ensures { Gives cause_in (λ _. progress_in self.new) result
            (named_line (progress_in self.old) word.now (words_of words.now)) }
    {
        if word == b"id".as_slice() {
            self.read_id(alloc, words)
        } else if word == b"dim".as_slice() {
            self.read_dim(alloc, words)
        } else if word == b"measure".as_slice() {
            self.read_measure(alloc, words)
        } else if word == b"index".as_slice() {
            self.read_index(words)
        } else if word == b"nodes".as_slice() {
            self.read_nodes(words)
        } else if word == b"rows".as_slice() {
            self.read_rows(words)
        } else if word == b"values".as_slice() {
            self.read_values(words)
        } else {
            Err(SchemaLineRefused::Cause(SchemaCause::Order))
        }
    }

    /// Takes a line, or reports the first cause that holds.
    #[tactic(auto, unfolding(crate::specs::Grammar::take_line))]
    pub fn read_line(&mut self, alloc: Global, line: &[u8]) -> Result<(), SchemaLineRefused>
        requires { length self.old.draft.measures.items ≤ MAX_MEASURES }
        ensures { Gives cause_in (λ _. progress_in self.new) result
            (take_line (progress_in self.old) line.now) }
    {
        if is_comment_line(line) {
            return Ok(());
        }
        let Some((word, words)) = split_word(line) else {
            return Ok(());
        };
        if self.stage.is_start() {
            self.read_version(word, words)
        } else {
            self.read_named(alloc, word, words)
        }
    }

    /// Whether the text may end here.
    pub fn may_end(&self) -> bool
        ensures { result ≡ may_end self.now.stage }
    {
        self.stage.may_end()
    }
}
