// A schema, and its readers.
ghost use Rattle.std.specs.Prelude.{IfOk, true, ◌≡◌, ◌≤◌, ◌<◌, ◌+◌, [], length, map, slice_index_or};
ghost use Rattle.qc_schema.specs.Grammar.{is_new_name, measure_from, read_lines, schema_in, start};
ghost use Rattle.text_lines.specs.Lines.{lines_of, without_cr};
ghost use Rattle.qc_schema.specs.Schema.{IsLayout, max_dims, no_measure, version_number, version_word, with_dim};
ghost use Rattle.cell_core.specs.Gives.{Gives};
ghost use Rattle.qc_schema.specs.Progress.{layout_in, schema_fault_in};

use crate::draft::{Draft, measure_named};
use crate::reader::SchemaReader;
use crate::refusal::{SchemaCause, SchemaRefused};
use aggregates::AggKind;
use cube_defs::{MAX_FILE, Memory};
use std::alloc::Global;
use std::marker::Model;
use text_lines::{split_line, trim_byte_order_mark, trim_cr};

/// The names of a cube's columns, the aggregates that are indexed, and the limits.
#[derive(Drop)]
pub struct Schema {
    draft: Draft,
}

impl Model for Schema {
    ghost use Rattle.qc_schema.specs.Schema.{IsLayout, Layout};
    ghost use Rattle.qc_schema.specs.Progress.{layout_in};

    ghost Value = { Layout };

    ghost view = { λ s. layout_in s.draft };

    ghost invariant = { λ s. IsLayout (layout_in s.draft) };
}

impl Schema {
    /// The version, which the first line names: 1 or 2. Version 1 has at most 12 dimensions and one
    /// measure, version 2 at most 16 and four.
    pub fn version(&self) -> u8
        ensures { result ≡ version_number self.now.version }
    {
        self.draft.version.number()
    }

    pub(crate) fn version_word(&self) -> &'static str
        ensures { result.now ≡ version_word self.now.version }
    {
        self.draft.version.word()
    }

    /// The name of the column of ids.
    pub fn id_name(&self) -> &str
        ensures { result.now ≡ self.now.id }
    {
        self.draft.id.as_str()
    }

    /// The number of dimensions.
    pub fn dims(&self) -> u8
        ensures count { result ≡ length self.now.dims }
        ensures layout { IsLayout self.now }
    {
        self.draft.dims.len() as u8
    }

    /// The name of a dimension, counted from 0.
    pub fn dim_name(&self, dim: u8) -> &str
        requires { dim < length self.now.dims }
        ensures { result.now ≡ slice_index_or self.now.dims dim [] }
    {
        self.draft.dims[dim as usize].as_str()
    }

    /// The number of measures.
    pub fn measures(&self) -> u8
        ensures { result ≡ length self.now.measures }
    {
        self.draft.measures.len() as u8
    }

    /// The name of a measure, counted from 0.
    pub fn measure_name(&self, measure: u8) -> &str
        requires { measure < length self.now.measures }
        ensures { result.now ≡ (slice_index_or self.now.measures measure no_measure).name }
    {
        self.draft.measures[measure as usize].name.as_str()
    }

    /// The measure of a name, counted from 0.
    pub fn measure_named(&self, name: &[u8]) -> Option<u8>
        ensures { result ≡ measure_from self.now.measures 0 name.now }
    {
        measure_named(&self.draft.measures, name)
    }

    /// The scale of a measure: the number of digits of its amounts after the point.
    pub fn scale(&self, measure: u8) -> u8
        requires { measure < length self.now.measures }
        ensures { result ≡ (slice_index_or self.now.measures measure no_measure).scale }
    {
        self.draft.measures[measure as usize].scale
    }

    /// The aggregates that are indexed, in the order of their lines.
    pub fn indexes(&self) -> &[AggKind]
        ensures { result.now ≡ self.now.indexes }
    {
        self.draft.indexes.as_slice()
    }

    /// The most nodes of the tree.
    pub fn nodes(&self) -> u32
        ensures { result ≡ self.now.nodes }
    {
        self.draft.nodes
    }

    /// The most rows.
    pub fn rows(&self) -> u32
        ensures { result ≡ self.now.rows }
    {
        self.draft.rows
    }

    /// The most texts of each dimension.
    pub fn values(&self) -> u32
        ensures { result ≡ self.now.values }
    {
        self.draft.values
    }

    /// The most dimensions of the schema's version.
    pub fn max_dims(&self) -> u8
        ensures { result ≡ max_dims self.now.version }
    {
        self.draft.version.max_dims()
    }

    /// Whether the name is free for a new dimension: it is in the grammar of names, isn't `op`, and
    /// isn't the name of the id, a dimension or a measure.
    pub fn may_name(&self, name: &[u8]) -> bool
        ensures { result ≡ is_new_name self.now name.now }
    {
        self.draft.may_name(name)
    }

    /// The schema with one more dimension at the end. All else is the same.
    pub fn with_dim(&self, alloc: Global, name: &str) -> Result<Schema, Memory>
        requires few { length self.now.dims < max_dims self.now.version }
        requires new { is_new_name self.now name.now ≡ true }
        ensures { IfOk result (λ schema. schema ≡ with_dim self.now name.now) }
    {
        let draft = self.draft.with_dim(alloc, name)?;
        Ok(Schema { draft })
    }
}

// Reads all lines of a text without a byte order mark.
fn read_draft(alloc: Global, text: &[u8]) -> Result<Draft, SchemaRefused>
    requires { length text.now ≤ MAX_FILE }
    ensures { Gives schema_fault_in layout_in result
        (read_lines (map without_cr (lines_of text.now)) 1 start) }
{
    let mut reader = SchemaReader::new(alloc);
    let mut rest = text;
    let mut line: u32 = 1;
    'lines: while !rest.is_empty() {
        let (first, behind) = split_line(rest);
        if let Err(refused) = reader.read_line(alloc, trim_cr(first)) {
            return Err(refused.at(line));
        }
        rest = behind;
        line += 1;
    }
    if !reader.may_end() {
        return Err(SchemaRefused::Line {
            line,
            cause: SchemaCause::End,
        });
    }
    Ok(reader.draft)
}

/// Reads the text of a schema: lines of words with spaces between them, as docs/formats.md says.
///
/// The first line is the version, `qcube 1` or `qcube 2`. A line `id NAME` follows, and then lines
/// `dim NAME`: 1 to 12 in version 1, and 1 to 16 in version 2. Lines `measure NAME SCALE` may
/// follow: at most one in version 1, and at most four in version 2. At the end there may be lines
/// `index count` or `index AGG NAME`, and at most one each of `nodes N`, `rows N` and `values N`.
/// Lines without words, and those that begin with `#`, are ignored.
pub fn read_schema(alloc: Global, bytes: &[u8]) -> Result<Schema, SchemaRefused>
    requires { length bytes.now ≤ MAX_FILE }
    ensures { Gives schema_fault_in (λ schema. schema) result (schema_in bytes.now) }
{
    let Ok(text) = str::from_utf8(bytes) else {
        return Err(SchemaRefused::NotUtf8);
    };
    let draft = read_draft(alloc, trim_byte_order_mark(text.as_bytes()))?;
    Ok(Schema { draft })
}
