// The canonical text of a schema.
ghost use Rattle.std.specs.Prelude.{◌≡◌, ◌<◌, [], ◌∷◌, ◌++◌, OnOk, IfOk, Ok, codes, length, map, decimal};
ghost use Rattle.std.specs.List.{flat_map};
ghost use Rattle.aggregates.specs.Views.{IsThere};
ghost use Rattle.qc_schema.specs.Grammar.{schema_in};
ghost use Rattle.qc_schema.specs.Schema.{version_word};
ghost use Rattle.qc_schema.specs.Spelling.{dim_words, index_words, layout_text, limit_words, line_text, measure_words};

use crate::Memory;
use crate::schema::Schema;
use aggregates::AggKind;
use itoa::Buffer;
use std::alloc::Global;

// Adds a line of two words.
fn push_pair(text: &mut Vec<u8>, first: &[u8], second: &[u8]) -> Result<(), Memory>
    ensures { OnOk result (text.new.items ≡ text.old.items
        ++ line_text (first.now ∷ second.now ∷ [])) }
{
    text.extend_from_slice(first)?;
    text.extend_from_slice(b" ")?;
    text.extend_from_slice(second)?;
    text.extend_from_slice(b"\n")?;
    Ok(())
}

// Adds a line of three words.
fn push_triple(text: &mut Vec<u8>, first: &[u8], second: &[u8], third: &[u8]) -> Result<(), Memory>
    ensures { OnOk result (text.new.items ≡ text.old.items
        ++ line_text (first.now ∷ second.now ∷ third.now ∷ [])) }
{
    text.extend_from_slice(first)?;
    text.extend_from_slice(b" ")?;
    push_pair(text, second, third)
}

fn push_number(text: &mut Vec<u8>, word: &[u8], number: u32) -> Result<(), Memory>
    ensures { OnOk result (text.new.items ≡ text.old.items
        ++ line_text (word.now ∷ decimal number ∷ [])) }
{
    push_pair(text, word, Buffer::new().format(number).as_bytes())
}

fn push_version(text: &mut Vec<u8>, schema: &Schema) -> Result<(), Memory>
    ensures { OnOk result (text.new.items ≡ text.old.items
        ++ line_text (codes "qcube" ∷ version_word schema.now.version ∷ [])) }
{
    push_pair(text, b"qcube", schema.version_word().as_bytes())
}

fn push_dims(text: &mut Vec<u8>, schema: &Schema) -> Result<(), Memory>
    ensures { OnOk result (text.new.items ≡ text.old.items
        ++ flat_map line_text (map dim_words schema.now.dims)) }
{
    for dim in 0..schema.dims() {
        push_pair(text, b"dim", schema.dim_name(dim).as_bytes())?;
    }
    Ok(())
}

fn push_measures(text: &mut Vec<u8>, schema: &Schema) -> Result<(), Memory>
    ensures { OnOk result (text.new.items ≡ text.old.items
        ++ flat_map line_text (map measure_words schema.now.measures)) }
{
    for k in 0..schema.measures() {
        let mut digits = Buffer::new();
        let scale = digits.format(schema.scale(k)).as_bytes();
        push_triple(text, b"measure", schema.measure_name(k).as_bytes(), scale)?;
    }
    Ok(())
}

fn push_index(text: &mut Vec<u8>, schema: &Schema, kind: AggKind) -> Result<(), Memory>
    requires { IsThere (length schema.now.measures) kind }
    ensures { OnOk result (text.new.items ≡ text.old.items
        ++ line_text (index_words schema.now.measures kind)) }
{
    let (word, measure) = match kind {
        AggKind::Count => return push_pair(text, b"index", b"count"),
        AggKind::Sum(m) => ("sum", m),
        AggKind::Least(m) => ("least", m),
        AggKind::Greatest(m) => ("greatest", m),
        AggKind::Mean(m) => ("mean", m),
    };
    push_triple(
        text,
        b"index",
        word.as_bytes(),
        schema.measure_name(measure).as_bytes(),
    )
}

fn push_indexes(text: &mut Vec<u8>, schema: &Schema) -> Result<(), Memory>
    ensures { OnOk result (text.new.items ≡ text.old.items
        ++ flat_map line_text (map (index_words schema.now.measures) schema.now.indexes)) }
{
    // A schema has a layout of its own.
    let _dims = schema.dims();
    for kind in schema.indexes() {
        push_index(text, schema, *kind)?;
    }
    Ok(())
}

fn push_limits(text: &mut Vec<u8>, schema: &Schema) -> Result<(), Memory>
    ensures { OnOk result (text.new.items ≡ text.old.items
        ++ flat_map line_text (limit_words schema.now)) }
{
    push_number(text, b"nodes", schema.nodes())?;
    push_number(text, b"rows", schema.rows())?;
    push_number(text, b"values", schema.values())
}

/// The one canonical text of a schema: each line with one space between its words, and always the
/// three limits.
pub fn schema_text(alloc: Global, schema: &Schema) -> Result<Vec<u8>, Memory>
    ensures text { IfOk result (λ text. text.items ≡ layout_text schema.now) }
    // It is read as the same schema.
    ensures again { IfOk result (λ text. schema_in text.items ≡ Ok schema.now) }
{
    let dims = schema.dims();
    let mut text = Vec::with_capacity(alloc, 64 + 16 * dims as usize)?;
    push_version(&mut text, schema)?;
    push_pair(&mut text, b"id", schema.id_name().as_bytes())?;
    push_dims(&mut text, schema)?;
    push_measures(&mut text, schema)?;
    push_indexes(&mut text, schema)?;
    push_limits(&mut text, schema)?;
    Ok(text)
}
