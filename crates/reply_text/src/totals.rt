// The aggregate of some rows, as fields.
ghost use Rattle.std.specs.Prelude.{OnOk, [], length, ◌++◌, ◌<◌, ◌∷◌, ◌≡◌, ◌≤◌};
ghost use Rattle.aggregates.specs.Texts.{amount_text, ratio_text};
ghost use Rattle.aggregates.specs.Views.{agg_in, part_in, ratio_in};
ghost use Rattle.cube_defs.specs.Answers.{part};
ghost use Rattle.reply_text.specs.Replies.{agg_texts, fields_text, part_texts, parts_texts};

use crate::fields::{push_field, push_number};
use aggregates::{Agg, Part, Ratio, mean, print_amount, print_ratio};
use cell_core::Memory;
use cube_defs::MAX_SCALE;
use qc_schema::Schema;

fn push_amount(out: &mut Vec<u8>, amount: i64, scale: u8) -> Result<(), Memory>
    requires { scale ≤ MAX_SCALE }
    ensures { OnOk result (out.new.items ≡ out.old.items ++ 44 ∷ amount_text scale amount) }
{
    let mut text = [0; 48];
    let len = print_amount(amount, scale, &mut text);
    push_field(out, &text[..len])
}

// An amount, beside another one whose text is given.
fn push_beside(
    out: &mut Vec<u8>,
    amount: i64,
    scale: u8,
    other: i64,
    text: &[u8],
) -> Result<(), Memory>
    requires scale { scale ≤ MAX_SCALE }
    requires text { text.now ≡ amount_text scale other }
    ensures { OnOk result (out.new.items ≡ out.old.items ++ 44 ∷ amount_text scale amount) }
{
    if amount == other {
        return push_field(out, text);
    }
    push_amount(out, amount, scale)
}

// The sum, the least and the greatest amount. They are often equal, and the text is then made once.
fn push_amounts(out: &mut Vec<u8>, part: Part, scale: u8) -> Result<(), Memory>
    requires { scale ≤ MAX_SCALE }
    ensures { OnOk result (out.new.items ≡ out.old.items ++ fields_text
        (amount_text scale part.sum ∷ amount_text scale part.least
        ∷ amount_text scale part.greatest ∷ [])) }
{
    let mut text = [0; 48];
    let len = print_amount(part.sum, scale, &mut text);
    push_field(out, &text[..len])?;
    push_beside(out, part.least, scale, part.sum, &text[..len])?;
    push_beside(out, part.greatest, scale, part.sum, &text[..len])
}

fn push_ratio(out: &mut Vec<u8>, ratio: &Ratio) -> Result<(), Memory>
    ensures { OnOk result (out.new.items ≡ out.old.items ++ 44 ∷ ratio_text (ratio_in ratio.now)) }
{
    let mut text = [0; 48];
    let len = print_ratio(ratio, &mut text);
    push_field(out, &text[..len])
}

fn part_at(agg: &Agg, measure: u8) -> Part
    requires { measure < agg.now.measures }
    ensures part { part_in result ≡ part (agg_in agg.now) measure }
    ensures there { measure < length (agg_in agg.now).parts }
{
    agg.parts[usize::from(measure)]
}

// The four numbers of a measure: sum, least, greatest and mean.
fn push_part(out: &mut Vec<u8>, agg: &Agg, measure: u8, scale: u8) -> Result<(), Memory>
    requires there { measure < agg.now.measures }
    requires scale { scale ≤ MAX_SCALE }
    ensures there { measure < length (agg_in agg.now).parts }
    ensures numbers { OnOk result (out.new.items ≡ out.old.items
        ++ fields_text (part_texts agg.now.count scale (part (agg_in agg.now) measure))) }
{
    let part = part_at(agg, measure);
    push_amounts(out, part, scale)?;
    push_ratio(out, &mean(agg, measure, scale))?;
    Ok(())
}

fn measures_of(agg: &Agg) -> u8
    ensures value { result ≡ agg.now.measures }
    ensures parts { result ≡ length (agg_in agg.now).parts }
{
    agg.parts[..usize::from(agg.measures)].len() as u8
}

/// The aggregate of some rows, and a schema that has its measures.
#[derive(Drop)]
pub struct Total<'a> {
    pub schema: &'a Schema,
    pub agg: &'a Agg,
    pub ghost parts: { length (agg_in agg.now).parts ≡ length schema.now.measures },
}

// The four numbers of each measure.
fn push_parts(out: &mut Vec<u8>, total: &Total<'_>) -> Result<(), Memory>
    ensures { OnOk result (out.new.items ≡ out.old.items
        ++ fields_text (parts_texts total.now.agg.now.count total.now.schema.now.measures
        (agg_in total.now.agg.now).parts)) }
{
    let dims = total.schema.dims();
    for measure in 0..measures_of(total.agg) {
        push_part(out, total.agg, measure, total.schema.scale(measure))?;
    }
    Ok(())
}

/// Appends the aggregate of some rows: their count, and the four numbers of each measure.
pub fn push_agg(out: &mut Vec<u8>, total: &Total<'_>) -> Result<(), Memory>
    ensures { OnOk result (out.new.items ≡ out.old.items
        ++ fields_text (agg_texts total.now.schema.now.measures (agg_in total.now.agg.now))) }
{
    push_number(out, u64::from(total.agg.count))?;
    push_parts(out, total)
}
