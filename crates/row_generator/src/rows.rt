// The records of rows.
ghost use Rattle.std.specs.Prelude.{OnOk, [], decimal, length, ◌*◌, ◌+◌, ◌++◌, ◌<◌, ◌∷◌, ◌≡◌, ◌≤◌, ◌^◌};
ghost use Rattle.aggregates.specs.Texts.{amount_text};
ghost use Rattle.row_generator.specs.Generator.{after_draw, after_draws, after_rows, amount_of, deletion_text, deletions_text, row_text, rows_text, value_text, values_text};

use crate::draws::Draws;
use aggregates::print_amount;
use cube_defs::Memory;
use itoa::Buffer;

// Appends a digit.
fn push_digit(out: &mut Vec<u8>, digit: u32) -> Result<(), Memory>
    requires { digit < 10 }
    ensures text { OnOk result (out.new.items ≡ out.old.items ++ (48 + digit) ∷ []) }
    ensures short { OnOk result (length out.new.items ≡ length out.old.items + 1) }
{
    out.push(b'0' + digit as u8)?;
    Ok(())
}

// Appends a number of one or two digits.
#[tactic(auto, using(std::proofs::lemmas::Fmt::decimal_digit))]
fn push_small(out: &mut Vec<u8>, number: u32) -> Result<(), Memory>
    requires { number < 100 }
    ensures text { OnOk result (out.new.items ≡ out.old.items ++ decimal number) }
    ensures short { OnOk result (length out.new.items ≤ length out.old.items + 2) }
{
    if number < 10 {
        return push_digit(out, number);
    }
    push_digit(out, number / 10)?;
    push_digit(out, number % 10)?;
    Ok(())
}

// Appends a number.
fn push_number(out: &mut Vec<u8>, number: u32) -> Result<(), Memory>
    ensures text { OnOk result (out.new.items ≡ out.old.items ++ decimal number) }
    ensures short { OnOk result (length out.new.items ≤ length out.old.items + 10) }
{
    out.extend_from_slice(Buffer::new().format(number).as_bytes())
}

// Appends a comma and the field of a dimension with so many values.
fn push_value(out: &mut Vec<u8>, name: u8, most: u32, draws: &mut Draws) -> Result<(), Memory>
    requires some { 0 < most }
    requires few { most ≤ 100 }
    ensures state { draws.new.state ≡ after_draw draws.old.state }
    ensures text { OnOk result (out.new.items ≡ out.old.items
        ++ value_text name most draws.old.state) }
    ensures short { OnOk result (length out.new.items ≤ length out.old.items + 12) }
{
    let number = draws.next_less_than(most);
    out.push(b',')?;
    out.push(name)?;
    push_small(out, number)
}

// Appends the fields of the dimensions.
fn push_values(out: &mut Vec<u8>, draws: &mut Draws) -> Result<(), Memory>
    ensures state { OnOk result (draws.new.state ≡ after_draws 5 draws.old.state) }
    ensures text { OnOk result (out.new.items ≡ out.old.items ++ values_text draws.old.state) }
    ensures short { OnOk result (length out.new.items ≤ length out.old.items + 60) }
{
    push_value(out, b'a', 40, draws)?;
    push_value(out, b'b', 20, draws)?;
    push_value(out, b'c', 10, draws)?;
    push_value(out, b'd', 5, draws)?;
    push_value(out, b'e', 4, draws)
}

// The amount of the row with an id.
fn amount(id: u32) -> i64
    ensures { result ≡ amount_of id }
{
    i64::from(id % 1001) - 500
}

// Appends a comma and the field of the amount.
fn push_amount(out: &mut Vec<u8>, id: u32) -> Result<(), Memory>
    ensures text { OnOk result (out.new.items ≡ out.old.items ++ 44
        ∷ amount_text 2 (amount_of id)) }
    ensures short { OnOk result (length out.new.items ≤ length out.old.items + 49) }
{
    let mut text = [0; 48];
    let len = print_amount(amount(id), 2, &mut text);
    out.push(b',')?;
    out.extend_from_slice(&text[..len])
}

// Appends the record of the row with an id.
#[tactic(auto, unfolding(crate::specs::Generator::row_text))]
fn push_row(out: &mut Vec<u8>, id: u32, draws: &mut Draws) -> Result<(), Memory>
    ensures state { OnOk result (draws.new.state ≡ after_draws 5 draws.old.state) }
    ensures text { OnOk result (out.new.items ≡ out.old.items ++ row_text id draws.old.state) }
    ensures short { OnOk result (length out.new.items ≤ length out.old.items + 120) }
{
    push_number(out, id)?;
    push_values(out, draws)?;
    push_amount(out, id)?;
    out.extend_from_slice(b"\n")
}

/// Appends the records of so many rows. The ids count up from the first, and each record begins
/// with `front`.
pub fn push_rows(
    out: &mut Vec<u8>,
    front: &[u8],
    count: u32,
    first: u32,
    draws: &mut Draws,
) -> Result<(), Memory>
    requires ids { first + count < 2 ^ 32 }
    requires front { length front.now ≤ 8 }
    ensures state { OnOk result (draws.new.state ≡ after_rows count draws.old.state) }
    ensures text { OnOk result (out.new.items ≡ out.old.items
        ++ rows_text front.now count first draws.old.state) }
    ensures short { OnOk result (length out.new.items ≤ length out.old.items + 128 * count) }
{
    let mut left = count;
    let mut id = first;
    'rows: while left > 0 {
        out.extend_from_slice(front)?;
        push_row(out, id, draws)?;
        left -= 1;
        id += 1;
    }
    Ok(())
}

// Appends the record that deletes the row with an id.
fn push_deletion(out: &mut Vec<u8>, id: u32) -> Result<(), Memory>
    ensures text { OnOk result (out.new.items ≡ out.old.items ++ deletion_text id) }
    ensures short { OnOk result (length out.new.items ≤ length out.old.items + 19) }
{
    out.extend_from_slice(b"-,")?;
    push_number(out, id)?;
    out.extend_from_slice(b",,,,,,\n")
}

/// Appends the records that delete so many rows. The ids count up from the first.
pub fn push_deletions(out: &mut Vec<u8>, count: u32, first: u32) -> Result<(), Memory>
    requires { first + count < 2 ^ 32 }
    ensures text { OnOk result (out.new.items ≡ out.old.items ++ deletions_text count first) }
    ensures short { OnOk result (length out.new.items ≤ length out.old.items + 19 * count) }
{
    let mut left = count;
    let mut id = first;
    'rows: while left > 0 {
        push_deletion(out, id)?;
        left -= 1;
        id += 1;
    }
    Ok(())
}
