//! Laws of aggregates, and of numbers that are printed and read again, as the contracts of
//! functions without a body.
ghost use Rattle.std.specs.Prelude.{◌≡◌, ℕ, ℤ, ◌*◌, ◌<◌, ◌≤◌, ◌^◌, ◌==◌, IsTrue, List, [], ◌∷◌, ◌++◌, Some, decimal, drop, length, nat_abs};
ghost use Rattle.std.specs.List.{list_all};
ghost use Rattle.cube_defs.specs.Rows.{Fraction, Row, agg_of};
ghost use Rattle.cube_laws.specs.Total.{combine};
ghost use Rattle.aggregates.specs.Numbers.{amount_in, fraction_written, id_in, number, places};
ghost use Rattle.aggregates.specs.Rows.{agg_of_row};
ghost use Rattle.aggregates.specs.Texts.{amount_text, ratio_text};

use cube_defs::MAX_AMOUNT;
use cube_laws::values::Value;

/// The aggregate of one row is that of its amounts, and the aggregate of rows put together is
/// their aggregates combined.
pub fn aggregates_of_rows_put_together<V: Value>()
    ensures one { (row : Row V) → agg_of (length row.amounts) (row ∷ []) ≡ agg_of_row row.amounts }
    ensures combined { (measures : ℕ) (rows more : List (Row V)) → 0 < length rows
        → 0 < length more →
        agg_of measures (rows ++ more) ≡ combine (agg_of measures rows) (agg_of measures more) }
{}

/// An id that was printed is read as itself.
pub fn printed_ids_are_read()
    ensures { (id : ℕ) → id < 2 ^ 64 → id_in (decimal id) ≡ Some id }
{}

/// An amount that was printed is read as itself, at each scale, and no two amounts have one text.
pub fn printed_amounts_are_read()
    ensures apart { (scale : ℕ) (amount other : ℤ) → nat_abs amount ≤ MAX_AMOUNT →
        nat_abs other ≤ MAX_AMOUNT → amount_text scale amount ≡ amount_text scale other →
        amount ≡ other }
    ensures read { (scale : ℕ) (amount : ℤ) → nat_abs amount ≤ MAX_AMOUNT →
        amount_in scale (amount_text scale amount) ≡ Some amount }
{}

/// A ratio that was printed is read as itself, if both its numbers have at most 18 digits.
pub fn printed_ratios_are_read()
    ensures { (ratio : Fraction) → nat_abs ratio.num < 10 ^ 18 → 0 < ratio.den
        → ratio.den < 10 ^ 18 →
        fraction_written (ratio_text ratio) ≡ Some ratio }
{}

/// The digits after a point are a number over a power of ten, in units of the scale's last digit,
/// if all later digits are 0.
pub fn places_are_a_number()
    ensures { (scale : ℕ) (text : List ℕ) → IsTrue (list_all (λ c. c == 48) (drop scale text)) →
        places scale text * 10 ^ length text ≡ number text * 10 ^ scale }
{}
