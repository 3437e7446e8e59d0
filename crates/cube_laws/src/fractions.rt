//! Fractions in lowest terms, as means are.
ghost use Rattle.std.specs.Prelude.{nat_abs, pos, ℕ, ℤ, ◌*ℤ◌, ◌<◌, ◌≡◌};
ghost use Rattle.cube_defs.specs.Rows.{gcd, lowest_terms};
ghost use Rattle.std.specs.Int.{IsGcd};

/// Euclid's algorithm, with as many steps as it needs, gives the greatest common divisor (Euclid,
/// Elements, book VII).
pub fn euclid_gives_the_greatest_common_divisor()
    ensures { (a b : ℕ) → IsGcd a b (gcd a b) }
{}

/// A fraction in lowest terms has the same value and a positive denominator. Its terms have no
/// common divisor but 1.
pub fn lowest_terms_are_lowest()
    ensures same_value { (a : ℤ) (b : ℕ) → 0 < b →
        (lowest_terms a b).num *ℤ pos b ≡ a *ℤ pos (lowest_terms a b).den }
    ensures positive { (a : ℤ) (b : ℕ) → 0 < b → 0 < (lowest_terms a b).den }
    ensures lowest { (a : ℤ) (b : ℕ) → 0 < b →
        IsGcd (nat_abs (lowest_terms a b).num) (lowest_terms a b).den 1 }
{}
