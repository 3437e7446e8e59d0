// The numbers by which keys are sorted into buckets.
ghost use Rattle.std.specs.Prelude.{IsTrue, ℕ, ◌<◌, ◌≡◌};
ghost use Rattle.base_table.specs.Last.{id_number, number_step};
ghost use Rattle.std.proofs.Common.{ap};
ghost use Rattle.std.proofs.lemmas.Bool.{eqb-true};

use crate::fingerprints::PRIME;

/// So many ids in a row have numbers in a row, so their buckets are neighbours.
const NEIGHBOURS: u32 = 16;

/// A key that has a number under each multiplier. Equal keys have equal numbers.
pub trait Numbered: Eq {
    ghost number: { ℕ → Self → ℕ };

    fn number(&self, multiplier: u32) -> u32
        ensures { result ≡ number multiplier self.now };

    ghost respects_eq: { (m : ℕ) (x y : Self) → IsTrue (Self.eq x y) → number m x ≡ number m y };
}

/// The number of a fingerprint is the fingerprint, since a drawn multiplier made it.
impl Numbered for u32 {
    ghost number = { λ _ key. key };

    ghost respects_eq = { λ _ x y equal. eqb-true x y equal };

    fn number(&self, _multiplier: u32) -> u32 {
        *self
    }
}

// One more coefficient of a polynomial at the multiplier.
fn step(number: u64, multiplier: u32, coefficient: u32) -> u64
    requires { number < PRIME }
    ensures step { result ≡ number_step number multiplier coefficient }
    ensures small { result < PRIME }
{
    (number * u64::from(multiplier) + u64::from(coefficient)) % PRIME
}

/// The number of an id is a polynomial at the multiplier. Its coefficients are the upper half of
/// the id, and the lower half divided by 16 and modulo 16. So ids that share a bucket can't be
/// chosen without the multiplier. No contract says so.
impl Numbered for u64 {
    ghost number = { id_number };

    ghost respects_eq = { λ m x y equal. ap (id_number m) (eqb-true x y equal) };

    fn number(&self, multiplier: u32) -> u32 {
        let lower = (*self % 4_294_967_296) as u32;
        let upper = step(0, multiplier, (*self / 4_294_967_296) as u32);
        let both = step(upper, multiplier, lower / NEIGHBOURS);
        step(both, multiplier, lower % NEIGHBOURS) as u32
    }
}
