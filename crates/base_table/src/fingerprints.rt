// Numbers that equal tuples share, and few others.
ghost use Rattle.std.specs.Prelude.{length, ◌≡◌, ◌≤◌};
ghost use Rattle.base_table.specs.Store.{print_in};

use crate::lines::code_or_any;
use cell_core::{Cell, HashKeys};

// A prime less than 2^32. Of the multipliers less than it, two tuples share a fingerprint under at
// most as many as they have codes.
pub(crate) const PRIME: u64 = 4_294_967_291;

/// How the fingerprint of a tuple is made: its codes are the coefficients of a polynomial, taken at
/// the multiplier. Only the first codes count, so that a fingerprint stays when a dimension is
/// added.
#[derive(Clone, Copy)]
pub struct Fingerprinter {
    dims: u8,
    multiplier: u32,
}

impl Fingerprinter {
    /// Makes fingerprints of so many codes, with a multiplier that the keys determine.
    pub fn new(keys: HashKeys, dims: u8) -> Fingerprinter
        ensures { result.dims ≡ dims }
    {
        Fingerprinter {
            dims,
            multiplier: keys.number(),
        }
    }

    /// The fingerprint of a cell.
    pub fn of(&self, tuple: &Cell) -> u32
        requires { self.now.dims ≤ length tuple.now }
        ensures { result ≡ print_in self.now tuple.now }
    {
        let multiplier = u64::from(self.multiplier);
        let mut print: u64 = 0;
        'entries: for dim in 0..self.dims {
            print = (print * multiplier + u64::from(code_or_any(tuple.get(dim)))) % PRIME;
        }
        print as u32
    }
}
