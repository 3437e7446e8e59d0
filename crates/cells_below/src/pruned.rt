// Minimal numbers: no number with one bit less is marked.
ghost use Rattle.std.specs.Prelude.{length, ◌<◌, ◌^◌, ◌≡◌, ◌≤◌};
ghost use Rattle.cells_below.specs.Marks.{is_least};

use crate::marks::Marks;
use crate::numbers::{flip_bit, is_bit_set};
use cube_defs::MAX_DIMS;

/// Whether no number with one bit less than m is marked. Numbers have d bits.
pub fn is_minimal(marks: &Marks, d: u32, m: u32) -> bool
    requires few { d ≤ MAX_DIMS }
    requires number { m < 2 ^ d }
    requires room { 2 ^ d ≤ length marks.now }
    ensures { result ≡ is_least marks.now d m }
{
    'bits: for k in 0..d {
        if is_bit_set(m, k) && marks.get(flip_bit(m, k)) {
            return false;
        }
    }
    true
}
