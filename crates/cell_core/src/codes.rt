// The work on the entries of a cell, each stored as a code.
ghost use Rattle.std.specs.Prelude.{All, IfSome, ◌≡◌, ◌<◌, ◌≤◌, IsTrue, length, nat_eq};
ghost use Rattle.cell_core.specs.Codes.{entries_of, entry_of, is_kept};
ghost use Rattle.cell_core.specs.Entry.{IsSmall, value_in};
ghost use Rattle.cube_defs.specs.Cell as defs;

use crate::{ANY, Entry};
use cube_defs::MAX_DIMS;

pub(crate) fn stored_code(entry: Entry) -> u32
    requires { IsSmall entry }
    ensures value { entry_of result ≡ value_in entry }
    ensures kept { IsTrue (is_kept result) }
{
    match entry {
        Entry::Any => ANY,
        Entry::Is(code) => code,
    }
}

pub(crate) fn leq(c: &[u32], d: &[u32]) -> bool
    requires { length c.now ≡ length d.now }
    ensures { result ≡ defs.leq nat_eq (entries_of c.now) (entries_of d.now) }
{
    for i in 0..c.len() {
        if c[i] != ANY && c[i] != d[i] {
            return false;
        }
    }
    true
}

pub(crate) fn meet_into(c: &mut [u32], d: &[u32])
    requires { length c.old ≡ length d.now }
    ensures meet { entries_of c.new ≡ defs.meet nat_eq (entries_of c.old) (entries_of d.now) }
    ensures kept { All (λ code. IsTrue (is_kept code)) c.old
        → All (λ code. IsTrue (is_kept code)) c.new }
{
    for i in 0..c.len() {
        if c[i] != d[i] {
            c[i] = ANY;
        }
    }
}

pub(crate) fn last(c: &[u32]) -> Option<usize>
    ensures last { result ≡ defs.last (entries_of c.now) }
    ensures within { IfSome result (λ i. i < length c.now) }
{
    for i in (0..c.len()).rev() {
        if c[i] != ANY {
            return Some(i);
        }
    }
    None
}

pub(crate) fn upto(c: &mut [u32], j: usize)
    requires { j < length c.old }
    ensures upto { entries_of c.new ≡ defs.upto (entries_of c.old) j }
    ensures kept { All (λ code. IsTrue (is_kept code)) c.old
        → All (λ code. IsTrue (is_kept code)) c.new }
{
    for i in j + 1..c.len() {
        c[i] = ANY;
    }
}

pub(crate) fn mask_of(c: &[u32]) -> u16
    requires { length c.now ≤ MAX_DIMS }
    ensures { result ≡ defs.mask (entries_of c.now) }
{
    let mut mask = 0;
    for i in (0..c.len()).rev() {
        mask *= 2;
        if c[i] != ANY {
            mask += 1;
        }
    }
    mask
}
