// Marks on numbers, one bit each.
ghost use Rattle.std.specs.Prelude.{IfOk, false, length, slice_set, true, ℕ, ◌<◌, ◌≡◌, ◌≤◌};
ghost use Rattle.cells_below.specs.Marks.{is_marked};

use crate::Memory;
use std::alloc::Global;
use std::marker::Model;

/// Whether each number is marked, counted from 0.
#[derive(Drop)]
pub struct Marks {
    words: Vec<u64>,
}

impl Model for Marks {
    ghost use Rattle.std.specs.Prelude.{Bool, List};
    ghost use Rattle.cells_below.specs.Marks.{bits_of};

    ghost Value = { List Bool };

    ghost view = { λ m. bits_of m.words.items };
}

impl Marks {
    /// Room for so many numbers, counted from 0. None is marked.
    pub fn new(alloc: Global, count: u32) -> Result<Marks, Memory>
        ensures room { IfOk result (λ marks. count ≤ length marks) }
        ensures none { IfOk result (λ marks. (m : ℕ) → is_marked marks m ≡ false) }
    {
        let words = vec![in alloc; 0; count as usize / 64 + 1]?;
        Ok(Marks { words })
    }

    pub fn get(&self, m: u32) -> bool
        requires { m < length self.now }
        ensures { result ≡ is_marked self.now m }
    {
        (self.words[m as usize / 64] >> (m % 64)) & 1 == 1
    }

    /// Marks a number.
    pub fn set(&mut self, m: u32)
        requires { m < length self.old }
        ensures { self.new ≡ slice_set self.old m true }
    {
        self.words[m as usize / 64] |= 1 << (m % 64);
    }
}
