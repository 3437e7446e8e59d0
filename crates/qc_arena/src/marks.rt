// Bits that tell of most numbers that they aren't in a list.
ghost use Rattle.std.specs.Prelude.{IfOk, length, if◌then◌else◌, true, ℕ, ◌<◌, ◌*◌, ◌≡◌, ◌≤◌};
ghost use Rattle.std.specs.List.{All};
ghost use Rattle.qc_arena.specs.Marks.{AreMarked, KeepsMarks, is_marked, place_in, share_bit};

use crate::Memory;
use crate::number_list::NumberList;
use std::alloc::Global;

/// A bit for each number, which some numbers share. The bits of the numbers of a list are set. So a
/// number whose bit isn't set isn't in the list.
#[derive(Drop)]
pub(crate) struct Marks {
    pub(crate) words: Vec<u64>,
}

// The word, of so many, that has the bit of a number.
fn word_of(words: usize, number: u32) -> usize
    requires { 0 < words }
    ensures place { result ≡ place_in words number }
    ensures within { result < words }
{
    (number / 64) as usize & (words - 1)
}

impl Marks {
    // At least eight bits for each of so many numbers. None is set.
    pub(crate) fn with_room(alloc: Global, numbers: usize) -> Result<Marks, Memory>
        ensures room { IfOk result (λ m. numbers < length m.words.items * 8) }
        ensures none { IfOk result (λ m. All (λ word. word ≡ 0) m.words.items) }
    {
        let mut words = Vec::new(alloc);
        words.resize((numbers / 8 + 1).next_power_of_two(), 0)?;
        Ok(Marks { words })
    }

    // Sets the bit of a number.
    pub(crate) fn add(&mut self, number: u32)
        requires { 0 < length self.old.words.items }
        ensures len { length self.new.words.items ≡ length self.old.words.items }
        ensures marked { (q : ℕ) → is_marked self.new.words.items q
            ≡ (if share_bit (length self.old.words.items) number q then true
            else is_marked self.old.words.items q) }
    {
        let word = word_of(self.words.len(), number);
        self.words[word] |= 1 << (number % 64);
    }

    // Whether a number may be in the list.
    pub(crate) fn may_have(&self, number: u32) -> bool
        requires { 0 < length self.now.words.items }
        ensures { result ≡ is_marked self.now.words.items number }
    {
        let word = word_of(self.words.len(), number);
        self.words[word] >> (number % 64) & 1 == 1
    }

    // Sets the bits of some numbers.
    pub(crate) fn add_all(&mut self, numbers: &[u32])
        requires { 0 < length self.old.words.items }
        ensures len { length self.new.words.items ≡ length self.old.words.items }
        ensures kept { KeepsMarks self.old.words.items self.new.words.items }
        ensures marked { AreMarked self.new.words.items numbers.now }
    {
        'numbers: for at in 0..numbers.len() {
            self.add(numbers[at]);
        }
    }

    // Sets the bits of the numbers of new nodes.
    pub(crate) fn add_listed(&mut self, numbers: &NumberList)
        requires { 0 < length self.old.words.items }
        ensures len { length self.new.words.items ≡ length self.old.words.items }
        ensures kept { KeepsMarks self.old.words.items self.new.words.items }
        ensures marked { AreMarked self.new.words.items numbers.now.items }
    {
        'numbers: for place in 0..numbers.len() {
            self.add(numbers.at(place));
        }
    }
}
