// Which calls shall fail, and how many have failed.
ghost use Rattle.std.specs.Prelude.{◌≡◌, ◌≤◌, IfOk, IsTrue, false};
ghost use Rattle.qc_io.specs.Outside.{Rose};
ghost use Rattle.qc_io.specs.Memory.{Calls, next_calls, next_count, first_call, is_listed, none_to_come};

use crate::outside::{Failed, Memory};
use std::alloc::Global;
use std::marker::Model;

/// The numbers of the calls that shall fail, the number of the next call, and the count of faults.
#[derive(Drop)]
pub(crate) struct CallList {
    fails: Vec<u64>,
    number: u64,
    faults: u64,
}

impl Model for CallList {
    ghost use Rattle.qc_io.specs.Memory.{Calls};

    ghost Value = { Calls };

    ghost view = { λ s. record { fails = s.fails.items; number = s.number; faults = s.faults } };
}

impl CallList {
    pub(crate) fn new(alloc: Global, fails: &[u64]) -> Result<Self, Memory>
        ensures { IfOk result (λ s. s ≡ first_call fails.now) }
    {
        Ok(CallList {
            fails: Vec::from_slice(alloc, fails)?,
            number: 0,
            faults: 0,
        })
    }

    /// Counts a call, and says whether it shall fail.
    #[tactic(auto, using(crate::proofs::Counts::counts))]
    pub(crate) fn next_fails(&mut self) -> bool
        ensures listed { result ≡ is_listed self.old }
        ensures after { self.new ≡ next_calls false self.old }
        ensures steady { IsTrue (none_to_come self.old) → IsTrue (none_to_come self.new) }
        ensures free { IsTrue (none_to_come self.old) → result ≡ false }
    {
        let number = self.number;
        self.number = self.number.saturating_add(1);
        self.fails.contains(&number)
    }

    /// Counts a fault.
    pub(crate) fn fail(&mut self) -> Failed
        ensures after { self.new ≡ record self.old { faults = next_count self.old.faults } }
        ensures rose { Rose self.old.faults self.new.faults }
        ensures later { self.old.faults ≤ self.new.faults }
    {
        self.faults = self.faults.saturating_add(1);
        Failed
    }
}
