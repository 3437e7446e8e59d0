// Drawn batches, with a pin after each.

mod answers;
mod iceberg_answers;
mod icebergs;
mod lines;
mod pins;
mod ranges;
mod rows;

use crate::drawn_pins::answers::Asked;
use crate::drawn_pins::pins::{is_kept, opened, pin, refuses_and_tries, takes, unpins};
use cell_core::Steps;
use pinned_view::{PinRefused, Pinned};
use std::alloc::Global;
use std::str;
use std::sync::ledger::Ledger;

// The pins that are let go: one in the middle, and the oldest.
const MIDDLE: u32 = 7;

const OLDEST: u32 = 0;

// Whether a batch is taken, and the rows after it are pinned.
fn grows<L: Ledger>(
    alloc: Global,
    pinned: &mut Pinned,
    text: &str,
    batch: u32,
    steps: &mut Steps<L>,
) -> bool {
    takes(pinned, text, batch, steps) && matches!(pin(alloc, pinned, batch), Some(Ok(())))
}

// Whether 16 batches are taken, with a pin after each.
fn grows_whole<L: Ledger>(
    alloc: Global,
    pinned: &mut Pinned,
    text: &str,
    steps: &mut Steps<L>,
) -> bool {
    'batches: for batch in 0..16 {
        if !grows(alloc, pinned, text, batch, steps) {
            return false;
        }
    }
    true
}

// What is asked of the pins of the batches before one, but for those that are gone.
#[derive(Clone, Copy)]
struct Asking<'a> {
    asked: Asked,
    end: u32,
    gone: &'a [u32],
}

// Whether each of these pins answers as the rows do that were there after its batch.
fn are_kept<L: Ledger>(
    alloc: Global,
    pinned: &Pinned,
    text: &str,
    asking: Asking<'_>,
    steps: &mut Steps<L>,
) -> bool {
    let Asking { asked, end, gone } = asking;
    'batches: for batch in 0..end {
        if !gone.contains(&batch) && !is_kept(alloc, pinned, asked, text, batch, steps) {
            return false;
        }
    }
    true
}

// Whether no more is pinned.
fn is_full(alloc: Global, pinned: &mut Pinned) -> bool {
    matches!(pin(alloc, pinned, 16), Some(Err(PinRefused::AllPinned)))
        && matches!(pin(alloc, pinned, 5), Some(Err(PinRefused::NameTaken)))
}

// Whether two pins are let go, once each.
fn lets_go(alloc: Global, pinned: &mut Pinned) -> bool {
    unpins(alloc, pinned, MIDDLE) && unpins(alloc, pinned, OLDEST) && !unpins(alloc, pinned, MIDDLE)
}

// Whether the pins are left by a 17th, by a batch that is refused and by one that is tried.
fn is_left<L: Ledger>(
    alloc: Global,
    pinned: &mut Pinned,
    text: &str,
    steps: &mut Steps<L>,
) -> bool {
    let asking = Asking {
        asked: Asked::Points,
        end: 16,
        gone: &[],
    };
    is_full(alloc, pinned)
        && refuses_and_tries(pinned, steps)
        && are_kept(alloc, pinned, text, asking, steps)
}

// Whether two pins are let go, and the others are left by that, and by a further batch with its
// pin.
fn goes_on<L: Ledger>(
    alloc: Global,
    pinned: &mut Pinned,
    text: &str,
    steps: &mut Steps<L>,
) -> bool {
    let gone = [MIDDLE, OLDEST];
    let before = Asking {
        asked: Asked::Points,
        end: 16,
        gone: &gone,
    };
    let after = Asking {
        asked: Asked::All,
        end: 17,
        gone: &gone,
    };
    lets_go(alloc, pinned)
        && are_kept(alloc, pinned, text, before, steps)
        && grows(alloc, pinned, text, 16, steps)
        && are_kept(alloc, pinned, text, after, steps)
}

// All of it, with a warehouse that has neither rows nor pins.
fn script<L: Ledger>(alloc: Global, bytes: &[u8], steps: &mut Steps<L>) -> Option<bool> {
    let text = str::from_utf8(bytes).ok()?;
    let asking = Asking {
        asked: Asked::All,
        end: 16,
        gone: &[],
    };
    let mut pinned = opened(alloc)?;
    let is_right = grows_whole(alloc, &mut pinned, text, steps)
        && are_kept(alloc, &pinned, text, asking, steps)
        && is_left(alloc, &mut pinned, text, steps)
        && goes_on(alloc, &mut pinned, text, steps);
    pinned.discard();
    Some(is_right)
}

/// Whether the pins answer as the rows that were there.
pub fn is_right<L: Ledger>(alloc: Global, bytes: &[u8], steps: &mut Steps<L>) -> bool {
    script(alloc, bytes, steps) == Some(true)
}
