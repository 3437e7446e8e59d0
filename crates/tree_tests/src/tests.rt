ghost use Rattle.std.specs.Prelude.{◌<◌, ◌≡◌};

use crate::{acts, batches, images, indexes, one_by_one, stopped, together, ways, widening};
use cell_core::Steps;
use std::alloc::Global;
use std::marker::Brand;
use std::sync::ledger::{Blank, Ledger};
use std::test::Fail;

fn each<L: Ledger>(alloc: Global, steps: &mut Steps<L>) -> [bool; 8] {
    [
        acts::are_right(alloc, steps),
        batches::are_right(alloc, steps),
        images::are_looked_up(alloc, steps),
        one_by_one::are_right(alloc, steps),
        stopped::are_right(alloc, steps),
        together::are_right(alloc, steps),
        ways::is_right(alloc, steps),
        widening::is_right(alloc, steps),
    ]
}

// Which of the modules are right that go over a tree.
fn over_trees<L: Ledger>(alloc: Global, blank: Blank) -> [bool; 8]
    requires name { blank.name ≡ L.name }
    requires parts { blank.parts ≡ L.parts }
    requires some { 0 < L.parts }
{
    let mut steps = Steps::<L>::start(blank);
    each(alloc, &mut steps)
}

#[test]
fn all_cases(rt: HostRuntime) -> Result<(), Fail> {
    let alloc = rt.alloc();
    assert!(rt; indexes::are_right(alloc));
    assert!(rt; over_trees::<Brand>(alloc, Blank::new(1)) == [true; 8]);
    Ok(())
}
