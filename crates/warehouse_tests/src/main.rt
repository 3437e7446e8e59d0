//! Runs scripts of base files, batches and new dimensions over whole warehouses. After each step
//! the tree is compared, record by record, with one that is built from scratch, and each node that
//! the rows left after the deletions have too keeps its number. Some have the whole tree as a text.
//! Beside them before-images, range queries, which bytes are a snapshot, and pins: whatever batches
//! come after a pin, it answers points, ranges, icebergs and classes as a plain filter of the rows
//! that were there.
#![tactic(auto)]

ghost use Rattle.std.specs.Prelude.{◌<◌, ◌≡◌};

mod drawn_pins;
mod images;
mod range_fields;
mod ranges;
mod shops;
mod spellings;
mod steps;
mod tree_text;
mod worked;

use cell_core::Steps;
use std::alloc::Global;
use std::marker::Brand;
use std::sync::ledger::{Blank, Ledger};
use std::{fs, io};

// Prints whether a case is as it should be.
fn print_case(rt: &HostRuntime, case: &str, is_right: bool) -> io::Result<()> {
    let verdict = if is_right { "ok" } else { "wrong" };
    println!(rt; "{case} {verdict}")
}

// What a file has.
#[derive(Clone, Copy)]
enum Kind {
    Script,
    Ranges,
    /// Batches, with a pin after each.
    Pins,
}

// Whether the cases of a file are as they should be.
fn are_right<L: Ledger>(alloc: Global, kind: Kind, bytes: &[u8], steps: &mut Steps<L>) -> bool {
    match kind {
        Kind::Script => steps::is_right(alloc, bytes, steps),
        Kind::Ranges => ranges::are_right(alloc, bytes, steps),
        Kind::Pins => drawn_pins::is_right(alloc, bytes, steps),
    }
}

// Goes through the cases of a file.
fn print_file<L: Ledger>(
    rt: &HostRuntime,
    path: &str,
    name: &str,
    kind: Kind,
    steps: &mut Steps<L>,
) -> io::Result<()> {
    let bytes = fs::read(rt, path)?;
    let are_right = are_right(rt.alloc(), kind, &bytes, steps);
    drop(bytes);
    print_case(rt, name, are_right)
}

// Goes through the script of a name.
fn print_script<L: Ledger>(rt: &HostRuntime, name: &str, steps: &mut Steps<L>) -> io::Result<()> {
    let path = format!(in rt.alloc(); "scripts/{name}")?;
    let is_printed = print_file(rt, path.as_str(), name, Kind::Script, steps);
    drop(path);
    is_printed
}

fn print_each<L: Ledger>(rt: &HostRuntime, names: &str, steps: &mut Steps<L>) -> io::Result<()> {
    for name in names.lines() {
        print_script(rt, name, steps)?;
    }
    Ok(())
}

fn print_scripts<L: Ledger>(rt: &HostRuntime, steps: &mut Steps<L>) -> io::Result<()> {
    let names = fs::read_to_string(rt, "names")?;
    let are_printed = print_each(rt, names.as_str(), steps);
    drop(names);
    are_printed
}

fn print_cases<L: Ledger>(rt: &HostRuntime, steps: &mut Steps<L>) -> io::Result<()> {
    let alloc = rt.alloc();
    let cases = [
        ("before-images", images::are_right(alloc, steps)),
        ("numbers of the worked tree", worked::is_right(alloc, steps)),
        ("snapshots", spellings::are_right(alloc, steps)),
    ];
    for (case, is_right) in &cases {
        print_case(rt, *case, *is_right)?;
    }
    Ok(())
}

fn print_all<L: Ledger>(rt: &HostRuntime, blank: Blank) -> io::Result<()>
    requires name { blank.name ≡ L.name }
    requires parts { blank.parts ≡ L.parts }
    requires some { 0 < L.parts }
{
    let mut steps = Steps::<L>::start(blank);
    print_scripts(rt, &mut steps)?;
    print_file(rt, "ranges", "ranges", Kind::Ranges, &mut steps)?;
    print_cases(rt, &mut steps)?;
    print_file(rt, "pins-1", "pins-1", Kind::Pins, &mut steps)?;
    print_file(rt, "pins-2", "pins-2", Kind::Pins, &mut steps)
}

fn main(rt: HostRuntime) -> io::Result<()> {
    print_all::<Brand>(&rt, Blank::new(1))
}
