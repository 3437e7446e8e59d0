//! Runs `qcube` in each folder of `runs`, and compares its status and what it writes with what the
//! folder says. Then it makes the runs that no folder can show: over files and sinks that fail.
#![tactic(auto)]

mod expected;
mod failing;
mod folder_files;
mod forms;
mod long_files;
mod runs;
mod spoken;
mod verdict;

use spoken::{Spoken, read_lines};
use std::alloc::Global;
use std::fs::ReadDir;
use std::{fs, io};
use verdict::judge;

fn push_names(alloc: Global, names: &mut Vec<String>, entries: ReadDir) -> io::Result<()> {
    for entry in entries {
        names.push(String::from_str(alloc, entry?.file_name())?)?;
    }
    Ok(names.sort()?)
}

// Runs in a folder, and prints what came of it.
fn judge_one(rt: &HostRuntime, name: &str, spoken: &mut Spoken) -> io::Result<()> {
    let verdict = judge(rt, name, spoken)?;
    let is_printed = println!(rt; "{name} {}", verdict.as_str());
    drop(verdict);
    is_printed
}

fn judge_each(rt: &HostRuntime, names: &[String], spoken: &mut Spoken) -> io::Result<()> {
    for name in names {
        judge_one(rt, name.as_str(), spoken)?;
    }
    Ok(())
}

// Runs in each folder, in the order of the names.
fn judge_all(rt: &HostRuntime, spoken: &mut Spoken) -> io::Result<()> {
    let entries = fs::read_dir(rt, "runs")?;
    let mut names = Vec::new(rt.alloc());
    let are_judged = match push_names(rt.alloc(), &mut names, entries) {
        Ok(()) => judge_each(rt, &names, spoken),
        Err(error) => Err(error),
    };
    drop(names);
    are_judged
}

fn print_unspoken(rt: &HostRuntime, words: &[String], spoken: &Spoken) -> io::Result<()> {
    for word in words {
        if !spoken.has_refusal(word.as_str()) {
            println!(rt; "no folder is refused with {}", word.as_str())?;
        }
    }
    Ok(())
}

// Prints the words of a list that no folder is refused with.
fn print_refusals(rt: &HostRuntime, spoken: &Spoken) -> io::Result<()> {
    let words = read_lines(rt, "refusals")?;
    let are_printed = print_unspoken(rt, &words, spoken);
    drop(words);
    are_printed
}

fn print_missing(rt: &HostRuntime, ends: &[String], spoken: &Spoken) -> io::Result<()> {
    for end in ends {
        if !spoken.has_message(end.as_str()) {
            println!(rt; "no folder has a message that ends with {}", end.as_str())?;
        }
    }
    Ok(())
}

// Prints the ends of messages of a list that no folder has.
fn print_messages(rt: &HostRuntime, spoken: &Spoken) -> io::Result<()> {
    let ends = read_lines(rt, "messages")?;
    let are_printed = print_missing(rt, &ends, spoken);
    drop(ends);
    are_printed
}

fn print_folders(rt: &HostRuntime, spoken: &mut Spoken) -> io::Result<()> {
    judge_all(rt, spoken)?;
    print_refusals(rt, spoken)?;
    print_messages(rt, spoken)
}

// Prints whether a case is as it should be.
fn print_case(rt: &HostRuntime, case: &str, is_right: bool) -> io::Result<()> {
    let verdict = if is_right { "ok" } else { "wrong" };
    println!(rt; "{case} {verdict}")
}

fn print_failing(rt: &HostRuntime, alloc: Global) -> io::Result<()> {
    print_case(
        rt,
        "each call of the files fails",
        failing::stops_at_each_call(alloc),
    )?;
    print_case(rt, "each write fails", failing::stops_at_each_write(alloc))?;
    print_case(
        rt,
        "the first message fails",
        failing::stops_without_a_message(alloc),
    )?;
    print_case(rt, "nothing fails", failing::never_fails(alloc))
}

fn main(rt: HostRuntime) -> io::Result<()> {
    long_files::write(&rt)?;
    let mut spoken = Spoken::new(rt.alloc());
    let are_printed = print_folders(&rt, &mut spoken);
    drop(spoken);
    are_printed?;
    print_failing(&rt, rt.alloc())
}
