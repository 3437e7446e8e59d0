// A run in a folder, beside what the folder says of it.

use crate::expected::Expected;
use crate::folder_files::FolderFiles;
use crate::runs::{Ended, Ran, run_over, sink};
use crate::spoken::Spoken;
use cell_core::HashKeys;
use qc_io::Files;
use std::alloc::{AllocError, Global};
use std::io;

// The number of the first line that differs.
fn first_difference(got: &[u8], want: &[u8]) -> Option<usize> {
    if got == want {
        return None;
    }
    let mut line = 1usize;
    for (byte, other) in got.iter().zip(want.iter()) {
        if byte != other {
            break;
        }
        if *byte == b'\n' {
            line = line.wrapping_add(1);
        }
    }
    Some(line)
}

// Room for what is to be written, and for some more.
fn room_for(bytes: &[u8]) -> usize {
    bytes.len().saturating_add(4096)
}

// Whether the words run a script over a schema.
fn is_script(words: &[String]) -> bool {
    words.first().is_some_and(|word| word.as_str() == "run")
}

// What there is to say of how a run ended.
fn said_of_end(alloc: Global, ended: Ended, expected: &Expected) -> Result<String, AllocError> {
    let Ended {
        status,
        skipped,
        ..
    } = ended;
    if usize::from(status) != expected.status {
        return format!(in alloc; "ended with status {status}");
    }
    if skipped > 0 {
        return format!(in alloc; "skipped {skipped} lines");
    }
    // A script leaves a warehouse at status 0 alone.
    if is_script(&expected.words) && ended.has_end != (status == 0) {
        return String::from_str(alloc, "ended with another warehouse");
    }
    String::from_str(alloc, "ok")
}

// What there is to say of a run, beside what is expected.
fn said_of(alloc: Global, ran: &Ran, expected: &Expected) -> Result<String, AllocError> {
    if let Some(record) = first_difference(ran.out.bytes(), &expected.out) {
        return format!(in alloc; "differs at record {record}");
    }
    if let Some(line) = first_difference(ran.err.bytes(), &expected.err) {
        return format!(in alloc; "differs at line {line} of its messages");
    }
    said_of_end(alloc, ran.ended, expected)
}

// Runs with the words of a folder, over files and into sinks of its own.
fn run_folder<F: Files>(
    alloc: Global,
    keys: HashKeys,
    files: &mut F,
    expected: &Expected,
) -> Option<Ran> {
    let room = expected.room.unwrap_or(room_for(&expected.out));
    let out = sink(alloc, &[], 4096, room)?;
    let Some(err) = sink(alloc, &[], 4096, room_for(&expected.err)) else {
        drop(out);
        return None;
    };
    Some(run_over(alloc, keys, &expected.words, files, out, err))
}

// Runs in a folder under hash keys, and says whether that is as expected, or what isn't.
fn run_in(
    rt: &HostRuntime,
    keys: HashKeys,
    folder: &str,
    expected: &Expected,
) -> Result<String, AllocError> {
    let alloc = rt.alloc();
    let mut files = FolderFiles::new(rt, alloc, folder, &expected.padded);
    let ran = run_folder(alloc, keys, &mut files, expected);
    drop(files);
    let Some(ran) = ran else {
        return String::from_str(alloc, "found no memory for its sinks");
    };
    let said = said_of(alloc, &ran, expected);
    drop(ran);
    said
}

// Gathers what a run is to write, and runs.
fn judge_run(
    rt: &HostRuntime,
    keys: HashKeys,
    folder: &str,
    expected: &Expected,
    spoken: &mut Spoken,
) -> Result<String, AllocError> {
    spoken.push(&expected.out, &expected.err)?;
    run_in(rt, keys, folder, expected)
}

// The same with what the folder says.
fn judge_folder(rt: &HostRuntime, folder: &str, spoken: &mut Spoken) -> io::Result<String> {
    let keys = HashKeys::draw(rt)?;
    let expected = Expected::read(rt, folder)?;
    let said = judge_run(rt, keys, folder, &expected, spoken);
    drop(expected);
    Ok(said?)
}

/// Runs `qcube` in a folder of `runs`, under hash keys that are drawn for it, and gathers what it
/// is to write. Says whether that is as expected, or what isn't.
pub fn judge(rt: &HostRuntime, name: &str, spoken: &mut Spoken) -> io::Result<String> {
    let folder = format!(in rt.alloc(); "runs/{name}")?;
    let said = judge_folder(rt, folder.as_str(), spoken);
    drop(folder);
    said
}
