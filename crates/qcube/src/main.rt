//! The program `qcube`. It takes its words from the command line, works on real files and streams,
//! and exits with the run's status.
#![tactic(auto)]

use cell_core::HashKeys;
use qc_io::{RealFiles, RealSink};
use qc_session::run_to_status;
use std::alloc::AllocError;
use std::env;
use std::io::ErrorKind;
use std::process::ExitCode;

const OUT_OF_MEMORY: u8 = 5;

// The words after the program's name. None if any of them is no valid text.
fn words_of(rt: &HostRuntime) -> Result<Vec<String>, AllocError> {
    let mut words = Vec::new(rt.alloc());
    let args = match env::args(rt) {
        Ok(args) => args,
        Err(error) if error.kind() == ErrorKind::OutOfMemory => return Err(AllocError),
        Err(_) => return Ok(words),
    };
    for word in args.skip(1) {
        words.push(word)?;
    }
    Ok(words)
}

// The hash keys of this run. No answer depends on them, so a system without random bytes gives the
// fixed ones.
fn keys_of(rt: &HostRuntime) -> HashKeys {
    match HashKeys::draw(rt) {
        Ok(keys) => keys,
        Err(_) => HashKeys::fixed(),
    }
}

fn main(rt: HostRuntime) -> ExitCode {
    let Ok(words) = words_of(&rt) else {
        return ExitCode::from(OUT_OF_MEMORY);
    };
    let mut files = RealFiles::new(&rt);
    let mut out = RealSink::new(rt.stdout());
    let mut err = RealSink::new(rt.stderr());
    let keys = keys_of(&rt);
    ExitCode::from(run_to_status(rt.alloc(), keys, &words, &mut files, &mut out, &mut err))
}
