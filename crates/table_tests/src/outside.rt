// Files that are read whole, and sinks that are written to.
ghost use Rattle.std.specs.Prelude.{IfSome, IsSome, None, ◌≡◌};
ghost use Rattle.qc_io.specs.Memory.{after_read};

use cube_defs::MAX_FILE;
use qc_io::{
    Files, MemoryFiles, MemorySink, ReadRefused, RealFiles, RealSink, Sink, SureFiles, SureSink,
    WriteFailed, read_all, write_all,
};
use std::alloc::{AllocError, Global};
use std::{fs, io};

// How a reading ends, where it doesn't end for memory.
#[derive(Clone, Copy)]
enum End<'a> {
    Whole(&'a [u8]),
    Failed,
    TooLong,
}

fn is_whole(bytes: &[u8], end: End<'_>) -> bool {
    match end {
        End::Whole(want) => bytes == want,
        _ => false,
    }
}

// Whether the file is read with this end, at most so many bytes of it.
fn ends<F: Files>(alloc: Global, files: &mut F, name: &str, limit: usize, end: End<'_>) -> bool {
    if limit > MAX_FILE {
        return false;
    }
    match read_all(alloc, files, name, limit) {
        Ok(bytes) => {
            let is_whole = is_whole(&bytes, end);
            drop(bytes);
            is_whole
        }
        Err(ReadRefused::Failed) => matches!(end, End::Failed),
        Err(ReadRefused::TooLong) => matches!(end, End::TooLong),
        Err(ReadRefused::Memory) => false,
    }
}

// A file that is read with a limit, and how that ends.
type Reading = (&'static str, usize, End<'static>);

// Whether the readings end so, one after the other.
fn all_end<F: Files>(alloc: Global, files: &mut F, readings: &[Reading]) -> bool {
    'readings: for (name, limit, end) in readings {
        if !ends(alloc, files, *name, *limit, *end) {
            return false;
        }
    }
    true
}

// A file: its name, and its bytes.
type File<'a> = (&'a str, &'a [u8]);

// These files in memory, which give so many bytes a read. Of their calls those that are listed
// fail.
fn files_of(alloc: Global, fails: &[u64], piece: usize, given: &[File<'_>]) -> Option<MemoryFiles>
    ensures { IfSome result (λ files. files.store.open_name ≡ None) }
{
    let Ok(mut files) = MemoryFiles::new(alloc, fails, piece.max(1)) else {
        return None;
    };
    'given: for file in given {
        let Ok(()) = files.add(file.0, file.1) else {
            drop(files);
            return None;
        };
    }
    Some(files)
}

// Whether over these files the readings end so.
fn are_read(
    alloc: Global,
    fails: &[u64],
    piece: usize,
    given: &[File<'_>],
    readings: &[Reading],
) -> bool {
    let Some(mut files) = files_of(alloc, fails, piece, given) else {
        return false;
    };
    let all_end = all_end(alloc, &mut files, readings);
    drop(files);
    all_end
}

static TWO: [File<'static>; 2] = [("ten", b"0123456789"), ("empty", b"")];

static LIMITS: [Reading; 5] = [
    ("ten", 10, End::Whole(b"0123456789")),
    ("ten", 9, End::TooLong),
    ("ten", 0, End::TooLong),
    ("empty", 0, End::Whole(b"")),
    ("missing", 10, End::Failed),
];

static PIECES: [usize; 4] = [1, 3, 10, 100];

// A whole reading in pieces of three is one `open` and five `read`s, the last at the end. The call
// that fails is of the first reading or of the second, and the third has none.
static FIRST_FAILS: [Reading; 3] = [
    ("ten", 10, End::Failed),
    ("ten", 10, End::Whole(b"0123456789")),
    ("ten", 10, End::Whole(b"0123456789")),
];

static SECOND_FAILS: [Reading; 3] = [
    ("ten", 10, End::Whole(b"0123456789")),
    ("ten", 10, End::Failed),
    ("ten", 10, End::Whole(b"0123456789")),
];

fn fails_at(alloc: Global, call: u64) -> bool {
    let readings = if call < 6 {
        &FIRST_FAILS
    } else {
        &SECOND_FAILS
    };
    are_read(alloc, &[call], 3, &TWO, readings)
}

static SAME_NAME: [File<'static>; 3] = [("a", b"first"), ("b", b"other"), ("a", b"second one")];

static REPLACED: [Reading; 2] = [
    ("a", 100, End::Whole(b"second one")),
    ("b", 100, End::Whole(b"other")),
];

fn are_read_in_pieces(alloc: Global) -> bool {
    'pieces: for piece in &PIECES {
        if !are_read(alloc, &[], *piece, &TWO, &LIMITS) {
            return false;
        }
    }
    true
}

fn fail_at_each_call(alloc: Global) -> bool {
    'calls: for call in 0..8 {
        if !fails_at(alloc, call) {
            return false;
        }
    }
    true
}

fn many_bytes(alloc: Global) -> Result<Vec<u8>, AllocError> {
    let mut content = Vec::new(alloc);
    'bytes: for k in 0..200_000u32 {
        content.push((k % 251) as u8)?;
    }
    Ok(content)
}

// Whether a file is read in one piece, and refused where it is longer by a byte.
fn is_long_file(alloc: Global, content: &[u8]) -> bool {
    let Some(mut files) = files_of(alloc, &[], 1_000_000, &[("long", content)]) else {
        return false;
    };
    let is_read = ends(alloc, &mut files, "long", 200_000, End::Whole(content))
        && ends(alloc, &mut files, "long", 199_999, End::TooLong);
    drop(files);
    is_read
}

fn is_long_file_read(alloc: Global) -> bool {
    match many_bytes(alloc) {
        Ok(content) => is_long_file(alloc, &content),
        Err(_) => false,
    }
}

// Whether a read of the open file gives these bytes.
fn gives(files: &mut MemoryFiles, want: &[u8]) -> bool
    requires { IsSome files.old.store.current }
    ensures { files.new ≡ after_read files.old 8 }
{
    let mut buf = [0u8; 8];
    match files.read(&mut buf) {
        Ok(count) => &buf[..count] == want,
        Err(_) => false,
    }
}

// Whether a file may be added while another is open, which is read on.
fn adds_meanwhile(files: &mut MemoryFiles) -> bool
    requires { files.old.store.open_name ≡ None }
{
    if files.add("a", b"abcdef").is_err() || files.open("a").is_err() {
        return false;
    }
    let is_first = gives(files, b"abcd");
    if files.add("b", b"uvw").is_err() {
        return false;
    }
    is_first && gives(files, b"ef") && gives(files, b"")
}

fn may_be_added_meanwhile(alloc: Global) -> bool {
    let Ok(mut files) = MemoryFiles::new(alloc, &[], 4) else {
        return false;
    };
    let is_right = adds_meanwhile(&mut files);
    drop(files);
    is_right
}

static SURE: [Reading; 2] = [
    ("a", 3, End::Whole(b"abc")),
    ("missing", 0, End::Whole(b"")),
];

fn add_twice(files: &mut SureFiles) -> Result<(), AllocError>
    requires { files.old.open_name ≡ None }
{
    files.add("a", b"old")?;
    files.add("a", b"abc")
}

// Whether sure files have every name, and the last file of each.
fn has_every_name(alloc: Global) -> bool {
    let Ok(mut files) = SureFiles::new(alloc, 1) else {
        return false;
    };
    let are_right = add_twice(&mut files).is_ok() && all_end(alloc, &mut files, &SURE);
    drop(files);
    are_right
}

// Whether all is written, or the first so many bytes where there are.
fn is_written<S: Sink>(sink: &mut S, bytes: &[u8], stop: Option<usize>) -> bool {
    match write_all(sink, bytes) {
        Ok(()) => stop.is_none(),
        Err(WriteFailed { written }) => stop == Some(written),
    }
}

// Whether that is written, and the sink then has just these bytes.
fn takes(sink: &mut MemorySink, bytes: &[u8], stop: Option<usize>, all: &[u8]) -> bool {
    is_written(sink, bytes, stop) && sink.bytes() == all
}

// Whether a sink that fails at its second write takes what has room.
fn is_filled(sink: &mut MemorySink) -> bool {
    takes(sink, b"abc", Some(2), b"ab")
        && takes(sink, b"", None, b"ab")
        && takes(sink, b"cdefg", Some(3), b"abcde")
        && sink.write(b"h").is_err()
}

fn takes_what_has_room(alloc: Global) -> bool {
    let Ok(mut sink) = MemorySink::new(alloc, &[1], 2, 5) else {
        return false;
    };
    let is_filled = is_filled(&mut sink);
    drop(sink);
    is_filled
}

static SYSTEM: [Reading; 2] = [
    ("qc_io_ten", 10, End::Whole(b"0123456789")),
    ("qc_io_ten", 9, End::TooLong),
];

static GONE: [Reading; 1] = [("qc_io_ten", 10, End::Failed)];

fn is_read_and_gone(rt: &HostRuntime, files: &mut RealFiles<'_, HostRuntime>) -> io::Result<bool> {
    let is_read = all_end(rt.alloc(), files, &SYSTEM);
    fs::remove_file(rt, "qc_io_ten")?;
    Ok(is_read && all_end(rt.alloc(), files, &GONE))
}

/// Whether a file of the system is read, and failed once it is gone.
pub(crate) fn is_system_file_read(rt: &HostRuntime) -> io::Result<bool> {
    fs::write(rt, "qc_io_ten", b"0123456789".as_slice())?;
    let mut files = RealFiles::new(rt);
    let is_read = is_read_and_gone(rt, &mut files);
    drop(files);
    is_read
}

// Rust's writer into a slice takes no bytes once the slice is full.
fn is_slice_filled() -> bool {
    let mut room = [0u8; 5];
    let mut sink = RealSink::new(&mut room[..]);
    let is_cut = is_written(&mut sink, b"abc", None) && is_written(&mut sink, b"defg", Some(2));
    is_cut && room.as_slice() == b"abcde".as_slice()
}

/// Whether files in memory are read, and sinks written to.
pub(crate) fn are_right(alloc: Global) -> bool {
    are_read_in_pieces(alloc)
        && fail_at_each_call(alloc)
        && are_read(alloc, &[], 4, &SAME_NAME, &REPLACED)
        && is_long_file_read(alloc)
        && may_be_added_meanwhile(alloc)
        && has_every_name(alloc)
        && takes_what_has_room(alloc)
        && is_written(&mut SureSink::new(), b"abc", None)
        && is_slice_filled()
}
