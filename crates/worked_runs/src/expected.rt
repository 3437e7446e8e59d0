// What a folder says of its run: the words, and how it ends.

use crate::spoken::read_lines;
use std::alloc::{AllocError, Global};
use std::io::ErrorKind;
use std::{fs, io, str};

/// A file whose last byte stands again and again up to this length.
#[derive(Drop)]
pub struct Padded {
    name: String,
    length: usize,
}

impl Padded {
    /// The length of the file of a name, where it is this one, and else 0.
    pub fn length_of(&self, name: &str) -> usize {
        if self.name.as_str() == name {
            self.length
        } else {
            0
        }
    }

    // The file that is named in the first of these lines, with the length in the second.
    fn of(alloc: Global, bytes: &[u8]) -> Result<Padded, AllocError> {
        let text = str::from_utf8(bytes).unwrap_or("");
        let (name, length) = text.split_once('\n').unwrap_or(("", ""));
        let length = length.trim_end().parse::<usize>().unwrap_or(0);
        let name = String::from_str(alloc, name)?;
        Ok(Padded { name, length })
    }

    // The file that a folder names, and one without a name where it names none.
    fn read(rt: &HostRuntime, folder: &str) -> io::Result<Padded> {
        let bytes = bytes_of(rt, folder, "padded")?;
        let padded = Padded::of(rt.alloc(), &bytes);
        drop(bytes);
        Ok(padded?)
    }
}

/// The words of a run, its status, and what out and err take.
#[derive(Drop)]
pub struct Expected {
    pub words: Vec<String>,
    pub status: usize,
    pub out: Vec<u8>,
    pub err: Vec<u8>,
    /// How many bytes out has room for, where that isn't ample.
    pub room: Option<usize>,
    pub padded: Padded,
}

// The bytes of a file, and none where there is no such file.
fn bytes_at(rt: &HostRuntime, path: &str) -> io::Result<Vec<u8>> {
    match fs::read(rt, path) {
        Ok(bytes) => Ok(bytes),
        Err(error) if error.kind() == ErrorKind::NotFound => Ok(Vec::new(rt.alloc())),
        Err(error) => Err(error),
    }
}

// The bytes of a file of the folder.
fn bytes_of(rt: &HostRuntime, folder: &str, name: &str) -> io::Result<Vec<u8>> {
    let path = format!(in rt.alloc(); "{folder}/{name}")?;
    let bytes = bytes_at(rt, path.as_str());
    drop(path);
    bytes
}

fn number_of(bytes: &[u8]) -> Option<usize> {
    str::from_utf8(bytes).ok()?.trim_end().parse::<usize>().ok()
}

// The number in a file of the folder, where there is one.
fn number_in(rt: &HostRuntime, folder: &str, name: &str) -> io::Result<Option<usize>> {
    let bytes = bytes_of(rt, folder, name)?;
    let number = number_of(&bytes);
    drop(bytes);
    Ok(number)
}

// The words in the file of the folder.
fn words_in(rt: &HostRuntime, folder: &str) -> io::Result<Vec<String>> {
    let path = format!(in rt.alloc(); "{folder}/args")?;
    let words = read_lines(rt, path.as_str());
    drop(path);
    words
}

impl Expected {
    // Reads what is written in the folder.
    fn fill(&mut self, rt: &HostRuntime, folder: &str) -> io::Result<()> {
        self.status = number_in(rt, folder, "status")?.unwrap_or(0);
        self.room = number_in(rt, folder, "room")?;
        self.words = words_in(rt, folder)?;
        self.out = bytes_of(rt, folder, "stdout")?;
        self.err = bytes_of(rt, folder, "stderr")?;
        Ok(())
    }

    pub fn read(rt: &HostRuntime, folder: &str) -> io::Result<Expected> {
        let alloc = rt.alloc();
        let padded = Padded::read(rt, folder)?;
        let mut expected = Expected {
            words: Vec::new(alloc),
            status: 0,
            out: Vec::new(alloc),
            err: Vec::new(alloc),
            room: None,
            padded,
        };
        match expected.fill(rt, folder) {
            Ok(()) => Ok(expected),
            Err(error) => {
                drop(expected);
                Err(error)
            }
        }
    }
}
