// The files of a folder, by their names in it.
ghost use Rattle.std.specs.Prelude.{None, false, is_some, length, ◌≡◌, ◌≤◌};
ghost use Rattle.std.proofs.Common.{rules};
ghost use Rattle.qc_io.specs.Real.{no_cursor};

use crate::expected::Padded;
use qc_io::{Failed, Files};
use std::alloc::{AllocError, Global};
use std::fs;
use std::io::Read;

/// Files of the system below a folder. One of them may be padded.
#[derive(Drop)]
pub struct FolderFiles<'a, R: std::rt::Files> {
    rt: &'a R,
    alloc: Global,
    folder: &'a str,
    padded: &'a Padded,
    file: Option<R::File>,
    /// How many bytes the open file has that weren't read.
    rest: usize,
    /// The last byte that was read.
    last: u8,
    faults: u64,
}

impl<'a, R: std::rt::Files> FolderFiles<'a, R> {
    pub fn new(rt: &'a R, alloc: Global, folder: &'a str, padded: &'a Padded) -> Self {
        FolderFiles {
            rt,
            alloc,
            folder,
            padded,
            file: None,
            rest: 0,
            last: 0,
            faults: 0,
        }
    }

    fn path_of(&self, name: &str) -> Result<String, AllocError> {
        format!(in self.alloc; "{}/{name}", self.folder)
    }

    // The file of a name, where it can be opened.
    fn opened(&self, name: &str) -> Option<R::File> {
        let path = self.path_of(name).ok()?;
        fs::open(self.rt, path.as_str()).ok()
    }

    // Gives the last byte again and again, and answers how often.
    fn pad(&mut self, buf: &mut [u8]) -> usize
        ensures result { result ≤ length buf.new }
        ensures file { self.new.file ≡ self.old.file }
        ensures faults { self.new.faults ≡ self.old.faults }
    {
        let count = buf.len().min(self.rest);
        buf[..count].fill(self.last);
        self.rest -= count;
        count
    }
}

impl<'a, R: std::rt::Files> Files for FolderFiles<'a, R> {
    ghost faults = { λ s. s.faults };

    ghost is_open = { λ s. is_some s.file };

    ghost steady = { λ _. false };

    ghost told = { λ _. None };

    ghost cursor = { λ _. no_cursor };

    ghost steady_has_contents = { Prim.search rules };

    ghost contents_give_cursor = { Prim.search rules };

    fn open(&mut self, name: &str) -> Result<(), Failed> {
        self.file = self.opened(name);
        self.rest = self.padded.length_of(name);
        if self.file.is_none() {
            self.faults = self.faults.saturating_add(1);
            return Err(Failed);
        }
        Ok(())
    }

    fn read(&mut self, buf: &mut [u8]) -> Result<usize, Failed> {
        let Some(file) = &mut self.file else {
            unreachable!()
        };
        match file.read(buf) {
            Ok(0) => Ok(self.pad(buf)),
            Ok(count) => {
                self.last = buf[count - 1];
                self.rest = self.rest.saturating_sub(count);
                Ok(count)
            }
            Err(_) => {
                self.faults = self.faults.saturating_add(1);
                Err(Failed)
            }
        }
    }
}
