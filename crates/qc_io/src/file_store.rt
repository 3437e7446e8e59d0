// Files in memory that never fail.
ghost use Rattle.std.specs.Prelude.{◌≡◌, ◌≢◌, ◌≤◌, ◌<◌, Some, IsSome, IfSome, OnOk, OnErr, is_some, length, map, position, string_bytes};
ghost use Rattle.std.specs.Str.{bytes_eq};
ghost use Rattle.qc_io.specs.Outside.{ReadsPrefix, bytes_left};
ghost use Rattle.qc_io.specs.Memory.{Store, adding, closed_store, empty_store, lookup, opened_store, read_count, read_store, sure_store};
ghost use Rattle.qc_io.specs.StoreEntries.{Finds, entry_of};

use crate::outside::Memory;
use std::alloc::Global;
use std::marker::Model;

#[derive(Drop)]
struct Named {
    name: String,
    bytes: Vec<u8>,
}

#[derive(Clone, Copy, Drop)]
enum Opened {
    Nothing,
    Empty,
    At(usize),
}

/// Named bytes, one of them open at a place.
#[derive(Drop)]
pub(crate) struct FileStore {
    alloc: Global,
    files: Vec<Named>,
    opened: Opened,
    place: usize,
    piece: usize,
}

impl Model for FileStore {
    ghost use Rattle.std.specs.Prelude.{◌≤◌, map};
    ghost use Rattle.qc_io.specs.Memory.{Store};

    ghost Value = { Store };

    ghost use Rattle.qc_io.specs.StoreEntries.{entry_of, current_of, open_name_of, IsPlaced};

    ghost view = { λ s. record {
      entries = map entry_of s.files.items;
      open_name = open_name_of (map entry_of s.files.items) s.opened;
      current = current_of (map entry_of s.files.items) s.opened s.place;
      piece = s.piece;
    } };

    ghost invariant = { λ s. (1 ≤ s.piece)
        × IsPlaced (map entry_of s.files.items) s.opened s.place };
}

fn position_of(files: &[Named], name: &str) -> Option<usize>
    ensures { result ≡ position (λ f. bytes_eq (string_bytes f.name) name.now) files.now }
{
    files.iter().position(|f| f.name.as_str() == name)
}

fn find(files: &[Named], name: &str) -> Option<usize>
    ensures { Finds (map entry_of files.now) name.now result }
{
    position_of(files, name)
}

fn put(alloc: Global, files: &mut Vec<Named>, name: &str, bytes: &[u8]) -> Result<(), Memory>
    ensures ok { OnOk result
        (map entry_of files.new.items ≡ adding name.now bytes.now (map entry_of files.old.items)) }
    ensures err { OnErr result (files.new.items ≡ files.old.items) }
{
    let bytes = Vec::from_slice(alloc, bytes)?;
    match find(files, name) {
        Some(i) => files[i].bytes = bytes,
        None => {
            let name = String::from_str(alloc, name)?;
            files.push(Named { name, bytes })?;
        }
    }
    Ok(())
}

impl FileStore {
    pub(crate) fn new(alloc: Global, piece: usize) -> Self
        requires { 1 ≤ piece }
        ensures { result ≡ empty_store piece }
    {
        FileStore {
            alloc,
            files: Vec::new(alloc),
            opened: Opened::Nothing,
            place: 0,
            piece,
        }
    }

    /// Adds a file. It replaces one of that name.
    pub(crate) fn add(&mut self, name: &str, bytes: &[u8]) -> Result<(), Memory>
        requires { self.old.open_name ≢ Some name.now }
        ensures ok { OnOk result
            (self.new ≡ record self.old { entries = adding name.now bytes.now self.old.entries }) }
        ensures err { OnErr result (self.new ≡ self.old) }
    {
        put(self.alloc, &mut self.files, name, bytes)?;
        Ok(())
    }

    /// Opens the bytes under a name, or answers that there is no such file.
    pub(crate) fn open(&mut self, name: &str) -> bool
        ensures found { result ≡ is_some (lookup self.old.entries name.now) }
        ensures after { self.new ≡ opened_store name.now self.old }
    {
        self.place = 0;
        match find(&self.files, name) {
            Some(i) => {
                self.opened = Opened::At(i);
                true
            }
            None => {
                self.opened = Opened::Nothing;
                false
            }
        }
    }

    /// Opens the bytes under a name, or no bytes if there is no such file.
    pub(crate) fn open_surely(&mut self, name: &str)
        ensures { self.new ≡ sure_store name.now self.old }
    {
        if !self.open(name) {
            self.opened = Opened::Empty;
        }
    }

    pub(crate) fn close(&mut self)
        ensures { self.new ≡ closed_store self.old }
    {
        self.opened = Opened::Nothing;
    }

    /// The next bytes of the open file.
    pub(crate) fn read(&mut self, buf: &mut [u8]) -> usize
        requires is_open { IsSome self.old.current }
        requires room { 0 < length buf.old }
        ensures count { result ≡ read_count self.old (length buf.old) }
        ensures bound { result ≤ length buf.new }
        ensures bytes { IfSome self.old.current (λ c. ReadsPrefix (bytes_left c) result buf.new) }
        ensures after { self.new ≡ read_store result self.old }
    {
        let Opened::At(i) = self.opened else {
            return 0;
        };
        let file = &self.files[i];
        let left = file.bytes.len() - self.place;
        let count = left.min(self.piece).min(buf.len());
        buf[..count].copy_from_slice(&file.bytes[self.place..self.place + count]);
        self.place += count;
        count
    }
}
