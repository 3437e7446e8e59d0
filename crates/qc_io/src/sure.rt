// Files and a sink that never fail.
ghost use Rattle.std.specs.Prelude.{◌≡◌, ◌≢◌, ◌≤◌, ◌<◌, [], Some, None, Ok, IfOk, IfSome, IsOk, IsSome, OnErr, OnOk, is_some, length, refl, true, unwrap_or};
ghost use Rattle.qc_io.specs.Outside.{ReadsPrefix, bytes_left};
ghost use Rattle.qc_io.specs.Memory.{Store, adding, empty_store, lookup, sure_store, read_count, read_store};

use crate::file_store::FileStore;
use crate::outside::{Failed, Files, Memory, Sink};
use std::alloc::Global;
use std::marker::Model;

/// Files in memory that never fail. A name that wasn't added has no bytes.
#[derive(Drop)]
pub struct SureFiles {
    store: FileStore,
}

impl Model for SureFiles {
    ghost use Rattle.qc_io.specs.Memory.{Store};

    ghost Value = { Store };

    ghost view = { λ s. s.store };
}

impl SureFiles {
    /// No files, with the most bytes that one read gives.
    pub fn new(alloc: Global, piece: usize) -> Result<Self, Memory>
        requires { 1 ≤ piece }
        ensures { IfOk result (λ s. s ≡ empty_store piece) }
    {
        Ok(SureFiles {
            store: FileStore::new(alloc, piece),
        })
    }

    /// Adds a file. It replaces one of that name.
    pub fn add(&mut self, name: &str, bytes: &[u8]) -> Result<(), Memory>
        requires { self.old.open_name ≢ Some name.now }
        ensures ok { OnOk result
            (self.new ≡ record self.old { entries = adding name.now bytes.now self.old.entries }) }
        ensures err { OnErr result (self.new ≡ self.old) }
    {
        self.store.add(name, bytes)
    }
}

impl Files for SureFiles {
    ghost faults = { λ _. 0 };

    ghost is_open = { λ s. is_some s.current };

    ghost steady = { λ _. true };

    ghost told = { λ s. Some (λ name. Some (unwrap_or (lookup s.entries name) [])) };

    ghost cursor = { λ s. s.current };

    ghost steady_has_contents = { λ s h. refl };

    ghost contents_give_cursor = { λ s h. refl };

    fn open(&mut self, name: &str) -> Result<(), Failed>
        ensures opens { IsOk result }
        ensures after { self.new ≡ sure_store name.now self.old }
    {
        self.store.open_surely(name);
        Ok(())
    }

    fn read(&mut self, buf: &mut [u8]) -> Result<usize, Failed>
        requires is_open { IsSome self.old.current }
        requires room { 0 < length buf.old }
        ensures count { result ≡ Ok (read_count self.old (length buf.old)) }
        ensures bytes { IfOk result
            (λ n. IfSome self.old.current (λ c. ReadsPrefix (bytes_left c) n buf.new)) }
        ensures after { self.new ≡ read_store (read_count self.old (length buf.old)) self.old }
    {
        Ok(self.store.read(buf))
    }
}

/// Takes each piece whole and keeps nothing.
#[derive(Clone, Copy, Drop)]
pub struct SureSink;

impl SureSink {
    /// The one sink of this kind.
    pub fn new() -> Self {
        SureSink
    }
}

impl Sink for SureSink {
    ghost faults = { λ _. 0 };

    ghost taken = { λ _. None };

    fn write(&mut self, bytes: &[u8]) -> Result<usize, Failed>
        requires { 0 < length bytes.now }
        ensures { result ≡ Ok (length bytes.now) }
    {
        Ok(bytes.len())
    }
}
