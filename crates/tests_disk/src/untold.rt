//! A disk in memory of which nothing is told, so that a test may call it in any state. It counts.
ghost use Rattle.std.specs.Prelude.{ℕ, List, [], ◌≤◌, ◌≡◌, OnErr, OnOk};
ghost use Rattle.kn_io.specs.Faults.{Rose};

use kn_disk::{Disk, Failed, Fill, MemoryDisk};
use std::alloc::Global;
use std::test::Fail;

/// How long the disk of a machine with 64 bank pages is.
pub(crate) const SIZE: u64 = 2_281_472;

/// Which calls of a disk fail. They are counted from 0, all kinds in one row.
#[derive(Clone, Copy, Debug)]
pub(crate) enum Fails {
    Never,
    Once(u32),
    From(u32),
}

/// A disk in memory.
#[derive(Drop)]
pub(crate) struct Untold {
    disk: MemoryDisk,
    faults: u64,
    fails: Fails,
    /// How many calls were made.
    pub calls: u32,
    /// How many bytes were to be written.
    pub written: u64,
    /// How many bytes were to be read.
    pub read: u64,
}

impl Untold {
    pub fn new(alloc: Global, bytes: &[u8], history: u64, fails: Fails) -> Result<Untold, Fail> {
        let mut room = bytes.len() as u64;
        if room < SIZE {
            room = SIZE;
        }
        let disk = MemoryDisk::new(alloc, room, history, bytes, Vec::new(alloc), None)
            .ok()
            .ok_or("no memory")?;
        Ok(Untold {
            disk,
            faults: 0,
            fails,
            calls: 0,
            written: 0,
            read: 0,
        })
    }

    pub fn image(&self, alloc: Global, fill: Fill) -> Result<Vec<u8>, Fail> {
        let image = self.disk.image(alloc, fill).ok().ok_or("no memory")?;
        Ok(image)
    }

    // Counts a call. The result is whether it fails.
    fn count_call(&mut self) -> bool
        ensures { self.new.faults ≡ self.old.faults }
    {
        let number = self.calls;
        self.calls = self.calls.saturating_add(1);
        match self.fails {
            Fails::Never => false,
            Fails::Once(failing) => number == failing,
            Fails::From(first) => number >= first,
        }
    }

    // Counts a write of so many bytes. The result is whether it fails.
    fn count_write(&mut self, count: usize) -> bool
        ensures { self.new.faults ≡ self.old.faults }
    {
        self.written = self.written.saturating_add(count as u64);
        self.count_call()
    }

    // Counts a read of so many bytes. The result is whether it fails.
    fn count_read(&mut self, count: usize) -> bool
        ensures { self.new.faults ≡ self.old.faults }
    {
        self.read = self.read.saturating_add(count as u64);
        self.count_call()
    }

    fn failed(&mut self) -> Failed
        ensures rose { Rose self.old.faults self.new.faults }
        ensures counted { self.old.faults ≤ self.new.faults }
    {
        self.faults = self.faults.saturating_add(1);
        Failed
    }
}

impl Disk for Untold {
    ghost tells = { ⊥ };

    ghost contents = { λ _. [] };

    ghost image = { λ _ c. ⊥ };

    ghost moment = { λ _. 0 };

    ghost since = { λ _ t c. ⊥ };

    ghost faults = { λ d. d.faults };

    fn length(&mut self) -> Result<u64, Failed> {
        if self.count_call() {
            return Err(self.failed());
        }
        match self.disk.length() {
            Ok(length) => Ok(length),
            Err(_) => Err(self.failed()),
        }
    }

    fn set_length(&mut self, length: u64) -> Result<(), Failed> {
        if self.count_call() {
            return Err(self.failed());
        }
        match self.disk.set_length(length) {
            Ok(()) => Ok(()),
            Err(_) => Err(self.failed()),
        }
    }

    fn read_at(&mut self, at: u64, into: &mut [u8]) -> Result<(), Failed> {
        if self.count_read(into.len()) {
            return Err(self.failed());
        }
        match self.disk.length() {
            Ok(length) => {
                let count = into.len() as u64;
                if count > length || at > length - count {
                    return Err(self.failed());
                }
            }
            Err(_) => return Err(self.failed()),
        }
        match self.disk.read_at(at, into) {
            Ok(()) => Ok(()),
            Err(_) => Err(self.failed()),
        }
    }

    fn write_at(&mut self, at: u64, from: &[u8]) -> Result<(), Failed> {
        if self.count_write(from.len()) {
            return Err(self.failed());
        }
        match self.disk.length() {
            Ok(length) => {
                let count = from.len() as u64;
                if count > length || at > length - count {
                    return Err(self.failed());
                }
            }
            Err(_) => return Err(self.failed()),
        }
        match self.disk.write_at(at, from) {
            Ok(()) => Ok(()),
            Err(_) => Err(self.failed()),
        }
    }

    fn sync(&mut self) -> Result<(), Failed> {
        if self.count_call() {
            return Err(self.failed());
        }
        match self.disk.sync() {
            Ok(()) => Ok(()),
            Err(_) => Err(self.failed()),
        }
    }

    ghost contents_image = { λ d told. absurd told };

    ghost counts_now = { λ d t c le now. absurd now };

    ghost only_now = { λ d c left. absurd left };
}
