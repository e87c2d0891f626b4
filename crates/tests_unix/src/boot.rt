//! The files of a session's machine.

use crate::escapes::malformed;
use flat_unix::{Flat, FlatFault};
use rv_asm::{AsmFault, assemble};
use std::alloc::{AllocError, Global};
use std::io;
use userland::program;

/// A path, and the bytes of the file there; a directory where there are none.
#[derive(Drop)]
pub(crate) struct Entry {
    pub path: String,
    pub bytes: Option<Vec<u8>>,
}

impl Entry {
    pub(crate) fn directory(alloc: Global, path: &str) -> Result<Entry, AllocError> {
        Ok(Entry {
            path: String::from_str(alloc, path)?,
            bytes: None,
        })
    }

    pub(crate) fn file(alloc: Global, path: &str, bytes: Vec<u8>) -> Result<Entry, AllocError> {
        Ok(Entry {
            path: String::from_str(alloc, path)?,
            bytes: Some(bytes),
        })
    }

    /// A program from its assembly source.
    pub(crate) fn assembled(rt: &HostRuntime, path: String, source: &[u8]) -> io::Result<Entry> {
        match assemble(rt.alloc(), source) {
            Ok(file) => Ok(Entry {
                path,
                bytes: Some(file),
            }),
            Err(AsmFault::At { kind, line }) => {
                println!(rt; "{path}, line {line}: {kind:?}")?;
                Err(malformed())
            }
            Err(AsmFault::NoMemory) => Err(io::Error::from(io::ErrorKind::OutOfMemory)),
        }
    }

    /// The program of this name among those of the userland.
    pub(crate) fn of_userland(rt: &HostRuntime, path: &str, name: &str) -> io::Result<Entry> {
        match program(name.as_bytes()) {
            Some(source) => Entry::assembled(rt, String::from_str(rt.alloc(), path)?, source),
            None => Err(malformed()),
        }
    }
}

/// How boot ends.
#[derive(Drop)]
pub(crate) enum Booted {
    Started(Flat),
    /// For this entry there is no room, or its path isn't a new one.
    Crowded(String),
    /// `/init` is no program, is missing, or there is no room for it.
    NotStarted(FlatFault),
}

/// The machine with these entries, its first program loaded.
pub(crate) fn boot(alloc: Global, pages: u32, entries: Vec<Entry>) -> Result<Booted, FlatFault> {
    let mut flat = match Flat::new(alloc, pages.clamp(64, 16384) / 64 * 64, 1) {
        Ok(flat) => flat,
        Err(fault) => return Err(fault),
    };
    for entry in entries {
        let path = entry.path.as_bytes();
        if !flat.is_new_path(path) {
            return Ok(Booted::Crowded(entry.path));
        }
        let added = match &entry.bytes {
            Some(bytes) => flat.add_file(alloc, path, bytes.as_slice()),
            None => flat.add_dir(alloc, path),
        };
        match added {
            Ok(()) => {}
            Err(FlatFault::NoRoom) => return Ok(Booted::Crowded(entry.path)),
            Err(fault) => return Err(fault),
        }
    }
    if flat.file_bytes(b"/init").is_none() {
        return Ok(Booted::NotStarted(FlatFault::NoRoom));
    }
    match flat.start(alloc) {
        Ok(()) => Ok(Booted::Started(flat)),
        Err(FlatFault::NoMemory) => Err(FlatFault::NoMemory),
        Err(fault) => Ok(Booted::NotStarted(fault)),
    }
}
