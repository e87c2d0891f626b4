//! From a bundle to a machine with its first process.

ghost use Rattle.std.specs.Prelude.{◌≡◌, ◌≢◌, ◌≤◌, ℕ, List, ◌++◌, Some, IfErr, OnOk};
ghost use Rattle.std.specs.Option.{option_to_list};
ghost use Rattle.kn_io.specs.Faults.{Rose};
ghost use Rattle.unix_model.specs.Boot.{with_init};
ghost use Rattle.flat_unix.specs.FlatView.{unix_of};
ghost use Rattle.flat_bundle.specs.Steps.{BootsAs, CountsSame, Loads, NotStored, Stores, fault_of};

use crate::fault::BootFault;
use bundle::{BundleFault, BundleKind, BundleReader, Entry, next_entry};
use flat_unix::{Flat, FlatFault};
use kn_io::Source;
use std::alloc::Global;

/// The path of the first program.
const INIT: &[u8] = b"/init";

/// Boots a bundle: `first`, where one is given, and then what the source gives, up to and with the line `end`, behind which
/// nothing is read. The machine has `pages` pages, 64 to 16,384, and gives each slot `quantum` turns in a row, 1 to 10,000.
///
/// # Errors
///
/// The first line that is refused (`At`), unless there is no room for an entry before it (`NoRoom` at that entry's line).
/// Behind the line `end` `Elf` where `/init` isn't a program that this machine runs, and `NoRoom` at line 0 where there is no
/// room for its memory. `ReadFault` only where the source's count of faults rose; at every other answer it is as before.
/// `NoMemory` is free.
pub fn boot<S: Source>(
    alloc: Global,
    pages: u32,
    quantum: u32,
    first: Option<u8>,
    from: &mut S,
) -> Result<Flat, BootFault>
    requires pages { (64 ≤ pages) × (pages ≤ 16384) }
    requires quantum { (1 ≤ quantum) × (quantum ≤ 10000) }
    ensures boots { (bytes : List ℕ) → S.left from.old ≡ Some bytes → BootsAs pages quantum (option_to_list first ++ bytes) (S.left from.new) result }
    ensures same { CountsSame (S.faults from.new ≡ S.faults from.old) result }
    ensures counted { S.faults from.old ≤ S.faults from.new }
    ensures failed { IfErr result (λ fault. fault ≡ BootFault.ReadFault → Rose (S.faults from.old) (S.faults from.new)) }
{
    let mut flat = match Flat::new(alloc, pages, quantum) {
        Ok(flat) => flat,
        Err(_) => return Err(BootFault::NoMemory),
    };
    let mut reader = match BundleReader::new(alloc, first) {
        Ok(reader) => reader,
        Err(_) => return Err(BootFault::NoMemory),
    };
    'reading: loop {
        match next_entry(alloc, &mut reader, from) {
            Ok(Some(entry)) => match store(alloc, &mut flat, &entry) {
                Ok(()) => {}
                Err(fault) => return Err(fault),
            },
            Ok(None) => return start(alloc, flat),
            Err(fault) => return Err(told(fault)),
        }
    }
}

/// Stores an entry.
fn store(alloc: Global, flat: &mut Flat, entry: &Entry) -> Result<(), BootFault>
    ensures stored { OnOk result (Stores entry.now (unix_of flat.old) (unix_of flat.new)) }
    ensures refused { IfErr result (NotStored entry.now (unix_of flat.old)) }
{
    match entry {
        Entry::Dir { path, line } => {
            if !flat.is_new_path(path.as_slice()) {
                return Err(BootFault::NoRoom { line: *line });
            }
            match flat.add_dir(alloc, path.as_slice()) {
                Ok(()) => Ok(()),
                Err(FlatFault::NoRoom) => Err(BootFault::NoRoom { line: *line }),
                Err(_) => Err(BootFault::NoMemory),
            }
        }
        Entry::File { path, bytes, line } => {
            if !flat.is_new_path(path.as_slice()) {
                return Err(BootFault::NoRoom { line: *line });
            }
            match flat.add_file(alloc, path.as_slice(), bytes.as_slice()) {
                Ok(()) => Ok(()),
                Err(FlatFault::NoRoom) => Err(BootFault::NoRoom { line: *line }),
                Err(_) => Err(BootFault::NoMemory),
            }
        }
    }
}

/// Loads `/init`.
fn start(alloc: Global, flat: Flat) -> Result<Flat, BootFault>
    ensures loads { Loads (with_init (unix_of flat)) result }
    ensures unread { IfErr result (λ fault. fault ≢ BootFault.ReadFault) }
{
    match flat.file_bytes(INIT) {
        Some(_) => {}
        None => {
            return Err(BootFault::At {
                kind: BundleKind::NoInit,
                line: 0,
            });
        }
    }
    let mut flat = flat;
    match flat.start(alloc) {
        Ok(()) => Ok(flat),
        Err(FlatFault::NoRoom) => Err(BootFault::NoRoom { line: 0 }),
        Err(FlatFault::Elf(fault)) => Err(BootFault::Elf(fault)),
        Err(_) => Err(BootFault::NoMemory),
    }
}

/// The fault of reading.
fn told(fault: BundleFault) -> BootFault
    ensures { result ≡ fault_of fault }
{
    match fault {
        BundleFault::At { kind, line } => BootFault::At { kind, line },
        BundleFault::ReadFault => BootFault::ReadFault,
        BundleFault::NoMemory => BootFault::NoMemory,
    }
}
