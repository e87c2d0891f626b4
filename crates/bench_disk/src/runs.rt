//! The calls that are timed, over a file.

use crate::store::{mark_last, new_store};
use checkpoint::{Position, commit, format, has_sizes, recover};
use disk_layout::{Label, blocks_of_pages, read_label};
use kn_disk::FileDisk;
use migrate::some;
use obj_store::RamStore;
use std::alloc::Global;
use std::fs::Files;
use std::io;
use std::rt::Clock;
use std::time::{Duration, Instant};

fn refused() -> io::Error {
    io::Error::from(io::ErrorKind::InvalidInput)
}

/// Formats a disk with a machine of so many bank pages. The result is how many blocks it has.
pub fn format_pages<F: Files + Drop>(
    alloc: Global,
    disk: &mut FileDisk<F>,
    pages: u32,
) -> io::Result<u32> {
    let mut store = new_store(alloc, pages)?;
    if !has_sizes(&store) {
        return Err(refused());
    }
    match format(disk, &mut store) {
        Ok(()) => Ok(store.blocks()),
        Err(_) => Err(refused()),
    }
}

// Reads the machine on a disk.
fn open<F: Files + Drop>(
    alloc: Global,
    disk: &mut FileDisk<F>,
) -> io::Result<(RamStore, Position)> {
    match recover(alloc, disk) {
        Ok(machine) => Ok(machine),
        Err(_) => Err(refused()),
    }
}

/// Reads the machine on a disk. The result is its generation, and how many blocks it has.
pub fn recover_machine<F: Files + Drop>(
    alloc: Global,
    disk: &mut FileDisk<F>,
) -> io::Result<(u64, u32)> {
    let (store, at) = open(alloc, disk)?;
    Ok((at.generation, store.blocks()))
}

// How many bank pages the machine on a disk has.
fn pages_on<F: Files + Drop>(disk: &mut FileDisk<F>) -> io::Result<u32> {
    match read_label(disk) {
        Ok(Label::Names { pages, .. }) => Ok(pages),
        _ => Err(refused()),
    }
}

// Ends the migration of the machine on a disk.
fn migrate<F: Files + Drop>(disk: &mut FileDisk<F>, at: &mut Position) -> io::Result<()> {
    let pages = pages_on(disk)?;
    if pages > 16384 || at.moved > at.entries || at.entries > blocks_of_pages(pages) {
        return Err(refused());
    }
    match some(disk, pages, at, u32::MAX) {
        Ok(()) => Ok(()),
        Err(_) => Err(refused()),
    }
}

// Saves the marked blocks.
fn save<F: Files + Drop>(
    disk: &mut FileDisk<F>,
    store: &mut RamStore,
    at: &mut Position,
) -> io::Result<()> {
    if !has_sizes(store) || at.generation >= 1 << 62 {
        return Err(refused());
    }
    match commit(disk, store, at) {
        Ok(()) => Ok(()),
        Err(_) => Err(refused()),
    }
}

/// Reads the machine on a disk, ends its migration, and saves so many marked blocks. The result is the
/// generation, how many blocks there are, and how long the last took.
pub fn commit_blocks<F: Files + Drop>(
    clock: &impl Clock,
    alloc: Global,
    disk: &mut FileDisk<F>,
    count: u32,
) -> io::Result<(u64, u32, Duration)> {
    let (mut store, mut at) = open(alloc, disk)?;
    migrate(disk, &mut at)?;
    mark_last(&mut store, count);
    let start = Instant::now(clock)?;
    save(disk, &mut store, &mut at)?;
    let time = start.elapsed(clock)?;
    Ok((at.generation, store.blocks(), time))
}
