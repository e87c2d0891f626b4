//! A small machine in three generations, and how it comes to a disk. It has 64 bank pages and 184 blocks.

use crate::untold::{Fails, SIZE, Untold};
use checkpoint::{DiskFault, Position, RecoverFault, commit, format, has_sizes, recover};
use disk_layout::blocks_of_pages;
use kn_disk::Fill;
use migrate::some;
use obj_store::RamStore;
use std::alloc::Global;
use std::process::Abort;
use std::test::Fail;

/// What the changes of a format and of a small commit take of a disk's history.
pub(crate) const FORMAT: u64 = SIZE;

pub(crate) const COMMIT: u64 = 40_000;

/// The position of a machine that was just formatted.
pub(crate) const START: Position = Position {
    generation: 0,
    entries: 0,
    moved: 0,
    synced: true,
};

/// Changes a byte of a block, and marks the block.
pub(crate) fn change(store: &mut RamStore, number: u32, at: usize, byte: u8) {
    if number < store.blocks() && at < 4096 {
        let mut block = [0; 4096];
        store.get_block(number, &mut block);
        block[at] = byte;
        store.put_block(number, &block);
        store.mark(number);
    }
}

/// A store for 64 bank pages and 100 turns of each process in a round.
pub(crate) fn small_store(alloc: Global) -> Result<RamStore, Fail> {
    let mut store = RamStore::new(alloc, 87, 1552).ok().ok_or("no memory")?;
    change(&mut store, 1, 0, 64);
    change(&mut store, 1, 4, 100);
    change(&mut store, 30, 7, 9);
    change(&mut store, 183, 4095, 5);
    Ok(store)
}

/// What generation 1 changes.
pub(crate) fn change_first(store: &mut RamStore) {
    change(store, 40, 1, 77);
    change(store, 183, 0, 8);
}

/// What generation 2 changes.
pub(crate) fn change_second(store: &mut RamStore) {
    change(store, 0, 4095, 255);
    change(store, 40, 1, 1);
    change(store, 41, 2, 3);
}

/// The machine of a generation.
fn machine(alloc: Global, generation: u64) -> Result<RamStore, Fail> {
    let mut store = small_store(alloc)?;
    if generation >= 1 {
        change_first(&mut store);
    }
    if generation >= 2 {
        change_second(&mut store);
    }
    Ok(store)
}

/// Formats a disk.
pub(crate) fn put(
    rt: &impl Abort,
    disk: &mut Untold,
    store: &mut RamStore,
) -> Result<(), DiskFault> {
    assert!(rt; has_sizes(store), "a store with the sizes that it says");
    format(disk, store)
}

/// Commits.
pub(crate) fn save(
    rt: &impl Abort,
    disk: &mut Untold,
    store: &mut RamStore,
    at: &mut Position,
) -> Result<(), DiskFault> {
    assert!(rt; has_sizes(store), "a store with the sizes that it says");
    assert!(rt; at.generation < 1000, "an early generation");
    commit(disk, store, at)
}

/// Migrates one entry.
pub(crate) fn migrate_one(
    rt: &impl Abort,
    disk: &mut Untold,
    at: &mut Position,
) -> Result<(), DiskFault> {
    let blocks = blocks_of_pages(64);
    assert!(rt;
        at.moved <= at.entries && at.entries <= blocks,
        "a position of this machine"
    );
    some(disk, 64, at, 1)
}

/// The bytes of a disk that was just formatted with a small store.
pub(crate) fn formatted(
    rt: &(impl Abort + AllocGlobal),
    store: &mut RamStore,
) -> Result<Vec<u8>, Fail> {
    let mut disk = Untold::new(rt.alloc(), &[], FORMAT, Fails::Never)?;
    assert!(rt; put(rt, &mut disk, store) == Ok(()));
    disk.image(rt.alloc(), Fill::New)
}

/// What is recovered of an image: the store and its generation.
pub(crate) fn reopened(
    alloc: Global,
    image: &[u8],
) -> Result<Result<(RamStore, u64), RecoverFault>, Fail> {
    let mut disk = Untold::new(alloc, image, 16, Fails::Never)?;
    match recover(alloc, &mut disk) {
        Ok((store, at)) => Ok(Ok((store, at.generation))),
        Err(fault) => Ok(Err(fault)),
    }
}

/// Which generation is recovered of an image.
pub(crate) fn generation_of(
    alloc: Global,
    image: &[u8],
) -> Result<Result<u64, RecoverFault>, Fail> {
    match reopened(alloc, image)? {
        Ok((_, generation)) => Ok(Ok(generation)),
        Err(fault) => Ok(Err(fault)),
    }
}

/// Whether two stores have the same blocks.
pub(crate) fn same_blocks(got: &RamStore, store: &RamStore) -> bool {
    if got.blocks() != store.blocks() {
        return false;
    }
    let mut same = true;
    for number in 0..got.blocks() {
        let mut left = [0; 4096];
        let mut right = [0; 4096];
        got.get_block(number, &mut left);
        store.get_block(number, &mut right);
        same = same && left == right;
    }
    same
}

/// How many generations an image has: none where it has no machine, and else the machine that is
/// recovered has all blocks of the last.
pub(crate) fn generations(alloc: Global, image: &[u8]) -> Result<u64, Fail> {
    match reopened(alloc, image)? {
        Ok((store, generation)) if generation < 3 => {
            if !same_blocks(&store, &machine(alloc, generation)?) {
                return Err("other blocks".into());
            }
            Ok(generation + 1)
        }
        Err(RecoverFault::NoMachine) => Ok(0),
        _ => Err("no machine of the test".into()),
    }
}
