//! Intervals of a machine, each with its checkpoint.

ghost use Rattle.std.specs.Prelude.{◌≡◌, ◌<◌, length};
ghost use Rattle.obj_store.specs.Store.{ram_of};
ghost use Rattle.checkpoint.specs.Sizes.{pages_in};

use crate::counting::Counting;
use crate::machines::{
    START, change_first, change_second, formatted, generations, reopened, same_blocks, small_store,
};
use crate::untold::{Fails, Untold};
use checkpoint::{Position, has_sizes};
use disk_layout::word_in;
use kn_disk::Fill;
use migrate::{DiskFault, NoTurns, Turns, run, save};
use obj_store::RamStore;
use std::alloc::Global;
use std::process::Abort;
use std::test::Fail;

// What three intervals take of a disk's history.
const ROUNDS: u64 = 60_000;

// How many bank pages a store says that it has.
fn pages_of(store: &RamStore) -> u32
    requires { 1 < length (ram_of store.now).blocks }
    ensures { result ≡ pages_in (ram_of store.now) }
{
    let mut words = [0; 4096];
    store.get_block(1, &mut words);
    word_in(&words, 0)
}

// Ends the migration and commits.
fn save_all(
    rt: &impl Abort,
    disk: &mut Untold,
    store: &mut RamStore,
    at: &mut Position,
) -> Result<(), DiskFault> {
    assert!(rt; has_sizes(store), "a store with the sizes that it says");
    assert!(rt;
        1 < store.blocks()
            && at.generation < 1000
            && at.moved <= at.entries
            && at.entries <= store.blocks(),
        "a position of this machine"
    );
    let pages = pages_of(store);
    save(disk, store, pages, at)
}

// Makes three intervals. The result is how many were saved, and whether all were.
fn three(
    rt: &impl Abort,
    disk: &mut Untold,
    store: &mut RamStore,
    at: &mut Position,
    machine: &mut impl Turns,
) -> (u32, Result<(), DiskFault>) {
    assert!(rt; has_sizes(store), "a store with the sizes that it says");
    assert!(rt;
        1 < store.blocks()
            && at.generation < 1000
            && at.moved <= at.entries
            && at.entries <= store.blocks(),
        "a position of this machine"
    );
    let pages = pages_of(store);
    run(disk, store, pages, at, machine, 3)
}

#[test]
fn each_save_ends_the_migration_and_makes_a_generation(rt: HostRuntime) -> Result<(), Fail> {
    let mut store = small_store(rt.alloc())?;
    let first = formatted(&rt, &mut store)?;
    let mut disk = Untold::new(rt.alloc(), &first, ROUNDS, Fails::Never)?;
    let mut at = START;
    change_first(&mut store);
    assert!(rt; save_all(&rt, &mut disk, &mut store, &mut at) == Ok(()));
    assert!(rt; (at.generation, at.entries, at.moved, at.synced) == (1, 2, 0, false));
    // The gate is read. Each block is written with its number, then the header and the gate.
    assert!(rt; (disk.read, disk.written) == (1, 2 * 4100 + 13));
    assert!(rt; generations(rt.alloc(), &disk.image(rt.alloc(), Fill::Old)?)? == 2);
    change_second(&mut store);
    assert!(rt; save_all(&rt, &mut disk, &mut store, &mut at) == Ok(()));
    assert!(rt; (at.generation, at.entries, at.moved, at.synced) == (2, 3, 0, false));
    // Each entry was read once with its block, and written home once.
    let read = 1 + 2 * 4100 + 1;
    let written = 2 * 4100 + 13 + 2 * 4096 + 3 * 4100 + 13;
    assert!(rt; (disk.read, disk.written) == (read, written));
    assert!(rt; generations(rt.alloc(), &disk.image(rt.alloc(), Fill::Old)?)? == 3);
    Ok(())
}

#[test]
fn intervals_without_a_turn_save_the_same_blocks(rt: HostRuntime) -> Result<(), Fail> {
    let mut store = small_store(rt.alloc())?;
    let first = formatted(&rt, &mut store)?;
    let mut disk = Untold::new(rt.alloc(), &first, ROUNDS, Fails::Never)?;
    let mut at = START;
    let answer = three(&rt, &mut disk, &mut store, &mut at, &mut NoTurns);
    assert!(rt; answer == (3, Ok(())));
    assert!(rt; at.generation == 3);
    let image = disk.image(rt.alloc(), Fill::New)?;
    match reopened(rt.alloc(), &image)? {
        Ok((got, generation)) => {
            assert!(rt; generation == 3);
            assert!(rt;
                same_blocks(&got, &small_store(rt.alloc())?),
                "the blocks stay"
            );
        }
        Err(_) => return Err("no machine".into()),
    }
    Ok(())
}

// The machine after so many intervals: all bytes of block 40 are their number.
fn counted(alloc: Global, intervals: u64) -> Result<RamStore, Fail> {
    let mut store = small_store(alloc)?;
    if intervals > 0 && 40 < store.blocks() {
        store.put_block(40, &[(intervals % 256) as u8; 4096]);
    }
    Ok(store)
}

// Each image holds the last interval that was saved, or the one after it.
fn images_count(rt: &(impl Abort + AllocGlobal), disk: &Untold, saved: u32) -> Result<(), Fail> {
    for fill in [Fill::Old, Fill::New, Fill::Byte(0), Fill::Byte(1)] {
        let image = disk.image(rt.alloc(), fill)?;
        match reopened(rt.alloc(), &image)? {
            Ok((got, generation)) => {
                let least = u64::from(saved);
                assert!(rt;
                    least <= generation && generation <= 3.min(least + 1),
                    "{saved} saved: {generation} with {fill:?}"
                );
                assert!(rt;
                    same_blocks(&got, &counted(rt.alloc(), generation)?),
                    "generation {generation} with {fill:?}"
                );
            }
            Err(_) => return Err("no machine".into()),
        }
    }
    Ok(())
}

// Makes three intervals with all calls of the disk failing from this number on. The result is whether all were saved.
fn ended_at(rt: &(impl Abort + AllocGlobal), first: &[u8], number: u32) -> Result<bool, Fail> {
    let mut store = small_store(rt.alloc())?;
    store.clean();
    let mut disk = Untold::new(rt.alloc(), first, ROUNDS, Fails::From(number))?;
    let mut at = START;
    let mut machine = Counting { next: 1 };
    let (saved, answer) = three(rt, &mut disk, &mut store, &mut at, &mut machine);
    assert!(rt; at.generation == u64::from(saved));
    assert!(rt; answer.is_ok() == (saved == 3));
    images_count(rt, &disk, saved)?;
    Ok(answer.is_ok())
}

#[test]
fn intervals_that_a_fault_ends_leave_the_last_or_the_next(rt: HostRuntime) -> Result<(), Fail> {
    let first = formatted(&rt, &mut small_store(rt.alloc())?)?;
    for number in 0..1000u32 {
        if ended_at(&rt, &first, number)? {
            assert!(rt; number > 20, "three intervals make calls");
            return Ok(());
        }
    }
    Err("a thousand calls are not enough".into())
}
