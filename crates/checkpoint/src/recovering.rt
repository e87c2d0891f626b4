//! A machine is read from a disk.
ghost use Rattle.std.specs.Prelude.{◌≡◌, ◌<◌, ◌≤◌, ◌+◌, ◌%◌, ◌^◌, ◌==◌, ℕ, Some, List, length, IfOk, IfErr, OnOk};
ghost use Rattle.kn_io.specs.Faults.{Rose};
ghost use Rattle.kn_disk.specs.Images.{Only, LeavesOnly};
ghost use Rattle.obj_store.specs.Ram.{Ram};
ghost use Rattle.obj_store.specs.Store.{ram_of};
ghost use Rattle.disk_layout.specs.Sizes.{blocks_for, disk_size};
ghost use Rattle.disk_layout.specs.Saved.{raw, opened, Machine, label_in, pages_named, generation_in};
ghost use Rattle.disk_layout.specs.Position.{Stands};
ghost use Rattle.disk_layout.specs.Runs.{Still};
ghost use Rattle.checkpoint.specs.Recover.{Refuses, FaultRose, Unmarked, Recovered};

use crate::fault::RecoverFault;
use crate::loading::load_blocks;
use disk_layout::{
    Label, Position, blocks_of_pages, place_of, read_entries, read_generation, read_label,
};
use kernel_tables::first_bank_page;
use kn_disk::Disk;
use obj_store::{NoMemory, RamStore};
use std::alloc::Global;

// Machines of this generation and later ones count as damaged.
const FIRST_REFUSED: u64 = 1 << 62;

// A store of zeros for a machine with so many bank pages.
#[tactic(auto, unfolding(disk_layout::specs::Sizes::blocks_for, kernel_tables::specs::Kernel::first_page))]
fn new_store(alloc: Global, pages: u32) -> Result<RamStore, NoMemory>
    requires most { pages ≤ 16384 }
    requires multiple { pages % 64 ≡ 0 }
    ensures unmarked { IfOk result (λ store. Unmarked pages (ram_of store)) }
{
    match RamStore::new(alloc, first_bank_page(pages) + pages, 4 * pages + 1296) {
        Ok(store) => Ok(store),
        Err(_) => Err(NoMemory),
    }
}

// Reads a generation of the machine on a disk whose label names so many bank pages.
fn load<D: Disk>(
    alloc: Global,
    disk: &mut D,
    pages: u32,
    generation: u64,
) -> Result<(RamStore, Position), RecoverFault>
    requires most { pages ≤ 16384 }
    requires multiple { pages % 64 ≡ 0 }
    requires low { generation < 2 ^ 62 }
    requires named { D.tells → pages_named (label_in (D.contents disk.old)) ≡ Some pages }
    requires size { D.tells → length (D.contents disk.old) ≡ disk_size (blocks_for pages) }
    requires taken { D.tells → generation_in (blocks_for pages) (D.contents disk.old) ≡ Some generation }
    requires only { D.tells → Only (D.contents disk.old) (D.image disk.old) }
    ensures machine { D.tells → IfOk result (λ r. opened (raw (D.contents disk.old)) ≡ Machine r.1.generation (ram_of r.0).blocks) }
    ensures refused { D.tells → IfErr result (λ fault. Refuses fault (opened (raw (D.contents disk.old)))) }
    ensures stands { D.tells → IfOk result (λ r. Stands pages r.1.generation r.1.entries r.1.moved r.1.synced (D.contents disk.new) (D.image disk.new)) }
    ensures unmarked { IfOk result (λ r. Unmarked pages (ram_of r.0)) }
    ensures low { IfOk result (λ r. r.1.generation < 2 ^ 62) }
    ensures moved { IfOk result (λ r. r.1.moved ≡ 0) }
    ensures few { IfOk result (λ r. r.1.entries ≤ length (ram_of r.0).blocks) }
    ensures still { Still D.tells D.contents D.moment D.image D.since disk.old disk.new }
    ensures same { OnOk result (D.faults disk.new ≡ D.faults disk.old) }
    ensures counted { D.faults disk.old ≤ D.faults disk.new }
    ensures failed { IfErr result (λ fault. FaultRose fault (D.faults disk.old) (D.faults disk.new)) }
{
    let place = place_of(blocks_of_pages(pages), generation);
    let entries = match read_entries(disk, &place, generation) {
        Ok(entries) => entries,
        Err(_) => return Err(RecoverFault::DiskFault),
    };
    if entries > place.blocks {
        return Err(RecoverFault::Damaged);
    }
    let mut store = match new_store(alloc, pages) {
        Ok(store) => store,
        Err(_) => return Err(RecoverFault::NoMemory),
    };
    let right = match load_blocks(disk, &place, &mut store, entries) {
        Ok(right) => right,
        Err(_) => return Err(RecoverFault::DiskFault),
    };
    if !right {
        return Err(RecoverFault::Damaged);
    }
    Ok((
        store,
        Position {
            generation,
            entries,
            moved: 0,
            synced: entries == 0,
        },
    ))
}

// Reads the machine on a disk whose label names so many bank pages.
fn open<D: Disk>(
    alloc: Global,
    disk: &mut D,
    pages: u32,
) -> Result<(RamStore, Position), RecoverFault>
    requires most { pages ≤ 16384 }
    requires multiple { pages % 64 ≡ 0 }
    requires named { D.tells → pages_named (label_in (D.contents disk.old)) ≡ Some pages }
    requires size { D.tells → length (D.contents disk.old) ≡ disk_size (blocks_for pages) }
    requires only { D.tells → Only (D.contents disk.old) (D.image disk.old) }
    ensures machine { D.tells → IfOk result (λ r. opened (raw (D.contents disk.old)) ≡ Machine r.1.generation (ram_of r.0).blocks) }
    ensures refused { D.tells → IfErr result (λ fault. Refuses fault (opened (raw (D.contents disk.old)))) }
    ensures stands { D.tells → IfOk result (λ r. Stands pages r.1.generation r.1.entries r.1.moved r.1.synced (D.contents disk.new) (D.image disk.new)) }
    ensures unmarked { IfOk result (λ r. Unmarked pages (ram_of r.0)) }
    ensures low { IfOk result (λ r. r.1.generation < 2 ^ 62) }
    ensures moved { IfOk result (λ r. r.1.moved ≡ 0) }
    ensures few { IfOk result (λ r. r.1.entries ≤ length (ram_of r.0).blocks) }
    ensures still { Still D.tells D.contents D.moment D.image D.since disk.old disk.new }
    ensures same { OnOk result (D.faults disk.new ≡ D.faults disk.old) }
    ensures counted { D.faults disk.old ≤ D.faults disk.new }
    ensures failed { IfErr result (λ fault. FaultRose fault (D.faults disk.old) (D.faults disk.new)) }
{
    let taken = match read_generation(disk, blocks_of_pages(pages)) {
        Ok(taken) => taken,
        Err(_) => return Err(RecoverFault::DiskFault),
    };
    let generation = match taken {
        Some(generation) => generation,
        None => return Err(RecoverFault::Damaged),
    };
    if generation >= FIRST_REFUSED {
        return Err(RecoverFault::Damaged);
    }
    match load(alloc, disk, pages, generation) {
        Ok(machine) => Ok(machine),
        Err(fault) => Err(fault),
    }
}

/// Reads the machine on a disk, after a sync. It writes nothing.
///
/// # Errors
///
/// `NoMachine` and `Damaged` exactly where the bytes of the disk say so. `Damaged` also where the
/// generation is 2^62 or more. `DiskFault` only where the disk's count of faults rose. `NoMemory` where
/// there isn't enough memory.
pub fn recover<D: Disk>(alloc: Global, disk: &mut D) -> Result<(RamStore, Position), RecoverFault>
    ensures machine { D.tells → IfOk result (λ r. opened (raw (D.contents disk.old)) ≡ Machine r.1.generation (ram_of r.0).blocks) }
    ensures refused { D.tells → IfErr result (λ fault. Refuses fault (opened (raw (D.contents disk.old)))) }
    ensures stands { D.tells → IfOk result (λ r. (pages : ℕ) → pages_named (label_in (D.contents disk.old)) ≡ Some pages → Stands pages r.1.generation r.1.entries r.1.moved r.1.synced (D.contents disk.new) (D.image disk.new)) }
    ensures unmarked { D.tells → IfOk result (λ r. (pages : ℕ) → pages_named (label_in (D.contents disk.old)) ≡ Some pages → Unmarked pages (ram_of r.0)) }
    ensures recovered { IfOk result (λ r. Recovered (ram_of r.0)) }
    ensures only { D.tells → OnOk result (Only (D.contents disk.new) (D.image disk.new)) }
    ensures low { IfOk result (λ r. r.1.generation < 2 ^ 62) }
    ensures moved { IfOk result (λ r. r.1.moved ≡ 0) }
    ensures few { IfOk result (λ r. r.1.entries ≤ length (ram_of r.0).blocks) }
    ensures still { Still D.tells D.contents D.moment D.image D.since disk.old disk.new }
    ensures same { OnOk result (D.faults disk.new ≡ D.faults disk.old) }
    ensures counted { D.faults disk.old ≤ D.faults disk.new }
    ensures failed { IfErr result (λ fault. FaultRose fault (D.faults disk.old) (D.faults disk.new)) }
{
    match disk.sync() {
        Ok(()) => {}
        Err(_) => return Err(RecoverFault::DiskFault),
    }
    let label = match read_label(disk) {
        Ok(label) => label,
        Err(_) => return Err(RecoverFault::DiskFault),
    };
    match label {
        Label::Absent => Err(RecoverFault::NoMachine),
        Label::Wrong => Err(RecoverFault::Damaged),
        Label::Names { pages, .. } => match open(alloc, disk, pages) {
            Ok(machine) => Ok(machine),
            Err(fault) => Err(fault),
        },
    }
}
