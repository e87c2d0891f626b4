//! A store is put on a disk as generation 0.
ghost use Rattle.std.specs.Prelude.{◌≡◌, ◌⊎◌, ◌<◌, ◌≤◌, ◌+◌, ◌*◌, ◌%◌, ◌^◌, ℕ, false, List, length, replicate, OnOk, OnErr};
ghost use Rattle.kn_io.specs.Faults.{Rose};
ghost use Rattle.kn_disk.specs.Images.{LeavesOnly, Only};
ghost use Rattle.obj_store.specs.Ram.{Ram};
ghost use Rattle.obj_store.specs.Store.{ram_of};
ghost use Rattle.disk_layout.specs.Sizes.{home_start, disk_size, blocks_for};
ghost use Rattle.disk_layout.specs.Saved.{raw, Machine, label_in, is_present};
ghost use Rattle.disk_layout.specs.declared.label.Label.TheVariants.{Names};
ghost use Rattle.disk_layout.specs.Position.{Stands};
ghost use Rattle.disk_layout.specs.Runs.{Still};
ghost use Rattle.checkpoint.specs.Sizes.{HasSizes, pages_in, quantum_in};
ghost use Rattle.checkpoint.specs.Format.{Blank, IsLabel, NoneOr, FromSync};

use crate::area::block_of;
use crate::blanking::begin;
use crate::gate::open_gate;
use crate::laying::{put, put_homes};
use byteorder::{ByteOrder, LittleEndian};
use disk_layout::{DiskFault, word_in};
use kn_disk::Disk;
use obj_store::RamStore;

// A label behind its gate.
#[tactic(auto, using(crate::proofs::LabelBytes::labels))]
fn label_bytes(pages: u32, quantum: u32) -> [u8; 19]
    ensures { IsLabel result pages quantum }
{
    let mut bytes = [
        75, 69, 89, 78, 73, 88, 68, 1, 0, 0, 0, 0, 0, 0, 0, 0, 0, 0, 0,
    ];
    LittleEndian::write_u32(&mut bytes[11..], pages);
    LittleEndian::write_u32(&mut bytes[15..], quantum);
    bytes
}

// Where the home blocks begin on a disk of so many blocks.
#[tactic(auto, unfolding(disk_layout::specs::Sizes::area_size, disk_layout::specs::Sizes::contents_from))]
fn home_of_size(blocks: u32) -> u64
    ensures home { result ≡ home_start blocks }
    ensures range { result < 2 ^ 50 }
{
    let from = 4096 + 4096 * ((4 * blocks as u64 + 4095) / 4096);
    4096 + 2 * (from + 4096 * blocks as u64)
}

// Puts a store on a disk without a machine, all of whose bytes are synced.
fn lay<D: Disk>(disk: &mut D, store: &RamStore, pages: u32, quantum: u32) -> Result<(), DiskFault>
    requires pages { blocks_for pages ≡ length (ram_of store.now).blocks }
    requires pages_in { (64 ≤ pages) × (pages ≤ 16384) × (pages % 64 ≡ 0) }
    requires quantum_in { (1 ≤ quantum) × (quantum ≤ 10000) }
    requires only { D.tells → Only (D.contents disk.old) (D.image disk.old) }
    requires blank { D.tells → Blank (D.contents disk.old) }
    ensures leaves { D.tells → LeavesOnly D.moment D.since (NoneOr pages quantum (ram_of store.now).blocks) disk.old disk.new }
    ensures holds { D.tells → OnOk result (raw (D.contents disk.new) ≡ Machine 0 (ram_of store.now).blocks) }
    ensures label { D.tells → OnOk result (label_in (D.contents disk.new) ≡ Names pages quantum) }
    ensures only { OnOk result (Only (D.contents disk.new) (D.image disk.new)) }
    ensures same { OnOk result (D.faults disk.new ≡ D.faults disk.old) }
    ensures counted { D.faults disk.old ≤ D.faults disk.new }
    ensures failed { OnErr result (Rose (D.faults disk.old) (D.faults disk.new)) }
{
    let blocks = store.blocks();
    let home = home_of_size(blocks);
    match begin(disk, home + 4096 * blocks as u64) {
        Ok(()) => {}
        Err(fault) => return Err(fault),
    }
    let label = label_bytes(pages, quantum);
    match put(disk, 1, &label) {
        Ok(()) => {}
        Err(fault) => return Err(fault),
    }
    match put_homes(disk, home, store) {
        Ok(()) => {}
        Err(fault) => return Err(fault),
    }
    match open_gate(disk, 0) {
        Ok(()) => Ok(()),
        Err(fault) => Err(fault),
    }
}

// Syncs a disk.
fn sync_first<D: Disk>(disk: &mut D) -> Result<(), DiskFault>
    ensures still { Still D.tells D.contents D.moment D.image D.since disk.old disk.new }
    ensures only { OnOk result (Only (D.contents disk.new) (D.image disk.new)) }
    ensures same { OnOk result (D.faults disk.new ≡ D.faults disk.old) }
    ensures counted { D.faults disk.old ≤ D.faults disk.new }
    ensures failed { OnErr result (Rose (D.faults disk.old) (D.faults disk.new)) }
{
    match disk.sync() {
        Ok(()) => Ok(()),
        Err(_) => Err(DiskFault),
    }
}

/// Puts a store on a disk on which no machine is present, as generation 0, and cleans its marks.
///
/// It begins with a sync. From that on a crash at any moment leaves no machine, or generation 0 with
/// the store's blocks; once it has answered Ok, only the latter.
///
/// # Errors
///
/// `DiskFault` only where the disk's count of faults rose. The store is then as before.
pub fn format<D: Disk>(disk: &mut D, store: &mut RamStore) -> Result<(), DiskFault>
    requires sizes { HasSizes (ram_of store.old) }
    requires absent { D.tells → is_present (D.contents disk.old) ≡ false }

    // From the sync on, each image is without a machine or generation 0 with the store's blocks.
    ensures leaves { D.tells → Still D.tells D.contents D.moment D.image D.since disk.old disk.new ⊎ FromSync D.tells D.contents D.moment D.image D.since (NoneOr (pages_in (ram_of store.old)) (quantum_in (ram_of store.old)) (ram_of store.old).blocks) disk.old disk.new }
    ensures each { D.tells → (c : List ℕ) → D.since disk.new (D.moment disk.old) c → D.image disk.old c ⊎ NoneOr (pages_in (ram_of store.old)) (quantum_in (ram_of store.old)) (ram_of store.old).blocks c }

    // At Ok only the latter.
    ensures holds { D.tells → OnOk result (raw (D.contents disk.new) ≡ Machine 0 (ram_of store.old).blocks) }
    ensures label { D.tells → OnOk result (label_in (D.contents disk.new) ≡ Names (pages_in (ram_of store.old)) (quantum_in (ram_of store.old))) }
    ensures only { OnOk result (Only (D.contents disk.new) (D.image disk.new)) }

    ensures cleaned { OnOk result (ram_of store.new ≡ record (ram_of store.old) { dirty = replicate (length (ram_of store.old).blocks) false }) }
    ensures kept { OnErr result (ram_of store.new ≡ ram_of store.old) }
    ensures same { OnOk result (D.faults disk.new ≡ D.faults disk.old) }
    ensures counted { D.faults disk.old ≤ D.faults disk.new }
    ensures failed { OnErr result (Rose (D.faults disk.old) (D.faults disk.new)) }
{
    let words = block_of(store, 1);
    match sync_first(disk) {
        Ok(()) => {}
        Err(fault) => return Err(fault),
    }
    match lay(disk, store, word_in(&words, 0), word_in(&words, 4)) {
        Ok(()) => {}
        Err(fault) => return Err(fault),
    }
    store.clean();
    Ok(())
}
