//! What an advance does once its turns are made.
ghost use Rattle.std.specs.Prelude.{◌≡◌, ◌<◌, ◌≤◌, ◌+◌, ◌-◌, ◌^◌, ℕ, List, false, length, replicate, OnOk, OnErr};
ghost use Rattle.kn_io.specs.Faults.{Rose};
ghost use Rattle.kn_disk.specs.Images.{LeavesOnly, Only};
ghost use Rattle.obj_store.specs.Ram.{Ram};
ghost use Rattle.obj_store.specs.Store.{ram_of};
ghost use Rattle.disk_layout.specs.Saved.{raw, label_in, Machine};
ghost use Rattle.checkpoint.specs.Sizes.{HasSizes, pages_in};
ghost use Rattle.checkpoint.specs.Commit.{marks, SavedOr};
ghost use Rattle.migrate.specs.Rounds.{IsStores};

use crate::migrating::some;
use checkpoint::commit;
use disk_layout::{DiskFault, Position};
use kn_disk::Disk;
use obj_store::RamStore;

/// Ends the migration, and saves the store as the next generation. `pages` is the number of its bank
/// pages.
///
/// A crash at any moment of it leaves the machine as it was last saved, or the next generation with
/// the store's blocks; once it has answered Ok, only the latter.
///
/// # Errors
///
/// `DiskFault` only where the disk's count of faults rose. The store is then as before, and the
/// position has the generation that it had.
pub fn save<D: Disk>(
    disk: &mut D,
    store: &mut RamStore,
    pages: u32,
    at: &mut Position,
) -> Result<(), DiskFault>
    requires below { at.old.generation < 2 ^ 63 - 1 }
    requires sizes { HasSizes (ram_of store.old) }
    requires pages { pages ≡ pages_in (ram_of store.old) }
    requires order { at.old.moved ≤ at.old.entries }
    requires few { at.old.entries ≤ length (ram_of store.old).blocks }
    requires stores { D.tells → IsStores (ram_of store.old) at.old.generation at.old.entries at.old.moved at.old.synced (D.contents disk.old) (D.image disk.old) }

    // Each image since the call is the machine as it was, or the next generation with the store's blocks.
    ensures leaves { D.tells → LeavesOnly D.moment D.since (SavedOr (D.contents disk.old) (at.old.generation + 1) (ram_of store.old).blocks) disk.old disk.new }
    ensures each { D.tells → (c : List ℕ) → D.since disk.new (D.moment disk.old) c → SavedOr (D.contents disk.old) (at.old.generation + 1) (ram_of store.old).blocks c }

    // At Ok only the latter, and disk, store and position agree again.
    ensures saved { D.tells → OnOk result (raw (D.contents disk.new) ≡ Machine (at.old.generation + 1) (ram_of store.old).blocks) }
    ensures label { D.tells → OnOk result (label_in (D.contents disk.new) ≡ label_in (D.contents disk.old)) }
    ensures only { OnOk result (Only (D.contents disk.new) (D.image disk.new)) }
    ensures stores { D.tells → OnOk result (IsStores (ram_of store.new) at.new.generation at.new.entries at.new.moved at.new.synced (D.contents disk.new) (D.image disk.new)) }
    ensures cleaned { OnOk result (ram_of store.new ≡ record (ram_of store.old) { dirty = replicate (length (ram_of store.old).blocks) false }) }
    ensures generation { OnOk result (at.new.generation ≡ at.old.generation + 1) }
    ensures entries { OnOk result (at.new.entries ≡ marks (ram_of store.old)) }
    ensures moved { OnOk result (at.new.moved ≡ 0) }
    ensures order { OnOk result (at.new.moved ≤ at.new.entries) }
    ensures few { OnOk result (at.new.entries ≤ length (ram_of store.new).blocks) }

    ensures kept { OnErr result (ram_of store.new ≡ ram_of store.old) }
    ensures unsaved { OnErr result (at.new.generation ≡ at.old.generation) }
    ensures same { OnOk result (D.faults disk.new ≡ D.faults disk.old) }
    ensures counted { D.faults disk.old ≤ D.faults disk.new }
    ensures failed { OnErr result (Rose (D.faults disk.old) (D.faults disk.new)) }
{
    match some(disk, pages, at, u32::MAX) {
        Ok(()) => {}
        Err(fault) => return Err(fault),
    }
    match commit(disk, store, at) {
        Ok(()) => Ok(()),
        Err(fault) => Err(fault),
    }
}
