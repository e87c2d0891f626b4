//! A machine is saved as the next generation.
ghost use Rattle.std.specs.Prelude.{◌≡◌, ◌<◌, ◌≤◌, ◌+◌, ◌-◌, ◌^◌, ◌==◌, ℕ, List, length, false, replicate, IfOk, OnOk, OnErr};
ghost use Rattle.kn_io.specs.Faults.{Rose};
ghost use Rattle.kn_disk.specs.Images.{LeavesOnly, Only};
ghost use Rattle.obj_store.specs.Ram.{Ram};
ghost use Rattle.obj_store.specs.Store.{ram_of};
ghost use Rattle.disk_layout.specs.Sizes.{area_size, area_in, word};
ghost use Rattle.disk_layout.specs.Saved.{raw, label_in, Machine};
ghost use Rattle.disk_layout.specs.Position.{Stands};
ghost use Rattle.checkpoint.specs.Sizes.{HasSizes, pages_in};
ghost use Rattle.checkpoint.specs.Commit.{marks, CanCommit, SavedOr};
ghost use Rattle.checkpoint.specs.Filling.{Opened, IsCommitting, marks_below};

use crate::area::fill;
use crate::gate::{close_gate, open_gate};
use disk_layout::{DiskFault, Place, Position, place_of};
use kn_disk::Disk;
use obj_store::RamStore;

// Saves the marked blocks in an area and opens it. The result is their number.
fn save_area<D: Disk>(
    disk: &mut D,
    place: &Place,
    store: &RamStore,
    generation: u64,
) -> Result<u32, DiskFault>
    requires blocks { place.now.blocks ≡ length (ram_of store.now).blocks }
    requires within { D.tells → place.now.start + area_size place.now.blocks ≤ length (D.contents disk.old) }
    requires only { D.tells → Only (D.contents disk.old) (D.image disk.old) }
    ensures leaves { D.tells → LeavesOnly D.moment D.since (IsCommitting place.now.blocks place.now.start (ram_of store.now) generation (D.contents disk.old)) disk.old disk.new }
    ensures few { IfOk result (λ n. n ≤ place.now.blocks) }
    ensures marks { IfOk result (λ n. n ≡ marks_below (ram_of store.now) place.now.blocks) }
    ensures count { D.tells → IfOk result (λ n. n ≡ word (area_in place.now.blocks place.now.start (D.contents disk.new)) 16) }
    ensures opened { D.tells → OnOk result (Opened place.now.blocks place.now.start (ram_of store.now) generation (D.contents disk.old) (D.contents disk.new)) }
    ensures only { OnOk result (Only (D.contents disk.new) (D.image disk.new)) }
    ensures same { OnOk result (D.faults disk.new ≡ D.faults disk.old) }
    ensures counted { D.faults disk.old ≤ D.faults disk.new }
    ensures failed { OnErr result (Rose (D.faults disk.old) (D.faults disk.new)) }
{
    match close_gate(disk, place.start) {
        Ok(()) => {}
        Err(fault) => return Err(fault),
    }
    let n = match fill(disk, place, store, generation) {
        Ok(n) => n,
        Err(fault) => return Err(fault),
    };
    match open_gate(disk, place.start) {
        Ok(()) => Ok(n),
        Err(fault) => Err(fault),
    }
}

/// Saves the store as the next generation of the machine on the disk, and cleans its marks.
///
/// A crash at any moment of it leaves the machine as it was, or the next generation with the store's
/// blocks; once it has answered Ok, only the latter.
///
/// # Errors
///
/// `DiskFault` only where the disk's count of faults rose. Store and position are then as before,
/// and the disk is one of those two.
pub fn commit<D: Disk>(
    disk: &mut D,
    store: &mut RamStore,
    at: &mut Position,
) -> Result<(), DiskFault>
    requires below { at.old.generation < 2 ^ 63 - 1 }
    requires sizes { HasSizes (ram_of store.old) }
    requires ready { D.tells → CanCommit (ram_of store.old) at.old.generation at.old.entries at.old.moved at.old.synced (D.contents disk.old) (D.image disk.old) }

    // Each image since the call is the machine as it was, or the next generation with the store's blocks.
    ensures leaves { D.tells → LeavesOnly D.moment D.since (SavedOr (D.contents disk.old) (at.old.generation + 1) (ram_of store.old).blocks) disk.old disk.new }
    ensures each { D.tells → (c : List ℕ) → D.since disk.new (D.moment disk.old) c → SavedOr (D.contents disk.old) (at.old.generation + 1) (ram_of store.old).blocks c }

    // At Ok only the latter, under the same label.
    ensures saved { D.tells → OnOk result (raw (D.contents disk.new) ≡ Machine (at.old.generation + 1) (ram_of store.old).blocks) }
    ensures label { D.tells → OnOk result (label_in (D.contents disk.new) ≡ label_in (D.contents disk.old)) }
    ensures only { OnOk result (Only (D.contents disk.new) (D.image disk.new)) }
    ensures stands { D.tells → OnOk result (Stands (pages_in (ram_of store.old)) at.new.generation at.new.entries at.new.moved at.new.synced (D.contents disk.new) (D.image disk.new)) }

    // The marks are cleaned, and the position has as many entries as there were marks.
    ensures cleaned { OnOk result (ram_of store.new ≡ record (ram_of store.old) { dirty = replicate (length (ram_of store.old).blocks) false }) }
    ensures generation { OnOk result (at.new.generation ≡ at.old.generation + 1) }
    ensures entries { OnOk result (at.new.entries ≡ marks (ram_of store.old)) }
    ensures moved { OnOk result (at.new.moved ≡ 0) }
    ensures synced { OnOk result (at.new.synced ≡ (at.new.entries == 0)) }
    ensures few { OnOk result (at.new.entries ≤ length (ram_of store.old).blocks) }

    ensures kept { OnErr result (ram_of store.new ≡ ram_of store.old) }
    ensures position { OnErr result (at.new ≡ at.old) }
    ensures same { OnOk result (D.faults disk.new ≡ D.faults disk.old) }
    ensures counted { D.faults disk.old ≤ D.faults disk.new }
    ensures failed { OnErr result (Rose (D.faults disk.old) (D.faults disk.new)) }
{
    let generation = at.generation + 1;
    let place = place_of(store.blocks(), generation);
    let entries = match save_area(disk, &place, store, generation) {
        Ok(entries) => entries,
        Err(fault) => return Err(fault),
    };
    store.clean();
    *at = Position {
        generation,
        entries,
        moved: 0,
        synced: entries == 0,
    };
    Ok(())
}
