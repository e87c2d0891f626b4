//! Some of the blocks that were saved are copied home.
ghost use Rattle.std.specs.Prelude.{◌≡◌, ◌≤◌, ◌+◌, ◌==◌, ℕ, List, min, true, OnOk, OnErr};
ghost use Rattle.kn_io.specs.Faults.{Rose};
ghost use Rattle.kn_disk.specs.Images.{LeavesOnly, Only, Elapses};
ghost use Rattle.disk_layout.specs.Sizes.{blocks_for};
ghost use Rattle.disk_layout.specs.Saved.{SameMachine};
ghost use Rattle.disk_layout.specs.Position.{Stands};

use crate::moving::move_blocks;
use disk_layout::{DiskFault, Position, blocks_of_pages, place_of};
use kn_disk::Disk;

// Copies the entries of a position up to a number home.
fn move_entries<D: Disk>(
    disk: &mut D,
    pages: u32,
    at: &Position,
    until: u32,
) -> Result<(), DiskFault>
    requires pages { pages ≤ 16384 }
    requires order { at.now.moved ≤ until }
    requires until { until ≤ at.now.entries }
    requires few { at.now.entries ≤ blocks_for pages }
    requires stands { D.tells → Stands pages at.now.generation at.now.entries at.now.moved at.now.synced (D.contents disk.old) (D.image disk.old) }
    ensures leaves { D.tells → LeavesOnly D.moment D.since (SameMachine (D.contents disk.old)) disk.old disk.new }
    ensures machine { D.tells → OnOk result (SameMachine (D.contents disk.old) (D.contents disk.new)) }
    ensures images { D.tells → OnOk result ((c : List ℕ) → D.image disk.new c → SameMachine (D.contents disk.old) c) }
    ensures stands { D.tells → OnOk result (Stands pages at.now.generation at.now.entries until (until == at.now.entries) (D.contents disk.new) (D.image disk.new)) }
    ensures same { OnOk result (D.faults disk.new ≡ D.faults disk.old) }
    ensures counted { D.faults disk.old ≤ D.faults disk.new }
    ensures failed { OnErr result (Rose (D.faults disk.old) (D.faults disk.new)) }
{
    let place = place_of(blocks_of_pages(pages), at.generation);
    match move_blocks(disk, &place, at.moved, until) {
        Ok(()) => Ok(()),
        Err(fault) => Err(fault),
    }
}

// Syncs where it is due.
fn sync_if<D: Disk>(disk: &mut D, due: bool) -> Result<(), DiskFault>
    ensures contents { D.tells → D.contents disk.new ≡ D.contents disk.old }
    ensures images { (c : List ℕ) → D.image disk.new c → D.image disk.old c }
    ensures time { Elapses D.moment D.image D.since disk.old disk.new }
    ensures only { OnOk result (due ≡ true → Only (D.contents disk.new) (D.image disk.new)) }
    ensures same { OnOk result (D.faults disk.new ≡ D.faults disk.old) }
    ensures counted { D.faults disk.old ≤ D.faults disk.new }
    ensures failed { OnErr result (Rose (D.faults disk.old) (D.faults disk.new)) }
{
    if !due {
        return Ok(());
    }
    match disk.sync() {
        Ok(()) => Ok(()),
        Err(_) => Err(DiskFault),
    }
}

/// Copies up to `most` of the blocks that were saved with the machine home, on a disk whose label
/// names so many bank pages, and syncs after the last.
///
/// Whatever moment of it a crash hits, the machine on the disk is the one that it was. Each entry is
/// read once and each block is written once over all calls.
///
/// # Errors
///
/// `DiskFault` only where the disk's count of faults rose. The position is then as before, and no
/// longer stands for the disk, which must be opened again.
pub fn some<D: Disk>(
    disk: &mut D,
    pages: u32,
    at: &mut Position,
    most: u32,
) -> Result<(), DiskFault>
    requires pages { pages ≤ 16384 }
    requires order { at.old.moved ≤ at.old.entries }
    requires few { at.old.entries ≤ blocks_for pages }
    requires stands { D.tells → Stands pages at.old.generation at.old.entries at.old.moved at.old.synced (D.contents disk.old) (D.image disk.old) }

    // Each image since the call is the same machine, under the same label.
    ensures leaves { D.tells → LeavesOnly D.moment D.since (SameMachine (D.contents disk.old)) disk.old disk.new }
    ensures each { D.tells → (c : List ℕ) → D.since disk.new (D.moment disk.old) c → SameMachine (D.contents disk.old) c }
    ensures machine { D.tells → OnOk result (SameMachine (D.contents disk.old) (D.contents disk.new)) }

    // The position stands for the disk again. Where all is moved, the contents are the only image.
    ensures stands { D.tells → OnOk result (Stands pages at.new.generation at.new.entries at.new.moved at.new.synced (D.contents disk.new) (D.image disk.new)) }
    ensures only { OnOk result (at.new.moved ≡ at.new.entries → Only (D.contents disk.new) (D.image disk.new)) }
    ensures moved { OnOk result (at.new.moved ≡ min at.old.entries (at.old.moved + most)) }
    ensures synced { OnOk result (at.new.synced ≡ (at.new.moved == at.new.entries)) }
    ensures generation { at.new.generation ≡ at.old.generation }
    ensures entries { at.new.entries ≡ at.old.entries }

    ensures position { OnErr result (at.new ≡ at.old) }
    ensures same { OnOk result (D.faults disk.new ≡ D.faults disk.old) }
    ensures counted { D.faults disk.old ≤ D.faults disk.new }
    ensures failed { OnErr result (Rose (D.faults disk.old) (D.faults disk.new)) }
{
    let until = at.moved.saturating_add(most).min(at.entries);
    match move_entries(disk, pages, at, until) {
        Ok(()) => {}
        Err(fault) => return Err(fault),
    }
    match sync_if(disk, until == at.entries) {
        Ok(()) => {}
        Err(fault) => return Err(fault),
    }
    at.moved = until;
    at.synced = until == at.entries;
    Ok(())
}
