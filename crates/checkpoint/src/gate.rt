//! The gate of an area.
ghost use Rattle.std.specs.Prelude.{◌≡◌, ◌⊎◌, ◌<◌, ◌≤◌, ◌+◌, ℕ, List, [], ◌∷◌, length, slice_index, IfOk, OnOk, OnErr};
ghost use Rattle.kn_io.specs.Faults.{Rose};
ghost use Rattle.kn_base.specs.Rows.{part_at, overwritten};
ghost use Rattle.kn_disk.specs.Images.{Scarred, Only, LeavesOnly, Elapses};
ghost use Rattle.checkpoint.specs.Filling.{Unopened, IsClosing};

use disk_layout::DiskFault;
use kn_disk::Disk;

// The byte of a gate.
fn read_gate<D: Disk>(disk: &mut D, start: u64) -> Result<u8, DiskFault>
    requires within { D.tells → start < length (D.contents disk.old) }
    ensures byte { D.tells → IfOk result (λ gate. gate ≡ slice_index (D.contents disk.old) start) }
    ensures contents { D.tells → D.contents disk.new ≡ D.contents disk.old }
    ensures images { (c : List ℕ) → D.image disk.new c → D.image disk.old c }
    ensures time { Elapses D.moment D.image D.since disk.old disk.new }
    ensures same { OnOk result (D.faults disk.new ≡ D.faults disk.old) }
    ensures counted { D.faults disk.old ≤ D.faults disk.new }
    ensures failed { OnErr result (Rose (D.faults disk.old) (D.faults disk.new)) }
{
    let mut gate = [0];
    match disk.read_at(start, &mut gate) {
        Ok(()) => Ok(gate[0]),
        Err(_) => Err(DiskFault),
    }
}

// Writes the byte of a gate, and syncs.
fn write_gate<D: Disk>(disk: &mut D, start: u64, byte: u8) -> Result<(), DiskFault>
    requires within { D.tells → start < length (D.contents disk.old) }
    requires only { D.tells → Only (D.contents disk.old) (D.image disk.old) }
    ensures leaves { D.tells → LeavesOnly D.moment D.since (Scarred start 1 (D.contents disk.old)) disk.old disk.new }
    ensures written { D.tells → OnOk result (D.contents disk.new ≡ overwritten (D.contents disk.old) start (byte ∷ [])) }
    ensures only { OnOk result (Only (D.contents disk.new) (D.image disk.new)) }
    ensures same { OnOk result (D.faults disk.new ≡ D.faults disk.old) }
    ensures counted { D.faults disk.old ≤ D.faults disk.new }
    ensures failed { OnErr result (Rose (D.faults disk.old) (D.faults disk.new)) }
{
    match disk.write_at(start, &[byte]) {
        Ok(()) => {}
        Err(_) => return Err(DiskFault),
    }
    match disk.sync() {
        Ok(()) => Ok(()),
        Err(_) => Err(DiskFault),
    }
}

/// Closes a gate where it is open, and syncs.
pub(crate) fn close_gate<D: Disk>(disk: &mut D, start: u64) -> Result<(), DiskFault>
    requires within { D.tells → start < length (D.contents disk.old) }
    requires only { D.tells → Only (D.contents disk.old) (D.image disk.old) }
    ensures leaves { D.tells → LeavesOnly D.moment D.since (IsClosing start (D.contents disk.old)) disk.old disk.new }
    ensures closed { D.tells → OnOk result (Unopened start 1 (D.contents disk.old) (D.contents disk.new)) }
    ensures only { D.tells → OnOk result (Only (D.contents disk.new) (D.image disk.new)) }
    ensures same { OnOk result (D.faults disk.new ≡ D.faults disk.old) }
    ensures counted { D.faults disk.old ≤ D.faults disk.new }
    ensures failed { OnErr result (Rose (D.faults disk.old) (D.faults disk.new)) }
{
    let gate = match read_gate(disk, start) {
        Ok(gate) => gate,
        Err(fault) => return Err(fault),
    };
    if gate != 1 {
        return Ok(());
    }
    match write_gate(disk, start, 0) {
        Ok(()) => Ok(()),
        Err(fault) => Err(fault),
    }
}

/// Syncs, opens a gate, and syncs.
pub(crate) fn open_gate<D: Disk>(disk: &mut D, start: u64) -> Result<(), DiskFault>
    requires within { D.tells → start < length (D.contents disk.old) }
    ensures leaves { D.tells → LeavesOnly D.moment D.since (λ c. D.image disk.old c ⊎ Scarred start 1 (D.contents disk.old) c) disk.old disk.new }
    ensures written { D.tells → OnOk result (D.contents disk.new ≡ overwritten (D.contents disk.old) start (1 ∷ [])) }
    ensures only { OnOk result (Only (D.contents disk.new) (D.image disk.new)) }
    ensures same { OnOk result (D.faults disk.new ≡ D.faults disk.old) }
    ensures counted { D.faults disk.old ≤ D.faults disk.new }
    ensures failed { OnErr result (Rose (D.faults disk.old) (D.faults disk.new)) }
{
    let synced = disk.sync();
    match synced {
        Ok(()) => {}
        Err(_) => return Err(DiskFault),
    }
    match write_gate(disk, start, 1) {
        Ok(()) => Ok(()),
        Err(fault) => Err(fault),
    }
}
