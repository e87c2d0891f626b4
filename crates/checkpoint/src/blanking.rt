//! The disk becomes zeros, as long as it must be.
ghost use Rattle.std.specs.Prelude.{◌≡◌, ◌⊎◌, ◌<◌, ◌≤◌, ◌+◌, ℕ, List, [], ◌∷◌, length, slice_index, OnOk, OnErr};
ghost use Rattle.kn_io.specs.Faults.{Rose};
ghost use Rattle.kn_base.specs.Rows.{overwritten};
ghost use Rattle.kn_disk.specs.Images.{LeavesOnly, Only, resized};
ghost use Rattle.checkpoint.specs.Format.{Blank};

use disk_layout::DiskFault;
use kn_disk::Disk;

// Makes a disk one byte long, and syncs.
fn shorten<D: Disk>(disk: &mut D) -> Result<(), DiskFault>
    requires only { D.tells → Only (D.contents disk.old) (D.image disk.old) }
    requires blank { D.tells → Blank (D.contents disk.old) }
    ensures leaves { D.tells → LeavesOnly D.moment D.since Blank disk.old disk.new }
    ensures contents { D.tells → OnOk result (D.contents disk.new ≡ resized 1 (D.contents disk.old)) }
    ensures only { OnOk result (Only (D.contents disk.new) (D.image disk.new)) }
    ensures same { OnOk result (D.faults disk.new ≡ D.faults disk.old) }
    ensures counted { D.faults disk.old ≤ D.faults disk.new }
    ensures failed { OnErr result (Rose (D.faults disk.old) (D.faults disk.new)) }
{
    match disk.set_length(1) {
        Ok(()) => {}
        Err(_) => return Err(DiskFault),
    }
    match disk.sync() {
        Ok(()) => Ok(()),
        Err(_) => Err(DiskFault),
    }
}

// Makes the only byte of a disk zero, and syncs.
fn zero<D: Disk>(disk: &mut D) -> Result<(), DiskFault>
    requires only { D.tells → Only (D.contents disk.old) (D.image disk.old) }
    requires one { D.tells → length (D.contents disk.old) ≡ 1 }
    ensures leaves { D.tells → LeavesOnly D.moment D.since Blank disk.old disk.new }
    ensures contents { D.tells → OnOk result (D.contents disk.new ≡ overwritten (D.contents disk.old) 0 (0 ∷ [])) }
    ensures only { OnOk result (Only (D.contents disk.new) (D.image disk.new)) }
    ensures same { OnOk result (D.faults disk.new ≡ D.faults disk.old) }
    ensures counted { D.faults disk.old ≤ D.faults disk.new }
    ensures failed { OnErr result (Rose (D.faults disk.old) (D.faults disk.new)) }
{
    match disk.write_at(0, &[0]) {
        Ok(()) => {}
        Err(_) => return Err(DiskFault),
    }
    match disk.sync() {
        Ok(()) => Ok(()),
        Err(_) => Err(DiskFault),
    }
}

// Makes a disk of one zero byte so long.
fn lengthen<D: Disk>(disk: &mut D, size: u64) -> Result<(), DiskFault>
    requires only { D.tells → Only (D.contents disk.old) (D.image disk.old) }
    requires zero { D.tells → D.contents disk.old ≡ 0 ∷ [] }
    ensures leaves { D.tells → LeavesOnly D.moment D.since Blank disk.old disk.new }
    ensures images { D.tells → (c : List ℕ) → D.image disk.new c → Blank c }
    ensures contents { D.tells → OnOk result (D.contents disk.new ≡ resized size (0 ∷ [])) }
    ensures same { OnOk result (D.faults disk.new ≡ D.faults disk.old) }
    ensures counted { D.faults disk.old ≤ D.faults disk.new }
    ensures failed { OnErr result (Rose (D.faults disk.old) (D.faults disk.new)) }
{
    match disk.set_length(size) {
        Ok(()) => Ok(()),
        Err(_) => Err(DiskFault),
    }
}

/// Makes a disk on which no machine is present so many zeros.
pub(crate) fn begin<D: Disk>(disk: &mut D, size: u64) -> Result<(), DiskFault>
    requires only { D.tells → Only (D.contents disk.old) (D.image disk.old) }
    requires blank { D.tells → Blank (D.contents disk.old) }
    ensures leaves { D.tells → LeavesOnly D.moment D.since Blank disk.old disk.new }
    ensures images { D.tells → OnOk result ((c : List ℕ) → D.image disk.new c → Blank c) }
    ensures contents { D.tells → OnOk result (D.contents disk.new ≡ resized size (0 ∷ [])) }
    ensures same { OnOk result (D.faults disk.new ≡ D.faults disk.old) }
    ensures counted { D.faults disk.old ≤ D.faults disk.new }
    ensures failed { OnErr result (Rose (D.faults disk.old) (D.faults disk.new)) }
{
    match shorten(disk) {
        Ok(()) => {}
        Err(fault) => return Err(fault),
    }
    match zero(disk) {
        Ok(()) => {}
        Err(fault) => return Err(fault),
    }
    match lengthen(disk, size) {
        Ok(()) => Ok(()),
        Err(fault) => Err(fault),
    }
}
