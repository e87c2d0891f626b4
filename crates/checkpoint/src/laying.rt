//! The label and the home blocks.
ghost use Rattle.std.specs.Prelude.{◌≡◌, ◌⊎◌, ◌<◌, ◌≤◌, ◌+◌, ◌*◌, ◌^◌, ℕ, List, [], ◌∷◌, length, slice_index, slice_index_or, OnOk, OnErr};
ghost use Rattle.kn_io.specs.Faults.{Rose};
ghost use Rattle.kn_base.specs.Rows.{overwritten};
ghost use Rattle.kn_disk.specs.Images.{LeavesOnly};
ghost use Rattle.obj_store.specs.Ram.{Ram};
ghost use Rattle.obj_store.specs.Store.{ram_of};
ghost use Rattle.disk_layout.specs.Sizes.{home_start, disk_size};
ghost use Rattle.checkpoint.specs.Format.{Blank, HomesLaid};

use crate::area::block_of;
use disk_layout::DiskFault;
use kn_disk::Disk;
use obj_store::RamStore;

// Writes behind the gate of the label.
pub(crate) fn put<D: Disk>(disk: &mut D, at: u64, part: &[u8]) -> Result<(), DiskFault>
    requires behind { 1 ≤ at }
    requires within { D.tells → at + length part.now ≤ length (D.contents disk.old) }
    requires images { D.tells → (c : List ℕ) → D.image disk.old c → Blank c }
    ensures images { D.tells → (c : List ℕ) → D.image disk.new c → Blank c }
    ensures leaves { D.tells → LeavesOnly D.moment D.since Blank disk.old disk.new }
    ensures written { D.tells → OnOk result (D.contents disk.new ≡ overwritten (D.contents disk.old) at part.now) }
    ensures same { OnOk result (D.faults disk.new ≡ D.faults disk.old) }
    ensures counted { D.faults disk.old ≤ D.faults disk.new }
    ensures failed { OnErr result (Rose (D.faults disk.old) (D.faults disk.new)) }
{
    match disk.write_at(at, part) {
        Ok(()) => Ok(()),
        Err(_) => Err(DiskFault),
    }
}

// Writes all home blocks.
pub(crate) fn put_homes<D: Disk>(disk: &mut D, home: u64, store: &RamStore) -> Result<(), DiskFault>
    requires home { home ≡ home_start (length (ram_of store.now).blocks) }
    requires range { home < 2 ^ 50 }
    requires size { D.tells → length (D.contents disk.old) ≡ disk_size (length (ram_of store.now).blocks) }
    requires images { D.tells → (c : List ℕ) → D.image disk.old c → Blank c }
    ensures images { D.tells → (c : List ℕ) → D.image disk.new c → Blank c }
    ensures leaves { D.tells → LeavesOnly D.moment D.since Blank disk.old disk.new }
    ensures laid { D.tells → OnOk result (HomesLaid (length (ram_of store.now).blocks) (ram_of store.now).blocks (D.contents disk.old) (D.contents disk.new) (length (ram_of store.now).blocks)) }
    ensures same { OnOk result (D.faults disk.new ≡ D.faults disk.old) }
    ensures counted { D.faults disk.old ≤ D.faults disk.new }
    ensures failed { OnErr result (Rose (D.faults disk.old) (D.faults disk.new)) }
{
    'homes: for number in 0..store.blocks() {
        let block = block_of(store, number);
        match put(disk, home + 4096 * number as u64, &block) {
            Ok(()) => {}
            Err(fault) => return Err(fault),
        }
    }
    Ok(())
}
