//! Content blocks are copied home.
ghost use Rattle.std.specs.Prelude.{◌≡◌, ◌<◌, ◌≤◌, ◌+◌, ◌*◌, ℕ, List, length, OnOk, OnErr};
ghost use Rattle.kn_io.specs.Faults.{Rose};
ghost use Rattle.kn_base.specs.Rows.{overwritten};
ghost use Rattle.kn_disk.specs.Images.{LeavesOnly, After, Scarred, Elapses};
ghost use Rattle.disk_layout.specs.Sizes.{area_size, home_start, disk_size, area_in, entry};
ghost use Rattle.disk_layout.specs.Position.{HomeScarred};
ghost use Rattle.migrate.specs.Moving.{Moving, IsMoving};

use disk_layout::{DiskFault, Place, home_at, read_content, read_entry};
use kn_disk::Disk;

// Writes a home block.
fn write_home<D: Disk>(
    disk: &mut D,
    place: &Place,
    number: u32,
    block: &[u8; 4096],
) -> Result<(), DiskFault>
    requires size { length block.now ≡ 4096 }
    requires number { D.tells → number < place.now.blocks }
    requires within { D.tells → length (D.contents disk.old) ≡ disk_size place.now.blocks }
    ensures written { D.tells → OnOk result (D.contents disk.new ≡ overwritten (D.contents disk.old) (home_start place.now.blocks + 4096 * number) block.now) }
    ensures images { (c : List ℕ) → D.image disk.new c → After (Scarred (home_start place.now.blocks + 4096 * number) 4096) (D.image disk.old) c }
    ensures time { Elapses D.moment D.image D.since disk.old disk.new }
    ensures same { OnOk result (D.faults disk.new ≡ D.faults disk.old) }
    ensures counted { D.faults disk.old ≤ D.faults disk.new }
    ensures failed { OnErr result (Rose (D.faults disk.old) (D.faults disk.new)) }
{
    match disk.write_at(home_at(place, number), block) {
        Ok(()) => Ok(()),
        Err(_) => Err(DiskFault),
    }
}

// Copies content block i home.
fn move_block<D: Disk>(disk: &mut D, place: &Place, i: u32) -> Result<(), DiskFault>
    requires i { i < place.now.blocks }
    requires within { D.tells → length (D.contents disk.old) ≡ disk_size place.now.blocks }
    requires place { D.tells → place.now.start + area_size place.now.blocks ≤ home_start place.now.blocks }
    requires entry { D.tells → entry (area_in place.now.blocks place.now.start (D.contents disk.old)) i < place.now.blocks }
    ensures leaves { D.tells → (n : ℕ) (base : List ℕ) → i < n → Moving place.now.blocks n place.now.start base (D.contents disk.old) (D.image disk.old) i → LeavesOnly D.moment D.since (HomeScarred place.now.blocks n (area_in place.now.blocks place.now.start base) base) disk.old disk.new }
    ensures moved { D.tells → OnOk result ((n : ℕ) (base : List ℕ) → i < n → Moving place.now.blocks n place.now.start base (D.contents disk.old) (D.image disk.old) i → Moving place.now.blocks n place.now.start base (D.contents disk.new) (D.image disk.new) (i + 1)) }
    ensures same { OnOk result (D.faults disk.new ≡ D.faults disk.old) }
    ensures counted { D.faults disk.old ≤ D.faults disk.new }
    ensures failed { OnErr result (Rose (D.faults disk.old) (D.faults disk.new)) }
{
    let number = match read_entry(disk, place, i) {
        Ok(number) => number,
        Err(fault) => return Err(fault),
    };
    let block = match read_content(disk, place, i) {
        Ok(block) => block,
        Err(fault) => return Err(fault),
    };
    match write_home(disk, place, number, &block) {
        Ok(()) => Ok(()),
        Err(fault) => Err(fault),
    }
}

/// Copies the content blocks from one number up to another one home.
pub(crate) fn move_blocks<D: Disk>(
    disk: &mut D,
    place: &Place,
    from: u32,
    until: u32,
) -> Result<(), DiskFault>
    requires order { from ≤ until }
    requires until { until ≤ place.now.blocks }
    requires moving { D.tells → IsMoving place.now.blocks until place.now.start (D.contents disk.old) (D.image disk.old) from }
    ensures leaves { D.tells → (n : ℕ) (base : List ℕ) → until ≤ n → Moving place.now.blocks n place.now.start base (D.contents disk.old) (D.image disk.old) from → LeavesOnly D.moment D.since (HomeScarred place.now.blocks n (area_in place.now.blocks place.now.start base) base) disk.old disk.new }
    ensures moved { D.tells → OnOk result ((n : ℕ) (base : List ℕ) → until ≤ n → Moving place.now.blocks n place.now.start base (D.contents disk.old) (D.image disk.old) from → Moving place.now.blocks n place.now.start base (D.contents disk.new) (D.image disk.new) until) }
    ensures same { OnOk result (D.faults disk.new ≡ D.faults disk.old) }
    ensures counted { D.faults disk.old ≤ D.faults disk.new }
    ensures failed { OnErr result (Rose (D.faults disk.old) (D.faults disk.new)) }
{
    'moving: for i in from..until {
        match move_block(disk, place, i) {
            Ok(()) => {}
            Err(fault) => return Err(fault),
        }
    }
    Ok(())
}
