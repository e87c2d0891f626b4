//! Entries, contents and home blocks are read.
ghost use Rattle.std.specs.Prelude.{◌≡◌, ◌<◌, ◌≤◌, ◌+◌, ◌*◌, ◌^◌, ℕ, List, length, IfOk, OnOk, OnErr};
ghost use Rattle.kn_io.specs.Faults.{Rose};
ghost use Rattle.disk_layout.specs.Sizes.{area_size, area_in, contents_from, disk_size, entry, content, home_block};
ghost use Rattle.disk_layout.specs.Runs.{Still};

use crate::numbers::word_in;
use crate::places::{Place, content_at, entry_at, home_at};
use crate::progress::DiskFault;
use kn_disk::Disk;

/// Reads entry i of an area.
///
/// # Errors
///
/// `DiskFault` only where the disk's count of faults rose.
pub fn read_entry<D: Disk>(disk: &mut D, place: &Place, i: u32) -> Result<u32, DiskFault>
    requires i { i < place.now.blocks }
    requires within { D.tells → place.now.start + area_size place.now.blocks ≤ length (D.contents disk.old) }
    ensures entry { D.tells → IfOk result (λ number. number ≡ entry (area_in place.now.blocks place.now.start (D.contents disk.old)) i) }
    ensures still { Still D.tells D.contents D.moment D.image D.since disk.old disk.new }
    ensures same { OnOk result (D.faults disk.new ≡ D.faults disk.old) }
    ensures counted { D.faults disk.old ≤ D.faults disk.new }
    ensures failed { OnErr result (Rose (D.faults disk.old) (D.faults disk.new)) }
{
    let mut bytes = [0; 4];
    let _start = place.start;
    match disk.read_at(place.start + entry_at(place, i), &mut bytes) {
        Ok(()) => Ok(word_in(&bytes, 0)),
        Err(_) => Err(DiskFault),
    }
}

/// Reads content block i of an area.
///
/// # Errors
///
/// `DiskFault` only where the disk's count of faults rose.
pub fn read_content<D: Disk>(disk: &mut D, place: &Place, i: u32) -> Result<[u8; 4096], DiskFault>
    requires i { i < place.now.blocks }
    requires within { D.tells → place.now.start + area_size place.now.blocks ≤ length (D.contents disk.old) }
    ensures size { IfOk result (λ block. length block ≡ 4096) }
    ensures content { D.tells → IfOk result (λ block. block ≡ content (contents_from place.now.blocks) (area_in place.now.blocks place.now.start (D.contents disk.old)) i) }
    ensures still { Still D.tells D.contents D.moment D.image D.since disk.old disk.new }
    ensures same { OnOk result (D.faults disk.new ≡ D.faults disk.old) }
    ensures counted { D.faults disk.old ≤ D.faults disk.new }
    ensures failed { OnErr result (Rose (D.faults disk.old) (D.faults disk.new)) }
{
    let mut block = [0; 4096];
    let _start = place.start;
    match disk.read_at(place.start + content_at(place, i), &mut block) {
        Ok(()) => Ok(block),
        Err(_) => Err(DiskFault),
    }
}

/// Reads a home block.
///
/// # Errors
///
/// `DiskFault` only where the disk's count of faults rose.
pub fn read_home<D: Disk>(disk: &mut D, place: &Place, number: u32) -> Result<[u8; 4096], DiskFault>
    requires number { number < place.now.blocks }
    requires within { D.tells → length (D.contents disk.old) ≡ disk_size place.now.blocks }
    ensures size { IfOk result (λ block. length block ≡ 4096) }
    ensures block { D.tells → IfOk result (λ block. block ≡ home_block place.now.blocks (D.contents disk.old) number) }
    ensures still { Still D.tells D.contents D.moment D.image D.since disk.old disk.new }
    ensures same { OnOk result (D.faults disk.new ≡ D.faults disk.old) }
    ensures counted { D.faults disk.old ≤ D.faults disk.new }
    ensures failed { OnErr result (Rose (D.faults disk.old) (D.faults disk.new)) }
{
    let mut block = [0; 4096];
    match disk.read_at(home_at(place, number), &mut block) {
        Ok(()) => Ok(block),
        Err(_) => Err(DiskFault),
    }
}
