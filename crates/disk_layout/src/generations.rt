//! Which generation a disk holds, and how many entries it has.
ghost use Rattle.std.specs.Prelude.{◌≡◌, ◌<◌, ◌≤◌, ◌+◌, ◌*◌, ◌^◌, ◌%◌, ℕ, List, length, IfOk, OnOk, OnErr};
ghost use Rattle.kn_io.specs.Faults.{Rose};
ghost use Rattle.kn_base.specs.Rows.{part_at};
ghost use Rattle.disk_layout.specs.Sizes.{area_size, area_in, disk_size};
ghost use Rattle.disk_layout.specs.Saved.{may_stand, chosen, gate_of, gate_at, generation_in, entries_at};
ghost use Rattle.disk_layout.specs.Runs.{Still};

use crate::numbers::{long_in, word_in};
use crate::places::{Place, place_of};
use crate::progress::DiskFault;
use kn_disk::Disk;

// Reads the first bytes of an area: its gate, generation and number of entries.
fn read_header<D: Disk>(disk: &mut D, place: &Place) -> Result<[u8; 20], DiskFault>
    requires within { D.tells → place.now.start + area_size place.now.blocks ≤ length (D.contents disk.old) }
    ensures header { D.tells → IfOk result (λ bytes. bytes ≡ part_at (area_in place.now.blocks place.now.start (D.contents disk.old)) 0 20) }
    ensures still { Still D.tells D.contents D.moment D.image D.since disk.old disk.new }
    ensures same { OnOk result (D.faults disk.new ≡ D.faults disk.old) }
    ensures counted { D.faults disk.old ≤ D.faults disk.new }
    ensures failed { OnErr result (Rose (D.faults disk.old) (D.faults disk.new)) }
{
    let mut bytes = [0; 20];
    match disk.read_at(place.start, &mut bytes) {
        Ok(()) => Ok(bytes),
        Err(_) => Err(DiskFault),
    }
}

// What the first bytes of an area say of its generation.
#[tactic(auto, unfolding(crate::specs::Saved::gate_of))]
fn gate_from(bytes: &[u8; 20]) -> Option<u64>
    ensures { result ≡ gate_of bytes.now }
{
    if bytes[0] == 1 {
        Some(long_in(bytes, 8))
    } else {
        None
    }
}

// What the gate of an area says.
fn read_gate<D: Disk>(disk: &mut D, place: &Place) -> Result<Option<u64>, DiskFault>
    requires within { D.tells → place.now.start + area_size place.now.blocks ≤ length (D.contents disk.old) }
    ensures gate { D.tells → IfOk result (λ gate. gate ≡ gate_of (area_in place.now.blocks place.now.start (D.contents disk.old))) }
    ensures still { Still D.tells D.contents D.moment D.image D.since disk.old disk.new }
    ensures same { OnOk result (D.faults disk.new ≡ D.faults disk.old) }
    ensures counted { D.faults disk.old ≤ D.faults disk.new }
    ensures failed { OnErr result (Rose (D.faults disk.old) (D.faults disk.new)) }
{
    match read_header(disk, place) {
        Ok(bytes) => Ok(gate_from(&bytes)),
        Err(fault) => Err(fault),
    }
}

// Whether a generation may stand in the area of this number.
fn fits_area(area: u64, generation: u64) -> bool
    ensures { result ≡ may_stand area generation }
{
    0 < generation && generation < 1 << 63 && generation % 2 == area
}

// The generation that is taken, by what the gates of the two areas say.
#[tactic(auto, unfolding(crate::specs::Saved::chosen))]
fn choose(first: Option<u64>, second: Option<u64>) -> Option<u64>
    ensures { result ≡ chosen first second }
{
    match (first, second) {
        (None, None) => Some(0),
        (Some(generation), None) => {
            if fits_area(0, generation) {
                Some(generation)
            } else {
                None
            }
        }
        (None, Some(generation)) => {
            if fits_area(1, generation) {
                Some(generation)
            } else {
                None
            }
        }
        (Some(first), Some(second)) => {
            if fits_area(0, first) && fits_area(1, second) {
                Some(first.max(second))
            } else {
                None
            }
        }
    }
}

/// Reads which generation is taken on a disk with so many blocks: none where a gate is open over a
/// generation that can't stand there.
///
/// # Errors
///
/// `DiskFault` only where the disk's count of faults rose.
pub fn read_generation<D: Disk>(disk: &mut D, blocks: u32) -> Result<Option<u64>, DiskFault>
    requires size { D.tells → length (D.contents disk.old) ≡ disk_size blocks }
    ensures generation { D.tells → IfOk result (λ generation. generation ≡ generation_in blocks (D.contents disk.old)) }
    ensures still { Still D.tells D.contents D.moment D.image D.since disk.old disk.new }
    ensures same { OnOk result (D.faults disk.new ≡ D.faults disk.old) }
    ensures counted { D.faults disk.old ≤ D.faults disk.new }
    ensures failed { OnErr result (Rose (D.faults disk.old) (D.faults disk.new)) }
{
    let first = match read_gate(disk, &place_of(blocks, 0)) {
        Ok(gate) => gate,
        Err(fault) => return Err(fault),
    };
    match read_gate(disk, &place_of(blocks, 1)) {
        Ok(second) => Ok(choose(first, second)),
        Err(fault) => Err(fault),
    }
}

/// Reads how many entries the area of a generation has. Generation 0 has none.
///
/// # Errors
///
/// `DiskFault` only where the disk's count of faults rose.
pub fn read_entries<D: Disk>(disk: &mut D, place: &Place, generation: u64) -> Result<u32, DiskFault>
    requires place { place.now.start ≡ 4096 + generation % 2 * area_size place.now.blocks }
    requires size { D.tells → length (D.contents disk.old) ≡ disk_size place.now.blocks }
    ensures entries { D.tells → IfOk result (λ entries. entries ≡ entries_at place.now.blocks generation (D.contents disk.old)) }
    ensures none { generation ≡ 0 → IfOk result (λ entries. entries ≡ 0) }
    ensures still { Still D.tells D.contents D.moment D.image D.since disk.old disk.new }
    ensures same { OnOk result (D.faults disk.new ≡ D.faults disk.old) }
    ensures counted { D.faults disk.old ≤ D.faults disk.new }
    ensures failed { OnErr result (Rose (D.faults disk.old) (D.faults disk.new)) }
{
    if generation == 0 {
        return Ok(0);
    }
    match read_header(disk, place) {
        Ok(bytes) => Ok(word_in(&bytes, 16)),
        Err(fault) => Err(fault),
    }
}
