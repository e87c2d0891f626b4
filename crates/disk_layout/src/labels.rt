//! Labels are read.
ghost use Rattle.std.specs.Prelude.{◌≡◌, ◌<◌, ◌≤◌, ◌+◌, ◌*◌, ◌^◌, ◌==◌, ℕ, List, codes, length, IfOk, OnOk, OnErr, bytes_eq};
ghost use Rattle.kn_io.specs.Faults.{Rose};
ghost use Rattle.kn_base.specs.Rows.{part_at};
ghost use Rattle.disk_layout.specs.Sizes.{blocks_for, pages_right, quantum_right, disk_size};
ghost use Rattle.disk_layout.specs.Saved.{label_in, label_of, label_right, is_present, NamesRight};
ghost use Rattle.disk_layout.specs.Runs.{Still};

use crate::label::Label;
use crate::numbers::word_in;
use crate::progress::DiskFault;
use kernel_tables::first_bank_page;
use kn_disk::Disk;

/// How many blocks a machine with so many bank pages has.
#[tactic(auto, unfolding(crate::specs::Sizes::blocks_for, kernel_tables::specs::Kernel::first_page))]
pub fn blocks_of_pages(pages: u32) -> u32
    requires { pages ≤ 16384 }
    ensures { result ≡ blocks_for pages }
{
    first_bank_page(pages) + pages + (4 * pages + 1296) / 16
}

/// How long a disk with so many blocks is.
#[tactic(auto, unfolding(crate::specs::Sizes::area_size, crate::specs::Sizes::contents_from))]
pub fn length_of_disk(blocks: u32) -> u64
    ensures size { result ≡ disk_size blocks }
    ensures range { result < 2 ^ 50 }
{
    let from = 4096 + 4096 * ((4 * blocks as u64 + 4095) / 4096);
    4096 + 2 * (from + 4096 * blocks as u64) + 4096 * blocks as u64
}

// Whether a label has the name.
fn is_named(bytes: &[u8; 20]) -> bool
    ensures { result ≡ bytes_eq (part_at bytes.now 1 7) (codes "KEYNIXD") }
{
    &bytes[1..8] == b"KEYNIXD".as_slice()
}

/// Whether a machine may have so many bank pages.
pub fn pages_fit(pages: u32) -> bool
    ensures { result ≡ pages_right pages }
{
    64 <= pages && pages <= 16384 && pages % 64 == 0
}

/// Whether a machine may give each process so many turns in a round.
pub fn quantum_fits(quantum: u32) -> bool
    ensures { result ≡ quantum_right quantum }
{
    1 <= quantum && quantum <= 10000
}

// Whether the label of a disk of so many bytes is right.
fn is_right(size: u64, bytes: &[u8; 20]) -> bool
    ensures { result ≡ label_right size bytes.now }
{
    let pages = word_in(bytes, 12);
    is_named(bytes)
        && word_in(bytes, 8) == 1
        && pages_fit(pages)
        && quantum_fits(word_in(bytes, 16))
        && size == length_of_disk(blocks_of_pages(pages))
}

// What the first bytes of a disk of so many bytes say.
#[tactic(auto, unfolding(crate::specs::Saved::label_of))]
fn label_from(size: u64, bytes: &[u8; 20]) -> Label
    ensures label { result ≡ label_of size bytes.now }
    ensures right { NamesRight result }
{
    if size < 4096 || bytes[0] != 1 {
        return Label::Absent;
    }
    if !is_right(size, bytes) {
        return Label::Wrong;
    }
    Label::Names {
        pages: word_in(bytes, 12),
        quantum: word_in(bytes, 16),
    }
}

// Reads the first bytes of a disk.
fn read_front<D: Disk>(disk: &mut D) -> Result<[u8; 20], DiskFault>
    requires long { D.tells → 4096 ≤ length (D.contents disk.old) }
    ensures front { D.tells → IfOk result (λ bytes. bytes ≡ part_at (D.contents disk.old) 0 20) }
    ensures still { Still D.tells D.contents D.moment D.image D.since disk.old disk.new }
    ensures same { OnOk result (D.faults disk.new ≡ D.faults disk.old) }
    ensures counted { D.faults disk.old ≤ D.faults disk.new }
    ensures failed { OnErr result (Rose (D.faults disk.old) (D.faults disk.new)) }
{
    let mut bytes = [0; 20];
    match disk.read_at(0, &mut bytes) {
        Ok(()) => Ok(bytes),
        Err(_) => Err(DiskFault),
    }
}

// How long a disk is.
fn read_length<D: Disk>(disk: &mut D) -> Result<u64, DiskFault>
    ensures value { D.tells → IfOk result (λ size. size ≡ length (D.contents disk.old)) }
    ensures still { Still D.tells D.contents D.moment D.image D.since disk.old disk.new }
    ensures same { OnOk result (D.faults disk.new ≡ D.faults disk.old) }
    ensures counted { D.faults disk.old ≤ D.faults disk.new }
    ensures failed { OnErr result (Rose (D.faults disk.old) (D.faults disk.new)) }
{
    match disk.length() {
        Ok(size) => Ok(size),
        Err(_) => Err(DiskFault),
    }
}

/// Reads the label of a disk.
///
/// # Errors
///
/// `DiskFault` only where the disk's count of faults rose.
pub fn read_label<D: Disk>(disk: &mut D) -> Result<Label, DiskFault>
    ensures label { D.tells → IfOk result (λ label. label ≡ label_in (D.contents disk.old)) }
    ensures still { Still D.tells D.contents D.moment D.image D.since disk.old disk.new }
    ensures right { IfOk result (λ label. NamesRight label) }
    ensures same { OnOk result (D.faults disk.new ≡ D.faults disk.old) }
    ensures counted { D.faults disk.old ≤ D.faults disk.new }
    ensures failed { OnErr result (Rose (D.faults disk.old) (D.faults disk.new)) }
{
    let size = match read_length(disk) {
        Ok(size) => size,
        Err(fault) => return Err(fault),
    };
    if size < 4096 {
        return Ok(Label::Absent);
    }
    match read_front(disk) {
        Ok(bytes) => Ok(label_from(size, &bytes)),
        Err(fault) => Err(fault),
    }
}

/// Whether a machine is present on a disk: it has at least 4,096 bytes, and the first is 1.
///
/// # Errors
///
/// `DiskFault` only where the disk's count of faults rose.
pub fn present<D: Disk>(disk: &mut D) -> Result<bool, DiskFault>
    ensures present { D.tells → IfOk result (λ is. is ≡ is_present (D.contents disk.old)) }
    ensures still { Still D.tells D.contents D.moment D.image D.since disk.old disk.new }
    ensures same { OnOk result (D.faults disk.new ≡ D.faults disk.old) }
    ensures counted { D.faults disk.old ≤ D.faults disk.new }
    ensures failed { OnErr result (Rose (D.faults disk.old) (D.faults disk.new)) }
{
    let size = match read_length(disk) {
        Ok(size) => size,
        Err(fault) => return Err(fault),
    };
    if size < 4096 {
        return Ok(false);
    }
    match read_front(disk) {
        Ok(bytes) => Ok(bytes[0] == 1),
        Err(fault) => Err(fault),
    }
}
