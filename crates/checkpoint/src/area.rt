//! How an area of a disk is filled.
ghost use Rattle.std.specs.Prelude.{◌≡◌, ◌<◌, ◌≤◌, ◌+◌, ◌-◌, ◌*◌, ◌^◌, ℕ, List, [], length, slice_index_or, IfOk, OnOk, OnErr};
ghost use Rattle.kn_io.specs.Faults.{Rose};
ghost use Rattle.kn_base.specs.Rows.{part_at, overwritten};
ghost use Rattle.obj_store.specs.Ram.{Ram};
ghost use Rattle.obj_store.specs.Store.{ram_of};
ghost use Rattle.kn_disk.specs.Images.{Inside};
ghost use Rattle.disk_layout.specs.Sizes.{contents_from, area_size, area_in, word};
ghost use Rattle.checkpoint.specs.Filling.{marks_below, Goes, Saves, HoldsBlocks};

use disk_layout::{DiskFault, Place, content_at, entry_at, header_bytes, word_bytes};
use kn_disk::Disk;
use obj_store::RamStore;

/// The bytes of a block.
pub(crate) fn block_of(store: &RamStore, number: u32) -> [u8; 4096]
    requires { number < length (ram_of store.now).blocks }
    ensures block { result ≡ slice_index_or (ram_of store.now).blocks number [] }
    ensures size { length result ≡ 4096 }
{
    let mut block = [0; 4096];
    store.get_block(number, &mut block);
    block
}

// Writes a part of the area behind its gate.
fn write_part<D: Disk>(disk: &mut D, place: &Place, at: u64, part: &[u8]) -> Result<(), DiskFault>
    requires behind { 1 ≤ at }
    requires fits { at + length part.now ≤ area_size place.now.blocks }
    requires within { D.tells → place.now.start + area_size place.now.blocks ≤ length (D.contents disk.old) }
    ensures inside { Inside D.moment D.image D.since (place.now.start + 1) (area_size place.now.blocks - 1) disk.old disk.new }
    ensures size { D.tells → OnOk result (length (D.contents disk.new) ≡ length (D.contents disk.old)) }
    ensures area { D.tells → OnOk result (area_in place.now.blocks place.now.start (D.contents disk.new) ≡ overwritten (area_in place.now.blocks place.now.start (D.contents disk.old)) at part.now) }
    ensures same { OnOk result (D.faults disk.new ≡ D.faults disk.old) }
    ensures counted { D.faults disk.old ≤ D.faults disk.new }
    ensures failed { OnErr result (Rose (D.faults disk.old) (D.faults disk.new)) }
{
    let _start = place.start;
    match disk.write_at(place.start + at, part) {
        Ok(()) => Ok(()),
        Err(_) => Err(DiskFault),
    }
}

// Saves a block as content block n, with its entry.
fn save_block<D: Disk>(
    disk: &mut D,
    place: &Place,
    store: &RamStore,
    number: u32,
    n: u32,
) -> Result<(), DiskFault>
    requires blocks { place.now.blocks ≡ length (ram_of store.now).blocks }
    requires number { number < place.now.blocks }
    requires n { n ≤ number }
    requires within { D.tells → place.now.start + area_size place.now.blocks ≤ length (D.contents disk.old) }
    ensures inside { Inside D.moment D.image D.since (place.now.start + 1) (area_size place.now.blocks - 1) disk.old disk.new }
    ensures size { D.tells → OnOk result (length (D.contents disk.new) ≡ length (D.contents disk.old)) }
    ensures saves { D.tells → OnOk result (Goes (contents_from place.now.blocks) (area_in place.now.blocks place.now.start (D.contents disk.old)) (area_in place.now.blocks place.now.start (D.contents disk.new)) (ram_of store.now) n (n + 1) number) }
    ensures same { OnOk result (D.faults disk.new ≡ D.faults disk.old) }
    ensures counted { D.faults disk.old ≤ D.faults disk.new }
    ensures failed { OnErr result (Rose (D.faults disk.old) (D.faults disk.new)) }
{
    let block = block_of(store, number);
    match write_part(disk, place, content_at(place, n), &block) {
        Ok(()) => {}
        Err(fault) => return Err(fault),
    }
    let bytes = word_bytes(number);
    match write_part(disk, place, entry_at(place, n), &bytes) {
        Ok(()) => Ok(()),
        Err(fault) => Err(fault),
    }
}

// Saves a block where it is marked. The result is the number of entries then.
#[tactic(auto, using(crate::proofs::FillLaws::marked))]
fn save_if_marked<D: Disk>(
    disk: &mut D,
    place: &Place,
    store: &RamStore,
    number: u32,
    n: u32,
) -> Result<u32, DiskFault>
    requires blocks { place.now.blocks ≡ length (ram_of store.now).blocks }
    requires number { number < place.now.blocks }
    requires n { n ≤ number }
    requires within { D.tells → place.now.start + area_size place.now.blocks ≤ length (D.contents disk.old) }
    ensures inside { Inside D.moment D.image D.since (place.now.start + 1) (area_size place.now.blocks - 1) disk.old disk.new }
    ensures size { D.tells → OnOk result (length (D.contents disk.new) ≡ length (D.contents disk.old)) }
    ensures few { IfOk result (λ m. m ≤ number + 1) }
    ensures marks { n ≡ marks_below (ram_of store.now) number → IfOk result (λ m. m ≡ marks_below (ram_of store.now) (number + 1)) }
    ensures saves { D.tells → IfOk result (λ m. Goes (contents_from place.now.blocks) (area_in place.now.blocks place.now.start (D.contents disk.old)) (area_in place.now.blocks place.now.start (D.contents disk.new)) (ram_of store.now) n m number) }
    ensures same { OnOk result (D.faults disk.new ≡ D.faults disk.old) }
    ensures counted { D.faults disk.old ≤ D.faults disk.new }
    ensures failed { OnErr result (Rose (D.faults disk.old) (D.faults disk.new)) }
{
    if store.is_dirty(number) {
        match save_block(disk, place, store, number, n) {
            Ok(()) => Ok(n + 1),
            Err(fault) => Err(fault),
        }
    } else {
        Ok(n)
    }
}

// Saves all marked blocks. The result is their number.
fn save_marked<D: Disk>(disk: &mut D, place: &Place, store: &RamStore) -> Result<u32, DiskFault>
    requires blocks { place.now.blocks ≡ length (ram_of store.now).blocks }
    requires within { D.tells → place.now.start + area_size place.now.blocks ≤ length (D.contents disk.old) }
    ensures inside { Inside D.moment D.image D.since (place.now.start + 1) (area_size place.now.blocks - 1) disk.old disk.new }
    ensures size { D.tells → OnOk result (length (D.contents disk.new) ≡ length (D.contents disk.old)) }
    ensures few { IfOk result (λ n. n ≤ place.now.blocks) }
    ensures marks { IfOk result (λ n. n ≡ marks_below (ram_of store.now) place.now.blocks) }
    ensures saved { D.tells → IfOk result (λ n. Saves (contents_from place.now.blocks) (area_in place.now.blocks place.now.start (D.contents disk.new)) (ram_of store.now) n place.now.blocks) }
    ensures same { OnOk result (D.faults disk.new ≡ D.faults disk.old) }
    ensures counted { D.faults disk.old ≤ D.faults disk.new }
    ensures failed { OnErr result (Rose (D.faults disk.old) (D.faults disk.new)) }
{
    let mut n = 0;
    for number in 0..place.blocks {
        match save_if_marked(disk, place, store, number, n) {
            Ok(next) => n = next,
            Err(fault) => return Err(fault),
        }
    }
    Ok(n)
}

// Fills an area behind its gate with the marked blocks, their numbers and a header. The result is their number.
pub(crate) fn fill<D: Disk>(
    disk: &mut D,
    place: &Place,
    store: &RamStore,
    generation: u64,
) -> Result<u32, DiskFault>
    requires blocks { place.now.blocks ≡ length (ram_of store.now).blocks }
    requires within { D.tells → place.now.start + area_size place.now.blocks ≤ length (D.contents disk.old) }
    ensures inside { Inside D.moment D.image D.since (place.now.start + 1) (area_size place.now.blocks - 1) disk.old disk.new }
    ensures size { D.tells → OnOk result (length (D.contents disk.new) ≡ length (D.contents disk.old)) }
    ensures few { IfOk result (λ n. n ≤ place.now.blocks) }
    ensures marks { IfOk result (λ n. n ≡ marks_below (ram_of store.now) place.now.blocks) }
    ensures count { D.tells → IfOk result (λ n. n ≡ word (area_in place.now.blocks place.now.start (D.contents disk.new)) 16) }
    ensures holds { D.tells → OnOk result (HoldsBlocks place.now.blocks (area_in place.now.blocks place.now.start (D.contents disk.new)) (ram_of store.now) generation) }
    ensures same { OnOk result (D.faults disk.new ≡ D.faults disk.old) }
    ensures counted { D.faults disk.old ≤ D.faults disk.new }
    ensures failed { OnErr result (Rose (D.faults disk.old) (D.faults disk.new)) }
{
    let n = match save_marked(disk, place, store) {
        Ok(n) => n,
        Err(fault) => return Err(fault),
    };
    let header = header_bytes(generation, n);
    match write_part(disk, place, 8, &header) {
        Ok(()) => Ok(n),
        Err(fault) => Err(fault),
    }
}
