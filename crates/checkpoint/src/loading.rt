//! The blocks of a machine are read: those at home, and over them the contents of an area.
ghost use Rattle.std.specs.Prelude.{◌≡◌, ◌<◌, ◌≤◌, ◌+◌, ◌*◌, ℕ, true, false, None, List, length, slice_set, IfOk, IfSome, OnOk, OnErr};
ghost use Rattle.kn_io.specs.Faults.{Rose};
ghost use Rattle.obj_store.specs.Ram.{Ram};
ghost use Rattle.obj_store.specs.Store.{ram_of};
ghost use Rattle.disk_layout.specs.Sizes.{contents_from, area_size, area_in, disk_size, content, home_block};
ghost use Rattle.disk_layout.specs.Saved.{overlaid, ascends, home_of};
ghost use Rattle.disk_layout.specs.Runs.{Still};
ghost use Rattle.checkpoint.specs.Loading.{KeepsSizes, Laid};

use disk_layout::{DiskFault, Place, read_content, read_entry, read_home};
use kn_disk::Disk;
use obj_store::RamStore;

// Reads a home block into the store.
fn load_home_block<D: Disk>(
    disk: &mut D,
    place: &Place,
    store: &mut RamStore,
    number: u32,
) -> Result<(), DiskFault>
    requires blocks { place.now.blocks ≡ length (ram_of store.old).blocks }
    requires number { number < place.now.blocks }
    requires size { D.tells → length (D.contents disk.old) ≡ disk_size place.now.blocks }
    ensures loaded { D.tells → OnOk result (ram_of store.new ≡ record (ram_of store.old) { blocks = slice_set (ram_of store.old).blocks number (home_block place.now.blocks (D.contents disk.old) number) }) }
    ensures kept { KeepsSizes (ram_of store.old) (ram_of store.new) }
    ensures still { Still D.tells D.contents D.moment D.image D.since disk.old disk.new }
    ensures same { OnOk result (D.faults disk.new ≡ D.faults disk.old) }
    ensures counted { D.faults disk.old ≤ D.faults disk.new }
    ensures failed { OnErr result (Rose (D.faults disk.old) (D.faults disk.new)) }
{
    let block = match read_home(disk, place, number) {
        Ok(block) => block,
        Err(fault) => return Err(fault),
    };
    store.put_block(number, &block);
    Ok(())
}

// Reads all home blocks into the store.
fn load_home<D: Disk>(disk: &mut D, place: &Place, store: &mut RamStore) -> Result<(), DiskFault>
    requires blocks { place.now.blocks ≡ length (ram_of store.old).blocks }
    requires size { D.tells → length (D.contents disk.old) ≡ disk_size place.now.blocks }
    ensures loaded { D.tells → OnOk result ((ram_of store.new).blocks ≡ home_of place.now.blocks (D.contents disk.old)) }
    ensures kept { KeepsSizes (ram_of store.old) (ram_of store.new) }
    ensures still { Still D.tells D.contents D.moment D.image D.since disk.old disk.new }
    ensures same { OnOk result (D.faults disk.new ≡ D.faults disk.old) }
    ensures counted { D.faults disk.old ≤ D.faults disk.new }
    ensures failed { OnErr result (Rose (D.faults disk.old) (D.faults disk.new)) }
{
    'homes: for number in 0..place.blocks {
        match load_home_block(disk, place, store, number) {
            Ok(()) => {}
            Err(fault) => return Err(fault),
        }
    }
    Ok(())
}

// Reads content block i into the store at a number.
fn load_content<D: Disk>(
    disk: &mut D,
    place: &Place,
    store: &mut RamStore,
    i: u32,
    number: u32,
) -> Result<(), DiskFault>
    requires blocks { place.now.blocks ≡ length (ram_of store.old).blocks }
    requires i { i < place.now.blocks }
    requires number { number < place.now.blocks }
    requires within { D.tells → place.now.start + area_size place.now.blocks ≤ length (D.contents disk.old) }
    ensures loaded { D.tells → OnOk result (ram_of store.new ≡ record (ram_of store.old) { blocks = slice_set (ram_of store.old).blocks number (content (contents_from place.now.blocks) (area_in place.now.blocks place.now.start (D.contents disk.old)) i) }) }
    ensures kept { KeepsSizes (ram_of store.old) (ram_of store.new) }
    ensures still { Still D.tells D.contents D.moment D.image D.since disk.old disk.new }
    ensures same { OnOk result (D.faults disk.new ≡ D.faults disk.old) }
    ensures counted { D.faults disk.old ≤ D.faults disk.new }
    ensures failed { OnErr result (Rose (D.faults disk.old) (D.faults disk.new)) }
{
    let block = match read_content(disk, place, i) {
        Ok(block) => block,
        Err(fault) => return Err(fault),
    };
    store.put_block(number, &block);
    Ok(())
}

// Reads entry i and its content into the store. The entry must be at least `from`. The result is the least that the next
// one may be, or nothing where the entry isn't right.
fn load_entry<D: Disk>(
    disk: &mut D,
    place: &Place,
    store: &mut RamStore,
    i: u32,
    from: u32,
) -> Result<Option<u32>, DiskFault>
    requires blocks { place.now.blocks ≡ length (ram_of store.old).blocks }
    requires i { i < place.now.blocks }
    requires within { D.tells → place.now.start + area_size place.now.blocks ≤ length (D.contents disk.old) }
    ensures laid { D.tells → IfOk result (λ next. IfSome next (λ n. (home : List (List ℕ)) → Laid place.now.blocks (area_in place.now.blocks place.now.start (D.contents disk.old)) home i from (ram_of store.old).blocks → Laid place.now.blocks (area_in place.now.blocks place.now.start (D.contents disk.old)) home (i + 1) n (ram_of store.new).blocks)) }
    ensures wrong { D.tells → IfOk result (λ next. next ≡ None → (home : List (List ℕ)) → Laid place.now.blocks (area_in place.now.blocks place.now.start (D.contents disk.old)) home i from (ram_of store.old).blocks → ascends place.now.blocks (area_in place.now.blocks place.now.start (D.contents disk.old)) (i + 1) ≡ false) }
    ensures kept { KeepsSizes (ram_of store.old) (ram_of store.new) }
    ensures still { Still D.tells D.contents D.moment D.image D.since disk.old disk.new }
    ensures same { OnOk result (D.faults disk.new ≡ D.faults disk.old) }
    ensures counted { D.faults disk.old ≤ D.faults disk.new }
    ensures failed { OnErr result (Rose (D.faults disk.old) (D.faults disk.new)) }
{
    let number = match read_entry(disk, place, i) {
        Ok(number) => number,
        Err(fault) => return Err(fault),
    };
    if number < from {
        return Ok(None);
    }
    if number >= place.blocks {
        return Ok(None);
    }
    match load_content(disk, place, store, i, number) {
        Ok(()) => Ok(Some(number + 1)),
        Err(fault) => Err(fault),
    }
}

// Reads the first n entries and their contents into the store. The result is whether they are right.
fn load_entries<D: Disk>(
    disk: &mut D,
    place: &Place,
    store: &mut RamStore,
    n: u32,
) -> Result<bool, DiskFault>
    requires blocks { place.now.blocks ≡ length (ram_of store.old).blocks }
    requires n { n ≤ place.now.blocks }
    requires within { D.tells → place.now.start + area_size place.now.blocks ≤ length (D.contents disk.old) }
    ensures right { D.tells → IfOk result (λ right. right ≡ ascends place.now.blocks (area_in place.now.blocks place.now.start (D.contents disk.old)) n) }
    ensures over { D.tells → IfOk result (λ right. right ≡ true → (ram_of store.new).blocks ≡ overlaid (contents_from place.now.blocks) (area_in place.now.blocks place.now.start (D.contents disk.old)) n (ram_of store.old).blocks) }
    ensures kept { KeepsSizes (ram_of store.old) (ram_of store.new) }
    ensures still { Still D.tells D.contents D.moment D.image D.since disk.old disk.new }
    ensures same { OnOk result (D.faults disk.new ≡ D.faults disk.old) }
    ensures counted { D.faults disk.old ≤ D.faults disk.new }
    ensures failed { OnErr result (Rose (D.faults disk.old) (D.faults disk.new)) }
{
    let mut from = 0;
    'entries: for i in 0..n {
        let next = match load_entry(disk, place, store, i, from) {
            Ok(next) => next,
            Err(fault) => return Err(fault),
        };
        match next {
            Some(least) => from = least,
            None => return Ok(false),
        }
    }
    Ok(true)
}

/// Reads the home blocks, and over them the contents of the first n entries of an area. The result is
/// whether these entries are right.
pub(crate) fn load_blocks<D: Disk>(
    disk: &mut D,
    place: &Place,
    store: &mut RamStore,
    n: u32,
) -> Result<bool, DiskFault>
    requires blocks { place.now.blocks ≡ length (ram_of store.old).blocks }
    requires n { n ≤ place.now.blocks }
    requires place { D.tells → place.now.start + area_size place.now.blocks ≤ length (D.contents disk.old) }
    requires size { D.tells → length (D.contents disk.old) ≡ disk_size place.now.blocks }
    ensures right { D.tells → IfOk result (λ right. right ≡ ascends place.now.blocks (area_in place.now.blocks place.now.start (D.contents disk.old)) n) }
    ensures over { D.tells → IfOk result (λ right. right ≡ true → (ram_of store.new).blocks ≡ overlaid (contents_from place.now.blocks) (area_in place.now.blocks place.now.start (D.contents disk.old)) n (home_of place.now.blocks (D.contents disk.old))) }
    ensures kept { KeepsSizes (ram_of store.old) (ram_of store.new) }
    ensures still { Still D.tells D.contents D.moment D.image D.since disk.old disk.new }
    ensures same { OnOk result (D.faults disk.new ≡ D.faults disk.old) }
    ensures counted { D.faults disk.old ≤ D.faults disk.new }
    ensures failed { OnErr result (Rose (D.faults disk.old) (D.faults disk.new)) }
{
    match load_home(disk, place, store) {
        Ok(()) => {}
        Err(fault) => return Err(fault),
    }
    match load_entries(disk, place, store, n) {
        Ok(right) => Ok(right),
        Err(fault) => Err(fault),
    }
}
