//! The 32 bytes of a place.

ghost use Rattle.std.specs.Prelude.{◌≡◌, ℕ, ◌+◌, ◌*◌, ◌<◌, ◌≤◌, ◌⊎◌, length, take, drop, slice_index, option_map};
ghost use Rattle.std.specs.Int.{from_le_bytes, w32};
ghost use Rattle.kn_base.specs.Memory.{Memory};
ghost use Rattle.kn_base.specs.Rows.{part_at};
ghost use Rattle.kernel_tables.specs.Kernel.{Kernel, kernel_of, Sized, IsSized, IsBankPage, memory_page};
ghost use Rattle.unix_model.specs.FileCalls as model;
ghost use Rattle.unix_model.specs.Files.{Entry, place_inode};
ghost use Rattle.unix_model.specs.Limits.{place_bytes};
ghost use Rattle.kernel_machine.specs.Contents.{place_in};
ghost use Rattle.dir_domain.specs.Places.{has_name, is_hole, numbered_place};

use kernel_tables::read_memory_page;
use kn_base::{PageId, Store};

/// The bytes of a place of a page. `number` is below 128.
pub fn place_bytes<T: Store>(store: &T, page: PageId, number: u32) -> [u8; 32]
    requires sized { Sized (kernel_of (T.memory store.now)) }
    requires page { (page.0 ≡ 0) ⊎ IsBankPage (kernel_of (T.memory store.now)).size page.0 }
    requires number { number < 128 }
    ensures { result ≡ part_at (memory_page (kernel_of (T.memory store.now)) page.0) (place_bytes * number) place_bytes }
{
    let mut bytes = [0; 32];
    read_memory_page(store, page, (32 * number) as u16, &mut bytes);
    bytes
}

// How many bytes of a place are its name, which has at most 27.
fn name_length(bytes: &[u8; 32]) -> usize
    ensures few { result ≤ 27 }
    ensures name { take result (drop 5 bytes.now) ≡ take (slice_index bytes.now 4) (drop 5 bytes.now) }
{
    if bytes[4] > 27 { 27 } else { bytes[4] as usize }
}

/// The inode of a place that isn't a hole.
pub fn inode_of_place(bytes: &[u8; 32]) -> u32
    ensures { result ≡ from_le_bytes w32 (part_at bytes.now 0 4) }
{
    u32::from_le_bytes([bytes[0], bytes[1], bytes[2], bytes[3]])
}

/// The inode of the place that these bytes are, if it has this name.
pub fn inode_if_named(bytes: &[u8; 32], name: &[u8]) -> Option<u32>
    ensures { result ≡ place_inode name.now (place_in bytes.now) }
{
    if *bytes == [0; 32] {
        return None;
    }
    let own = &bytes[5..5 + name_length(bytes)];
    if own == name {
        Some(inode_of_place(bytes))
    } else {
        None
    }
}

/// The 32 bytes of an entry: the number of its inode, the length of its name, and the name with zeros behind it.
pub fn entry_bytes(inode: u32, name: &[u8]) -> [u8; 32]
    requires { length name.now ≤ 27 }
    ensures { result ≡ model.entry_bytes (record { name = name.now; inode = inode }) }
{
    let mut bytes = [0; 32];
    bytes[..4].copy_from_slice(&inode.to_le_bytes());
    bytes[4] = name.len() as u8;
    bytes[5..5 + name.len()].copy_from_slice(name);
    bytes
}

/// The 32 bytes of the entry that stands in a place, or None where it is a hole.
pub fn listed_entry(place: &[u8; 32]) -> Option<[u8; 32]>
    ensures { result ≡ option_map model.entry_bytes (place_in place.now) }
{
    if *place == [0; 32] {
        return None;
    }
    let own = &place[5..5 + name_length(place)];
    Some(entry_bytes(inode_of_place(place), own))
}
