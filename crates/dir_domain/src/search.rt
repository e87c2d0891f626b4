//! Places of a directory are looked at one by one.

ghost use Rattle.std.specs.Prelude.{◌≡◌, ◌⊎◌, ℕ, ◌/◌, ◌<◌, ◌≤◌, option_map};
ghost use Rattle.kn_base.specs.Memory.{Memory};
ghost use Rattle.kernel_tables.specs.Kernel.{Kernel, kernel_of, Sized, IsSized, IsBankPage, memory_page};
ghost use Rattle.unix_model.specs.Files.{inode_named};
ghost use Rattle.unix_model.specs.Limits.{place_bytes};
ghost use Rattle.unix_model.specs.Tables.{least_below};
ghost use Rattle.kernel_machine.specs.Contents.{places_in};
ghost use Rattle.kernel_machine.specs.Standing.{Standing};
ghost use Rattle.dir_domain.specs.Places as places;
ghost use Rattle.dir_domain.specs.Places.{has_name};
ghost use Rattle.dir_domain.specs.Rows.{IsDirectoryRow, bytes_stored};

use super::place::{inode_if_named, inode_of_place, place_bytes};
use super::row::tree_page;
use kernel_tables::Inode;
use kn_base::{PageId, Store};

// Whether a place of a page has this name.
#[tactic(auto, unfolding(crate::specs::Places::has_name))]
fn is_named<T: Store>(store: &T, page: PageId, number: u32, name: &[u8]) -> bool
    requires sized { Sized (kernel_of (T.memory store.now)) }
    requires page { (page.0 ≡ 0) ⊎ IsBankPage (kernel_of (T.memory store.now)).size page.0 }
    requires number { number < 128 }
    ensures { result ≡ has_name name.now (memory_page (kernel_of (T.memory store.now)) page.0) number }
{
    inode_if_named(&place_bytes(store, page, number), name).is_some()
}

// The first of so many places of a page that has this name.
#[tactic(auto, using(unix_model::proofs::TableLaws::steps))]
fn first_named_in<T: Store>(store: &T, page: PageId, count: u32, name: &[u8]) -> Option<u32>
    requires sized { Sized (kernel_of (T.memory store.now)) }
    requires page { (page.0 ≡ 0) ⊎ IsBankPage (kernel_of (T.memory store.now)).size page.0 }
    requires count { count ≤ 128 }
    ensures { result ≡ least_below (has_name name.now (memory_page (kernel_of (T.memory store.now)) page.0)) count }
{
    for number in 0..count {
        if is_named(store, page, number, name) {
            return Some(number);
        }
    }
    None
}

/// The first place of a directory that has this name. Each page is found once.
pub fn first_named<T: Store>(store: &T, row: &Inode, name: &[u8]) -> Option<u32>
    requires standing { Standing (kernel_of (T.memory store.now)) }
    requires row { (dir : ℕ) × IsDirectoryRow (kernel_of (T.memory store.now)) dir row.now }
    ensures { result ≡ least_below (has_name name.now (bytes_stored (kernel_of (T.memory store.now)) row.now)) (row.now.length / place_bytes) }
{
    let count = row.length / 32;
    for page in 0..(count + 127) / 128 {
        let here = (count - 128 * page).min(128);
        match first_named_in(store, tree_page(store, row.root, page), here, name) {
            Some(number) => return Some(128 * page + number),
            None => {}
        }
    }
    None
}

/// A place of a directory that has a name, and the inode there.
#[derive(Clone, Copy)]
pub struct Named {
    pub number: u32,
    pub inode: u32,
}

/// The first place of a directory that has this name, and its inode.
pub fn find_place<T: Store>(store: &T, row: &Inode, name: &[u8]) -> Option<Named>
    requires standing { Standing (kernel_of (T.memory store.now)) }
    requires row { (dir : ℕ) × IsDirectoryRow (kernel_of (T.memory store.now)) dir row.now }
    ensures number { option_map (λ named. named.number) result ≡ least_below (has_name name.now (bytes_stored (kernel_of (T.memory store.now)) row.now)) (row.now.length / place_bytes) }
    ensures inode { option_map (λ named. named.inode) result ≡ inode_named (places_in (bytes_stored (kernel_of (T.memory store.now)) row.now) (row.now.length / place_bytes)) name.now }
{
    match first_named(store, row, name) {
        Some(number) => {
            let page = tree_page(store, row.root, number / 128);
            let inode = inode_of_place(&place_bytes(store, page, number % 128));
            Some(Named { number, inode })
        }
        None => None,
    }
}

// Whether a place of a page is a hole.
#[tactic(auto, unfolding(crate::specs::Places::is_hole))]
fn is_hole<T: Store>(store: &T, page: PageId, number: u32) -> bool
    requires sized { Sized (kernel_of (T.memory store.now)) }
    requires page { (page.0 ≡ 0) ⊎ IsBankPage (kernel_of (T.memory store.now)).size page.0 }
    requires number { number < 128 }
    ensures { result ≡ places.is_hole (memory_page (kernel_of (T.memory store.now)) page.0) number }
{
    place_bytes(store, page, number) == [0; 32]
}

// The first of so many places of a page that is a hole.
#[tactic(auto, using(unix_model::proofs::TableLaws::steps))]
fn first_hole_in<T: Store>(store: &T, page: PageId, count: u32) -> Option<u32>
    requires sized { Sized (kernel_of (T.memory store.now)) }
    requires page { (page.0 ≡ 0) ⊎ IsBankPage (kernel_of (T.memory store.now)).size page.0 }
    requires count { count ≤ 128 }
    ensures { result ≡ least_below (places.is_hole (memory_page (kernel_of (T.memory store.now)) page.0)) count }
{
    for number in 0..count {
        if is_hole(store, page, number) {
            return Some(number);
        }
    }
    None
}

/// The first hole of a directory. Each page is found once.
pub fn first_hole<T: Store>(store: &T, row: &Inode) -> Option<u32>
    requires standing { Standing (kernel_of (T.memory store.now)) }
    requires row { (dir : ℕ) × IsDirectoryRow (kernel_of (T.memory store.now)) dir row.now }
    ensures { result ≡ least_below (places.is_hole (bytes_stored (kernel_of (T.memory store.now)) row.now)) (row.now.length / place_bytes) }
{
    let count = row.length / 32;
    for page in 0..(count + 127) / 128 {
        let here = (count - 128 * page).min(128);
        match first_hole_in(store, tree_page(store, row.root, page), here) {
            Some(number) => return Some(128 * page + number),
            None => {}
        }
    }
    None
}
