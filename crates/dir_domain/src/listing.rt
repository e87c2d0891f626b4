//! Entries are listed.

ghost use Rattle.std.specs.Prelude.{◌≡◌, ◌≢◌, ℕ, ◌+◌, ◌*◌, ◌/◌, ◌%◌, ◌<◌, ◌≤◌, ◌^◌, ◌∷◌, ◌++◌, true, List, Option, length, take, drop};
ghost use Rattle.kn_base.specs.Memory.{Memory};
ghost use Rattle.kernel_tables.specs.Kernel.{Kernel, kernel_of};
ghost use Rattle.unix_model.specs.FileCalls.{listed_bytes, looked_at};
ghost use Rattle.unix_model.specs.Files.{Entry, is_directory};
ghost use Rattle.kernel_machine.specs.Contents.{place_in};
ghost use Rattle.kernel_machine.specs.Standing.{Standing};
ghost use Rattle.file_trees.specs.Trees.{IsTree};
ghost use Rattle.dir_domain.specs.Listing.{IsPageAt, Lists};
ghost use Rattle.dir_domain.specs.Rows.{inode_seen, places_seen};

use super::place::{listed_entry, place_bytes};
use super::row::{directory_row, tree_page};
use kn_base::{PageId, Store};

// The place that is looked at next, how many bytes were written so far, and for how many entries more there is room.
#[derive(Clone, Copy)]
struct Listing {
    next: u32,
    done: usize,
    left: usize,
}

// Looks at a place, for whose entry there is room.
fn list_place(listing: Listing, place: &[u8; 32], into: &mut [u8]) -> Listing
    requires left { 1 ≤ listing.left }
    requires room { listing.done + 32 * listing.left ≤ length into.old }
    requires next { listing.next < 1024 }
    ensures bytes { (rest : List (Option Entry)) → take result.done into.new ++ listed_bytes result.left rest ≡ take listing.done into.old ++ listed_bytes listing.left (place_in place.now ∷ rest) }
    ensures looked { (rest : List (Option Entry)) → result.next + looked_at result.left rest ≡ listing.next + looked_at listing.left (place_in place.now ∷ rest) }
    ensures behind { drop result.done into.new ≡ drop result.done into.old }
    ensures long { length into.new ≡ length into.old }
    ensures room { result.done + 32 * result.left ≡ listing.done + 32 * listing.left }
    ensures done { listing.done ≤ result.done }
    ensures few { result.done ≤ listing.done + 32 }
    ensures next { result.next ≡ listing.next + 1 }
{
    match listed_entry(place) {
        Some(entry) => {
            into[listing.done..listing.done + 32].copy_from_slice(&entry);
            Listing {
                next: listing.next + 1,
                done: listing.done + 32,
                left: listing.left - 1,
            }
        }
        None => Listing {
            next: listing.next + 1,
            done: listing.done,
            left: listing.left,
        },
    }
}

// The page of a place, where `page` is that of the place before it.
fn page_for<T: Store>(store: &T, root: u32, number: u32, page: PageId) -> PageId
    requires standing { Standing (kernel_of (T.memory store.now)) }
    requires tree { IsTree (kernel_of (T.memory store.now)) root }
    requires number { number < 1024 }
    requires before { number % 128 ≢ 0 → IsPageAt (kernel_of (T.memory store.now)) root (number / 128) page.0 }
    ensures { IsPageAt (kernel_of (T.memory store.now)) root (number / 128) result.0 }
{
    if number % 128 == 0 {
        tree_page(store, root, number / 128)
    } else {
        page
    }
}

/// Writes the entries of a directory from a place on, 32 bytes each, as many as `into` has room for, and answers how many bytes
/// these are and the next place. Holes are passed over, and places are looked at only while 32 bytes more fit. Behind the entries
/// `into` is as it was.
pub fn entries_from<T: Store>(store: &T, dir: u32, place: u32, into: &mut [u8]) -> (u32, u32)
    requires standing { Standing (kernel_of (T.memory store.now)) }
    requires directory { is_directory (inode_seen (kernel_of (T.memory store.now)) dir) ≡ true }
    ensures listed { Lists (places_seen (kernel_of (T.memory store.now)) dir) place into.old into.new result.0 result.1 }
    ensures long { length into.new ≡ length into.old }
{
    let row = directory_row(store, dir);
    let count = row.length / 32;
    if count <= place {
        return (0, place);
    }
    let mut page = tree_page(store, row.root, place / 128);
    let mut listing = Listing {
        next: place,
        done: 0,
        left: into.len() / 32,
    };
    while listing.next < count && listing.left > 0 {
        page = page_for(store, row.root, listing.next, page);
        let bytes = place_bytes(store, page, listing.next % 128);
        listing = list_place(listing, &bytes, into);
    }
    (listing.done as u32, listing.next)
}
