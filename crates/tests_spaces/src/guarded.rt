//! Calls on spaces that look first whether they may be made.

ghost use Rattle.std.specs.Prelude.{◌≡◌, ◌≢◌, ℕ, ◌<◌, ◌≤◌, ◌+◌, ◌%◌, ◌^◌, IfOk, IfSome, None, true, length, []};
ghost use Rattle.kn_base.specs.Memory.{Memory};
ghost use Rattle.kernel_tables.specs.Kernel.{Kernel, kernel_of, Sized, IsSized, first_page, node_count};
ghost use Rattle.space_bank.specs.Bank.{BankGood};
ghost use Rattle.obj_store.specs.Store.{ram_memory};
ghost use Rattle.forest.specs.Calls.{IsOwn};
ghost use Rattle.forest.specs.Walks.{map_of};
ghost use Rattle.kernel_forest.specs.Trees.{forest_of};
ghost use Rattle.seg_tree.specs.Writes.{writable_mapping};
ghost use Rattle.tests_spaces.specs.Ready.{IsReady, IsTestSpace, KeepsOthers, KeepsSpaces};

use kernel_tables::{NodeOwner, bank_size, first_bank_page};
use kn_base::{Key, NodeId, PageId, Store};
use obj_store::{NoMemory, RamStore};
use seg_tree::{
    Space, drop_space, find, map_zero, mapped, new_space, protect, share, unmap, writable,
};
use space_bank::{setup, taken_of};
use std::alloc::Global;
use user_copy::{can_write, page_owner, put_bytes};

/// An empty bank of so many pages, with 100 turns of each process to a round.
#[tactic(auto, unfolding(kernel_tables::specs::Kernel::first_page))]
pub fn bank_of(alloc: Global, pages: u32) -> Result<RamStore, NoMemory>
    requires least { 64 ≤ pages }
    requires most { pages ≤ 16384 }
    requires multiple { pages % 64 ≡ 0 }
    ensures ready { IfOk result (λ store. IsReady (kernel_of (ram_memory store))) }
{
    let all_pages = first_bank_page(pages) + pages;
    match RamStore::new(alloc, all_pages, 4 * pages + 1296) {
        Ok(mut store) => {
            setup(&mut store, pages, 100);
            Ok(store)
        }
        Err(NoMemory) => Err(NoMemory),
    }
}

/// Whether there are eight nodes and three pages, which is enough for each call on spaces.
pub fn has_room<T: Store>(store: &T) -> bool
    requires good { BankGood (kernel_of (T.memory store.now)) }
    ensures nodes { result ≡ true → (kernel_of (T.memory store.now)).machine.nodes_taken + 23 ≤ (kernel_of (T.memory store.now)).nodes }
    ensures pages { result ≡ true → (kernel_of (T.memory store.now)).machine.pages_taken + 3 ≤ (kernel_of (T.memory store.now)).size }
{
    let taken = taken_of(store);
    let size = bank_size(store) as u64;
    taken.nodes as u64 + 23 <= 4 * size + 1296 && taken.pages as u64 + 3 <= size
}

/// A new space of a process, in which nothing is mapped.
pub fn add_space<T: Store>(store: &mut T) -> Option<Space>
    requires ready { IsReady (kernel_of (T.memory store.old)) }
    ensures ready { IsReady (kernel_of (T.memory store.new)) }
    ensures spaces { KeepsSpaces (kernel_of (T.memory store.old)) (kernel_of (T.memory store.new)) }
    ensures added { IfSome result (λ space. IsTestSpace (kernel_of (T.memory store.new)) space.0.0) }
    ensures empty { IfSome result (λ space. map_of (forest_of (kernel_of (T.memory store.new))).keys space.0.0 ≡ (λ page. None)) }
{
    if !has_room(store) {
        return None;
    }
    let keeper = Key::Start {
        domain: NodeId(1),
        byte: 0,
    };
    Some(new_space(store, NodeOwner::Tree, keeper))
}

/// Maps the page of zeros where nothing is mapped.
pub fn map<T: Store>(store: &mut T, space: Space, page: u32, writable: bool) -> bool
    requires ready { IsReady (kernel_of (T.memory store.old)) }
    requires space { IsTestSpace (kernel_of (T.memory store.old)) space.0.0 }
    ensures ready { IsReady (kernel_of (T.memory store.new)) }
    ensures spaces { KeepsSpaces (kernel_of (T.memory store.old)) (kernel_of (T.memory store.new)) }
    ensures stays { IsTestSpace (kernel_of (T.memory store.new)) space.0.0 }
{
    if page >= 0x8_0000 || !has_room(store) {
        return false;
    }
    match find(store, space, page) {
        Some(_found) => false,
        None => {
            map_zero(store, space, page, writable);
            true
        }
    }
}

/// Makes a mapped page read-only.
pub fn seal<T: Store>(store: &mut T, space: Space, page: u32) -> bool
    requires ready { IsReady (kernel_of (T.memory store.old)) }
    requires space { IsTestSpace (kernel_of (T.memory store.old)) space.0.0 }
    ensures ready { IsReady (kernel_of (T.memory store.new)) }
    ensures spaces { KeepsSpaces (kernel_of (T.memory store.old)) (kernel_of (T.memory store.new)) }
    ensures stays { IsTestSpace (kernel_of (T.memory store.new)) space.0.0 }
{
    if page >= 0x8_0000 || !has_room(store) {
        return false;
    }
    match find(store, space, page) {
        Some(_found) => {
            protect(store, space, page);
            true
        }
        None => false,
    }
}

/// Takes the page away that is mapped at a page number.
pub fn take_away<T: Store>(store: &mut T, space: Space, page: u32) -> bool
    requires ready { IsReady (kernel_of (T.memory store.old)) }
    requires space { IsTestSpace (kernel_of (T.memory store.old)) space.0.0 }
    ensures ready { IsReady (kernel_of (T.memory store.new)) }
    ensures spaces { KeepsSpaces (kernel_of (T.memory store.old)) (kernel_of (T.memory store.new)) }
    ensures stays { IsTestSpace (kernel_of (T.memory store.new)) space.0.0 }
{
    if page >= 0x8_0000 || !has_room(store) {
        return false;
    }
    match find(store, space, page) {
        Some(_found) => {
            unmap(store, space, page);
            true
        }
        None => false,
    }
}

/// How many pages are mapped.
pub fn count_mapped<T: Store>(store: &T, space: Space) -> u32
    requires ready { IsReady (kernel_of (T.memory store.now)) }
    requires space { IsTestSpace (kernel_of (T.memory store.now)) space.0.0 }
{
    mapped(store, space)
}

/// The page that may be written at a page number, once it is this space's own.
pub fn own<T: Store>(store: &mut T, space: Space, page: u32) -> Option<PageId>
    requires ready { IsReady (kernel_of (T.memory store.old)) }
    requires space { IsTestSpace (kernel_of (T.memory store.old)) space.0.0 }
    ensures ready { IsReady (kernel_of (T.memory store.new)) }
    ensures spaces { KeepsSpaces (kernel_of (T.memory store.old)) (kernel_of (T.memory store.new)) }
    ensures own { IfSome result (λ id. IsOwn (forest_of (kernel_of (T.memory store.new))) space.0.0 page (writable_mapping id.0)) }
    ensures stays { IsTestSpace (kernel_of (T.memory store.new)) space.0.0 }
{
    if page >= 0x8_0000 || !has_room(store) {
        return None;
    }
    let owner = page_owner(store, space);
    match writable(store, space, page, owner) {
        Some(id) => Some(id),
        None => None,
    }
}

/// Puts bytes where all of them may be written.
pub fn put<T: Store>(store: &mut T, space: Space, at: u32, from: &[u8]) -> bool
    requires ready { IsReady (kernel_of (T.memory store.old)) }
    requires space { IsTestSpace (kernel_of (T.memory store.old)) space.0.0 }
    ensures ready { IsReady (kernel_of (T.memory store.new)) }
    ensures spaces { KeepsSpaces (kernel_of (T.memory store.old)) (kernel_of (T.memory store.new)) }
    ensures stays { IsTestSpace (kernel_of (T.memory store.new)) space.0.0 }
{
    if from.len() > 4096 || !has_room(store) {
        return false;
    }
    if !can_write(store, space, at, from.len() as u32) {
        return false;
    }
    put_bytes(store, space, at, from);
    true
}

/// A space with the same map.
pub fn share_of<T: Store>(store: &mut T, space: Space) -> Option<Space>
    requires ready { IsReady (kernel_of (T.memory store.old)) }
    requires space { IsTestSpace (kernel_of (T.memory store.old)) space.0.0 }
    ensures ready { IsReady (kernel_of (T.memory store.new)) }
    ensures spaces { KeepsSpaces (kernel_of (T.memory store.old)) (kernel_of (T.memory store.new)) }
    ensures stays { IsTestSpace (kernel_of (T.memory store.new)) space.0.0 }
    ensures apart { IfSome result (λ copy. copy.0.0 ≢ space.0.0) }
    ensures added { IfSome result (λ copy. IsTestSpace (kernel_of (T.memory store.new)) copy.0.0) }
{
    if has_room(store) {
        Some(share(store, space))
    } else {
        None
    }
}

/// Drops a space. Every other one stays.
pub fn drop_one<T: Store>(store: &mut T, space: Space)
    requires ready { IsReady (kernel_of (T.memory store.old)) }
    requires space { IsTestSpace (kernel_of (T.memory store.old)) space.0.0 }
    ensures ready { IsReady (kernel_of (T.memory store.new)) }
    ensures others { KeepsOthers (kernel_of (T.memory store.old)) (kernel_of (T.memory store.new)) space.0.0 }
{
    drop_space(store, space);
}
