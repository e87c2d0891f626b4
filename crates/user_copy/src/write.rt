//! Writing bytes of a space.

ghost use Rattle.std.specs.Prelude.{◌≡◌, ℕ, ◌+◌, ◌-◌, ◌*◌, ◌/◌, ◌%◌, ◌<◌, ◌≤◌, ◌^◌, Some, true, List, [], length};
ghost use Rattle.kn_base.specs.Memory.{Memory, zero_page};
ghost use Rattle.kernel_tables.specs.Kernel.{Kernel, kernel_of, Sized, IsSized};
ghost use Rattle.space_bank.specs.Bank.{BankGood};
ghost use Rattle.space_bank.specs.Shares.{Outside};
ghost use Rattle.unix_model.specs.Memory.{all_writable, is_writable};
ghost use Rattle.forest.specs.Objects.{NodeObject};
ghost use Rattle.forest.specs.Walks.{map_of, Mapping};
ghost use Rattle.forest.specs.Calls.{IsOwn};
ghost use Rattle.forest.specs.Forest.{IsSpace};
ghost use Rattle.kernel_forest.specs.Trees.{forest_of, node_tree, page_tree, TreesGood};
ghost use Rattle.seg_tree.specs.Promises.{found_mapping};
ghost use Rattle.user_copy.specs.SpaceMemory.{space_memory};
ghost use Rattle.seg_tree.specs.Blocks.{ChangesAtMost};
ghost use Rattle.user_copy.specs.Writing.{PutsPiece, PutsBytes, NotOwn, pages_touched, pages_for, owner_for};

use super::read::mapped_at;
use kernel_tables::{Entry, NodeOwner, PageOwner, node_entry};
use kn_base::Store;
use seg_tree::{Space, writable};
use space_bank::write_page;

// Whether the bytes of a page may be written.
fn is_writable<T: Store>(store: &T, space: Space, page: u32) -> bool
    requires good { BankGood (kernel_of (T.memory store.now)) }
    requires trees { (outside : Outside) × TreesGood (kernel_of (T.memory store.now)) outside [] }
    requires space { IsSpace (forest_of (kernel_of (T.memory store.now))) [] space.0.0 }
    ensures { (address : ℕ) → address / 4096 ≡ page → result ≡ is_writable (space_memory (kernel_of (T.memory store.now)) space.0.0) address }
{
    match mapped_at(store, space, page) {
        Some(found) => found.writable,
        None => false,
    }
}

// Whether each byte of a range that isn't empty may be written, page by page.
fn are_writable<T: Store>(store: &T, space: Space, at: u32, count: u32) -> bool
    requires good { BankGood (kernel_of (T.memory store.now)) }
    requires trees { (outside : Outside) × TreesGood (kernel_of (T.memory store.now)) outside [] }
    requires space { IsSpace (forest_of (kernel_of (T.memory store.now))) [] space.0.0 }
    requires some { 1 ≤ count }
    requires within { at + count ≤ 2 ^ 31 }
    ensures { result ≡ all_writable (space_memory (kernel_of (T.memory store.now)) space.0.0) at count }
{
    for page in at / 4096..(at + count - 1) / 4096 + 1 {
        if !is_writable(store, space, page) {
            return false;
        }
    }
    true
}

/// Whether each byte of a range may be written: it is mapped, on a page that isn't read-only.
pub fn can_write<T: Store>(store: &T, space: Space, at: u32, count: u32) -> bool
    requires good { BankGood (kernel_of (T.memory store.now)) }
    requires trees { (outside : Outside) × TreesGood (kernel_of (T.memory store.now)) outside [] }
    requires space { IsSpace (forest_of (kernel_of (T.memory store.now))) [] space.0.0 }
    ensures { result ≡ all_writable (space_memory (kernel_of (T.memory store.now)) space.0.0) at count }
{
    if count == 0 {
        return true;
    }
    if count <= 4096 - at % 4096 {
        return is_writable(store, space, at / 4096);
    }
    if at as u64 + count as u64 > 0x8000_0000 {
        return false;
    }
    are_writable(store, space, at, count)
}

// The owner of pages in a tree of an owner.
fn tree_pages(owner: NodeOwner) -> PageOwner
    ensures { result ≡ pages_for (node_tree owner) }
{
    match owner {
        NodeOwner::FileTree => PageOwner::File,
        NodeOwner::Tree | NodeOwner::Domain => PageOwner::Memory,
    }
}

/// The owner of the pages that are taken for a space: of memory where it is a process's, else of a file.
pub fn page_owner<T: Store>(store: &T, space: Space) -> PageOwner
    requires good { BankGood (kernel_of (T.memory store.now)) }
    requires space { IsSpace (forest_of (kernel_of (T.memory store.now))) [] space.0.0 }
    ensures owner { result ≡ owner_for (kernel_of (T.memory store.now)) space.0.0 }
    ensures tree { page_tree result ≡ (forest_of (kernel_of (T.memory store.now))).owner (NodeObject space.0.0) }
{
    match node_entry(store, space.0) {
        Entry::Taken { owner, .. } => tree_pages(owner),
        _ => PageOwner::Memory,
    }
}

/// Puts bytes that lie in one page of a space, which may be written there. A page that is taken for it is of this owner, whose
/// pages the trees of the space's owner have. It takes at most four nodes, none where the way to the page is the space's own, and
/// a page exactly where the page isn't own.
pub fn put_in_page<T: Store>(store: &mut T, space: Space, at: u32, from: &[u8], owner: PageOwner)
    requires good { BankGood (kernel_of (T.memory store.old)) }
    requires trees { (outside : Outside) × TreesGood (kernel_of (T.memory store.old)) outside [] }
    requires space { IsSpace (forest_of (kernel_of (T.memory store.old))) [] space.0.0 }
    requires owner { page_tree owner ≡ (forest_of (kernel_of (T.memory store.old))).owner (NodeObject space.0.0) }
    requires zero { (kernel_of (T.memory store.old)).page_zero ≡ zero_page }
    requires some { 1 ≤ length from.now }
    requires within { at % 4096 + length from.now ≤ 4096 }
    requires can_write { all_writable (space_memory (kernel_of (T.memory store.old)) space.0.0) at (length from.now) ≡ true }
    requires room { let old = kernel_of (T.memory store.old) in old.machine.nodes_taken + 19 ≤ old.nodes }
    requires page_room { let old = kernel_of (T.memory store.old) in (found : Mapping) → map_of (forest_of old).keys space.0.0 (at / 4096) ≡ Some found → (IsOwn (forest_of old) space.0.0 (at / 4096) found → ⊥) → old.machine.pages_taken < old.size }
    ensures put { PutsPiece (kernel_of (T.memory store.old)) (kernel_of (T.memory store.new)) space.0.0 at from.now owner }
    ensures good { BankGood (kernel_of (T.memory store.new)) }
    ensures blocks { ChangesAtMost (T.blocks store.old) (T.blocks store.new) 90 }
    ensures keeps { T.keeps store.old store.new }
{
    match writable(store, space, at / 4096, owner) {
        Some(page) => write_page(store, page, (at % 4096) as u16, from),
        None => {}
    }
}

/// Puts bytes that lie in at most two pages into a space, where all of the range may be written. It takes at most eight nodes,
/// none where the ways to these pages are the space's own, and as many pages as there are pages of the range that aren't own when
/// they are come to in order. Their owner is the one that `page_owner` tells.
pub fn put_bytes<T: Store>(store: &mut T, space: Space, at: u32, from: &[u8])
    requires good { BankGood (kernel_of (T.memory store.old)) }
    requires trees { (outside : Outside) × TreesGood (kernel_of (T.memory store.old)) outside [] }
    requires space { IsSpace (forest_of (kernel_of (T.memory store.old))) [] space.0.0 }
    requires zero { (kernel_of (T.memory store.old)).page_zero ≡ zero_page }
    requires within { at % 4096 + length from.now ≤ 8192 }
    requires can_write { all_writable (space_memory (kernel_of (T.memory store.old)) space.0.0) at (length from.now) ≡ true }
    requires room { let old = kernel_of (T.memory store.old) in old.machine.nodes_taken + 23 ≤ old.nodes }
    requires page_room { let old = kernel_of (T.memory store.old) in (taken : ℕ) → NotOwn (forest_of old) space.0.0 (at / 4096) (pages_touched at (length from.now)) taken → old.machine.pages_taken + taken ≤ old.size }
    ensures put { PutsBytes (kernel_of (T.memory store.old)) (kernel_of (T.memory store.new)) space.0.0 at from.now }
    ensures good { BankGood (kernel_of (T.memory store.new)) }
    ensures blocks { ChangesAtMost (T.blocks store.old) (T.blocks store.new) 180 }
    ensures keeps { T.keeps store.old store.new }
{
    if from.is_empty() {
        return;
    }
    let owner = page_owner(store, space);
    let in_first = 4096 - at % 4096;
    if from.len() <= in_first as usize {
        put_in_page(store, space, at, from, owner);
    } else {
        put_in_page(store, space, at, &from[..in_first as usize], owner);
        put_in_page(
            store,
            space,
            at + in_first,
            &from[in_first as usize..],
            owner,
        );
    }
}
