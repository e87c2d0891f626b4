//! Pages are made a space's own before they are written.

ghost use Rattle.std.specs.Prelude.{◌≡◌, ◌≢◌, ℕ, ◌+◌, ◌-◌, ◌*◌, ◌/◌, ◌%◌, ◌<◌, ◌≤◌, ◌^◌, ◌&&◌, ◌==◌, not, true, false, MatchOption, IsSome, Some, List, []};
ghost use Rattle.kn_base.specs.Memory.{Memory, zero_page};
ghost use Rattle.kernel_tables.specs.Kernel.{Kernel, kernel_of, Sized, IsSized};
ghost use Rattle.space_bank.specs.Bank.{BankGood};
ghost use Rattle.space_bank.specs.Shares.{Outside};
ghost use Rattle.unix_model.specs.Tables.{at};
ghost use Rattle.forest.specs.Objects.{PageObject, NodeObject, Owner};
ghost use Rattle.forest.specs.Walks.{map_of, Mapping, place_of};
ghost use Rattle.forest.specs.Forest.{IsSpace};
ghost use Rattle.forest.specs.Calls.{IsOwn};
ghost use Rattle.kernel_forest.specs.Trees.{forest_of, page_tree, TreesGood};
ghost use Rattle.kernel_forest.specs.Moves.{TakesFreshPage};
ghost use Rattle.seg_tree.specs.Blocks.{ChangesAtMost};
ghost use Rattle.seg_tree.specs.Writes.{CopiesPage, CopiesLeaf, Owns, page_key, writable_mapping, may_write};

use super::descent::own_node;
use super::leaf::tree_owner;
use super::spaces::Space;
use super::steps::{lower_leaf, put_key};
use super::walk::find;
use kernel_tables::PageOwner;
use kn_base::{Key, NodeId, PageId, Store};
use space_bank::{copy_page, page_count, take_page};

// Takes a page for a tree.
fn take_tree_page<T: Store>(store: &mut T, owner: PageOwner) -> PageId
    requires good { BankGood (kernel_of (T.memory store.old)) }
    requires room { let old = kernel_of (T.memory store.old) in old.machine.pages_taken < old.size }
    ensures taken { (to : Owner) → page_tree owner ≡ Some to → TakesFreshPage (kernel_of (T.memory store.old)) (kernel_of (T.memory store.new)) result.0 owner to }
    ensures good { BankGood (kernel_of (T.memory store.new)) }
    ensures blocks { ChangesAtMost (T.blocks store.old) (T.blocks store.new) 2 }
    ensures keeps { T.keeps store.old store.new }
{
    match take_page(store, owner) {
        Some(page) => page,
        None => PageId(0),
    }
}

// Takes a page with the bytes of another one, which belongs to a tree, or of page 0.
fn take_copy<T: Store>(store: &mut T, found: PageId, owner: PageOwner) -> PageId
    requires good { BankGood (kernel_of (T.memory store.old)) }
    requires tree { IsSome (page_tree owner) }
    requires room { let old = kernel_of (T.memory store.old) in old.machine.pages_taken < old.size }
    requires zero { (kernel_of (T.memory store.old)).page_zero ≡ zero_page }
    requires owned { found.0 ≢ 0 → IsSome ((forest_of (kernel_of (T.memory store.old))).owner (PageObject found.0)) }
    ensures copied { (to : Owner) → page_tree owner ≡ Some to → CopiesPage (kernel_of (T.memory store.old)) (kernel_of (T.memory store.new)) found.0 result.0 owner to }
    ensures good { BankGood (kernel_of (T.memory store.new)) }
    ensures blocks { ChangesAtMost (T.blocks store.old) (T.blocks store.new) 3 }
    ensures keeps { T.keeps store.old store.new }
{
    let fresh = take_tree_page(store, owner);
    if found.0 != 0 {
        copy_page(store, found, fresh);
    }
    fresh
}

// Puts a copy of a page that is counted elsewhere too in its place.
fn copy_leaf<T: Store>(
    store: &mut T,
    node: NodeId,
    digit: u8,
    found: PageId,
    owner: PageOwner,
) -> PageId
    requires good { BankGood (kernel_of (T.memory store.old)) }
    requires alive { found.0 ≢ 0 → IsSome ((forest_of (kernel_of (T.memory store.old))).owner (PageObject found.0)) }
    requires tree { IsSome (page_tree owner) }
    requires room { let old = kernel_of (T.memory store.old) in old.machine.pages_taken < old.size }
    requires zero { (kernel_of (T.memory store.old)).page_zero ≡ zero_page }
    requires owned { IsSome ((forest_of (kernel_of (T.memory store.old))).owner (NodeObject node.0)) }
    requires digit { digit < 16 }
    requires stands { at (forest_of (kernel_of (T.memory store.old))).keys (place_of node.0 digit) ≡ page_key found.0 }
    requires shared { found.0 ≢ 0 → 2 ≤ (forest_of (kernel_of (T.memory store.old))).count (PageObject found.0) }
    ensures copied { (to : Owner) → page_tree owner ≡ Some to → CopiesLeaf (kernel_of (T.memory store.old)) (kernel_of (T.memory store.new)) (place_of node.0 digit) found.0 result.0 owner to }
    ensures good { BankGood (kernel_of (T.memory store.new)) }
    ensures blocks { ChangesAtMost (T.blocks store.old) (T.blocks store.new) 5 }
    ensures keeps { T.keeps store.old store.new }
{
    let fresh = take_copy(store, found, owner);
    let key = Key::Page {
        id: fresh,
        writable: true,
    };
    put_key(store, node, digit, key);
    lower_leaf(store, found);
    fresh
}

// Whether a page of a tree is counted once. Page 0 never is.
fn is_single<T: Store>(store: &T, page: PageId) -> bool
    requires good { BankGood (kernel_of (T.memory store.now)) }
    requires owned { page.0 ≢ 0 → IsSome ((forest_of (kernel_of (T.memory store.now))).owner (PageObject page.0)) }
    ensures { result ≡ (not (page.0 == 0) && ((forest_of (kernel_of (T.memory store.now))).count (PageObject page.0) == 1)) }
{
    page.0 != 0 && page_count(store, page) == 1
}

// Makes the page that may be written at a page number of a space its own.
fn own_page<T: Store>(
    store: &mut T,
    space: NodeId,
    page: u32,
    found: PageId,
    owner: PageOwner,
) -> PageId
    requires good { BankGood (kernel_of (T.memory store.old)) }
    requires trees { (outside : Outside) × TreesGood (kernel_of (T.memory store.old)) outside [] }
    requires space { IsSpace (forest_of (kernel_of (T.memory store.old))) [] space.0 }
    requires page { page < 2 ^ 19 }
    requires owner { page_tree owner ≡ (forest_of (kernel_of (T.memory store.old))).owner (NodeObject space.0) }
    requires zero { (kernel_of (T.memory store.old)).page_zero ≡ zero_page }
    requires room { let old = kernel_of (T.memory store.old) in old.machine.nodes_taken + 19 ≤ old.nodes }
    requires mapped { map_of (forest_of (kernel_of (T.memory store.old))).keys space.0 page ≡ Some (writable_mapping found.0) }
    requires page_room { let old = kernel_of (T.memory store.old) in (IsOwn (forest_of old) space.0 page (writable_mapping found.0) → ⊥) → old.machine.pages_taken < old.size }
    ensures own { Owns (kernel_of (T.memory store.old)) (kernel_of (T.memory store.new)) space.0 page result.0 owner }
    ensures good { BankGood (kernel_of (T.memory store.new)) }
    ensures blocks { ChangesAtMost (T.blocks store.old) (T.blocks store.new) 89 }
    ensures keeps { T.keeps store.old store.new }
{
    let node_owner = tree_owner(store, space);
    let node = own_node(store, space, 4, page / 16, node_owner);
    if is_single(store, found) {
        found
    } else {
        copy_leaf(store, node, (page % 16) as u8, found, owner)
    }
}

/// The page that may be written at a page number below 2^19, after it was made this space's own: this space alone reaches it,
/// at this page number alone, and it has the bytes that the page there had. None comes exactly where nothing is mapped or the
/// page is read-only. It takes a page of the owner exactly where the page was not own, and at most four nodes, none where the way to
/// the page was the space's own.
pub fn writable<T: Store>(
    store: &mut T,
    space: Space,
    page: u32,
    owner: PageOwner,
) -> Option<PageId>
    requires good { BankGood (kernel_of (T.memory store.old)) }
    requires trees { (outside : Outside) × TreesGood (kernel_of (T.memory store.old)) outside [] }
    requires space { IsSpace (forest_of (kernel_of (T.memory store.old))) [] space.0.0 }
    requires page { page < 2 ^ 19 }
    requires owner { page_tree owner ≡ (forest_of (kernel_of (T.memory store.old))).owner (NodeObject space.0.0) }
    requires zero { (kernel_of (T.memory store.old)).page_zero ≡ zero_page }
    requires room { let old = kernel_of (T.memory store.old) in old.machine.nodes_taken + 19 ≤ old.nodes }
    requires page_room { let old = kernel_of (T.memory store.old) in (found : Mapping) → map_of (forest_of old).keys space.0.0 page ≡ Some found → found.writable ≡ true → (IsOwn (forest_of old) space.0.0 page found → ⊥) → old.machine.pages_taken < old.size }
    ensures written { let old = kernel_of (T.memory store.old) in let new = kernel_of (T.memory store.new) in MatchOption result ((may_write (map_of (forest_of old).keys space.0.0 page) ≡ false) × (new ≡ old)) (λ id. Owns old new space.0.0 page id.0 owner) }
    ensures good { BankGood (kernel_of (T.memory store.new)) }
    ensures blocks { ChangesAtMost (T.blocks store.old) (T.blocks store.new) 89 }
    ensures keeps { T.keeps store.old store.new }
{
    match find(store, space, page) {
        Some(found) => {
            if found.writable {
                Some(own_page(store, space.0, page, found.page, owner))
            } else {
                None
            }
        }
        None => None,
    }
}
