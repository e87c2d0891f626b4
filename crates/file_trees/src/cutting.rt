//! Pages of a tree are given back, and bytes made zero.

ghost use Rattle.std.specs.Prelude.{◌≡◌, ◌≢◌, ℕ, ◌+◌, ◌-◌, ◌*◌, ◌/◌, ◌%◌, ◌<◌, ◌≤◌, ◌^◌, true, false, Some, None, length, List, []};
ghost use Rattle.kn_base.specs.Memory.{Memory, zero_page};
ghost use Rattle.kernel_tables.specs.Kernel.{Kernel, kernel_of, Sized, IsSized};
ghost use Rattle.space_bank.specs.Bank.{BankGood};
ghost use Rattle.space_bank.specs.Shares.{Outside};
ghost use Rattle.forest.specs.Calls.{IsOwn};
ghost use Rattle.forest.specs.Forest.{IsSpace};
ghost use Rattle.forest.specs.Objects.{NodeObject};
ghost use Rattle.forest.specs.Walks.{Mapping, map_of};
ghost use Rattle.kernel_forest.specs.Trees.{forest_of, page_tree, TreesGood};
ghost use Rattle.kernel_machine.specs.Held.{AllWhole};
ghost use Rattle.file_trees.specs.Pieces.{MayBeWritten};
ghost use Rattle.file_trees.specs.Cuts.{CutsPage, CutsTree, ClearsPiece};

use kernel_tables::PageOwner;
use kn_base::Store;
use seg_tree::{Space, find, unmap};
use user_copy::put_in_page;

/// Whether a tree maps a page below a page number, which is at most 2^19.
pub fn maps_below<T: Store>(store: &T, tree: Space, end: u32) -> bool
    requires good { BankGood (kernel_of (T.memory store.now)) }
    requires trees { (outside : Outside) × TreesGood (kernel_of (T.memory store.now)) outside [] }
    requires space { IsSpace (forest_of (kernel_of (T.memory store.now))) [] tree.0.0 }
    requires end { end ≤ 2 ^ 19 }
    ensures some { result ≡ true → (page : ℕ) × (page < end) × (mapping : Mapping) × (map_of (forest_of (kernel_of (T.memory store.now))).keys tree.0.0 page ≡ Some mapping) }
    ensures none { result ≡ false → (page : ℕ) → page < end → map_of (forest_of (kernel_of (T.memory store.now))).keys tree.0.0 page ≡ None }
{
    for page in 0..end {
        match find(store, tree, page) {
            Some(_) => return true,
            None => {}
        }
    }
    false
}

// Unmaps a page number where a page is mapped.
fn cut_page<T: Store>(store: &mut T, tree: Space, page: u32)
    requires good { BankGood (kernel_of (T.memory store.old)) }
    requires trees { (outside : Outside) × TreesGood (kernel_of (T.memory store.old)) outside [] }
    requires space { IsSpace (forest_of (kernel_of (T.memory store.old))) [] tree.0.0 }
    requires page { page < 2 ^ 19 }
    requires room { let old = kernel_of (T.memory store.old) in old.machine.nodes_taken + 19 ≤ old.nodes }
    ensures cut { CutsPage (kernel_of (T.memory store.old)) (kernel_of (T.memory store.new)) tree.0.0 page }
    ensures good { BankGood (kernel_of (T.memory store.new)) }
    ensures keeps { T.keeps store.old store.new }
{
    match find(store, tree, page) {
        Some(_) => unmap(store, tree, page),
        None => {}
    }
}

/// Unmaps all pages of a tree from a page number on, below another one up to 2^19. Each is given back where nothing else names
/// it, and each node that has become empty. It asks that nodes are free wherever the tree is cut so far.
pub fn cut_pages<T: Store>(store: &mut T, tree: Space, first: u32, end: u32)
    requires good { BankGood (kernel_of (T.memory store.old)) }
    requires trees { (outside : Outside) × TreesGood (kernel_of (T.memory store.old)) outside [] }
    requires space { IsSpace (forest_of (kernel_of (T.memory store.old))) [] tree.0.0 }
    requires order { first ≤ end }
    requires end { end ≤ 2 ^ 19 }
    requires room { (between : Kernel) (next : ℕ) → CutsTree (kernel_of (T.memory store.old)) between tree.0.0 first next → BankGood between → AllWhole between.bank → between.machine.nodes_taken + 19 ≤ between.nodes }
    ensures cut { CutsTree (kernel_of (T.memory store.old)) (kernel_of (T.memory store.new)) tree.0.0 first end }
    ensures good { BankGood (kernel_of (T.memory store.new)) }
    ensures keeps { T.keeps store.old store.new }
{
    for page in first..end {
        cut_page(store, tree, page);
    }
}

// A page of zeros.
#[tactic(auto, unfolding(kn_base::specs::Memory::zero_page))]
fn zeros() -> [u8; 4096]
    ensures { result ≡ zero_page }
{
    [0; 4096]
}

/// Makes bytes that lie in one page of a tree zero, below 2^31, where a page is there. It takes a page of the owner where the tree
/// has one that isn't its own there.
pub fn clear_piece<T: Store>(store: &mut T, tree: Space, at: u32, count: u16, owner: PageOwner)
    requires good { BankGood (kernel_of (T.memory store.old)) }
    requires trees { (outside : Outside) × TreesGood (kernel_of (T.memory store.old)) outside [] }
    requires space { IsSpace (forest_of (kernel_of (T.memory store.old))) [] tree.0.0 }
    requires zero { (kernel_of (T.memory store.old)).page_zero ≡ zero_page }
    requires writable { MayBeWritten (kernel_of (T.memory store.old)) tree.0.0 }
    requires low { at < 2 ^ 31 }
    requires some { 1 ≤ count }
    requires within { at % 4096 + count ≤ 4096 }
    requires owner { page_tree owner ≡ (forest_of (kernel_of (T.memory store.old))).owner (NodeObject tree.0.0) }
    requires room { let old = kernel_of (T.memory store.old) in old.machine.nodes_taken + 19 ≤ old.nodes }
    requires page_room { let old = kernel_of (T.memory store.old) in (found : Mapping) → map_of (forest_of old).keys tree.0.0 (at / 4096) ≡ Some found → found.page ≢ 0 → (IsOwn (forest_of old) tree.0.0 (at / 4096) found → ⊥) → old.machine.pages_taken < old.size }
    ensures cleared { ClearsPiece (kernel_of (T.memory store.old)) (kernel_of (T.memory store.new)) tree.0.0 at count owner }
    ensures good { BankGood (kernel_of (T.memory store.new)) }
    ensures keeps { T.keeps store.old store.new }
{
    match find(store, tree, at / 4096) {
        Some(found) => {
            if found.page.0 != 0 {
                let zeros = zeros();
                put_in_page(store, tree, at, &zeros[..count as usize], owner);
            }
        }
        None => {}
    }
}
