//! Writing bytes of a tree.

ghost use Rattle.std.specs.Prelude.{◌≡◌, ℕ, ◌+◌, ◌-◌, ◌*◌, ◌/◌, ◌%◌, ◌<◌, ◌≤◌, ◌^◌, length, List, []};
ghost use Rattle.kn_base.specs.Memory.{Memory, zero_page};
ghost use Rattle.kernel_tables.specs.Kernel.{Kernel, kernel_of, Sized, IsSized};
ghost use Rattle.space_bank.specs.Bank.{BankGood};
ghost use Rattle.space_bank.specs.Shares.{Outside};
ghost use Rattle.forest.specs.Calls.{IsOwn};
ghost use Rattle.forest.specs.Forest.{IsSpace};
ghost use Rattle.forest.specs.Objects.{NodeObject};
ghost use Rattle.forest.specs.Walks.{Mapping};
ghost use Rattle.kernel_forest.specs.Trees.{forest_of, page_tree, TreesGood};
ghost use Rattle.file_trees.specs.Pieces.{MayBeWritten, MapsPage, PutsInTree};

use kernel_tables::PageOwner;
use kn_base::Store;
use seg_tree::{Space, find, map_zero};
use user_copy::put_in_page;

// Maps the page of zeros at a page number where the tree has none.
fn map_missing<T: Store>(store: &mut T, tree: Space, page: u32)
    requires good { BankGood (kernel_of (T.memory store.old)) }
    requires trees { (outside : Outside) × TreesGood (kernel_of (T.memory store.old)) outside [] }
    requires space { IsSpace (forest_of (kernel_of (T.memory store.old))) [] tree.0.0 }
    requires page { page < 2 ^ 19 }
    requires zero { (kernel_of (T.memory store.old)).page_zero ≡ zero_page }
    requires writable { MayBeWritten (kernel_of (T.memory store.old)) tree.0.0 }
    requires room { let old = kernel_of (T.memory store.old) in old.machine.nodes_taken + 19 ≤ old.nodes }
    ensures mapped { MapsPage (kernel_of (T.memory store.old)) (kernel_of (T.memory store.new)) tree.0.0 page }
    ensures good { BankGood (kernel_of (T.memory store.new)) }
    ensures keeps { T.keeps store.old store.new }
{
    match find(store, tree, page) {
        Some(_) => {}
        None => map_zero(store, tree, page, true),
    }
}

/// Writes bytes that lie in one page into a tree of files, below 2^31. A page that isn't there is zero where it isn't written. It
/// takes a page of the owner exactly where the tree has no page of its own there, and at most twelve nodes.
pub fn put_piece<T: Store>(store: &mut T, tree: Space, at: u32, from: &[u8], owner: PageOwner)
    requires good { BankGood (kernel_of (T.memory store.old)) }
    requires trees { (outside : Outside) × TreesGood (kernel_of (T.memory store.old)) outside [] }
    requires space { IsSpace (forest_of (kernel_of (T.memory store.old))) [] tree.0.0 }
    requires zero { (kernel_of (T.memory store.old)).page_zero ≡ zero_page }
    requires writable { MayBeWritten (kernel_of (T.memory store.old)) tree.0.0 }
    requires low { at < 2 ^ 31 }
    requires some { 1 ≤ length from.now }
    requires within { at % 4096 + length from.now ≤ 4096 }
    requires owner { page_tree owner ≡ (forest_of (kernel_of (T.memory store.old))).owner (NodeObject tree.0.0) }
    requires room { let old = kernel_of (T.memory store.old) in old.machine.nodes_taken + 23 ≤ old.nodes }
    requires page_room { let old = kernel_of (T.memory store.old) in ((found : Mapping) → IsOwn (forest_of old) tree.0.0 (at / 4096) found → ⊥) → old.machine.pages_taken < old.size }
    ensures put { PutsInTree (kernel_of (T.memory store.old)) (kernel_of (T.memory store.new)) tree.0.0 at from.now owner }
    ensures good { BankGood (kernel_of (T.memory store.new)) }
    ensures keeps { T.keeps store.old store.new }
{
    map_missing(store, tree, at / 4096);
    put_in_page(store, tree, at, from, owner);
}
