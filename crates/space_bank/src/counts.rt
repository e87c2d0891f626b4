//! How often pages and nodes are counted.

ghost use Rattle.std.specs.Prelude.{◌≡◌, ℕ, ◌<◌, ◌≤◌, ◌+◌, ◌-◌, ◌^◌, [], ◌∷◌};
ghost use Rattle.kn_base.specs.Memory.{Memory};
ghost use Rattle.kernel_tables.specs.Kernel.{Kernel, kernel_of, Sized, IsSized, IsBankPage, first_page};
ghost use Rattle.kernel_tables.specs.Blocks.{page_entry_block, node_entry_block, ChangesBlocks};
ghost use Rattle.kernel_tables.specs.Rows.{entry_at};
ghost use Rattle.space_bank.specs.FreeList.{shares};
ghost use Rattle.space_bank.specs.Bank.{BankGood};
ghost use Rattle.space_bank.specs.Changes.{IsTaken, with_count, page_counted, node_counted, PutsPageKeyInHand, PutsNodeKeyInHand, TakesPageKeyOutOfHand, TakesNodeKeyOutOfHand};

use kernel_tables::{
    Entry, bank_size, first_bank_page, node_entry, page_entry, set_node_entry, set_page_entry,
};
use kn_base::{NodeId, PageId, Store};

// How often the object of an entry is counted.
fn count_in<O: Copy>(entry: Entry<O>) -> u32
    ensures { result ≡ shares entry }
{
    match entry {
        Entry::Taken { count, .. } => count,
        Entry::Free { .. } | Entry::Fixed | Entry::Unspelled => 0,
    }
}

// An entry whose object is counted so often, if it is taken.
fn counted<O: Copy>(entry: Entry<O>, count: u32) -> Entry<O>
    ensures { result ≡ with_count entry count }
{
    match entry {
        Entry::Taken { owner, .. } => Entry::Taken { owner, count },
        Entry::Free { next } => Entry::Free { next },
        Entry::Fixed => Entry::Fixed,
        Entry::Unspelled => Entry::Unspelled,
    }
}

/// How often a page of the bank is counted: 0 where it is free.
pub fn page_count<T: Store>(store: &T, page: PageId) -> u32
    requires good { BankGood (kernel_of (T.memory store.now)) }
    requires page { IsBankPage (kernel_of (T.memory store.now)).size page.0 }
    ensures { let kernel = kernel_of (T.memory store.now) in result ≡ shares (entry_at kernel.page_entries (page.0 - first_page kernel.size)) }
{
    let n = page.0 - first_bank_page(bank_size(store));
    count_in(page_entry(store, n))
}

/// How often a node is counted: 0 where it is free, or fixed.
pub fn node_count<T: Store>(store: &T, node: NodeId) -> u32
    requires good { BankGood (kernel_of (T.memory store.now)) }
    requires node { node.0 < (kernel_of (T.memory store.now)).nodes }
    ensures { result ≡ shares (entry_at (kernel_of (T.memory store.now)).node_entries node.0) }
{
    count_in(node_entry(store, node))
}

// Counts a taken page so often.
fn count_page<T: Store>(store: &mut T, n: u32, count: u32)
    requires sized { Sized (kernel_of (T.memory store.old)) }
    requires inside { n < (kernel_of (T.memory store.old)).size }
    requires taken { IsTaken (entry_at (kernel_of (T.memory store.old)).page_entries n) }
    ensures counted { kernel_of (T.memory store.new) ≡ page_counted (kernel_of (T.memory store.old)) n count }
    ensures blocks { ChangesBlocks (T.blocks store.old) (T.blocks store.new) (page_entry_block n ∷ []) }
    ensures keeps { T.keeps store.old store.new }
{
    let entry = counted(page_entry(store, n), count);
    set_page_entry(store, n, entry);
}

/// Counts a taken page once more, for a key that the caller holds from then on.
pub fn raise_page<T: Store>(store: &mut T, page: PageId)
    requires good { BankGood (kernel_of (T.memory store.old)) }
    requires page { IsBankPage (kernel_of (T.memory store.old)).size page.0 }
    requires taken { let old = kernel_of (T.memory store.old) in IsTaken (entry_at old.page_entries (page.0 - first_page old.size)) }
    requires few { let old = kernel_of (T.memory store.old) in shares (entry_at old.page_entries (page.0 - first_page old.size)) + 1 < 2 ^ 32 }
    ensures raised { let old = kernel_of (T.memory store.old) in let n = page.0 - first_page old.size in kernel_of (T.memory store.new) ≡ page_counted old n (shares (entry_at old.page_entries n) + 1) }
    ensures shares { PutsPageKeyInHand (kernel_of (T.memory store.old)) (kernel_of (T.memory store.new)) page.0 }
    ensures good { BankGood (kernel_of (T.memory store.new)) }
    ensures blocks { ChangesBlocks (T.blocks store.old) (T.blocks store.new) (page_entry_block (page.0 - first_page (kernel_of (T.memory store.old)).size) ∷ []) }
    ensures keeps { T.keeps store.old store.new }
{
    let n = page.0 - first_bank_page(bank_size(store));
    let count = count_in(page_entry(store, n)) + 1;
    count_page(store, n, count);
}

/// Counts a page that is counted more than once a time less, for a key that the caller held.
pub fn lower_page<T: Store>(store: &mut T, page: PageId)
    requires good { BankGood (kernel_of (T.memory store.old)) }
    requires page { IsBankPage (kernel_of (T.memory store.old)).size page.0 }
    requires shared { let old = kernel_of (T.memory store.old) in 2 ≤ shares (entry_at old.page_entries (page.0 - first_page old.size)) }
    ensures lowered { let old = kernel_of (T.memory store.old) in let n = page.0 - first_page old.size in kernel_of (T.memory store.new) ≡ page_counted old n (shares (entry_at old.page_entries n) - 1) }
    ensures shares { TakesPageKeyOutOfHand (kernel_of (T.memory store.old)) (kernel_of (T.memory store.new)) page.0 }
    ensures good { BankGood (kernel_of (T.memory store.new)) }
    ensures blocks { ChangesBlocks (T.blocks store.old) (T.blocks store.new) (page_entry_block (page.0 - first_page (kernel_of (T.memory store.old)).size) ∷ []) }
    ensures keeps { T.keeps store.old store.new }
{
    let n = page.0 - first_bank_page(bank_size(store));
    let count = count_in(page_entry(store, n)) - 1;
    count_page(store, n, count);
}

// Counts a taken node so often.
fn count_node<T: Store>(store: &mut T, node: NodeId, count: u32)
    requires sized { Sized (kernel_of (T.memory store.old)) }
    requires inside { node.0 < (kernel_of (T.memory store.old)).nodes }
    ensures counted { kernel_of (T.memory store.new) ≡ node_counted (kernel_of (T.memory store.old)) node.0 count }
    ensures blocks { ChangesBlocks (T.blocks store.old) (T.blocks store.new) (node_entry_block (kernel_of (T.memory store.old)).size node.0 ∷ []) }
    ensures keeps { T.keeps store.old store.new }
{
    let entry = counted(node_entry(store, node), count);
    set_node_entry(store, node, entry);
}

/// Counts a taken node once more, for a key that the caller holds from then on.
pub fn raise_node<T: Store>(store: &mut T, node: NodeId)
    requires good { BankGood (kernel_of (T.memory store.old)) }
    requires inside { node.0 < (kernel_of (T.memory store.old)).nodes }
    requires taken { IsTaken (entry_at (kernel_of (T.memory store.old)).node_entries node.0) }
    requires few { shares (entry_at (kernel_of (T.memory store.old)).node_entries node.0) + 1 < 2 ^ 32 }
    ensures raised { let old = kernel_of (T.memory store.old) in kernel_of (T.memory store.new) ≡ node_counted old node.0 (shares (entry_at old.node_entries node.0) + 1) }
    ensures shares { PutsNodeKeyInHand (kernel_of (T.memory store.old)) (kernel_of (T.memory store.new)) node.0 }
    ensures good { BankGood (kernel_of (T.memory store.new)) }
    ensures blocks { ChangesBlocks (T.blocks store.old) (T.blocks store.new) (node_entry_block (kernel_of (T.memory store.old)).size node.0 ∷ []) }
    ensures keeps { T.keeps store.old store.new }
{
    let count = count_in(node_entry(store, node)) + 1;
    count_node(store, node, count);
}

/// Counts a node that is counted more than once a time less, for a key that the caller held.
pub fn lower_node<T: Store>(store: &mut T, node: NodeId)
    requires good { BankGood (kernel_of (T.memory store.old)) }
    requires inside { node.0 < (kernel_of (T.memory store.old)).nodes }
    requires shared { 2 ≤ shares (entry_at (kernel_of (T.memory store.old)).node_entries node.0) }
    ensures lowered { let old = kernel_of (T.memory store.old) in kernel_of (T.memory store.new) ≡ node_counted old node.0 (shares (entry_at old.node_entries node.0) - 1) }
    ensures shares { TakesNodeKeyOutOfHand (kernel_of (T.memory store.old)) (kernel_of (T.memory store.new)) node.0 }
    ensures good { BankGood (kernel_of (T.memory store.new)) }
    ensures blocks { ChangesBlocks (T.blocks store.old) (T.blocks store.new) (node_entry_block (kernel_of (T.memory store.old)).size node.0 ∷ []) }
    ensures keeps { T.keeps store.old store.new }
{
    let count = count_in(node_entry(store, node)) - 1;
    count_node(store, node, count);
}
