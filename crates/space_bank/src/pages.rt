//! Pages are taken and given back.

ghost use Rattle.std.specs.Prelude.{◌≡◌, ℕ, ◌<◌, ◌≤◌, ◌+◌, ◌-◌, ◌^◌, MatchOption, IfSome, [], ◌∷◌};
ghost use Rattle.kn_base.specs.Memory.{Memory};
ghost use Rattle.kernel_tables.specs.Kernel.{Kernel, kernel_of, Sized, IsSized, first_page};
ghost use Rattle.kernel_tables.specs.Blocks.{machine_block, page_entry_block, ChangesBlocks};
ghost use Rattle.space_bank.specs.Bank.{BankGood, NoneFree, IsFirstFree, TakesPage, IsTakenOnce, memory_taken_one, page_taken, page_given};
ghost use Rattle.space_bank.specs.Shares.{PutsPageInHand, TakesPageOutOfHand, page_places};
ghost use Rattle.kernel_tables.specs.Rows.{entry_at};
ghost use Rattle.space_bank.specs.FreeList.{is_free};

use super::entries::{memory_pages, memory_pages_of, next_page};
use kernel_tables::{
    Entry, PageOwner, bank_size, clear_bank_page, first_bank_page, free_page, memory_taken,
    page_entry, pages_taken, set_free_page, set_memory_taken, set_page_entry, set_pages_taken,
};
use kn_base::{PageId, Store};

// The entry of the first free page.
fn first_free_page<T: Store>(store: &T) -> Option<u32>
    requires { BankGood (kernel_of (T.memory store.now)) }
    ensures first { let kernel = kernel_of (T.memory store.now) in MatchOption result (NoneFree kernel.page_entries kernel.size) (λ n. IsFirstFree kernel.page_entries (first_page kernel.size) kernel.size kernel.machine.free_page n) }
    ensures few_pages { (kernel_of (T.memory store.now)).machine.pages_taken < 2 ^ 31 }
    ensures few_of_memory { (kernel_of (T.memory store.now)).machine.memory_taken < 2 ^ 31 }
{
    let page = free_page(store);
    if page == 0 {
        return None;
    }
    Some(page - first_bank_page(bank_size(store)))
}

// Takes the page of an entry off the head of the free list.
fn use_page<T: Store>(store: &mut T, n: u32, owner: PageOwner)
    requires sized { Sized (kernel_of (T.memory store.old)) }
    requires inside { n < (kernel_of (T.memory store.old)).size }
    requires few_pages { (kernel_of (T.memory store.old)).machine.pages_taken < 2 ^ 31 }
    requires few_of_memory { (kernel_of (T.memory store.old)).machine.memory_taken < 2 ^ 31 }
    ensures written { kernel_of (T.memory store.new) ≡ page_taken (kernel_of (T.memory store.old)) n owner }
    ensures blocks { ChangesBlocks (T.blocks store.old) (T.blocks store.new) (page_entry_block n ∷ machine_block ∷ []) }
    ensures keeps { T.keeps store.old store.new }
{
    let next = next_page(page_entry(store, n));
    set_page_entry(store, n, Entry::Taken { owner, count: 1 });
    set_free_page(store, next);
    let taken = pages_taken(store) + 1;
    set_pages_taken(store, taken);
    let memory = memory_taken(store) + memory_pages(owner);
    set_memory_taken(store, memory);
}

/// Takes a free page. It is zero and has share count 1. None comes exactly where no page is free.
pub fn take_page<T: Store>(store: &mut T, owner: PageOwner) -> Option<PageId>
    requires { BankGood (kernel_of (T.memory store.old)) }
    ensures taken { let old = kernel_of (T.memory store.old) in let new = kernel_of (T.memory store.new) in MatchOption result (NoneFree old.page_entries old.size × (new ≡ old)) (λ page. TakesPage old new page.0 owner) }
    ensures shares { IfSome result (λ page. PutsPageInHand (kernel_of (T.memory store.old)) (kernel_of (T.memory store.new)) page.0) }
    ensures good { BankGood (kernel_of (T.memory store.new)) }
    ensures blocks { MatchOption result (T.blocks store.new ≡ T.blocks store.old) (λ page. ChangesBlocks (T.blocks store.old) (T.blocks store.new) (page_entry_block (page.0 - first_page (kernel_of (T.memory store.old)).size) ∷ machine_block ∷ [])) }
    ensures keeps { T.keeps store.old store.new }
{
    match first_free_page(store) {
        Some(n) => {
            use_page(store, n, owner);
            Some(PageId(first_bank_page(bank_size(store)) + n))
        }
        None => None,
    }
}

// Makes the page of an entry zero and puts it at the head of the free list.
fn free_up<T: Store>(store: &mut T, n: u32, page: u32)
    requires sized { Sized (kernel_of (T.memory store.old)) }
    requires inside { n < (kernel_of (T.memory store.old)).size }
    requires number { page ≡ first_page (kernel_of (T.memory store.old)).size + n }
    requires some_page { 1 ≤ (kernel_of (T.memory store.old)).machine.pages_taken }
    requires some_memory { memory_taken_one (entry_at (kernel_of (T.memory store.old)).page_entries n) ≤ (kernel_of (T.memory store.old)).machine.memory_taken }
    ensures written { kernel_of (T.memory store.new) ≡ page_given (kernel_of (T.memory store.old)) n }
    ensures blocks { ChangesBlocks (T.blocks store.old) (T.blocks store.new) (page ∷ page_entry_block n ∷ machine_block ∷ []) }
    ensures keeps { T.keeps store.old store.new }
{
    let was_memory = memory_pages_of(page_entry(store, n));
    clear_bank_page(store, n);
    let next = free_page(store);
    set_page_entry(store, n, Entry::Free { next });
    set_free_page(store, page);
    let taken = pages_taken(store) - 1;
    set_pages_taken(store, taken);
    let memory = memory_taken(store) - was_memory;
    set_memory_taken(store, memory);
}

/// Gives a taken page with share count 1 back, which no key names. It becomes zero.
pub fn give_page<T: Store>(store: &mut T, page: PageId)
    requires good { BankGood (kernel_of (T.memory store.old)) }
    requires low { first_page (kernel_of (T.memory store.old)).size ≤ page.0 }
    requires high { page.0 < first_page (kernel_of (T.memory store.old)).size + (kernel_of (T.memory store.old)).size }
    requires taken { IsTakenOnce (entry_at (kernel_of (T.memory store.old)).page_entries (page.0 - first_page (kernel_of (T.memory store.old)).size)) }
    requires unnamed { page_places (kernel_of (T.memory store.old)).keys page.0 ≡ 0 }
    ensures given { let old = kernel_of (T.memory store.old) in kernel_of (T.memory store.new) ≡ page_given old (page.0 - first_page old.size) }
    ensures shares { TakesPageOutOfHand (kernel_of (T.memory store.old)) (kernel_of (T.memory store.new)) page.0 }
    ensures good { BankGood (kernel_of (T.memory store.new)) }
    ensures blocks { ChangesBlocks (T.blocks store.old) (T.blocks store.new) (page.0 ∷ page_entry_block (page.0 - first_page (kernel_of (T.memory store.old)).size) ∷ machine_block ∷ []) }
    ensures keeps { T.keeps store.old store.new }
{
    let n = page.0 - first_bank_page(bank_size(store));
    free_up(store, n, page.0);
}
