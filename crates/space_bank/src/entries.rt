//! What is read of an entry.

ghost use Rattle.std.specs.Prelude.{◌≡◌, ℕ};
ghost use Rattle.space_bank.specs.FreeList.{next_of};
ghost use Rattle.space_bank.specs.Bank.{memory_one, memory_taken_one};

use kernel_tables::{Entry, NodeOwner, PageOwner};

/// The next free page that an entry names, or 0.
pub fn next_page(entry: Entry<PageOwner>) -> u32
    ensures { result ≡ next_of entry }
{
    match entry {
        Entry::Free { next } => next,
        Entry::Taken { .. } | Entry::Fixed | Entry::Unspelled => 0,
    }
}

/// The next free node that an entry names, or 0.
pub fn next_node(entry: Entry<NodeOwner>) -> u32
    ensures { result ≡ next_of entry }
{
    match entry {
        Entry::Free { next } => next,
        Entry::Taken { .. } | Entry::Fixed | Entry::Unspelled => 0,
    }
}

/// 1 for a page of memory.
pub fn memory_pages(owner: PageOwner) -> u32
    ensures { result ≡ memory_one owner }
{
    match owner {
        PageOwner::Memory => 1,
        PageOwner::File | PageOwner::Directory | PageOwner::Pipe | PageOwner::Buffer => 0,
    }
}

/// 1 for the entry of a page that is taken for memory.
pub fn memory_pages_of(entry: Entry<PageOwner>) -> u32
    ensures { result ≡ memory_taken_one entry }
{
    match entry {
        Entry::Taken { owner, .. } => memory_pages(owner),
        Entry::Free { .. } | Entry::Fixed | Entry::Unspelled => 0,
    }
}
