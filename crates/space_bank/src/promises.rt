//! Promised pages, and the words of the machine page.

ghost use Rattle.std.specs.Prelude.{◌≡◌, ◌⊎◌, ℕ, ◌<◌, ◌≤◌, ◌+◌, ◌-◌, ◌*◌, ◌%◌, ◌^◌, ◌↔◌, IsTrue, if◌then◌else◌, [], ◌∷◌};
ghost use Rattle.kn_base.specs.Memory.{Memory};
ghost use Rattle.kernel_tables.specs.Kernel.{Kernel, kernel_of, Sized, IsSized};
ghost use Rattle.kernel_tables.specs.Blocks.{machine_block, ChangesBlocks};
ghost use Rattle.space_bank.specs.Bank.{BankGood, word_at, with_word_at};

use kernel_tables::{
    bank_size, memory_taken, next_pid, nodes_taken, pages_taken, position, quantum, set_next_pid,
    set_position, set_promised, size,
};
use kn_base::Store;

/// How much of the bank is taken.
#[derive(Clone, Copy, Debug, PartialEq, Eq)]
pub struct Taken {
    /// Pages of memory.
    pub memory: u32,
    /// Pages of any owner.
    pub pages: u32,
    /// Nodes of the bank.
    pub nodes: u32,
}

/// Promises so many pages more, unless more than the bank's pages would be promised.
pub fn promise<T: Store>(store: &mut T, pages: u32) -> bool
    requires { BankGood (kernel_of (T.memory store.old)) }
    ensures granted { IsTrue result ↔ ((kernel_of (T.memory store.old)).machine.promised + pages ≤ (kernel_of (T.memory store.old)).size) }
    ensures after { let old = kernel_of (T.memory store.old) in kernel_of (T.memory store.new) ≡ (if result then record old { machine = record old.machine { promised = old.machine.promised + pages } } else old) }
    ensures good { BankGood (kernel_of (T.memory store.new)) }
    ensures blocks { ChangesBlocks (T.blocks store.old) (T.blocks store.new) (machine_block ∷ []) }
    ensures keeps { T.keeps store.old store.new }
{
    let before = kernel_tables::promised(store);
    if pages <= bank_size(store) - before {
        set_promised(store, before + pages);
        true
    } else {
        false
    }
}

/// Takes the promise of so many pages back.
pub fn unpromise<T: Store>(store: &mut T, pages: u32)
    requires good { BankGood (kernel_of (T.memory store.old)) }
    requires promised { pages ≤ (kernel_of (T.memory store.old)).machine.promised }
    ensures after { let old = kernel_of (T.memory store.old) in kernel_of (T.memory store.new) ≡ record old { machine = record old.machine { promised = old.machine.promised - pages } } }
    ensures good { BankGood (kernel_of (T.memory store.new)) }
    ensures blocks { ChangesBlocks (T.blocks store.old) (T.blocks store.new) (machine_block ∷ []) }
    ensures keeps { T.keeps store.old store.new }
{
    let before = kernel_tables::promised(store);
    set_promised(store, before - pages);
}

/// How many pages are promised.
pub fn promised<T: Store>(store: &T) -> u32
    requires { BankGood (kernel_of (T.memory store.now)) }
    ensures { result ≡ (kernel_of (T.memory store.now)).machine.promised }
{
    kernel_tables::promised(store)
}

/// How much of the bank is taken.
pub fn taken_of<T: Store>(store: &T) -> Taken
    requires { BankGood (kernel_of (T.memory store.now)) }
    ensures memory { result.memory ≡ (kernel_of (T.memory store.now)).machine.memory_taken }
    ensures pages { result.pages ≡ (kernel_of (T.memory store.now)).machine.pages_taken }
    ensures nodes { result.nodes ≡ (kernel_of (T.memory store.now)).machine.nodes_taken }
{
    Taken {
        memory: memory_taken(store),
        pages: pages_taken(store),
        nodes: nodes_taken(store),
    }
}

/// A word of the machine page: the bank's size at 0, the quantum at 4, the position in the round at 8, the next process
/// id at 12.
pub fn machine_word<T: Store>(store: &T, at: u16) -> u32
    requires good { BankGood (kernel_of (T.memory store.now)) }
    requires place { at ≤ 12 }
    requires whole_word { at % 4 ≡ 0 }
    ensures { result ≡ word_at (kernel_of (T.memory store.now)).machine at }
{
    match at {
        0 => size(store),
        4 => quantum(store),
        8 => position(store),
        _ => next_pid(store),
    }
}

/// Writes the position in the round (at 8) or the next process id (at 12).
pub fn set_machine_word<T: Store>(store: &mut T, at: u16, value: u32)
    requires good { BankGood (kernel_of (T.memory store.old)) }
    requires place { (at ≡ 8) ⊎ (at ≡ 12) }
    requires in_round { at ≡ 8 → value < 64 * (kernel_of (T.memory store.old)).machine.quantum }
    requires process_id { at ≡ 12 → value ≤ 2 ^ 31 }
    ensures written { let old = kernel_of (T.memory store.old) in kernel_of (T.memory store.new) ≡ record old { machine = with_word_at old.machine at value } }
    ensures good { BankGood (kernel_of (T.memory store.new)) }
    ensures blocks { ChangesBlocks (T.blocks store.old) (T.blocks store.new) (machine_block ∷ []) }
    ensures keeps { T.keeps store.old store.new }
{
    if at == 8 {
        set_position(store, value);
    } else {
        set_next_pid(store, value);
    }
}
