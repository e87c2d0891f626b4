//! The words of the machine page.

ghost use Rattle.std.specs.Prelude.{◌≡◌, ℕ, ◌<◌, ◌≤◌, length, slice_index};
ghost use Rattle.kn_base.specs.Memory.{Memory, ChangesBlock};
ghost use Rattle.kernel_tables.specs.Kernel.{Kernel, kernel_of, Sized, IsSized, page_words, with_word};
ghost use Rattle.kernel_tables.specs.Blocks.{machine_block};

use kn_base::{PageId, Store};

/// The words of the machine page.
#[derive(Clone, Copy, Debug, PartialEq, Eq)]
pub struct Machine {
    /// The number of pages of the bank.
    pub size: u32,
    /// How many turns of each process a round has.
    pub quantum: u32,
    /// The position in the round, below 64 times the quantum.
    pub position: u32,
    /// The next process id, or 2^31 where none is left.
    pub next_pid: u32,
    /// How many pages are promised.
    pub promised: u32,
    /// The first free page, or 0.
    pub free_page: u32,
    /// The first free node, or 0.
    pub free_node: u32,
    /// How many pages are taken for memory.
    pub memory_taken: u32,
    /// How many pages are taken.
    pub pages_taken: u32,
    /// How many nodes of the bank are taken.
    pub nodes_taken: u32,
}

// A word of the machine page.
#[tactic(auto, using(kn_base::proofs::RowLaws::tables_read), unfolding(crate::specs::Kernel::page_words))]
fn word<T: Store>(store: &T, n: u16) -> u32
    requires page { 2 ≤ length (T.memory store.now).pages }
    requires row { n < 10 }
    ensures { result ≡ slice_index (page_words (T.memory store.now).pages) n }
{
    let mut bytes = [0; 4];
    store.read_page(PageId(1), 4 * n, &mut bytes);
    let [a, b, c, d] = bytes;
    u32::from_le_bytes([a, b, c, d])
}

// Writes one of the ten words of the machine page.
#[tactic(auto, unfolding(crate::specs::Kernel::kernel_of, crate::specs::Kernel::tables_of, crate::specs::Kernel::first_page))]
fn set_word<T: Store>(store: &mut T, n: u16, value: u32)
    requires sized { Sized (kernel_of (T.memory store.old)) }
    requires row { n < 10 }
    ensures written { kernel_of (T.memory store.new) ≡ record (kernel_of (T.memory store.old)) { machine = with_word (kernel_of (T.memory store.old)).machine n value } }
    ensures one_block { ChangesBlock (T.blocks store.old) (T.blocks store.new) machine_block }
    ensures keeps { T.keeps store.old store.new }
{
    store.write_page(PageId(1), 4 * n, &value.to_le_bytes());
}

/// Reads the number of pages of the bank.
#[tactic(auto, unfolding(crate::specs::Kernel::kernel_of, crate::specs::Kernel::tables_of, crate::specs::Kernel::first_page))]
pub fn size<T: Store>(store: &T) -> u32
    requires { Sized (kernel_of (T.memory store.now)) }
    ensures { result ≡ (kernel_of (T.memory store.now)).machine.size }
{
    word(store, 0)
}

/// Writes the number of pages of the bank.
pub fn set_size<T: Store>(store: &mut T, value: u32)
    requires { Sized (kernel_of (T.memory store.old)) }
    ensures written { kernel_of (T.memory store.new) ≡ record (kernel_of (T.memory store.old)) { machine = record (kernel_of (T.memory store.old)).machine { size = value } } }
    ensures one_block { ChangesBlock (T.blocks store.old) (T.blocks store.new) machine_block }
    ensures keeps { T.keeps store.old store.new }
{
    set_word(store, 0, value);
}

/// Reads how many turns of each process a round has.
#[tactic(auto, unfolding(crate::specs::Kernel::kernel_of, crate::specs::Kernel::tables_of, crate::specs::Kernel::first_page))]
pub fn quantum<T: Store>(store: &T) -> u32
    requires { Sized (kernel_of (T.memory store.now)) }
    ensures { result ≡ (kernel_of (T.memory store.now)).machine.quantum }
{
    word(store, 1)
}

/// Writes how many turns of each process a round has.
pub fn set_quantum<T: Store>(store: &mut T, value: u32)
    requires { Sized (kernel_of (T.memory store.old)) }
    ensures written { kernel_of (T.memory store.new) ≡ record (kernel_of (T.memory store.old)) { machine = record (kernel_of (T.memory store.old)).machine { quantum = value } } }
    ensures one_block { ChangesBlock (T.blocks store.old) (T.blocks store.new) machine_block }
    ensures keeps { T.keeps store.old store.new }
{
    set_word(store, 1, value);
}

/// Reads the position in the round.
#[tactic(auto, unfolding(crate::specs::Kernel::kernel_of, crate::specs::Kernel::tables_of, crate::specs::Kernel::first_page))]
pub fn position<T: Store>(store: &T) -> u32
    requires { Sized (kernel_of (T.memory store.now)) }
    ensures { result ≡ (kernel_of (T.memory store.now)).machine.position }
{
    word(store, 2)
}

/// Writes the position in the round.
pub fn set_position<T: Store>(store: &mut T, value: u32)
    requires { Sized (kernel_of (T.memory store.old)) }
    ensures written { kernel_of (T.memory store.new) ≡ record (kernel_of (T.memory store.old)) { machine = record (kernel_of (T.memory store.old)).machine { position = value } } }
    ensures one_block { ChangesBlock (T.blocks store.old) (T.blocks store.new) machine_block }
    ensures keeps { T.keeps store.old store.new }
{
    set_word(store, 2, value);
}

/// Reads the next process id.
#[tactic(auto, unfolding(crate::specs::Kernel::kernel_of, crate::specs::Kernel::tables_of, crate::specs::Kernel::first_page))]
pub fn next_pid<T: Store>(store: &T) -> u32
    requires { Sized (kernel_of (T.memory store.now)) }
    ensures { result ≡ (kernel_of (T.memory store.now)).machine.next_pid }
{
    word(store, 3)
}

/// Writes the next process id.
pub fn set_next_pid<T: Store>(store: &mut T, value: u32)
    requires { Sized (kernel_of (T.memory store.old)) }
    ensures written { kernel_of (T.memory store.new) ≡ record (kernel_of (T.memory store.old)) { machine = record (kernel_of (T.memory store.old)).machine { next_pid = value } } }
    ensures one_block { ChangesBlock (T.blocks store.old) (T.blocks store.new) machine_block }
    ensures keeps { T.keeps store.old store.new }
{
    set_word(store, 3, value);
}

/// Reads how many pages are promised.
#[tactic(auto, unfolding(crate::specs::Kernel::kernel_of, crate::specs::Kernel::tables_of, crate::specs::Kernel::first_page))]
pub fn promised<T: Store>(store: &T) -> u32
    requires { Sized (kernel_of (T.memory store.now)) }
    ensures { result ≡ (kernel_of (T.memory store.now)).machine.promised }
{
    word(store, 4)
}

/// Writes how many pages are promised.
pub fn set_promised<T: Store>(store: &mut T, value: u32)
    requires { Sized (kernel_of (T.memory store.old)) }
    ensures written { kernel_of (T.memory store.new) ≡ record (kernel_of (T.memory store.old)) { machine = record (kernel_of (T.memory store.old)).machine { promised = value } } }
    ensures one_block { ChangesBlock (T.blocks store.old) (T.blocks store.new) machine_block }
    ensures keeps { T.keeps store.old store.new }
{
    set_word(store, 4, value);
}

/// Reads the first free page, or 0.
#[tactic(auto, unfolding(crate::specs::Kernel::kernel_of, crate::specs::Kernel::tables_of, crate::specs::Kernel::first_page))]
pub fn free_page<T: Store>(store: &T) -> u32
    requires { Sized (kernel_of (T.memory store.now)) }
    ensures { result ≡ (kernel_of (T.memory store.now)).machine.free_page }
{
    word(store, 5)
}

/// Writes the first free page, or 0.
pub fn set_free_page<T: Store>(store: &mut T, value: u32)
    requires { Sized (kernel_of (T.memory store.old)) }
    ensures written { kernel_of (T.memory store.new) ≡ record (kernel_of (T.memory store.old)) { machine = record (kernel_of (T.memory store.old)).machine { free_page = value } } }
    ensures one_block { ChangesBlock (T.blocks store.old) (T.blocks store.new) machine_block }
    ensures keeps { T.keeps store.old store.new }
{
    set_word(store, 5, value);
}

/// Reads the first free node, or 0.
#[tactic(auto, unfolding(crate::specs::Kernel::kernel_of, crate::specs::Kernel::tables_of, crate::specs::Kernel::first_page))]
pub fn free_node<T: Store>(store: &T) -> u32
    requires { Sized (kernel_of (T.memory store.now)) }
    ensures { result ≡ (kernel_of (T.memory store.now)).machine.free_node }
{
    word(store, 6)
}

/// Writes the first free node, or 0.
pub fn set_free_node<T: Store>(store: &mut T, value: u32)
    requires { Sized (kernel_of (T.memory store.old)) }
    ensures written { kernel_of (T.memory store.new) ≡ record (kernel_of (T.memory store.old)) { machine = record (kernel_of (T.memory store.old)).machine { free_node = value } } }
    ensures one_block { ChangesBlock (T.blocks store.old) (T.blocks store.new) machine_block }
    ensures keeps { T.keeps store.old store.new }
{
    set_word(store, 6, value);
}

/// Reads how many pages are taken for memory.
#[tactic(auto, unfolding(crate::specs::Kernel::kernel_of, crate::specs::Kernel::tables_of, crate::specs::Kernel::first_page))]
pub fn memory_taken<T: Store>(store: &T) -> u32
    requires { Sized (kernel_of (T.memory store.now)) }
    ensures { result ≡ (kernel_of (T.memory store.now)).machine.memory_taken }
{
    word(store, 7)
}

/// Writes how many pages are taken for memory.
pub fn set_memory_taken<T: Store>(store: &mut T, value: u32)
    requires { Sized (kernel_of (T.memory store.old)) }
    ensures written { kernel_of (T.memory store.new) ≡ record (kernel_of (T.memory store.old)) { machine = record (kernel_of (T.memory store.old)).machine { memory_taken = value } } }
    ensures one_block { ChangesBlock (T.blocks store.old) (T.blocks store.new) machine_block }
    ensures keeps { T.keeps store.old store.new }
{
    set_word(store, 7, value);
}

/// Reads how many pages are taken.
#[tactic(auto, unfolding(crate::specs::Kernel::kernel_of, crate::specs::Kernel::tables_of, crate::specs::Kernel::first_page))]
pub fn pages_taken<T: Store>(store: &T) -> u32
    requires { Sized (kernel_of (T.memory store.now)) }
    ensures { result ≡ (kernel_of (T.memory store.now)).machine.pages_taken }
{
    word(store, 8)
}

/// Writes how many pages are taken.
pub fn set_pages_taken<T: Store>(store: &mut T, value: u32)
    requires { Sized (kernel_of (T.memory store.old)) }
    ensures written { kernel_of (T.memory store.new) ≡ record (kernel_of (T.memory store.old)) { machine = record (kernel_of (T.memory store.old)).machine { pages_taken = value } } }
    ensures one_block { ChangesBlock (T.blocks store.old) (T.blocks store.new) machine_block }
    ensures keeps { T.keeps store.old store.new }
{
    set_word(store, 8, value);
}

/// Reads how many nodes of the bank are taken.
#[tactic(auto, unfolding(crate::specs::Kernel::kernel_of, crate::specs::Kernel::tables_of, crate::specs::Kernel::first_page))]
pub fn nodes_taken<T: Store>(store: &T) -> u32
    requires { Sized (kernel_of (T.memory store.now)) }
    ensures { result ≡ (kernel_of (T.memory store.now)).machine.nodes_taken }
{
    word(store, 9)
}

/// Writes how many nodes of the bank are taken.
pub fn set_nodes_taken<T: Store>(store: &mut T, value: u32)
    requires { Sized (kernel_of (T.memory store.old)) }
    ensures written { kernel_of (T.memory store.new) ≡ record (kernel_of (T.memory store.old)) { machine = record (kernel_of (T.memory store.old)).machine { nodes_taken = value } } }
    ensures one_block { ChangesBlock (T.blocks store.old) (T.blocks store.new) machine_block }
    ensures keeps { T.keeps store.old store.new }
{
    set_word(store, 9, value);
}
