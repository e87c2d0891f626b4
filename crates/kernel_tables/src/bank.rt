//! The entries of pages and nodes.

ghost use Rattle.std.specs.Prelude.{◌≡◌, ◌≢◌, ◌⊎◌, ℕ, ◌<◌, ◌≤◌, ◌+◌, ◌-◌, ◌*◌, Some, length, slice_index_or, slice_set};
ghost use Rattle.kn_base.specs.Rows.{part_at, overwritten};
ghost use Rattle.kn_base.specs.Memory.{Memory, zero_page, ChangesBlock};
ghost use Rattle.kernel_tables.specs.declared.entry.Entry.TheVariants.{Fixed, Unspelled};
ghost use Rattle.kernel_tables.specs.Kernel.{Kernel, kernel_of, Sized, IsSized, first_page, node_entry_page, IsBankPage, bank_page, with_bank_page, memory_page};
ghost use Rattle.kernel_tables.specs.Blocks.{page_entry_block, node_entry_block, key_block};

use super::entry::{
    Entry, NodeOwner, PageOwner, node_entry_bytes, node_entry_in, page_entry_bytes, page_entry_in,
};
use kn_base::{Key, NodeId, PageId, Store};

/// How many pages the bank has.
#[tactic(auto, unfolding(crate::specs::Kernel::kernel_of, crate::specs::Kernel::tables_of))]
pub fn bank_size<T: Store>(store: &T) -> u32
    requires sized { Sized (kernel_of (T.memory store.now)) }
    ensures { result ≡ (kernel_of (T.memory store.now)).size }
{
    (store.counts().nodes - 1296) / 4
}

/// The first page of the bank.
#[tactic(auto, unfolding(crate::specs::Kernel::first_page))]
pub fn first_bank_page(size: u32) -> u32
    requires { size ≤ 16384 }
    ensures { result ≡ first_page size }
{
    18 + size.div_ceil(512) + (4 * size + 1296).div_ceil(512)
}

/// The entry of a page of the bank.
#[tactic(auto, using(kn_base::proofs::RowLaws::tables_read), unfolding(crate::specs::Kernel::kernel_of, crate::specs::Kernel::tables_of, crate::specs::Kernel::first_page, crate::specs::Kernel::node_entry_page))]
pub fn page_entry<T: Store>(store: &T, n: u32) -> Entry<PageOwner>
    requires sized { Sized (kernel_of (T.memory store.now)) }
    requires page { n < (kernel_of (T.memory store.now)).size }
    ensures { result ≡ slice_index_or (kernel_of (T.memory store.now)).page_entries n Unspelled }
{
    let mut bytes = [0; 8];
    store.read_page(PageId(18 + n / 512), (8 * (n % 512)) as u16, &mut bytes);
    page_entry_in(bytes)
}

/// Writes the entry of a page of the bank.
#[tactic(auto, using(crate::proofs::Places::written), unfolding(crate::specs::Kernel::kernel_of, crate::specs::Kernel::tables_of, crate::specs::Kernel::page_words, crate::specs::Kernel::first_page, crate::specs::Kernel::node_entry_page))]
pub fn set_page_entry<T: Store>(store: &mut T, n: u32, entry: Entry<PageOwner>)
    requires sized { Sized (kernel_of (T.memory store.old)) }
    requires page { n < (kernel_of (T.memory store.old)).size }
    requires no_fixed_page { entry ≢ Fixed }
    ensures written { kernel_of (T.memory store.new) ≡ record (kernel_of (T.memory store.old)) { page_entries = slice_set (kernel_of (T.memory store.old)).page_entries n entry } }
    ensures one_block { ChangesBlock (T.blocks store.old) (T.blocks store.new) (page_entry_block n) }
    ensures keeps { T.keeps store.old store.new }
{
    store.write_page(
        PageId(18 + n / 512),
        (8 * (n % 512)) as u16,
        &page_entry_bytes(entry),
    );
}

// The page in which the entries of nodes begin.
#[tactic(auto, unfolding(crate::specs::Kernel::kernel_of, crate::specs::Kernel::tables_of, crate::specs::Kernel::first_page, crate::specs::Kernel::node_entry_page))]
fn node_entries<T: Store>(store: &T) -> u32
    requires { Sized (kernel_of (T.memory store.now)) }
    ensures { result ≡ node_entry_page (kernel_of (T.memory store.now)).size }
{
    18 + bank_size(store).div_ceil(512)
}

/// The entry of a node.
#[tactic(auto, using(kn_base::proofs::RowLaws::tables_read), unfolding(crate::specs::Kernel::kernel_of, crate::specs::Kernel::tables_of, crate::specs::Kernel::first_page, crate::specs::Kernel::node_entry_page))]
pub fn node_entry<T: Store>(store: &T, node: NodeId) -> Entry<NodeOwner>
    requires sized { Sized (kernel_of (T.memory store.now)) }
    requires node { node.0 < (kernel_of (T.memory store.now)).nodes }
    ensures { result ≡ slice_index_or (kernel_of (T.memory store.now)).node_entries node.0 Unspelled }
{
    let mut bytes = [0; 8];
    let page = PageId(node_entries(store) + node.0 / 512);
    store.read_page(page, (8 * (node.0 % 512)) as u16, &mut bytes);
    node_entry_in(bytes)
}

/// Writes the entry of a node.
#[tactic(auto, using(crate::proofs::Places::written), unfolding(crate::specs::Kernel::kernel_of, crate::specs::Kernel::tables_of, crate::specs::Kernel::page_words, crate::specs::Kernel::first_page, crate::specs::Kernel::node_entry_page))]
pub fn set_node_entry<T: Store>(store: &mut T, node: NodeId, entry: Entry<NodeOwner>)
    requires sized { Sized (kernel_of (T.memory store.old)) }
    requires node { node.0 < (kernel_of (T.memory store.old)).nodes }
    ensures written { kernel_of (T.memory store.new) ≡ record (kernel_of (T.memory store.old)) { node_entries = slice_set (kernel_of (T.memory store.old)).node_entries node.0 entry } }
    ensures one_block { ChangesBlock (T.blocks store.old) (T.blocks store.new) (node_entry_block (kernel_of (T.memory store.old)).size node.0) }
    ensures keeps { T.keeps store.old store.new }
{
    let page = PageId(node_entries(store) + node.0 / 512);
    store.write_page(page, (8 * (node.0 % 512)) as u16, &node_entry_bytes(entry));
}

/// Makes all bytes of a page of the bank zero.
#[tactic(auto, using(crate::proofs::Places::written), unfolding(crate::specs::Kernel::kernel_of, crate::specs::Kernel::tables_of, crate::specs::Kernel::page_words, crate::specs::Kernel::first_page, crate::specs::Kernel::node_entry_page))]
pub fn clear_bank_page<T: Store>(store: &mut T, n: u32)
    requires sized { Sized (kernel_of (T.memory store.old)) }
    requires page { n < (kernel_of (T.memory store.old)).size }
    ensures written { kernel_of (T.memory store.new) ≡ record (kernel_of (T.memory store.old)) { bank = slice_set (kernel_of (T.memory store.old)).bank n zero_page } }
    ensures one_block { ChangesBlock (T.blocks store.old) (T.blocks store.new) (first_page (kernel_of (T.memory store.old)).size + n) }
    ensures keeps { T.keeps store.old store.new }
{
    let first = first_bank_page(bank_size(store));
    store.clear_page(PageId(first + n));
}

/// Reads bytes of a page of the bank from `at` on, as many as `into` has.
#[tactic(auto, using(crate::proofs::Places::bank_read), unfolding(crate::specs::Kernel::kernel_of, crate::specs::Kernel::tables_of))]
pub fn read_bank_page<T: Store>(store: &T, page: PageId, at: u16, into: &mut [u8])
    requires sized { Sized (kernel_of (T.memory store.now)) }
    requires page { IsBankPage (kernel_of (T.memory store.now)).size page.0 }
    requires within { at + length into.old ≤ 4096 }
    ensures read { into.new ≡ part_at (bank_page (kernel_of (T.memory store.now)) page.0) at (length into.old) }
    ensures whole { length (bank_page (kernel_of (T.memory store.now)) page.0) ≡ 4096 }
{
    store.read_page(page, at, into);
}

/// Reads bytes of page 0 or of a page of the bank from `at` on, as many as `into` has.
#[tactic(auto, using(crate::proofs::Places::bank_read), unfolding(crate::specs::Kernel::kernel_of, crate::specs::Kernel::tables_of))]
pub fn read_memory_page<T: Store>(store: &T, page: PageId, at: u16, into: &mut [u8])
    requires sized { Sized (kernel_of (T.memory store.now)) }
    requires page { (page.0 ≡ 0) ⊎ IsBankPage (kernel_of (T.memory store.now)).size page.0 }
    requires within { at + length into.old ≤ 4096 }
    ensures read { into.new ≡ part_at (memory_page (kernel_of (T.memory store.now)) page.0) at (length into.old) }
    ensures whole { length (memory_page (kernel_of (T.memory store.now)) page.0) ≡ 4096 }
{
    store.read_page(page, at, into);
}

/// Writes bytes into a page of the bank from `at` on.
#[tactic(auto, using(crate::proofs::Places::bank_written), unfolding(crate::specs::Kernel::kernel_of, crate::specs::Kernel::tables_of, crate::specs::Kernel::page_words, crate::specs::Kernel::first_page, crate::specs::Kernel::node_entry_page))]
pub fn write_bank_page<T: Store>(store: &mut T, page: PageId, at: u16, from: &[u8])
    requires sized { Sized (kernel_of (T.memory store.old)) }
    requires page { IsBankPage (kernel_of (T.memory store.old)).size page.0 }
    requires within { at + length from.now ≤ 4096 }
    ensures written { let old = kernel_of (T.memory store.old) in kernel_of (T.memory store.new) ≡ record old { bank = with_bank_page old page.0 (overwritten (bank_page old page.0) at from.now) } }
    ensures one_block { ChangesBlock (T.blocks store.old) (T.blocks store.new) page.0 }
    ensures keeps { T.keeps store.old store.new }
{
    store.write_page(page, at, from);
}

/// Copies a page of the bank over another one.
#[tactic(auto, using(crate::proofs::Places::bank_written), unfolding(crate::specs::Kernel::kernel_of, crate::specs::Kernel::tables_of, crate::specs::Kernel::page_words, crate::specs::Kernel::first_page, crate::specs::Kernel::node_entry_page))]
pub fn copy_bank_page<T: Store>(store: &mut T, from: PageId, to: PageId)
    requires sized { Sized (kernel_of (T.memory store.old)) }
    requires from { IsBankPage (kernel_of (T.memory store.old)).size from.0 }
    requires to { IsBankPage (kernel_of (T.memory store.old)).size to.0 }
    requires two_pages { from.0 ≢ to.0 }
    ensures written { let old = kernel_of (T.memory store.old) in kernel_of (T.memory store.new) ≡ record old { bank = with_bank_page old to.0 (bank_page old from.0) } }
    ensures one_block { ChangesBlock (T.blocks store.old) (T.blocks store.new) to.0 }
    ensures keeps { T.keeps store.old store.new }
{
    store.copy_page(from, to);
}

/// The key at a place of a node, or None where the bytes there spell no key. `place` is 0 to 15.
#[tactic(auto, unfolding(crate::specs::Kernel::kernel_of, crate::specs::Kernel::tables_of, crate::specs::Kernel::first_page, crate::specs::Kernel::node_entry_page))]
pub fn key_at<T: Store>(store: &T, node: NodeId, place: u8) -> Option<Key>
    requires node { node.0 < (kernel_of (T.memory store.now)).nodes }
    requires place { place < 16 }
    ensures { result ≡ slice_index_or (kernel_of (T.memory store.now)).keys (16 * node.0 + place) None }
{
    if store.spells_key(node, place) {
        Some(store.key(node, place))
    } else {
        None
    }
}

/// Writes a key at a place of a node. `place` is 0 to 15.
#[tactic(auto, using(crate::proofs::Places::written), unfolding(crate::specs::Kernel::kernel_of, crate::specs::Kernel::tables_of, crate::specs::Kernel::first_page, crate::specs::Kernel::node_entry_page))]
pub fn set_key_at<T: Store>(store: &mut T, node: NodeId, place: u8, key: Key)
    requires node { node.0 < (kernel_of (T.memory store.old)).nodes }
    requires place { place < 16 }
    ensures written { kernel_of (T.memory store.new) ≡ record (kernel_of (T.memory store.old)) { keys = slice_set (kernel_of (T.memory store.old)).keys (16 * node.0 + place) (Some key) } }
    ensures one_block { ChangesBlock (T.blocks store.old) (T.blocks store.new) (key_block (kernel_of (T.memory store.old)).pages node.0) }
    ensures keeps { T.keeps store.old store.new }
{
    store.set_key(node, place, key);
}
