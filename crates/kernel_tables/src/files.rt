//! The tables of inodes and of open descriptions.

ghost use Rattle.std.specs.Prelude.{◌≡◌, ℕ, ◌<◌, length, slice_set};
ghost use Rattle.kn_base.specs.Memory.{Memory, ChangesBlock};
ghost use Rattle.kernel_tables.specs.Kernel.{Kernel, kernel_of, Sized, IsSized, inode_count, inode_at, description_count, description_at};
ghost use Rattle.kernel_tables.specs.Blocks.{inode_block, description_block};

use super::description::{Description, description_bytes, description_entry_in};
use super::inode::{Inode, inode_bytes, inode_entry_in};
use super::row::Row;
use kn_base::{PageId, Store};

/// The entry of an inode. `number` is below 1,024.
#[tactic(auto, using(kn_base::proofs::RowLaws::tables_read), unfolding(crate::specs::Kernel::kernel_of, crate::specs::Kernel::tables_of, crate::specs::Kernel::first_page))]
pub fn inode_entry<T: Store>(store: &T, number: u32) -> Row<Inode>
    requires sized { Sized (kernel_of (T.memory store.now)) }
    requires number { number < inode_count }
    ensures entry { result ≡ inode_at (kernel_of (T.memory store.now)) number }
    ensures rows { length (kernel_of (T.memory store.now)).inodes ≡ inode_count }
{
    let mut bytes = [0; 32];
    let page = PageId(2 + number / 128);
    store.read_page(page, (32 * (number % 128)) as u16, &mut bytes);
    inode_entry_in(bytes)
}

/// Writes the entry of an inode. `number` is below 1,024.
#[tactic(auto, using(crate::proofs::Places::written), unfolding(crate::specs::Kernel::kernel_of, crate::specs::Kernel::tables_of, crate::specs::Kernel::page_words, crate::specs::Kernel::first_page, crate::specs::Kernel::node_entry_page))]
pub fn set_inode_entry<T: Store>(store: &mut T, number: u32, entry: Row<Inode>)
    requires sized { Sized (kernel_of (T.memory store.old)) }
    requires number { number < inode_count }
    ensures written { kernel_of (T.memory store.new) ≡ record (kernel_of (T.memory store.old)) { inodes = slice_set (kernel_of (T.memory store.old)).inodes number entry } }
    ensures one_block { ChangesBlock (T.blocks store.old) (T.blocks store.new) (inode_block number) }
    ensures keeps { T.keeps store.old store.new }
{
    let bytes = inode_bytes(entry);
    let page = PageId(2 + number / 128);
    store.write_page(page, (32 * (number % 128)) as u16, &bytes);
}

/// The entry of an open description. `number` is below 2,048.
#[tactic(auto, using(kn_base::proofs::RowLaws::tables_read), unfolding(crate::specs::Kernel::kernel_of, crate::specs::Kernel::tables_of, crate::specs::Kernel::first_page))]
pub fn description_entry<T: Store>(store: &T, number: u16) -> Row<Description>
    requires sized { Sized (kernel_of (T.memory store.now)) }
    requires number { number < description_count }
    ensures entry { result ≡ description_at (kernel_of (T.memory store.now)) number }
    ensures rows { length (kernel_of (T.memory store.now)).descriptions ≡ description_count }
{
    let mut bytes = [0; 16];
    let page = PageId(10 + number as u32 / 256);
    store.read_page(page, 16 * (number % 256), &mut bytes);
    description_entry_in(bytes)
}

/// Writes the entry of an open description. `number` is below 2,048.
#[tactic(auto, using(crate::proofs::Places::written), unfolding(crate::specs::Kernel::kernel_of, crate::specs::Kernel::tables_of, crate::specs::Kernel::page_words, crate::specs::Kernel::first_page, crate::specs::Kernel::node_entry_page))]
pub fn set_description_entry<T: Store>(store: &mut T, number: u16, entry: Row<Description>)
    requires sized { Sized (kernel_of (T.memory store.old)) }
    requires number { number < description_count }
    ensures written { kernel_of (T.memory store.new) ≡ record (kernel_of (T.memory store.old)) { descriptions = slice_set (kernel_of (T.memory store.old)).descriptions number entry } }
    ensures one_block { ChangesBlock (T.blocks store.old) (T.blocks store.new) (description_block number) }
    ensures keeps { T.keeps store.old store.new }
{
    let bytes = description_bytes(entry);
    let page = PageId(10 + number as u32 / 256);
    store.write_page(page, 16 * (number % 256), &bytes);
}
