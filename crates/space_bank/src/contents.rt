//! What pages and nodes that are in use hold.

ghost use Rattle.std.specs.Prelude.{◌≡◌, ◌≢◌, ℕ, false, ◌<◌, ◌≤◌, ◌+◌, ◌-◌, length, [], ◌∷◌};
ghost use Rattle.kn_base.specs.Rows.{overwritten};
ghost use Rattle.kn_base.specs.Memory.{Memory};
ghost use Rattle.kernel_tables.specs.Kernel.{Kernel, kernel_of, Sized, IsSized, IsBankPage, first_page, bank_page, with_bank_page};
ghost use Rattle.kernel_tables.specs.Blocks.{key_block, ChangesBlocks};
ghost use Rattle.kernel_tables.specs.Rows.{entry_at};
ghost use Rattle.space_bank.specs.FreeList.{is_free};
ghost use Rattle.space_bank.specs.Bank.{BankGood};
ghost use Rattle.space_bank.specs.Fixed.{FixedNodes};
ghost use Rattle.space_bank.specs.Changes.{key_written, ExchangesKeys};

use kernel_tables::{copy_bank_page, set_key_at, write_bank_page};
use kn_base::{Key, NodeId, PageId, Store};

/// Writes bytes into a page that is in use, from `at` on.
pub fn write_page<T: Store>(store: &mut T, page: PageId, at: u16, from: &[u8])
    requires good { BankGood (kernel_of (T.memory store.old)) }
    requires page { IsBankPage (kernel_of (T.memory store.old)).size page.0 }
    requires used { let old = kernel_of (T.memory store.old) in is_free (entry_at old.page_entries (page.0 - first_page old.size)) ≡ false }
    requires within { at + length from.now ≤ 4096 }
    ensures written { let old = kernel_of (T.memory store.old) in kernel_of (T.memory store.new) ≡ record old { bank = with_bank_page old page.0 (overwritten (bank_page old page.0) at from.now) } }
    ensures good { BankGood (kernel_of (T.memory store.new)) }
    ensures blocks { ChangesBlocks (T.blocks store.old) (T.blocks store.new) (page.0 ∷ []) }
    ensures keeps { T.keeps store.old store.new }
{
    write_bank_page(store, page, at, from);
}

/// Copies a page over another one that is in use.
pub fn copy_page<T: Store>(store: &mut T, from: PageId, to: PageId)
    requires good { BankGood (kernel_of (T.memory store.old)) }
    requires from { IsBankPage (kernel_of (T.memory store.old)).size from.0 }
    requires to { IsBankPage (kernel_of (T.memory store.old)).size to.0 }
    requires used { let old = kernel_of (T.memory store.old) in is_free (entry_at old.page_entries (to.0 - first_page old.size)) ≡ false }
    requires two_pages { from.0 ≢ to.0 }
    ensures written { let old = kernel_of (T.memory store.old) in kernel_of (T.memory store.new) ≡ record old { bank = with_bank_page old to.0 (bank_page old from.0) } }
    ensures good { BankGood (kernel_of (T.memory store.new)) }
    ensures blocks { ChangesBlocks (T.blocks store.old) (T.blocks store.new) (to.0 ∷ []) }
    ensures keeps { T.keeps store.old store.new }
{
    copy_bank_page(store, from, to);
}

/// Writes a key at a place of a node that is in use. `place` is 0 to 15.
pub fn write_key<T: Store>(store: &mut T, node: NodeId, place: u8, key: Key)
    requires good { BankGood (kernel_of (T.memory store.old)) }
    requires inside { node.0 < (kernel_of (T.memory store.old)).nodes }
    requires used { is_free (entry_at (kernel_of (T.memory store.old)).node_entries node.0) ≡ false }
    requires place { place < 16 }
    ensures written { kernel_of (T.memory store.new) ≡ key_written (kernel_of (T.memory store.old)) node.0 place key }
    ensures shares { ExchangesKeys (kernel_of (T.memory store.old)) (kernel_of (T.memory store.new)) node.0 place key }
    ensures fixed { 15 ≤ node.0 → FixedNodes (kernel_of (T.memory store.old)).keys → FixedNodes (kernel_of (T.memory store.new)).keys }
    ensures good { BankGood (kernel_of (T.memory store.new)) }
    ensures blocks { ChangesBlocks (T.blocks store.old) (T.blocks store.new) (key_block (kernel_of (T.memory store.old)).pages node.0 ∷ []) }
    ensures keeps { T.keeps store.old store.new }
{
    set_key_at(store, node, place, key);
}
