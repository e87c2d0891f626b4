//! The buffer of a domain: bytes are written in it, and it is given back.

ghost use Rattle.std.specs.Prelude.{◌≡◌, ◌≢◌, ℕ, ◌<◌, ◌≤◌, ◌+◌, ◌-◌, true, None, Some, List, [], ◌∷◌, MatchOption, length};
ghost use Rattle.kn_base.specs.declared.key.Key.{Key};
ghost use Rattle.kn_base.specs.Memory.{Memory};
ghost use Rattle.kernel_tables.specs.Kernel.{Kernel, kernel_of, first_page};
ghost use Rattle.kernel_tables.specs.Rows.{domain_rows};
ghost use Rattle.kernel_tables.specs.Blocks.{key_block, page_entry_block, machine_block, ChangesBlocks};
ghost use Rattle.space_bank.specs.Bank.{BankGood};
ghost use Rattle.space_bank.specs.Shares.{Outside, Shares};
ghost use Rattle.unix_model.specs.Tables.{at, with_at};
ghost use Rattle.domain.specs.Rules.{RowsGood};
ghost use Rattle.domain.specs.Domains.{domains, lives};
ghost use Rattle.domain.specs.Buffers.{IsBuffer, HoldsBuffer, TakesBuffer, WritesBuffer, DropsBuffer, BufferBlocks};

use super::super::keys::{page_in, root_key};
use super::super::steps::put_row;
use kn_base::{Key, NodeId, PageId, Store};
use space_bank::{PageOwner, give_page, take_page, write_page};

// Takes a page for the buffer of a domain that holds none.
fn take_buffer<T: Store>(store: &mut T, root: NodeId) -> PageId
    requires good { BankGood (kernel_of (T.memory store.old)) }
    requires rows { RowsGood (domain_rows (kernel_of (T.memory store.old))) }
    requires live { (at (domains (kernel_of (T.memory store.old))) root.0).live ≡ true }
    requires none { (at (domains (kernel_of (T.memory store.old))) root.0).buffer ≡ None }
    requires room { (kernel_of (T.memory store.old)).machine.pages_taken < (kernel_of (T.memory store.old)).size }
    ensures taken { TakesBuffer (kernel_of (T.memory store.old)) (kernel_of (T.memory store.new)) root.0 result.0 }
    ensures rows { RowsGood (domain_rows (kernel_of (T.memory store.new))) }
    ensures good { BankGood (kernel_of (T.memory store.new)) }
    ensures blocks { let old = kernel_of (T.memory store.old) in ChangesBlocks (T.blocks store.old) (T.blocks store.new) (page_entry_block (result.0 - first_page old.size) ∷ machine_block ∷ key_block old.pages root.0 ∷ []) }
    ensures keeps { T.keeps store.old store.new }
{
    match take_page(store, PageOwner::Buffer) {
        Some(id) => {
            let key = Key::Page { id, writable: true };
            put_row(store, root, 5, key);
            id
        }
        None => unreachable!(),
    }
}

/// Writes bytes in the buffer of a domain, from `start` on. Where the domain holds none and there are bytes to write, a page is
/// taken for it first.
pub fn write_buffer<T: Store>(store: &mut T, root: NodeId, start: u16, from: &[u8])
    requires good { BankGood (kernel_of (T.memory store.old)) }
    requires rows { RowsGood (domain_rows (kernel_of (T.memory store.old))) }
    requires live { (at (domains (kernel_of (T.memory store.old))) root.0).live ≡ true }
    requires buffer { HoldsBuffer (kernel_of (T.memory store.old)) (at (domains (kernel_of (T.memory store.old))) root.0).buffer }
    requires room { length from.now ≢ 0 → (at (domains (kernel_of (T.memory store.old))) root.0).buffer ≡ None → (kernel_of (T.memory store.old)).machine.pages_taken < (kernel_of (T.memory store.old)).size }
    requires within { start + length from.now ≤ 4096 }
    ensures nothing { length from.now ≡ 0 → kernel_of (T.memory store.new) ≡ kernel_of (T.memory store.old) }
    ensures written { length from.now ≢ 0 → WritesBuffer (kernel_of (T.memory store.old)) (kernel_of (T.memory store.new)) root.0 start from.now (at (domains (kernel_of (T.memory store.old))) root.0).buffer }
    ensures rows { RowsGood (domain_rows (kernel_of (T.memory store.new))) }
    ensures good { BankGood (kernel_of (T.memory store.new)) }
    ensures blocks { let old = kernel_of (T.memory store.old) in BufferBlocks old root.0 (at (domains old) root.0).buffer (T.blocks store.old) (T.blocks store.new) }
    ensures keeps { T.keeps store.old store.new }
{
    if from.len() == 0 {
        return;
    }
    match page_in(root_key(store, root, 5)) {
        Some(page) => write_page(store, page, start, from),
        None => {
            let page = take_buffer(store, root);
            write_page(store, page, start, from);
        }
    }
}

// Takes the key of its buffer from a domain.
fn take_off<T: Store>(store: &mut T, root: NodeId, page: PageId)
    requires good { BankGood (kernel_of (T.memory store.old)) }
    requires rows { RowsGood (domain_rows (kernel_of (T.memory store.old))) }
    requires live { (at (domains (kernel_of (T.memory store.old))) root.0).live ≡ true }
    requires held { (at (domains (kernel_of (T.memory store.old))) root.0).buffer ≡ Some page.0 }
    requires buffer { IsBuffer (kernel_of (T.memory store.old)) page.0 }
    requires shares { (outside : Outside) × (hand : List Key) × Shares (kernel_of (T.memory store.old)) outside hand }
    ensures dropped { DropsBuffer (kernel_of (T.memory store.old)) (kernel_of (T.memory store.new)) root.0 page.0 }
    ensures rows { RowsGood (domain_rows (kernel_of (T.memory store.new))) }
    ensures good { BankGood (kernel_of (T.memory store.new)) }
    ensures blocks { let old = kernel_of (T.memory store.old) in ChangesBlocks (T.blocks store.old) (T.blocks store.new) (key_block old.pages root.0 ∷ page.0 ∷ page_entry_block (page.0 - first_page old.size) ∷ machine_block ∷ []) }
    ensures keeps { T.keeps store.old store.new }
{
    put_row(store, root, 5, Key::Null);
    give_page(store, page);
}

/// Gives the buffer of a domain back, if it holds one. Its page is free and zero then.
pub fn drop_buffer<T: Store>(store: &mut T, root: NodeId)
    requires good { BankGood (kernel_of (T.memory store.old)) }
    requires rows { RowsGood (domain_rows (kernel_of (T.memory store.old))) }
    requires live { (at (domains (kernel_of (T.memory store.old))) root.0).live ≡ true }
    requires buffer { HoldsBuffer (kernel_of (T.memory store.old)) (at (domains (kernel_of (T.memory store.old))) root.0).buffer }
    requires shares { (outside : Outside) × (hand : List Key) × Shares (kernel_of (T.memory store.old)) outside hand }
    ensures dropped { let old = kernel_of (T.memory store.old) in let new = kernel_of (T.memory store.new) in MatchOption (at (domains old) root.0).buffer (new ≡ old) (λ page. DropsBuffer old new root.0 page) }
    ensures rows { RowsGood (domain_rows (kernel_of (T.memory store.new))) }
    ensures good { BankGood (kernel_of (T.memory store.new)) }
    ensures blocks { let old = kernel_of (T.memory store.old) in MatchOption (at (domains old) root.0).buffer (T.blocks store.new ≡ T.blocks store.old) (λ page. ChangesBlocks (T.blocks store.old) (T.blocks store.new) (key_block old.pages root.0 ∷ page ∷ page_entry_block (page - first_page old.size) ∷ machine_block ∷ [])) }
    ensures keeps { T.keeps store.old store.new }
{
    match page_in(root_key(store, root, 5)) {
        Some(page) => take_off(store, root, page),
        None => {}
    }
}
