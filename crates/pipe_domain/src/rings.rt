//! Pieces of a ring: the page of a pipe is read and written from a place on, and on from its start where its end is come to.

ghost use Rattle.std.specs.Prelude.{◌≡◌, ℕ, false, ◌<◌, ◌≤◌, ◌-◌, [], ◌∷◌, length};
ghost use Rattle.kn_base.specs.Memory.{Memory};
ghost use Rattle.kernel_tables.specs.Blocks.{ChangesBlocks};
ghost use Rattle.kernel_tables.specs.Kernel.{Kernel, kernel_of, Sized, IsSized, IsBankPage, bank_page, first_page, with_bank_page};
ghost use Rattle.kernel_tables.specs.Rows.{entry_at};
ghost use Rattle.kernel_machine.specs.Contents.{ring_in};
ghost use Rattle.space_bank.specs.Bank.{BankGood};
ghost use Rattle.space_bank.specs.FreeList.{is_free};
ghost use Rattle.pipe_domain.specs.Rings.{ring_written};

use kernel_tables::read_bank_page;
use kn_base::{PageId, Store};
use space_bank::write_page;

/// How many bytes a ring has.
pub(crate) const RING: u32 = 4_096;

/// Reads the bytes of a ring from `start` on, as many as `into` has.
pub(crate) fn read_ring<T: Store>(store: &T, page: PageId, start: u32, into: &mut [u8])
    requires sized { Sized (kernel_of (T.memory store.now)) }
    requires page { IsBankPage (kernel_of (T.memory store.now)).size page.0 }
    requires start { start < 4096 }
    requires few { length into.old ≤ 4096 }
    ensures { into.new ≡ ring_in (bank_page (kernel_of (T.memory store.now)) page.0) start (length into.old) }
{
    let before = (RING - start) as usize;
    if into.len() <= before {
        read_bank_page(store, page, start as u16, into);
    } else {
        let (first, second) = into.split_at_mut(before);
        read_bank_page(store, page, start as u16, first);
        read_bank_page(store, page, 0, second);
    }
}

/// Writes bytes in a ring from `place` on.
pub(crate) fn write_ring<T: Store>(store: &mut T, page: PageId, place: u32, from: &[u8])
    requires good { BankGood (kernel_of (T.memory store.old)) }
    requires page { IsBankPage (kernel_of (T.memory store.old)).size page.0 }
    requires used { let old = kernel_of (T.memory store.old) in is_free (entry_at old.page_entries (page.0 - first_page old.size)) ≡ false }
    requires place { place < 4096 }
    requires few { length from.now ≤ 4096 }
    ensures written { let old = kernel_of (T.memory store.old) in kernel_of (T.memory store.new) ≡ record old { bank = with_bank_page old page.0 (ring_written (bank_page old page.0) place from.now) } }
    ensures good { BankGood (kernel_of (T.memory store.new)) }
    ensures blocks { ChangesBlocks (T.blocks store.old) (T.blocks store.new) (page.0 ∷ []) }
    ensures keeps { T.keeps store.old store.new }
{
    let before = (RING - place) as usize;
    if from.len() <= before {
        write_page(store, page, place as u16, from);
    } else {
        let (first, second) = from.split_at(before);
        write_page(store, page, place as u16, first);
        write_page(store, page, 0, second);
    }
}
