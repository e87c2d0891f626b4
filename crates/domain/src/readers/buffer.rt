//! The bytes in the buffer of a domain.

ghost use Rattle.std.specs.Prelude.{◌≡◌, ℕ, ◌≤◌, ◌+◌, true, IsSome, length};
ghost use Rattle.kn_base.specs.Memory.{Memory};
ghost use Rattle.kn_base.specs.Rows.{part_at};
ghost use Rattle.kernel_tables.specs.Kernel.{Kernel, kernel_of};
ghost use Rattle.space_bank.specs.Bank.{BankGood};
ghost use Rattle.unix_model.specs.Tables.{at};
ghost use Rattle.domain.specs.Domains.{domains};
ghost use Rattle.domain.specs.Buffers.{HoldsBuffer, buffer_bytes};

use super::super::keys::{page_in, root_key};
use kernel_tables::read_bank_page;
use kn_base::{NodeId, Store};

/// Reads bytes of the buffer that the domain holds, from `start` on, as many as `into` has.
pub fn read_buffer<T: Store>(store: &T, root: NodeId, start: u16, into: &mut [u8])
    requires good { BankGood (kernel_of (T.memory store.now)) }
    requires live { (at (domains (kernel_of (T.memory store.now))) root.0).live ≡ true }
    requires held { IsSome (at (domains (kernel_of (T.memory store.now))) root.0).buffer }
    requires buffer { HoldsBuffer (kernel_of (T.memory store.now)) (at (domains (kernel_of (T.memory store.now))) root.0).buffer }
    requires within { start + length into.old ≤ 4096 }
    ensures { let kernel = kernel_of (T.memory store.now) in into.new ≡ part_at (buffer_bytes kernel (at (domains kernel) root.0).buffer) start (length into.old) }
{
    match page_in(root_key(store, root, 5)) {
        Some(page) => read_bank_page(store, page, start, into),
        None => unreachable!(),
    }
}
