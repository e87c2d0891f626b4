//! The buffer of the first domain.

ghost use Rattle.std.specs.Prelude.{◌≡◌, ◌≢◌, ◌≤◌, ℕ, ◌+◌, true, length};
ghost use Rattle.kn_base.specs.Memory.{Memory, zero_memory};
ghost use Rattle.kernel_tables.specs.Kernel.{Kernel, kernel_of, first_page, node_count};
ghost use Rattle.kernel_tables.specs.Rows.{domain_rows};
ghost use Rattle.space_bank.specs.Bank.{BankGood};
ghost use Rattle.unix_model.specs.Tables.{at};
ghost use Rattle.domain.specs.Rules.{RowsGood};
ghost use Rattle.domain.specs.Domains.{domains};
ghost use Rattle.tests_domain.specs.First.{IsBuffered};

use super::first::first_domain;
use domain::{drop_buffer, read_buffer, write_buffer};
use kn_base::{NodeId, Store};

/// Makes the first domain of a store of zeros, and writes its first bytes in its buffer, from byte 7 on.
pub fn buffered_domain<T: Store>(store: &mut T, bytes: &[u8]) -> NodeId
    requires zeros { T.memory store.old ≡ zero_memory (first_page 64 + 64) (node_count 64) }
    requires some { length bytes.now ≢ 0 }
    requires few { 7 + length bytes.now ≤ 4096 }
    ensures buffered { IsBuffered (kernel_of (T.memory store.new)) result.0 }
    ensures live { (at (domains (kernel_of (T.memory store.new))) result.0).live ≡ true }
    ensures whole { (at (domains (kernel_of (T.memory store.new))) result.0).whole ≡ true }
    ensures rows { RowsGood (domain_rows (kernel_of (T.memory store.new))) }
    ensures good { BankGood (kernel_of (T.memory store.new)) }
    ensures keeps { T.keeps store.old store.new }
{
    let root = first_domain(store);
    write_buffer(store, root, 7, bytes);
    root
}

/// Reads the first bytes of the buffer.
pub fn first_bytes<T: Store>(store: &T, root: NodeId, into: &mut [u8])
    requires buffered { IsBuffered (kernel_of (T.memory store.now)) root.0 }
    requires good { BankGood (kernel_of (T.memory store.now)) }
    requires few { length into.old ≤ 4096 }
{
    read_buffer(store, root, 0, into);
}

/// Gives the buffer back.
pub fn give_buffer<T: Store>(store: &mut T, root: NodeId)
    requires buffered { IsBuffered (kernel_of (T.memory store.old)) root.0 }
    requires rows { RowsGood (domain_rows (kernel_of (T.memory store.old))) }
    requires good { BankGood (kernel_of (T.memory store.old)) }
    ensures rows { RowsGood (domain_rows (kernel_of (T.memory store.new))) }
    ensures good { BankGood (kernel_of (T.memory store.new)) }
    ensures keeps { T.keeps store.old store.new }
{
    drop_buffer(store, root);
}
