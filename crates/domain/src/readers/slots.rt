//! The slot table: which domain a slot has.

ghost use Rattle.std.specs.Prelude.{◌≡◌, ℕ, ◌<◌, ◌+◌, ◌*◌, ◌/◌, ◌%◌, None, Some, MatchOption};
ghost use Rattle.kn_base.specs.Memory.{Memory};
ghost use Rattle.kernel_tables.specs.Kernel.{Kernel, kernel_of};
ghost use Rattle.kernel_tables.specs.Rows.{fixed_rows};
ghost use Rattle.space_bank.specs.Bank.{BankGood};
ghost use Rattle.unix_model.specs.Tables.{at};
ghost use Rattle.domain.specs.Domains.{roots};

use super::super::keys::{root_in, spelled_key};
use kn_base::{Key, NodeId, Store};

// The key of a slot in the slot table.
fn slot_key<T: Store>(store: &T, slot: u8) -> Key
    requires good { BankGood (kernel_of (T.memory store.now)) }
    requires slot { slot < 64 }
    ensures { result ≡ fixed_rows (kernel_of (T.memory store.now)) (11 + slot / 16) (slot % 16) }
{
    spelled_key(store, NodeId(11 + slot as u32 / 16), slot % 16)
}

/// The root of the domain of a slot, or None where the slot is free. Slots are 0 to 63.
pub fn root_of<T: Store>(store: &T, slot: u8) -> Option<NodeId>
    requires good { BankGood (kernel_of (T.memory store.now)) }
    requires slot { slot < 64 }
    ensures { let root = at (roots (kernel_of (T.memory store.now))) slot in MatchOption result (root ≡ None) (λ node. root ≡ Some node.0) }
{
    root_in(slot_key(store, slot))
}
