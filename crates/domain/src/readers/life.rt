//! Whether a domain or a service may be called, runs or waits.

ghost use Rattle.std.specs.Prelude.{◌≡◌, ◌⊎◌, ◌≤◌, ℕ, true};
ghost use Rattle.kn_base.specs.Memory.{Memory};
ghost use Rattle.kernel_tables.specs.Kernel.{Kernel, kernel_of};
ghost use Rattle.space_bank.specs.Bank.{BankGood};
ghost use Rattle.unix_model.specs.Tables.{at};
ghost use Rattle.domain.specs.Domains.{domains, lives, life_in};
ghost use Rattle.domain.specs.Lives.{HasLife, IsService};

use super::super::keys::{count_in, spelled_key, state_by, word};
use super::super::types::State;
use kn_base::{Key, NodeId, Store};

// The key with the life of a root.
fn life_key<T: Store>(store: &T, root: NodeId) -> Key
    requires good { BankGood (kernel_of (T.memory store.now)) }
    requires alive { HasLife (kernel_of (T.memory store.now)) root.0 }
    ensures { life_in result ≡ at (lives (kernel_of (T.memory store.now))) root.0 }
{
    spelled_key(store, root, 6)
}

/// Whether the domain of a root, or the service of one, may be called, runs or waits.
pub fn state_of<T: Store>(store: &T, root: NodeId) -> State
    requires good { BankGood (kernel_of (T.memory store.now)) }
    requires alive { HasLife (kernel_of (T.memory store.now)) root.0 }
    ensures { result ≡ (at (lives (kernel_of (T.memory store.now))) root.0).state }
{
    state_by(word(life_key(store, root), 0))
}

/// How many calls of the domain of a root, or of the service of one, were answered, as a number below 2^64.
pub fn count_of<T: Store>(store: &T, root: NodeId) -> u64
    requires good { BankGood (kernel_of (T.memory store.now)) }
    requires alive { HasLife (kernel_of (T.memory store.now)) root.0 }
    ensures { result ≡ (at (lives (kernel_of (T.memory store.now))) root.0).count }
{
    count_in(life_key(store, root))
}
