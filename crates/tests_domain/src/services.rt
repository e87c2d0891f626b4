//! The state and the call count of services.

ghost use Rattle.std.specs.Prelude.{◌≡◌, ℕ, ◌+◌};
ghost use Rattle.kn_base.specs.Memory.{Memory, zero_memory};
ghost use Rattle.kernel_tables.specs.Kernel.{Kernel, kernel_of, first_page, node_count};
ghost use Rattle.kernel_tables.specs.Rows.{domain_rows};
ghost use Rattle.space_bank.specs.Bank.{BankGood};
ghost use Rattle.domain.specs.Rules.{RowsGood};
ghost use Rattle.domain.specs.Lives.{HasLife};

use domain::{State, set_state};
use kn_base::{NodeId, Store};
use space_bank::setup;

/// The root of the service of directories, and of that of pipes.
pub const DIRECTORIES: NodeId = NodeId(3);

pub const PIPES: NodeId = NodeId(4);

/// Makes an empty machine of a store of zeros, in which the service of directories runs and has answered all calls that can be
/// counted.
pub fn running_service<T: Store>(store: &mut T)
    requires zeros { T.memory store.old ≡ zero_memory (first_page 64 + 64) (node_count 64) }
    ensures directories { HasLife (kernel_of (T.memory store.new)) 3 }
    ensures pipes { HasLife (kernel_of (T.memory store.new)) 4 }
    ensures rows { RowsGood (domain_rows (kernel_of (T.memory store.new))) }
    ensures good { BankGood (kernel_of (T.memory store.new)) }
    ensures keeps { T.keeps store.old store.new }
{
    setup(store, 64, 100);
    set_state(store, DIRECTORIES, State::Running, u64::MAX);
}
