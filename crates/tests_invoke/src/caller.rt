//! A machine whose first domain may call the service of directories.

ghost use Rattle.std.specs.Prelude.{◌≡◌, ◌≢◌, ℕ, ◌+◌};
ghost use Rattle.kn_base.specs.Memory.{Memory, zero_memory};
ghost use Rattle.kernel_tables.specs.Kernel.{Kernel, kernel_of, first_page, node_count};
ghost use Rattle.kernel_tables.specs.Rows.{domain_rows};
ghost use Rattle.space_bank.specs.Bank.{BankGood};
ghost use Rattle.domain.specs.Rules.{RowsGood};
ghost use Rattle.unix_model.specs.Tables.{at};
ghost use Rattle.domain.specs.declared.types.State.TheVariants.{Running};
ghost use Rattle.domain.specs.Domains.{domains, lives};
ghost use Rattle.domain.specs.Lives.{HasLife};
ghost use Rattle.domain.specs.Slots.{SlotsDiffer};
ghost use Rattle.invoke.specs.Invokes.{IsCaller};
ghost use Rattle.tests_invoke.specs.Caller.{IsFresh};

use domain::new_domain;
use kn_base::{NodeId, Store};
use space_bank::{NodeOwner, setup, take_node};

/// The slot of the domain that calls.
pub const SLOT: u8 = 5;

/// The root of the service of directories.
pub const DIRECTORIES: NodeId = NodeId(3);

// An empty machine, and a node for a space.
fn fresh_space<T: Store>(store: &mut T) -> NodeId
    requires zeros { T.memory store.old ≡ zero_memory (first_page 64 + 64) (node_count 64) }
    ensures fresh { IsFresh (kernel_of (T.memory store.new)) result.0 }
    ensures good { BankGood (kernel_of (T.memory store.new)) }
    ensures keeps { T.keeps store.old store.new }
{
    setup(store, 64, 100);
    match take_node(store, NodeOwner::Tree) {
        Some(node) => node,
        None => unreachable!(),
    }
}

/// Makes an empty machine of a store of zeros, and its first domain, which runs.
pub fn first_caller<T: Store>(store: &mut T) -> NodeId
    requires zeros { T.memory store.old ≡ zero_memory (first_page 64 + 64) (node_count 64) }
    ensures caller { IsCaller (kernel_of (T.memory store.new)) 5 result.0 }
    ensures directories { HasLife (kernel_of (T.memory store.new)) 3 }
    ensures alone { SlotsDiffer (domains (kernel_of (T.memory store.new))) }
    ensures apart { result.0 ≢ 3 }
    ensures runs { (at (lives (kernel_of (T.memory store.new))) result.0).state ≡ Running }
    ensures rows { RowsGood (domain_rows (kernel_of (T.memory store.new))) }
    ensures good { BankGood (kernel_of (T.memory store.new)) }
    ensures keeps { T.keeps store.old store.new }
{
    let space = fresh_space(store);
    new_domain(store, SLOT, space)
}
