//! The first domain of an empty machine.

ghost use Rattle.std.specs.Prelude.{◌≡◌, ℕ, ◌+◌, true, None};
ghost use Rattle.kn_base.specs.Memory.{Memory, zero_memory};
ghost use Rattle.kernel_tables.specs.Kernel.{Kernel, kernel_of, first_page, node_count};
ghost use Rattle.kernel_tables.specs.Rows.{domain_rows};
ghost use Rattle.space_bank.specs.Bank.{BankGood};
ghost use Rattle.unix_model.specs.Tables.{at};
ghost use Rattle.domain.specs.Rules.{RowsGood};
ghost use Rattle.domain.specs.Domains.{domains};
ghost use Rattle.tests_domain.specs.First.{IsReady, IsFirst};

use domain::new_domain;
use kn_base::{NodeId, Store};
use space_bank::{NodeOwner, setup, take_node};

/// The slot of the first domain.
pub const SLOT: u8 = 5;

// A node for a space, of a bank in which there are free ones.
fn space_node<T: Store>(store: &mut T) -> NodeId
    requires zeros { T.memory store.old ≡ zero_memory (first_page 64 + 64) (node_count 64) }
    ensures ready { IsReady (kernel_of (T.memory store.new)) result.0 }
    ensures good { BankGood (kernel_of (T.memory store.new)) }
    ensures keeps { T.keeps store.old store.new }
{
    setup(store, 64, 100);
    match take_node(store, NodeOwner::Tree) {
        Some(node) => node,
        None => unreachable!(),
    }
}

/// Makes an empty machine of a store of zeros, and its first domain.
pub fn first_domain<T: Store>(store: &mut T) -> NodeId
    requires zeros { T.memory store.old ≡ zero_memory (first_page 64 + 64) (node_count 64) }
    ensures first { IsFirst (kernel_of (T.memory store.new)) result.0 }
    ensures whole { (at (domains (kernel_of (T.memory store.new))) result.0).whole ≡ true }
    ensures live { (at (domains (kernel_of (T.memory store.new))) result.0).live ≡ true }
    ensures no_buffer { (at (domains (kernel_of (T.memory store.new))) result.0).buffer ≡ None }
    ensures rows { RowsGood (domain_rows (kernel_of (T.memory store.new))) }
    ensures good { BankGood (kernel_of (T.memory store.new)) }
    ensures keeps { T.keeps store.old store.new }
{
    let space = space_node(store);
    new_domain(store, SLOT, space)
}
