//! The end of the first domain.

ghost use Rattle.std.specs.Prelude.{◌≡◌, ℕ, ◌+◌, true};
ghost use Rattle.kn_base.specs.Memory.{Memory, zero_memory};
ghost use Rattle.kernel_tables.specs.Kernel.{Kernel, kernel_of, first_page, node_count};
ghost use Rattle.kernel_tables.specs.Rows.{domain_rows};
ghost use Rattle.space_bank.specs.Bank.{BankGood};
ghost use Rattle.unix_model.specs.Tables.{at};
ghost use Rattle.domain.specs.Rules.{RowsGood};
ghost use Rattle.domain.specs.Domains.{domains};
ghost use Rattle.tests_domain.specs.First.{IsDead};

use super::first::{SLOT, first_domain};
use domain::{Phase, drop_domain, make_zombie, set_phase, set_space};
use kn_base::{NodeId, Store};

/// Makes the first domain of a store of zeros, and a zombie of it.
#[tactic(auto, using(unix_model::proofs::TableLaws::tables))]
pub fn dead_domain<T: Store>(store: &mut T) -> NodeId
    requires zeros { T.memory store.old ≡ zero_memory (first_page 64 + 64) (node_count 64) }
    ensures dead { IsDead (kernel_of (T.memory store.new)) result.0 }
    ensures live { (at (domains (kernel_of (T.memory store.new))) result.0).live ≡ true }
    ensures rows { RowsGood (domain_rows (kernel_of (T.memory store.new))) }
    ensures good { BankGood (kernel_of (T.memory store.new)) }
    ensures keeps { T.keeps store.old store.new }
{
    let root = first_domain(store);
    set_phase(store, root, Phase::Exiting);
    set_space(store, root, None);
    make_zombie(store, SLOT);
    root
}

/// Drops the zombie of the first domain.
pub fn drop_dead<T: Store>(store: &mut T, root: NodeId)
    requires dead { IsDead (kernel_of (T.memory store.old)) root.0 }
    requires rows { RowsGood (domain_rows (kernel_of (T.memory store.old))) }
    requires good { BankGood (kernel_of (T.memory store.old)) }
    ensures rows { RowsGood (domain_rows (kernel_of (T.memory store.new))) }
    ensures good { BankGood (kernel_of (T.memory store.new)) }
    ensures keeps { T.keeps store.old store.new }
{
    drop_domain(store, SLOT);
}
