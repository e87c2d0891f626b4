//! The state and the call count of services, over a store in memory.

ghost use Rattle.std.specs.Prelude.{◌≡◌, ℕ, IfOk};
ghost use Rattle.kn_base.specs.Memory.{Memory};
ghost use Rattle.kernel_tables.specs.Kernel.{Kernel, kernel_of, first_page, node_count};
ghost use Rattle.kernel_tables.specs.Rows.{domain_rows};
ghost use Rattle.obj_store.specs.Store.{ram_memory};
ghost use Rattle.space_bank.specs.Bank.{BankGood};
ghost use Rattle.domain.specs.Rules.{RowsGood};
ghost use Rattle.domain.specs.Lives.{HasLife};

use super::services::{DIRECTORIES, PIPES, running_service};
use domain::{State, count_of, set_state, state_of};
use kernel_tables::first_bank_page;
use kn_base::{NodeId, Store};
use obj_store::{NoMemory, RamStore};
use std::alloc::Global;
use std::test::Fail;

// A machine in which the service of directories runs.
#[tactic(auto, unfolding(kernel_tables::specs::Kernel::first_page))]
fn machine_with_service(alloc: Global) -> Result<RamStore, Fail>
    ensures directories { IfOk result (λ s. HasLife (kernel_of (ram_memory s)) 3) }
    ensures pipes { IfOk result (λ s. HasLife (kernel_of (ram_memory s)) 4) }
    ensures good { IfOk result (λ s. BankGood (kernel_of (ram_memory s))) }
    ensures rows { IfOk result (λ s. RowsGood (domain_rows (kernel_of (ram_memory s)))) }
{
    let all_pages = first_bank_page(64) + 64;
    match RamStore::new(alloc, all_pages, 1552) {
        Ok(mut store) => {
            running_service(&mut store);
            Ok(store)
        }
        Err(NoMemory) => Err(Fail::from(NoMemory)),
    }
}

// Whether the life of a service is so.
fn has_life<T: Store>(store: &T, service: NodeId, state: State, count: u64) -> bool
    requires alive { HasLife (kernel_of (T.memory store.now)) service.0 }
    requires good { BankGood (kernel_of (T.memory store.now)) }
{
    state_of(store, service) == state && count_of(store, service) == count
}

#[test]
fn the_state_of_a_service_is_set_alone(rt: HostRuntime) -> Result<(), Fail> {
    let mut store = machine_with_service(rt.alloc())?;
    assert!(rt; has_life(&store, DIRECTORIES, State::Running, u64::MAX));
    assert!(rt; has_life(&store, PIPES, State::Available, 0));
    set_state(&mut store, DIRECTORIES, State::Available, 0);
    assert!(rt; has_life(&store, DIRECTORIES, State::Available, 0));
    Ok(())
}
