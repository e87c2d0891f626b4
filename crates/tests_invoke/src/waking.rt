//! Processes are parked and woken: who waits for something else stays parked, and nobody is passed over.

ghost use Rattle.std.specs.Prelude.{◌≡◌, ℕ, IfOk};
ghost use Rattle.kn_base.specs.Memory.{Memory};
ghost use Rattle.kernel_tables.specs.Kernel.{Kernel, kernel_of};
ghost use Rattle.obj_store.specs.Store.{ram_memory};
ghost use Rattle.space_bank.specs.Bank.{BankGood};
ghost use Rattle.tests_invoke.specs.People.{IsPeopled};

use super::people::{park_one, parked, populate, wake_all, wake_one};
use invoke::WaitFor;
use kernel_tables::first_bank_page;
use obj_store::{NoMemory, RamStore};
use std::alloc::Global;
use std::test::Fail;

const NEAR: WaitFor = WaitFor::Pipe(2);

const FAR: WaitFor = WaitFor::Pipe(1023);

#[tactic(auto, unfolding(kernel_tables::specs::Kernel::first_page))]
fn machine(alloc: Global) -> Result<RamStore, Fail>
    ensures peopled { IfOk result (λ store. IsPeopled (kernel_of (ram_memory store)) 4) }
    ensures good { IfOk result (λ store. BankGood (kernel_of (ram_memory store))) }
{
    let all_pages = first_bank_page(64) + 64;
    match RamStore::new(alloc, all_pages, 1552) {
        Ok(mut store) => {
            populate(&mut store);
            Ok(store)
        }
        Err(NoMemory) => Err(Fail::from(NoMemory)),
    }
}

// The first waits for one pipe, the second for another one, the third for a child, and the last for the first pipe again.
fn waiting(alloc: Global) -> Result<RamStore, Fail>
    ensures peopled { IfOk result (λ store. IsPeopled (kernel_of (ram_memory store)) 4) }
    ensures good { IfOk result (λ store. BankGood (kernel_of (ram_memory store))) }
{
    let mut store = machine(alloc)?;
    park_one(&mut store, 0, NEAR);
    park_one(&mut store, 1, FAR);
    park_one(&mut store, 2, WaitFor::Child);
    park_one(&mut store, 3, NEAR);
    Ok(store)
}

#[test]
fn each_is_parked_alone(rt: HostRuntime) -> Result<(), Fail> {
    let mut store = machine(rt.alloc())?;
    assert!(rt; parked(&store) == [false, false, false, false, false]);
    park_one(&mut store, 2, FAR);
    assert!(rt; parked(&store) == [false, false, true, false, false]);
    park_one(&mut store, 0, WaitFor::Child);
    assert!(rt; parked(&store) == [true, false, true, false, false]);
    Ok(())
}

#[test]
fn who_waits_for_a_pipe_goes_on(rt: HostRuntime) -> Result<(), Fail> {
    let mut store = waiting(rt.alloc())?;
    assert!(rt; parked(&store) == [true, true, true, true, false]);
    wake_all(&mut store, WaitFor::Pipe(3));
    assert!(rt; parked(&store) == [true, true, true, true, false]);
    wake_all(&mut store, NEAR);
    assert!(rt; parked(&store) == [false, true, true, false, false]);
    wake_all(&mut store, FAR);
    assert!(rt; parked(&store) == [false, false, true, false, false]);
    Ok(())
}

#[test]
fn who_waits_for_a_child_goes_on(rt: HostRuntime) -> Result<(), Fail> {
    let mut store = waiting(rt.alloc())?;
    wake_all(&mut store, WaitFor::Child);
    assert!(rt; parked(&store) == [true, true, false, true, false]);
    wake_all(&mut store, WaitFor::Child);
    assert!(rt; parked(&store) == [true, true, false, true, false]);
    Ok(())
}

#[test]
fn one_slot_goes_on(rt: HostRuntime) -> Result<(), Fail> {
    let mut store = waiting(rt.alloc())?;
    wake_one(&mut store, 3);
    assert!(rt; parked(&store) == [true, true, true, false, false]);
    wake_one(&mut store, 0);
    assert!(rt; parked(&store) == [false, true, true, false, false]);
    wake_one(&mut store, 63);
    wake_one(&mut store, 0);
    assert!(rt; parked(&store) == [false, true, true, false, false]);
    Ok(())
}
