//! The first domain calls, its call is answered, and what may not be reached is refused.

ghost use Rattle.std.specs.Prelude.{◌≡◌, ◌≢◌, ℕ, IfOk};
ghost use Rattle.kn_base.specs.Memory.{Memory};
ghost use Rattle.kn_base.specs.declared.key.Key.TheVariants.{Start};
ghost use Rattle.kernel_tables.specs.Kernel.{Kernel, kernel_of, first_page, node_count};
ghost use Rattle.kernel_tables.specs.Rows.{domain_rows};
ghost use Rattle.obj_store.specs.Store.{ram_memory};
ghost use Rattle.space_bank.specs.Bank.{BankGood};
ghost use Rattle.unix_model.specs.Tables.{at};
ghost use Rattle.domain.specs.declared.types.State.TheVariants.{Running};
ghost use Rattle.domain.specs.Domains.{domains, lives};
ghost use Rattle.domain.specs.Rules.{RowsGood};
ghost use Rattle.domain.specs.Lives.{HasLife};
ghost use Rattle.domain.specs.Slots.{SlotsDiffer};
ghost use Rattle.invoke.specs.Invokes.{IsCaller, root_in_slot};

use super::answering::serve;
use super::caller::{DIRECTORIES, SLOT, first_caller};
use domain::{State, count_of, state_of};
use invoke::{Delivered, InvokeFault, Message, call, fork, ret};
use kernel_tables::first_bank_page;
use kn_base::{Key, NodeId, PageId, Store};
use obj_store::{NoMemory, RamStore};
use std::alloc::Global;
use std::test::Fail;

// A call was refused that shouldn't be.
#[derive(Debug, Drop)]
struct Refused;

#[derive(Drop)]
struct Calling {
    store: RamStore,
    root: NodeId,
}

fn message() -> Message {
    Message {
        order: 7,
        keys: [Key::Null; 4],
        length: 12,
    }
}

#[tactic(auto, unfolding(kernel_tables::specs::Kernel::first_page))]
fn machine(alloc: Global) -> Result<Calling, Fail>
    ensures caller { IfOk result (λ m. IsCaller (kernel_of (ram_memory m.store)) 5 m.root.0) }
    ensures directories { IfOk result (λ m. HasLife (kernel_of (ram_memory m.store)) 3) }
    ensures alone { IfOk result (λ m. SlotsDiffer (domains (kernel_of (ram_memory m.store)))) }
    ensures apart { IfOk result (λ m. m.root.0 ≢ 3) }
    ensures runs { IfOk result (λ m. (at (lives (kernel_of (ram_memory m.store))) m.root.0).state ≡ Running) }
    ensures rows { IfOk result (λ m. RowsGood (domain_rows (kernel_of (ram_memory m.store)))) }
    ensures good { IfOk result (λ m. BankGood (kernel_of (ram_memory m.store))) }
{
    let all_pages = first_bank_page(64) + 64;
    match RamStore::new(alloc, all_pages, 1552) {
        Ok(mut store) => {
            let root = first_caller(&mut store);
            Ok(Calling { store, root })
        }
        Err(NoMemory) => Err(Fail::from(NoMemory)),
    }
}

// The key by which the service of directories is called.
fn start() -> Key
    ensures { result ≡ Start (record { 0 = 3 }) 9 }
{
    Key::Start {
        domain: DIRECTORIES,
        byte: 9,
    }
}

#[test]
fn a_call_is_answered_once(rt: HostRuntime) -> Result<(), Fail> {
    let Calling { mut store, root } = machine(rt.alloc())?;
    let key = Key::Resume {
        domain: root,
        count: 0,
    };
    assert!(rt; call(&mut store, SLOT, start()) == Ok(key));
    assert!(rt; state_of(&store, root) == State::Waiting);
    let delivered = Delivered {
        to: root,
        byte: 0,
        message: message(),
    };
    assert!(rt; fork(&mut store, key, message()) == Ok(delivered));
    assert!(rt; state_of(&store, root) == State::Running);
    assert!(rt; count_of(&store, root) == 1);
    assert!(rt; fork(&mut store, key, message()) == Err(InvokeFault::VoidKey));
    assert!(rt; count_of(&store, root) == 1);
    Ok(())
}

#[test]
fn who_runs_is_not_available(rt: HostRuntime) -> Result<(), Fail> {
    let Calling { mut store, .. } = machine(rt.alloc())?;
    let delivered = Delivered {
        to: DIRECTORIES,
        byte: 9,
        message: message(),
    };
    assert!(rt; fork(&mut store, start(), message()) == Ok(delivered));
    assert!(rt; fork(&mut store, start(), message()) == Err(InvokeFault::NotAvailable));
    assert!(rt; state_of(&store, DIRECTORIES) == State::Running);
    assert!(rt; count_of(&store, DIRECTORIES) == 0);
    Ok(())
}

#[test]
fn a_page_is_not_reached(rt: HostRuntime) -> Result<(), Fail> {
    let Calling { mut store, .. } = machine(rt.alloc())?;
    let page = Key::Page {
        id: PageId(100),
        writable: true,
    };
    assert!(rt; fork(&mut store, page, message()) == Err(InvokeFault::NotStart));
    assert!(rt; call(&mut store, SLOT, page) == Err(InvokeFault::NotStart));
    Ok(())
}

#[test]
fn a_service_answers_and_may_be_called_again(rt: HostRuntime) -> Result<(), Fail> {
    let Calling { mut store, root } = machine(rt.alloc())?;
    match call(&mut store, SLOT, start()) {
        Ok(_) => {}
        Err(_) => return Err(Fail::from(Refused)),
    }
    let answered = Delivered {
        to: root,
        byte: 0,
        message: message(),
    };
    assert!(rt; serve(&mut store, root, message()) == Ok(Some(answered)));
    assert!(rt; state_of(&store, root) == State::Running);
    assert!(rt; count_of(&store, root) == 1);
    assert!(rt; state_of(&store, DIRECTORIES) == State::Available);
    assert!(rt; count_of(&store, DIRECTORIES) == 0);
    Ok(())
}

#[test]
fn who_passes_on_may_be_called(rt: HostRuntime) -> Result<(), Fail> {
    let Calling { mut store, root } = machine(rt.alloc())?;
    let called = Delivered {
        to: DIRECTORIES,
        byte: 9,
        message: message(),
    };
    assert!(rt; ret(&mut store, root, start(), message()) == Ok(Some(called)));
    assert!(rt; state_of(&store, root) == State::Available);
    assert!(rt; state_of(&store, DIRECTORIES) == State::Running);
    Ok(())
}

#[test]
fn nobody_is_reached_by_null(rt: HostRuntime) -> Result<(), Fail> {
    let Calling { mut store, root } = machine(rt.alloc())?;
    assert!(rt; ret(&mut store, root, Key::Null, message()) == Ok(None));
    assert!(rt; state_of(&store, root) == State::Available);
    assert!(rt; count_of(&store, root) == 0);
    Ok(())
}

#[test]
fn a_refused_answer_changes_nothing(rt: HostRuntime) -> Result<(), Fail> {
    let Calling { mut store, root } = machine(rt.alloc())?;
    let page = Key::Page {
        id: PageId(100),
        writable: false,
    };
    assert!(rt; ret(&mut store, root, page, message()) == Err(InvokeFault::NotStart));
    assert!(rt; state_of(&store, root) == State::Running);
    Ok(())
}
