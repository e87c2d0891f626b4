//! The machine before anything is loaded.

ghost use Rattle.std.specs.Prelude.{◌≡◌, ℕ, IfOk};
ghost use Rattle.kn_base.specs.Memory.{Memory};
ghost use Rattle.kernel_tables.specs.Kernel.{Kernel, kernel_of, first_page, node_count};
ghost use Rattle.obj_store.specs.Store.{ram_memory};
ghost use Rattle.space_bank.specs.Bank.{BankGood};

use domain::root_of;
use first_machine::first_machine;
use kernel_tables::first_bank_page;
use obj_store::{NoMemory, RamStore};
use space_bank::{machine_word, promised, taken_of};
use std::alloc::Global;
use std::process::Abort;
use std::test::Fail;

// The first machine of 64 pages.
#[tactic(auto, unfolding(kernel_tables::specs::Kernel::first_page))]
fn first_store(alloc: Global) -> Result<RamStore, Fail>
    ensures { IfOk result (λ store. BankGood (kernel_of (ram_memory store))) }
{
    let all_pages = first_bank_page(64) + 64;
    match RamStore::new(alloc, all_pages, 1552) {
        Ok(mut store) => {
            first_machine(&mut store, 64, 100);
            Ok(store)
        }
        Err(NoMemory) => Err(Fail::from(NoMemory)),
    }
}

#[test]
fn one_process_stands_in_slot_0_and_a_page_is_promised(rt: HostRuntime) -> Result<(), Fail> {
    let store = first_store(rt.alloc())?;
    assert!(rt; root_of(&store, 0).is_some());
    assert!(rt; root_of(&store, 1) == None);
    assert!(rt; promised(&store) == 1);
    let taken = taken_of(&store);
    assert!(rt; taken.pages == 0);
    assert!(rt; taken.nodes == 4);
    assert!(rt; machine_word(&store, 12) == 2);
    Ok(())
}
