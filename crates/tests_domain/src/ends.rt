//! The end of a domain, over a store in memory.

ghost use Rattle.std.specs.Prelude.{◌≡◌, ℕ, true, IfOk};
ghost use Rattle.kn_base.specs.Memory.{Memory};
ghost use Rattle.kernel_tables.specs.Kernel.{Kernel, kernel_of, first_page, node_count};
ghost use Rattle.kernel_tables.specs.Rows.{domain_rows};
ghost use Rattle.obj_store.specs.Store.{ram_memory};
ghost use Rattle.space_bank.specs.Bank.{BankGood};
ghost use Rattle.unix_model.specs.Tables.{at};
ghost use Rattle.domain.specs.Rules.{RowsGood};
ghost use Rattle.domain.specs.Domains.{domains};
ghost use Rattle.tests_domain.specs.First.{IsDead};

use super::checked::looks_right;
use super::dying::{dead_domain, drop_dead};
use super::first::SLOT;
use super::reading::{Fields, fields_of};
use domain::{Phase, State, root_of, set_state};
use kernel_tables::first_bank_page;
use kn_base::NodeId;
use obj_store::{NoMemory, RamStore};
use std::alloc::Global;
use std::test::Fail;

// A zombie, by its root.
#[derive(Drop)]
struct Dead {
    store: RamStore,
    root: NodeId,
}

// An empty machine whose one domain is a zombie.
#[tactic(auto, unfolding(kernel_tables::specs::Kernel::first_page))]
fn machine_with_zombie(alloc: Global) -> Result<Dead, Fail>
    ensures dead { IfOk result (λ f. IsDead (kernel_of (ram_memory f.store)) f.root.0) }
    ensures good { IfOk result (λ f. BankGood (kernel_of (ram_memory f.store))) }
    ensures rows { IfOk result (λ f. RowsGood (domain_rows (kernel_of (ram_memory f.store)))) }
    ensures live { IfOk result (λ f. (at (domains (kernel_of (ram_memory f.store))) f.root.0).live ≡ true) }
{
    let all_pages = first_bank_page(64) + 64;
    match RamStore::new(alloc, all_pages, 1552) {
        Ok(mut store) => {
            let root = dead_domain(&mut store);
            Ok(Dead { store, root })
        }
        Err(NoMemory) => Err(Fail::from(NoMemory)),
    }
}

#[test]
fn a_zombie_reads_as_zeros_and_none(rt: HostRuntime) -> Result<(), Fail> {
    let Dead { store, root } = machine_with_zombie(rt.alloc())?;
    let fields = fields_of(&store, root);
    let want = Fields {
        named: Some(root),
        phase: Phase::Zombie,
        state: State::Running,
        space: None,
        x: [0; 32],
        pc: 0,
        descriptors: [None; 32],
        ..fields
    };
    assert!(rt; fields == want);
    Ok(())
}

#[test]
fn a_zombie_is_right_where_it_may_be_called(rt: HostRuntime) -> Result<(), Fail> {
    let Dead { mut store, root } = machine_with_zombie(rt.alloc())?;
    assert!(rt; looks_right(&store, SLOT) == Some(false));
    set_state(&mut store, root, State::Available, 0);
    assert!(rt; looks_right(&store, SLOT) == Some(true));
    Ok(())
}

#[test]
fn a_dropped_zombie_leaves_its_slot_free(rt: HostRuntime) -> Result<(), Fail> {
    let Dead { mut store, root } = machine_with_zombie(rt.alloc())?;
    drop_dead(&mut store, root);
    assert!(rt; root_of(&store, SLOT) == None);
    Ok(())
}
