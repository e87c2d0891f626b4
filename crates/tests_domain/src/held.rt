//! The buffer of a domain, over a store in memory.

ghost use Rattle.std.specs.Prelude.{◌≡◌, ◌≢◌, ◌≤◌, ℕ, ◌+◌, IfOk, length};
ghost use Rattle.kn_base.specs.Memory.{Memory};
ghost use Rattle.kernel_tables.specs.Kernel.{Kernel, kernel_of, first_page, node_count};
ghost use Rattle.kernel_tables.specs.Rows.{domain_rows};
ghost use Rattle.obj_store.specs.Store.{ram_memory};
ghost use Rattle.space_bank.specs.Bank.{BankGood};
ghost use Rattle.domain.specs.Rules.{RowsGood};
ghost use Rattle.tests_domain.specs.First.{IsBuffered};

use super::buffers::{buffered_domain, first_bytes, give_buffer};
use kernel_tables::first_bank_page;
use kn_base::NodeId;
use obj_store::{NoMemory, RamStore};
use std::alloc::Global;
use std::test::Fail;

// A domain that holds a buffer, by its root.
#[derive(Drop)]
struct Held {
    store: RamStore,
    root: NodeId,
}

// An empty machine whose one domain has these bytes in its buffer, from byte 7 on.
#[tactic(auto, unfolding(kernel_tables::specs::Kernel::first_page))]
fn machine_with_buffer(alloc: Global, bytes: &[u8]) -> Result<Held, Fail>
    requires some { length bytes.now ≢ 0 }
    requires few { 7 + length bytes.now ≤ 4096 }
    ensures buffered { IfOk result (λ f. IsBuffered (kernel_of (ram_memory f.store)) f.root.0) }
    ensures good { IfOk result (λ f. BankGood (kernel_of (ram_memory f.store))) }
    ensures rows { IfOk result (λ f. RowsGood (domain_rows (kernel_of (ram_memory f.store)))) }
{
    let all_pages = first_bank_page(64) + 64;
    match RamStore::new(alloc, all_pages, 1552) {
        Ok(mut store) => {
            let root = buffered_domain(&mut store, bytes);
            Ok(Held { store, root })
        }
        Err(NoMemory) => Err(Fail::from(NoMemory)),
    }
}

#[test]
fn first_bytes_take_a_zero_page_that_is_given_back(rt: HostRuntime) -> Result<(), Fail> {
    let Held { mut store, root } = machine_with_buffer(rt.alloc(), &[1, 2, 3, 4])?;
    let mut into = [9; 12];
    first_bytes(&store, root, &mut into);
    assert!(rt; into == [0, 0, 0, 0, 0, 0, 0, 1, 2, 3, 4, 0]);
    give_buffer(&mut store, root);
    Ok(())
}
