//! The pages of a program that no load makes writable become read-only.

ghost use Rattle.std.specs.Prelude.{◌≡◌, ℕ, ◌+◌, ◌<◌, ◌≤◌, ◌^◌, [], All};
ghost use Rattle.kn_base.specs.Memory.{Memory};
ghost use Rattle.kernel_tables.specs.Kernel.{Kernel, kernel_of};
ghost use Rattle.space_bank.specs.Bank.{BankGood};
ghost use Rattle.space_bank.specs.Shares.{Outside};
ghost use Rattle.unix_model.specs.Loading.{page_writable};
ghost use Rattle.forest.specs.Walks.{map_of};
ghost use Rattle.forest.specs.Forest.{IsSpace};
ghost use Rattle.kernel_forest.specs.Trees.{forest_of, TreesGood};
ghost use Rattle.user_copy.specs.SpaceMemory.{space_memory};
ghost use Rattle.unix_exec.specs.Loaded.{sealed_memory};
ghost use Rattle.unix_exec.specs.Plans.{AreWaysOwn, IsLow};
ghost use Rattle.unix_exec.specs.Seals.{page_sealed, AreNeededMapped, SealsPlan};

use super::needed::{in_stack, is_needed, touches};
use elf_read::{ElfPlan, Load};
use kn_base::Store;
use seg_tree::{Space, protect};

// Whether a page is writable: it is in the stack, or a writable load has bytes in it.
#[tactic(auto, using(crate::proofs::Loads::any_load))]
fn is_writable(loads: &[Load], page: u32) -> bool
    requires loads { All IsLow loads.now }
    requires page { page < 2 ^ 19 }
    ensures { result ≡ page_writable loads.now page }
{
    let mut writable = in_stack(page);
    for load in loads {
        writable = writable || (load.writable && touches(load, page));
    }
    writable
}

// Whether a page is to be read-only.
fn is_sealed(loads: &[Load], page: u32) -> bool
    requires loads { All IsLow loads.now }
    requires page { page < 2 ^ 19 }
    ensures { result ≡ page_sealed loads.now page }
{
    is_needed(loads, page) && !is_writable(loads, page)
}

// Makes pages of loads read-only.
fn seal_loads<T: Store>(store: &mut T, space: Space, loads: &[Load])
    requires good { BankGood (kernel_of (T.memory store.old)) }
    requires trees { (outside : Outside) × TreesGood (kernel_of (T.memory store.old)) outside [] }
    requires space { IsSpace (forest_of (kernel_of (T.memory store.old))) [] space.0.0 }
    requires loads { All IsLow loads.now }
    requires mapped { AreNeededMapped (map_of (forest_of (kernel_of (T.memory store.old))).keys space.0.0) loads.now }
    requires ways { AreWaysOwn (kernel_of (T.memory store.old)) space.0.0 loads.now (2 ^ 19) }
    requires room { let old = kernel_of (T.memory store.old) in old.machine.nodes_taken + 19 ≤ old.nodes }
    ensures sealed { SealsPlan (kernel_of (T.memory store.old)) (kernel_of (T.memory store.new)) space.0.0 loads.now (2 ^ 19) }
    ensures good { BankGood (kernel_of (T.memory store.new)) }
    ensures keeps { T.keeps store.old store.new }
{
    for page in 0..0x8_0000u32 {
        if is_sealed(loads, page) {
            protect(store, space, page);
        }
    }
}

/// Makes each page of a program read-only that no load makes writable and that isn't of the stack, in a space in which the pages
/// that it needs are mapped on ways that are the space's own, as `map_plan` leaves them and `put_bytes` and `put_start` keep them. It
/// takes no node and no page.
pub fn seal_plan<T: Store>(store: &mut T, space: Space, plan: &ElfPlan)
    requires good { BankGood (kernel_of (T.memory store.old)) }
    requires trees { (outside : Outside) × TreesGood (kernel_of (T.memory store.old)) outside [] }
    requires space { IsSpace (forest_of (kernel_of (T.memory store.old))) [] space.0.0 }
    requires loads { All IsLow plan.now.loads.items }
    requires mapped { AreNeededMapped (map_of (forest_of (kernel_of (T.memory store.old))).keys space.0.0) plan.now.loads.items }
    requires ways { AreWaysOwn (kernel_of (T.memory store.old)) space.0.0 plan.now.loads.items (2 ^ 19) }
    requires room { let old = kernel_of (T.memory store.old) in old.machine.nodes_taken + 19 ≤ old.nodes }
    ensures sealed { SealsPlan (kernel_of (T.memory store.old)) (kernel_of (T.memory store.new)) space.0.0 plan.now.loads.items (2 ^ 19) }
    ensures memory { space_memory (kernel_of (T.memory store.new)) space.0.0 ≡ sealed_memory plan.now.loads.items (space_memory (kernel_of (T.memory store.old)) space.0.0) }
    ensures good { BankGood (kernel_of (T.memory store.new)) }
    ensures keeps { T.keeps store.old store.new }
{
    seal_loads(store, space, plan.loads.as_slice());
}
