//! The pages of a program are mapped.

ghost use Rattle.std.specs.Prelude.{◌≡◌, ℕ, ◌+◌, ◌*◌, ◌<◌, ◌≤◌, ◌^◌, None, []};
ghost use Rattle.std.specs.List.{All};
ghost use Rattle.kn_base.specs.Memory.{Memory, zero_page};
ghost use Rattle.kernel_tables.specs.Kernel.{Kernel, kernel_of};
ghost use Rattle.space_bank.specs.Bank.{BankGood};
ghost use Rattle.space_bank.specs.Shares.{Outside};
ghost use Rattle.unix_model.specs.Loading.{page_mapped};
ghost use Rattle.unix_model.specs.Tables.{count_below};
ghost use Rattle.forest.specs.Walks.{map_of};
ghost use Rattle.forest.specs.Forest.{IsSpace};
ghost use Rattle.kernel_forest.specs.Trees.{forest_of, TreesGood};
ghost use Rattle.user_copy.specs.SpaceMemory.{space_memory};
ghost use Rattle.unix_exec.specs.Plans.{IsLow, MapsPlan};
ghost use Rattle.unix_exec.specs.Seals.{AreNeededMapped};
ghost use Rattle.unix_exec.specs.Loaded.{mapped_memory};

use super::needed::is_needed;
use elf_read::{ElfPlan, Load};
use kn_base::Store;
use seg_tree::{Space, map_zero};

// Maps the pages of loads and of the stack.
#[tactic(auto, using(unix_model::proofs::TableLaws::steps))]
fn map_loads<T: Store>(store: &mut T, space: Space, loads: &[Load])
    requires good { BankGood (kernel_of (T.memory store.old)) }
    requires trees { (outside : Outside) × TreesGood (kernel_of (T.memory store.old)) outside [] }
    requires space { IsSpace (forest_of (kernel_of (T.memory store.old))) [] space.0.0 }
    requires empty { map_of (forest_of (kernel_of (T.memory store.old))).keys space.0.0 ≡ (λ page. None) }
    requires loads { All IsLow loads.now }
    requires room { let old = kernel_of (T.memory store.old) in old.machine.nodes_taken + 15 + 4 * count_below (page_mapped loads.now) (2 ^ 19) ≤ old.nodes }
    ensures mapped { MapsPlan (kernel_of (T.memory store.old)) (kernel_of (T.memory store.new)) space.0.0 loads.now (2 ^ 19) }
    ensures good { BankGood (kernel_of (T.memory store.new)) }
    ensures keeps { T.keeps store.old store.new }
{
    for page in 0..0x8_0000u32 {
        if is_needed(loads, page) {
            map_zero(store, space, page, true);
        }
    }
}

/// Maps the pages that a plan needs in a space in which nothing is mapped: pages of zeros, which may be written, on ways that are the
/// space's own. It takes at most four nodes for each.
pub fn map_plan<T: Store>(store: &mut T, space: Space, plan: &ElfPlan)
    requires good { BankGood (kernel_of (T.memory store.old)) }
    requires trees { (outside : Outside) × TreesGood (kernel_of (T.memory store.old)) outside [] }
    requires space { IsSpace (forest_of (kernel_of (T.memory store.old))) [] space.0.0 }
    requires empty { map_of (forest_of (kernel_of (T.memory store.old))).keys space.0.0 ≡ (λ page. None) }
    requires loads { All IsLow plan.now.loads.items }
    requires room { let old = kernel_of (T.memory store.old) in old.machine.nodes_taken + 15 + 4 * count_below (page_mapped plan.now.loads.items) (2 ^ 19) ≤ old.nodes }
    ensures mapped { MapsPlan (kernel_of (T.memory store.old)) (kernel_of (T.memory store.new)) space.0.0 plan.now.loads.items (2 ^ 19) }
    ensures needed { AreNeededMapped (map_of (forest_of (kernel_of (T.memory store.new))).keys space.0.0) plan.now.loads.items }
    ensures memory { (kernel_of (T.memory store.old)).page_zero ≡ zero_page → space_memory (kernel_of (T.memory store.new)) space.0.0 ≡ mapped_memory plan.now.loads.items }
    ensures good { BankGood (kernel_of (T.memory store.new)) }
    ensures keeps { T.keeps store.old store.new }
{
    map_loads(store, space, plan.loads.as_slice());
}
