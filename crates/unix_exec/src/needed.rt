//! Which pages a program needs.

ghost use Rattle.std.specs.Prelude.{◌≡◌, ◌+◌, ◌<◌, ◌≤◌, ◌^◌};
ghost use Rattle.std.specs.List.{All};
ghost use Rattle.unix_model.specs.Loading.{in_stack, page_mapped, touches};
ghost use Rattle.unix_model.specs.Tables.{count_below};
ghost use Rattle.unix_exec.specs.Plans.{IsLow};

use elf_read::{ElfPlan, Load};

/// Whether a load has bytes in a page.
pub fn touches(load: &Load, page: u32) -> bool
    requires load { IsLow load.now }
    requires page { page < 2 ^ 19 }
    ensures { result ≡ touches page load.now }
{
    load.at < 4096 * page + 4096 && 4096 * page < load.at + load.memory_bytes
}

/// Whether a page is one of the 16 of the stack.
pub fn in_stack(page: u32) -> bool
    ensures { result ≡ in_stack page }
{
    0x7_FFF0 <= page && page < 0x8_0000
}

/// Whether a page is needed: it is in the stack, or a load has bytes in it.
#[tactic(auto, using(crate::proofs::Loads::any_load))]
pub fn is_needed(loads: &[Load], page: u32) -> bool
    requires loads { All IsLow loads.now }
    requires page { page < 2 ^ 19 }
    ensures { result ≡ page_mapped loads.now page }
{
    let mut needed = in_stack(page);
    for load in loads {
        needed = needed || touches(load, page);
    }
    needed
}

/// How many of the pages of user memory are needed.
#[tactic(auto, using(unix_model::proofs::TableLaws::steps))]
pub fn count_needed(loads: &[Load]) -> u32
    requires loads { All IsLow loads.now }
    ensures { result ≡ count_below (page_mapped loads.now) (2 ^ 19) }
{
    let mut needed = 0;
    for page in 0..0x8_0000u32 {
        if is_needed(loads, page) {
            needed += 1;
        }
    }
    needed
}

/// How many pages a plan needs: the different pages that its loads touch, and the 16 of the stack.
pub fn needed_pages(plan: &ElfPlan) -> u32
    requires loads { All IsLow plan.now.loads.items }
    ensures { result ≡ count_below (page_mapped plan.now.loads.items) (2 ^ 19) }
{
    count_needed(plan.loads.as_slice())
}
