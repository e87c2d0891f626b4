//! A program is loaded into a space, and what lies there then is compared byte by byte.

ghost use Rattle.std.specs.Prelude.{◌≡◌, ℕ, ◌+◌, ◌*◌, ◌<◌, ◌≤◌, ◌^◌, true, List, All, length};
ghost use Rattle.kn_base.specs.Memory.{Memory};
ghost use Rattle.kernel_tables.specs.Kernel.{Kernel, kernel_of};
ghost use Rattle.unix_exec.specs.Plans.{IsLow};
ghost use Rattle.tests_spaces.specs.Ready.{IsReady, IsTestSpace};
ghost use Rattle.tests_spaces.specs.Loading.{HasNodes, IsLoading};

use crate::guarded::{add_space, has_room};
use crate::rows::small_bank;
use arrayvec::ArrayVec;
use elf_read::{ElfPlan, Load};
use kernel_tables::bank_size;
use kn_base::Store;
use seg_tree::{Space, find};
use space_bank::taken_of;
use std::process::Abort;
use std::test::Fail;
use unix_exec::{map_plan, needed_pages, put_start, seal_plan};
use user_copy::{can_write, put_bytes, take_bytes};

/// Two words of code, a word of data, and two texts.
const FILE: [u8; 20] = *b"codeCODEdatatexttext";

// A load of some bytes of the file.
fn load(at: u32, offset: u32, file_bytes: u32, memory_bytes: u32, writable: bool) -> Load {
    Load {
        at,
        offset,
        file_bytes,
        memory_bytes,
        writable,
    }
}

// Code, which may not be written, and data, which may, on one page; texts on another one.
fn plan_of_program() -> ElfPlan {
    let mut loads = ArrayVec::new();
    let all = [
        load(0x1_0000, 0, 8, 0x20, false),
        load(0x1_0800, 8, 4, 0x900, true),
        load(0x2_0000, 12, 4, 4, false),
        load(0x2_0FFC, 16, 4, 4, false),
    ];
    match loads.try_extend_from_slice(&all) {
        Ok(()) => {}
        Err(_full) => {}
    }
    ElfPlan {
        entry: 0x1_0000,
        loads,
        break_start: 0x2_1000,
    }
}

// Whether each load ends below the stack.
fn are_low(loads: &[Load]) -> bool
    ensures { result ≡ true → All IsLow loads.now }
{
    for load in loads {
        if load.at as u64 + load.memory_bytes as u64 > 0x7FFE_0000 {
            return false;
        }
    }
    true
}

// Whether there are as many nodes as mapping a plan may take.
fn has_nodes<T: Store>(store: &T, plan: &ElfPlan) -> bool
    requires ready { IsReady (kernel_of (T.memory store.now)) }
    requires low { All IsLow plan.now.loads.items }
    ensures { result ≡ true → HasNodes (kernel_of (T.memory store.now)) plan.now.loads.items }
{
    let taken = taken_of(store).nodes as u64;
    let needed = needed_pages(plan) as u64;
    taken + 15 + 4 * needed <= 4 * bank_size(store) as u64 + 1296
}

// The pages of a plan are mapped in a new space.
fn begins<T: Store>(rt: &impl Abort, store: &mut T, plan: &ElfPlan) -> Space
    requires ready { IsReady (kernel_of (T.memory store.old)) }
    ensures { IsLoading (kernel_of (T.memory store.new)) result.0.0 plan.now.loads.items }
{
    if !are_low(plan.loads.as_slice()) {
        panic!(rt; "a load is too high");
    }
    match add_space(store) {
        Some(space) => {
            if !has_nodes(store, plan) {
                panic!(rt; "no room");
            }
            map_plan(store, space, plan);
            space
        }
        None => panic!(rt; "no room"),
    }
}

// Bytes of the file are put.
fn puts<T: Store>(
    rt: &impl Abort,
    store: &mut T,
    space: Space,
    plan: &ElfPlan,
    at: u32,
    from: &[u8],
)
    requires { IsLoading (kernel_of (T.memory store.old)) space.0.0 plan.now.loads.items }
    ensures { IsLoading (kernel_of (T.memory store.new)) space.0.0 plan.now.loads.items }
{
    if from.len() > 4096 || !has_room(store) {
        panic!(rt; "no room");
    }
    if !can_write(store, space, at, from.len() as u32) {
        panic!(rt; "not to be written");
    }
    put_bytes(store, space, at, from);
}

// The strings are put on the stack. The stack pointer.
fn starts<T: Store>(rt: &impl Abort, store: &mut T, space: Space, plan: &ElfPlan) -> u32
    requires { IsLoading (kernel_of (T.memory store.old)) space.0.0 plan.now.loads.items }
    ensures { IsLoading (kernel_of (T.memory store.new)) space.0.0 plan.now.loads.items }
{
    if !has_room(store) {
        panic!(rt; "no room");
    }
    if !can_write(store, space, 0x7FFF_0000, 0x1_0000) {
        panic!(rt; "not to be written");
    }
    put_start(store, space, 2, b"cat\0-n\0")
}

// Pages become read-only.
fn seals<T: Store>(rt: &impl Abort, store: &mut T, space: Space, plan: &ElfPlan)
    requires { IsLoading (kernel_of (T.memory store.old)) space.0.0 plan.now.loads.items }
    ensures ready { IsReady (kernel_of (T.memory store.new)) }
    ensures space { IsTestSpace (kernel_of (T.memory store.new)) space.0.0 }
{
    if !has_room(store) {
        panic!(rt; "no room");
    }
    seal_plan(store, space, plan);
}

// A page of zeros with some bytes in it.
fn page_with(mut page: [u8; 4096], at: usize, part: &[u8]) -> [u8; 4096]
    requires { at + length part.now ≤ 4096 }
{
    for (place, byte) in part.iter().enumerate() {
        page[at + place] = *byte;
    }
    page
}

// Whether a page is mapped with these bytes, and may be written or not.
fn is_page<T: Store>(store: &T, space: Space, page: u32, bytes: &[u8; 4096], writable: bool) -> bool
    requires ready { IsReady (kernel_of (T.memory store.now)) }
    requires space { IsTestSpace (kernel_of (T.memory store.now)) space.0.0 }
    requires page { page < 2 ^ 19 }
{
    let mut there = [1; 4096];
    match take_bytes(store, space, 4096 * page, &mut there) {
        Ok(()) => {}
        Err(_fault) => return false,
    }
    let same = there == *bytes;
    find(store, space, page).is_some_and(|found| found.writable == writable) && same
}

// Whether a page isn't mapped.
fn is_free<T: Store>(store: &T, space: Space, page: u32) -> bool
    requires ready { IsReady (kernel_of (T.memory store.now)) }
    requires space { IsTestSpace (kernel_of (T.memory store.now)) space.0.0 }
    requires page { page < 2 ^ 19 }
{
    find(store, space, page).is_none()
}

// The pages of the program's loads and around them.
fn looks_at_loads<T: Store>(rt: &impl Abort, store: &T, space: Space)
    requires ready { IsReady (kernel_of (T.memory store.now)) }
    requires space { IsTestSpace (kernel_of (T.memory store.now)) space.0.0 }
{
    let zeros = [0; 4096];
    let first = page_with(page_with(zeros, 0, b"codeCODE"), 0x800, b"data");
    let texts = page_with(page_with(zeros, 0, b"text"), 0xFFC, b"text");
    assert!(rt; is_free(store, space, 0xF));
    assert!(rt; is_page(store, space, 0x10, &first, true));
    assert!(rt; is_page(store, space, 0x11, &zeros, true));
    assert!(rt; is_free(store, space, 0x12));
    assert!(rt; is_free(store, space, 0x1F));
    assert!(rt; is_page(store, space, 0x20, &texts, false));
    assert!(rt; is_free(store, space, 0x21));
}

// The pages of the stack and the one below it. The strings stand at 0x7FFFFFF9 and 0x7FFFFFFD.
fn looks_at_stack<T: Store>(rt: &impl Abort, store: &T, space: Space)
    requires ready { IsReady (kernel_of (T.memory store.now)) }
    requires space { IsTestSpace (kernel_of (T.memory store.now)) space.0.0 }
{
    let zeros = [0; 4096];
    let words = [2, 0, 0, 0, 0xF9, 0xFF, 0xFF, 0x7F, 0xFD, 0xFF, 0xFF, 0x7F];
    let last = page_with(page_with(zeros, 0xFE0, &words), 0xFF9, b"cat\0-n\0");
    assert!(rt; is_free(store, space, 0x7_FFEF));
    for page in 0x7_FFF0..0x7_FFFFu32 {
        assert!(rt; is_page(store, space, page, &zeros, true));
    }
    assert!(rt; is_page(store, space, 0x7_FFFF, &last, true));
}

// Loads the program, and looks at its pages.
fn loads_program<T: Store>(rt: &impl Abort, store: &mut T)
    requires ready { IsReady (kernel_of (T.memory store.old)) }
{
    let plan = plan_of_program();
    let space = begins(rt, store, &plan);
    puts(rt, store, space, &plan, 0x1_0000, &FILE[0..8]);
    puts(rt, store, space, &plan, 0x1_0800, &FILE[8..12]);
    puts(rt, store, space, &plan, 0x2_0000, &FILE[12..16]);
    puts(rt, store, space, &plan, 0x2_0FFC, &FILE[16..20]);
    let pointer = starts(rt, store, space, &plan);
    assert!(rt; pointer == 0x7FFF_FFE0);
    let before = taken_of(store);
    seals(rt, store, space, &plan);
    assert!(rt; taken_of(store) == before);
    looks_at_loads(rt, store, space);
    looks_at_stack(rt, store, space);
}

#[test]
fn a_program_is_loaded(rt: HostRuntime) -> Result<(), Fail> {
    let mut store = small_bank(rt.alloc())?;
    loads_program(&rt, &mut store);
    Ok(())
}
