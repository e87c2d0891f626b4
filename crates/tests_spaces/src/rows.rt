//! Spaces apart and shared, and bytes in them.

ghost use Rattle.std.specs.Prelude.{◌≡◌, ◌≢◌, ℕ, ◌<◌, ◌≤◌, ◌+◌, ◌^◌, IfOk, length, []};
ghost use Rattle.obj_store.specs.Store.{ram_memory};
ghost use Rattle.kn_base.specs.Memory.{Memory};
ghost use Rattle.kernel_tables.specs.Kernel.{Kernel, kernel_of};
ghost use Rattle.space_bank.specs.Bank.{BankGood};
ghost use Rattle.tests_spaces.specs.Ready.{IsReady, IsTestSpace, KeepsSpaces};

use crate::guarded::{add_space, bank_of, map, own, put, seal, share_of};
use arrayvec::ArrayVec;
use kn_base::Store;
use obj_store::{NoMemory, RamStore};
use seg_tree::{Found, Space, find};
use space_bank::{Taken, taken_of};
use std::alloc::Global;
use std::process::Abort;
use std::test::Fail;
use user_copy::{CopyFault, can_write, take_bytes, take_text};

// An empty bank of 64 pages.
pub fn small_bank(alloc: Global) -> Result<RamStore, Fail>
    ensures ready { IfOk result (λ store. IsReady (kernel_of (ram_memory store))) }
{
    match bank_of(alloc, 64) {
        Ok(store) => Ok(store),
        Err(NoMemory) => Err(Fail::from(NoMemory)),
    }
}

// A new space.
pub fn new_one<T: Store>(rt: &impl Abort, store: &mut T) -> Space
    requires ready { IsReady (kernel_of (T.memory store.old)) }
    ensures ready { IsReady (kernel_of (T.memory store.new)) }
    ensures spaces { KeepsSpaces (kernel_of (T.memory store.old)) (kernel_of (T.memory store.new)) }
    ensures added { IsTestSpace (kernel_of (T.memory store.new)) result.0.0 }
{
    match add_space(store) {
        Some(space) => space,
        None => panic!(rt; "no room"),
    }
}

// A space with the same map.
pub fn shared_one<T: Store>(rt: &impl Abort, store: &mut T, space: Space) -> Space
    requires ready { IsReady (kernel_of (T.memory store.old)) }
    requires space { IsTestSpace (kernel_of (T.memory store.old)) space.0.0 }
    ensures ready { IsReady (kernel_of (T.memory store.new)) }
    ensures spaces { KeepsSpaces (kernel_of (T.memory store.old)) (kernel_of (T.memory store.new)) }
    ensures stays { IsTestSpace (kernel_of (T.memory store.new)) space.0.0 }
    ensures apart { result.0.0 ≢ space.0.0 }
    ensures added { IsTestSpace (kernel_of (T.memory store.new)) result.0.0 }
{
    match share_of(store, space) {
        Some(copy) => copy,
        None => panic!(rt; "no room"),
    }
}

// The four bytes at an address, or the fault.
pub fn four_bytes<T: Store>(store: &T, space: Space, at: u32) -> Result<[u8; 4], CopyFault>
    requires ready { IsReady (kernel_of (T.memory store.now)) }
    requires space { IsTestSpace (kernel_of (T.memory store.now)) space.0.0 }
{
    let mut bytes = [9; 4];
    match take_bytes(store, space, at, &mut bytes) {
        Ok(()) => Ok(bytes),
        Err(fault) => Err(fault),
    }
}

// What is mapped at a page number below 2^19.
fn found_at<T: Store>(store: &T, space: Space, page: u32) -> Option<Found>
    requires ready { IsReady (kernel_of (T.memory store.now)) }
    requires space { IsTestSpace (kernel_of (T.memory store.now)) space.0.0 }
    requires page { page < 2 ^ 19 }
{
    find(store, space, page)
}

// Whether a range may be written.
fn may_write<T: Store>(store: &T, space: Space, at: u32, count: u32) -> bool
    requires ready { IsReady (kernel_of (T.memory store.now)) }
    requires space { IsTestSpace (kernel_of (T.memory store.now)) space.0.0 }
{
    can_write(store, space, at, count)
}

// The length of the text at an address, or the fault.
fn text_length<T: Store>(store: &T, space: Space, at: u32) -> Result<usize, CopyFault>
    requires ready { IsReady (kernel_of (T.memory store.now)) }
    requires space { IsTestSpace (kernel_of (T.memory store.now)) space.0.0 }
{
    let mut text: ArrayVec<u8, 256> = ArrayVec::new();
    match take_text(store, space, at, &mut text) {
        Ok(()) => Ok(text.len()),
        Err(fault) => Err(fault),
    }
}

// What is taken.
pub fn taken_in<T: Store>(store: &T) -> Taken
    requires ready { IsReady (kernel_of (T.memory store.now)) }
{
    taken_of(store)
}

// Two spaces with their last page mapped: four bytes are put into the first one.
fn keeps_two_spaces_apart<T: Store>(rt: &impl Abort, store: &mut T)
    requires ready { IsReady (kernel_of (T.memory store.old)) }
{
    let first = new_one(rt, store);
    let second = new_one(rt, store);
    assert!(rt; map(store, first, 524_287, true));
    assert!(rt; map(store, second, 524_287, true));
    assert!(rt; put(store, first, 0x7FFF_F000, &[1, 2, 3, 4]));
    assert!(rt; four_bytes(store, first, 0x7FFF_F000) == Ok([1, 2, 3, 4]));
    assert!(rt; four_bytes(store, second, 0x7FFF_F000) == Ok([0, 0, 0, 0]));
}

#[test]
fn bytes_are_put_into_one_of_two_spaces(rt: HostRuntime) -> Result<(), Fail> {
    let mut store = small_bank(rt.alloc())?;
    keeps_two_spaces_apart(&rt, &mut store);
    Ok(())
}

// A page with bytes is sealed, and asked for to be written.
fn seals_a_page<T: Store>(rt: &impl Abort, store: &mut T)
    requires ready { IsReady (kernel_of (T.memory store.old)) }
{
    let space = new_one(rt, store);
    assert!(rt; map(store, space, 7, true));
    assert!(rt; put(store, space, 0x7000, &[5, 6, 7, 8]));
    let before = found_at(store, space, 7);
    assert!(rt; seal(store, space, 7));
    assert!(rt; own(store, space, 7).is_none());
    assert!(rt; !put(store, space, 0x7000, &[1]));
    assert!(rt; four_bytes(store, space, 0x7000) == Ok([5, 6, 7, 8]));
    let after = found_at(store, space, 7);
    assert!(rt; before.map(|found| found.page) == after.map(|found| found.page));
    assert!(rt; after.is_some_and(|found| !found.writable));
}

#[test]
fn a_sealed_page_is_not_written(rt: HostRuntime) -> Result<(), Fail> {
    let mut store = small_bank(rt.alloc())?;
    seals_a_page(&rt, &mut store);
    Ok(())
}

// Pages 4 and 5 are mapped, and no other: texts up to the end of page 5 and past it, and bytes across both.
fn reads_up_to_the_end<T: Store>(rt: &impl Abort, store: &mut T)
    requires ready { IsReady (kernel_of (T.memory store.old)) }
{
    let space = new_one(rt, store);
    assert!(rt; map(store, space, 4, true));
    assert!(rt; map(store, space, 5, true));
    assert!(rt; put(store, space, 0x4FFE, b"abcd"));
    assert!(rt; put(store, space, 0x5FFF, b"z"));
    assert!(rt; text_length(store, space, 0x4FFE) == Ok(4));
    assert!(rt; text_length(store, space, 0x5002) == Ok(0));
    assert!(rt; text_length(store, space, 0x5FFF) == Err(CopyFault::BadAddress));
    assert!(rt; text_length(store, space, 0x6000) == Err(CopyFault::BadAddress));
    assert!(rt; text_length(store, space, 0xFFFF_FFFF) == Err(CopyFault::BadAddress));
    assert!(rt; four_bytes(store, space, 0x4FFE) == Ok(*b"abcd"));
    assert!(rt; four_bytes(store, space, 0x5FFD) == Err(CopyFault::BadAddress));
    assert!(rt; four_bytes(store, space, 0x3FFF) == Err(CopyFault::BadAddress));
    assert!(rt; may_write(store, space, 0x4000, 8192));
    assert!(rt; !may_write(store, space, 0x4000, 8193));
    assert!(rt; !may_write(store, space, 0x3FFF, 2));
    assert!(rt; may_write(store, space, 0x9000, 0));
    assert!(rt; !may_write(store, space, 0xFFFF_FFFF, 0xFFFF_FFFF));
}

#[test]
fn bytes_and_texts_end_with_the_pages(rt: HostRuntime) -> Result<(), Fail> {
    let mut store = small_bank(rt.alloc())?;
    reads_up_to_the_end(&rt, &mut store);
    Ok(())
}

// 256 bytes without a NUL are too long, and 255 with one are not.
fn reads_long_texts<T: Store>(rt: &impl Abort, store: &mut T)
    requires ready { IsReady (kernel_of (T.memory store.old)) }
{
    let space = new_one(rt, store);
    assert!(rt; map(store, space, 0, true));
    assert!(rt; put(store, space, 100, &[b'a'; 256]));
    assert!(rt; text_length(store, space, 100) == Err(CopyFault::TooLong));
    assert!(rt; text_length(store, space, 101) == Ok(255));
}

#[test]
fn a_text_has_at_most_255_bytes(rt: HostRuntime) -> Result<(), Fail> {
    let mut store = small_bank(rt.alloc())?;
    reads_long_texts(&rt, &mut store);
    Ok(())
}

// Maps sixteen pages from page 32 on, and writes a byte into each.
pub fn fill_sixteen<T: Store>(rt: &impl Abort, store: &mut T, space: Space)
    requires ready { IsReady (kernel_of (T.memory store.old)) }
    requires space { IsTestSpace (kernel_of (T.memory store.old)) space.0.0 }
    ensures ready { IsReady (kernel_of (T.memory store.new)) }
    ensures spaces { KeepsSpaces (kernel_of (T.memory store.old)) (kernel_of (T.memory store.new)) }
    ensures stays { IsTestSpace (kernel_of (T.memory store.new)) space.0.0 }
{
    for page in 32..48u32 {
        assert!(rt; map(store, space, page, true));
        assert!(rt; put(store, space, 4096 * page, &[page as u8]));
    }
}

// A space with sixteen pages of its own is shared, and a byte is put into the copy.
fn shares_sixteen<T: Store>(rt: &impl Abort, store: &mut T)
    requires ready { IsReady (kernel_of (T.memory store.old)) }
{
    let space = new_one(rt, store);
    fill_sixteen(rt, store, space);
    let before = taken_in(store);
    assert!(rt; before.pages == 16);
    let copy = shared_one(rt, store, space);
    let shared = taken_in(store);
    assert!(rt; shared.pages == 16 && shared.nodes as u64 == before.nodes as u64 + 1);
    assert!(rt; put(store, copy, 4096 * 40, &[1]));
    let after = taken_in(store);
    assert!(rt; after.pages == 17 && after.nodes as u64 <= shared.nodes as u64 + 4);
    assert!(rt; four_bytes(store, copy, 4096 * 40) == Ok([1, 0, 0, 0]));
    assert!(rt; four_bytes(store, space, 4096 * 40) == Ok([40, 0, 0, 0]));
    assert!(rt; put(store, copy, 4096 * 40, &[2]));
    assert!(rt; taken_in(store) == after);
}

#[test]
fn a_shared_space_takes_one_node_and_a_page_when_it_is_written(
    rt: HostRuntime,
) -> Result<(), Fail> {
    let mut store = small_bank(rt.alloc())?;
    shares_sixteen(&rt, &mut store);
    Ok(())
}
