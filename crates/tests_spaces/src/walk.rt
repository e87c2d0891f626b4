//! A random walk on eight spaces, beside what they are to map and to take.

ghost use Rattle.std.specs.Prelude.{◌≡◌, ◌≢◌, ℕ, ◌<◌, ◌≤◌, ◌+◌, ◌^◌, IfOk, length, [], ◌∷◌, ◌++◌, All};
ghost use Rattle.obj_store.specs.Store.{ram_memory};
ghost use Rattle.kn_base.specs.Memory.{Memory};
ghost use Rattle.kernel_tables.specs.Kernel.{Kernel, kernel_of};
ghost use Rattle.seg_tree.specs.declared.spaces.Space.{Space};
ghost use Rattle.seg_tree.specs.Checks.{NodesInRange};
ghost use Rattle.tests_spaces.specs.Ready.{AreSpaces, AreSpacesBut, IsReady, IsTestSpace, KeepsSpaces};

use crate::checked::keys_in_range;
use crate::guarded::{bank_of, count_mapped, drop_one, map, own, put, seal, take_away};
use crate::plain::{self, Line, Plain, line_of, page_number};
use crate::rows::{new_one, shared_one};
use kn_base::Store;
use obj_store::{NoMemory, RamStore};
use seg_tree::{Space, check_space, find};
use space_bank::taken_of;
use std::alloc::Global;
use std::process::Abort;
use std::test::Fail;
use user_copy::take_bytes;

// The first byte of a page, or 255 where it isn't mapped.
fn first_byte<T: Store>(store: &T, space: Space, page: u32) -> u8
    requires ready { IsReady (kernel_of (T.memory store.now)) }
    requires space { IsTestSpace (kernel_of (T.memory store.now)) space.0.0 }
    requires page { page < 2 ^ 19 }
{
    let mut byte = [0];
    match take_bytes(store, space, 4096 * page, &mut byte) {
        Ok(()) => byte[0],
        Err(_fault) => 255,
    }
}

// Whether a space has at a page what it is to have.
fn agrees<T: Store>(store: &T, space: Space, page: u32, line: Option<Line>) -> bool
    requires ready { IsReady (kernel_of (T.memory store.now)) }
    requires space { IsTestSpace (kernel_of (T.memory store.now)) space.0.0 }
    requires page { page < 2 ^ 19 }
{
    match find(store, space, page) {
        Some(found) => {
            let byte = first_byte(store, space, page);
            line.is_some_and(|line| line.byte == byte && line.writable == found.writable)
        }
        None => line.is_none(),
    }
}

// A space is compared with its plain map.
fn look<T: Store>(rt: &impl Abort, store: &T, space: Space, plain: &Plain, number: usize)
    requires ready { IsReady (kernel_of (T.memory store.now)) }
    requires space { IsTestSpace (kernel_of (T.memory store.now)) space.0.0 }
    requires number { number < 8 }
{
    for index in 0..8 {
        let line = line_of(plain, number, index);
        assert!(rt; agrees(store, space, page_number(index), line));
    }
}

// Whether as much is taken as the plain maps say, beside one root for each space.
fn takes_enough<T: Store>(store: &T, plain: &Plain, roots: u32) -> bool
    requires ready { IsReady (kernel_of (T.memory store.now)) }
{
    let taken = taken_of(store);
    let nodes = plain::nodes_taken(plain).wrapping_add(roots);
    taken.pages == plain::pages_taken(plain) && taken.nodes == nodes
}

// Maps a page where none is mapped.
fn map_one<T: Store>(
    rt: &impl Abort,
    store: &mut T,
    space: Space,
    plain: &mut Plain,
    number: usize,
    index: usize,
    writable: bool,
)
    requires ready { IsReady (kernel_of (T.memory store.old)) }
    requires space { IsTestSpace (kernel_of (T.memory store.old)) space.0.0 }
    requires number { number < 8 }
    requires index { index < 8 }
    ensures ready { IsReady (kernel_of (T.memory store.new)) }
    ensures spaces { KeepsSpaces (kernel_of (T.memory store.old)) (kernel_of (T.memory store.new)) }
{
    assert!(rt; map(store, space, page_number(index), writable));
    plain::add_page(plain, number, index, writable);
}

// Puts a byte, or finds that the page can't be written.
fn put_one<T: Store>(
    rt: &impl Abort,
    store: &mut T,
    space: Space,
    plain: &mut Plain,
    number: usize,
    index: usize,
    byte: u8,
)
    requires ready { IsReady (kernel_of (T.memory store.old)) }
    requires space { IsTestSpace (kernel_of (T.memory store.old)) space.0.0 }
    requires number { number < 8 }
    requires index { index < 8 }
    ensures ready { IsReady (kernel_of (T.memory store.new)) }
    ensures spaces { KeepsSpaces (kernel_of (T.memory store.old)) (kernel_of (T.memory store.new)) }
{
    let done = put(store, space, 4096 * page_number(index), &[byte]);
    assert!(rt; done == line_of(plain, number, index).is_some_and(|line| line.writable));
    plain::own_page(plain, number, index, Some(byte));
}

// Makes a page own, or finds that it can't be written.
fn own_one<T: Store>(
    rt: &impl Abort,
    store: &mut T,
    space: Space,
    plain: &mut Plain,
    number: usize,
    index: usize,
)
    requires ready { IsReady (kernel_of (T.memory store.old)) }
    requires space { IsTestSpace (kernel_of (T.memory store.old)) space.0.0 }
    requires number { number < 8 }
    requires index { index < 8 }
    ensures ready { IsReady (kernel_of (T.memory store.new)) }
    ensures spaces { KeepsSpaces (kernel_of (T.memory store.old)) (kernel_of (T.memory store.new)) }
{
    let owned = own(store, space, page_number(index)).is_some();
    assert!(rt; owned == line_of(plain, number, index).is_some_and(|line| line.writable));
    plain::own_page(plain, number, index, None);
}

// Makes a page read-only, or finds that it isn't mapped.
fn seal_one<T: Store>(
    rt: &impl Abort,
    store: &mut T,
    space: Space,
    plain: &mut Plain,
    number: usize,
    index: usize,
)
    requires ready { IsReady (kernel_of (T.memory store.old)) }
    requires space { IsTestSpace (kernel_of (T.memory store.old)) space.0.0 }
    requires number { number < 8 }
    requires index { index < 8 }
    ensures ready { IsReady (kernel_of (T.memory store.new)) }
    ensures spaces { KeepsSpaces (kernel_of (T.memory store.old)) (kernel_of (T.memory store.new)) }
{
    let sealed = seal(store, space, page_number(index));
    assert!(rt; sealed == line_of(plain, number, index).is_some());
    plain::seal_page(plain, number, index);
}

// Takes a page away, or finds that it isn't mapped.
fn unmap_one<T: Store>(
    rt: &impl Abort,
    store: &mut T,
    space: Space,
    plain: &mut Plain,
    number: usize,
    index: usize,
)
    requires ready { IsReady (kernel_of (T.memory store.old)) }
    requires space { IsTestSpace (kernel_of (T.memory store.old)) space.0.0 }
    requires number { number < 8 }
    requires index { index < 8 }
    ensures ready { IsReady (kernel_of (T.memory store.new)) }
    ensures spaces { KeepsSpaces (kernel_of (T.memory store.old)) (kernel_of (T.memory store.new)) }
{
    let gone = take_away(store, space, page_number(index));
    assert!(rt; gone == line_of(plain, number, index).is_some());
    plain::take_page(plain, number, index);
}

// One call on a page of a space that may be mapped.
fn change_one<T: Store>(
    rt: &impl Abort,
    store: &mut T,
    space: Space,
    plain: &mut Plain,
    number: usize,
    random: u32,
)
    requires ready { IsReady (kernel_of (T.memory store.old)) }
    requires space { IsTestSpace (kernel_of (T.memory store.old)) space.0.0 }
    requires number { number < 8 }
    ensures ready { IsReady (kernel_of (T.memory store.new)) }
    ensures spaces { KeepsSpaces (kernel_of (T.memory store.old)) (kernel_of (T.memory store.new)) }
{
    let index = random as usize / 2048 % 8;
    let byte = (random / 131_072 % 128) as u8;
    match random / 16384 % 8 {
        0 | 1 => unmap_one(rt, store, space, plain, number, index),
        2 => seal_one(rt, store, space, plain, number, index),
        3 => own_one(rt, store, space, plain, number, index),
        _ => put_one(rt, store, space, plain, number, index, byte),
    }
}

// One call on one page of a space. Where none is mapped, one is, or it is found that there is none to be written.
fn act<T: Store>(
    rt: &impl Abort,
    store: &mut T,
    space: Space,
    plain: &mut Plain,
    number: usize,
    random: u32,
)
    requires ready { IsReady (kernel_of (T.memory store.old)) }
    requires space { IsTestSpace (kernel_of (T.memory store.old)) space.0.0 }
    requires number { number < 8 }
    ensures ready { IsReady (kernel_of (T.memory store.new)) }
    ensures spaces { KeepsSpaces (kernel_of (T.memory store.old)) (kernel_of (T.memory store.new)) }
{
    let index = random as usize / 2048 % 8;
    let writable = random / 131_072 % 8 != 0;
    let missing = line_of(plain, number, index).is_none();
    match random / 16384 % 8 {
        3 | 4 => change_one(rt, store, space, plain, number, random),
        _ => {
            if missing {
                map_one(rt, store, space, plain, number, index, writable)
            } else {
                change_one(rt, store, space, plain, number, random)
            }
        }
    }
}

// One call on one page of one of the spaces.
fn act_on_one<T: Store>(
    rt: &impl Abort,
    store: &mut T,
    spaces: &[Space],
    plain: &mut Plain,
    random: u32,
)
    requires ready { IsReady (kernel_of (T.memory store.old)) }
    requires spaces { AreSpaces (kernel_of (T.memory store.old)) spaces.now }
    ensures ready { IsReady (kernel_of (T.memory store.new)) }
    ensures spaces { AreSpaces (kernel_of (T.memory store.new)) spaces.now }
{
    let number = random as usize / 256 % 8;
    if number >= spaces.len() {
        panic!(rt; "fewer than eight spaces");
    }
    act(rt, store, spaces[number], plain, number, random);
}

// Keeps one space more.
fn keep(rt: &impl Abort, spaces: &mut Vec<Space>, space: Space)
    ensures { spaces.new.items ≡ spaces.old.items ++ space ∷ [] }
{
    match spaces.push(space) {
        Ok(()) => {}
        Err(_fault) => panic!(rt; "no memory"),
    }
}

// One space more.
fn add_one<T: Store>(rt: &impl Abort, store: &mut T, spaces: &mut Vec<Space>)
    requires ready { IsReady (kernel_of (T.memory store.old)) }
    requires spaces { AreSpaces (kernel_of (T.memory store.old)) spaces.old.items }
    ensures ready { IsReady (kernel_of (T.memory store.new)) }
    ensures spaces { AreSpaces (kernel_of (T.memory store.new)) spaces.new.items }
{
    let space = new_one(rt, store);
    keep(rt, spaces, space);
}

// Eight spaces.
fn eight<T: Store>(rt: &impl Abort, alloc: Global, store: &mut T) -> Vec<Space>
    requires ready { IsReady (kernel_of (T.memory store.old)) }
    ensures ready { IsReady (kernel_of (T.memory store.new)) }
    ensures spaces { AreSpaces (kernel_of (T.memory store.new)) result.items }
{
    let mut spaces = Vec::new(alloc);
    for _number in 0..8u8 {
        add_one(rt, store, &mut spaces);
    }
    spaces
}

// A space, or the new one where it is the one that has gone.
fn still_or_new<T: Store>(store: &T, space: Space, gone: Space, new: Space) -> Space
    requires still { space.0.0 ≢ gone.0.0 → IsTestSpace (kernel_of (T.memory store.now)) space.0.0 }
    requires new { IsTestSpace (kernel_of (T.memory store.now)) new.0.0 }
    ensures { IsTestSpace (kernel_of (T.memory store.now)) result.0.0 }
{
    if space.0.0 == gone.0.0 { new } else { space }
}

// The spaces, with a new one in place of one that has gone.
fn with_new<T: Store>(
    rt: &impl Abort,
    alloc: Global,
    store: &T,
    spaces: &[Space],
    gone: Space,
    new: Space,
) -> Vec<Space>
    requires spaces { AreSpacesBut (kernel_of (T.memory store.now)) gone.0.0 spaces.now }
    requires new { IsTestSpace (kernel_of (T.memory store.now)) new.0.0 }
    ensures { AreSpaces (kernel_of (T.memory store.now)) result.items }
{
    let mut all = Vec::new(alloc);
    for space in spaces {
        keep(rt, &mut all, still_or_new(store, *space, gone, new));
    }
    all
}

// A copy of a space, or a new one where it is the one that has gone.
fn next_one<T: Store>(rt: &impl Abort, store: &mut T, gone: Space, from: Space) -> Space
    requires ready { IsReady (kernel_of (T.memory store.old)) }
    requires from { from.0.0 ≢ gone.0.0 → IsTestSpace (kernel_of (T.memory store.old)) from.0.0 }
    ensures ready { IsReady (kernel_of (T.memory store.new)) }
    ensures spaces { KeepsSpaces (kernel_of (T.memory store.old)) (kernel_of (T.memory store.new)) }
    ensures added { IsTestSpace (kernel_of (T.memory store.new)) result.0.0 }
{
    if from.0.0 == gone.0.0 {
        new_one(rt, store)
    } else {
        shared_one(rt, store, from)
    }
}

// A space is dropped, and a copy of another one takes its number, or a new one. The spaces.
fn renew<T: Store>(
    rt: &impl Abort,
    alloc: Global,
    store: &mut T,
    spaces: &[Space],
    gone: Space,
    from: Space,
) -> Vec<Space>
    requires ready { IsReady (kernel_of (T.memory store.old)) }
    requires spaces { AreSpaces (kernel_of (T.memory store.old)) spaces.now }
    requires gone { IsTestSpace (kernel_of (T.memory store.old)) gone.0.0 }
    requires from { IsTestSpace (kernel_of (T.memory store.old)) from.0.0 }
    ensures ready { IsReady (kernel_of (T.memory store.new)) }
    ensures spaces { AreSpaces (kernel_of (T.memory store.new)) result.items }
{
    drop_one(store, gone);
    let new = next_one(rt, store, gone, from);
    with_new(rt, alloc, store, spaces, gone, new)
}

// One of the spaces is dropped, and a copy of another one takes its number; or a new one, where both are the same.
fn renew_one<T: Store>(
    rt: &impl Abort,
    alloc: Global,
    store: &mut T,
    spaces: Vec<Space>,
    plain: &mut Plain,
    random: u32,
) -> Vec<Space>
    requires ready { IsReady (kernel_of (T.memory store.old)) }
    requires spaces { AreSpaces (kernel_of (T.memory store.old)) spaces.items }
    ensures ready { IsReady (kernel_of (T.memory store.new)) }
    ensures spaces { AreSpaces (kernel_of (T.memory store.new)) result.items }
{
    let number = random as usize / 256 % 8;
    let other = random as usize / 2048 % 8;
    if number >= spaces.len() || other >= spaces.len() {
        panic!(rt; "fewer than eight spaces");
    }
    plain::renew_space(plain, number, other);
    let gone = spaces.as_slice()[number];
    let from = spaces.as_slice()[other];
    renew(rt, alloc, store, spaces.as_slice(), gone, from)
}

// One turn of the walk. The spaces after it.
fn turn<T: Store>(
    rt: &impl Abort,
    alloc: Global,
    store: &mut T,
    spaces: Vec<Space>,
    plain: &mut Plain,
    random: u32,
) -> Vec<Space>
    requires ready { IsReady (kernel_of (T.memory store.old)) }
    requires spaces { AreSpaces (kernel_of (T.memory store.old)) spaces.items }
    ensures ready { IsReady (kernel_of (T.memory store.new)) }
    ensures spaces { AreSpaces (kernel_of (T.memory store.new)) result.items }
{
    if random % 16 == 0 {
        return renew_one(rt, alloc, store, spaces, plain, random);
    }
    act_on_one(rt, store, spaces.as_slice(), plain, random);
    spaces
}

// Whether the tree of a space is well-formed.
fn is_well<T: Store>(store: &T, space: Space) -> bool
    requires ready { IsReady (kernel_of (T.memory store.now)) }
    requires in_range { NodesInRange (kernel_of (T.memory store.now)) }
    requires space { IsTestSpace (kernel_of (T.memory store.now)) space.0.0 }
{
    check_space(store, space)
}

// Whether the trees of all spaces are well-formed.
fn are_well<T: Store>(store: &T, spaces: &[Space]) -> bool
    requires ready { IsReady (kernel_of (T.memory store.now)) }
    requires spaces { AreSpaces (kernel_of (T.memory store.now)) spaces.now }
{
    if !keys_in_range(store) {
        return false;
    }
    for number in 0..spaces.len() {
        if !is_well(store, spaces[number]) {
            return false;
        }
    }
    true
}

// All spaces are compared with what they are to map and to take, and their trees are looked at.
fn look_at_all<T: Store>(rt: &impl Abort, store: &T, spaces: &[Space], plain: &Plain)
    requires ready { IsReady (kernel_of (T.memory store.now)) }
    requires spaces { AreSpaces (kernel_of (T.memory store.now)) spaces.now }
{
    for number in 0..spaces.len().min(8) {
        look(rt, store, spaces[number], plain, number);
    }
    assert!(rt; takes_enough(store, plain, spaces.len().min(8) as u32));
    assert!(rt; are_well(store, spaces));
}

// The numbers of mapped pages are compared.
fn count_all<T: Store>(rt: &impl Abort, store: &T, spaces: &[Space], plain: &Plain)
    requires ready { IsReady (kernel_of (T.memory store.now)) }
    requires spaces { AreSpaces (kernel_of (T.memory store.now)) spaces.now }
{
    for number in 0..spaces.len().min(8) {
        assert!(rt; count_mapped(store, spaces[number]) == plain::count_lines(plain, number));
    }
}

// 2,000 turns, each with a look at all spaces. Counting pages takes longer, and is done after each hundred.
fn walks<T: Store>(rt: &impl Abort, alloc: Global, store: &mut T)
    requires ready { IsReady (kernel_of (T.memory store.old)) }
{
    let mut spaces = eight(rt, alloc, store);
    let mut plain = plain::empty();
    let mut random = 20_261_201u32;
    for round in 0..2000u32 {
        random = random.wrapping_mul(1_664_525).wrapping_add(1_013_904_223);
        spaces = turn(rt, alloc, store, spaces, &mut plain, random / 16);
        look_at_all(rt, store, spaces.as_slice(), &plain);
        if round % 100 == 99 {
            count_all(rt, store, spaces.as_slice(), &plain);
        }
    }
    assert!(rt; spaces.len() == 8);
}

#[test]
fn a_random_walk_agrees_with_plain_maps(rt: HostRuntime) -> Result<(), Fail> {
    match bank_of(rt.alloc(), 128) {
        Ok(mut store) => {
            walks(&rt, rt.alloc(), &mut store);
            Ok(())
        }
        Err(NoMemory) => Err(Fail::from(NoMemory)),
    }
}
