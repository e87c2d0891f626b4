//! Rounds of reading, writing and sharing, over any store.

ghost use Rattle.std.specs.Prelude.{◌≡◌, ℕ, ◌+◌, ◌*◌, ◌%◌, ◌<◌, ◌≤◌, ◌^◌, IfSome, length, []};
ghost use Rattle.kn_base.specs.Memory.{Memory};
ghost use Rattle.kernel_tables.specs.Kernel.{Kernel, kernel_of};
ghost use Rattle.tests_spaces.specs.Ready.{IsReady, IsTestSpace, KeepsSpaces};
ghost use Rattle.bench_spaces.specs.Own.{HasOwnPage};

use kernel_tables::{PageOwner, read_memory_page};
use kn_base::Store;
use seg_tree::{Space, find, writable};
use space_bank::write_page;
use tests_spaces::guarded::{has_room, map, own, put, share_of};
use user_copy::{page_owner, take_bytes};

// A word of a space, or 0 where it isn't mapped.
fn word_at<T: Store>(store: &T, space: Space, at: u32) -> u32
    requires ready { IsReady (kernel_of (T.memory store.now)) }
    requires space { IsTestSpace (kernel_of (T.memory store.now)) space.0.0 }
{
    let mut bytes = [0; 4];
    match take_bytes(store, space, at, &mut bytes) {
        Ok(()) => u32::from_le_bytes(bytes),
        Err(_fault) => 0,
    }
}

// Maps a page, and writes a word into it. Whether both went well.
fn add_page<T: Store>(store: &mut T, space: Space, page: u32) -> bool
    requires ready { IsReady (kernel_of (T.memory store.old)) }
    requires space { IsTestSpace (kernel_of (T.memory store.old)) space.0.0 }
    requires page { page < 2 ^ 19 }
    ensures ready { IsReady (kernel_of (T.memory store.new)) }
    ensures space { IsTestSpace (kernel_of (T.memory store.new)) space.0.0 }
{
    if !map(store, space, page, true) {
        return false;
    }
    put(store, space, 4096 * page, &[1, 0, 0, 0])
}

// Maps so many pages, and writes a word into each. How many there are now.
fn fill<T: Store>(store: &mut T, space: Space, pages: u32) -> u32
    requires ready { IsReady (kernel_of (T.memory store.old)) }
    requires space { IsTestSpace (kernel_of (T.memory store.old)) space.0.0 }
    ensures ready { IsReady (kernel_of (T.memory store.new)) }
    ensures space { IsTestSpace (kernel_of (T.memory store.new)) space.0.0 }
{
    let mut filled = 0u32;
    for page in 0..pages.min(0x8_0000) {
        if add_page(store, space, page) {
            filled = filled.wrapping_add(1);
        }
    }
    filled
}

/// Reads a word of an own page in each round. The sum of the words.
pub fn read<T: Store>(store: &mut T, space: Space, rounds: u32) -> u32
    requires ready { IsReady (kernel_of (T.memory store.old)) }
    requires space { IsTestSpace (kernel_of (T.memory store.old)) space.0.0 }
{
    let mut sum = fill(store, space, 16);
    for round in 0..rounds {
        let word = word_at(store, space, 4 * (round % 16384));
        sum = sum.wrapping_add(word);
    }
    sum
}

/// Writes a word of an own page in each round. How many were written.
pub fn write<T: Store>(store: &mut T, space: Space, rounds: u32) -> u32
    requires ready { IsReady (kernel_of (T.memory store.old)) }
    requires space { IsTestSpace (kernel_of (T.memory store.old)) space.0.0 }
{
    let mut written = fill(store, space, 16);
    for round in 0..rounds {
        if put(store, space, 4 * (round % 16384), &round.to_le_bytes()) {
            written = written.wrapping_add(1);
        }
    }
    written
}

/// Shares a space with so many pages of its own in each round. How many spaces were made.
pub fn share<T: Store>(store: &mut T, space: Space, pages: u32, rounds: u32) -> u32
    requires ready { IsReady (kernel_of (T.memory store.old)) }
    requires space { IsTestSpace (kernel_of (T.memory store.old)) space.0.0 }
{
    let mut made = fill(store, space, pages);
    for _round in 0..rounds {
        if share_of(store, space).is_some() {
            made = made.wrapping_add(1);
        }
    }
    made
}

// A word of a space by `find` alone, or 0 where it isn't mapped.
fn find_word<T: Store>(store: &T, space: Space, at: u32) -> u32
    requires ready { IsReady (kernel_of (T.memory store.now)) }
    requires space { IsTestSpace (kernel_of (T.memory store.now)) space.0.0 }
    requires low { at < 2 ^ 31 }
    requires whole { at % 4 ≡ 0 }
{
    match find(store, space, at / 4096) {
        Some(found) => {
            let mut bytes = [0; 4];
            read_memory_page(store, found.page, (at % 4096) as u16, &mut bytes);
            u32::from_le_bytes(bytes)
        }
        None => 0,
    }
}

/// Reads a word of an own page by `find` in each round. The sum of the words.
pub fn find_words<T: Store>(store: &mut T, space: Space, rounds: u32) -> u32
    requires ready { IsReady (kernel_of (T.memory store.old)) }
    requires space { IsTestSpace (kernel_of (T.memory store.old)) space.0.0 }
{
    let mut sum = fill(store, space, 16);
    for round in 0..rounds {
        let word = find_word(store, space, 4 * (round % 16384));
        sum = sum.wrapping_add(word);
    }
    sum
}

// Maps page 0 and makes it own. The owner of its pages.
fn begin<T: Store>(store: &mut T, space: Space) -> Option<PageOwner>
    requires ready { IsReady (kernel_of (T.memory store.old)) }
    requires space { IsTestSpace (kernel_of (T.memory store.old)) space.0.0 }
    ensures own { IfSome result (λ owner. HasOwnPage (kernel_of (T.memory store.new)) space.0.0 owner) }
{
    if !map(store, space, 0, true) {
        return None;
    }
    match own(store, space, 0) {
        Some(_id) => {
            let owner = page_owner(store, space);
            if has_room(store) { Some(owner) } else { None }
        }
        None => None,
    }
}

// Writes a word of page 0, which is own, by `writable` alone.
fn own_word<T: Store>(store: &mut T, space: Space, owner: PageOwner, at: u16, word: u32) -> bool
    requires own { HasOwnPage (kernel_of (T.memory store.old)) space.0.0 owner }
    requires within { at + 4 ≤ 4096 }
    ensures own { HasOwnPage (kernel_of (T.memory store.new)) space.0.0 owner }
{
    match writable(store, space, 0, owner) {
        Some(id) => {
            write_page(store, id, at, &word.to_le_bytes());
            true
        }
        None => false,
    }
}

/// Writes a word of an own page by `writable` in each round. How many were written.
pub fn own_words<T: Store>(store: &mut T, space: Space, rounds: u32) -> u32
    requires ready { IsReady (kernel_of (T.memory store.old)) }
    requires space { IsTestSpace (kernel_of (T.memory store.old)) space.0.0 }
{
    let mut written = 0u32;
    match begin(store, space) {
        Some(owner) => {
            for round in 0..rounds {
                if own_word(store, space, owner, (4 * (round % 1024)) as u16, round) {
                    written = written.wrapping_add(1);
                }
            }
        }
        None => {}
    }
    written
}
