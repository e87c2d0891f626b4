//! Reading bytes of a space.

ghost use Rattle.std.specs.Prelude.{◌≡◌, ℕ, ◌+◌, ◌-◌, ◌*◌, ◌/◌, ◌%◌, ◌<◌, ◌≤◌, ◌^◌, Some, List, [], length};
ghost use Rattle.kn_base.specs.Memory.{Memory};
ghost use Rattle.kernel_tables.specs.Kernel.{Kernel, kernel_of, Sized, IsSized};
ghost use Rattle.space_bank.specs.Bank.{BankGood};
ghost use Rattle.space_bank.specs.Shares.{Outside};
ghost use Rattle.unix_model.specs.Memory.{byte_at, bytes_at};
ghost use Rattle.unix_model.specs.Enter.{text_at};
ghost use Rattle.unix_model.specs.declared.calls.Errno.{Errno};
ghost use Rattle.forest.specs.Walks.{map_of};
ghost use Rattle.forest.specs.Forest.{IsSpace};
ghost use Rattle.kernel_forest.specs.Trees.{forest_of, TreesGood};
ghost use Rattle.seg_tree.specs.Promises.{found_mapping};
ghost use Rattle.user_copy.specs.SpaceMemory.{space_memory};
ghost use Rattle.user_copy.specs.Taking.{Takes, text_told, StopsText};

use super::fault::CopyFault;
use arrayvec::ArrayVec;
use kernel_tables::read_memory_page;
use kn_base::Store;
use seg_tree::{Found, Space, find};

/// What is mapped at a page number, which may be any.
pub fn mapped_at<T: Store>(store: &T, space: Space, page: u32) -> Option<Found>
    requires good { BankGood (kernel_of (T.memory store.now)) }
    requires trees { (outside : Outside) × TreesGood (kernel_of (T.memory store.now)) outside [] }
    requires space { IsSpace (forest_of (kernel_of (T.memory store.now))) [] space.0.0 }
    ensures { found_mapping result ≡ map_of (forest_of (kernel_of (T.memory store.now))).keys space.0.0 page }
{
    if page < 0x8_0000 {
        find(store, space, page)
    } else {
        None
    }
}

// Reads bytes that lie in one page.
fn take_piece<T: Store>(store: &T, space: Space, at: u32, into: &mut [u8]) -> Result<(), CopyFault>
    requires good { BankGood (kernel_of (T.memory store.now)) }
    requires trees { (outside : Outside) × TreesGood (kernel_of (T.memory store.now)) outside [] }
    requires space { IsSpace (forest_of (kernel_of (T.memory store.now))) [] space.0.0 }
    requires within { at % 4096 + length into.old ≤ 4096 }
    ensures { Takes result into.new (bytes_at (space_memory (kernel_of (T.memory store.now)) space.0.0) at (length into.old)) }
{
    if into.is_empty() {
        return Ok(());
    }
    match mapped_at(store, space, at / 4096) {
        Some(found) => {
            read_memory_page(store, found.page, (at % 4096) as u16, into);
            Ok(())
        }
        None => Err(CopyFault::BadAddress),
    }
}

// Reads bytes page by page.
fn take_pieces<T: Store>(store: &T, space: Space, at: u32, into: &mut [u8]) -> Result<(), CopyFault>
    requires good { BankGood (kernel_of (T.memory store.now)) }
    requires trees { (outside : Outside) × TreesGood (kernel_of (T.memory store.now)) outside [] }
    requires space { IsSpace (forest_of (kernel_of (T.memory store.now))) [] space.0.0 }
    requires some { 1 ≤ length into.old }
    ensures { Takes result into.new (bytes_at (space_memory (kernel_of (T.memory store.now)) space.0.0) at (length into.old)) }
{
    if at as u64 + into.len() as u64 > 0x8000_0000 {
        return Err(CopyFault::BadAddress);
    }
    let mut done = 0;
    while done < into.len() {
        let here = at + done as u32;
        let end = into.len().min(done + 4096 - (here % 4096) as usize);
        match take_piece(store, space, here, &mut into[done..end]) {
            Ok(()) => {}
            Err(fault) => return Err(fault),
        }
        done = end;
    }
    Ok(())
}

/// Reads the bytes from an address on, as many as `into` has. BadAddress comes exactly where one of them isn't mapped, and
/// `into` may then hold some of those before it.
pub fn take_bytes<T: Store>(
    store: &T,
    space: Space,
    at: u32,
    into: &mut [u8],
) -> Result<(), CopyFault>
    requires good { BankGood (kernel_of (T.memory store.now)) }
    requires trees { (outside : Outside) × TreesGood (kernel_of (T.memory store.now)) outside [] }
    requires space { IsSpace (forest_of (kernel_of (T.memory store.now))) [] space.0.0 }
    ensures taken { Takes result into.new (bytes_at (space_memory (kernel_of (T.memory store.now)) space.0.0) at (length into.old)) }
{
    if (at % 4096) as usize + into.len() <= 4096 {
        take_piece(store, space, at, into)
    } else {
        take_pieces(store, space, at, into)
    }
}

// The byte at an address, or None where it isn't mapped.
fn take_byte<T: Store>(store: &T, space: Space, at: u64) -> Option<u8>
    requires good { BankGood (kernel_of (T.memory store.now)) }
    requires trees { (outside : Outside) × TreesGood (kernel_of (T.memory store.now)) outside [] }
    requires space { IsSpace (forest_of (kernel_of (T.memory store.now))) [] space.0.0 }
    requires low { at < 2 ^ 33 }
    ensures { result ≡ byte_at (space_memory (kernel_of (T.memory store.now)) space.0.0) at }
{
    match mapped_at(store, space, (at / 4096) as u32) {
        Some(found) => {
            let mut byte = [0];
            read_memory_page(store, found.page, (at % 4096) as u16, &mut byte);
            Some(byte[0])
        }
        None => None,
    }
}

/// Reads the text from an address on up to its NUL, which is left off. Its bytes are looked at in order: BadAddress comes
/// exactly where one of them isn't mapped, and `into` then holds those before it; TooLong exactly where 256 came without a NUL,
/// and `into` then holds these.
pub fn take_text<T: Store>(
    store: &T,
    space: Space,
    at: u32,
    into: &mut ArrayVec<u8, 256>,
) -> Result<(), CopyFault>
    requires good { BankGood (kernel_of (T.memory store.now)) }
    requires trees { (outside : Outside) × TreesGood (kernel_of (T.memory store.now)) outside [] }
    requires space { IsSpace (forest_of (kernel_of (T.memory store.now))) [] space.0.0 }
    ensures taken { (too_long : Errno) → text_at (space_memory (kernel_of (T.memory store.now)) space.0.0) too_long 256 at ≡ text_told too_long result into.new.items }
    ensures held { bytes_at (space_memory (kernel_of (T.memory store.now)) space.0.0) at (length into.new.items) ≡ Some into.new.items }
    ensures stopped { StopsText result (length into.new.items) (byte_at (space_memory (kernel_of (T.memory store.now)) space.0.0) (at + length into.new.items)) }
{
    into.clear();
    for i in 0..256u32 {
        match take_byte(store, space, at as u64 + i as u64) {
            Some(byte) => {
                if byte == 0 {
                    return Ok(());
                }
                into.push(byte);
            }
            None => return Err(CopyFault::BadAddress),
        }
    }
    Err(CopyFault::TooLong)
}
