//! The strings of exec, and its line.

ghost use Rattle.std.specs.Prelude.{◌≡◌, ◌+◌, ◌≤◌, ◌<◌, ◌^◌, [], ◌==◌, IfOk, Ok, length, if◌then◌else◌};
ghost use Rattle.unix_model.specs.Enter.{exec_enters, strings_at, with_nul};
ghost use Rattle.unix_model.specs.Memory.{word_at};
ghost use Rattle.flat_memory.specs.MemoryView.{memory_of};
ghost use Rattle.flat_state.specs.ProcessView.{process_of};
ghost use Rattle.flat_enter.specs.Enters.{Enters, Reads};
ghost use Rattle.flat_enter.specs.Strings.{string_at};

use crate::fault::EnterFault;
use crate::sending::{send, with_nul};
use crate::texts::{path, text};
use flat_memory::Memory;
use flat_state::{Phase, Process};
use std::alloc::Global;
use unix_model::{Call, Errno};

/// The word at an address, or None where one of its bytes isn't mapped.
#[tactic(auto, using(unix_model::proofs::MemoryLaws::words))]
fn word(memory: &Memory, address: u64) -> Option<u32>
    requires { address < 2 ^ 32 + 2 ^ 16 }
    ensures { result ≡ word_at (memory_of memory.now) address }
{
    let first = memory.pages.byte(address)?;
    let second = memory.pages.byte(address + 1)?;
    let third = memory.pages.byte(address + 2)?;
    let fourth = memory.pages.byte(address + 3)?;
    Some(u32::from_le_bytes([first, second, third, fourth]))
}

/// The string at an address with its NUL, for which there is so much room.
#[tactic(auto, unfolding(crate::specs::Strings::string_at))]
fn string(alloc: Global, memory: &Memory, room: u32, address: u32) -> Result<Vec<u8>, EnterFault>
    requires { room ≤ 4096 }
    ensures string { Reads (string_at (memory_of memory.now) room address) result }
    ensures few { IfOk result (λ bytes. length bytes.items ≤ room) }
{
    let text = match text(alloc, memory, Errno::E2big, room + 1, address) {
        Ok(text) => text,
        Err(fault) => return Err(fault),
    };
    if text.len() + 1 > room as usize {
        return Err(EnterFault::Refused(Errno::E2big));
    }
    with_nul(text)
}

/// The strings of the pointers at an address, each with its NUL: at most 16, for which there is so much room.

fn strings(alloc: Global, memory: &Memory, room: u32, address: u32) -> Result<Vec<u8>, EnterFault>
    requires { room ≤ 4096 }
    ensures strings { Reads (strings_at (memory_of memory.now) 16 room address) result }
    ensures few { IfOk result (λ bytes. length bytes.items ≤ room) }
{
    let mut bytes = Vec::new(alloc);
    let mut left = room;
    for i in 0..16u32 {
        let pointer = match word(memory, u64::from(address) + u64::from(4 * i)) {
            Some(pointer) => pointer,
            None => return Err(EnterFault::Refused(Errno::Efault)),
        };
        if pointer == 0 {
            return Ok(bytes);
        }
        let string = match string(alloc, memory, left, pointer) {
            Ok(string) => string,
            Err(fault) => return Err(fault),
        };
        left -= string.len() as u32;
        match bytes.extend_from_slice(string.as_slice()) {
            Ok(()) => {}
            Err(_) => return Err(EnterFault::NoMemory),
        }
    }
    match word(memory, u64::from(address) + 64) {
        Some(0) => Ok(bytes),
        Some(_) => Err(EnterFault::Refused(Errno::E2big)),
        None => Err(EnterFault::Refused(Errno::Efault)),
    }
}

/// The same, and none where the address is 0.
fn strings_given(
    alloc: Global,
    memory: &Memory,
    room: u32,
    address: u32,
) -> Result<Vec<u8>, EnterFault>
    requires { room ≤ 4096 }
    ensures strings { Reads (if address == 0 then Ok [] else strings_at (memory_of memory.now) 16 room address) result }
    ensures few { IfOk result (λ bytes. length bytes.items ≤ room) }
{
    if address == 0 {
        return Ok(Vec::new(alloc));
    }
    strings(alloc, memory, room, address)
}

/// exec(path, arguments)
pub fn exec(
    alloc: Global,
    process: &Process,
    address: u32,
    arguments: u32,
) -> Result<Phase, EnterFault>
    ensures { Enters (process_of process.now) (exec_enters (process_of process.now) address arguments) result }
{
    let text = match path(alloc, &process.memory, address) {
        Ok(text) => text,
        Err(fault) => return Err(fault),
    };
    let room = 4096 - (text.len() as u32 + 1);
    let texts = match strings_given(alloc, &process.memory, room, arguments) {
        Ok(texts) => texts,
        Err(fault) => return Err(fault),
    };
    let mut bytes = match with_nul(text) {
        Ok(bytes) => bytes,
        Err(fault) => return Err(fault),
    };
    match bytes.extend_from_slice(texts.as_slice()) {
        Ok(()) => send(process, Call::Exec, bytes),
        Err(_) => Err(EnterFault::NoMemory),
    }
}
