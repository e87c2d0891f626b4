//! Texts in memory.

ghost use Rattle.std.specs.Prelude.{◌≡◌, ◌+◌, ◌≤◌, ◌<◌, ◌^◌, IfOk, length};
ghost use Rattle.unix_model.specs.Enter.{path_at, text_at, with_nul};
ghost use Rattle.flat_memory.specs.MemoryView.{memory_of};
ghost use Rattle.flat_enter.specs.Enters.{Reads};

use crate::fault::EnterFault;
use flat_memory::Memory;
use std::alloc::Global;
use unix_model::Errno;

/// The text at an address up to a NUL, which is left off. At most so many bytes are read, and the refusal says that there
/// was no NUL among them.
#[tactic(auto, using(crate::proofs::TextLaws::texts))]
pub fn text(
    alloc: Global,
    memory: &Memory,
    too_long: Errno,
    most: u32,
    address: u32,
) -> Result<Vec<u8>, EnterFault>
    requires { most ≤ 2 ^ 16 }
    ensures text { Reads (text_at (memory_of memory.now) too_long most address) result }
    ensures few { IfOk result (λ bytes. length bytes.items < most) }
{
    let mut bytes = Vec::new(alloc);
    for i in 0..most {
        match memory.pages.byte(u64::from(address) + u64::from(i)) {
            Some(0) => return Ok(bytes),
            Some(byte) => match bytes.push(byte) {
                Ok(()) => {}
                Err(_) => return Err(EnterFault::NoMemory),
            },
            None => return Err(EnterFault::Refused(Errno::Efault)),
        }
    }
    Err(EnterFault::Refused(too_long))
}

/// The path at an address: at most 255 bytes and its NUL.
pub fn path(alloc: Global, memory: &Memory, address: u32) -> Result<Vec<u8>, EnterFault>
    ensures path { Reads (path_at (memory_of memory.now) address) result }
    ensures few { IfOk result (λ bytes. length bytes.items < 256) }
{
    text(alloc, memory, Errno::Enametoolong, 256, address)
}
