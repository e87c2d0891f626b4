//! The lines of the calls that are sent.

ghost use Rattle.std.specs.Prelude.{◌≡◌, ◌≢◌, ◌≤◌, [], length};
ghost use Rattle.unix_model.specs.Enter.{are_flags, descriptor_enters, dup2_enters, fstat_enters, ftruncate_enters, getdents_enters, is_given, kill_enters, lseek_enters, open_enters, path_enters, paths_enter, pipe_enters, read_enters, wait_enters, waitpid_enters, write_enters};
ghost use Rattle.flat_memory.specs.MemoryView.{memory_of};
ghost use Rattle.flat_state.specs.ProcessView.{process_of};
ghost use Rattle.flat_state.specs.StateView.{unix_of};
ghost use Rattle.flat_enter.specs.Enters.{Enters};

use crate::fault::EnterFault;
use crate::sending::{send, send_cut, with_nul};
use crate::texts::path;
use flat_memory::Memory;
use flat_state::{Phase, Process, State};
use std::alloc::Global;
use unix_model::{Call, Errno};

/// Whether a range that a call writes is left out, or may be written.
fn is_given(memory: &Memory, address: u32, size: usize) -> bool
    requires { size ≤ 4096 }
    ensures { result ≡ is_given (memory_of memory.now) address size }
{
    address == 0 || memory.pages.all_writable(address, size)
}

/// wait(address)
pub fn wait(alloc: Global, process: &Process, address: u32) -> Result<Phase, EnterFault>
    ensures { Enters (process_of process.now) (wait_enters (process_of process.now) address) result }
{
    if !is_given(&process.memory, address, 4) {
        return Err(EnterFault::Refused(Errno::Efault));
    }
    send(process, Call::Wait, Vec::new(alloc))
}

/// waitpid(pid, address, options)
pub fn waitpid(
    alloc: Global,
    process: &Process,
    pid: u32,
    address: u32,
    options: u32,
) -> Result<Phase, EnterFault>
    ensures { Enters (process_of process.now) (waitpid_enters (process_of process.now) pid address options) result }
{
    if options > 1 {
        return Err(EnterFault::Refused(Errno::Einval));
    }
    if pid == 0 || pid >= 0x8000_0000 && pid != u32::MAX {
        return Err(EnterFault::Refused(Errno::Einval));
    }
    if !is_given(&process.memory, address, 4) {
        return Err(EnterFault::Refused(Errno::Efault));
    }
    send(process, Call::Waitpid, Vec::new(alloc))
}

/// Whether a word is among the flags of open.
fn are_flags(flags: u32) -> bool
    ensures { result ≡ are_flags flags }
{
    flags < 128 && flags & 4 == 0 && flags % 4 != 3 && !(flags & 64 != 0 && flags % 4 == 0)
}

/// open(path, flags)
pub fn open(alloc: Global, process: &Process, address: u32, flags: u32) -> Result<Phase, EnterFault>
    ensures { Enters (process_of process.now) (open_enters (process_of process.now) address flags) result }
{
    if !are_flags(flags) {
        return Err(EnterFault::Refused(Errno::Einval));
    }
    let text = match path(alloc, &process.memory, address) {
        Ok(text) => text,
        Err(fault) => return Err(fault),
    };
    let bytes = match with_nul(text) {
        Ok(bytes) => bytes,
        Err(fault) => return Err(fault),
    };
    send(process, Call::Open, bytes)
}

/// mkdir(path), rmdir(path) and unlink(path)
pub fn one_path(
    alloc: Global,
    process: &Process,
    call: Call,
    address: u32,
) -> Result<Phase, EnterFault>
    requires { (call ≢ Call.Read) × (call ≢ Call.Getdents) }
    ensures { Enters (process_of process.now) (path_enters (process_of process.now) call address) result }
{
    let text = match path(alloc, &process.memory, address) {
        Ok(text) => text,
        Err(fault) => return Err(fault),
    };
    let bytes = match with_nul(text) {
        Ok(bytes) => bytes,
        Err(fault) => return Err(fault),
    };
    send(process, call, bytes)
}

/// link(old, new) and rename(old, new)
pub fn two_paths(
    alloc: Global,
    process: &Process,
    call: Call,
    old: u32,
    new: u32,
) -> Result<Phase, EnterFault>
    requires { (call ≢ Call.Read) × (call ≢ Call.Getdents) }
    ensures { Enters (process_of process.now) (paths_enter (process_of process.now) call old new) result }
{
    let from = match path(alloc, &process.memory, old) {
        Ok(from) => from,
        Err(fault) => return Err(fault),
    };
    let to = match path(alloc, &process.memory, new) {
        Ok(to) => to,
        Err(fault) => return Err(fault),
    };
    let mut bytes = match with_nul(from) {
        Ok(bytes) => bytes,
        Err(fault) => return Err(fault),
    };
    let second = match with_nul(to) {
        Ok(second) => second,
        Err(fault) => return Err(fault),
    };
    match bytes.extend_from_slice(second.as_slice()) {
        Ok(()) => send(process, call, bytes),
        Err(_) => Err(EnterFault::NoMemory),
    }
}

/// close(descriptor) and dup(descriptor)
pub fn descriptor(
    state: &State,
    alloc: Global,
    process: &Process,
    call: Call,
    number: u32,
) -> Result<Phase, EnterFault>
    requires { (call ≢ Call.Read) × (call ≢ Call.Getdents) }
    ensures { Enters (process_of process.now) (descriptor_enters (unix_of state.now) (process_of process.now) call number) result }
{
    match state.opened(process, number) {
        Some(_) => send(process, call, Vec::new(alloc)),
        None => Err(EnterFault::Refused(Errno::Ebadf)),
    }
}

/// read(descriptor, address, count)
pub fn read(
    state: &State,
    alloc: Global,
    process: &Process,
    number: u32,
    address: u32,
    count: u32,
) -> Result<Phase, EnterFault>
    ensures { Enters (process_of process.now) (read_enters (unix_of state.now) (process_of process.now) number address count) result }
{
    let file = match state.opened(process, number) {
        Some(file) => file,
        None => return Err(EnterFault::Refused(Errno::Ebadf)),
    };
    if !file.description.readable {
        return Err(EnterFault::Refused(Errno::Ebadf));
    }
    if !process
        .memory
        .pages
        .all_writable(address, count.min(4096) as usize)
    {
        return Err(EnterFault::Refused(Errno::Efault));
    }
    send_cut(process, Call::Read, Vec::new(alloc))
}

/// write(descriptor, address, count)
pub fn write(
    state: &State,
    alloc: Global,
    process: &Process,
    number: u32,
    address: u32,
    count: u32,
) -> Result<Phase, EnterFault>
    ensures { Enters (process_of process.now) (write_enters (unix_of state.now) (process_of process.now) number address count) result }
{
    let file = match state.opened(process, number) {
        Some(file) => file,
        None => return Err(EnterFault::Refused(Errno::Ebadf)),
    };
    if !file.description.writable {
        return Err(EnterFault::Refused(Errno::Ebadf));
    }
    match process.memory.pages.bytes(alloc, address, count.min(4096)) {
        Ok(Some(bytes)) => send_cut(process, Call::Write, bytes),
        Ok(None) => Err(EnterFault::Refused(Errno::Efault)),
        Err(_) => Err(EnterFault::NoMemory),
    }
}

/// lseek(descriptor, offset, whence)
pub fn lseek(
    state: &State,
    alloc: Global,
    process: &Process,
    number: u32,
    whence: u32,
) -> Result<Phase, EnterFault>
    ensures { Enters (process_of process.now) (lseek_enters (unix_of state.now) (process_of process.now) number whence) result }
{
    match state.opened(process, number) {
        Some(_) => {
            if whence > 2 {
                return Err(EnterFault::Refused(Errno::Einval));
            }
            send(process, Call::Lseek, Vec::new(alloc))
        }
        None => Err(EnterFault::Refused(Errno::Ebadf)),
    }
}

/// dup2(descriptor, to)
pub fn dup2(
    state: &State,
    alloc: Global,
    process: &Process,
    number: u32,
    to: u32,
) -> Result<Phase, EnterFault>
    ensures { Enters (process_of process.now) (dup2_enters (unix_of state.now) (process_of process.now) number to) result }
{
    match state.opened(process, number) {
        Some(_) => {
            if to >= 32 {
                return Err(EnterFault::Refused(Errno::Ebadf));
            }
            send(process, Call::Dup2, Vec::new(alloc))
        }
        None => Err(EnterFault::Refused(Errno::Ebadf)),
    }
}

/// pipe(address)
pub fn pipe(alloc: Global, process: &Process, address: u32) -> Result<Phase, EnterFault>
    ensures { Enters (process_of process.now) (pipe_enters (process_of process.now) address) result }
{
    if !process.memory.pages.all_writable(address, 8) {
        return Err(EnterFault::Refused(Errno::Efault));
    }
    send(process, Call::Pipe, Vec::new(alloc))
}

/// fstat(descriptor, address)
pub fn fstat(
    state: &State,
    alloc: Global,
    process: &Process,
    number: u32,
    address: u32,
) -> Result<Phase, EnterFault>
    ensures { Enters (process_of process.now) (fstat_enters (unix_of state.now) (process_of process.now) number address) result }
{
    match state.opened(process, number) {
        Some(_) => {
            if !process.memory.pages.all_writable(address, 16) {
                return Err(EnterFault::Refused(Errno::Efault));
            }
            send(process, Call::Fstat, Vec::new(alloc))
        }
        None => Err(EnterFault::Refused(Errno::Ebadf)),
    }
}

/// getdents(descriptor, address, count)
pub fn getdents(
    state: &State,
    alloc: Global,
    process: &Process,
    number: u32,
    address: u32,
    count: u32,
) -> Result<Phase, EnterFault>
    ensures { Enters (process_of process.now) (getdents_enters (unix_of state.now) (process_of process.now) number address count) result }
{
    match state.opened(process, number) {
        Some(_) => {
            if count < 32 {
                return Err(EnterFault::Refused(Errno::Einval));
            }
            if !process
                .memory
                .pages
                .all_writable(address, count.min(4096) as usize)
            {
                return Err(EnterFault::Refused(Errno::Efault));
            }
            send_cut(process, Call::Getdents, Vec::new(alloc))
        }
        None => Err(EnterFault::Refused(Errno::Ebadf)),
    }
}

/// ftruncate(descriptor, length)
pub fn ftruncate(
    state: &State,
    alloc: Global,
    process: &Process,
    number: u32,
    size: u32,
) -> Result<Phase, EnterFault>
    ensures { Enters (process_of process.now) (ftruncate_enters (unix_of state.now) (process_of process.now) number size) result }
{
    let file = match state.opened(process, number) {
        Some(file) => file,
        None => return Err(EnterFault::Refused(Errno::Ebadf)),
    };
    if !file.description.writable {
        return Err(EnterFault::Refused(Errno::Einval));
    }
    if size >= 0x8000_0000 {
        return Err(EnterFault::Refused(Errno::Einval));
    }
    send(process, Call::Ftruncate, Vec::new(alloc))
}

/// kill(pid, signal)
pub fn kill(alloc: Global, process: &Process, pid: u32, signal: u32) -> Result<Phase, EnterFault>
    ensures { Enters (process_of process.now) (kill_enters (process_of process.now) pid signal) result }
{
    if signal != 9 && signal != 15 {
        return Err(EnterFault::Refused(Errno::Einval));
    }
    if pid == 0 || pid >= 0x8000_0000 {
        return Err(EnterFault::Refused(Errno::Einval));
    }
    send(process, Call::Kill, Vec::new(alloc))
}
