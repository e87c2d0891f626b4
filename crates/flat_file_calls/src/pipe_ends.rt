//! The line of pipe.

ghost use Rattle.std.specs.Prelude.{◌≡◌, ◌++◌, ◌<◌, ◌≤◌, false, None, IfOk, IfSome, length};
ghost use Rattle.std.specs.Int.{to_le_bytes, w32};
ghost use Rattle.unix_model.specs.FileCalls.{pipe_end, pipe_line, with_pipe};
ghost use Rattle.unix_model.specs.Process as model;
ghost use Rattle.unix_model.specs.State.{with_process};
ghost use Rattle.unix_model.specs.Tables.{at};
ghost use Rattle.flat_files.specs.InodeView.{description_of};
ghost use Rattle.flat_state.specs.ProcessView.{process_of};
ghost use Rattle.flat_state.specs.Settles.{Settles};
ghost use Rattle.flat_state.specs.StateView.{unix_of};

use flat_files::{Description, Inode, Pipe};
use flat_state::{Answer, Process, State};
use std::alloc::{AllocError, Global};
use unix_model::{Errno, Turned};

/// The lowest descriptor that is closed, beside another.
#[tactic(auto, using(unix_model::proofs::TableLaws::steps), unfolding(unix_model::specs::Process::next_closed))]
fn next_closed(process: &Process, first: u32) -> Option<u32>
    ensures least { result ≡ model.next_closed (process_of process.now) first }
    ensures inside { IfSome result (λ number. number < 32) }
{
    let mut lowest = None;
    for number in 0..32 {
        if lowest.is_none() && !(number == first) && process.descriptor(number).is_none() {
            lowest = Some(number);
        }
    }
    lowest
}

/// An end of a pipe.
fn pipe_end(inode: u16, writes: bool) -> Description
    requires { inode < 1024 }
    ensures { description_of result ≡ pipe_end inode writes }
{
    Description {
        inode,
        readable: !writes,
        writable: writes,
        append: false,
        offset: 0,
    }
}

/// Makes a pipe and descriptions of its two ends.
fn make_pipe(state: &mut State, alloc: Global, inode: u16, reader: u16, writer: u16)
    requires inode { inode < 1024 }
    requires reader { reader < 2048 }
    requires writer { writer < 2048 }
    ensures { unix_of state.new ≡ with_pipe (unix_of state.old) inode reader writer }
{
    let bytes = Vec::new(alloc);
    state.files.set_inode(inode, Inode::Pipe(Pipe { bytes }));
    state.files.set_description(reader, pipe_end(inode, false));
    state.files.set_description(writer, pipe_end(inode, true));
}

/// The bytes of two words.
fn two_words(alloc: Global, first: u32, second: u32) -> Result<Vec<u8>, AllocError>
    ensures bytes { IfOk result (λ bytes. bytes.items ≡ to_le_bytes w32 first ++ to_le_bytes w32 second) }
    ensures few { IfOk result (λ bytes. length bytes.items ≤ 4096) }
{
    let mut bytes = Vec::from_slice(alloc, &first.to_le_bytes())?;
    bytes.extend_from_slice(&second.to_le_bytes())?;
    Ok(bytes)
}

/// The line of pipe(address): two descriptors, to read and to write.
pub fn pipe(
    state: &mut State,
    alloc: Global,
    slot: u8,
    process: Process,
    address: u32,
) -> Result<Turned, AllocError>
    requires slot { slot < 64 }
    requires free { at (unix_of state.old).processes slot ≡ None }
    ensures { IfOk result (λ answer. Settles (with_process (unix_of state.old) slot (process_of process)) slot (process_of process) (pipe_line (with_process (unix_of state.old) slot (process_of process)) slot (process_of process) address) (unix_of state.new) answer) }
{
    let first = match process.lowest_closed() {
        Some(first) => first,
        None => return Ok(state.refuse(slot, process, Errno::Emfile)),
    };
    let second = match next_closed(&process, first) {
        Some(second) => second,
        None => return Ok(state.refuse(slot, process, Errno::Emfile)),
    };
    let reader = match state.files.free_description() {
        Some(reader) => reader,
        None => return Ok(state.refuse(slot, process, Errno::Enfile)),
    };
    let writer = match state.files.next_description(reader) {
        Some(writer) => writer,
        None => return Ok(state.refuse(slot, process, Errno::Enfile)),
    };
    let inode = match state.files.free_inode() {
        Some(inode) => inode,
        None => return Ok(state.refuse(slot, process, Errno::Enfile)),
    };
    if !state.fits(&process, 1, 0) {
        return Ok(state.refuse(slot, process, Errno::Enomem));
    }
    let bytes = two_words(alloc, first, second)?;
    make_pipe(state, alloc, inode, reader, writer);
    let process = process
        .with_descriptor(first, reader)
        .with_descriptor(second, writer);
    Ok(state.reply_with(
        slot,
        process,
        Answer {
            value: 0,
            address,
            bytes,
        },
    ))
}
