//! The lines of lseek and fstat.

ghost use Rattle.std.specs.Prelude.{◌≡◌, ◌++◌, ◌<◌, ◌≤◌, IfOk, length};
ghost use Rattle.std.specs.Int.{to_le_bytes, w32};
ghost use Rattle.unix_model.specs.FileCalls.{fstat_line, is_stream, kind_of, lseek_line, moved_by, seek_start, with_offset};
ghost use Rattle.unix_model.specs.Files.{inode_length, links};
ghost use Rattle.unix_model.specs.State.{with_files, with_process};
ghost use Rattle.unix_model.specs.Tables.{at};
ghost use Rattle.flat_files.specs.OpenedView.{opened_of};
ghost use Rattle.flat_state.specs.ProcessView.{process_of};
ghost use Rattle.flat_state.specs.Settles.{Settles};
ghost use Rattle.flat_state.specs.StateView.{unix_of};

use flat_files::{Description, Inode, Opened};
use flat_state::{Answer, Process, State};
use std::alloc::{AllocError, Global};
use unix_model::{Errno, Turned};

/// Gives a description another offset.
pub(crate) fn set_offset(state: &mut State, file: Opened, offset: u32)
    requires { file.number < 2048 }
    ensures { unix_of state.new ≡ with_files (unix_of state.old) (with_offset (unix_of state.old).files (opened_of file) offset) }
{
    let description = file.description;
    state.files.set_description(
        file.number,
        Description {
            inode: description.inode,
            readable: description.readable,
            writable: description.writable,
            append: description.append,
            offset,
        },
    );
}

/// Whether an inode is a pipe or the console.
fn is_stream(state: &State, inode: u16) -> bool
    ensures { result ≡ is_stream (at (unix_of state.now).files.inodes inode) }
{
    match state.files.inode(inode) {
        Some(Inode::Pipe(_)) => true,
        Some(Inode::Console) => true,
        Some(Inode::File(_)) => false,
        Some(Inode::Directory(_)) => false,
        None => false,
    }
}

/// The number of the kind of an inode.
fn kind_of(state: &State, inode: u16) -> u32
    ensures { result ≡ kind_of (at (unix_of state.now).files.inodes inode) }
{
    match state.files.inode(inode) {
        Some(Inode::File(_)) => 1,
        Some(Inode::Directory(_)) => 2,
        Some(Inode::Pipe(_)) => 3,
        Some(Inode::Console) => 4,
        None => 0,
    }
}

/// Where a seek begins: at the start, at the offset, or at the end.
fn seek_start(state: &State, file: Opened, whence: u32) -> u32
    ensures { result ≡ seek_start (opened_of file) (at (unix_of state.now).files.inodes file.description.inode) whence }
{
    if whence == 0 {
        0
    } else if whence == 1 {
        file.description.offset
    } else {
        state.files.length_of(file.description.inode)
    }
}

/// A place and a signed word more, unless that is below 0.
fn moved_by(place: u32, word: u32) -> Option<u64>
    ensures { result ≡ moved_by place word }
{
    let sum = u64::from(place) + u64::from(word);
    if word < 0x8000_0000 {
        Some(sum)
    } else if sum >= 0x1_0000_0000 {
        Some(sum - 0x1_0000_0000)
    } else {
        None
    }
}

/// The line of lseek(descriptor, offset, whence).
#[tactic(auto, using(unix_model::proofs::TableLaws::tables_over))]
pub fn lseek(
    state: &mut State,
    slot: u8,
    process: Process,
    number: u32,
    offset: u32,
    whence: u32,
) -> Turned
    requires { slot < 64 }
    ensures { Settles (with_process (unix_of state.old) slot (process_of process)) slot (process_of process) (lseek_line (with_process (unix_of state.old) slot (process_of process)) slot (process_of process) number offset whence) (unix_of state.new) result }
{
    let file = match state.opened(&process, number) {
        Some(file) => file,
        None => return state.refuse(slot, process, Errno::Ebadf),
    };
    if is_stream(state, file.description.inode) {
        return state.refuse(slot, process, Errno::Espipe);
    }
    let place = match moved_by(seek_start(state, file, whence), offset) {
        Some(place) => place,
        None => return state.refuse(slot, process, Errno::Einval),
    };
    if state.files.is_directory(file.description.inode) && !(place % 32 == 0) {
        return state.refuse(slot, process, Errno::Einval);
    }
    if place >= 0x8000_0000 {
        return state.refuse(slot, process, Errno::Eoverflow);
    }
    set_offset(state, file, place as u32);
    state.reply(slot, process, place as u32)
}

/// The four words of fstat: the kind, the inode, how many entries name it, and its length.
fn status_bytes(alloc: Global, state: &State, inode: u16) -> Result<Vec<u8>, AllocError>
    ensures bytes { IfOk result (λ bytes. bytes.items ≡ to_le_bytes w32 (kind_of (at (unix_of state.now).files.inodes inode)) ++ to_le_bytes w32 inode ++ to_le_bytes w32 (links (unix_of state.now).files.inodes inode) ++ to_le_bytes w32 (inode_length (at (unix_of state.now).files.inodes inode))) }
    ensures few { IfOk result (λ bytes. length bytes.items ≤ 4096) }
{
    let kind = kind_of(state, inode);
    let mut bytes = Vec::from_slice(alloc, &kind.to_le_bytes())?;
    bytes.extend_from_slice(&u32::from(inode).to_le_bytes())?;
    bytes.extend_from_slice(&state.files.links(inode).to_le_bytes())?;
    bytes.extend_from_slice(&state.files.length_of(inode).to_le_bytes())?;
    Ok(bytes)
}

/// The line of fstat(descriptor, address).
#[tactic(auto, using(unix_model::proofs::TableLaws::tables_over))]
pub fn fstat(
    state: &mut State,
    alloc: Global,
    slot: u8,
    process: Process,
    number: u32,
    address: u32,
) -> Result<Turned, AllocError>
    requires { slot < 64 }
    ensures { IfOk result (λ answer. Settles (with_process (unix_of state.old) slot (process_of process)) slot (process_of process) (fstat_line (with_process (unix_of state.old) slot (process_of process)) slot (process_of process) number address) (unix_of state.new) answer) }
{
    let file = match state.opened(&process, number) {
        Some(file) => file,
        None => return Ok(state.refuse(slot, process, Errno::Ebadf)),
    };
    let bytes = status_bytes(alloc, state, file.description.inode)?;
    Ok(state.reply_with(
        slot,
        process,
        Answer {
            value: 0,
            address,
            bytes,
        },
    ))
}
