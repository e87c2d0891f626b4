//! The line of read.

ghost use Rattle.std.specs.Prelude.{◌≡◌, ◌≢◌, ◌<◌, ◌≤◌, ℕ, List, [], None, Some, Err, IfOk, OnErr};
ghost use Rattle.kn_io.specs.Faults.{Rose};
ghost use Rattle.unix_model.specs.FileCalls.{reads_from};
ghost use Rattle.unix_model.specs.Files as model;
ghost use Rattle.unix_model.specs.State.{with_process};
ghost use Rattle.unix_model.specs.Tables.{at};
ghost use Rattle.flat_files.specs.OpenedView.{opened_of};
ghost use Rattle.flat_state.specs.ProcessView.{process_of};
ghost use Rattle.flat_state.specs.Settles.{Settles};
ghost use Rattle.flat_state.specs.StateView.{unix_of};
ghost use Rattle.flat_file_calls.specs.Console.{CountsSame, Reads, TakesFront, read_turn};

use crate::console::{ConsoleFault, is_console, read_console};
use crate::offsets::set_offset;
use flat_files::{Inode, Opened};
use flat_state::{Answer, Process, State};
use kn_io::Source;
use std::alloc::{AllocError, Global};
use unix_model::{Errno, Turned};

/// The line of read(descriptor, address, count): a file from the offset on, a pipe's first bytes, or a line of the console
/// (POSIX.1 read(2), narrowed: at most 4,096 bytes at once). A read that takes nothing from the console calls no source.
///
/// # Errors
///
/// `Failed` only where the source's count of faults rose; the state is then as before, with the process in its slot. At every
/// other answer the count is as before. At any error the source has lost a front of what the read takes.
pub fn read<S: Source>(
    state: &mut State,
    alloc: Global,
    slot: u8,
    process: Process,
    number: u32,
    address: u32,
    count: u32,
    input: &mut S,
) -> Result<Turned, ConsoleFault>
    requires slot { slot < 64 }
    requires free { at (unix_of state.old).processes slot ≡ None }
    requires count { count ≤ 4096 }
    ensures turn { IfOk result (λ answer. (bytes : List ℕ) → S.left input.old ≡ Some bytes → Reads (read_turn (with_process (unix_of state.old) slot (process_of process)) slot (process_of process) number address count bytes) S.left (unix_of state.new) answer input.new) }
    ensures unchanged { result ≡ Err ConsoleFault.Failed → unix_of state.new ≡ with_process (unix_of state.old) slot (process_of process) }
    ensures part { OnErr result ((bytes : List ℕ) → S.left input.old ≡ Some bytes → TakesFront bytes (read_turn (with_process (unix_of state.old) slot (process_of process)) slot (process_of process) number address count bytes).taken (S.left input.new)) }
    ensures quiet { ((bytes : List ℕ) → (read_turn (with_process (unix_of state.old) slot (process_of process)) slot (process_of process) number address count bytes).taken ≡ []) → input.new ≡ input.old }
    ensures failed { result ≡ Err ConsoleFault.Failed → Rose (S.faults input.old) (S.faults input.new) }
    ensures same { CountsSame (S.faults input.new ≡ S.faults input.old) result }
    ensures counted { S.faults input.old ≤ S.faults input.new }
{
    let file = match state.opened(&process, number) {
        Some(file) => file,
        None => return Ok(state.refuse(slot, process, Errno::Ebadf)),
    };
    if count == 0 {
        return Ok(state.reply(slot, process, 0));
    }
    if is_console(state, file.description.inode) {
        return read_console(state, alloc, slot, process, address, count, input);
    }
    match read_stored(state, alloc, slot, process, file, address, count) {
        Ok(turned) => Ok(turned),
        Err(_) => Err(ConsoleFault::NoMemory),
    }
}

/// The line of read(descriptor, address, count) of at least one byte, on anything but the console.
#[tactic(auto, using(unix_model::proofs::TableLaws::tables_over))]
fn read_stored(
    state: &mut State,
    alloc: Global,
    slot: u8,
    process: Process,
    file: Opened,
    address: u32,
    count: u32,
) -> Result<Turned, AllocError>
    requires slot { slot < 64 }
    requires inside { file.number < 2048 }
    requires count { (0 < count) × (count ≤ 4096) }
    requires not_console { at (unix_of state.old).files.inodes file.description.inode ≢ Some model.Console }
    ensures { IfOk result (λ answer. Settles (with_process (unix_of state.old) slot (process_of process)) slot (process_of process) (reads_from (with_process (unix_of state.old) slot (process_of process)) slot (process_of process) [] (opened_of file) address count (at (unix_of state.old).files.inodes file.description.inode)) (unix_of state.new) answer) }
{
    let offset = file.description.offset;
    let piece = match state.files.inode(file.description.inode) {
        Some(Inode::File(contents)) => contents.piece(alloc, offset, count)?,
        Some(Inode::Pipe(_)) => return read_pipe(state, alloc, slot, process, file, address, count),
        Some(Inode::Directory(_)) => return Ok(state.refuse(slot, process, Errno::Eisdir)),
        _ => return Ok(state.refuse(slot, process, Errno::Ebadf)),
    };
    set_offset(state, file, offset + piece.len() as u32);
    Ok(state.reply_with(
        slot,
        process,
        Answer {
            value: piece.len() as u32,
            address,
            bytes: piece,
        },
    ))
}

/// The line of read on a pipe.
#[tactic(auto, using(unix_model::proofs::TableLaws::tables_over))]
fn read_pipe(
    state: &mut State,
    alloc: Global,
    slot: u8,
    process: Process,
    file: Opened,
    address: u32,
    count: u32,
) -> Result<Turned, AllocError>
    requires slot { slot < 64 }
    requires count { (0 < count) × (count ≤ 4096) }
    requires pipe { (bytes : List ℕ) × at (unix_of state.old).files.inodes file.description.inode ≡ Some (model.Pipe bytes) }
    ensures { IfOk result (λ answer. Settles (with_process (unix_of state.old) slot (process_of process)) slot (process_of process) (reads_from (with_process (unix_of state.old) slot (process_of process)) slot (process_of process) [] (opened_of file) address count (at (unix_of state.old).files.inodes file.description.inode)) (unix_of state.new) answer) }
{
    let has_writer = state.files.has_writer(file.description.inode);
    let pipe = match state.files.inode(file.description.inode) {
        Some(Inode::Pipe(pipe)) => pipe,
        _ => unreachable!(),
    };
    if pipe.bytes.is_empty() && has_writer {
        return Ok(state.wait(slot, process));
    }
    let piece = pipe.front(alloc, count)?;
    let rest = pipe.without_front(alloc, count)?;
    state
        .files
        .set_inode(file.description.inode, Inode::Pipe(rest));
    Ok(state.reply_with(
        slot,
        process,
        Answer {
            value: piece.len() as u32,
            address,
            bytes: piece,
        },
    ))
}
