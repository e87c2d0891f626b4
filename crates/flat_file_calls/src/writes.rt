//! The line of write.

ghost use Rattle.std.specs.Prelude.{◌≡◌, ◌≢◌, ◌<◌, ◌≤◌, ℕ, List, [], None, Some, Err, IfOk, OnErr, length};
ghost use Rattle.kn_io.specs.Faults.{Rose};
ghost use Rattle.kn_io.specs.Sink.{GrewByPrefix};
ghost use Rattle.unix_model.specs.FileCalls.{write_file, write_pipe, write_place, writes_to};
ghost use Rattle.unix_model.specs.Files as model;
ghost use Rattle.unix_model.specs.State.{with_process};
ghost use Rattle.unix_model.specs.Tables.{at};
ghost use Rattle.flat_files.specs.InodeView.{description_of};
ghost use Rattle.flat_files.specs.OpenedView.{opened_of};
ghost use Rattle.flat_state.specs.ProcessView.{process_of};
ghost use Rattle.flat_state.specs.Settles.{Settles};
ghost use Rattle.flat_state.specs.StateView.{unix_of};
ghost use Rattle.flat_file_calls.specs.Console.{CountsSame, Writes, write_turn};

use crate::console::{ConsoleFault, is_console, write_console};
use crate::offsets::set_offset;
use crate::stored::{append, overwrite};
use flat_files::{Description, Inode, Opened, front};
use flat_state::{Process, State};
use kn_io::Sink;
use std::alloc::{AllocError, Global};
use unix_model::{Errno, Turned};

/// The line of write(descriptor, bytes): to a file from the offset on, or at its end, to a pipe, or to the console (POSIX.1
/// write(2), narrowed: at most 4,096 bytes at once). A write that puts nothing to the console calls no sink.
///
/// # Errors
///
/// `Failed` only where the sink's count of faults rose; the state is then as before, with the process in its slot. At every
/// other answer the count is as before. At any error the sink got a front of what the write puts.
pub fn write<K: Sink>(
    state: &mut State,
    alloc: Global,
    slot: u8,
    process: Process,
    number: u32,
    written: &[u8],
    output: &mut K,
) -> Result<Turned, ConsoleFault>
    requires slot { slot < 64 }
    requires free { at (unix_of state.old).processes slot ≡ None }
    requires few { length written.now ≤ 4096 }
    ensures turn { IfOk result (λ answer. Writes (write_turn (with_process (unix_of state.old) slot (process_of process)) slot (process_of process) number written.now) K.grew (unix_of state.new) answer output.old output.new) }
    ensures unchanged { result ≡ Err ConsoleFault.Failed → unix_of state.new ≡ with_process (unix_of state.old) slot (process_of process) }
    ensures part { OnErr result ((bytes : List ℕ) → GrewByPrefix K.grew output.old (write_turn (with_process (unix_of state.old) slot (process_of process)) slot (process_of process) number written.now bytes).put output.new) }
    ensures quiet { (write_turn (with_process (unix_of state.old) slot (process_of process)) slot (process_of process) number written.now []).put ≡ [] → output.new ≡ output.old }
    ensures failed { result ≡ Err ConsoleFault.Failed → Rose (K.faults output.old) (K.faults output.new) }
    ensures same { CountsSame (K.faults output.new ≡ K.faults output.old) result }
    ensures counted { K.faults output.old ≤ K.faults output.new }
{
    let file = match state.opened(&process, number) {
        Some(file) => file,
        None => return Ok(state.refuse(slot, process, Errno::Ebadf)),
    };
    if written.is_empty() {
        return Ok(state.reply(slot, process, 0));
    }
    if is_console(state, file.description.inode) {
        return write_console(state, slot, process, written, output);
    }
    match write_stored(state, alloc, slot, process, file, written) {
        Ok(turned) => Ok(turned),
        Err(_) => Err(ConsoleFault::NoMemory),
    }
}

/// The line of write, of at least one byte, on anything but the console.
fn write_stored(
    state: &mut State,
    alloc: Global,
    slot: u8,
    process: Process,
    file: Opened,
    written: &[u8],
) -> Result<Turned, AllocError>
    requires slot { slot < 64 }
    requires free { at (unix_of state.old).processes slot ≡ None }
    requires inside { file.number < 2048 }
    requires count { length written.now ≤ 4096 }
    requires not_console { at (unix_of state.old).files.inodes file.description.inode ≢ Some model.Console }
    ensures { IfOk result (λ answer. Settles (with_process (unix_of state.old) slot (process_of process)) slot (process_of process) (writes_to (with_process (unix_of state.old) slot (process_of process)) slot (process_of process) (opened_of file) written.now (at (unix_of state.old).files.inodes file.description.inode)) (unix_of state.new) answer) }
{
    match state.files.inode(file.description.inode) {
        Some(Inode::File(_)) => write_file(state, alloc, slot, process, file, written),
        Some(Inode::Pipe(_)) => write_pipe(state, alloc, slot, process, file, written),
        _ => Ok(state.refuse(slot, process, Errno::Ebadf)),
    }
}

/// Where a write begins in a file of a length.
fn write_place(description: Description, size: u32) -> u32
    ensures { (bytes : List ℕ) → size ≡ length bytes → result ≡ write_place (description_of description) bytes }
{
    if description.append {
        size
    } else {
        description.offset
    }
}

/// The line of write, of at least one byte, on a file.
fn write_file(
    state: &mut State,
    alloc: Global,
    slot: u8,
    process: Process,
    file: Opened,
    written: &[u8],
) -> Result<Turned, AllocError>
    requires slot { slot < 64 }
    requires free { at (unix_of state.old).processes slot ≡ None }
    requires inside { file.number < 2048 }
    requires count { length written.now ≤ 4096 }
    ensures { (bytes : List ℕ) → at (unix_of state.old).files.inodes file.description.inode ≡ Some (model.File bytes) → IfOk result (λ answer. Settles (with_process (unix_of state.old) slot (process_of process)) slot (process_of process) (write_file (with_process (unix_of state.old) slot (process_of process)) slot (process_of process) (opened_of file) bytes written.now) (unix_of state.new) answer) }
{
    let inode = file.description.inode;
    let length = state.files.length_of(inode);
    let place = write_place(file.description, length);
    if place >= 4194304 {
        return Ok(state.refuse(slot, process, Errno::Efbig));
    }
    let part = front(written, 4194304 - place);
    let end = place + part.len() as u32;
    if !state.fits(
        &process,
        end.max(length).div_ceil(4096),
        length.div_ceil(4096),
    ) {
        return Ok(state.refuse(slot, process, Errno::Enospc));
    }
    overwrite(&mut state.files, alloc, inode, place, part)?;
    set_offset(state, file, end);
    Ok(state.reply(slot, process, end - place))
}

/// The line of write, of at least one byte, on a pipe.
#[tactic(auto, using(unix_model::proofs::TableLaws::tables_over))]
fn write_pipe(
    state: &mut State,
    alloc: Global,
    slot: u8,
    process: Process,
    file: Opened,
    written: &[u8],
) -> Result<Turned, AllocError>
    requires slot { slot < 64 }
    requires count { length written.now ≤ 4096 }
    ensures { (bytes : List ℕ) → at (unix_of state.old).files.inodes file.description.inode ≡ Some (model.Pipe bytes) → IfOk result (λ answer. Settles (with_process (unix_of state.old) slot (process_of process)) slot (process_of process) (write_pipe (with_process (unix_of state.old) slot (process_of process)) slot (process_of process) (opened_of file) bytes written.now) (unix_of state.new) answer) }
{
    let inode = file.description.inode;
    if !state.files.has_reader(inode) {
        return Ok(state.refuse(slot, process, Errno::Epipe));
    }
    if state.files.length_of(inode) + written.len() as u32 > 4096 {
        return Ok(state.wait(slot, process));
    }
    append(&mut state.files, alloc, inode, written)?;
    Ok(state.reply(slot, process, written.len() as u32))
}
