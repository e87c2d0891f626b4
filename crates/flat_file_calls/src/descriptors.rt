//! The lines of close, dup and dup2.

ghost use Rattle.std.specs.Prelude.{◌≡◌, ℕ, ◌<◌, None};
ghost use Rattle.unix_model.specs.FileCalls.{close_line, dup_line, dup2_line};
ghost use Rattle.unix_model.specs.Process as model;
ghost use Rattle.unix_model.specs.State.{with_description_released, with_descriptor_closed, with_process};
ghost use Rattle.unix_model.specs.Tables.{at};
ghost use Rattle.flat_state.specs.ProcessView.{process_of};
ghost use Rattle.flat_state.specs.Settles.{Settles};
ghost use Rattle.flat_state.specs.StateView.{unix_of};

use flat_state::{Process, State};
use unix_model::{Errno, Turned};

/// The process with a descriptor of a description, where there is such a descriptor.
#[tactic(auto, using(crate::proofs::DescriptorLaws::sets))]
pub fn with_descriptor(process: Process, number: u32, description: u16) -> Process
    ensures { process_of result ≡ model.with_descriptor (process_of process) number description }
{
    if number < 32 {
        process.with_descriptor(number, description)
    } else {
        process
    }
}

/// The process with a descriptor closed, where there is such a descriptor.
#[tactic(auto, using(crate::proofs::DescriptorLaws::sets))]
fn without_descriptor(process: Process, number: u32) -> Process
    ensures { process_of result ≡ model.without_descriptor (process_of process) number }
{
    if number < 32 {
        process.without_descriptor(number)
    } else {
        process
    }
}

/// Frees a description that has no descriptor any more, where one process was taken out of its slot.
fn release_beside(state: &mut State, process: &Process, description: u16)
    ensures { (slot : ℕ) → slot < 64 → at (unix_of state.old).processes slot ≡ None → with_process (unix_of state.new) slot (process_of process.now) ≡ with_process (with_description_released (with_process (unix_of state.old) slot (process_of process.now)) description) slot (process_of process.now) }
{
    if !process.has_descriptor(description) {
        state.release(description);
    }
}

/// Closes a descriptor of a process that was taken out of its slot. A description without another descriptor is freed.
fn close_descriptor(state: &mut State, process: Process, number: u32) -> Process
    ensures process { process_of result ≡ model.without_descriptor (process_of process) number }
    ensures state { (slot : ℕ) → slot < 64 → at (unix_of state.old).processes slot ≡ None → with_process (unix_of state.new) slot (process_of result) ≡ with_process (with_descriptor_closed (with_process (unix_of state.old) slot (process_of process)) slot (process_of process) number (model.descriptor (process_of process) number)) slot (process_of result) }
{
    let description = process.descriptor(number);
    let process = without_descriptor(process, number);
    match description {
        Some(description) => release_beside(state, &process, description),
        None => {}
    }
    process
}

/// The line of close(descriptor).
#[tactic(auto, using(unix_model::proofs::TableLaws::tables_over))]
pub fn close(state: &mut State, slot: u8, process: Process, number: u32) -> Turned
    requires slot { slot < 64 }
    requires free { at (unix_of state.old).processes slot ≡ None }
    ensures { Settles (with_process (unix_of state.old) slot (process_of process)) slot (process_of process) (close_line (with_process (unix_of state.old) slot (process_of process)) slot (process_of process) number) (unix_of state.new) result }
{
    let process = close_descriptor(state, process, number);
    state.reply(slot, process, 0)
}

/// The line of dup(descriptor).
#[tactic(auto, using(unix_model::proofs::TableLaws::tables_over))]
pub fn dup(state: &mut State, slot: u8, process: Process, number: u32) -> Turned
    requires { slot < 64 }
    ensures { Settles (with_process (unix_of state.old) slot (process_of process)) slot (process_of process) (dup_line (with_process (unix_of state.old) slot (process_of process)) slot (process_of process) number) (unix_of state.new) result }
{
    let file = match state.opened(&process, number) {
        Some(file) => file,
        None => return state.refuse(slot, process, Errno::Ebadf),
    };
    let lowest = match process.lowest_closed() {
        Some(lowest) => lowest,
        None => return state.refuse(slot, process, Errno::Emfile),
    };
    let process = process.with_descriptor(lowest, file.number);
    state.reply(slot, process, lowest)
}

/// The line of dup2(descriptor, to): the second descriptor is closed first, unless it is the first.
#[tactic(auto, using(unix_model::proofs::TableLaws::tables_over))]
pub fn dup2(state: &mut State, slot: u8, process: Process, number: u32, to: u32) -> Turned
    requires slot { slot < 64 }
    requires free { at (unix_of state.old).processes slot ≡ None }
    ensures { Settles (with_process (unix_of state.old) slot (process_of process)) slot (process_of process) (dup2_line (with_process (unix_of state.old) slot (process_of process)) slot (process_of process) number to) (unix_of state.new) result }
{
    let file = match state.opened(&process, number) {
        Some(file) => file,
        None => return state.refuse(slot, process, Errno::Ebadf),
    };
    if number == to {
        return state.reply(slot, process, to);
    }
    let process = close_descriptor(state, process, to);
    let process = with_descriptor(process, to, file.number);
    state.reply(slot, process, to)
}
