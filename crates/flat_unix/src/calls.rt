//! The calls that neither read nor write, by their families.

ghost use Rattle.std.specs.Prelude.{◌≡◌, ◌≢◌, ◌<◌, [], None, IfOk};
ghost use Rattle.unix_model.specs.State.{with_process};
ghost use Rattle.unix_model.specs.Tables.{at};
ghost use Rattle.unix_model.specs.Turn.{call_line};
ghost use Rattle.flat_state.specs.ProcessView.{process_of, sent_call_of};
ghost use Rattle.flat_state.specs.Settles.{Settles};
ghost use Rattle.flat_state.specs.StateView.{unix_of};
ghost use Rattle.flat_unix.specs.Families.{family_of};
ghost use Rattle.flat_unix.specs.declared.families.Family.TheVariants.{Processes, Names, Descriptors, Streams};

use crate::families::{Family, family_of};
use crate::texts::{rest, text, texts};
use flat_file_calls::{close, dup, dup2, fstat, ftruncate, getdents, lseek, pipe};
use flat_name_calls::{link, mkdir, open, rename, rmdir, unlink};
use flat_process_calls::{exec, exit, fork, kill, wait, waitpid};
use flat_state::{Process, SentCall, State};
use std::alloc::{AllocError, Global};
use unix_model::{Call, Errno, Turned};

/// The line of a call that neither reads nor writes.
pub(crate) fn call(
    state: &mut State,
    alloc: Global,
    slot: u8,
    process: Process,
    sent: &SentCall,
) -> Result<Turned, AllocError>
    requires slot { slot < 64 }
    requires free { at (unix_of state.old).processes slot ≡ None }
    requires quiet { family_of sent.now.call ≢ Streams }
    ensures { IfOk result (λ answer. Settles (with_process (unix_of state.old) slot (process_of process)) slot (process_of process) (call_line (with_process (unix_of state.old) slot (process_of process)) slot (process_of process) [] (sent_call_of sent.now) sent.now.call) (unix_of state.new) answer) }
{
    match family_of(sent.call) {
        Family::Keeper => Ok(state.refuse(slot, process, Errno::Enosys)),
        Family::Processes => process_call(state, alloc, slot, process, sent),
        Family::Names => name_call(state, alloc, slot, process, sent),
        Family::Descriptors => descriptor_call(state, alloc, slot, process, sent),
        Family::Streams => unreachable!(),
    }
}

/// The line of a call on processes.
fn process_call(
    state: &mut State,
    alloc: Global,
    slot: u8,
    process: Process,
    sent: &SentCall,
) -> Result<Turned, AllocError>
    requires slot { slot < 64 }
    requires free { at (unix_of state.old).processes slot ≡ None }
    requires family { family_of sent.now.call ≡ Processes }
    ensures { IfOk result (λ answer. Settles (with_process (unix_of state.old) slot (process_of process)) slot (process_of process) (call_line (with_process (unix_of state.old) slot (process_of process)) slot (process_of process) [] (sent_call_of sent.now) sent.now.call) (unix_of state.new) answer) }
{
    let [a0, a1, a2, _] = sent.arguments;
    match sent.call {
        Call::Exit => Ok(exit(state, slot, process, a0)),
        Call::Fork => fork(state, slot, process),
        Call::Exec => exec_call(state, alloc, slot, process, sent),
        Call::Wait => wait(state, alloc, slot, process, a0),
        Call::Waitpid => waitpid(state, alloc, slot, process, a0, a1, a2),
        Call::Kill => Ok(kill(state, slot, process, a0, a1)),
        _ => unreachable!(),
    }
}

/// The line of exec, whose first text is the path, and the others the strings.
fn exec_call(
    state: &mut State,
    alloc: Global,
    slot: u8,
    process: Process,
    sent: &SentCall,
) -> Result<Turned, AllocError>
    requires slot { slot < 64 }
    requires free { at (unix_of state.old).processes slot ≡ None }
    ensures { IfOk result (λ answer. Settles (with_process (unix_of state.old) slot (process_of process)) slot (process_of process) (call_line (with_process (unix_of state.old) slot (process_of process)) slot (process_of process) [] (sent_call_of sent.now) Call.Exec) (unix_of state.new) answer) }
{
    let texts = texts(alloc, sent)?;
    exec(state, alloc, slot, process, text(&texts, 0), rest(&texts))
}

/// The line of a call on names.
fn name_call(
    state: &mut State,
    alloc: Global,
    slot: u8,
    process: Process,
    sent: &SentCall,
) -> Result<Turned, AllocError>
    requires slot { slot < 64 }
    requires free { at (unix_of state.old).processes slot ≡ None }
    requires family { family_of sent.now.call ≡ Names }
    ensures { IfOk result (λ answer. Settles (with_process (unix_of state.old) slot (process_of process)) slot (process_of process) (call_line (with_process (unix_of state.old) slot (process_of process)) slot (process_of process) [] (sent_call_of sent.now) sent.now.call) (unix_of state.new) answer) }
{
    let texts = texts(alloc, sent)?;
    let first = text(&texts, 0);
    let second = text(&texts, 1);
    match sent.call {
        Call::Open => open(state, alloc, slot, process, first, sent.arguments[1]),
        Call::Mkdir => mkdir(state, alloc, slot, process, first),
        Call::Rmdir => Ok(rmdir(state, alloc, slot, process, first)),
        Call::Unlink => Ok(unlink(state, alloc, slot, process, first)),
        Call::Link => link(state, alloc, slot, process, first, second),
        Call::Rename => rename(state, alloc, slot, process, first, second),
        _ => unreachable!(),
    }
}

/// The line of a call on descriptors and open files.
fn descriptor_call(
    state: &mut State,
    alloc: Global,
    slot: u8,
    process: Process,
    sent: &SentCall,
) -> Result<Turned, AllocError>
    requires slot { slot < 64 }
    requires free { at (unix_of state.old).processes slot ≡ None }
    requires family { family_of sent.now.call ≡ Descriptors }
    ensures { IfOk result (λ answer. Settles (with_process (unix_of state.old) slot (process_of process)) slot (process_of process) (call_line (with_process (unix_of state.old) slot (process_of process)) slot (process_of process) [] (sent_call_of sent.now) sent.now.call) (unix_of state.new) answer) }
{
    let [a0, a1, a2, _] = sent.arguments;
    match sent.call {
        Call::Close => Ok(close(state, slot, process, a0)),
        Call::Lseek => Ok(lseek(state, slot, process, a0, a1, a2)),
        Call::Dup => Ok(dup(state, slot, process, a0)),
        Call::Dup2 => Ok(dup2(state, slot, process, a0, a1)),
        Call::Pipe => pipe(state, alloc, slot, process, a0),
        Call::Fstat => fstat(state, alloc, slot, process, a0, a1),
        Call::Getdents => getdents(state, alloc, slot, process, a0, a1, a2),
        Call::Ftruncate => ftruncate(state, alloc, slot, process, a0, a1),
        _ => unreachable!(),
    }
}
