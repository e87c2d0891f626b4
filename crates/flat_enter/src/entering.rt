//! The table of the calls at the keeper.

ghost use Rattle.std.specs.Prelude.{◌≡◌, ◌≢◌, ℕ, ◌<◌, None, IfOk, true, false};
ghost use Rattle.unix_model.specs.Calls.{call_of};
ghost use Rattle.unix_model.specs.Enter.{call_enters, entered};
ghost use Rattle.unix_model.specs.Process.{argument, Asked};
ghost use Rattle.unix_model.specs.State.{with_process};
ghost use Rattle.unix_model.specs.Tables.{at};
ghost use Rattle.flat_state.specs.ProcessView.{process_of};
ghost use Rattle.flat_state.specs.StateView.{unix_of};
ghost use Rattle.flat_enter.specs.Enters.{Enters};

use crate::breaks::brk;
use crate::fault::EnterFault;
use crate::lines::{
    descriptor, dup2, fstat, ftruncate, getdents, kill, lseek, one_path, open, pipe, read,
    two_paths, wait, waitpid, write,
};
use crate::sending::send;
use crate::strings::exec;
use flat_state::{Phase, Process, State};
use std::alloc::{AllocError, Global};
use unix_model::{Call, Errno};

/// Whether a call is brk, which changes the memory.
fn is_brk(call: Call) -> bool
    ensures yes { result ≡ true → call ≡ Call.Brk }
    ensures no { result ≡ false → call ≢ Call.Brk }
{
    match call {
        Call::Brk => true,
        _ => false,
    }
}

/// The phase after any other call, with its arguments.
fn phase_after(
    state: &State,
    alloc: Global,
    process: &Process,
    call: Call,
    a0: u32,
    a1: u32,
    a2: u32,
) -> Result<Phase, EnterFault>
    requires { call ≢ Call.Brk }
    ensures { (slot : ℕ) → Enters (process_of process.now) (call_enters (with_process (unix_of state.now) slot (process_of process.now)) slot (process_of process.now) a0 a1 a2 call) result }
{
    match call {
        Call::Exit | Call::Fork => send(process, call, Vec::new(alloc)),
        Call::Exec => exec(alloc, process, a0, a1),
        Call::Wait => wait(alloc, process, a0),
        Call::Waitpid => waitpid(alloc, process, a0, a1, a2),
        Call::Getpid => Ok(Phase::Done(process.pid)),
        Call::Getppid => Ok(Phase::Done(process.parent)),
        Call::Brk => unreachable!(),
        Call::Open => open(alloc, process, a0, a1),
        Call::Close | Call::Dup => descriptor(state, alloc, process, call, a0),
        Call::Read => read(state, alloc, process, a0, a1, a2),
        Call::Write => write(state, alloc, process, a0, a1, a2),
        Call::Lseek => lseek(state, alloc, process, a0, a2),
        Call::Dup2 => dup2(state, alloc, process, a0, a1),
        Call::Pipe => pipe(alloc, process, a0),
        Call::Mkdir | Call::Rmdir | Call::Unlink => one_path(alloc, process, call, a0),
        Call::Link | Call::Rename => two_paths(alloc, process, call, a0, a1),
        Call::Fstat => fstat(state, alloc, process, a0, a1),
        Call::Getdents => getdents(state, alloc, process, a0, a1, a2),
        Call::Ftruncate => ftruncate(state, alloc, process, a0, a1),
        Call::Kill => kill(alloc, process, a0, a1),
    }
}

/// A process that was taken out of its slot, after its turn at the keeper.
#[tactic(auto, unfolding(unix_model::specs::Enter::entered_line))]
pub fn enter(state: &State, alloc: Global, process: Process) -> Result<Process, AllocError>
    requires { (process_of process).phase ≡ Asked }
    ensures { IfOk result (λ after. (slot : ℕ) → slot < 64 → at (unix_of state.now).processes slot ≡ None → process_of after ≡ entered call_of (with_process (unix_of state.now) slot (process_of process)) slot (process_of process)) }
{
    let call = match Call::of(process.argument(7)) {
        Some(call) => call,
        None => return Ok(process.refused(Errno::Enosys)),
    };
    let a0 = process.argument(0);
    if is_brk(call) {
        return brk(state, alloc, process, a0);
    }
    let a1 = process.argument(1);
    let a2 = process.argument(2);
    match phase_after(state, alloc, &process, call, a0, a1, a2) {
        Ok(phase) => Ok(process.in_phase(phase)),
        Err(EnterFault::Refused(errno)) => Ok(process.refused(errno)),
        Err(EnterFault::NoMemory) => Err(AllocError),
    }
}
