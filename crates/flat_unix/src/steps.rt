//! Steps of a process that take nothing from the console and put nothing there.

ghost use Rattle.std.specs.Prelude.{◌≡◌, ◌<◌, ℕ, List, None, Some, IfOk, OnOk};
ghost use Rattle.unix_model.specs.Calls.{call_of};
ghost use Rattle.unix_model.specs.Enter.{entered};
ghost use Rattle.unix_model.specs.Process.{Asked, Done};
ghost use Rattle.unix_model.specs.State.{with_process};
ghost use Rattle.unix_model.specs.Tables.{at};
ghost use Rattle.unix_model.specs.Turn.{returned, ticked, turned};
ghost use Rattle.flat_state.specs.PaceView.{pace_of};
ghost use Rattle.flat_state.specs.declared.pace.Pace.TheVariants.{Other};
ghost use Rattle.flat_state.specs.ProcessView.{process_of};
ghost use Rattle.flat_state.specs.StateView.{unix_of};
ghost use Rattle.flat_unix.specs.Turns.{IsQuiet, quiet_turn};

use crate::calls::call;
use crate::transfers::same_call;
use flat_enter::enter;
use flat_process_calls::exit_step;
use flat_state::{Phase, Process, State};
use std::alloc::{AllocError, Global};
use std::mem;
use unix_model::Turned;

/// The step of a process that was taken out of its slot, and is put back: any but an instruction, a read or a write.
pub(crate) fn quiet_step(
    state: &mut State,
    alloc: Global,
    slot: u8,
    process: Process,
) -> Result<Turned, AllocError>
    requires slot { slot < 64 }
    requires free { at (unix_of state.old).processes slot ≡ None }
    requires pace { pace_of (Some (process_of process)) ≡ Other }
    requires quiet { IsQuiet (process_of process).phase }
    ensures { IfOk result (λ answer. (bytes : List ℕ) → turned call_of (with_process (unix_of state.old) slot (process_of process)) slot bytes ≡ quiet_turn (ticked (unix_of state.new)) answer bytes) }
{
    match &process.phase {
        Phase::Asked => {
            ask(state, alloc, slot, process)?;
            Ok(Turned::Worked)
        }
        Phase::Sent(sent) => {
            let sent = same_call(alloc, sent)?;
            call(state, alloc, slot, process, &sent)
        }
        Phase::Done(_) | Phase::Gives(_) => {
            give_back(state, slot, process);
            Ok(Turned::Worked)
        }
        Phase::Exiting(word) => {
            let word = *word;
            exit_step(state, alloc, slot, process, word)?;
            Ok(Turned::Worked)
        }
        Phase::Run | Phase::Zombie(_) => unreachable!(),
    }
}

/// A system call at the keeper.
fn ask(state: &mut State, alloc: Global, slot: u8, process: Process) -> Result<(), AllocError>
    requires slot { slot < 64 }
    requires free { at (unix_of state.old).processes slot ≡ None }
    requires phase { (process_of process).phase ≡ Asked }
    ensures { OnOk result (unix_of state.new ≡ with_process (unix_of state.old) slot (entered call_of (with_process (unix_of state.old) slot (process_of process)) slot (process_of process))) }
{
    let process = enter(state, alloc, process)?;
    state.put(slot, process);
    Ok(())
}

/// The return of an answer.
fn give_back(state: &mut State, slot: u8, mut process: Process)
    requires slot { slot < 64 }
    requires answered { (value : ℕ) × (address : ℕ) × (bytes : List ℕ) × ((process_of process).phase ≡ Done value address bytes) }
    ensures { (value address : ℕ) (bytes : List ℕ) → (process_of process).phase ≡ Done value address bytes → unix_of state.new ≡ with_process (unix_of state.old) slot (returned (process_of process) value address bytes) }
{
    match mem::replace(&mut process.phase, Phase::Run) {
        Phase::Done(value) => state.put(slot, process.give_back(value)),
        Phase::Gives(answer) => {
            let process = process.give_back_with(answer.value, answer.address, &answer.bytes);
            state.put(slot, process);
        }
        _ => unreachable!(),
    }
}
