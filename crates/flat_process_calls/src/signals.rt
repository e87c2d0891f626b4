//! The line of kill.

ghost use Rattle.std.specs.Prelude.{◌≡◌, ◌<◌, None, IfSome};
ghost use Rattle.unix_model.specs.ProcessCalls.{kill_line, with_killed};
ghost use Rattle.unix_model.specs.State.{slot_of, with_process};
ghost use Rattle.unix_model.specs.Tables.{at};
ghost use Rattle.flat_state.specs.ProcessView.{process_of};
ghost use Rattle.flat_state.specs.Settles.{Settles};
ghost use Rattle.flat_state.specs.StateView.{unix_of};

use flat_state::{Phase, Process, State};
use unix_model::{Errno, Turned};

/// A process that sends a signal, and the slot of the process that gets it.
#[derive(Drop)]
struct Sender {
    process: Process,
    target: Option<u8>,
}

/// The slot of a process by its pid, while one process is taken out.
#[tactic(auto, using(unix_model::proofs::TableLaws::tables))]
fn find_target(state: &mut State, slot: u8, process: Process, pid: u32) -> Sender
    requires slot { slot < 64 }
    requires free { at (unix_of state.old).processes slot ≡ None }
    ensures process { process_of result.process ≡ process_of process }
    ensures target { result.target ≡ slot_of (with_process (unix_of state.old) slot (process_of process)).processes pid }
    ensures inside { IfSome result.target (λ target. target < 64) }
    ensures state { unix_of state.new ≡ unix_of state.old }
{
    state.slots.put(slot, process);
    let target = state.slots.slot_of(pid);
    match state.slots.take(slot) {
        Some(process) => Sender { process, target },
        None => unreachable!(),
    }
}

/// Ends the process of a slot by a signal, unless it ends already.
#[tactic(auto, using(unix_model::proofs::TableLaws::tables))]
fn end(state: &mut State, target: u8, signal: u32)
    requires { target < 64 }
    ensures { unix_of state.new ≡ with_killed (unix_of state.old) target signal (at (unix_of state.old).processes target) }
{
    match state.slots.take(target) {
        Some(process) => {
            if process.is_ending() {
                state.slots.put(target, process);
            } else {
                state
                    .slots
                    .put(target, process.in_phase(Phase::Exiting(signal)));
            }
        }
        None => {}
    }
}

/// The line of kill(pid, signal).
#[tactic(auto, using(unix_model::proofs::TableLaws::tables_over))]
pub fn kill(state: &mut State, slot: u8, process: Process, pid: u32, signal: u32) -> Turned
    requires slot { slot < 64 }
    requires free { at (unix_of state.old).processes slot ≡ None }
    ensures { Settles (with_process (unix_of state.old) slot (process_of process)) slot (process_of process) (kill_line (with_process (unix_of state.old) slot (process_of process)) slot (process_of process) pid signal) (unix_of state.new) result }
{
    let sender = find_target(state, slot, process, pid);
    match sender.target {
        Some(target) => {
            if target == slot {
                state.put(slot, sender.process.in_phase(Phase::Exiting(signal)));
                return Turned::Worked;
            }
            end(state, target, signal);
            state.reply(slot, sender.process, 0)
        }
        None => state.refuse(slot, sender.process, Errno::Esrch),
    }
}
