//! What a process that waits finds.

ghost use Rattle.std.specs.Prelude.{◌≡◌, ◌<◌, None, IfSome, option_map};
ghost use Rattle.unix_model.specs.ProcessCalls.{is_waited, least_ended};
ghost use Rattle.unix_model.specs.State.{with_process};
ghost use Rattle.unix_model.specs.Tables.{any_below, at};
ghost use Rattle.flat_state.specs.EndedChildView.{ended_child_of};
ghost use Rattle.flat_state.specs.ProcessView.{process_of};
ghost use Rattle.flat_state.specs.StateView.{unix_of};

use flat_state::{EndedChild, Process, State};

/// A process that waits, whether it has a child that it waits for, and such a child that has ended.
#[derive(Drop)]
pub struct Children {
    pub process: Process,
    pub is_there: bool,
    pub ended: Option<EndedChild>,
}

/// Whether a process that was taken out has a child that it waits for, and of those that have ended the one of least pid.
#[tactic(auto, using(unix_model::proofs::TableLaws::tables))]
pub fn find_children(state: &mut State, slot: u8, process: Process, wanted: u32) -> Children
    requires slot { slot < 64 }
    requires free { at (unix_of state.old).processes slot ≡ None }
    ensures process { process_of result.process ≡ process_of process }
    ensures is_there { result.is_there ≡ any_below (λ n. is_waited (process_of process).pid wanted (at (with_process (unix_of state.old) slot (process_of process)).processes n)) 64 }
    ensures ended { option_map ended_child_of result.ended ≡ least_ended (with_process (unix_of state.old) slot (process_of process)).processes (process_of process).pid wanted 64 }
    ensures inside { IfSome result.ended (λ ended. ended.slot < 64) }
    ensures state { unix_of state.new ≡ unix_of state.old }
{
    let pid = process.pid;
    state.slots.put(slot, process);
    let is_there = state.slots.has_waited(pid, wanted);
    let ended = state.slots.least_ended(pid, wanted);
    match state.slots.take(slot) {
        Some(process) => Children {
            process,
            is_there,
            ended,
        },
        None => unreachable!(),
    }
}
