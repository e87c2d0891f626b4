//! The line of exit, and the steps by which a process ends.

ghost use Rattle.std.specs.Prelude.{◌≡◌, ◌<◌, IfOk, OnOk};
ghost use Rattle.unix_model.specs.Process.{lowest_open};
ghost use Rattle.unix_model.specs.ProcessCalls.{exit_line};
ghost use Rattle.unix_model.specs.State.{with_process};
ghost use Rattle.unix_model.specs.Turn.{exit_step};
ghost use Rattle.flat_state.specs.ProcessView.{process_of};
ghost use Rattle.flat_state.specs.Settles.{Settles};
ghost use Rattle.flat_state.specs.StateView.{unix_of};

use flat_state::{Phase, Process, State};
use std::alloc::{AllocError, Global};
use unix_model::Turned;

/// The line of exit(code).
#[tactic(auto, using(unix_model::proofs::TableLaws::tables_over))]
pub fn exit(state: &mut State, slot: u8, process: Process, code: u32) -> Turned
    requires { slot < 64 }
    ensures { Settles (with_process (unix_of state.old) slot (process_of process)) slot (process_of process) (exit_line (with_process (unix_of state.old) slot (process_of process)) slot (process_of process) code) (unix_of state.new) result }
{
    state.put(slot, process.in_phase(Phase::Exiting(256 * (code % 256))));
    Turned::Worked
}

/// One step of an exit: the lowest open descriptor is closed, or the process becomes a zombie, and process 1 the parent of
/// its children.
#[tactic(auto, using(unix_model::proofs::TableLaws::tables))]
pub fn exit_step(
    state: &mut State,
    alloc: Global,
    slot: u8,
    process: Process,
    word: u32,
) -> Result<(), AllocError>
    requires { slot < 64 }
    ensures { OnOk result (unix_of state.new ≡ exit_step (with_process (unix_of state.old) slot (process_of process)) slot (process_of process) word (lowest_open (process_of process))) }
{
    match process.lowest_open() {
        Some(number) => state.close(slot, process, number),
        None => {
            let pid = process.pid;
            let zombie = process.into_zombie(alloc, word)?;
            state.put(slot, zombie);
            state.slots.adopt_orphans(pid);
        }
    }
    Ok(())
}
