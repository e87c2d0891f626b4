//! The line of fork.

ghost use Rattle.std.specs.Prelude.{◌≡◌, ◌<◌, None, IfOk};
ghost use Rattle.unix_model.specs.ProcessCalls.{fork_line};
ghost use Rattle.unix_model.specs.State.{with_process};
ghost use Rattle.unix_model.specs.Tables.{at};
ghost use Rattle.flat_state.specs.ProcessView.{process_of};
ghost use Rattle.flat_state.specs.Settles.{Settles};
ghost use Rattle.flat_state.specs.StateView.{unix_of};

use flat_state::{Process, State};
use std::alloc::AllocError;
use unix_model::{Errno, Turned};

/// The line of fork().
#[tactic(auto, using(unix_model::proofs::TableLaws::tables_over))]
pub fn fork(state: &mut State, slot: u8, process: Process) -> Result<Turned, AllocError>
    requires slot { slot < 64 }
    requires free { at (unix_of state.old).processes slot ≡ None }
    ensures { IfOk result (λ answer. Settles (with_process (unix_of state.old) slot (process_of process)) slot (process_of process) (fork_line (with_process (unix_of state.old) slot (process_of process)) slot (process_of process)) (unix_of state.new) answer) }
{
    let place = match state.slots.free_slot_beside(slot) {
        Some(place) => place,
        None => return Ok(state.refuse(slot, process, Errno::Eagain)),
    };
    let pid = state.next_pid;
    if pid >= 0x8000_0000 {
        return Ok(state.refuse(slot, process, Errno::Eagain));
    }
    if !state.fits(&process, process.memory.mapped() + 1, 0) {
        return Ok(state.refuse(slot, process, Errno::Enomem));
    }
    let child = process.child(pid)?;
    state.slots.put(place, child);
    state.next_pid = pid + 1;
    Ok(state.reply(slot, process, pid))
}
