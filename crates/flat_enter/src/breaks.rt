//! The line of brk.

ghost use Rattle.std.specs.Prelude.{◌≡◌, ℕ, ◌<◌, ◌≤◌, None, IfOk};
ghost use Rattle.unix_model.specs.Enter.{brk_enters, or_refused};
ghost use Rattle.unix_model.specs.Process.{Asked};
ghost use Rattle.unix_model.specs.State.{with_process};
ghost use Rattle.unix_model.specs.Tables.{at};
ghost use Rattle.flat_state.specs.ProcessView.{process_of};
ghost use Rattle.flat_state.specs.StateView.{unix_of};

use flat_state::{Phase, Process, State};
use std::alloc::{AllocError, Global};
use unix_model::Errno;

/// brk(address), of a process that was taken out of its slot.
#[tactic(auto, unfolding(unix_model::specs::Limits::loads_end))]
pub fn brk(
    state: &State,
    alloc: Global,
    process: Process,
    address: u32,
) -> Result<Process, AllocError>
    requires { (process_of process).phase ≡ Asked }
    ensures { IfOk result (λ after. (slot : ℕ) → slot < 64 → at (unix_of state.now).processes slot ≡ None → process_of after ≡ or_refused (process_of process) (brk_enters (with_process (unix_of state.now) slot (process_of process)) slot (process_of process) address)) }
{
    if address == 0 {
        let value = process.heap.end;
        return Ok(process.in_phase(Phase::Done(value)));
    }
    if address < process.heap.start {
        return Ok(process.refused(Errno::Einval));
    }
    if address > 0x7FFE_0000 {
        return Ok(process.refused(Errno::Enomem));
    }
    let heap = process.heap;
    let mapped = match process
        .memory
        .mapped_with_break(heap.start, heap.end, address, state.pages)
    {
        Some(mapped) => mapped,
        None => return Ok(process.refused(Errno::Enomem)),
    };
    if !state.fits(&process, mapped, process.memory.mapped()) {
        return Ok(process.refused(Errno::Enomem));
    }
    match process.with_break(alloc, address) {
        Ok(process) => Ok(process),
        Err(fault) => Err(fault),
    }
}
