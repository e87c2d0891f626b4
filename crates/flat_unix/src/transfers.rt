//! Calls that move bytes between a process and the console, a pipe or a file.

ghost use Rattle.std.specs.Prelude.{◌≡◌, IfOk};
ghost use Rattle.flat_state.specs.ProcessView.{process_of, sent_call_of};
ghost use Rattle.flat_unix.specs.Turns.{IsTransfer};

use flat_state::{Phase, Process, SentCall};
use std::alloc::{AllocError, Global};
use unix_model::Call;

/// The read or the write that a process has sent.
#[derive(Drop)]
pub(crate) enum Transfer {
    Reads(SentCall),
    Writes(SentCall),
    Neither,
}

/// The same call.
pub(crate) fn same_call(alloc: Global, sent: &SentCall) -> Result<SentCall, AllocError>
    ensures same { IfOk result (λ same. sent_call_of same ≡ sent_call_of sent.now) }
{
    Ok(SentCall {
        call: sent.call,
        arguments: sent.arguments,
        bytes: Vec::from_slice(alloc, &sent.bytes)?,
    })
}

/// The read or the write that a process has sent, where it has.
pub(crate) fn transfer_of(alloc: Global, process: &Process) -> Result<Transfer, AllocError>
    ensures { IfOk result (IsTransfer (process_of process.now).phase) }
{
    match &process.phase {
        Phase::Sent(sent) => match sent.call {
            Call::Read => Ok(Transfer::Reads(same_call(alloc, sent)?)),
            Call::Write => Ok(Transfer::Writes(same_call(alloc, sent)?)),
            _ => Ok(Transfer::Neither),
        },
        _ => Ok(Transfer::Neither),
    }
}
