//! Calls that are sent to their servers.

ghost use Rattle.std.specs.Prelude.{◌≡◌, ◌≢◌, ◌∷◌, ◌++◌, [], ◌+◌, ◌≤◌, IfOk, length};
ghost use Rattle.unix_model.specs.Enter.{arguments, arguments_cut, sends, sends_cut, with_nul};
ghost use Rattle.unix_model.specs.Process as model;
ghost use Rattle.flat_state.specs.ProcessView.{phase_of, process_of};
ghost use Rattle.flat_enter.specs.Enters.{Enters, NeverRefuses};

use crate::fault::EnterFault;
use flat_state::{Phase, Process, SentCall};
use unix_model::Call;

/// The words of `a0` to `a3`.
fn arguments(process: &Process) -> [u32; 4]
    ensures { result ≡ arguments (process_of process.now) }
{
    [
        process.argument(0),
        process.argument(1),
        process.argument(2),
        process.argument(3),
    ]
}

/// A call, without a count that is cut, with its arguments and these bytes.
pub fn send(process: &Process, call: Call, bytes: Vec<u8>) -> Result<Phase, EnterFault>
    requires few { length bytes.items ≤ 4096 }
    requires whole { (call ≢ Call.Read) × (call ≢ Call.Getdents) }
    ensures { Enters (process_of process.now) (sends (process_of process.now) call bytes.items) result }
{
    Ok(Phase::Sent(SentCall {
        call,
        arguments: arguments(process),
        bytes,
    }))
}

/// The same with the count in `a2` cut to what one call moves.
pub fn send_cut(process: &Process, call: Call, bytes: Vec<u8>) -> Result<Phase, EnterFault>
    requires { length bytes.items ≤ 4096 }
    ensures { Enters (process_of process.now) (sends_cut (process_of process.now) call bytes.items) result }
{
    let mut arguments = arguments(process);
    arguments[2] = arguments[2].min(4096);
    Ok(Phase::Sent(SentCall {
        call,
        arguments,
        bytes,
    }))
}

/// A text with a NUL after it.
pub fn with_nul(text: Vec<u8>) -> Result<Vec<u8>, EnterFault>
    ensures bytes { IfOk result (λ bytes. bytes.items ≡ with_nul text.items) }
    ensures len { IfOk result (λ bytes. length bytes.items ≡ length text.items + 1) }
    ensures fault { NeverRefuses result }
{
    let mut bytes = text;
    match bytes.push(0) {
        Ok(()) => Ok(bytes),
        Err(_) => Err(EnterFault::NoMemory),
    }
}
