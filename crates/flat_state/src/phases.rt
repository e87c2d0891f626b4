//! The phases after an instruction.

ghost use Rattle.std.specs.Prelude.{◌≡◌};
ghost use Rattle.unix_model.specs.State.{names_description};
ghost use Rattle.unix_model.specs.Turn.{signal_of, phase_after as phase_after_outcome};
ghost use Rattle.flat_state.specs.ProcessView.{phase_of};

use crate::process::Phase;
use unix_model::{Cause, Outcome};

/// The signal of a fault.
fn signal(cause: Cause) -> u32
    ensures { result ≡ signal_of cause }
{
    match cause {
        Cause::Illegal => 4,
        Cause::BadTarget => 7,
        Cause::BadFetch | Cause::BadLoad | Cause::BadStore => 11,
    }
}

/// The phase after an instruction.
pub(crate) fn phase_after(outcome: Outcome) -> Phase
    ensures { phase_of result ≡ phase_after_outcome outcome }
{
    match outcome {
        Outcome::Next => Phase::Run,
        Outcome::Call => Phase::Asked,
        Outcome::Break => Phase::Exiting(5),
        Outcome::Fault(cause) => Phase::Exiting(signal(cause)),
    }
}

/// Whether a descriptor names this description.
pub(crate) fn is_description(number: Option<u16>, description: u16) -> bool
    ensures { result ≡ names_description description number }
{
    match number {
        Some(number) => number == description,
        None => false,
    }
}
