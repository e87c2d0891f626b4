//! What a phase asks.

ghost use Rattle.std.specs.Prelude.{◌≡◌, ℕ};
ghost use Rattle.domain.specs.Phases.{state_for};
ghost use Rattle.domain.specs.Tests.{is_zombie, is_sent, is_done, has_ended, waits};

use super::super::types::{Phase, State};

/// The state of a domain in a phase.
pub fn state_for(phase: Phase) -> State
    ensures { result ≡ state_for phase }
{
    match phase {
        Phase::Run => State::Running,
        Phase::Asked => State::Waiting,
        Phase::Sent => State::Waiting,
        Phase::Done => State::Waiting,
        Phase::Exiting => State::Available,
        Phase::Zombie => State::Available,
    }
}

/// Whether it is that of a zombie.
pub fn is_zombie(phase: Phase) -> bool
    ensures { result ≡ is_zombie phase }
{
    match phase {
        Phase::Run => false,
        Phase::Asked => false,
        Phase::Sent => false,
        Phase::Done => false,
        Phase::Exiting => false,
        Phase::Zombie => true,
    }
}

/// Whether a request waits.
pub fn is_sent(phase: Phase) -> bool
    ensures { result ≡ is_sent phase }
{
    match phase {
        Phase::Run => false,
        Phase::Asked => false,
        Phase::Sent => true,
        Phase::Done => false,
        Phase::Exiting => false,
        Phase::Zombie => false,
    }
}

/// Whether an answer waits.
pub fn is_done(phase: Phase) -> bool
    ensures { result ≡ is_done phase }
{
    match phase {
        Phase::Run => false,
        Phase::Asked => false,
        Phase::Sent => false,
        Phase::Done => true,
        Phase::Exiting => false,
        Phase::Zombie => false,
    }
}

/// Whether the process ends, or has ended.
pub fn has_ended(phase: Phase) -> bool
    ensures { result ≡ has_ended phase }
{
    match phase {
        Phase::Run => false,
        Phase::Asked => false,
        Phase::Sent => false,
        Phase::Done => false,
        Phase::Exiting => true,
        Phase::Zombie => true,
    }
}

/// Whether the domain waits.
pub fn waits(phase: Phase) -> bool
    ensures { result ≡ waits phase }
{
    match phase {
        Phase::Run => false,
        Phase::Asked => true,
        Phase::Sent => true,
        Phase::Done => true,
        Phase::Exiting => false,
        Phase::Zombie => false,
    }
}
