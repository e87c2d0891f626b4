//! What every turn keeps to: who has to wait or is refused changes nothing else, and input is taken from its front.

ghost use Rattle.unix_laws.specs.TurnLaws.{BlockedChangesNothing, RefusalChangesPhase, InputIsSplit};

/// A turn that finds nothing to do, or that has to wait, changes nothing but the position.
pub fn blocked_changes_nothing()
    ensures { BlockedChangesNothing }
{}

/// A call that is refused, at the keeper or at a server, changes nothing but its process's phase and the position.
pub fn refusal_changes_phase()
    ensures { RefusalChangesPhase }
{}

/// What a turn takes from the input is its front, and what it leaves is the rest.
pub fn input_is_split()
    ensures { InputIsSplit }
{}
