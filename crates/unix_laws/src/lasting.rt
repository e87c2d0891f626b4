//! What lasts while a process waits for the answer to its call.

ghost use Rattle.unix_laws.specs.LastingLaws.{SentLasts, EnteredLasts};
ghost use Rattle.unix_laws.specs.WaitingLaws.{WaitsExactly};

/// A process that waits for an answer lasts through a turn of another slot.
pub fn sent_lasts()
    ensures { SentLasts }
{}

/// What the keeper would give to the call that a process has sent lasts through a turn of another slot.
pub fn entered_lasts()
    ensures { EnteredLasts }
{}

/// Which calls have to wait, and for what: none of it is the console's input.
pub fn waits_exactly()
    ensures { WaitsExactly }
{}
