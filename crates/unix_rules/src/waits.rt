//! What ends a wait.

ghost use Rattle.unix_rules.specs.WaitLaws.{WaitingLasts};

/// Whether a call that was sent waits lasts through the turns of others, unless they change what it waits for.
pub fn waiting_lasts()
    ensures { WaitingLasts }
{}
