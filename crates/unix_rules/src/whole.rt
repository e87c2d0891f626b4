//! All rules of a state.

ghost use Rattle.unix_rules.specs.WholeRules.{AloneIsUnix, BootGivesUnix, UnixKept, RunsKept};

/// All rules of a state hold of every state that the machine comes to: boot gives them, and every turn keeps them.
pub fn unix_stays()
    ensures boot { BootGivesUnix }
    ensures turn { UnixKept }
{}

/// All rules of a state hold at the end of every run.
pub fn runs_stay()
    ensures { RunsKept }
{}

/// All rules of a state hold where one process runs alone, with no descriptor and no files but the console and the empty root.
pub fn alone_is_right()
    ensures { AloneIsUnix }
{}
