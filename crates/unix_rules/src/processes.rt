//! Rules of processes that every turn keeps.

ghost use Rattle.unix_rules.specs.ProcessRules.{ExecutedStays, BodiesKept, KinKept, PhasesKept};

/// An instruction leaves registers and a memory that are such.
pub fn executed_stays()
    ensures { ExecutedStays }
{}

/// Every turn keeps registers, memories and breaks.
pub fn bodies_kept()
    ensures { BodiesKept }
{}

/// Every turn keeps pids and parents.
pub fn kin_kept()
    ensures { KinKept }
{}

/// Every turn keeps what the rules ask of phases.
pub fn phases_kept()
    ensures { PhasesKept }
{}
