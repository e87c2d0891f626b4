//! Strict room: no more pages are promised than the machine has.

ghost use Rattle.unix_laws.specs.RoomLaws.{BootFits, TurnFits};

/// Boot promises no more pages than the machine has.
pub fn boot_fits()
    ensures { BootFits }
{}

/// No turn promises more pages than the machine has.
pub fn turn_fits()
    ensures { TurnFits }
{}
