//! How much goes to the console.

ghost use Rattle.unix_laws.specs.ConsoleLaws.{RunPutsFew, TurnPutsFew};

/// A turn puts at most as many bytes as one call moves.
pub fn turn_puts_few()
    ensures { TurnPutsFew }
{}

/// A run puts at most as many bytes as that for each of its turns.
pub fn run_puts_few()
    ensures { RunPutsFew }
{}
