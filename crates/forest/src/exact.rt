//! Stored counts stay exact while keys move between places, hand and outside.

ghost use Rattle.forest.specs.Laws.{RaiseIsExact, LowerIsExact, WriteIsExact, TakeIsExact, GiveIsExact, HandOutIsExact, HandInIsExact};

/// Raising a count puts a key in hand.
pub fn raise_is_exact()
    ensures { RaiseIsExact }
{}

/// Lowering a count takes a key out of hand.
pub fn lower_is_exact()
    ensures { LowerIsExact }
{}

/// Writing a key moves it from hand to its place, and the key that stood there to hand.
pub fn write_is_exact()
    ensures { WriteIsExact }
{}

/// A fresh object that nobody names is counted once, with its key in hand.
pub fn take_is_exact()
    ensures { TakeIsExact }
{}

/// An object that is given back is counted no more.
pub fn give_is_exact()
    ensures { GiveIsExact }
{}

/// A key in hand may be handed out of the forest, to a domain or a table.
pub fn hand_out_is_exact()
    ensures { HandOutIsExact }
{}

/// A key that a domain or a table gave up is in hand.
pub fn hand_in_is_exact()
    ensures { HandInIsExact }
{}
