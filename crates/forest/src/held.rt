//! All that holds of a forest goes on to hold while it changes.

ghost use Rattle.forest.specs.Laws.{TakeKeepsHeld, RaiseKeepsHeld, WriteKeepsHeld, HandOutKeepsHeld, HandInKeepsHeld, ShareKeepsHeld, CopyKeepsHeld, HeldOutside, HeldNothing};

/// An object that nothing names is taken.
pub fn take_keeps_held()
    ensures { TakeKeepsHeld }
{}

/// A count is raised, and the key is in hand.
pub fn raise_keeps_held()
    ensures { RaiseKeepsHeld }
{}

/// A key is written where it may stand.
pub fn write_keeps_held()
    ensures { WriteKeepsHeld }
{}

/// A key in hand is handed out to a domain or a table.
pub fn hand_out_keeps_held()
    ensures { HandOutKeepsHeld }
{}

/// A key that a domain or a table gave up is in hand.
pub fn hand_in_keeps_held()
    ensures { HandInKeepsHeld }
{}

/// A key is copied to an empty place of a fresh root.
pub fn share_keeps_held()
    ensures { ShareKeepsHeld }
{}

/// A node is copied, or put where none stood.
pub fn copy_keeps_held()
    ensures { CopyKeepsHeld }
{}

/// What something outside names beside the parts of trees makes no difference.
pub fn held_outside()
    ensures { HeldOutside }
{}

/// A key that names no part of a tree is in hand, or isn't.
pub fn held_nothing()
    ensures { HeldNothing }
{}
