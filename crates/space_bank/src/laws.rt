//! Laws of share counts, and of what is left to take.

ghost use Rattle.space_bank.specs.Laws.{PageInHandIsUnnamed, NodeInHandIsUnnamed, NothingInHand, HandSwapped, HandedOut, NoPageIsFree, NoNodeIsFree};

/// A page that is counted once and named by a key in hand stands at no place, so it may be given back.
pub fn page_in_hand_is_unnamed()
    ensures { PageInHandIsUnnamed }
{}

/// A node that is counted once and named by a key in hand stands at no place, so it may be given back.
pub fn node_in_hand_is_unnamed()
    ensures { NodeInHandIsUnnamed }
{}

/// A key that names nothing that is counted is in hand, or isn't.
pub fn nothing_in_hand()
    ensures { NothingInHand }
{}

/// The order of keys in hand doesn't matter.
pub fn hand_swapped()
    ensures { HandSwapped }
{}

/// A key in hand is handed out, to a table or a caller, and back.
pub fn handed_out()
    ensures { HandedOut }
{}

/// Where no page is free, all are taken.
pub fn no_page_is_free()
    ensures { NoPageIsFree }
{}

/// Where no node is free, all but the fixed ones are taken.
pub fn no_node_is_free()
    ensures { NoNodeIsFree }
{}
