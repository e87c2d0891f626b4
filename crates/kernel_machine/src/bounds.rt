//! Laws of what a good machine has left.

ghost use Rattle.kernel_machine.specs.Bounds.{BlankIsLeft, BufferIsLeft, GoodIsAccounted, HeldWithDomain, HeldWithInode, HoleIsLeft, NodesAccounted, NodesAreFree, PagesAccounted, PromisedIsFree, SharedIsLeft, TakenArePromised, UntakenIsHeld};

/// Where all that is taken is accounted for, taken pages are at most those that the flat state promises.
pub fn pages_accounted()
    ensures { PagesAccounted }
{}

/// A promised page isn't taken yet where a process holds no buffer.
pub fn buffer_is_left()
    ensures { BufferIsLeft }
{}

/// A promised page isn't taken yet where the memory of a process has a blank page.
pub fn blank_is_left()
    ensures { BlankIsLeft }
{}

/// A promised page isn't taken yet where a page of a process is no page of its own.
pub fn shared_is_left()
    ensures { SharedIsLeft }
{}

/// A promised page isn't taken yet where a file has a hole within its length.
pub fn hole_is_left()
    ensures { HoleIsLeft }
{}

/// Few nodes are taken, by the pages that the flat state promises.
pub fn nodes_accounted()
    ensures { NodesAccounted }
{}

/// All that a good machine has taken is accounted for.
pub fn good_is_accounted()
    ensures { GoodIsAccounted }
{}

/// The pages that are taken are at most those that are promised.
pub fn taken_are_promised()
    ensures { TakenArePromised }
{}

/// A page is free wherever a promised one isn't taken yet.
pub fn promised_is_free()
    ensures { PromisedIsFree }
{}

/// Enough nodes are free for any call: 65, and four for each page that isn't promised.
pub fn nodes_are_free()
    ensures { NodesAreFree }
{}

/// A domain changes and keeps its space and its buffer: what is held stays held.
pub fn held_with_domain()
    ensures { HeldWithDomain }
{}

/// The row of an inode changes and keeps its kind and its root: what is held stays held.
pub fn held_with_inode()
    ensures { HeldWithInode }
{}

/// Where nothing is taken, nobody has to hold anything.
pub fn untaken_is_held()
    ensures { UntakenIsHeld }
{}
