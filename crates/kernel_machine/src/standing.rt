//! Laws of what stands within a turn too, and of what is settled between turns.

ghost use Rattle.kernel_machine.specs.Standing.{GoodIsBoth, OwnsLeaves, PieceLeaves, PutLeaves, RemapLeaves, ReplaceLeaves, SlotsBorn, SlotsChanged, SlotsGone, StandingWithBirth, StandingWithBuffer, StandingWithBytes, StandingWithDescription, StandingWithEnd, StandingWithGone, StandingWithInode, StandingWithLife, StandingWithMemory, StandingWithNumbers, StandingWithTree, StandingWithWords, StandingWithoutBuffer};

/// What stands, and what is settled, is all that holds between turns.
pub fn good_is_both()
    ensures { GoodIsBoth }
{}

/// Numbers are written in a domain, which keeps what it holds.
pub fn standing_with_numbers()
    ensures { StandingWithNumbers }
{}

/// Numbers are written of which domains say nothing.
pub fn standing_with_life()
    ensures { StandingWithLife }
{}

/// The row of an inode is written that keeps its kind and its root.
pub fn standing_with_inode()
    ensures { StandingWithInode }
{}

/// The row of an open description is written, or freed.
pub fn standing_with_description()
    ensures { StandingWithDescription }
{}

/// The next process id, the position or the promised pages are other ones.
pub fn standing_with_words()
    ensures { StandingWithWords }
{}

/// Bytes are written in the page of a buffer or of a pipe.
pub fn standing_with_bytes()
    ensures { StandingWithBytes }
{}

/// A call that changes a map leaves all other spaces, and whatever belongs to no tree.
pub fn remap_leaves()
    ensures { RemapLeaves }
{}

/// So does the call that takes a page out of a map, which may give it back.
pub fn replace_leaves()
    ensures { ReplaceLeaves }
{}

/// So does the call that makes a page of a space its own before it is written.
pub fn owns_leaves()
    ensures { OwnsLeaves }
{}

/// So does the call that puts bytes into one page of a space.
pub fn piece_leaves()
    ensures { PieceLeaves }
{}

/// So does the call that puts bytes into a space.
pub fn put_leaves()
    ensures { PutLeaves }
{}

/// The space of a process is another one, and all others are left.
pub fn standing_with_memory()
    ensures { StandingWithMemory }
{}

/// The tree of a file is another one, and all other spaces are left.
pub fn standing_with_tree()
    ensures { StandingWithTree }
{}

/// A process is born: a space is added, and a domain made whose space it is.
pub fn standing_with_birth()
    ensures { StandingWithBirth }
{}

/// A domain becomes a zombie.
pub fn standing_with_end()
    ensures { StandingWithEnd }
{}

/// A zombie is dropped.
pub fn standing_with_gone()
    ensures { StandingWithGone }
{}

/// Bytes are written in the buffer of a domain, for which a page may be taken.
pub fn standing_with_buffer()
    ensures { StandingWithBuffer }
{}

/// The buffer of a domain is given back.
pub fn standing_without_buffer()
    ensures { StandingWithoutBuffer }
{}

/// The domain in a slot is another one, and its life and its key fit.
pub fn slots_changed()
    ensures { SlotsChanged }
{}

/// A domain comes into a free slot, and fits.
pub fn slots_born()
    ensures { SlotsBorn }
{}

/// The domain of a slot is one no more.
pub fn slots_gone()
    ensures { SlotsGone }
{}
