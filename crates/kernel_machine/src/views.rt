//! Laws of the flat state that a machine stands for.

ghost use Rattle.kernel_machine.specs.Laws.{DescriptionChanged, DescriptionFreed, DomainBorn, DomainChanged, DomainGone, InodeChanged, InodeFreed, LivesUnseen, MemoryChanged, MemoryUnseen, RingChanged, TreeChanged, WordsChanged};

/// A domain changes: so does its process.
pub fn domain_changed()
    ensures { DomainChanged }
{}

/// A domain comes into a slot: so does its process.
pub fn domain_born()
    ensures { DomainBorn }
{}

/// A domain goes out of its slot: so does its process.
pub fn domain_gone()
    ensures { DomainGone }
{}

/// States and calls of domains are no part of the flat state.
pub fn lives_unseen()
    ensures { LivesUnseen }
{}

/// The row of an inode changes: so does the inode.
pub fn inode_changed()
    ensures { InodeChanged }
{}

/// The row of an inode is free: there is none.
pub fn inode_freed()
    ensures { InodeFreed }
{}

/// The row of an open description changes: so does the description.
pub fn description_changed()
    ensures { DescriptionChanged }
{}

/// The row of an open description is free: there is none.
pub fn description_freed()
    ensures { DescriptionFreed }
{}

/// Of the machine's words the next process id and the position are the state's.
pub fn words_changed()
    ensures { WordsChanged }
{}

/// The memory of the space of a process changes: so does that process.
pub fn memory_changed()
    ensures { MemoryChanged }
{}

/// The memory of a space changes that nobody has: the state is the same.
pub fn memory_unseen()
    ensures { MemoryUnseen }
{}

/// The tree of a file or directory changes: so does that inode.
pub fn tree_changed()
    ensures { TreeChanged }
{}

/// The page of a pipe gets other bytes: that pipe changes.
pub fn ring_changed()
    ensures { RingChanged }
{}
