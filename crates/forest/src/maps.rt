//! Changes that leave the maps of spaces as they are.

ghost use Rattle.forest.specs.Laws.{MaskedWrites, MaskedOwners, FreshKeepsMaps, DetachKeepsMaps, ShareKeepsMaps, WriteChangesOneMap, PruneKeepsMaps, UnnamedKeepsMaps};

/// Writing a key of a node that belongs to no tree leaves the forest as it is.
pub fn masked_writes()
    ensures { MaskedWrites }
{}

/// A node without keys may belong to a tree or not: the keys of the forest are the same.
pub fn masked_owners()
    ensures { MaskedOwners }
{}

/// A fresh node is put in the place of a shared node that it copies, or in an empty place: every other space keeps
/// its map.
pub fn fresh_keeps_maps()
    ensures { FreshKeepsMaps }
{}

/// The key of a node without keys is taken from its place: every space keeps its map.
pub fn detach_keeps_maps()
    ensures { DetachKeepsMaps }
{}

/// A second root over the same children has the map of the first, and every other space keeps its own.
pub fn share_keeps_maps()
    ensures { ShareKeepsMaps }
{}

/// Writing the key at the end of an own way changes the map of this space at this page number, and nothing else.
pub fn write_changes_one_map()
    ensures { WriteChangesOneMap }
{}

/// A node that has become empty is pruned: all spaces stay, and keep their maps.
pub fn prune_keeps_maps()
    ensures { PruneKeepsMaps }
{}

/// The keys of a node that nobody names make no difference to any other space.
pub fn unnamed_keeps_maps()
    ensures { UnnamedKeepsMaps }
{}
