//! No node below a root is empty between calls.

ghost use Rattle.forest.specs.Laws.{DescentLeavesLastEmpty, SpacesAreWellFormed, WriteFills, TakingAwayEmpties, ReleaseLeavesNoneEmpty, WriteElsewhereKeepsFilled, PruningEmptiesAbove};

/// Going down a way leaves no node empty but the last one.
pub fn descent_leaves_last_empty()
    ensures { DescentLeavesLastEmpty }
{}

/// Each space is well-formed where no node below a root is empty.
pub fn spaces_are_well_formed()
    ensures { SpacesAreWellFormed }
{}

/// Writing the key of a page fills its node.
pub fn write_fills()
    ensures { WriteFills }
{}

/// Taking a key away may leave its node empty, and no other one.
pub fn taking_away_empties()
    ensures { TakingAwayEmpties }
{}

/// Releasing leaves no node empty.
pub fn release_leaves_none_empty()
    ensures { ReleaseLeavesNoneEmpty }
{}

/// A key of a node with keys, written in a node that nobody names, leaves none empty.
pub fn write_elsewhere_keeps_filled()
    ensures { WriteElsewhereKeepsFilled }
{}

/// Pruning an empty node may leave the one above it empty, and no other one.
pub fn pruning_empties_above()
    ensures { PruningEmptiesAbove }
{}
