//! Releasing keys: counts are lowered, and what nothing names any more is given back.

ghost use Rattle.forest.specs.Laws.{ReleaseKeepsSpaces, ReleaseKeepsWays, ReleaseGivesUnnamed, ReleaseGoesDown, ReleaseThins, ReleaseTrans};

/// Releasing keeps counts exact, and every other space stays one and keeps its map.
pub fn release_keeps_spaces()
    ensures { ReleaseKeepsSpaces }
{}

/// Releasing gives back exactly the nodes and pages that nothing names any more.
pub fn release_gives_unnamed()
    ensures { ReleaseGivesUnnamed }
{}

/// Releasing leaves each way that is a space's own as it is.
pub fn release_keeps_ways()
    ensures { ReleaseKeepsWays }
{}

/// A key that releasing takes out of a node stands lower than the node, so its height is a measure of the recursion.
pub fn release_goes_down()
    ensures { ReleaseGoesDown }
{}

/// Releasing takes keys away and lowers counts: no place has another key than before, and no count rises.
pub fn release_thins()
    ensures { ReleaseThins }
{}

/// One release after another is a release.
pub fn release_trans()
    ensures { ReleaseTrans }
{}
