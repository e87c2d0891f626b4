//! What counting less often and giving back are for the forest.

ghost use Rattle.kernel_forest.specs.Laws.{LowersPage, GivesPage, LowersNode, GivesNode};

/// A page that is counted less often is a step of a release.
pub fn lowers_page()
    ensures { LowersPage }
{}

/// A page that is given back is a step of a release.
pub fn gives_page()
    ensures { GivesPage }
{}

/// A node that is counted less often is a step of a release.
pub fn lowers_node()
    ensures { LowersNode }
{}

/// An empty node that is given back is a step of a release.
pub fn gives_node()
    ensures { GivesNode }
{}
