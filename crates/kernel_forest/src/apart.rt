//! What stays beside the trees.

ghost use Rattle.kernel_forest.specs.Laws.{PageStaysApart, NodeStaysApart};

/// A page that is taken for something else than a tree, and its bytes.
pub fn page_stays_apart()
    ensures { PageStaysApart }
{}

/// A node that is taken for something else than a tree.
pub fn node_stays_apart()
    ensures { NodeStaysApart }
{}
