//! What taking, counting and writing are for the forest, and how a key is handed over.

ghost use Rattle.kernel_forest.specs.Laws.{TakesTreeNode, TakesDomainNode, WritesTreeKey, WritesRow, TakesTreePage, RaisesPage, RaisesNode, CountsNodeLess, CountsPageLess, GivesDomainNode};

/// A node that is taken for a tree.
pub fn takes_tree_node()
    ensures { TakesTreeNode }
{}

/// A node that is taken for a domain changes no tree and no row.
pub fn takes_domain_node()
    ensures { TakesDomainNode }
{}

/// A key that is written in a node of a tree.
pub fn writes_tree_key()
    ensures { WritesTreeKey }
{}

/// A key that is written in another node is handed over to it, and changes no tree and one row.
pub fn writes_row()
    ensures { WritesRow }
{}

/// A page that is taken for a tree.
pub fn takes_tree_page()
    ensures { TakesTreePage }
{}

/// A page of a tree that is counted once more.
pub fn raises_tree_page()
    ensures { RaisesPage }
{}

/// A node of a tree that is counted once more.
pub fn raises_tree_node()
    ensures { RaisesNode }
{}

/// A node of a tree that is counted once less.
pub fn counts_node_less()
    ensures { CountsNodeLess }
{}

/// A page of a tree that is counted once less.
pub fn counts_page_less()
    ensures { CountsPageLess }
{}

/// A node of a domain that is given back changes no tree and no row.
pub fn gives_domain_node()
    ensures { GivesDomainNode }
{}
