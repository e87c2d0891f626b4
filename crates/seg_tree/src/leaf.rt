//! The key of a page is put at a page number of a space.

ghost use Rattle.std.specs.Prelude.{◌≡◌, ℕ, ◌+◌, ◌*◌, ◌/◌, ◌%◌, ◌<◌, ◌≤◌, ◌^◌, IsSome, Some, List, [], ◌∷◌};
ghost use Rattle.kn_base.specs.Memory.{Memory};
ghost use Rattle.kernel_tables.specs.Kernel.{Kernel, kernel_of, Sized, IsSized};
ghost use Rattle.space_bank.specs.Bank.{BankGood};
ghost use Rattle.space_bank.specs.Shares.{Outside};
ghost use Rattle.forest.specs.Objects.{Object, NodeObject, named};
ghost use Rattle.forest.specs.Forest.{IsSpace, FitsUnder};
ghost use Rattle.kernel_forest.specs.Trees.{forest_of, node_tree, TreesGood};
ghost use Rattle.seg_tree.specs.Blocks.{ChangesAtMost};
ghost use Rattle.seg_tree.specs.Leaves.{PutsLeaf};

use super::descent::own_node;
use super::steps::{put_key, tree_key};
use kernel_tables::{Entry, NodeOwner, node_entry};
use kn_base::{Key, NodeId, Store};

/// Whose tree a node belongs to.
pub fn tree_owner<T: Store>(store: &T, node: NodeId) -> NodeOwner
    requires good { BankGood (kernel_of (T.memory store.now)) }
    requires owned { IsSome ((forest_of (kernel_of (T.memory store.now))).owner (NodeObject node.0)) }
    ensures { (forest_of (kernel_of (T.memory store.now))).owner (NodeObject node.0) ≡ node_tree result }
{
    match node_entry(store, node) {
        Entry::Taken { owner, .. } => owner,
        _ => NodeOwner::Tree,
    }
}

/// Puts the key of a page, or Null, at a page number on the space's own way. The key that stood there is in hand.
pub fn put_leaf<T: Store>(store: &mut T, space: NodeId, page: u32, key: Key) -> Key
    requires good { BankGood (kernel_of (T.memory store.old)) }
    requires trees { (outside : Outside) × TreesGood (kernel_of (T.memory store.old)) outside (key ∷ []) }
    requires space { IsSpace (forest_of (kernel_of (T.memory store.old))) [] space.0 }
    requires page { page < 2 ^ 19 }
    requires fits { FitsUnder 1 key }
    requires owners { let forest = forest_of (kernel_of (T.memory store.old)) in (object : Object) → named key ≡ Some object → forest.owner object ≡ forest.owner (NodeObject space.0) }
    requires room { let old = kernel_of (T.memory store.old) in old.machine.nodes_taken + 19 ≤ old.nodes }
    ensures put { PutsLeaf (kernel_of (T.memory store.old)) (kernel_of (T.memory store.new)) space.0 page key result }
    ensures good { BankGood (kernel_of (T.memory store.new)) }
    ensures blocks { ChangesAtMost (T.blocks store.old) (T.blocks store.new) 85 }
    ensures keeps { T.keeps store.old store.new }
{
    let owner = tree_owner(store, space);
    let node = own_node(store, space, 4, page / 16, owner);
    let was = tree_key(store, node, (page % 16) as u8);
    put_key(store, node, (page % 16) as u8, key);
    was
}
