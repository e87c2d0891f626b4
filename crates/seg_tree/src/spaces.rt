//! Address spaces: trees of nodes over pages.

ghost use Rattle.std.specs.Prelude.{◌≡◌, ℕ, ◌+◌, ◌-◌, ◌*◌, ◌/◌, ◌%◌, ◌<◌, ◌≤◌, ◌^◌, IsSome, Some, None, false, List, []};
ghost use Rattle.kn_base.specs.declared.key.Key.{Key};
ghost use Rattle.kn_base.specs.Memory.{Memory};
ghost use Rattle.kernel_tables.specs.Kernel.{Kernel, kernel_of, Sized, IsSized};
ghost use Rattle.space_bank.specs.Bank.{BankGood};
ghost use Rattle.space_bank.specs.Shares.{Outside};
ghost use Rattle.unix_model.specs.Tables.{at, with_at};
ghost use Rattle.forest.specs.Objects.{NodeObject, Owner, named};
ghost use Rattle.forest.specs.Walks.{digits, map_of, Mapping, place_of};
ghost use Rattle.forest.specs.Forest.{IsSpace};
ghost use Rattle.kernel_forest.specs.Trees.{forest_of, node_tree, TreesGood, IsTreeKey};
ghost use Rattle.seg_tree.specs.Blocks.{ChangesAtMost};
ghost use Rattle.seg_tree.specs.Promises.{Remaps, Adds};
ghost use Rattle.seg_tree.specs.Ways.{HasOwnWay, KeepsWays, KeepsOtherWays};

use super::leaf::{put_leaf, tree_owner};
use super::steps::{copy_keys, lower_leaf, put_key, raise_key, take_tree_node};
use super::walk::find;
use kernel_tables::NodeOwner;
use kn_base::{Key, NodeId, PageId, Store};

/// An address space, by the node that is its root.
#[derive(Clone, Copy, Debug, PartialEq, Eq)]
pub struct Space(pub NodeId);

/// Maps the page of zeros at a page number below 2^19 where nothing is mapped, on a way that is the space's own then. It takes at
/// most four nodes, none where the way was own already, and no page.
pub fn map_zero<T: Store>(store: &mut T, space: Space, page: u32, writable: bool)
    requires good { BankGood (kernel_of (T.memory store.old)) }
    requires trees { (outside : Outside) × TreesGood (kernel_of (T.memory store.old)) outside [] }
    requires space { IsSpace (forest_of (kernel_of (T.memory store.old))) [] space.0.0 }
    requires page { page < 2 ^ 19 }
    requires unmapped { map_of (forest_of (kernel_of (T.memory store.old))).keys space.0.0 page ≡ None }
    requires room { let old = kernel_of (T.memory store.old) in old.machine.nodes_taken + 19 ≤ old.nodes }
    ensures mapped { let old = kernel_of (T.memory store.old) in Remaps old (kernel_of (T.memory store.new)) space.0.0 4 (with_at (map_of (forest_of old).keys space.0.0) page (Some (record { writable = writable; page = 0 }))) }
    ensures own_way { HasOwnWay (kernel_of (T.memory store.new)) space.0.0 page }
    ensures no_node { let old = kernel_of (T.memory store.old) in HasOwnWay old space.0.0 page → (kernel_of (T.memory store.new)).machine.nodes_taken ≡ old.machine.nodes_taken }
    ensures good { BankGood (kernel_of (T.memory store.new)) }
    ensures blocks { ChangesAtMost (T.blocks store.old) (T.blocks store.new) 85 }
    ensures keeps { T.keeps store.old store.new }
{
    let key = Key::Page {
        id: PageId(0),
        writable,
    };
    put_leaf(store, space.0, page, key);
}

/// Makes a page that is mapped at a page number below 2^19 read-only there. It takes at most four nodes, none where the way to the
/// page is the space's own, and it takes and gives back no page.
pub fn protect<T: Store>(store: &mut T, space: Space, page: u32)
    requires good { BankGood (kernel_of (T.memory store.old)) }
    requires trees { (outside : Outside) × TreesGood (kernel_of (T.memory store.old)) outside [] }
    requires space { IsSpace (forest_of (kernel_of (T.memory store.old))) [] space.0.0 }
    requires page { page < 2 ^ 19 }
    requires mapped { IsSome (map_of (forest_of (kernel_of (T.memory store.old))).keys space.0.0 page) }
    requires room { let old = kernel_of (T.memory store.old) in old.machine.nodes_taken + 19 ≤ old.nodes }
    ensures protected { let old = kernel_of (T.memory store.old) in let map = map_of (forest_of old).keys space.0.0 in (found : Mapping) → map page ≡ Some found → Remaps old (kernel_of (T.memory store.new)) space.0.0 4 (with_at map page (Some (record found { writable = false }))) }
    ensures no_node { let old = kernel_of (T.memory store.old) in HasOwnWay old space.0.0 page → (kernel_of (T.memory store.new)).machine.nodes_taken ≡ old.machine.nodes_taken }
    ensures good { BankGood (kernel_of (T.memory store.new)) }
    ensures blocks { ChangesAtMost (T.blocks store.old) (T.blocks store.new) 87 }
    ensures keeps { T.keeps store.old store.new }
{
    match find(store, space, page) {
        Some(found) => {
            let key = Key::Page {
                id: found.page,
                writable: false,
            };
            raise_key(store, key);
            put_leaf(store, space.0, page, key);
            lower_leaf(store, found.page);
        }
        None => {}
    }
}

/// A space in which nothing is mapped, with a key for its keeper, which names nothing that is counted. It takes one node, and
/// its one key is the caller's.
pub fn new_space<T: Store>(store: &mut T, owner: NodeOwner, keeper: Key) -> Space
    requires good { BankGood (kernel_of (T.memory store.old)) }
    requires tree { IsSome (node_tree owner) }
    requires trees { (outside : Outside) × TreesGood (kernel_of (T.memory store.old)) outside [] }
    requires keeper { named keeper ≡ None }
    requires of_tree { IsTreeKey keeper }
    requires room { let old = kernel_of (T.memory store.old) in old.machine.nodes_taken + 15 < old.nodes }
    ensures added { Adds (kernel_of (T.memory store.old)) (kernel_of (T.memory store.new)) result.0.0 (node_tree owner) keeper (λ page. None) }
    ensures ways { KeepsWays (kernel_of (T.memory store.old)) (kernel_of (T.memory store.new)) }
    ensures good { BankGood (kernel_of (T.memory store.new)) }
    ensures blocks { ChangesAtMost (T.blocks store.old) (T.blocks store.new) 3 }
    ensures keeps { T.keeps store.old store.new }
{
    let root = take_tree_node(store, owner);
    put_key(store, root, 15, keeper);
    Space(root)
}

/// A space with the same map, which shares all that stands below the first one's root. It takes one node and no page, and its
/// one key is the caller's.
pub fn share<T: Store>(store: &mut T, space: Space) -> Space
    requires good { BankGood (kernel_of (T.memory store.old)) }
    requires trees { (outside : Outside) × TreesGood (kernel_of (T.memory store.old)) outside [] }
    requires space { IsSpace (forest_of (kernel_of (T.memory store.old))) [] space.0.0 }
    requires room { let old = kernel_of (T.memory store.old) in old.machine.nodes_taken + 15 < old.nodes }
    ensures shared { let old = kernel_of (T.memory store.old) in let forest = forest_of old in Adds old (kernel_of (T.memory store.new)) result.0.0 (forest.owner (NodeObject space.0.0)) (at forest.keys (place_of space.0.0 15)) (map_of forest.keys space.0.0) }
    ensures ways { KeepsOtherWays (kernel_of (T.memory store.old)) (kernel_of (T.memory store.new)) space.0.0 }
    ensures good { BankGood (kernel_of (T.memory store.new)) }
    ensures blocks { ChangesAtMost (T.blocks store.old) (T.blocks store.new) 19 }
    ensures keeps { T.keeps store.old store.new }
{
    let owner = tree_owner(store, space.0);
    let root = take_tree_node(store, owner);
    copy_keys(store, space.0, root);
    Space(root)
}
