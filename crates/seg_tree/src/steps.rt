//! The steps of which calls on spaces are made.

ghost use Rattle.std.specs.Prelude.{◌≡◌, ℕ, ◌+◌, ◌*◌, ◌<◌, ◌≤◌, ◌≢◌, Bool, IsSome, Some, [], ◌∷◌};
ghost use Rattle.kn_base.specs.declared.key.Key.TheVariants.{Null, Page, Segment};
ghost use Rattle.kn_base.specs.Memory.{Memory};
ghost use Rattle.kernel_tables.specs.Kernel.{Kernel, kernel_of, Sized, IsSized};
ghost use Rattle.space_bank.specs.Bank.{BankGood};
ghost use Rattle.unix_model.specs.Tables.{at};
ghost use Rattle.forest.specs.Objects.{PageObject, NodeObject, Owner};
ghost use Rattle.forest.specs.Walks.{place_of};
ghost use Rattle.kernel_forest.specs.Trees.{forest_of, node_tree, IsTreeKey};
ghost use Rattle.kernel_tables.specs.Rows.{key_table};
ghost use Rattle.kernel_forest.specs.Moves.{MayRaise, RaisesKey, PutsKey, TakesFresh, LowersKey, Changes};
ghost use Rattle.kernel_tables.specs.Blocks.{key_block, ChangesBlocks};
ghost use Rattle.seg_tree.specs.Blocks.{ChangesBeside, ChangesAtMost};
ghost use Rattle.seg_tree.specs.Steps.{MayCopyKey, MayCopy, key_copied, copying, segment_of, MayOwn, FreshChild, OwnsChild};

use kernel_tables::{NodeOwner, key_at};
use kn_base::{Key, NodeId, PageId, Store};
use space_bank::{
    lower_node, lower_page, node_count, raise_node, raise_page, take_node, write_key,
};

/// The key at a place of a node, and Null where none is spelled.
#[tactic(auto, unfolding(kernel_tables::specs::Rows::key_table))]
pub fn spelled_key<T: Store>(store: &T, node: NodeId, digit: u8) -> Key
    requires node { node.0 < (kernel_of (T.memory store.now)).nodes }
    requires digit { digit < 16 }
    ensures { result ≡ key_table (kernel_of (T.memory store.now)).keys (16 * node.0 + digit) }
{
    match key_at(store, node, digit) {
        Some(key) => key,
        None => Key::Null,
    }
}

/// The key at a place of a node of a tree.
pub fn tree_key<T: Store>(store: &T, node: NodeId, digit: u8) -> Key
    requires good { BankGood (kernel_of (T.memory store.now)) }
    requires owned { IsSome ((forest_of (kernel_of (T.memory store.now))).owner (NodeObject node.0)) }
    requires digit { digit < 16 }
    ensures { result ≡ at (forest_of (kernel_of (T.memory store.now))).keys (place_of node.0 digit) }
{
    spelled_key(store, node, digit)
}

/// Counts once more what a key of a tree names.
pub fn raise_key<T: Store>(store: &mut T, key: Key)
    requires good { BankGood (kernel_of (T.memory store.old)) }
    requires of_tree { IsTreeKey key }
    requires may { MayRaise (forest_of (kernel_of (T.memory store.old))) key }
    ensures raised { RaisesKey (kernel_of (T.memory store.old)) (kernel_of (T.memory store.new)) key }
    ensures good { BankGood (kernel_of (T.memory store.new)) }
    ensures blocks { ChangesAtMost (T.blocks store.old) (T.blocks store.new) 1 }
    ensures keeps { T.keeps store.old store.new }
{
    match key {
        Key::Page { id, .. } => {
            if id.0 != 0 {
                raise_page(store, id);
            }
        }
        Key::Segment { id, .. } => raise_node(store, id),
        _ => {}
    }
}

/// Writes a key at a place of a node of a tree.
pub fn put_key<T: Store>(store: &mut T, node: NodeId, digit: u8, key: Key)
    requires good { BankGood (kernel_of (T.memory store.old)) }
    requires owned { IsSome ((forest_of (kernel_of (T.memory store.old))).owner (NodeObject node.0)) }
    requires digit { digit < 16 }
    requires of_tree { IsTreeKey key }
    requires was_of_tree { IsTreeKey (at (forest_of (kernel_of (T.memory store.old))).keys (place_of node.0 digit)) }
    ensures put { PutsKey (kernel_of (T.memory store.old)) (kernel_of (T.memory store.new)) (place_of node.0 digit) key }
    ensures good { BankGood (kernel_of (T.memory store.new)) }
    ensures blocks { ChangesBlocks (T.blocks store.old) (T.blocks store.new) (key_block (kernel_of (T.memory store.old)).pages node.0 ∷ []) }
    ensures keeps { T.keeps store.old store.new }
{
    write_key(store, node, digit, key);
}

/// Takes a node for a tree.
pub fn take_tree_node<T: Store>(store: &mut T, owner: NodeOwner) -> NodeId
    requires good { BankGood (kernel_of (T.memory store.old)) }
    requires room { let old = kernel_of (T.memory store.old) in old.machine.nodes_taken + 15 < old.nodes }
    ensures taken { (to : Owner) → node_tree owner ≡ Some to → TakesFresh (kernel_of (T.memory store.old)) (kernel_of (T.memory store.new)) result.0 to }
    ensures good { BankGood (kernel_of (T.memory store.new)) }
    ensures blocks { ChangesAtMost (T.blocks store.old) (T.blocks store.new) 2 }
    ensures keeps { T.keeps store.old store.new }
{
    match take_node(store, owner) {
        Some(node) => node,
        None => NodeId(0),
    }
}

/// Counts a node of a tree once less, which is counted more than once.
pub fn lower_key<T: Store>(store: &mut T, node: NodeId)
    requires good { BankGood (kernel_of (T.memory store.old)) }
    requires owned { IsSome ((forest_of (kernel_of (T.memory store.old))).owner (NodeObject node.0)) }
    requires shared { 2 ≤ (forest_of (kernel_of (T.memory store.old))).count (NodeObject node.0) }
    ensures lowered { (height : ℕ) → LowersKey (kernel_of (T.memory store.old)) (kernel_of (T.memory store.new)) (Segment node height) }
    ensures good { BankGood (kernel_of (T.memory store.new)) }
    ensures blocks { ChangesAtMost (T.blocks store.old) (T.blocks store.new) 1 }
    ensures keeps { T.keeps store.old store.new }
{
    lower_node(store, node);
}

/// Counts a page of a tree once less, which is counted more than once, unless it is page 0, which is not counted.
pub fn lower_leaf<T: Store>(store: &mut T, page: PageId)
    requires good { BankGood (kernel_of (T.memory store.old)) }
    requires owned { page.0 ≢ 0 → IsSome ((forest_of (kernel_of (T.memory store.old))).owner (PageObject page.0)) }
    requires shared { page.0 ≢ 0 → 2 ≤ (forest_of (kernel_of (T.memory store.old))).count (PageObject page.0) }
    ensures lowered { (writable : Bool) → LowersKey (kernel_of (T.memory store.old)) (kernel_of (T.memory store.new)) (Page page writable) }
    ensures good { BankGood (kernel_of (T.memory store.new)) }
    ensures blocks { ChangesAtMost (T.blocks store.old) (T.blocks store.new) 1 }
    ensures keeps { T.keeps store.old store.new }
{
    if page.0 != 0 {
        lower_page(store, page);
    }
}

// Copies a key of a node to an empty place of another one.
fn copy_key<T: Store>(store: &mut T, from: NodeId, to: NodeId, digit: u8)
    requires good { BankGood (kernel_of (T.memory store.old)) }
    requires digit { digit < 16 }
    requires may { MayCopyKey (forest_of (kernel_of (T.memory store.old))) from.0 to.0 digit }
    ensures copied { let old = kernel_of (T.memory store.old) in Changes old (kernel_of (T.memory store.new)) (key_copied (forest_of old) (at (forest_of old).keys (place_of from.0 digit)) (place_of to.0 digit)) 0 }
    ensures good { BankGood (kernel_of (T.memory store.new)) }
    ensures blocks { ChangesBeside (T.blocks store.old) (T.blocks store.new) (key_block (kernel_of (T.memory store.old)).pages to.0 ∷ []) 1 }
    ensures keeps { T.keeps store.old store.new }
{
    let key = tree_key(store, from, digit);
    raise_key(store, key);
    put_key(store, to, digit, key);
}

/// Copies the keys of a node of a tree to another one, which has none.
pub fn copy_keys<T: Store>(store: &mut T, from: NodeId, to: NodeId)
    requires good { BankGood (kernel_of (T.memory store.old)) }
    requires may { MayCopy (forest_of (kernel_of (T.memory store.old))) from.0 to.0 }
    ensures copied { let old = kernel_of (T.memory store.old) in Changes old (kernel_of (T.memory store.new)) (copying (forest_of old) from.0 to.0 16) 0 }
    ensures good { BankGood (kernel_of (T.memory store.new)) }
    ensures blocks { ChangesAtMost (T.blocks store.old) (T.blocks store.new) 17 }
    ensures keeps { T.keeps store.old store.new }
{
    for digit in 0..16 {
        copy_key(store, from, to, digit);
    }
}

/// The node for which a key stands.
pub fn segment_of(key: Key) -> Option<NodeId>
    ensures { result ≡ segment_of key }
{
    match key {
        Key::Segment { id, .. } => Some(id),
        _ => None,
    }
}

// Puts a copy of a shared node in its place.
fn copy_child<T: Store>(
    store: &mut T,
    node: NodeId,
    digit: u8,
    child: NodeId,
    height: u8,
    owner: NodeOwner,
) -> NodeId
    requires good { BankGood (kernel_of (T.memory store.old)) }
    requires room { let old = kernel_of (T.memory store.old) in old.machine.nodes_taken + 15 < old.nodes }
    requires may { (to : Owner) × (node_tree owner ≡ Some to) × MayOwn (forest_of (kernel_of (T.memory store.old))) node.0 digit height to }
    requires stands { at (forest_of (kernel_of (T.memory store.old))).keys (place_of node.0 digit) ≡ Segment child height }
    requires shared { 2 ≤ (forest_of (kernel_of (T.memory store.old))).count (NodeObject child.0) }
    ensures fresh { (to : Owner) → node_tree owner ≡ Some to → FreshChild (kernel_of (T.memory store.old)) (kernel_of (T.memory store.new)) (place_of node.0 digit) height to result.0 }
    ensures good { BankGood (kernel_of (T.memory store.new)) }
    ensures blocks { ChangesAtMost (T.blocks store.old) (T.blocks store.new) 21 }
    ensures keeps { T.keeps store.old store.new }
{
    let fresh = take_tree_node(store, owner);
    copy_keys(store, child, fresh);
    put_key(store, node, digit, Key::Segment { id: fresh, height });
    lower_key(store, child);
    fresh
}

// Puts an empty node where none stands.
fn add_child<T: Store>(
    store: &mut T,
    node: NodeId,
    digit: u8,
    height: u8,
    owner: NodeOwner,
) -> NodeId
    requires good { BankGood (kernel_of (T.memory store.old)) }
    requires room { let old = kernel_of (T.memory store.old) in old.machine.nodes_taken + 15 < old.nodes }
    requires may { (to : Owner) × (node_tree owner ≡ Some to) × MayOwn (forest_of (kernel_of (T.memory store.old))) node.0 digit height to }
    requires empty { at (forest_of (kernel_of (T.memory store.old))).keys (place_of node.0 digit) ≡ Null }
    ensures fresh { (to : Owner) → node_tree owner ≡ Some to → FreshChild (kernel_of (T.memory store.old)) (kernel_of (T.memory store.new)) (place_of node.0 digit) height to result.0 }
    ensures good { BankGood (kernel_of (T.memory store.new)) }
    ensures blocks { ChangesAtMost (T.blocks store.old) (T.blocks store.new) 21 }
    ensures keeps { T.keeps store.old store.new }
{
    let fresh = take_tree_node(store, owner);
    put_key(store, node, digit, Key::Segment { id: fresh, height });
    fresh
}

/// The node at a place of a node, as the only one that names it: the one that stands there, a copy of it, or an empty one.
pub fn own_child<T: Store>(
    store: &mut T,
    node: NodeId,
    digit: u8,
    height: u8,
    owner: NodeOwner,
) -> NodeId
    requires good { BankGood (kernel_of (T.memory store.old)) }
    requires room { let old = kernel_of (T.memory store.old) in old.machine.nodes_taken + 15 < old.nodes }
    requires may { (to : Owner) × (node_tree owner ≡ Some to) × MayOwn (forest_of (kernel_of (T.memory store.old))) node.0 digit height to }
    ensures own { (to : Owner) → node_tree owner ≡ Some to → OwnsChild (kernel_of (T.memory store.old)) (kernel_of (T.memory store.new)) (place_of node.0 digit) height to result.0 }
    ensures good { BankGood (kernel_of (T.memory store.new)) }
    ensures blocks { ChangesAtMost (T.blocks store.old) (T.blocks store.new) 21 }
    ensures keeps { T.keeps store.old store.new }
{
    match segment_of(tree_key(store, node, digit)) {
        Some(child) => {
            if node_count(store, child) == 1 {
                child
            } else {
                copy_child(store, node, digit, child, height, owner)
            }
        }
        None => add_child(store, node, digit, height, owner),
    }
}
