//! Keys are released: what nothing names any more is given back.

ghost use Rattle.std.specs.Prelude.{◌≡◌, ℕ, ◌+◌, ◌-◌, ◌<◌, ◌≤◌, List, [], ◌∷◌};
ghost use Rattle.kn_base.specs.declared.key.Key.TheVariants.{Page, Segment};
ghost use Rattle.kn_base.specs.Memory.{Memory};
ghost use Rattle.kernel_tables.specs.Kernel.{Kernel, kernel_of, Sized, IsSized};
ghost use Rattle.space_bank.specs.Bank.{BankGood};
ghost use Rattle.unix_model.specs.Tables.{at};
ghost use Rattle.forest.specs.Objects.{NodeObject};
ghost use Rattle.forest.specs.Walks.{place_of};
ghost use Rattle.forest.specs.Forest.{IsSpace, FitsUnder};
ghost use Rattle.space_bank.specs.Shares.{Outside};
ghost use Rattle.space_bank.specs.Laws.{and_outside};
ghost use Rattle.forest.specs.Walks.{space_key};
ghost use Rattle.kernel_forest.specs.Trees.{forest_of, TreesGood};
ghost use Rattle.kernel_forest.specs.Releases.{Lets, InHand};
ghost use Rattle.seg_tree.specs.Blocks.{ChangesAtMost};
ghost use Rattle.seg_tree.specs.Releases.{TakesOut, Empties, Leaves};
ghost use Rattle.seg_tree.specs.Promises.{Drops};

use super::spaces::Space;
use super::steps::{lower_key, put_key, tree_key};
use kn_base::{Key, NodeId, PageId, Store};
use space_bank::{give_node, give_page, lower_page, node_count, page_count};

/// Releases the key of a page.
pub fn release_page<T: Store>(store: &mut T, page: PageId, writable: bool)
    requires good { BankGood (kernel_of (T.memory store.old)) }
    requires hand { InHand (kernel_of (T.memory store.old)) (Page page writable ∷ []) }
    ensures released { Lets (kernel_of (T.memory store.old)) (kernel_of (T.memory store.new)) (Page page writable ∷ []) [] }
    ensures nodes { (kernel_of (T.memory store.new)).machine.nodes_taken ≡ (kernel_of (T.memory store.old)).machine.nodes_taken }
    ensures good { BankGood (kernel_of (T.memory store.new)) }
    ensures blocks { ChangesAtMost (T.blocks store.old) (T.blocks store.new) 3 }
    ensures keeps { T.keeps store.old store.new }
{
    if page.0 == 0 {
        return;
    }
    if page_count(store, page) == 1 {
        give_page(store, page);
    } else {
        lower_page(store, page);
    }
}

/// Releases the key of a page, or Null.
pub fn release_leaf<T: Store>(store: &mut T, key: Key)
    requires good { BankGood (kernel_of (T.memory store.old)) }
    requires hand { InHand (kernel_of (T.memory store.old)) (key ∷ []) }
    requires leaf { FitsUnder 1 key }
    ensures released { Lets (kernel_of (T.memory store.old)) (kernel_of (T.memory store.new)) (key ∷ []) [] }
    ensures nodes { (kernel_of (T.memory store.new)).machine.nodes_taken ≡ (kernel_of (T.memory store.old)).machine.nodes_taken }
    ensures good { BankGood (kernel_of (T.memory store.new)) }
    ensures blocks { ChangesAtMost (T.blocks store.old) (T.blocks store.new) 3 }
    ensures keeps { T.keeps store.old store.new }
{
    match key {
        Key::Page { id, writable } => release_page(store, id, writable),
        _ => {}
    }
}

// Takes a key out of a node in hand that is counted once. A page's key is released, the node of a node's key is handed on.
fn take_out<T: Store>(store: &mut T, node: NodeId, digit: u8, height: u8) -> Option<NodeId>
    requires good { BankGood (kernel_of (T.memory store.old)) }
    requires digit { digit < 16 }
    requires hand { InHand (kernel_of (T.memory store.old)) (Segment node height ∷ []) }
    requires once { (forest_of (kernel_of (T.memory store.old))).count (NodeObject node.0) ≡ 1 }
    requires fits { Leaves height (at (forest_of (kernel_of (T.memory store.old))).keys (place_of node.0 digit)) }
    ensures out { TakesOut (kernel_of (T.memory store.old)) (kernel_of (T.memory store.new)) node digit height result }
    ensures good { BankGood (kernel_of (T.memory store.new)) }
    ensures keeps { T.keeps store.old store.new }
{
    let key = tree_key(store, node, digit);
    put_key(store, node, digit, Key::Null);
    match key {
        Key::Page { id, writable } => {
            release_page(store, id, writable);
            None
        }
        Key::Segment { id, .. } => Some(id),
        _ => None,
    }
}

/// Releases the key of a node of a height.
pub fn release_node<T: Store>(store: &mut T, node: NodeId, height: u8)
    requires good { BankGood (kernel_of (T.memory store.old)) }
    requires hand { InHand (kernel_of (T.memory store.old)) (Segment node height ∷ []) }
    requires fits { (d : ℕ) → d < 16 → Leaves height (at (forest_of (kernel_of (T.memory store.old))).keys (place_of node.0 d)) }
    ensures released { Lets (kernel_of (T.memory store.old)) (kernel_of (T.memory store.new)) (Segment node height ∷ []) [] }
    ensures good { BankGood (kernel_of (T.memory store.new)) }
    ensures keeps { T.keeps store.old store.new }
{
    if node_count(store, node) != 1 {
        lower_key(store, node);
        return;
    }
    for digit in 0..16 {
        match take_out(store, node, digit, height) {
            Some(child) => release_node(store, child, height - 1),
            None => {}
        }
    }
    give_node(store, node);
}

/// Releases a space, whose one key the caller gives up: its nodes and pages are given back where nothing else names them.
pub fn drop_space<T: Store>(store: &mut T, space: Space)
    requires good { BankGood (kernel_of (T.memory store.old)) }
    requires trees { (outside : Outside) × TreesGood (kernel_of (T.memory store.old)) (and_outside outside (space_key space.0.0)) [] }
    requires space { IsSpace (forest_of (kernel_of (T.memory store.old))) [] space.0.0 }
    ensures dropped { Drops (kernel_of (T.memory store.old)) (kernel_of (T.memory store.new)) space.0.0 }
    ensures good { BankGood (kernel_of (T.memory store.new)) }
    ensures keeps { T.keeps store.old store.new }
{
    release_node(store, space.0, 5);
}
