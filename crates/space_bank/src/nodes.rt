//! Nodes are taken and given back.

ghost use Rattle.std.specs.Prelude.{◌≡◌, ℕ, ◌<◌, ◌≤◌, ◌+◌, ◌*◌, ◌^◌, MatchOption, IfSome, Some, length, replicate, [], ◌∷◌};
ghost use Rattle.kn_base.specs.declared.key.Key.TheVariants.{Null};
ghost use Rattle.kn_base.specs.Rows.{overwritten};
ghost use Rattle.kn_base.specs.Memory.{Memory};
ghost use Rattle.kernel_tables.specs.Kernel.{Kernel, kernel_of, Sized, IsSized};
ghost use Rattle.kernel_tables.specs.Blocks.{machine_block, node_entry_block, key_block, ChangesBlocks};
ghost use Rattle.space_bank.specs.Shares.{PutsNodeInHand, TakesNodeOutOfHand, node_places};
ghost use Rattle.space_bank.specs.Fixed.{FixedNodes};
ghost use Rattle.kernel_tables.specs.Rows.{entry_at};
ghost use Rattle.space_bank.specs.FreeList.{is_free};
ghost use Rattle.space_bank.specs.Bank.{BankGood, NoneFree, IsFirstFree, TakesNode, IsTakenOnce, node_taken, node_given};

use super::entries::next_node;
use kernel_tables::{
    Entry, NodeOwner, free_node, node_entry, nodes_taken, set_free_node, set_key_at,
    set_node_entry, set_nodes_taken,
};
use kn_base::{Key, NodeId, Store};

// The first free node.
fn first_free_node<T: Store>(store: &T) -> Option<NodeId>
    requires { BankGood (kernel_of (T.memory store.now)) }
    ensures first { let kernel = kernel_of (T.memory store.now) in MatchOption result (NoneFree kernel.node_entries kernel.nodes) (λ node. IsFirstFree kernel.node_entries 0 kernel.nodes kernel.machine.free_node node.0) }
    ensures few_nodes { (kernel_of (T.memory store.now)).machine.nodes_taken < 2 ^ 31 }
{
    let node = free_node(store);
    if node == 0 {
        return None;
    }
    Some(NodeId(node))
}

// Takes a node off the head of the free list.
fn use_node<T: Store>(store: &mut T, node: NodeId, owner: NodeOwner)
    requires sized { Sized (kernel_of (T.memory store.old)) }
    requires inside { node.0 < (kernel_of (T.memory store.old)).nodes }
    requires few_nodes { (kernel_of (T.memory store.old)).machine.nodes_taken < 2 ^ 31 }
    ensures written { kernel_of (T.memory store.new) ≡ node_taken (kernel_of (T.memory store.old)) node.0 owner }
    ensures blocks { ChangesBlocks (T.blocks store.old) (T.blocks store.new) (node_entry_block (kernel_of (T.memory store.old)).size node.0 ∷ machine_block ∷ []) }
    ensures keeps { T.keeps store.old store.new }
{
    let next = next_node(node_entry(store, node));
    set_node_entry(store, node, Entry::Taken { owner, count: 1 });
    set_free_node(store, next);
    let taken = nodes_taken(store) + 1;
    set_nodes_taken(store, taken);
}

/// Takes a free node. It holds Null keys and has share count 1. None comes exactly where no node is free.
pub fn take_node<T: Store>(store: &mut T, owner: NodeOwner) -> Option<NodeId>
    requires { BankGood (kernel_of (T.memory store.old)) }
    ensures taken { let old = kernel_of (T.memory store.old) in let new = kernel_of (T.memory store.new) in MatchOption result (NoneFree old.node_entries old.nodes × (new ≡ old)) (λ node. TakesNode old new node.0 owner) }
    ensures shares { IfSome result (λ node. PutsNodeInHand (kernel_of (T.memory store.old)) (kernel_of (T.memory store.new)) node.0) }
    ensures good { BankGood (kernel_of (T.memory store.new)) }
    ensures blocks { MatchOption result (T.blocks store.new ≡ T.blocks store.old) (λ node. ChangesBlocks (T.blocks store.old) (T.blocks store.new) (node_entry_block (kernel_of (T.memory store.old)).size node.0 ∷ machine_block ∷ [])) }
    ensures keeps { T.keeps store.old store.new }
{
    match first_free_node(store) {
        Some(node) => {
            use_node(store, node, owner);
            Some(node)
        }
        None => None,
    }
}

// Makes all sixteen keys of a node Null.
#[tactic(auto, using(kn_base::proofs::RowLaws::writes))]
fn clear_keys<T: Store>(store: &mut T, node: NodeId)
    requires inside { node.0 < (kernel_of (T.memory store.old)).nodes }
    requires keys { 16 * node.0 + 16 ≤ length (kernel_of (T.memory store.old)).keys }
    ensures cleared { kernel_of (T.memory store.new) ≡ record (kernel_of (T.memory store.old)) { keys = overwritten (kernel_of (T.memory store.old)).keys (16 * node.0) (replicate 16 (Some Null)) } }
    ensures blocks { ChangesBlocks (T.blocks store.old) (T.blocks store.new) (key_block (kernel_of (T.memory store.old)).pages node.0 ∷ []) }
    ensures keeps { T.keeps store.old store.new }
{
    for place in 0..16 {
        set_key_at(store, node, place, Key::Null);
    }
}

// Makes a node's keys Null and puts it at the head of the free list.
fn free_up<T: Store>(store: &mut T, node: NodeId)
    requires sized { Sized (kernel_of (T.memory store.old)) }
    requires inside { node.0 < (kernel_of (T.memory store.old)).nodes }
    requires keys { 16 * node.0 + 16 ≤ length (kernel_of (T.memory store.old)).keys }
    requires some_node { 1 ≤ (kernel_of (T.memory store.old)).machine.nodes_taken }
    ensures written { kernel_of (T.memory store.new) ≡ node_given (kernel_of (T.memory store.old)) node.0 }
    ensures blocks { ChangesBlocks (T.blocks store.old) (T.blocks store.new) (key_block (kernel_of (T.memory store.old)).pages node.0 ∷ node_entry_block (kernel_of (T.memory store.old)).size node.0 ∷ machine_block ∷ []) }
    ensures keeps { T.keeps store.old store.new }
{
    clear_keys(store, node);
    let next = free_node(store);
    set_node_entry(store, node, Entry::Free { next });
    set_free_node(store, node.0);
    let taken = nodes_taken(store) - 1;
    set_nodes_taken(store, taken);
}

/// Gives a taken node with share count 1 back, which no key names. Its keys become Null.
pub fn give_node<T: Store>(store: &mut T, node: NodeId)
    requires good { BankGood (kernel_of (T.memory store.old)) }
    requires inside { node.0 < (kernel_of (T.memory store.old)).nodes }
    requires taken { IsTakenOnce (entry_at (kernel_of (T.memory store.old)).node_entries node.0) }
    requires unnamed { node_places (kernel_of (T.memory store.old)).keys node.0 ≡ 0 }
    ensures given { kernel_of (T.memory store.new) ≡ node_given (kernel_of (T.memory store.old)) node.0 }
    ensures shares { TakesNodeOutOfHand (kernel_of (T.memory store.old)) (kernel_of (T.memory store.new)) node.0 }
    ensures fixed { FixedNodes (kernel_of (T.memory store.old)).keys → FixedNodes (kernel_of (T.memory store.new)).keys }
    ensures good { BankGood (kernel_of (T.memory store.new)) }
    ensures blocks { ChangesBlocks (T.blocks store.old) (T.blocks store.new) (key_block (kernel_of (T.memory store.old)).pages node.0 ∷ node_entry_block (kernel_of (T.memory store.old)).size node.0 ∷ machine_block ∷ []) }
    ensures keeps { T.keeps store.old store.new }
{
    free_up(store, node);
}
