//! A page number is unmapped, and nodes that have become empty are taken out.

ghost use Rattle.std.specs.Prelude.{◌≡◌, ◌≢◌, ℕ, ◌+◌, ◌-◌, ◌*◌, ◌/◌, ◌%◌, ◌<◌, ◌≤◌, ◌^◌, IsSome, Some, List, [], ◌∷◌};
ghost use Rattle.kn_base.specs.declared.key.Key.TheVariants.{Null};
ghost use Rattle.kn_base.specs.Memory.{Memory};
ghost use Rattle.kernel_tables.specs.Kernel.{Kernel, kernel_of, Sized, IsSized};
ghost use Rattle.space_bank.specs.Bank.{BankGood};
ghost use Rattle.space_bank.specs.Shares.{Outside};
ghost use Rattle.unix_model.specs.Tables.{at};
ghost use Rattle.forest.specs.Objects.{NodeObject, named};
ghost use Rattle.forest.specs.Walks.{digits, map_of, place_of};
ghost use Rattle.forest.specs.Forest.{IsSpace, Sound, EndsAt, OwnWay, NoneEmpty, NoneEmptyBut};
ghost use Rattle.kernel_forest.specs.Trees.{forest_of, TreesGood};
ghost use Rattle.seg_tree.specs.Blocks.{ChangesAtMost};
ghost use Rattle.seg_tree.specs.Ways.{KeepsOtherWays, KeepsMappedWays};
ghost use Rattle.seg_tree.specs.Prunes.{TakesOff, Prunes, Unmaps};

use super::empty::is_empty;
use super::leaf::put_leaf;
use super::release::release_leaf;
use super::spaces::Space;
use super::steps::put_key;
use super::walk::key_on_way;
use kn_base::{Key, NodeId, Store};
use space_bank::give_node;

// The node so many levels below a space's root on the way to a number, where one stands.
fn node_on_way<T: Store>(store: &T, space: NodeId, levels: u8, number: u32) -> NodeId
    requires good { BankGood (kernel_of (T.memory store.now)) }
    requires sound { Sound (forest_of (kernel_of (T.memory store.now))) }
    requires space { IsSpace (forest_of (kernel_of (T.memory store.now))) [] space.0 }
    requires ends { (node : ℕ) × EndsAt (forest_of (kernel_of (T.memory store.now))).keys space.0 (digits levels number) (NodeObject node) }
    ensures { EndsAt (forest_of (kernel_of (T.memory store.now))).keys space.0 (digits levels number) (NodeObject result.0) }
{
    match key_on_way(store, space, levels, number) {
        Key::Segment { id, .. } => id,
        _ => NodeId(0),
    }
}

// Takes an empty node from the one place that names it, and gives it back.
fn take_off<T: Store>(store: &mut T, above: NodeId, digit: u8, node: NodeId)
    requires good { BankGood (kernel_of (T.memory store.old)) }
    requires trees { (outside : Outside) × TreesGood (kernel_of (T.memory store.old)) outside [] }
    requires digit { digit < 16 }
    requires stands { named (at (forest_of (kernel_of (T.memory store.old))).keys (place_of above.0 digit)) ≡ Some (NodeObject node.0) }
    requires once { (forest_of (kernel_of (T.memory store.old))).count (NodeObject node.0) ≡ 1 }
    requires empty { (d : ℕ) → d < 16 → at (forest_of (kernel_of (T.memory store.old))).keys (place_of node.0 d) ≡ Null }
    ensures off { TakesOff (kernel_of (T.memory store.old)) (kernel_of (T.memory store.new)) (place_of above.0 digit) node.0 }
    ensures good { BankGood (kernel_of (T.memory store.new)) }
    ensures blocks { ChangesAtMost (T.blocks store.old) (T.blocks store.new) 4 }
    ensures keeps { T.keeps store.old store.new }
{
    put_key(store, above, digit, Key::Null);
    give_node(store, node);
}

/// Takes the nodes out that are empty, from so many levels below a space's root upwards, on an own way.
pub fn prune<T: Store>(store: &mut T, space: NodeId, levels: u8, number: u32)
    requires good { BankGood (kernel_of (T.memory store.old)) }
    requires trees { (outside : Outside) × TreesGood (kernel_of (T.memory store.old)) outside [] }
    requires space { IsSpace (forest_of (kernel_of (T.memory store.old))) [] space.0 }
    requires own { OwnWay (forest_of (kernel_of (T.memory store.old))) space.0 (digits levels number) }
    requires ends { (node : ℕ) × EndsAt (forest_of (kernel_of (T.memory store.old))).keys space.0 (digits levels number) (NodeObject node) }
    ensures pruned { Prunes (kernel_of (T.memory store.old)) (kernel_of (T.memory store.new)) }
    ensures ways { KeepsOtherWays (kernel_of (T.memory store.old)) (kernel_of (T.memory store.new)) space.0 }
    ensures mapped_ways { KeepsMappedWays (kernel_of (T.memory store.old)) (kernel_of (T.memory store.new)) space.0 }
    ensures filled { (node : ℕ) → EndsAt (forest_of (kernel_of (T.memory store.old))).keys space.0 (digits levels number) (NodeObject node) → NoneEmptyBut (forest_of (kernel_of (T.memory store.old))).keys node → NoneEmpty (forest_of (kernel_of (T.memory store.new))).keys }
    ensures good { BankGood (kernel_of (T.memory store.new)) }
    ensures blocks { ChangesAtMost (T.blocks store.old) (T.blocks store.new) (4 * levels) }
    ensures keeps { T.keeps store.old store.new }
{
    if levels == 0 {
        return;
    }
    let node = node_on_way(store, space, levels, number);
    if is_empty(store, node) {
        let above = node_on_way(store, space, levels - 1, number / 16);
        take_off(store, above, (number % 16) as u8, node);
        prune(store, space, levels - 1, number / 16);
    }
}

/// Unmaps a page that is mapped at a page number below 2^19. The page is given back where nothing else names it, and each node
/// that has become empty. It takes at most four nodes.
pub fn unmap<T: Store>(store: &mut T, space: Space, page: u32)
    requires good { BankGood (kernel_of (T.memory store.old)) }
    requires trees { (outside : Outside) × TreesGood (kernel_of (T.memory store.old)) outside [] }
    requires space { IsSpace (forest_of (kernel_of (T.memory store.old))) [] space.0.0 }
    requires page { page < 2 ^ 19 }
    requires mapped { IsSome (map_of (forest_of (kernel_of (T.memory store.old))).keys space.0.0 page) }
    requires room { let old = kernel_of (T.memory store.old) in old.machine.nodes_taken + 19 ≤ old.nodes }
    ensures unmapped { Unmaps (kernel_of (T.memory store.old)) (kernel_of (T.memory store.new)) space.0.0 page }
    ensures good { BankGood (kernel_of (T.memory store.new)) }
    ensures blocks { ChangesAtMost (T.blocks store.old) (T.blocks store.new) 104 }
    ensures keeps { T.keeps store.old store.new }
{
    let was = put_leaf(store, space.0, page, Key::Null);
    release_leaf(store, was);
    prune(store, space.0, 4, page / 16);
}
