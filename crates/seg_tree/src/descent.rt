//! Going down a way from a space's root, so that the way is this space's own.

ghost use Rattle.std.specs.Prelude.{◌≡◌, ℕ, ◌+◌, ◌-◌, ◌*◌, ◌/◌, ◌%◌, ◌<◌, ◌≤◌, IsSome, Some, List};
ghost use Rattle.kn_base.specs.declared.key.Key.{Key};
ghost use Rattle.kn_base.specs.Memory.{Memory};
ghost use Rattle.kernel_tables.specs.Kernel.{Kernel, kernel_of, Sized, IsSized};
ghost use Rattle.space_bank.specs.Bank.{BankGood};
ghost use Rattle.space_bank.specs.Shares.{Outside};
ghost use Rattle.forest.specs.Objects.{NodeObject, Owner};
ghost use Rattle.forest.specs.Walks.{digits};
ghost use Rattle.forest.specs.Forest.{IsSpace, top_digit};
ghost use Rattle.kernel_forest.specs.Trees.{forest_of, node_tree, TreesGood};
ghost use Rattle.seg_tree.specs.Blocks.{ChangesAtMost};
ghost use Rattle.seg_tree.specs.Steps.{Descends};

use super::steps::own_child;
use kernel_tables::NodeOwner;
use kn_base::{NodeId, Store};

/// The node so many levels below a space's root on the way to a number, after the way was made this space's own.
pub fn own_node<T: Store>(
    store: &mut T,
    space: NodeId,
    levels: u8,
    number: u32,
    owner: NodeOwner,
) -> NodeId
    requires good { BankGood (kernel_of (T.memory store.old)) }
    requires levels { levels ≤ 4 }
    requires top { top_digit (digits levels number) < 8 }
    requires room { let old = kernel_of (T.memory store.old) in old.machine.nodes_taken + levels + 15 ≤ old.nodes }
    requires trees { (outside : Outside) × (hand : List Key) × TreesGood (kernel_of (T.memory store.old)) outside hand × IsSpace (forest_of (kernel_of (T.memory store.old))) hand space.0 }
    requires owner { (forest_of (kernel_of (T.memory store.old))).owner (NodeObject space.0) ≡ node_tree owner }
    ensures way { (outside : Outside) (hand : List Key) (to : Owner) → TreesGood (kernel_of (T.memory store.old)) outside hand → IsSpace (forest_of (kernel_of (T.memory store.old))) hand space.0 → node_tree owner ≡ Some to → Descends (kernel_of (T.memory store.old)) (kernel_of (T.memory store.new)) outside hand space.0 to (digits levels number) result.0 }
    ensures good { BankGood (kernel_of (T.memory store.new)) }
    ensures blocks { ChangesAtMost (T.blocks store.old) (T.blocks store.new) (21 * levels) }
    ensures keeps { T.keeps store.old store.new }
{
    if levels == 0 {
        return space;
    }
    let above = own_node(store, space, levels - 1, number / 16, owner);
    own_child(store, above, (number % 16) as u8, 5 - levels, owner)
}
