//! The steps of which calls that write in domains are made.

ghost use Rattle.std.specs.Prelude.{◌≡◌, ℕ, ◌<◌, ◌+◌, ◌/◌, ◌%◌, true, [], ◌∷◌};
ghost use Rattle.kn_base.specs.Memory.{Memory};
ghost use Rattle.kernel_tables.specs.Kernel.{Kernel, kernel_of};
ghost use Rattle.kernel_tables.specs.Rows.{entry_at, of_domain};
ghost use Rattle.kernel_tables.specs.Blocks.{key_block, machine_block, node_entry_block, ChangesBlocks};
ghost use Rattle.space_bank.specs.Bank.{BankGood};
ghost use Rattle.kernel_forest.specs.Moves.{PutsRow, TakesRow};
ghost use Rattle.space_bank.specs.FreeList.{is_free};

use kn_base::{Key, NodeId, Store};
use space_bank::{NodeOwner, take_node, write_key};

/// Writes a key at a place of a node of a domain.
pub fn put_row<T: Store>(store: &mut T, node: NodeId, place: u8, key: Key)
    requires good { BankGood (kernel_of (T.memory store.old)) }
    requires mine { of_domain (entry_at (kernel_of (T.memory store.old)).node_entries node.0) ≡ true }
    requires place { place < 16 }
    ensures put { PutsRow (kernel_of (T.memory store.old)) (kernel_of (T.memory store.new)) node.0 place key }
    ensures mine { of_domain (entry_at (kernel_of (T.memory store.new)).node_entries node.0) ≡ true }
    ensures good { BankGood (kernel_of (T.memory store.new)) }
    ensures blocks { ChangesBlocks (T.blocks store.old) (T.blocks store.new) (key_block (kernel_of (T.memory store.old)).pages node.0 ∷ []) }
    ensures keeps { T.keeps store.old store.new }
{
    write_key(store, node, place, key);
}

/// Takes a node for a domain.
pub fn take_row<T: Store>(store: &mut T) -> NodeId
    requires good { BankGood (kernel_of (T.memory store.old)) }
    requires room { let old = kernel_of (T.memory store.old) in old.machine.nodes_taken + 15 < old.nodes }
    ensures taken { TakesRow (kernel_of (T.memory store.old)) (kernel_of (T.memory store.new)) result.0 }
    ensures was_free { is_free (entry_at (kernel_of (T.memory store.old)).node_entries result.0) ≡ true }
    ensures good { BankGood (kernel_of (T.memory store.new)) }
    ensures blocks { ChangesBlocks (T.blocks store.old) (T.blocks store.new) (node_entry_block (kernel_of (T.memory store.old)).size result.0 ∷ machine_block ∷ []) }
    ensures keeps { T.keeps store.old store.new }
{
    match take_node(store, NodeOwner::Domain) {
        Some(node) => node,
        None => unreachable!(),
    }
}

/// Writes the key of a slot in the slot table.
pub fn put_slot<T: Store>(store: &mut T, slot: u8, key: Key)
    requires good { BankGood (kernel_of (T.memory store.old)) }
    requires slot { slot < 64 }
    ensures put { PutsRow (kernel_of (T.memory store.old)) (kernel_of (T.memory store.new)) (11 + slot / 16) (slot % 16) key }
    ensures good { BankGood (kernel_of (T.memory store.new)) }
    ensures blocks { ChangesBlocks (T.blocks store.old) (T.blocks store.new) (key_block (kernel_of (T.memory store.old)).pages (11 + slot / 16) ∷ []) }
    ensures keeps { T.keeps store.old store.new }
{
    write_key(store, NodeId(11 + slot as u32 / 16), slot % 16, key);
}
