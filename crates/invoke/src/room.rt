//! The resume room, in which each domain that waits has the key that answers its call.

ghost use Rattle.std.specs.Prelude.{◌≡◌, ℕ, ◌<◌, ◌≤◌, ◌+◌, ◌*◌, ◌/◌, ◌%◌, true, [], ◌∷◌};
ghost use Rattle.kn_base.specs.declared.key.Key.TheVariants.{Null, Resume};
ghost use Rattle.kn_base.specs.Memory.{Memory};
ghost use Rattle.kernel_tables.specs.declared.entry.NodeOwner.TheVariants.{Domain};
ghost use Rattle.kernel_tables.specs.declared.entry.Entry.TheVariants.{Taken};
ghost use Rattle.kernel_tables.specs.Kernel.{Kernel, kernel_of};
ghost use Rattle.kernel_tables.specs.Rows.{entry_at};
ghost use Rattle.kernel_tables.specs.Blocks.{key_block, node_entry_block, ChangesBlocks};
ghost use Rattle.space_bank.specs.Bank.{BankGood};
ghost use Rattle.kernel_forest.specs.Moves.{PutsRow};
ghost use Rattle.unix_model.specs.Tables.{at};
ghost use Rattle.domain.specs.Domains.{domains, lives};
ghost use Rattle.domain.specs.Keys.{meter_in};
ghost use Rattle.invoke.specs.Room.{room, slot_in, Seats};

use kernel_tables::key_at;
use kn_base::{Key, NodeId, Store};
use space_bank::{lower_node, raise_node, write_key};

// The slot that a Meter key names, and 0 for any other key.
fn meter_in(key: Key) -> u8
    ensures { result ≡ meter_in key }
{
    match key {
        Key::Meter { slot } => slot,
        _ => 0,
    }
}

/// The slot of the domain of a root.
pub fn slot_of<T: Store>(store: &T, root: NodeId) -> u8
    requires good { BankGood (kernel_of (T.memory store.now)) }
    requires live { (at (domains (kernel_of (T.memory store.now))) root.0).live ≡ true }
    ensures { result ≡ slot_in (kernel_of (T.memory store.now)) root.0 }
{
    match key_at(store, root, 2) {
        Some(key) => meter_in(key),
        None => 0,
    }
}

// Writes a key at the place of a slot.
fn put_room<T: Store>(store: &mut T, slot: u8, key: Key)
    requires good { BankGood (kernel_of (T.memory store.old)) }
    requires slot { slot < 64 }
    ensures put { PutsRow (kernel_of (T.memory store.old)) (kernel_of (T.memory store.new)) (7 + slot / 16) (slot % 16) key }
    ensures good { BankGood (kernel_of (T.memory store.new)) }
    ensures blocks { ChangesBlocks (T.blocks store.old) (T.blocks store.new) (key_block (kernel_of (T.memory store.old)).pages (7 + slot / 16) ∷ []) }
    ensures keeps { T.keeps store.old store.new }
{
    write_key(store, NodeId(7 + slot as u32 / 16), slot % 16, key);
}

/// Writes the key that answers a call at the place of a slot. It names the root of the domain that waits, which is counted once
/// more.
pub fn enter_room<T: Store>(store: &mut T, root: NodeId, slot: u8, count: u64)
    requires good { BankGood (kernel_of (T.memory store.old)) }
    requires slot { slot < 64 }
    requires empty { at (room (kernel_of (T.memory store.old))) slot ≡ Null }
    requires named { entry_at (kernel_of (T.memory store.old)).node_entries root.0 ≡ Taken Domain 1 }
    ensures seats { Seats (kernel_of (T.memory store.old)) (kernel_of (T.memory store.new)) root.0 slot 2 (Resume root count) Null }
    ensures good { BankGood (kernel_of (T.memory store.new)) }
    ensures blocks { let old = kernel_of (T.memory store.old) in ChangesBlocks (T.blocks store.old) (T.blocks store.new) (node_entry_block old.size root.0 ∷ key_block old.pages (7 + slot / 16) ∷ []) }
    ensures keeps { T.keeps store.old store.new }
{
    raise_node(store, root);
    let key = Key::Resume {
        domain: root,
        count,
    };
    put_room(store, slot, key);
}

/// Empties the place of a slot, in which the key stands that answers a call of the domain of a root.
pub fn leave_room<T: Store>(store: &mut T, root: NodeId, slot: u8)
    requires good { BankGood (kernel_of (T.memory store.old)) }
    requires slot { slot < 64 }
    requires held { let old = kernel_of (T.memory store.old) in at (room old) slot ≡ Resume root (at (lives old) root.0).count }
    requires named { entry_at (kernel_of (T.memory store.old)).node_entries root.0 ≡ Taken Domain 2 }
    ensures seats { let old = kernel_of (T.memory store.old) in Seats old (kernel_of (T.memory store.new)) root.0 slot 1 Null (Resume root (at (lives old) root.0).count) }
    ensures good { BankGood (kernel_of (T.memory store.new)) }
    ensures blocks { let old = kernel_of (T.memory store.old) in ChangesBlocks (T.blocks store.old) (T.blocks store.new) (key_block old.pages (7 + slot / 16) ∷ node_entry_block old.size root.0 ∷ []) }
    ensures keeps { T.keeps store.old store.new }
{
    put_room(store, slot, Key::Null);
    lower_node(store, root);
}
