//! Trees are looked at in any store whose keys may be read.

ghost use Rattle.std.specs.Prelude.{◌≡◌, ℕ, ◌<◌, ◌+◌, ◌*◌, true, Some};
ghost use Rattle.kn_base.specs.declared.key.Key.{Key};
ghost use Rattle.kn_base.specs.Memory.{Memory};
ghost use Rattle.kernel_tables.specs.Kernel.{Kernel, kernel_of, Sized, IsSized};
ghost use Rattle.kernel_tables.specs.Rows.{key_table};
ghost use Rattle.forest.specs.Objects.{NodeObject, named};
ghost use Rattle.seg_tree.specs.Checks.{NodesInRange};
ghost use Rattle.tests_spaces.specs.Ready.{IsReadable};

use kernel_tables::{bank_size, key_at, set_key_at};
use kn_base::{Key, NodeId, Store};
use seg_tree::{Space, check_space};

/// How many nodes a store has.
pub fn node_number<T: Store>(store: &T) -> u32
    requires readable { IsReadable (kernel_of (T.memory store.now)) }
    ensures { result ≡ (kernel_of (T.memory store.now)).nodes }
{
    4 * bank_size(store) + 1296
}

/// The key at a place of a node, and Null where none is spelled.
#[tactic(auto, unfolding(kernel_tables::specs::Rows::key_table))]
pub fn key_of<T: Store>(store: &T, node: NodeId, place: u8) -> Key
    requires node { node.0 < (kernel_of (T.memory store.now)).nodes }
    requires place { place < 16 }
    ensures { result ≡ key_table (kernel_of (T.memory store.now)).keys (16 * node.0 + place) }
{
    match key_at(store, node, place) {
        Some(key) => key,
        None => Key::Null,
    }
}

// Whether a key names no node past the store's.
fn is_low(key: Key, nodes: u32) -> bool
    ensures { result ≡ true → (node : ℕ) → named key ≡ Some (NodeObject node) → node < nodes }
{
    match key {
        Key::Segment { id, .. } => id.0 < nodes,
        _ => true,
    }
}

/// Whether each key of each node, whatever it is for, names no node past the store's.
pub fn keys_in_range<T: Store>(store: &T) -> bool
    requires readable { IsReadable (kernel_of (T.memory store.now)) }
    ensures { result ≡ true → NodesInRange (kernel_of (T.memory store.now)) }
{
    let nodes = node_number(store);
    for place in 0..16 * nodes {
        if !is_low(key_of(store, NodeId(place / 16), (place % 16) as u8), nodes) {
            return false;
        }
    }
    true
}

/// Whether the tree of a root is well-formed, in a store whose keys are in range.
pub fn looks_well<T: Store>(store: &T, space: Space) -> bool
    requires readable { IsReadable (kernel_of (T.memory store.now)) }
    requires node { space.0.0 < (kernel_of (T.memory store.now)).nodes }
{
    keys_in_range(store) && check_space(store, space)
}

/// Writes a key at a place of a node, whatever that breaks. False where there is no such node.
pub fn write_any<T: Store>(store: &mut T, node: NodeId, place: u8, key: Key) -> bool
    requires readable { IsReadable (kernel_of (T.memory store.old)) }
    requires place { place < 16 }
    ensures readable { IsReadable (kernel_of (T.memory store.new)) }
    ensures nodes { (kernel_of (T.memory store.new)).nodes ≡ (kernel_of (T.memory store.old)).nodes }
{
    if node.0 >= node_number(store) {
        return false;
    }
    set_key_at(store, node, place, key);
    true
}
