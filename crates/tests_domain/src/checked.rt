//! Domains are looked at in any store whose keys may be read.

ghost use Rattle.std.specs.Prelude.{◌≡◌, ℕ, ◌<◌, ◌+◌, ◌*◌, true, Some};
ghost use Rattle.kn_base.specs.Memory.{Memory};
ghost use Rattle.kernel_tables.specs.Kernel.{Kernel, kernel_of, Sized, IsSized};
ghost use Rattle.kernel_tables.specs.Rows.{key_table};
ghost use Rattle.domain.specs.Checks.{KeyInRange, KeysInRange};
ghost use Rattle.tests_domain.specs.First.{IsReadable};

use domain::check_domain;
use kernel_tables::{bank_size, key_at, set_key_at};
use kn_base::{Key, NodeId, Store, bytes_of, key_of};

/// How many nodes a store has.
pub fn node_number<T: Store>(store: &T) -> u32
    requires readable { IsReadable (kernel_of (T.memory store.now)) }
    ensures { result ≡ (kernel_of (T.memory store.now)).nodes }
{
    4 * bank_size(store) + 1296
}

/// The key at a place of a node, and Null where none is spelled.
#[tactic(auto, unfolding(kernel_tables::specs::Rows::key_table))]
pub fn key_there<T: Store>(store: &T, node: NodeId, place: u8) -> Key
    requires node { node.0 < (kernel_of (T.memory store.now)).nodes }
    requires place { place < 16 }
    ensures { result ≡ key_table (kernel_of (T.memory store.now)).keys (16 * node.0 + place) }
{
    match key_at(store, node, place) {
        Some(key) => key,
        None => Key::Null,
    }
}

// Whether a key names no node and no page past so many nodes.
fn is_low(key: Key, nodes: u32) -> bool
    ensures { result ≡ true → KeyInRange nodes key }
{
    match key {
        Key::Node { id } => id.0 < nodes,
        Key::Domain { id } => id.0 < nodes,
        Key::Segment { id, .. } => id.0 < nodes,
        Key::Start { domain, .. } => domain.0 < nodes,
        Key::Resume { domain, .. } => domain.0 < nodes,
        _ => true,
    }
}

/// Whether each key, whatever node it stands in, names no node past the store's.
pub fn keys_in_range<T: Store>(store: &T) -> bool
    requires readable { IsReadable (kernel_of (T.memory store.now)) }
    ensures { result ≡ true → KeysInRange (kernel_of (T.memory store.now)) }
{
    let nodes = node_number(store);
    for place in 0..16 * nodes {
        if !is_low(
            key_there(store, NodeId(place / 16), (place % 16) as u8),
            nodes,
        ) {
            return false;
        }
    }
    true
}

/// Whether a slot is free or its domain is right, or None where some key is out of range.
pub fn looks_right<T: Store>(store: &T, slot: u8) -> Option<bool>
    requires readable { IsReadable (kernel_of (T.memory store.now)) }
    requires slot { slot < 64 }
{
    if keys_in_range(store) {
        Some(check_domain(store, slot))
    } else {
        None
    }
}

/// Writes a key at a place of a node, whatever that breaks, but one that names a node past the store's.
pub fn put_low<T: Store>(store: &mut T, node: NodeId, place: u8, key: Key)
    requires readable { IsReadable (kernel_of (T.memory store.old)) }
    requires in_range { KeysInRange (kernel_of (T.memory store.old)) }
    requires node { node.0 < (kernel_of (T.memory store.old)).nodes }
    requires place { place < 16 }
    requires low { KeyInRange (kernel_of (T.memory store.old)).nodes key }
    ensures readable { IsReadable (kernel_of (T.memory store.new)) }
    ensures in_range { KeysInRange (kernel_of (T.memory store.new)) }
    ensures nodes { (kernel_of (T.memory store.new)).nodes ≡ (kernel_of (T.memory store.old)).nodes }
{
    set_key_at(store, node, place, key);
}

/// The key whose spelling is that of another with one byte higher by 1, if there is one.
pub fn raised(key: Key, byte: u8) -> Option<Key>
    requires byte { byte < 16 }
{
    let mut bytes = bytes_of(key);
    bytes[byte as usize] = bytes[byte as usize].wrapping_add(1);
    key_of(bytes)
}

/// How a slot looks while another key stands at a place of a node, or None where that is out of range.
pub fn looks_with<T: Store>(
    store: &mut T,
    slot: u8,
    node: NodeId,
    place: u8,
    other: Key,
) -> Option<bool>
    requires readable { IsReadable (kernel_of (T.memory store.old)) }
    requires in_range { KeysInRange (kernel_of (T.memory store.old)) }
    requires slot { slot < 64 }
    requires node { node.0 < (kernel_of (T.memory store.old)).nodes }
    requires place { place < 16 }
    ensures readable { IsReadable (kernel_of (T.memory store.new)) }
    ensures in_range { KeysInRange (kernel_of (T.memory store.new)) }
    ensures nodes { (kernel_of (T.memory store.new)).nodes ≡ (kernel_of (T.memory store.old)).nodes }
{
    let key = key_there(store, node, place);
    if is_low(other, node_number(store)) {
        put_low(store, node, place, other);
        let right = check_domain(store, slot);
        put_low(store, node, place, key);
        Some(right)
    } else {
        None
    }
}

/// How a slot looks while one byte of a key is higher by 1. None where no key is spelled so, or it is out of range.
pub fn looks_damaged<T: Store>(
    store: &mut T,
    slot: u8,
    node: NodeId,
    place: u8,
    byte: u8,
) -> Option<bool>
    requires readable { IsReadable (kernel_of (T.memory store.old)) }
    requires in_range { KeysInRange (kernel_of (T.memory store.old)) }
    requires slot { slot < 64 }
    requires node { node.0 < (kernel_of (T.memory store.old)).nodes }
    requires place { place < 16 }
    requires byte { byte < 16 }
    ensures readable { IsReadable (kernel_of (T.memory store.new)) }
    ensures in_range { KeysInRange (kernel_of (T.memory store.new)) }
    ensures nodes { (kernel_of (T.memory store.new)).nodes ≡ (kernel_of (T.memory store.old)).nodes }
{
    match raised(key_there(store, node, place), byte) {
        Some(other) => looks_with(store, slot, node, place, other),
        None => None,
    }
}
