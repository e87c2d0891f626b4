//! Whether a node is empty.

ghost use Rattle.std.specs.Prelude.{◌≡◌, ◌≢◌, ℕ, ◌+◌, ◌*◌, ◌<◌, ◌&&◌, true, false};
ghost use Rattle.kn_base.specs.declared.key.Key.TheVariants.{Null};
ghost use Rattle.kn_base.specs.Memory.{Memory};
ghost use Rattle.kernel_tables.specs.Kernel.{Kernel, kernel_of};
ghost use Rattle.kernel_tables.specs.Rows.{key_table};

use super::steps::spelled_key;
use kn_base::{Key, NodeId, Store};

/// Whether a key is Null.
pub fn is_null(key: Key) -> bool
    ensures null { result ≡ true → key ≡ Null }
    ensures other { result ≡ false → key ≢ Null }
{
    match key {
        Key::Null => true,
        _ => false,
    }
}

/// Whether both hold.
pub fn both(one: bool, other: bool) -> bool
    ensures { result ≡ (one && other) }
{
    one && other
}

/// Whether all keys of a node are Null. A place at which no key is spelled counts as Null.
pub fn is_empty<T: Store>(store: &T, node: NodeId) -> bool
    requires node { node.0 < (kernel_of (T.memory store.now)).nodes }
    ensures empty { result ≡ true → (digit : ℕ) → digit < 16 → key_table (kernel_of (T.memory store.now)).keys (16 * node.0 + digit) ≡ Null }
    ensures filled { result ≡ false → (digit : ℕ) × (digit < 16) × (key_table (kernel_of (T.memory store.now)).keys (16 * node.0 + digit) ≢ Null) }
{
    let mut empty = true;
    for digit in 0..16 {
        empty = both(empty, is_null(spelled_key(store, node, digit)));
    }
    empty
}
