//! Whether a tree is well-formed, in a store of which nothing is known but that the nodes in its keys are in range.

ghost use Rattle.std.specs.Prelude.{◌≡◌, ◌≢◌, ℕ, ◌+◌, ◌-◌, ◌*◌, ◌<◌, ◌≤◌, true, false, Some};
ghost use Rattle.kn_base.specs.declared.key.Key.{Key};
ghost use Rattle.kn_base.specs.declared.key.Key.TheVariants.{Null};
ghost use Rattle.kn_base.specs.Memory.{Memory};
ghost use Rattle.kernel_tables.specs.Kernel.{Kernel, kernel_of};
ghost use Rattle.kernel_tables.specs.Rows.{key_table};
ghost use Rattle.forest.specs.Objects.{NodeObject, named};
ghost use Rattle.forest.specs.Walks.{key_below};
ghost use Rattle.forest.specs.Forest.{FitsUnder, IsFilled};
ghost use Rattle.forest.specs.Calls.{IsPart, IsWellFormed};
ghost use Rattle.seg_tree.specs.Checks.{NodesInRange};

use super::empty::{both, is_empty, is_null};
use super::spaces::Space;
use super::steps::{segment_of, spelled_key};
use kn_base::{Key, NodeId, Store};

// Whether a key stands for no node.
fn is_leaf(key: Key) -> bool
    ensures leaf { result ≡ true → (node : ℕ) → named key ≡ Some (NodeObject node) → ⊥ }
    ensures node { result ≡ false → (node : ℕ) × (named key ≡ Some (NodeObject node)) }
{
    match key {
        Key::Segment { .. } => false,
        _ => true,
    }
}

// Whether a node's key of this height stands one level below another height.
fn is_next(below: u8, height: u8) -> bool
    ensures next { result ≡ true → (0 < below) × (below + 1 ≡ height) }
    ensures otherwise { result ≡ false → (0 < below) × (below + 1 ≡ height) → ⊥ }
{
    if height < 2 {
        return false;
    }
    below == height - 1
}

// Whether a key may stand in a node of a height.
fn fits_under(key: Key, height: u8) -> bool
    ensures fits { result ≡ true → FitsUnder height key }
    ensures otherwise { result ≡ false → FitsUnder height key → ⊥ }
{
    match key {
        Key::Null => true,
        Key::Page { .. } => height == 1,
        Key::Segment { height: below, .. } => is_next(below, height),
        _ => false,
    }
}

// Whether the node for which a key stands, if it stands for one, has a key that isn't Null.
fn has_keys<T: Store>(store: &T, key: Key) -> bool
    requires { (node : ℕ) → named key ≡ Some (NodeObject node) → node < (kernel_of (T.memory store.now)).nodes }
    ensures filled { result ≡ true → (node : ℕ) → named key ≡ Some (NodeObject node) → IsFilled (key_table (kernel_of (T.memory store.now)).keys) node }
    ensures otherwise { result ≡ false → ((node : ℕ) → named key ≡ Some (NodeObject node) → IsFilled (key_table (kernel_of (T.memory store.now)).keys) node) → ⊥ }
{
    match segment_of(key) {
        Some(node) => !is_empty(store, node),
        None => true,
    }
}

// Whether a key may not stand in a node of a height, or stands for an empty node.
fn is_broken<T: Store>(store: &T, key: Key, height: u8) -> bool
    requires { (node : ℕ) → named key ≡ Some (NodeObject node) → node < (kernel_of (T.memory store.now)).nodes }
    ensures broken { result ≡ true → FitsUnder height key → ((node : ℕ) → named key ≡ Some (NodeObject node) → IsFilled (key_table (kernel_of (T.memory store.now)).keys) node) → ⊥ }
    ensures whole { result ≡ false → FitsUnder height key × ((node : ℕ) → named key ≡ Some (NodeObject node) → IsFilled (key_table (kernel_of (T.memory store.now)).keys) node) }
{
    !both(fits_under(key, height), has_keys(store, key))
}

// The key at a digit of the node that a key stands for.
fn spelled_below<T: Store>(store: &T, upper: Key, digit: u8) -> Key
    requires node { (node : ℕ) → named upper ≡ Some (NodeObject node) → node < (kernel_of (T.memory store.now)).nodes }
    requires digit { digit < 16 }
    ensures { result ≡ key_below (key_table (kernel_of (T.memory store.now)).keys) upper digit }
{
    match upper {
        Key::Segment { id, .. } => spelled_key(store, id, digit),
        _ => Key::Null,
    }
}

// Whether a key at a place of a node of a height, and all that stands below it, is well-formed.
fn is_part<T: Store>(store: &T, key: Key, height: u8) -> bool
    requires in_range { NodesInRange (kernel_of (T.memory store.now)) }
    requires node { (node : ℕ) → named key ≡ Some (NodeObject node) → node < (kernel_of (T.memory store.now)).nodes }
    ensures part { result ≡ true → IsPart (key_table (kernel_of (T.memory store.now)).keys) height key }
    ensures otherwise { result ≡ false → IsPart (key_table (kernel_of (T.memory store.now)).keys) height key → ⊥ }
{
    if height == 0 {
        return true;
    }
    if is_leaf(key) {
        return fits_under(key, height);
    }
    if is_broken(store, key, height) {
        return false;
    }
    let mut parts = true;
    for digit in 0..16 {
        parts = both(
            parts,
            is_part(store, spelled_below(store, key, digit), height - 1),
        );
    }
    parts
}

// Whether the eight parts of a root are well-formed.
fn has_parts<T: Store>(store: &T, root: NodeId) -> bool
    requires in_range { NodesInRange (kernel_of (T.memory store.now)) }
    requires node { root.0 < (kernel_of (T.memory store.now)).nodes }
    ensures parts { result ≡ true → (digit : ℕ) → digit < 8 → IsPart (key_table (kernel_of (T.memory store.now)).keys) 5 (key_table (kernel_of (T.memory store.now)).keys (16 * root.0 + digit)) }
    ensures otherwise { result ≡ false → (digit : ℕ) × (digit < 8) × (IsPart (key_table (kernel_of (T.memory store.now)).keys) 5 (key_table (kernel_of (T.memory store.now)).keys (16 * root.0 + digit)) → ⊥) }
{
    let mut parts = true;
    for digit in 0..8 {
        parts = both(parts, is_part(store, spelled_key(store, root, digit), 5));
    }
    parts
}

// Whether the seven keys behind the parts of a root are Null.
fn has_no_more<T: Store>(store: &T, root: NodeId) -> bool
    requires { root.0 < (kernel_of (T.memory store.now)).nodes }
    ensures nulls { result ≡ true → (digit : ℕ) → digit < 7 → key_table (kernel_of (T.memory store.now)).keys (16 * root.0 + (8 + digit)) ≡ Null }
    ensures otherwise { result ≡ false → (digit : ℕ) × (digit < 7) × (key_table (kernel_of (T.memory store.now)).keys (16 * root.0 + (8 + digit)) ≢ Null) }
{
    let mut nulls = true;
    for digit in 0..7 {
        nulls = both(nulls, is_null(spelled_key(store, root, 8 + digit)));
    }
    nulls
}

/// Whether the tree of a root is well-formed: eight parts in which heights fall by one down to pages and no node is empty, and
/// seven Null keys behind them. Key 15 is not looked at. It asks of a store only that the nodes in its keys are in range.
pub fn check_space<T: Store>(store: &T, space: Space) -> bool
    requires in_range { NodesInRange (kernel_of (T.memory store.now)) }
    requires node { space.0.0 < (kernel_of (T.memory store.now)).nodes }
    ensures well_formed { result ≡ true → IsWellFormed (key_table (kernel_of (T.memory store.now)).keys) space.0.0 }
    ensures otherwise { result ≡ false → IsWellFormed (key_table (kernel_of (T.memory store.now)).keys) space.0.0 → ⊥ }
{
    both(has_parts(store, space.0), has_no_more(store, space.0))
}
