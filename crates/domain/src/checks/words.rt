//! Tests of the two nodes of words.

ghost use Rattle.std.specs.Prelude.{◌≡◌, ℕ, ◌<◌, ◌≤◌, ◌+◌, nat_le, Some};
ghost use Rattle.kn_base.specs.Memory.{Memory};
ghost use Rattle.kernel_tables.specs.Kernel.{Kernel, kernel_of};
ghost use Rattle.domain.specs.Keys.{is_number, node_in};
ghost use Rattle.domain.specs.Domains.{node_words};
ghost use Rattle.domain.specs.Checks.{node_rows};
ghost use Rattle.domain.specs.Tests.{all_pass, is_null, has_words, has_registers, has_descriptors, fits_node, is_zombie};

use super::super::keys::{node_in, spelled_key, word};
use super::super::types::Phase;
use super::keys::{both, is_null, is_number};
use super::phases::is_zombie;
use kn_base::{Key, NodeId, Store};

/// The key at a place of a node, whoever owns it.
#[tactic(auto, unfolding(kernel_tables::specs::Rows::rows))]
pub fn row_key<T: Store>(store: &T, node: NodeId, place: u8) -> Key
    requires node { node.0 < (kernel_of (T.memory store.now)).nodes }
    requires place { place < 16 }
    ensures { result ≡ node_rows (kernel_of (T.memory store.now)) node.0 place }
{
    spelled_key(store, node, place)
}

/// Whether so many keys of a node from a place on are Null.
pub fn are_null<T: Store>(store: &T, node: NodeId, from: u8, count: u8) -> bool
    requires node { node.0 < (kernel_of (T.memory store.now)).nodes }
    requires within { from + count ≤ 16 }
    ensures { result ≡ all_pass (λ n. is_null (node_rows (kernel_of (T.memory store.now)) node.0 (from + n))) count }
{
    let mut nulls = true;
    for n in 0..count {
        nulls = both(nulls, is_null(row_key(store, node, from + n)));
    }
    nulls
}

// Whether the first eleven keys of a node are numbers.
fn are_numbers<T: Store>(store: &T, node: NodeId) -> bool
    requires node { node.0 < (kernel_of (T.memory store.now)).nodes }
    ensures { result ≡ all_pass (λ place. is_number (node_rows (kernel_of (T.memory store.now)) node.0 place)) 11 }
{
    let mut numbers = true;
    for place in 0..11 {
        numbers = both(numbers, is_number(row_key(store, node, place)));
    }
    numbers
}

// Whether a node holds numbers alone where its words stand, and Null behind them.
fn has_words<T: Store>(store: &T, node: NodeId) -> bool
    requires node { node.0 < (kernel_of (T.memory store.now)).nodes }
    ensures { result ≡ has_words (node_rows (kernel_of (T.memory store.now)) node.0) }
{
    both(are_numbers(store, node), are_null(store, node, 11, 5))
}

// One of the words of a node.
#[tactic(auto, unfolding(crate::specs::Domains::node_words))]
fn word_of<T: Store>(store: &T, node: NodeId, n: u8) -> u32
    requires node { node.0 < (kernel_of (T.memory store.now)).nodes }
    requires word { n < 33 }
    ensures { result ≡ node_words (node_rows (kernel_of (T.memory store.now)) node.0) n }
{
    word(row_key(store, node, n / 3), n % 3)
}

// Whether the words of a node are registers.
fn has_registers<T: Store>(store: &T, node: NodeId) -> bool
    requires node { node.0 < (kernel_of (T.memory store.now)).nodes }
    ensures { result ≡ has_registers (node_rows (kernel_of (T.memory store.now)) node.0) }
{
    let zero = word_of(store, node, 0) == 0;
    let aligned = word_of(store, node, 32) % 4 == 0;
    both(has_words(store, node), both(zero, aligned))
}

// Whether the first 32 words of a node are those of descriptors.
fn are_descriptors<T: Store>(store: &T, node: NodeId) -> bool
    requires node { node.0 < (kernel_of (T.memory store.now)).nodes }
    ensures { result ≡ all_pass (λ n. nat_le (node_words (node_rows (kernel_of (T.memory store.now)) node.0) n) 2048) 32 }
{
    let mut fit = true;
    for n in 0..32 {
        fit = both(fit, word_of(store, node, n) <= 2048);
    }
    fit
}

// Whether the words of a node are descriptors.
fn has_descriptors<T: Store>(store: &T, node: NodeId) -> bool
    requires node { node.0 < (kernel_of (T.memory store.now)).nodes }
    ensures { result ≡ has_descriptors (node_rows (kernel_of (T.memory store.now)) node.0) }
{
    let unused = word_of(store, node, 32) == 0;
    both(
        has_words(store, node),
        both(are_descriptors(store, node), unused),
    )
}

/// Whether key 3 of a root is right in a phase.
pub fn fits_registers<T: Store>(store: &T, phase: Phase, key: Key) -> bool
    requires in_range { (node : ℕ) → node_in key ≡ Some node → node < (kernel_of (T.memory store.now)).nodes }
    ensures { result ≡ fits_node (λ node. has_registers (node_rows (kernel_of (T.memory store.now)) node)) phase key (node_in key) }
{
    match node_in(key) {
        Some(node) => both(!is_zombie(phase), has_registers(store, node)),
        None => both(is_zombie(phase), is_null(key)),
    }
}

/// Whether key 4 of a root is right in a phase.
pub fn fits_descriptors<T: Store>(store: &T, phase: Phase, key: Key) -> bool
    requires in_range { (node : ℕ) → node_in key ≡ Some node → node < (kernel_of (T.memory store.now)).nodes }
    ensures { result ≡ fits_node (λ node. has_descriptors (node_rows (kernel_of (T.memory store.now)) node)) phase key (node_in key) }
{
    match node_in(key) {
        Some(node) => both(!is_zombie(phase), has_descriptors(store, node)),
        None => both(is_zombie(phase), is_null(key)),
    }
}
