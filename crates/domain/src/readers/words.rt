//! The words of the other two nodes of a domain: registers and descriptors.

ghost use Rattle.std.specs.Prelude.{◌≡◌, ◌⊎◌, ℕ, ◌<◌, ◌+◌, ◌*◌, true, None, Some, MatchOption, slice_index, slice_set};
ghost use Rattle.kn_base.specs.Memory.{Memory};
ghost use Rattle.kernel_tables.specs.Kernel.{Kernel, kernel_of};
ghost use Rattle.kernel_tables.specs.Rows.{key_table, domain_rows};
ghost use Rattle.space_bank.specs.Bank.{BankGood};
ghost use Rattle.unix_model.specs.Tables.{at};
ghost use Rattle.domain.specs.Keys.{is_number, node_in, word_in, words_in};
ghost use Rattle.domain.specs.Rules.{RowsGood, IsNamed};
ghost use Rattle.domain.specs.Domains.{domains, node_words, regs_by};

use super::super::keys::{description_by, node_in, root_key, words_in};
use kn_base::{Key, NodeId, Store};
use unix_model::Regs;

/// The place of a root at which the key of its register node stands.
pub const REGISTERS: u8 = 3;

/// The place of a root at which the key of its descriptor node stands.
pub const DESCRIPTORS: u8 = 4;

// The key at a place of a node where a number is known to stand.
#[tactic(auto, unfolding(kernel_tables::specs::Kernel::kernel_of, kernel_tables::specs::Kernel::tables_of, kernel_tables::specs::Rows::key_table))]
fn number_at<T: Store>(store: &T, node: NodeId, place: u8) -> Key
    requires node { node.0 < (kernel_of (T.memory store.now)).nodes }
    requires place { place < 16 }
    requires number { is_number (key_table (kernel_of (T.memory store.now)).keys (16 * node.0 + place)) ≡ true }
    ensures { result ≡ key_table (kernel_of (T.memory store.now)).keys (16 * node.0 + place) }
{
    store.key(node, place)
}

/// The three words at a place of a node of words.
pub fn words_at<T: Store>(store: &T, node: NodeId, place: u8) -> [u32; 3]
    requires good { BankGood (kernel_of (T.memory store.now)) }
    requires rows { RowsGood (domain_rows (kernel_of (T.memory store.now))) }
    requires named { IsNamed (domain_rows (kernel_of (T.memory store.now))) node.0 }
    requires place { place < 11 }
    ensures { result ≡ words_in (domain_rows (kernel_of (T.memory store.now)) node.0 place) }
{
    words_in(number_at(store, node, place))
}

// One word of a node of words.
fn word_at<T: Store>(store: &T, node: NodeId, n: u8) -> u32
    requires good { BankGood (kernel_of (T.memory store.now)) }
    requires rows { RowsGood (domain_rows (kernel_of (T.memory store.now))) }
    requires named { IsNamed (domain_rows (kernel_of (T.memory store.now))) node.0 }
    requires word { n < 33 }
    ensures { result ≡ node_words (domain_rows (kernel_of (T.memory store.now)) node.0) n }
{
    let [first, second, third] = words_at(store, node, n / 3);
    match n % 3 {
        0 => first,
        1 => second,
        _ => third,
    }
}

/// The node that a place of the root of a domain names.
pub fn named_node<T: Store>(store: &T, root: NodeId, place: u8) -> Option<NodeId>
    requires good { BankGood (kernel_of (T.memory store.now)) }
    requires live { (at (domains (kernel_of (T.memory store.now))) root.0).live ≡ true }
    requires place { place < 16 }
    ensures { let named = node_in (domain_rows (kernel_of (T.memory store.now)) root.0 place) in MatchOption result (named ≡ None) (λ node. named ≡ Some node.0) }
{
    node_in(root_key(store, root, place))
}

/// The register node or the descriptor node of a domain that is whole.
pub fn node_of_words<T: Store>(store: &T, root: NodeId, place: u8) -> NodeId
    requires good { BankGood (kernel_of (T.memory store.now)) }
    requires live { (at (domains (kernel_of (T.memory store.now))) root.0).live ≡ true }
    requires whole { (at (domains (kernel_of (T.memory store.now))) root.0).whole ≡ true }
    requires place { (place ≡ 3) ⊎ (place ≡ 4) }
    ensures { node_in (domain_rows (kernel_of (T.memory store.now)) root.0 place) ≡ Some result.0 }
{
    match named_node(store, root, place) {
        Some(node) => node,
        None => unreachable!(),
    }
}

// Puts three words in their places among the registers.
fn put_three(x: &mut [u32; 32], place: u8, words: [u32; 3])
    requires place { place < 10 }
    ensures { x.new ≡ slice_set (slice_set (slice_set x.old (3 * place) (slice_index words 0)) (3 * place + 1) (slice_index words 1)) (3 * place + 2) (slice_index words 2) }
{
    let [first, second, third] = words;
    let n = 3 * place as usize;
    x[n] = first;
    x[n + 1] = second;
    x[n + 2] = third;
}

// The registers in a node of words.
fn registers<T: Store>(store: &T, node: NodeId) -> Regs
    requires good { BankGood (kernel_of (T.memory store.now)) }
    requires rows { RowsGood (domain_rows (kernel_of (T.memory store.now))) }
    requires named { IsNamed (domain_rows (kernel_of (T.memory store.now))) node.0 }
    ensures { result ≡ regs_by (node_words (domain_rows (kernel_of (T.memory store.now)) node.0)) }
{
    let mut x = [0; 32];
    for place in 0..10 {
        put_three(&mut x, place, words_at(store, node, place));
    }
    let [next, last, pc] = words_at(store, node, 10);
    x[30] = next;
    x[31] = last;
    Regs { x, pc }
}

/// The registers and pc, which are zeros in a zombie.
pub fn regs_of<T: Store>(store: &T, root: NodeId) -> Regs
    requires good { BankGood (kernel_of (T.memory store.now)) }
    requires rows { RowsGood (domain_rows (kernel_of (T.memory store.now))) }
    requires live { (at (domains (kernel_of (T.memory store.now))) root.0).live ≡ true }
    ensures { result ≡ regs_by (at (domains (kernel_of (T.memory store.now))) root.0).regs }
{
    match named_node(store, root, REGISTERS) {
        Some(node) => registers(store, node),
        None => Regs { x: [0; 32], pc: 0 },
    }
}

/// The open description of a descriptor, or None where it is closed, as all are in a zombie. Descriptors are 0 to 31.
pub fn descriptor<T: Store>(store: &T, root: NodeId, number: u8) -> Option<u16>
    requires good { BankGood (kernel_of (T.memory store.now)) }
    requires rows { RowsGood (domain_rows (kernel_of (T.memory store.now))) }
    requires live { (at (domains (kernel_of (T.memory store.now))) root.0).live ≡ true }
    requires number { number < 32 }
    ensures { result ≡ at (at (domains (kernel_of (T.memory store.now))) root.0).descriptors number }
{
    match named_node(store, root, DESCRIPTORS) {
        Some(node) => description_by(word_at(store, node, number)),
        None => None,
    }
}
