//! Keys of the nodes of domains: how they are read and spelled.

ghost use Rattle.std.specs.Prelude.{◌≡◌, ◌≢◌, ℕ, ◌<◌, ◌≤◌, ◌+◌, ◌*◌, true, None, Some, [], ◌∷◌, MatchOption};
ghost use Rattle.kn_base.specs.declared.key.Key.TheVariants.{Number};
ghost use Rattle.kn_base.specs.Keys.{counted_body};
ghost use Rattle.kn_base.specs.Memory.{Memory};
ghost use Rattle.kernel_tables.specs.Kernel.{Kernel, kernel_of, Sized, IsSized};
ghost use Rattle.kernel_tables.specs.Rows.{domain_rows, key_table};
ghost use Rattle.space_bank.specs.Bank.{BankGood};
ghost use Rattle.unix_model.specs.Tables.{at};
ghost use Rattle.domain.specs.Keys.{words_in, word_in, count_in, is_number, node_in, segment_in, page_in, root_in, key_of_space};
ghost use Rattle.domain.specs.Sets.{number_in};
ghost use Rattle.domain.specs.Domains.{domains, state_by, state_number, phase_by, phase_number, description_by};

use super::types::{Phase, State};
use kernel_tables::key_at;
use kn_base::{Key, NodeId, PageId, Store};

/// The key at a place of a node, and Null where none is spelled.
#[tactic(auto, unfolding(kernel_tables::specs::Rows::key_table))]
pub fn spelled_key<T: Store>(store: &T, node: NodeId, place: u8) -> Key
    requires node { node.0 < (kernel_of (T.memory store.now)).nodes }
    requires place { place < 16 }
    ensures { result ≡ key_table (kernel_of (T.memory store.now)).keys (16 * node.0 + place) }
{
    match key_at(store, node, place) {
        Some(key) => key,
        None => Key::Null,
    }
}

/// The key at a place of the root of a domain.
pub fn root_key<T: Store>(store: &T, root: NodeId, place: u8) -> Key
    requires good { BankGood (kernel_of (T.memory store.now)) }
    requires live { (at (domains (kernel_of (T.memory store.now))) root.0).live ≡ true }
    requires place { place < 16 }
    ensures { result ≡ domain_rows (kernel_of (T.memory store.now)) root.0 place }
{
    spelled_key(store, root, place)
}

/// The three words of a number, and zeros for any other key.
#[tactic(auto, unfolding(crate::specs::Keys::word_in))]
pub fn words_in(key: Key) -> [u32; 3]
    ensures { result ≡ words_in key }
{
    match key {
        Key::Number(body) => {
            let [a, b, c, d, e, f, g, h, i, j, k, l] = body;
            [
                u32::from_le_bytes([a, b, c, d]),
                u32::from_le_bytes([e, f, g, h]),
                u32::from_le_bytes([i, j, k, l]),
            ]
        }
        _ => [0; 3],
    }
}

/// One of the three words of a number, and 0 for any other key.
pub fn word(key: Key, n: u8) -> u32
    requires word { n < 3 }
    ensures { result ≡ word_in key n }
{
    let [first, second, third] = words_in(key);
    match n {
        0 => first,
        1 => second,
        _ => third,
    }
}

/// The count behind the first word of a number, and 0 for any other key.
#[tactic(auto, unfolding(crate::specs::Keys::count_in))]
pub fn count_in(key: Key) -> u64
    ensures { result ≡ count_in key }
{
    match key {
        Key::Number(body) => {
            let [_, _, _, _, a, b, c, d, e, f, g, h] = body;
            u64::from_le_bytes([a, b, c, d, e, f, g, h])
        }
        _ => 0,
    }
}

/// A number of three words.
#[tactic(auto, unfolding(crate::specs::Keys::word_in))]
pub fn number_of(words: [u32; 3]) -> Key
    ensures words { words_in result ≡ words }
    ensures number { is_number result ≡ true }
{
    let [x, y, z] = words;
    let [a, b, c, d] = x.to_le_bytes();
    let [e, f, g, h] = y.to_le_bytes();
    let [i, j, k, l] = z.to_le_bytes();
    Key::Number([a, b, c, d, e, f, g, h, i, j, k, l])
}

/// A number of one word and a count.
#[tactic(auto, unfolding(crate::specs::Keys::word_in, crate::specs::Keys::count_in))]
pub fn counted_of(word: u32, count: u64) -> Key
    ensures spelled { result ≡ Number (counted_body word count) }
    ensures word { word_in result 0 ≡ word }
    ensures count { count_in result ≡ count }
    ensures number { is_number result ≡ true }
{
    let [a, b, c, d] = word.to_le_bytes();
    let [e, f, g, h, i, j, k, l] = count.to_le_bytes();
    Key::Number([a, b, c, d, e, f, g, h, i, j, k, l])
}

/// The state of a number below 3.
pub fn state_by(number: u32) -> State
    ensures { result ≡ state_by number }
{
    match number {
        0 => State::Available,
        1 => State::Running,
        _ => State::Waiting,
    }
}

/// The number of a state.
pub fn state_number(state: State) -> u32
    ensures number { result ≡ state_number state }
    ensures read_back { state_by result ≡ state }
{
    match state {
        State::Available => 0,
        State::Running => 1,
        State::Waiting => 2,
    }
}

/// The phase of a number below 6.
pub fn phase_by(number: u32) -> Phase
    ensures { result ≡ phase_by number }
{
    match number {
        0 => Phase::Run,
        1 => Phase::Asked,
        2 => Phase::Sent,
        3 => Phase::Done,
        4 => Phase::Exiting,
        _ => Phase::Zombie,
    }
}

/// The number of a phase.
pub fn phase_number(phase: Phase) -> u32
    ensures number { result ≡ phase_number phase }
    ensures read_back { phase_by result ≡ phase }
{
    match phase {
        Phase::Run => 0,
        Phase::Asked => 1,
        Phase::Sent => 2,
        Phase::Done => 3,
        Phase::Exiting => 4,
        Phase::Zombie => 5,
    }
}

/// The number with the process's id, its parent's and a phase, in place of one with another phase.
pub fn with_phase(key: Key, phase: Phase) -> Key
    ensures words { words_in result ≡ word_in key 0 ∷ word_in key 1 ∷ phase_number phase ∷ [] }
    ensures number { is_number result ≡ true }
{
    let [pid, parent, _] = words_in(key);
    number_of([pid, parent, phase_number(phase)])
}

/// The node that a Node key names.
pub fn node_in(key: Key) -> Option<NodeId>
    ensures { MatchOption result (node_in key ≡ None) (λ node. node_in key ≡ Some node.0) }
{
    match key {
        Key::Node { id } => Some(id),
        _ => None,
    }
}

/// The space that a Segment key names.
pub fn segment_in(key: Key) -> Option<NodeId>
    ensures { MatchOption result (segment_in key ≡ None) (λ node. segment_in key ≡ Some node.0) }
{
    match key {
        Key::Segment { id, .. } => Some(id),
        _ => None,
    }
}

/// The key of a space, or Null where there is none.
pub fn space_key(space: Option<NodeId>) -> Key
    ensures { result ≡ key_of_space (number_in space) }
{
    match space {
        Some(id) => Key::Segment { id, height: 5 },
        None => Key::Null,
    }
}

/// The page that a Page key names.
pub fn page_in(key: Key) -> Option<PageId>
    ensures { MatchOption result (page_in key ≡ None) (λ page. page_in key ≡ Some page.0) }
{
    match key {
        Key::Page { id, .. } => Some(id),
        _ => None,
    }
}

/// The root that a Domain key names.
pub fn root_in(key: Key) -> Option<NodeId>
    ensures { MatchOption result (root_in key ≡ None) (λ root. root_in key ≡ Some root.0) }
{
    match key {
        Key::Domain { id } => Some(id),
        _ => None,
    }
}

/// The number with the process's id and its parent's, in place of one with others.
pub fn with_ids(key: Key, pid: u32, parent: u32) -> Key
    ensures words { words_in result ≡ pid ∷ parent ∷ word_in key 2 ∷ [] }
    ensures number { is_number result ≡ true }
{
    let [_, _, phase] = words_in(key);
    number_of([pid, parent, phase])
}

/// The word of a descriptor.
pub fn description_word(description: Option<u16>) -> u32
    ensures { MatchOption description (result ≡ 0) (λ number. result ≡ number + 1) }
{
    match description {
        Some(number) => u32::from(number) + 1,
        None => 0,
    }
}

/// The open description of the word of a descriptor.
pub fn description_by(word: u32) -> Option<u16>
    requires { word ≤ 2048 }
    ensures { result ≡ description_by word }
{
    if word == 0 {
        None
    } else {
        Some((word - 1) as u16)
    }
}
