//! Keys: what a program of this machine holds in place of a pointer.

ghost use Rattle.std.specs.Prelude.{◌≡◌, ◌≢◌, ℕ, IfSome, IfNone, drop, [], ◌∷◌};
ghost use Rattle.std.specs.Int.{to_le_bytes, w32, w64};
ghost use Rattle.kn_base.specs.declared.key.Key.{Key};
ghost use Rattle.kn_base.specs.Keys.{spelling, spelled_key, sixteen, word_body, counted_body, KeyFits};

/// The number of a node of the store.
#[derive(Clone, Copy, Debug, PartialEq, Eq)]
pub struct NodeId(pub u32);

/// The number of a page of the store.
#[derive(Clone, Copy, Debug, PartialEq, Eq)]
pub struct PageId(pub u32);

/// A key (a capability). Whoever holds it may use the object that it names.
#[derive(Clone, Copy, Debug, PartialEq, Eq)]
pub enum Key {
    /// No authority at all.
    Null,
    /// Twelve bytes of data.
    Number([u8; 12]),
    /// A page of memory, which may be read, and written where `writable` says so.
    Page { id: PageId, writable: bool },
    /// A node as a row of keys.
    Node { id: NodeId },
    /// A node as the root of a tree of pages, `height` levels above them.
    Segment { id: NodeId, height: u8 },
    /// The right to call the domain whose root this is; `byte` tells it which of its callers calls.
    Start { domain: NodeId, byte: u8 },
    /// The right to answer, once, the call that the domain whose root this is made when it had made `count` calls.
    Resume { domain: NodeId, count: u64 },
    /// The right to change the domain whose root this is.
    Domain { id: NodeId },
    /// The number of the process under which turns are given.
    Meter { slot: u8 },
    /// A service of the machine itself.
    Service { code: u8 },
}

/// The sixteen bytes that spell a key.
#[tactic(auto, using(crate::proofs::KeyLaws::key_laws))]
pub fn bytes_of(key: Key) -> [u8; 16]
    ensures value { result ≡ spelling key }
    ensures read_back { spelled_key result ≡ Some key }
{
    spell(key)
}

// The bytes of each kind of key. That the key's numbers fit is known of each variant alone.
#[tactic(auto, unfolding(crate::specs::Keys::spelling))]
fn spell(key: Key) -> [u8; 16]
    ensures value { result ≡ spelling key }
    ensures fits { KeyFits key }
{
    match key {
        Key::Null => sixteen(0, 0, [0; 12]),
        Key::Number(body) => sixteen(1, 0, body),
        Key::Page { id, writable } => sixteen(2, writable as u8, word_body(id.0)),
        Key::Node { id } => sixteen(3, 0, word_body(id.0)),
        Key::Segment { id, height } => sixteen(4, height, word_body(id.0)),
        Key::Start { domain, byte } => sixteen(5, byte, word_body(domain.0)),
        Key::Resume { domain, count } => sixteen(6, 0, counted_body(domain.0, count)),
        Key::Domain { id } => sixteen(7, 0, word_body(id.0)),
        Key::Meter { slot } => sixteen(8, slot, [0; 12]),
        Key::Service { code } => sixteen(9, code, [0; 12]),
    }
}

// The kind, the side byte, two zeros and the body.
fn sixteen(kind: u8, side: u8, body: [u8; 12]) -> [u8; 16]
    ensures { result ≡ sixteen kind side body }
{
    let mut bytes = [kind, side, 0, 0, 0, 0, 0, 0, 0, 0, 0, 0, 0, 0, 0, 0];
    bytes[4..].copy_from_slice(&body);
    bytes
}

// A body of one word, followed by zeros.
fn word_body(word: u32) -> [u8; 12]
    ensures { result ≡ word_body word }
{
    let [a, b, c, d] = word.to_le_bytes();
    [a, b, c, d, 0, 0, 0, 0, 0, 0, 0, 0]
}

// A body of one word and a count of eight bytes.
fn counted_body(word: u32, count: u64) -> [u8; 12]
    ensures { result ≡ counted_body word count }
{
    let [a, b, c, d] = word.to_le_bytes();
    let [e, f, g, h, i, j, k, l] = count.to_le_bytes();
    [a, b, c, d, e, f, g, h, i, j, k, l]
}

/// The key that sixteen bytes spell, or None where they are no key's spelling.
pub fn key_of(bytes: [u8; 16]) -> Option<Key>
    ensures value { result ≡ spelled_key bytes }
    ensures spelled_so { IfSome result (λ key. spelling key ≡ bytes) }
    ensures no_spelling { IfNone result ((key : Key) → spelling key ≢ bytes) }
{
    read_key(bytes)
}

// The key of the kind that the bytes name, if all that this kind does not use is zero.
fn read_key(bytes: [u8; 16]) -> Option<Key>
    ensures { result ≡ spelled_key bytes }
{
    let [kind, side, low, high, a, b, c, d, e, f, g, h, i, j, k, l] = bytes;
    let word = word_of(a, b, c, d);
    let count = count_of(e, f, g, h, i, j, k, l);
    if (low == 0) & (high == 0) {
        key_in(kind, side, word, count, body_in(bytes))
    } else {
        None
    }
}

// The body in the sixteen bytes of a key.
fn body_in(bytes: [u8; 16]) -> [u8; 12]
    ensures { result ≡ drop 4 bytes }
{
    let mut body = [0; 12];
    body.copy_from_slice(&bytes[4..]);
    body
}

// The word with these bytes.
#[tactic(auto, using(crate::proofs::ReadLaws::number_laws))]
fn word_of(a: u8, b: u8, c: u8, d: u8) -> u32
    ensures { to_le_bytes w32 result ≡ a ∷ b ∷ c ∷ d ∷ [] }
{
    u32::from_le_bytes([a, b, c, d])
}

// The count with these bytes.
#[tactic(auto, using(crate::proofs::ReadLaws::number_laws))]
fn count_of(a: u8, b: u8, c: u8, d: u8, e: u8, f: u8, g: u8, h: u8) -> u64
    ensures { to_le_bytes w64 result ≡ a ∷ b ∷ c ∷ d ∷ e ∷ f ∷ g ∷ h ∷ [] }
{
    u64::from_le_bytes([a, b, c, d, e, f, g, h])
}

// The key of this kind with this side byte and a body of this word and this count. Where a kind does not use one of them, it
// has to be zero. The body itself is for a number, which is copied and not put together again.
#[tactic(auto, using(crate::proofs::ReadLaws::none_read))]
fn key_in(kind: u8, side: u8, word: u32, count: u64, body: [u8; 12]) -> Option<Key>
    requires { body ≡ counted_body word count }
    ensures { result ≡ spelled_key (sixteen kind side (counted_body word count)) }
{
    let page = PageId(word);
    let id = NodeId(word);
    match kind {
        0 => ((side == 0) & (word == 0) & (count == 0)).then_some(Key::Null),
        1 => (side == 0).then_some(Key::Number(body)),
        2 => ((side <= 1) & (count == 0)).then_some(Key::Page {
            id: page,
            writable: side == 1,
        }),
        3 => ((side == 0) & (count == 0)).then_some(Key::Node { id }),
        4 => (count == 0).then_some(Key::Segment { id, height: side }),
        5 => (count == 0).then_some(Key::Start {
            domain: id,
            byte: side,
        }),
        6 => (side == 0).then_some(Key::Resume { domain: id, count }),
        7 => ((side == 0) & (count == 0)).then_some(Key::Domain { id }),
        8 => ((word == 0) & (count == 0)).then_some(Key::Meter { slot: side }),
        9 => ((word == 0) & (count == 0)).then_some(Key::Service { code: side }),
        _ => None,
    }
}
