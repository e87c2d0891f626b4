//! Rounds of reading and writing, over any store of at least 64 pages and 64 nodes.

ghost use Rattle.std.specs.Prelude.{◌≡◌, ◌<◌, ◌≤◌, ◌+◌, ◌*◌, ℕ, None, IsSome, length, slice_index_or};
ghost use Rattle.kn_base.specs.Memory.{Memory};
ghost use Rattle.bench_store.specs.Places.{AllSpelled};

use kn_base::{Key, NodeId, PageId, Store};

// A key of weight 1.
const ONE: Key = Key::Node { id: NodeId(1) };

fn weight(key: Key) -> u32 {
    match key {
        Key::Node { id } => id.0,
        _ => 0,
    }
}

/// Writes a key at each place of the first 64 nodes.
pub fn fill<T: Store>(store: &mut T)
    requires { 1024 ≤ length (T.memory store.old).keys }
    ensures spelled { AllSpelled 1024 (T.memory store.new) }
    ensures keys { length (T.memory store.new).keys ≡ length (T.memory store.old).keys }
    ensures pages { (T.memory store.new).pages ≡ (T.memory store.old).pages }
{
    for place in 0..1024u32 {
        store.set_key(NodeId(place / 16), (place % 16) as u8, ONE);
    }
}

/// In each round reads four bytes of a page and one key.
pub fn read<T: Store>(store: &T, rounds: u32) -> u32
    requires pages { 64 ≤ length (T.memory store.now).pages }
    requires keys { 1024 ≤ length (T.memory store.now).keys }
    requires spelled { AllSpelled 1024 (T.memory store.now) }
{
    let mut sum = 0u32;
    for round in 0..rounds {
        let place = round % 1024;
        let mut bytes = [0; 4];
        store.read_page(PageId(round % 64), (4 * place) as u16, &mut bytes);
        let key = store.key(NodeId(place / 16), (place % 16) as u8);
        let [a, b, c, d] = bytes;
        sum = sum
            .wrapping_add(u32::from_le_bytes([a, b, c, d]))
            .wrapping_add(weight(key));
    }
    sum
}

/// The same, and in each round one key is written.
pub fn write<T: Store>(store: &mut T, rounds: u32) -> u32
    requires pages { 64 ≤ length (T.memory store.old).pages }
    requires keys { 1024 ≤ length (T.memory store.old).keys }
    requires spelled { AllSpelled 1024 (T.memory store.old) }
{
    let mut sum = 0u32;
    for round in 0..rounds {
        let place = round % 1024;
        let mut bytes = [0; 4];
        store.read_page(PageId(round % 64), (4 * place) as u16, &mut bytes);
        let key = store.key(NodeId(place / 16), (place % 16) as u8);
        store.set_key(NodeId(place / 16), (place % 16) as u8, ONE);
        let [a, b, c, d] = bytes;
        sum = sum
            .wrapping_add(u32::from_le_bytes([a, b, c, d]))
            .wrapping_add(weight(key));
    }
    sum
}
