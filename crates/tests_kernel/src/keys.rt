//! Spellings, written out by hand.

use kn_base::{Key, NodeId, PageId, bytes_of, key_of};
use std::process::Abort;

// The key that bytes spell. What it is is not said, here and below, so that each test is proved quickly.
fn spelled(bytes: [u8; 16]) -> Option<Key> {
    key_of(bytes)
}

// How a key is spelled.
fn spelling(key: Key) -> [u8; 16] {
    bytes_of(key)
}

// The bytes with a 1 at a place.
fn with_one(rt: &impl Abort, bytes: [u8; 16], place: usize) -> [u8; 16] {
    assert!(rt; place < 16);
    let mut other = bytes;
    other[place] = 1;
    other
}

// The bytes spell the key, the key is spelled so, and a 1 at each of the places spells no key.
fn spells_only(rt: &impl Abort, bytes: [u8; 16], key: Key, unused: &[usize]) {
    assert!(rt; spelled(bytes) == Some(key));
    assert!(rt; spelling(key) == bytes);
    for place in unused {
        assert!(rt; spelled(with_one(rt, bytes, *place)).is_none());
    }
}

#[test]
fn each_kind_is_spelled_in_one_way(rt: HostRuntime) {
    let id = NodeId(0x0403_0201);
    spells_only(
        &rt,
        [0; 16],
        Key::Null,
        &[1, 2, 3, 4, 5, 6, 7, 8, 9, 10, 11, 12, 13, 14, 15],
    );
    spells_only(
        &rt,
        [1, 0, 0, 0, 9, 8, 7, 6, 5, 4, 3, 2, 1, 0, 255, 254],
        Key::Number([9, 8, 7, 6, 5, 4, 3, 2, 1, 0, 255, 254]),
        &[1, 2, 3],
    );
    spells_only(
        &rt,
        [2, 0, 0, 0, 1, 2, 3, 4, 0, 0, 0, 0, 0, 0, 0, 0],
        Key::Page {
            id: PageId(0x0403_0201),
            writable: false,
        },
        &[2, 3, 8, 9, 10, 11, 12, 13, 14, 15],
    );
    spells_only(
        &rt,
        [2, 1, 0, 0, 1, 2, 3, 4, 0, 0, 0, 0, 0, 0, 0, 0],
        Key::Page {
            id: PageId(0x0403_0201),
            writable: true,
        },
        &[2, 3, 8, 9, 10, 11, 12, 13, 14, 15],
    );
    spells_only(
        &rt,
        [3, 0, 0, 0, 1, 2, 3, 4, 0, 0, 0, 0, 0, 0, 0, 0],
        Key::Node { id },
        &[1, 2, 3, 8, 9, 10, 11, 12, 13, 14, 15],
    );
    spells_only(
        &rt,
        [4, 5, 0, 0, 1, 2, 3, 4, 0, 0, 0, 0, 0, 0, 0, 0],
        Key::Segment { id, height: 5 },
        &[2, 3, 8, 9, 10, 11, 12, 13, 14, 15],
    );
}

#[test]
fn each_right_on_a_domain_is_spelled_in_one_way(rt: HostRuntime) {
    let id = NodeId(0x0403_0201);
    spells_only(
        &rt,
        [5, 63, 0, 0, 1, 2, 3, 4, 0, 0, 0, 0, 0, 0, 0, 0],
        Key::Start {
            domain: id,
            byte: 63,
        },
        &[2, 3, 8, 9, 10, 11, 12, 13, 14, 15],
    );
    spells_only(
        &rt,
        [6, 0, 0, 0, 1, 2, 3, 4, 5, 6, 7, 8, 9, 10, 11, 12],
        Key::Resume {
            domain: id,
            count: 0x0C0B_0A09_0807_0605,
        },
        &[1, 2, 3],
    );
    spells_only(
        &rt,
        [7, 0, 0, 0, 1, 2, 3, 4, 0, 0, 0, 0, 0, 0, 0, 0],
        Key::Domain { id },
        &[1, 2, 3, 8, 9, 10, 11, 12, 13, 14, 15],
    );
    spells_only(
        &rt,
        [8, 63, 0, 0, 0, 0, 0, 0, 0, 0, 0, 0, 0, 0, 0, 0],
        Key::Meter { slot: 63 },
        &[2, 3, 4, 5, 6, 7, 8, 9, 10, 11, 12, 13, 14, 15],
    );
    spells_only(
        &rt,
        [9, 6, 0, 0, 0, 0, 0, 0, 0, 0, 0, 0, 0, 0, 0, 0],
        Key::Service { code: 6 },
        &[2, 3, 4, 5, 6, 7, 8, 9, 10, 11, 12, 13, 14, 15],
    );
}

#[test]
fn no_kind_has_the_number_ten_and_no_page_the_side_byte_two(rt: HostRuntime) {
    assert!(rt; spelled([10, 0, 0, 0, 0, 0, 0, 0, 0, 0, 0, 0, 0, 0, 0, 0]).is_none());
    assert!(rt; spelled([2, 2, 0, 0, 1, 2, 3, 4, 0, 0, 0, 0, 0, 0, 0, 0]).is_none());
}
