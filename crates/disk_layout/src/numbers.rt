//! Numbers as they stand on a disk, the lowest byte first.
ghost use Rattle.std.specs.Prelude.{◌≡◌, ◌≤◌, ◌+◌, length};
ghost use Rattle.std.specs.Int.{from_le_bytes, w32, w64};
ghost use Rattle.kn_base.specs.Rows.{part_at};
ghost use Rattle.disk_layout.specs.Sizes.{word, long};

use byteorder::{ByteOrder, LittleEndian};

/// A number of four bytes.
#[tactic(auto, using(crate::proofs::NumberLaws::numbers))]
pub fn word_bytes(number: u32) -> [u8; 4]
    ensures number { from_le_bytes w32 result ≡ number }
    ensures size { length result ≡ 4 }
{
    let mut bytes = [0; 4];
    LittleEndian::write_u32(&mut bytes, number);
    bytes
}

/// A generation and a number of entries, as they stand in a header from its byte 8 on.
#[tactic(auto, using(crate::proofs::NumberLaws::numbers))]
pub fn header_bytes(generation: u64, entries: u32) -> [u8; 12]
    ensures generation { from_le_bytes w64 (part_at result 0 8) ≡ generation }
    ensures size { length result ≡ 12 }
    ensures entries { from_le_bytes w32 (part_at result 8 4) ≡ entries }
{
    let mut bytes = [0; 12];
    LittleEndian::write_u64(&mut bytes, generation);
    LittleEndian::write_u32(&mut bytes[8..], entries);
    bytes
}

/// The number in the four bytes at a place.
#[tactic(auto, using(crate::proofs::NumberLaws::numbers))]
pub fn word_in(bytes: &[u8], at: usize) -> u32
    requires { at + 4 ≤ length bytes.now }
    ensures { result ≡ word bytes.now at }
{
    LittleEndian::read_u32(&bytes[at..])
}

/// The number in the eight bytes at a place.
#[tactic(auto, using(crate::proofs::NumberLaws::numbers))]
pub fn long_in(bytes: &[u8], at: usize) -> u64
    requires { at + 8 ≤ length bytes.now }
    ensures { result ≡ long bytes.now at }
{
    LittleEndian::read_u64(&bytes[at..])
}
