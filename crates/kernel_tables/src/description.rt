//! Open descriptions (POSIX.1, open file description): what the descriptors share that came of one opening.

ghost use Rattle.std.specs.Prelude.{◌≡◌, ℕ, ◌<◌, ◌==◌, ◌||◌};
ghost use Rattle.kernel_tables.specs.declared.row.Row.TheVariants.{Used};
ghost use Rattle.kernel_tables.specs.Files.{description_entry_of, IsMode};

use super::row::{Row, word_in};

/// An open description.
#[derive(Clone, Copy, Debug, PartialEq, Eq)]
pub struct Description {
    pub readable: bool,
    pub writable: bool,
    /// Each write goes to the end of the file.
    pub append: bool,
    /// The number of the inode that is open.
    pub inode: u32,
    /// The byte at which the next read or write begins.
    pub offset: u32,
    /// How many descriptors the description has.
    pub descriptors: u32,
}

/// The sixteen bytes of the entry of a description.
#[tactic(auto, unfolding(crate::specs::Files::description_entry_of))]
pub fn description_bytes(entry: Row<Description>) -> [u8; 16]
    ensures { description_entry_of result ≡ entry }
{
    match entry {
        Row::Free => [0; 16],
        Row::Used(description) => used_bytes(description),
        Row::Unspelled => [255; 16],
    }
}

// The sixteen bytes of a description.
#[tactic(auto, using(crate::proofs::Rows::rows_spelled))]
fn used_bytes(description: Description) -> [u8; 16]
    ensures { description_entry_of result ≡ Used description }
{
    let mode = mode_number(description.readable, description.writable);
    let append = append_number(description.append);
    let [a, b, c, d] = description.inode.to_le_bytes();
    let [e, f, g, h] = description.offset.to_le_bytes();
    let [w, x, y, z] = description.descriptors.to_le_bytes();
    [1, mode, append, 0, a, b, c, d, e, f, g, h, w, x, y, z]
}

// The number of a mode: 1 for reading and 2 for writing.
fn mode_number(readable: bool, writable: bool) -> u8
    ensures { IsMode result readable writable }
{
    match (readable, writable) {
        (false, false) => 0,
        (true, false) => 1,
        (false, true) => 2,
        (true, true) => 3,
    }
}

// 1 for append.
fn append_number(append: bool) -> u8
    ensures few { result < 2 }
    ensures append { (result == 1) ≡ append }
{
    if append { 1 } else { 0 }
}

/// The entry of a description that sixteen bytes spell.
#[tactic(auto, unfolding(crate::specs::Files::description_entry_of))]
pub fn description_entry_in(bytes: [u8; 16]) -> Row<Description>
    ensures { result ≡ description_entry_of bytes }
{
    let [used, mode, append, last, ..] = bytes;
    if used == 1 && mode < 4 && append < 2 && last == 0 {
        return Row::Used(Description {
            readable: mode == 1 || mode == 3,
            writable: mode == 2 || mode == 3,
            append: append == 1,
            inode: word_in(&bytes, 4),
            offset: word_in(&bytes, 8),
            descriptors: word_in(&bytes, 12),
        });
    }
    if bytes == [0; 16] {
        Row::Free
    } else {
        Row::Unspelled
    }
}
