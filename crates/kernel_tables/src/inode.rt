//! Inode entries: what is stored of a file, a directory, a pipe or the console beside its pages.

ghost use Rattle.std.specs.Prelude.{◌≡◌, ℕ, Some, None};
ghost use Rattle.kernel_tables.specs.declared.row.Row.TheVariants.{Used};
ghost use Rattle.kernel_tables.specs.Files.{inode_entry_of, inode_of_kind, inode_kind};

use super::row::{Row, four_words, joined, word_in};

/// What an inode is.
#[derive(Clone, Copy, Debug, PartialEq, Eq)]
pub enum InodeKind {
    File,
    Dir,
    Pipe,
    Console,
}

/// An inode. What its kind has no use for is 0.
#[derive(Clone, Copy, Debug, PartialEq, Eq)]
pub struct Inode {
    pub kind: InodeKind,
    /// In bytes: of a file, of a directory 32 for each place, of a pipe what it holds.
    pub length: u32,
    /// How many places of directories name the inode.
    pub entries: u32,
    /// How many open descriptions it has.
    pub opens: u32,
    /// The root of the tree of a file or directory, or 0 where it has no page; the page of a pipe.
    pub root: u32,
    /// The inode number of the parent of a directory.
    pub parent: u32,
    /// The place of the first byte of a pipe in its page.
    pub start: u32,
}

/// The 32 bytes of an inode entry.
#[tactic(auto, using(crate::proofs::Rows::rows_spelled), unfolding(crate::specs::Files::inode_entry_of))]
pub fn inode_bytes(entry: Row<Inode>) -> [u8; 32]
    ensures { inode_entry_of result ≡ entry }
{
    match entry {
        Row::Free => [0; 32],
        Row::Used(inode) => used_bytes(inode),
        Row::Unspelled => [255; 32],
    }
}

// The 32 bytes of an inode: its kind and six words as words, and a word of zeros.
#[tactic(auto, using(crate::proofs::Rows::rows_spelled))]
fn used_bytes(inode: Inode) -> [u8; 32]
    ensures { inode_entry_of result ≡ Used inode }
{
    let kind = inode_kind_number(inode.kind);
    let first = four_words(kind, inode.length, inode.entries, inode.opens);
    let second = four_words(inode.root, inode.parent, inode.start, 0);
    joined(first, second)
}

/// The inode entry that 32 bytes spell.
#[tactic(auto, unfolding(crate::specs::Files::inode_entry_of))]
pub fn inode_entry_in(bytes: [u8; 32]) -> Row<Inode>
    ensures { result ≡ inode_entry_of bytes }
{
    match inode_kind_of(word_in(&bytes, 0)) {
        Some(kind) => inode_in(kind, bytes),
        None => no_inode(bytes),
    }
}

// The inode of this kind that 32 bytes spell.
fn inode_in(kind: InodeKind, bytes: [u8; 32]) -> Row<Inode>
    ensures { result ≡ inode_of_kind (Some kind) bytes }
{
    if word_in(&bytes, 28) != 0 {
        return Row::Unspelled;
    }
    Row::Used(Inode {
        kind,
        length: word_in(&bytes, 4),
        entries: word_in(&bytes, 8),
        opens: word_in(&bytes, 12),
        root: word_in(&bytes, 16),
        parent: word_in(&bytes, 20),
        start: word_in(&bytes, 24),
    })
}

// What 32 bytes spell that are no inode.
fn no_inode(bytes: [u8; 32]) -> Row<Inode>
    ensures { result ≡ inode_of_kind None bytes }
{
    if bytes == [0; 32] {
        Row::Free
    } else {
        Row::Unspelled
    }
}

// The number of a kind of inodes.
fn inode_kind_number(kind: InodeKind) -> u32
    ensures { inode_kind result ≡ Some kind }
{
    match kind {
        InodeKind::File => 1,
        InodeKind::Dir => 2,
        InodeKind::Pipe => 3,
        InodeKind::Console => 4,
    }
}

// The kind of inodes of a number.
fn inode_kind_of(number: u32) -> Option<InodeKind>
    ensures { result ≡ inode_kind number }
{
    match number {
        1 => Some(InodeKind::File),
        2 => Some(InodeKind::Dir),
        3 => Some(InodeKind::Pipe),
        4 => Some(InodeKind::Console),
        _ => None,
    }
}
