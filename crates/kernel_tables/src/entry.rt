//! Entries of pages and nodes: who owns an object, and how often it is named.

ghost use Rattle.std.specs.Prelude.{◌≡◌, ◌≢◌, ℕ, ◌∷◌};
ghost use Rattle.std.specs.Int.{to_le_bytes, w32};
ghost use Rattle.kernel_tables.specs.declared.entry.Entry.TheVariants.{Taken, Fixed, Unspelled};
ghost use Rattle.kernel_tables.specs.Entries.{page_entry_of, node_entry_of, page_entry_by_owner, node_entry_by_owner};

/// What a page of the bank is used for.
#[derive(Clone, Copy, Debug, PartialEq, Eq)]
pub enum PageOwner {
    Memory,
    File,
    Directory,
    Pipe,
    Buffer,
}

/// What a node of the bank is used for.
#[derive(Clone, Copy, Debug, PartialEq, Eq)]
pub enum NodeOwner {
    Domain,
    Tree,
    FileTree,
}

/// The entry of a page or a node.
#[derive(Clone, Copy, Debug, PartialEq, Eq)]
pub enum Entry<O> {
    /// A free object. `next` is the next free one, or 0 at the end of the list.
    Free { next: u32 },
    /// An object in use. `count` is the number of places that name it.
    Taken { owner: O, count: u32 },
    /// An object that always stands for the same thing.
    Fixed,
    /// Bytes that are no entry's spelling.
    Unspelled,
}

/// The eight bytes of the entry of a page.
#[tactic(auto, unfolding(crate::specs::Entries::page_entry_of))]
pub fn page_entry_bytes(entry: Entry<PageOwner>) -> [u8; 8]
    requires { entry ≢ Fixed }
    ensures { page_entry_of result ≡ entry }
{
    match entry {
        Entry::Free { next } => entry_bytes(0, next),
        Entry::Taken { owner, count } => entry_bytes(page_owner_number(owner), count),
        Entry::Fixed | Entry::Unspelled => entry_bytes(255, 0),
    }
}

/// The entry of a page that eight bytes spell.
#[tactic(auto, unfolding(crate::specs::Entries::page_entry_of))]
pub fn page_entry_in(bytes: [u8; 8]) -> Entry<PageOwner>
    ensures { result ≡ page_entry_of bytes }
{
    let [owner, b, c, d, w, x, y, z] = bytes;
    if b != 0 || c != 0 || d != 0 {
        return Entry::Unspelled;
    }
    let word = u32::from_le_bytes([w, x, y, z]);
    let owner = match owner {
        0 => return Entry::Free { next: word },
        1 => PageOwner::Memory,
        2 => PageOwner::File,
        3 => PageOwner::Directory,
        4 => PageOwner::Pipe,
        5 => PageOwner::Buffer,
        _ => return Entry::Unspelled,
    };
    Entry::Taken { owner, count: word }
}

/// The eight bytes of the entry of a node.
#[tactic(auto, unfolding(crate::specs::Entries::node_entry_of))]
pub fn node_entry_bytes(entry: Entry<NodeOwner>) -> [u8; 8]
    ensures { node_entry_of result ≡ entry }
{
    match entry {
        Entry::Free { next } => entry_bytes(0, next),
        Entry::Taken { owner, count } => entry_bytes(node_owner_number(owner), count),
        Entry::Fixed => entry_bytes(4, 0),
        Entry::Unspelled => entry_bytes(255, 0),
    }
}

/// The entry of a node that eight bytes spell.
#[tactic(auto, unfolding(crate::specs::Entries::node_entry_of))]
pub fn node_entry_in(bytes: [u8; 8]) -> Entry<NodeOwner>
    ensures { result ≡ node_entry_of bytes }
{
    let [owner, b, c, d, w, x, y, z] = bytes;
    if b != 0 || c != 0 || d != 0 {
        return Entry::Unspelled;
    }
    let word = u32::from_le_bytes([w, x, y, z]);
    let owner = match owner {
        0 => return Entry::Free { next: word },
        1 => NodeOwner::Domain,
        2 => NodeOwner::Tree,
        3 => NodeOwner::FileTree,
        4 if word == 0 => return Entry::Fixed,
        _ => return Entry::Unspelled,
    };
    Entry::Taken { owner, count: word }
}

// The eight bytes of an entry: the owner, three zeros, and the word.
fn entry_bytes(owner: u8, word: u32) -> [u8; 8]
    ensures { result ≡ owner ∷ 0 ∷ 0 ∷ 0 ∷ to_le_bytes w32 word }
{
    let [a, b, c, d] = word.to_le_bytes();
    [owner, 0, 0, 0, a, b, c, d]
}

// The number of an owner of pages.
fn page_owner_number(owner: PageOwner) -> u8
    ensures { (word : ℕ) → page_entry_by_owner result word ≡ Taken owner word }
{
    match owner {
        PageOwner::Memory => 1,
        PageOwner::File => 2,
        PageOwner::Directory => 3,
        PageOwner::Pipe => 4,
        PageOwner::Buffer => 5,
    }
}

// The number of an owner of nodes.
fn node_owner_number(owner: NodeOwner) -> u8
    ensures { (word : ℕ) → node_entry_by_owner result word ≡ Taken owner word }
{
    match owner {
        NodeOwner::Domain => 1,
        NodeOwner::Tree => 2,
        NodeOwner::FileTree => 3,
    }
}
