//! The store: pages of bytes and nodes of sixteen keys.

ghost use Rattle.std.specs.Prelude.{◌≡◌, ◌≢◌, ◌<◌, ◌≤◌, ◌+◌, ◌*◌, ◌/◌, ◌^◌, ◌↔◌, ℕ, Some, List, [], length, IsTrue, IsSome, slice_index, slice_index_or, slice_set};
ghost use Rattle.kn_base.specs.Rows.{part_at, overwritten};
ghost use Rattle.kn_base.specs.Memory.{Memory, page_at, key_at, zero_page, memory_of, with_key_bytes, ChangesBlock};

use super::{Key, NodeId, PageId};

/// How many pages and nodes a store has.
#[derive(Clone, Copy, Debug, PartialEq, Eq)]
pub struct Counts {
    pub pages: u32,
    pub nodes: u32,
}

/// A store of pages of 4,096 bytes and of nodes of sixteen keys. Its calls cannot fail.
///
/// A store is a list of blocks: its pages, and behind them the nodes, sixteen to a block. Contracts speak of the same
/// thing as `memory`, pages of bytes and one flat list of keys in which key `k` of node `n` stands at place
/// `16 * n + k`; `tied` says how the two go together. What else a type keeps from call to call stands in `keeps`.
pub trait Store {
    /// All bytes, in blocks of 4,096.
    ghost blocks: { Self → List (List ℕ) };

    /// The pages and keys in the blocks.
    ghost memory: { Self → Memory };

    /// What the type promises of a store before and after a call, beside the blocks.
    ghost keeps: { Self → Self → Type 0 };

    /// How many pages and nodes there are.
    fn counts(&self) -> Counts
        ensures pages { result.pages ≡ length (memory self.now).pages }
        ensures nodes { 16 * result.nodes ≡ length (memory self.now).keys };

    /// Whether the bytes at a place of a node spell a key. `place` is 0 to 15.
    fn spells_key(&self, node: NodeId, place: u8) -> bool
        requires node { 16 * node.0 < length (memory self.now).keys }
        requires place { place < 16 }
        ensures { IsTrue result ↔ IsSome (key_at (memory self.now) node.0 place) };

    /// The key at a place of a node, where `spells_key` says that there is one.
    fn key(&self, node: NodeId, place: u8) -> Key
        requires node { 16 * node.0 < length (memory self.now).keys }
        requires place { place < 16 }
        requires spelled { IsSome (key_at (memory self.now) node.0 place) }
        ensures { key_at (memory self.now) node.0 place ≡ Some result };

    /// Writes a key at a place of a node.
    fn set_key(&mut self, node: NodeId, place: u8, key: Key)
        requires node { 16 * node.0 < length (memory self.old).keys }
        requires place { place < 16 }
        ensures written { memory self.new ≡ record (memory self.old) { keys = slice_set (memory self.old).keys (16 * node.0 + place) (Some key) } }
        ensures bytes { blocks self.new ≡ with_key_bytes (blocks self.old) (length (memory self.old).pages) node.0 place key }
        ensures one_block { ChangesBlock (blocks self.old) (blocks self.new) (length (memory self.old).pages + node.0 / 16) }
        ensures keeps { keeps self.old self.new };

    /// Reads the bytes of a page from `at` on, as many as `into` has.
    fn read_page(&self, page: PageId, at: u16, into: &mut [u8])
        requires page { page.0 < length (memory self.now).pages }
        requires within { at + length into.old ≤ 4096 }
        ensures { into.new ≡ part_at (page_at (memory self.now) page.0) at (length into.old) };

    /// Writes bytes into a page from `at` on.
    fn write_page(&mut self, page: PageId, at: u16, from: &[u8])
        requires page { page.0 < length (memory self.old).pages }
        requires within { at + length from.now ≤ 4096 }
        ensures written { memory self.new ≡ record (memory self.old) { pages = slice_set (memory self.old).pages page.0 (overwritten (page_at (memory self.old) page.0) at from.now) } }
        ensures one_block { ChangesBlock (blocks self.old) (blocks self.new) page.0 }
        ensures keeps { keeps self.old self.new };

    /// Copies a page over another one.
    fn copy_page(&mut self, from: PageId, to: PageId)
        requires from { from.0 < length (memory self.old).pages }
        requires to { to.0 < length (memory self.old).pages }
        requires two_pages { from.0 ≢ to.0 }
        ensures written { memory self.new ≡ record (memory self.old) { pages = slice_set (memory self.old).pages to.0 (page_at (memory self.old) from.0) } }
        ensures one_block { ChangesBlock (blocks self.old) (blocks self.new) to.0 }
        ensures keeps { keeps self.old self.new };

    /// Makes all bytes of a page zero.
    fn clear_page(&mut self, page: PageId)
        requires { page.0 < length (memory self.old).pages }
        ensures written { memory self.new ≡ record (memory self.old) { pages = slice_set (memory self.old).pages page.0 zero_page } }
        ensures one_block { ChangesBlock (blocks self.old) (blocks self.new) page.0 }
        ensures keeps { keeps self.old self.new };

    /// The pages and keys are those of the blocks.
    ghost tied: { (s : Self) → memory s ≡ memory_of (length (memory s).pages) (blocks s) };

    /// Pages and nodes are numbered in 32 bits.
    ghost page_numbers: { (s : Self) → length (memory s).pages < 2 ^ 32 };

    ghost node_numbers: { (s : Self) → length (memory s).keys < 2 ^ 36 };

    /// Each block that is no page holds 256 keys.
    ghost key_count: { (s : Self) → 256 * length (blocks s) ≡ 256 * length (memory s).pages + length (memory s).keys };

    /// A block has 4,096 bytes.
    ghost block_length: { (s : Self) (block : ℕ) → block < length (blocks s) → length (slice_index_or (blocks s) block []) ≡ 4096 };

    /// A block holds bytes.
    ghost block_bytes: { (s : Self) (block place : ℕ) → slice_index (slice_index_or (blocks s) block []) place < 256 };

    /// A page has 4,096 bytes.
    ghost page_length: { (s : Self) (page : ℕ) → page < length (memory s).pages → length (page_at (memory s) page) ≡ 4096 };

    /// A page holds bytes.
    ghost page_bytes: { (s : Self) (page place : ℕ) → slice_index (page_at (memory s) page) place < 256 };

    /// A store that has not changed is kept.
    ghost keeps_same: { (s : Self) → keeps s s };

    /// What is kept by one change and by the next is kept by both.
    ghost keeps_trans: { (a b c : Self) → keeps a b → keeps b c → keeps a c };
}
