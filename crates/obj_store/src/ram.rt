//! A store in memory with marks.

ghost use Rattle.std.specs.Prelude.{◌≡◌, ◌<◌, ◌≤◌, ◌+◌, ◌*◌, ◌%◌, ◌^◌, ℕ, [], Some, length, drop, vec_len, slice_index, slice_index_or, replicate, IfOk, IfSome, IsSome};
ghost use Rattle.kn_base.specs.Keys.{spelled_key};
ghost use Rattle.kn_base.specs.Memory.{zero_page};

use kn_base::{Counts, Key, NodeId, PageId, Store, bytes_of, key_of};
use kn_io::NoMemory;
use std::alloc::{AllocError, Global};

/// All blocks of a store in memory: the pages, and behind them the nodes, sixteen to a block. Each block has a mark,
/// which the calls of `Store` set where they change it.
#[derive(Drop)]
pub struct RamStore {
    pages: u32,
    nodes: u32,
    blocks: Vec<[u8; 4096]>,
    dirty: Vec<bool>,
    ghost marks: { vec_len dirty ≡ vec_len blocks },
    ghost counted: { 16 * vec_len blocks ≡ 16 * pages + nodes },
    ghost few: { vec_len blocks < 2 ^ 32 },
    ghost few_nodes: { nodes < 2 ^ 32 },
    ghost whole: { (block : ℕ) → block < length blocks.items → length (slice_index_or blocks.items block []) ≡ 4096 },
    ghost bytes: { (block place : ℕ) → slice_index (slice_index_or blocks.items block []) place < 256 },
}

// A block of zeros.
#[tactic(auto, unfolding(kn_base::specs::Memory::zero_page))]
fn zero_block() -> [u8; 4096]
    ensures { result ≡ zero_page }
{
    [0; 4096]
}

// So many blocks of zeros.
fn zero_blocks(alloc: Global, count: u32) -> Result<Vec<[u8; 4096]>, AllocError>
    ensures { IfOk result (λ blocks. blocks.items ≡ replicate count zero_page) }
{
    let mut blocks = Vec::with_capacity(alloc, count as usize)?;
    for _ in 0..count {
        blocks.push(zero_block())?;
    }
    Ok(blocks)
}

impl RamStore {
    ghost use Rattle.std.specs.Prelude.{◌≡◌, ◌<◌, ◌≤◌, ◌+◌, ◌*◌, ◌/◌, ◌%◌, ◌^◌, ℕ, true, false, [], length, replicate, slice_index_or, slice_set, IfOk};
    ghost use Rattle.kn_base.specs.Rows.{overwritten};
    ghost use Rattle.kn_base.specs.Memory.{zero_page, Memory, zero_memory};
    ghost use Rattle.obj_store.specs.Ram.{Ram, with_block, zero_ram};
    ghost use Rattle.obj_store.specs.Store.{ram_of, ram_memory};

    /// A store of `pages` pages and `nodes` nodes, all zero, in which nothing is marked.
    pub fn new(alloc: Global, pages: u32, nodes: u32) -> Result<RamStore, NoMemory>
        requires whole_blocks { nodes % 16 ≡ 0 }
        requires size { pages + nodes / 16 < 2 ^ 32 }
        ensures blocks { IfOk result (λ store. ram_of store ≡ zero_ram pages nodes) }
        ensures memory { IfOk result (λ store. ram_memory store ≡ zero_memory pages nodes) }
    {
        let count = pages + nodes / 16;
        let blocks = match zero_blocks(alloc, count) {
            Ok(blocks) => blocks,
            Err(_) => return Err(NoMemory),
        };
        let dirty = match vec![in alloc; false; count as usize] {
            Ok(dirty) => dirty,
            Err(_) => return Err(NoMemory),
        };
        Ok(RamStore {
            pages,
            nodes,
            blocks,
            dirty,
        })
    }

    /// How many blocks there are.
    pub fn blocks(&self) -> u32
        ensures { result ≡ length (ram_of self.now).blocks }
    {
        self.blocks.len() as u32
    }

    /// Reads a block.
    pub fn get_block(&self, number: u32, into: &mut [u8; 4096])
        requires { number < length (ram_of self.now).blocks }
        ensures { into.new ≡ slice_index_or (ram_of self.now).blocks number [] }
    {
        *into = self.blocks[number as usize];
    }

    /// Replaces a block. Its mark stays as it is.
    pub fn put_block(&mut self, number: u32, from: &[u8; 4096])
        requires { number < length (ram_of self.old).blocks }
        ensures { ram_of self.new ≡ record (ram_of self.old) { blocks = slice_set (ram_of self.old).blocks number from.now } }
    {
        self.blocks[number as usize] = *from;
    }

    /// Whether a block is marked.
    pub fn is_dirty(&self, number: u32) -> bool
        requires { number < length (ram_of self.now).blocks }
        ensures { result ≡ slice_index_or (ram_of self.now).dirty number false }
    {
        self.dirty[number as usize]
    }

    /// Marks a block.
    pub fn mark(&mut self, number: u32)
        requires { number < length (ram_of self.old).blocks }
        ensures { ram_of self.new ≡ record (ram_of self.old) { dirty = slice_set (ram_of self.old).dirty number true } }
    {
        self.dirty[number as usize] = true;
    }

    /// Drops all marks.
    pub fn clean(&mut self)
        ensures { ram_of self.new ≡ record (ram_of self.old) { dirty = replicate (length (ram_of self.old).blocks) false } }
    {
        self.dirty.fill(false);
    }

    // Writes bytes into a block, and marks it.
    fn put(&mut self, number: u32, at: usize, from: &[u8])
        requires number { number < length (ram_of self.old).blocks }
        requires within { at + length from.now ≤ 4096 }
        ensures { ram_of self.new ≡ with_block (ram_of self.old) number (overwritten (slice_index_or (ram_of self.old).blocks number []) at from.now) }
    {
        let place = number as usize;
        let block = &mut self.blocks[place];
        block[at..at + from.len()].copy_from_slice(from);
        self.dirty[place] = true;
    }
}

impl RamStore {
    ghost use Rattle.std.specs.Prelude.{◌≡◌, ◌<◌, ◌≤◌, ◌+◌, ◌*◌, ◌/◌, ◌%◌, ℕ, length, slice_index_or, slice_set, []};
    ghost use Rattle.kn_base.specs.Keys.{spelled_key};
    ghost use Rattle.kn_base.specs.Rows.{part_at, overwritten};
    ghost use Rattle.kn_base.specs.Memory.{Memory, key_at, page_at, ChangesBlock};
    ghost use Rattle.obj_store.specs.Ram.{Ram, KeepsMarks};
    ghost use Rattle.obj_store.specs.Store.{ram_of, ram_memory};

    // The bytes of a block.
    fn block(&self, number: u32) -> &[u8; 4096]
        requires { number < length (ram_of self.now).blocks }
        ensures { result.now ≡ slice_index_or (ram_of self.now).blocks number [] }
    {
        &self.blocks[number as usize]
    }

    // The bytes of a page.
    fn page(&self, page: PageId) -> &[u8; 4096]
        requires { page.0 < length (ram_memory self.now).pages }
        ensures { result.now ≡ page_at (ram_memory self.now) page.0 }
    {
        self.block(page.0)
    }

    // Replaces a page, and marks it.
    fn replace(&mut self, page: PageId, bytes: &[u8; 4096])
        requires { page.0 < length (ram_memory self.old).pages }
        ensures written { ram_memory self.new ≡ record (ram_memory self.old) { pages = slice_set (ram_memory self.old).pages page.0 bytes.now } }
        ensures one_block { ChangesBlock (ram_of self.old).blocks (ram_of self.new).blocks page.0 }
        ensures marks { KeepsMarks (ram_of self.old) (ram_of self.new) }
    {
        self.put_block(page.0, bytes);
        self.mark(page.0);
    }

    // The block in which a node stands.
    fn block_of(&self, node: NodeId) -> u32
        requires { 16 * node.0 < length (ram_memory self.now).keys }
        ensures place { result ≡ (ram_of self.now).pages + node.0 / 16 }
        ensures inside { result < length (ram_of self.now).blocks }
    {
        self.pages + node.0 / 16
    }

    // The sixteen bytes at a place of a node.
    fn key_bytes(&self, node: NodeId, place: u8) -> [u8; 16]
        requires node { 16 * node.0 < length (ram_memory self.now).keys }
        requires place { place < 16 }
        ensures { spelled_key result ≡ key_at (ram_memory self.now) node.0 place }
    {
        let block = self.block(self.block_of(node));
        let at = key_offset(node, place);
        sixteen_bytes(&block[at..at + 16])
    }
}

// Where a key begins in the block of its node.
fn key_offset(node: NodeId, place: u8) -> usize
    requires { place < 16 }
    ensures { result ≡ 256 * (node.0 % 16) + 16 * place }
{
    256 * (node.0 as usize % 16) + 16 * place as usize
}

// Sixteen bytes of a slice.
fn sixteen_bytes(bytes: &[u8]) -> [u8; 16]
    requires { length bytes.now ≡ 16 }
    ensures { result ≡ bytes.now }
{
    let mut sixteen = [0; 16];
    sixteen.copy_from_slice(bytes);
    sixteen
}

// The body in the sixteen bytes of a key.
fn body_in(bytes: [u8; 16]) -> [u8; 12]
    ensures { result ≡ drop 4 bytes }
{
    let mut body = [0; 12];
    body.copy_from_slice(&bytes[4..]);
    body
}

// The number that these bytes spell, if they spell a key and it is one. Registers are read so, without spelling them again.
fn number_in(bytes: [u8; 16]) -> Option<Key>
    ensures { IfSome result (λ key. IsSome (spelled_key bytes) → spelled_key bytes ≡ Some key) }
{
    let [kind, ..] = bytes;
    if kind == 1 {
        Some(Key::Number(body_in(bytes)))
    } else {
        None
    }
}

// The key that these bytes spell.
fn known_key(bytes: [u8; 16]) -> Key
    requires { IsSome (spelled_key bytes) }
    ensures { spelled_key bytes ≡ Some result }
{
    match key_of(bytes) {
        Some(key) => key,
        None => unreachable!(),
    }
}

impl Store for RamStore {
    ghost use Rattle.kn_base.specs.Memory.{Memory, memory_of};
    ghost use Rattle.obj_store.specs.Ram.{KeepsMarks, Ram};
    ghost use Rattle.obj_store.specs.Store.{ram_of, ram_memory};
    ghost use Rattle.obj_store.specs.StoreLaws as laws;

    ghost blocks = { λ s. (ram_of s).blocks };

    ghost memory = { ram_memory };

    ghost keeps = { λ a b. KeepsMarks (ram_of a) (ram_of b) };

    fn counts(&self) -> Counts {
        Counts {
            pages: self.pages,
            nodes: self.nodes,
        }
    }

    fn spells_key(&self, node: NodeId, place: u8) -> bool {
        key_of(self.key_bytes(node, place)).is_some()
    }

    fn key(&self, node: NodeId, place: u8) -> Key {
        let bytes = self.key_bytes(node, place);
        match number_in(bytes) {
            Some(key) => key,
            None => known_key(bytes),
        }
    }

    fn set_key(&mut self, node: NodeId, place: u8, key: Key) {
        let number = self.block_of(node);
        self.put(number, key_offset(node, place), &bytes_of(key));
    }

    fn read_page(&self, page: PageId, at: u16, into: &mut [u8]) {
        let bytes = self.page(page);
        into.copy_from_slice(&bytes[at as usize..at as usize + into.len()]);
    }

    fn write_page(&mut self, page: PageId, at: u16, from: &[u8]) {
        self.put(page.0, at as usize, from);
    }

    fn copy_page(&mut self, from: PageId, to: PageId) {
        let bytes = *self.page(from);
        self.replace(to, &bytes);
    }

    fn clear_page(&mut self, page: PageId) {
        self.replace(page, &zero_block());
    }

    ghost tied = { laws.ram-tied };

    ghost page_numbers = { laws.ram-page_numbers };

    ghost node_numbers = { laws.ram-node_numbers };

    ghost key_count = { laws.ram-key_count };

    ghost block_length = { λ s. s.whole };

    ghost block_bytes = { λ s. s.bytes };

    ghost page_length = { laws.ram-page_length };

    ghost page_bytes = { laws.ram-page_bytes };

    ghost keeps_same = { λ s. laws.ram-keeps_same (ram_of s) };

    ghost keeps_trans = { λ a b c. laws.ram-keeps_trans (ram_of a) (ram_of b) (ram_of c) };
}
