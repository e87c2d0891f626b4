//! Calls of a store in memory. They test what they require, and have no clauses, so that each test is proved quickly.

use kn_base::{Counts, Key, NodeId, PageId, Store};
use obj_store::RamStore;
use std::alloc::Global;
use std::process::Abort;
use std::test::Fail;

// A store of so many pages and nodes.
pub fn store_of(alloc: Global, pages: u32, nodes: u32) -> Result<RamStore, Fail> {
    if pages > 100 || nodes > 10_000 || nodes % 16 != 0 {
        return Err(Fail::new("another size"));
    }
    let store = RamStore::new(alloc, pages, nodes)?;
    if store.counts() != (Counts { pages, nodes }) {
        return Err(Fail::new("other counts"));
    }
    Ok(store)
}

pub fn blocks(store: &RamStore) -> u32 {
    store.blocks()
}

pub fn clean(store: &mut RamStore) {
    store.clean();
}

pub fn set_key(rt: &impl Abort, store: &mut RamStore, node: NodeId, place: u8, key: Key) {
    assert!(rt; node.0 < store.counts().nodes && place < 16);
    store.set_key(node, place, key);
}

// The key at a place of a node, where one is spelled.
pub fn key(rt: &impl Abort, store: &RamStore, node: NodeId, place: u8) -> Option<Key> {
    assert!(rt; node.0 < store.counts().nodes && place < 16);
    if store.spells_key(node, place) {
        Some(store.key(node, place))
    } else {
        None
    }
}

pub fn write_page(rt: &impl Abort, store: &mut RamStore, page: PageId, at: u16, from: &[u8]) {
    assert!(rt; page.0 < store.counts().pages && at < 4096);
    assert!(rt; from.len() <= 4096 - at as usize);
    store.write_page(page, at, from);
}

pub fn read_page(rt: &impl Abort, store: &RamStore, page: PageId, at: u16, into: &mut [u8]) {
    assert!(rt; page.0 < store.counts().pages && at < 4096);
    assert!(rt; into.len() <= 4096 - at as usize);
    store.read_page(page, at, into);
}

pub fn copy_page(rt: &impl Abort, store: &mut RamStore, from: PageId, to: PageId) {
    let pages = store.counts().pages;
    assert!(rt; from.0 < pages && to.0 < pages && from.0 != to.0);
    store.copy_page(from, to);
}

pub fn clear_page(rt: &impl Abort, store: &mut RamStore, page: PageId) {
    assert!(rt; page.0 < store.counts().pages);
    store.clear_page(page);
}

pub fn get_block(rt: &impl Abort, store: &RamStore, number: u32, into: &mut [u8; 4096]) {
    assert!(rt; number < store.blocks());
    store.get_block(number, into);
}

pub fn put_block(rt: &impl Abort, store: &mut RamStore, number: u32, from: &[u8; 4096]) {
    assert!(rt; number < store.blocks());
    store.put_block(number, from);
}

pub fn mark(rt: &impl Abort, store: &mut RamStore, number: u32) {
    assert!(rt; number < store.blocks());
    store.mark(number);
}
