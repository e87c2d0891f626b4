//! A store of 87 pages and 1,552 nodes.

use crate::calls::{
    blocks, clean, clear_page, copy_page, get_block, key, mark, put_block, read_page, set_key,
    store_of, write_page,
};
use kn_base::{Key, NodeId, PageId};
use obj_store::RamStore;
use std::process::Abort;
use std::test::Fail;

// This block is marked, and no other.
fn only_dirty(rt: &impl Abort, store: &RamStore, block: u32) {
    for number in 0..store.blocks() {
        assert!(rt; store.is_dirty(number) == (number == block));
    }
}

// No block is marked.
fn all_clean(rt: &impl Abort, store: &RamStore) {
    for number in 0..store.blocks() {
        assert!(rt; !store.is_dirty(number));
    }
}

#[test]
fn a_new_store_has_a_block_for_each_page_and_for_sixteen_nodes(
    rt: HostRuntime,
) -> Result<(), Fail> {
    let store = store_of(rt.alloc(), 87, 1552)?;
    assert!(rt; blocks(&store) == 184);
    all_clean(&rt, &store);
    Ok(())
}

#[test]
fn a_key_that_is_written_marks_the_block_of_its_node(rt: HostRuntime) -> Result<(), Fail> {
    let mut store = store_of(rt.alloc(), 87, 1552)?;
    set_key(&rt, &mut store, NodeId(33), 15, Key::Meter { slot: 7 });
    only_dirty(&rt, &store, 89);
    let written = Key::Meter { slot: 7 };
    assert!(rt; key(&rt, &store, NodeId(33), 15) == Some(written));
    let mut block = [0; 4096];
    assert!(rt; blocks(&store) == 184);
    get_block(&rt, &store, 89, &mut block);
    assert!(rt; block[496..512] == [8, 7, 0, 0, 0, 0, 0, 0, 0, 0, 0, 0, 0, 0, 0, 0]);
    clean(&mut store);
    all_clean(&rt, &store);
    Ok(())
}

#[test]
fn bytes_that_are_written_mark_their_page(rt: HostRuntime) -> Result<(), Fail> {
    let mut store = store_of(rt.alloc(), 87, 1552)?;
    write_page(&rt, &mut store, PageId(86), 4093, &[1, 2, 3]);
    only_dirty(&rt, &store, 86);
    let mut bytes = [9; 4];
    read_page(&rt, &store, PageId(86), 4092, &mut bytes);
    assert!(rt; bytes == [0, 1, 2, 3]);
    Ok(())
}

#[test]
fn a_copy_marks_the_page_that_it_makes(rt: HostRuntime) -> Result<(), Fail> {
    let mut store = store_of(rt.alloc(), 87, 1552)?;
    write_page(&rt, &mut store, PageId(5), 0, &[7]);
    clean(&mut store);
    copy_page(&rt, &mut store, PageId(5), PageId(6));
    only_dirty(&rt, &store, 6);
    let mut bytes = [9; 2];
    read_page(&rt, &store, PageId(6), 0, &mut bytes);
    assert!(rt; bytes == [7, 0]);
    Ok(())
}

#[test]
fn a_page_that_is_cleared_is_marked(rt: HostRuntime) -> Result<(), Fail> {
    let mut store = store_of(rt.alloc(), 87, 1552)?;
    write_page(&rt, &mut store, PageId(5), 4095, &[7]);
    clean(&mut store);
    clear_page(&rt, &mut store, PageId(5));
    only_dirty(&rt, &store, 5);
    let mut bytes = [9; 2];
    read_page(&rt, &store, PageId(5), 4094, &mut bytes);
    assert!(rt; bytes == [0, 0]);
    Ok(())
}

#[test]
fn a_block_that_is_put_keeps_its_mark_until_it_is_marked(rt: HostRuntime) -> Result<(), Fail> {
    let mut store = store_of(rt.alloc(), 87, 1552)?;
    assert!(rt; blocks(&store) == 184);
    put_block(&rt, &mut store, 183, &[5; 4096]);
    all_clean(&rt, &store);
    assert!(rt; blocks(&store) == 184);
    mark(&rt, &mut store, 183);
    only_dirty(&rt, &store, 183);
    let mut block = [0; 4096];
    assert!(rt; blocks(&store) == 184);
    get_block(&rt, &store, 183, &mut block);
    assert!(rt; block.iter().all(|byte| *byte == 5));
    Ok(())
}
