//! The functions over a store in memory of 8 pages and 64 nodes.

ghost use Rattle.std.specs.Prelude.{◌≡◌, ◌≢◌, ◌<◌, ◌≤◌, ◌+◌, ◌*◌, ℕ, length};
ghost use Rattle.kn_base.specs.Memory.{Memory};

use crate::calls::{key, read_page, set_key, store_of, write_page};
use kn_base::{Counts, Key, NodeId, PageId, Store};
use obj_store::RamStore;
use std::process::Abort;
use std::test::Fail;
use store_pattern::{Mood, Visitor, clear_node, copy_node, end_visit, entry, word, write_across};

// Clears a node, writes one of its keys, and copies it.
#[tactic(auto, using(kn_base::proofs::RowLaws::writes))]
fn clear_and_copy<T: Store>(store: &mut T, from: NodeId, to: NodeId)
    requires from { 16 * from.0 + 16 ≤ length (T.memory store.old).keys }
    requires to { 16 * to.0 + 16 ≤ length (T.memory store.old).keys }
    requires two_nodes { from.0 ≢ to.0 }
    ensures { length (T.memory store.new).keys ≡ length (T.memory store.old).keys }
{
    clear_node(store, from);
    copy_node(store, from, to);
}

// The same in a store in memory. What is left there is not said here and below, so that each test is proved quickly.
fn clear_and_copy_in(rt: &impl Abort, store: &mut RamStore, from: NodeId, to: NodeId) {
    let nodes = store.counts().nodes;
    assert!(rt; from.0 < nodes && to.0 < nodes && from.0 != to.0);
    clear_and_copy(store, from, to);
}

#[test]
fn a_node_is_copied_over_another(rt: HostRuntime) -> Result<(), Fail> {
    let mut store = store_of(rt.alloc(), 8, 64)?;
    set_key(&rt, &mut store, NodeId(7), 15, Key::Meter { slot: 9 });
    clear_and_copy_in(&rt, &mut store, NodeId(5), NodeId(7));
    assert!(rt; key(&rt, &store, NodeId(7), 15) == Some(Key::Null));
    Ok(())
}

// Writes four bytes, of which two are in the next page.
fn write_four(rt: &impl Abort, store: &mut RamStore, page: PageId, bytes: &[u8; 4]) {
    assert!(rt; page.0 < 7 && store.counts().pages == 8);
    write_across(store, page, 4094, bytes);
}

#[test]
fn bytes_pass_the_end_of_a_page(rt: HostRuntime) -> Result<(), Fail> {
    let mut store = store_of(rt.alloc(), 8, 64)?;
    write_four(&rt, &mut store, PageId(6), &[1, 2, 3, 4]);
    let mut bytes = [9; 3];
    read_page(&rt, &store, PageId(6), 4093, &mut bytes);
    assert!(rt; bytes == [0, 1, 2]);
    read_page(&rt, &store, PageId(7), 0, &mut bytes);
    assert!(rt; bytes == [3, 4, 0]);
    Ok(())
}

// A word of the book.
#[tactic(auto, unfolding(store_pattern::specs::Ledger::ledger_of))]
fn word_of(rt: &impl Abort, store: &RamStore, n: u32) -> u32 {
    assert!(rt; store.counts().pages == 8 && n < 1024);
    word(store, n)
}

// Ends a visit in the first row and in row 700 of a book of three pages, the fifth one.
#[tactic(auto, unfolding(store_pattern::specs::Ledger::ledger_of))]
fn end_in_row_700(rt: &impl Abort, store: &mut RamStore, visitor: Visitor) {
    assert!(rt;
        store.counts()
            == Counts {
                pages: 8,
                nodes: 64
            }
    );
    assert!(rt; word(store, 0) == 3);
    end_visit(store, 0, 700, visitor, 5);
}

// A row of a book of three pages.
#[tactic(auto, unfolding(store_pattern::specs::Ledger::ledger_of))]
fn entry_of(rt: &impl Abort, store: &RamStore, n: u32) -> Option<Visitor> {
    assert!(rt;
        store.counts()
            == Counts {
                pages: 8,
                nodes: 64
            }
    );
    assert!(rt; word(store, 0) == 3);
    assert!(rt; n < 1536);
    entry(store, n)
}

#[test]
fn rows_and_words_of_the_book_are_read_back(rt: HostRuntime) -> Result<(), Fail> {
    let mut store = store_of(rt.alloc(), 8, 64)?;
    write_page(&rt, &mut store, PageId(1), 0, &[3]);
    let visitor = Visitor {
        mood: Mood::Cross,
        day: 70_000,
    };
    end_in_row_700(&rt, &mut store, visitor);
    assert!(rt; word_of(&rt, &store, 0) == 3);
    assert!(rt; word_of(&rt, &store, 1) == 70_000);
    assert!(rt; word_of(&rt, &store, 2) == 5);
    assert!(rt; entry_of(&rt, &store, 700) == Some(visitor));
    assert!(rt; entry_of(&rt, &store, 699).is_none());
    let mut bytes = [0; 8];
    read_page(&rt, &store, PageId(3), 1504, &mut bytes);
    assert!(rt; bytes == [3, 0, 0, 0, 112, 17, 1, 0]);
    Ok(())
}
