//! A bank over a store in memory.

ghost use Rattle.std.specs.Prelude.{◌≡◌, ℕ, ◌<◌, ◌≤◌, ◌+◌, ◌-◌, ◌*◌, ◌%◌, ◌↔◌, ◌≢◌, false, IfOk, IsTrue};
ghost use Rattle.kn_base.specs.Memory.{Memory};
ghost use Rattle.kernel_tables.specs.Kernel.{Kernel, kernel_of, Sized, IsSized, IsBankPage, first_page, node_count};
ghost use Rattle.obj_store.specs.Store.{ram_memory};
ghost use Rattle.space_bank.specs.FreeList.{is_free};
ghost use Rattle.space_bank.specs.Bank.{BankGood, IsTakenOnce};
ghost use Rattle.space_bank.specs.Changes.{IsTaken};
ghost use Rattle.space_bank.specs.Shares.{NoneNamed, page_places, node_places};

use kernel_tables::{
    Description, Entry, Inode, InodeKind, Row, bank_size, description_entry, first_bank_page,
    inode_entry, key_at, node_entry, page_entry, read_bank_page,
};
use kn_base::{Counts, Key, NodeId, PageId, Store};
use obj_store::{NoMemory, RamStore};
use space_bank::{
    NodeOwner, PageOwner, Taken, copy_page, give_node, give_page, lower_node, lower_page,
    machine_word, node_count, page_count, promise, promised, raise_node, raise_page, setup,
    take_node, take_page, taken_of, unpromise, write_key, write_page,
};
use std::alloc::Global;
use std::process::Abort;
use std::test::Fail;

// An empty bank of so many pages, with 100 turns of each process to a round.
#[tactic(auto, unfolding(kernel_tables::specs::Kernel::first_page))]
fn bank_of(alloc: Global, pages: u32) -> Result<RamStore, Fail>
    requires least { 64 ≤ pages }
    requires most { pages ≤ 16384 }
    requires multiple { pages % 64 ≡ 0 }
    ensures good { IfOk result (λ store. BankGood (kernel_of (ram_memory store))) }
    ensures unnamed { IfOk result (λ store. NoneNamed (kernel_of (ram_memory store)).keys) }
{
    let all_pages = first_bank_page(pages) + pages;
    match RamStore::new(alloc, all_pages, 4 * pages + 1296) {
        Ok(mut store) => {
            setup(&mut store, pages, 100);
            Ok(store)
        }
        Err(NoMemory) => Err(Fail::from(NoMemory)),
    }
}

// Whether an object is taken and named once.
fn is_taken_once<O: Copy>(entry: Entry<O>) -> bool
    ensures { IsTrue result ↔ IsTakenOnce entry }
{
    match entry {
        Entry::Taken { count, .. } => count == 1,
        Entry::Free { .. } | Entry::Fixed | Entry::Unspelled => false,
    }
}

// Takes a page of a bank of 64 pages that was not taken before.
fn take_another_page<T: Store>(rt: &impl Abort, store: &mut T, taken: &mut [bool; 64])
    requires good { BankGood (kernel_of (T.memory store.old)) }
    requires unnamed { NoneNamed (kernel_of (T.memory store.old)).keys }
    ensures good { BankGood (kernel_of (T.memory store.new)) }
    ensures unnamed { NoneNamed (kernel_of (T.memory store.new)).keys }
{
    match take_page(store, PageOwner::Memory) {
        Some(page) => {
            assert!(rt; 23 <= page.0 && page.0 < 87);
            let place = page.0 as usize - 23;
            assert!(rt; !taken[place]);
            taken[place] = true;
        }
        None => panic!(rt; "no page is free"),
    }
}

// Takes all 64 pages of a bank, and finds no other one.
fn take_all_pages<T: Store>(rt: &impl Abort, store: &mut T)
    requires good { BankGood (kernel_of (T.memory store.old)) }
    requires unnamed { NoneNamed (kernel_of (T.memory store.old)).keys }
    ensures good { BankGood (kernel_of (T.memory store.new)) }
    ensures unnamed { NoneNamed (kernel_of (T.memory store.new)).keys }
{
    let mut taken = [false; 64];
    for _ in 0..64 {
        take_another_page(rt, store, &mut taken);
    }
    assert!(rt; take_page(store, PageOwner::Memory).is_none());
}

// Gives a page back that is taken and named once.
#[tactic(auto, unfolding(kernel_tables::specs::Kernel::first_page))]
fn give_page_back<T: Store>(rt: &impl Abort, store: &mut T, page: PageId)
    requires good { BankGood (kernel_of (T.memory store.old)) }
    requires unnamed { NoneNamed (kernel_of (T.memory store.old)).keys }
    ensures good { BankGood (kernel_of (T.memory store.new)) }
    ensures unnamed { NoneNamed (kernel_of (T.memory store.new)).keys }
{
    let size = bank_size(store);
    let first = first_bank_page(size);
    assert!(rt; first <= page.0 && page.0 < first + size);
    let entry = page_entry(store, page.0 - first);
    assert!(rt; is_taken_once(entry));
    give_page(store, page);
}

// Gives all 64 pages of a bank back, in steps of 37 round the bank.
fn give_all_pages_back<T: Store>(rt: &impl Abort, store: &mut T)
    requires good { BankGood (kernel_of (T.memory store.old)) }
    requires unnamed { NoneNamed (kernel_of (T.memory store.old)).keys }
    ensures good { BankGood (kernel_of (T.memory store.new)) }
    ensures unnamed { NoneNamed (kernel_of (T.memory store.new)).keys }
{
    for n in 0..64 {
        give_page_back(rt, store, PageId(23 + 37 * n % 64));
    }
}

// Takes a node of a bank of 64 pages that was not taken before.
fn take_another_node<T: Store>(rt: &impl Abort, store: &mut T, taken: &mut [bool; 1552])
    requires good { BankGood (kernel_of (T.memory store.old)) }
    requires unnamed { NoneNamed (kernel_of (T.memory store.old)).keys }
    ensures good { BankGood (kernel_of (T.memory store.new)) }
    ensures unnamed { NoneNamed (kernel_of (T.memory store.new)).keys }
{
    match take_node(store, NodeOwner::Tree) {
        Some(node) => {
            assert!(rt; 15 <= node.0 && node.0 < 1552);
            let place = node.0 as usize;
            assert!(rt; !taken[place]);
            taken[place] = true;
        }
        None => panic!(rt; "no node is free"),
    }
}

// Takes all 1,537 free nodes of a bank of 64 pages, and finds no other one.
fn take_all_nodes<T: Store>(rt: &impl Abort, store: &mut T)
    requires good { BankGood (kernel_of (T.memory store.old)) }
    requires unnamed { NoneNamed (kernel_of (T.memory store.old)).keys }
    ensures good { BankGood (kernel_of (T.memory store.new)) }
    ensures unnamed { NoneNamed (kernel_of (T.memory store.new)).keys }
{
    let mut taken = [false; 1552];
    for _ in 0..1537 {
        take_another_node(rt, store, &mut taken);
    }
    assert!(rt; take_node(store, NodeOwner::Tree).is_none());
}

// Gives a node back that is taken and named once.
fn give_node_back<T: Store>(rt: &impl Abort, store: &mut T, node: NodeId)
    requires good { BankGood (kernel_of (T.memory store.old)) }
    requires unnamed { NoneNamed (kernel_of (T.memory store.old)).keys }
    ensures good { BankGood (kernel_of (T.memory store.new)) }
    ensures unnamed { NoneNamed (kernel_of (T.memory store.new)).keys }
{
    let nodes = 4 * bank_size(store) + 1296;
    assert!(rt; node.0 < nodes);
    let entry = node_entry(store, node);
    assert!(rt; is_taken_once(entry));
    give_node(store, node);
}

// Gives all 1,537 nodes back that were taken, in steps of 1,000 round them.
fn give_all_nodes_back<T: Store>(rt: &impl Abort, store: &mut T)
    requires good { BankGood (kernel_of (T.memory store.old)) }
    requires unnamed { NoneNamed (kernel_of (T.memory store.old)).keys }
    ensures good { BankGood (kernel_of (T.memory store.new)) }
    ensures unnamed { NoneNamed (kernel_of (T.memory store.new)).keys }
{
    for n in 0..1537 {
        give_node_back(rt, store, NodeId(15 + 1000 * n % 1537));
    }
}

// What is taken. What it is is not said, here and below, so that each test is proved quickly.
fn taken_in<T: Store>(store: &T) -> Taken
    requires { BankGood (kernel_of (T.memory store.now)) }
{
    taken_of(store)
}

#[test]
fn each_page_is_taken_once_and_again_when_all_were_given_back(rt: HostRuntime) -> Result<(), Fail> {
    let mut store = bank_of(rt.alloc(), 64)?;
    take_all_pages(&rt, &mut store);
    let all = Taken {
        memory: 64,
        pages: 64,
        nodes: 0,
    };
    assert!(rt; taken_in(&store) == all);
    give_all_pages_back(&rt, &mut store);
    take_all_pages(&rt, &mut store);
    Ok(())
}

#[test]
fn each_node_is_taken_once_and_again_when_all_were_given_back(rt: HostRuntime) -> Result<(), Fail> {
    let mut store = bank_of(rt.alloc(), 64)?;
    take_all_nodes(&rt, &mut store);
    let all = Taken {
        memory: 0,
        pages: 0,
        nodes: 1537,
    };
    assert!(rt; taken_in(&store) == all);
    give_all_nodes_back(&rt, &mut store);
    take_all_nodes(&rt, &mut store);
    Ok(())
}

// Promises pages where there are so many.
fn is_granted<T: Store>(store: &mut T, pages: u32) -> bool
    requires { BankGood (kernel_of (T.memory store.old)) }
    ensures { BankGood (kernel_of (T.memory store.new)) }
{
    promise(store, pages)
}

// How many pages are promised.
fn promised_in<T: Store>(store: &T) -> u32
    requires { BankGood (kernel_of (T.memory store.now)) }
{
    promised(store)
}

// Takes the promise of some pages back.
fn take_back<T: Store>(rt: &impl Abort, store: &mut T, pages: u32)
    requires { BankGood (kernel_of (T.memory store.old)) }
    ensures { BankGood (kernel_of (T.memory store.new)) }
{
    assert!(rt; pages <= promised(store));
    unpromise(store, pages);
}

// A word of the machine's row.
fn word<T: Store>(rt: &impl Abort, store: &T, at: u16) -> u32
    requires { BankGood (kernel_of (T.memory store.now)) }
{
    assert!(rt; at <= 12 && at % 4 == 0);
    machine_word(store, at)
}

#[test]
fn no_more_pages_are_promised_than_there_are(rt: HostRuntime) -> Result<(), Fail> {
    let mut store = bank_of(rt.alloc(), 64)?;
    assert!(rt; is_granted(&mut store, 64));
    assert!(rt; !is_granted(&mut store, 1));
    assert!(rt; promised_in(&store) == 64);
    take_back(&rt, &mut store, 1);
    assert!(rt; is_granted(&mut store, 1));
    Ok(())
}

#[test]
fn the_words_of_an_empty_bank(rt: HostRuntime) -> Result<(), Fail> {
    let store = bank_of(rt.alloc(), 64)?;
    assert!(rt; word(&rt, &store, 0) == 64);
    assert!(rt; word(&rt, &store, 4) == 100);
    assert!(rt; word(&rt, &store, 8) == 0);
    assert!(rt; word(&rt, &store, 12) == 1);
    assert!(rt; promised_in(&store) == 0);
    Ok(())
}

// The row of an inode.
fn inode<T: Store>(rt: &impl Abort, store: &T, number: u32) -> Row<Inode>
    requires { BankGood (kernel_of (T.memory store.now)) }
{
    assert!(rt; number < 1024);
    inode_entry(store, number)
}

// The row of a description.
fn description<T: Store>(rt: &impl Abort, store: &T, number: u16) -> Row<Description>
    requires { BankGood (kernel_of (T.memory store.now)) }
{
    assert!(rt; number < 2048);
    description_entry(store, number)
}

#[test]
fn the_first_rows_of_an_empty_bank(rt: HostRuntime) -> Result<(), Fail> {
    let store = bank_of(rt.alloc(), 64)?;
    let console = Inode {
        kind: InodeKind::Console,
        length: 0,
        entries: 0,
        opens: 0,
        root: 0,
        parent: 0,
        start: 0,
    };
    let root = Inode {
        kind: InodeKind::Dir,
        entries: 1,
        parent: 1,
        ..console
    };
    assert!(rt; inode(&rt, &store, 0) == Row::Used(console));
    assert!(rt; inode(&rt, &store, 1) == Row::Used(root));
    assert!(rt; inode(&rt, &store, 1023) == Row::Free);
    assert!(rt; description(&rt, &store, 2047) == Row::Free);
    Ok(())
}

// Whether an object is taken.
fn is_taken<O: Copy>(entry: Entry<O>) -> bool
    ensures taken { IsTrue result ↔ IsTaken entry }
    ensures used { IsTrue result → is_free entry ≡ false }
{
    match entry {
        Entry::Taken { .. } => true,
        Entry::Free { .. } | Entry::Fixed | Entry::Unspelled => false,
    }
}

// Counts a page that is named once twice, and once again.
fn count_page_twice<T: Store>(rt: &impl Abort, store: &mut T, page: PageId)
    requires good { BankGood (kernel_of (T.memory store.old)) }
    requires page { IsBankPage (kernel_of (T.memory store.old)).size page.0 }
{
    let n = page.0 - first_bank_page(bank_size(store));
    let entry = page_entry(store, n);
    assert!(rt; is_taken(entry));
    assert!(rt; page_count(store, page) == 1);
    raise_page(store, page);
    assert!(rt; page_count(store, page) == 2);
    lower_page(store, page);
    assert!(rt; page_count(store, page) == 1);
}

// Counts a node that is named once twice, and once again.
fn count_node_twice<T: Store>(rt: &impl Abort, store: &mut T, node: NodeId)
    requires good { BankGood (kernel_of (T.memory store.old)) }
    requires node { node.0 < (kernel_of (T.memory store.old)).nodes }
{
    let entry = node_entry(store, node);
    assert!(rt; is_taken(entry));
    assert!(rt; node_count(store, node) == 1);
    raise_node(store, node);
    assert!(rt; node_count(store, node) == 2);
    lower_node(store, node);
    assert!(rt; node_count(store, node) == 1);
}

#[test]
fn a_taken_page_is_counted_once_and_more(rt: HostRuntime) -> Result<(), Fail> {
    let mut store = bank_of(rt.alloc(), 64)?;
    let page = take_page(&mut store, PageOwner::File).ok_or("no page")?;
    count_page_twice(&rt, &mut store, page);
    Ok(())
}

#[test]
fn a_taken_node_is_counted_once_and_more(rt: HostRuntime) -> Result<(), Fail> {
    let mut store = bank_of(rt.alloc(), 64)?;
    let node = take_node(&mut store, NodeOwner::FileTree).ok_or("no node")?;
    count_node_twice(&rt, &mut store, node);
    Ok(())
}

// Writes three bytes into a page, copies it over another one, and reads them there.
fn write_and_copy<T: Store>(rt: &impl Abort, store: &mut T, from: PageId, to: PageId)
    requires good { BankGood (kernel_of (T.memory store.old)) }
    requires from { IsBankPage (kernel_of (T.memory store.old)).size from.0 }
    requires to { IsBankPage (kernel_of (T.memory store.old)).size to.0 }
    requires two_pages { from.0 ≢ to.0 }
{
    let first = first_bank_page(bank_size(store));
    let source = page_entry(store, from.0 - first);
    assert!(rt; is_taken(source));
    write_page(store, from, 4093, &[1, 2, 3]);
    let target = page_entry(store, to.0 - first);
    assert!(rt; is_taken(target));
    copy_page(store, from, to);
    let mut bytes = [9; 4];
    read_bank_page(store, to, 4092, &mut bytes);
    assert!(rt; bytes == [0, 1, 2, 3]);
}

// Writes a key into a node, and reads it.
fn write_and_read<T: Store>(rt: &impl Abort, store: &mut T, node: NodeId, key: Key)
    requires good { BankGood (kernel_of (T.memory store.old)) }
    requires node { node.0 < (kernel_of (T.memory store.old)).nodes }
{
    let entry = node_entry(store, node);
    assert!(rt; is_taken(entry));
    write_key(store, node, 15, key);
    assert!(rt; key_at(store, node, 15) == Some(key));
    assert!(rt; key_at(store, node, 14) == Some(Key::Null));
}

#[test]
fn a_copied_page_holds_what_was_written(rt: HostRuntime) -> Result<(), Fail> {
    let mut store = bank_of(rt.alloc(), 64)?;
    let from = take_page(&mut store, PageOwner::Memory).ok_or("no page")?;
    let to = take_page(&mut store, PageOwner::Memory).ok_or("no page")?;
    assert!(rt; from.0 != to.0);
    write_and_copy(&rt, &mut store, from, to);
    Ok(())
}

#[test]
fn a_taken_node_holds_a_key(rt: HostRuntime) -> Result<(), Fail> {
    let mut store = bank_of(rt.alloc(), 64)?;
    let node = take_node(&mut store, NodeOwner::Tree).ok_or("no node")?;
    write_and_read(&rt, &mut store, node, Key::Meter { slot: 7 });
    Ok(())
}

// How many pages a bank has, and how many nodes and blocks its store has.
fn sizes(store: &RamStore) -> (u32, u32, u32)
    requires { BankGood (kernel_of (ram_memory store.now)) }
{
    (bank_size(store), store.counts().nodes, store.blocks())
}

// A bank of so many pages has so many pages before it, nodes and blocks.
fn has_sizes(
    rt: &impl Abort,
    alloc: Global,
    pages: u32,
    nodes: u32,
    first: u32,
    blocks: u32,
) -> Result<(), Fail>
    requires least { 64 ≤ pages }
    requires most { pages ≤ 16384 }
    requires multiple { pages % 64 ≡ 0 }
{
    let store = bank_of(alloc, pages)?;
    assert!(rt; sizes(&store) == (pages, nodes, blocks));
    assert!(rt; first_bank_page(pages) == first);
    Ok(())
}

#[test]
fn banks_of_three_sizes(rt: HostRuntime) -> Result<(), Fail> {
    has_sizes(&rt, rt.alloc(), 64, 1552, 23, 184)?;
    has_sizes(&rt, rt.alloc(), 2048, 9488, 41, 2682)?;
    has_sizes(&rt, rt.alloc(), 16384, 66832, 181, 20742)
}
