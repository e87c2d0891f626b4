//! The nodes of a domain are damaged, one byte at a time, and looked at.

ghost use Rattle.std.specs.Prelude.{◌≡◌, ℕ, ◌<◌, ◌*◌, IfOk, length};
ghost use Rattle.kn_base.specs.Memory.{Memory};
ghost use Rattle.kernel_tables.specs.Kernel.{Kernel, kernel_of, first_page, node_count, Sized, IsSized};
ghost use Rattle.domain.specs.Checks.{KeyInRange, KeysInRange};
ghost use Rattle.obj_store.specs.Store.{ram_memory};
ghost use Rattle.tests_domain.specs.First.{IsReadable};

use super::checked::{key_there, keys_in_range, looks_damaged, looks_right, node_number};
use super::first::{SLOT, first_domain};
use super::steps::{Step, Words, set_each};
use kernel_tables::first_bank_page;
use kn_base::{Key, NodeId, Store};
use obj_store::{NoMemory, RamStore};
use std::alloc::Global;
use std::process::Abort;
use std::test::Fail;

// A machine whose one domain runs, by its root.
#[derive(Drop)]
struct Running {
    store: RamStore,
    root: NodeId,
}

// What is set of it.
const RUNNING: [Step; 4] = [
    Step::Heads(0),
    Step::Words(Words::Registers),
    Step::Words(Words::Open(31, 2047)),
    Step::Words(Words::Open(0, 0)),
];

#[tactic(auto, unfolding(kernel_tables::specs::Kernel::first_page))]
fn machine_that_runs(rt: &impl Abort, alloc: Global) -> Result<Running, Fail>
    ensures { IfOk result (λ f. IsReadable (kernel_of (ram_memory f.store))) }
{
    let all_pages = first_bank_page(64) + 64;
    match RamStore::new(alloc, all_pages, 1552) {
        Ok(mut store) => {
            let root = first_domain(&mut store);
            set_each(rt, &mut store, root, &RUNNING);
            Ok(Running { store, root })
        }
        Err(NoMemory) => Err(Fail::from(NoMemory)),
    }
}

// A node of a domain.
#[derive(Clone, Copy)]
enum Node {
    Root,
    Registers,
    Descriptors,
}

// Whether a byte of the root may be higher by 1 while the process runs: another space, another call count, other ids, a later
// break, a mark, and what a mark tells.
fn root_may_change(place: u8, byte: u8) -> bool {
    match place {
        0 => byte == 4 || byte == 5,
        6 => byte >= 8,
        7 => byte >= 4 && byte < 12,
        8 => byte >= 8 && byte < 12,
        12 => byte == 4 || (byte >= 8 && byte < 12),
        _ => false,
    }
}

// Likewise of the register node: all registers but x0, and all bytes of pc but the lowest.
fn registers_may_change(place: u8, byte: u8) -> bool {
    match place {
        0 => byte >= 8,
        1 | 2 | 3 | 4 | 5 | 6 | 7 | 8 | 9 => byte >= 4,
        10 => byte >= 4 && byte != 12,
        _ => false,
    }
}

// Likewise of the descriptor node: the two low bytes of each word, but of the last two.
fn descriptors_may_change(place: u8, byte: u8) -> bool {
    if place < 10 {
        byte >= 4 && byte % 4 < 2
    } else {
        place == 10 && (byte == 4 || byte == 5)
    }
}

fn may_change(node: Node, place: u8, byte: u8) -> bool {
    match node {
        Node::Root => root_may_change(place, byte),
        Node::Registers => registers_may_change(place, byte),
        Node::Descriptors => descriptors_may_change(place, byte),
    }
}

// Raises each byte of a key, and counts those for which a key is spelled.
fn damage_key<T: Store>(rt: &impl Abort, store: &mut T, which: Node, node: NodeId, place: u8) -> u32
    requires readable { IsReadable (kernel_of (T.memory store.old)) }
    requires node { node.0 < (kernel_of (T.memory store.old)).nodes }
    requires place { place < 16 }
    requires in_range { KeysInRange (kernel_of (T.memory store.old)) }
    ensures readable { IsReadable (kernel_of (T.memory store.new)) }
    ensures in_range { KeysInRange (kernel_of (T.memory store.new)) }
    ensures nodes { (kernel_of (T.memory store.new)).nodes ≡ (kernel_of (T.memory store.old)).nodes }
{
    let mut looked = 0u32;
    for byte in 0..16 {
        match looks_damaged(store, SLOT, node, place, byte) {
            Some(right) => {
                assert!(rt; right == may_change(which, place, byte));
                looked = looked.wrapping_add(1);
            }
            None => {}
        }
    }
    looked
}

// Raises each byte of a node.
fn damage_node<T: Store>(rt: &impl Abort, store: &mut T, which: Node, node: NodeId) -> u32
    requires readable { IsReadable (kernel_of (T.memory store.old)) }
    requires node { node.0 < (kernel_of (T.memory store.old)).nodes }
{
    assert!(rt; keys_in_range(store));
    let mut looked = 0u32;
    for place in 0..16 {
        looked = looked.wrapping_add(damage_key(rt, store, which, node, place));
    }
    looked
}

// A node of the domain of a root.
fn node_of<T: Store>(rt: &impl Abort, store: &T, root: NodeId, place: u8) -> NodeId
    requires readable { IsReadable (kernel_of (T.memory store.now)) }
    requires place { place < 16 }
    ensures { result.0 < (kernel_of (T.memory store.now)).nodes }
{
    assert!(rt; root.0 < node_number(store));
    match key_there(store, root, place) {
        Key::Node { id } => {
            assert!(rt; id.0 < node_number(store));
            id
        }
        _ => panic!(rt; "no node is named here"),
    }
}

#[test]
fn a_domain_and_a_free_slot_are_right(rt: HostRuntime) -> Result<(), Fail> {
    let Running { store, .. } = machine_that_runs(&rt, rt.alloc())?;
    assert!(rt; looks_right(&store, SLOT) == Some(true));
    assert!(rt; looks_right(&store, SLOT + 1) == Some(true));
    Ok(())
}

#[test]
fn a_damaged_root_is_found(rt: HostRuntime) -> Result<(), Fail> {
    let Running { mut store, root } = machine_that_runs(&rt, rt.alloc())?;
    assert!(rt; root.0 < node_number(&store));
    assert!(rt; damage_node(&rt, &mut store, Node::Root, root) >= 84);
    Ok(())
}

#[test]
fn damaged_registers_are_found(rt: HostRuntime) -> Result<(), Fail> {
    let Running { mut store, root } = machine_that_runs(&rt, rt.alloc())?;
    let node = node_of(&rt, &store, root, 3);
    assert!(rt; damage_node(&rt, &mut store, Node::Registers, node) >= 132);
    Ok(())
}

#[test]
fn damaged_descriptors_are_found(rt: HostRuntime) -> Result<(), Fail> {
    let Running { mut store, root } = machine_that_runs(&rt, rt.alloc())?;
    let node = node_of(&rt, &store, root, 4);
    assert!(rt; damage_node(&rt, &mut store, Node::Descriptors, node) >= 132);
    Ok(())
}
