//! A tree is damaged, one key at a time, and looked at.

ghost use Rattle.std.specs.Prelude.{◌≡◌, ℕ, ◌<◌, ◌+◌, ◌*◌};
ghost use Rattle.kn_base.specs.Memory.{Memory};
ghost use Rattle.kernel_tables.specs.Kernel.{Kernel, kernel_of};
ghost use Rattle.tests_spaces.specs.Ready.{IsReadable, IsReady};

use crate::checked::{key_of, looks_well, node_number, write_any};
use crate::guarded::map;
use crate::rows::{new_one, small_bank};
use kn_base::{Key, NodeId, PageId, Store};
use seg_tree::Space;
use std::process::Abort;
use std::test::Fail;

// What is written over a key.
#[derive(Clone, Copy)]
enum Written {
    Nothing,
    Page,
    Number,
    // The root itself, as a node of a height.
    Root(u8),
    // The node that stands at key 0, as one of a height.
    Below(u8),
}

// So many levels below the root, at a key of the node on the way to page 0: something is written, and the tree is good or not.
#[derive(Clone, Copy)]
struct Damage {
    level: u8,
    place: u8,
    written: Written,
    good: bool,
}

fn damaged(level: u8, place: u8, written: Written, good: bool) -> Damage {
    Damage {
        level,
        place,
        written,
        good,
    }
}

// The node that stands at key 0 of a node.
fn node_below<T: Store>(rt: &impl Abort, store: &T, node: NodeId) -> NodeId
    requires readable { IsReadable (kernel_of (T.memory store.now)) }
    requires node { node.0 < (kernel_of (T.memory store.now)).nodes }
    ensures { result.0 < (kernel_of (T.memory store.now)).nodes }
{
    match key_of(store, node, 0) {
        Key::Segment { id, .. } => {
            if id.0 >= node_number(store) {
                panic!(rt; "no such node");
            }
            id
        }
        _ => panic!(rt; "no node stands here"),
    }
}

// The node so many levels below the root, 0 to 4, on the way to page 0.
fn node_down<T: Store>(rt: &impl Abort, store: &T, root: NodeId, level: u8) -> NodeId
    requires readable { IsReadable (kernel_of (T.memory store.now)) }
    requires node { root.0 < (kernel_of (T.memory store.now)).nodes }
    ensures { result.0 < (kernel_of (T.memory store.now)).nodes }
{
    if level == 0 {
        return root;
    }
    let first = node_below(rt, store, root);
    if level == 1 {
        return first;
    }
    let second = node_below(rt, store, first);
    if level == 2 {
        return second;
    }
    let third = node_below(rt, store, second);
    if level == 3 {
        return third;
    }
    node_below(rt, store, third)
}

// The key that stands at place 0 of a node, with another height.
fn with_height<T: Store>(store: &T, node: NodeId, height: u8) -> Key
    requires node { node.0 < (kernel_of (T.memory store.now)).nodes }
{
    match key_of(store, node, 0) {
        Key::Segment { id, .. } => Key::Segment { id, height },
        key => key,
    }
}

// The key that is written.
fn key_written<T: Store>(store: &T, root: NodeId, node: NodeId, written: Written) -> Key
    requires node { node.0 < (kernel_of (T.memory store.now)).nodes }
{
    match written {
        Written::Nothing => Key::Null,
        Written::Page => Key::Page {
            id: PageId(0),
            writable: true,
        },
        Written::Number => Key::Number([1; 12]),
        Written::Root(height) => Key::Segment { id: root, height },
        Written::Below(height) => with_height(store, node, height),
    }
}

// Whether the tree of a root looks well before a key is written, and whether it does so then.
fn looks_after<T: Store>(rt: &impl Abort, store: &mut T, root: NodeId, case: Damage) -> bool
    requires readable { IsReadable (kernel_of (T.memory store.old)) }
    requires root { root.0 < (kernel_of (T.memory store.old)).nodes }
    requires place { case.place < 16 }
{
    assert!(rt; looks_well(store, Space(root)));
    let node = node_down(rt, store, root, case.level);
    let key = key_written(store, root, node, case.written);
    assert!(rt; write_any(store, node, case.place, key));
    looks_well(store, Space(root))
}

// A space with page 0 alone is damaged.
fn damages<T: Store>(rt: &impl Abort, store: &mut T, case: Damage)
    requires ready { IsReady (kernel_of (T.memory store.old)) }
{
    let space = new_one(rt, store);
    assert!(rt; map(store, space, 0, true));
    assert!(rt; case.place < 16);
    assert!(rt; looks_after(rt, store, space.0, case) == case.good);
}

// What may be written over a tree whose only page is page 0: five nodes, each with its key 0 alone.
fn cases() -> [Damage; 24] {
    [
        damaged(0, 0, Written::Nothing, true),
        damaged(1, 0, Written::Nothing, false),
        damaged(2, 0, Written::Nothing, false),
        damaged(3, 0, Written::Nothing, false),
        damaged(4, 0, Written::Nothing, false),
        damaged(0, 1, Written::Page, false),
        damaged(3, 5, Written::Page, false),
        damaged(4, 5, Written::Page, true),
        damaged(4, 3, Written::Number, false),
        damaged(1, 3, Written::Number, false),
        damaged(0, 0, Written::Below(4), true),
        damaged(0, 7, Written::Below(4), true),
        damaged(0, 0, Written::Below(3), false),
        damaged(0, 0, Written::Below(5), false),
        damaged(2, 0, Written::Below(1), false),
        damaged(3, 0, Written::Below(0), false),
        damaged(0, 0, Written::Root(4), false),
        damaged(4, 0, Written::Root(1), false),
        damaged(0, 8, Written::Page, false),
        damaged(0, 14, Written::Number, false),
        damaged(0, 11, Written::Below(4), false),
        damaged(0, 14, Written::Nothing, true),
        damaged(0, 15, Written::Number, true),
        damaged(0, 15, Written::Below(4), true),
    ]
}

#[test]
fn a_damaged_tree_is_found(rt: HostRuntime) -> Result<(), Fail> {
    for case in cases() {
        let mut store = small_bank(rt.alloc())?;
        damages(&rt, &mut store, case);
    }
    Ok(())
}
