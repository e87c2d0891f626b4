//! Domains that wait are looked at, each key by itself in its phase, and the place of the resume room.

ghost use Rattle.std.specs.Prelude.{◌≡◌, ℕ, ◌<◌, ◌*◌, IfOk, length};
ghost use Rattle.kn_base.specs.Memory.{Memory};
ghost use Rattle.kernel_tables.specs.Kernel.{Kernel, kernel_of, first_page, node_count, Sized, IsSized};
ghost use Rattle.domain.specs.Checks.{KeyInRange, KeysInRange};
ghost use Rattle.obj_store.specs.Store.{ram_memory};
ghost use Rattle.tests_domain.specs.First.{IsReadable};

use super::buffers::buffered_domain;
use super::checked::{keys_in_range, looks_right, looks_with, node_number, put_low};
use super::first::SLOT;
use super::steps::{Step, Turn, set_each};
use domain::{Answer, Phase, State};
use kernel_tables::first_bank_page;
use kn_base::{Key, NodeId, PageId, Store};
use obj_store::{NoMemory, RamStore};
use std::alloc::Global;
use std::process::Abort;
use std::test::Fail;
use unix_model::Request;

// The node of the slot's place of the resume room.
const ROOM: NodeId = NodeId(7);

// A machine whose one domain waits and holds a buffer, by its root.
#[derive(Drop)]
struct Waiting {
    store: RamStore,
    root: NodeId,
}

#[tactic(auto, unfolding(kernel_tables::specs::Kernel::first_page))]
fn machine_that_waits(
    rt: &impl Abort,
    alloc: Global,
    request: Request,
    phase: Phase,
) -> Result<Waiting, Fail>
    ensures { IfOk result (λ f. IsReadable (kernel_of (ram_memory f.store))) }
{
    let all_pages = first_bank_page(64) + 64;
    match RamStore::new(alloc, all_pages, 1552) {
        Ok(mut store) => {
            let root = buffered_domain(&mut store, &[1, 2, 3, 4]);
            let steps = [
                Step::Request(request),
                Step::Answer(NO_ANSWER),
                Step::Turn(Turn::Phase(phase)),
                Step::Turn(Turn::State(State::Waiting, u64::MAX)),
            ];
            set_each(rt, &mut store, root, &steps);
            Ok(Waiting { store, root })
        }
        Err(NoMemory) => Err(Fail::from(NoMemory)),
    }
}

// A key at a place of the root, and whether the domain is right with it.
#[derive(Clone, Copy)]
struct Case {
    place: u8,
    key: Key,
    right: bool,
}

fn with_key(place: u8, key: Key, right: bool) -> Case {
    Case { place, key, right }
}

// A number of three words.
fn number(first: u32, second: u32, third: u32) -> Key {
    let [a, b, c, d] = first.to_le_bytes();
    let [e, f, g, h] = second.to_le_bytes();
    let [i, j, k, l] = third.to_le_bytes();
    Key::Number([a, b, c, d, e, f, g, h, i, j, k, l])
}

// A key by which the domain of a root goes on, with a count of its calls.
fn resume(root: NodeId, count: u64) -> Key {
    Key::Resume {
        domain: root,
        count,
    }
}

// Keys of the resume room by which it does not go on.
fn other_keys(root: NodeId) -> [Case; 3] {
    [
        with_key(SLOT, resume(root, 0), false),
        with_key(SLOT, resume(NodeId(1), u64::MAX), false),
        with_key(SLOT, Key::Domain { id: root }, false),
    ]
}

// Writes a key over another one of a node, and looks.
fn looks<T: Store>(rt: &impl Abort, store: &mut T, node: NodeId, case: Case)
    requires readable { IsReadable (kernel_of (T.memory store.old)) }
    requires in_range { KeysInRange (kernel_of (T.memory store.old)) }
    ensures readable { IsReadable (kernel_of (T.memory store.new)) }
    ensures in_range { KeysInRange (kernel_of (T.memory store.new)) }
{
    assert!(rt; node.0 < node_number(store));
    assert!(rt; case.place < 16);
    assert!(rt; looks_with(store, SLOT, node, case.place, case.key) == Some(case.right));
}

// Looks at each case.
fn look_at_all<T: Store>(rt: &impl Abort, store: &mut T, node: NodeId, cases: &[Case])
    requires readable { IsReadable (kernel_of (T.memory store.old)) }
    requires in_range { KeysInRange (kernel_of (T.memory store.old)) }
    ensures readable { IsReadable (kernel_of (T.memory store.new)) }
    ensures in_range { KeysInRange (kernel_of (T.memory store.new)) }
{
    for case in cases {
        looks(rt, store, node, *case);
    }
}

// Writes the key of the resume room by which the domain of a root goes on, and looks at the slot without it and with others.
fn goes_on<T: Store>(rt: &impl Abort, store: &mut T, root: NodeId)
    requires readable { IsReadable (kernel_of (T.memory store.old)) }
    ensures readable { IsReadable (kernel_of (T.memory store.new)) }
    ensures in_range { KeysInRange (kernel_of (T.memory store.new)) }
{
    assert!(rt; keys_in_range(store));
    assert!(rt; looks_right(store, SLOT) == Some(false));
    look_at_all(rt, store, ROOM, &other_keys(root));
    assert!(rt; root.0 < node_number(store));
    let right = Key::Resume {
        domain: root,
        count: u64::MAX,
    };
    put_low(store, ROOM, SLOT, right);
}

// Looks at each case of a domain that waits in a phase, once it may go on.
fn waits<T: Store>(rt: &impl Abort, store: &mut T, root: NodeId, cases: &[Case])
    requires readable { IsReadable (kernel_of (T.memory store.old)) }
{
    goes_on(rt, store, root);
    assert!(rt; looks_right(store, SLOT) == Some(true));
    look_at_all(rt, store, root, cases);
}

// What may stand in a root whose request has bytes in the buffer.
fn sent_cases() -> [Case; 17] {
    [
        with_key(0, Key::Null, false),
        with_key(3, Key::Null, false),
        with_key(5, Key::Null, false),
        with_key(6, number(2, u32::MAX, u32::MAX), true),
        with_key(6, number(1, u32::MAX, u32::MAX), false),
        with_key(6, number(2, u32::MAX, 0), false),
        with_key(7, number(1, 0, 1), false),
        with_key(7, number(1, 0, 3), false),
        with_key(7, number(9, 8, 2), true),
        with_key(8, number(0, 0, 1), false),
        with_key(9, number(255, 7, 7), true),
        with_key(9, number(256, 7, 7), false),
        with_key(10, number(7, 7, 4096), true),
        with_key(10, number(7, 7, 4097), false),
        with_key(10, number(7, 7, 0), false),
        with_key(11, number(0, 1, 0), false),
        with_key(12, number(1, 7, 0), true),
    ]
}

// What may stand in a root whose answer has no bytes, while a buffer is held.
fn done_cases() -> [Case; 10] {
    [
        with_key(5, Key::Null, true),
        with_key(
            5,
            Key::Page {
                id: PageId(77),
                writable: true,
            },
            true,
        ),
        with_key(5, number(0, 0, 0), false),
        with_key(7, number(1, 0, 2), false),
        with_key(7, number(1, 0, 1), false),
        with_key(9, number(1, 0, 0), false),
        with_key(10, number(0, 0, 1), false),
        with_key(11, number(7, 7, 4096), true),
        with_key(11, number(7, 7, 4097), false),
        with_key(12, number(2, 0, 0), false),
    ]
}

const NO_ANSWER: Answer = Answer {
    value: 0,
    at: 0,
    length: 0,
};

#[test]
fn a_domain_that_waits_for_a_server_is_looked_at(rt: HostRuntime) -> Result<(), Fail> {
    let request = Request {
        call: 12,
        args: [1, 0x2000, 11, 0],
        length: 11,
    };
    let Waiting { mut store, root } = machine_that_waits(&rt, rt.alloc(), request, Phase::Sent)?;
    waits(&rt, &mut store, root, &sent_cases());
    Ok(())
}

#[test]
fn a_domain_that_was_answered_is_looked_at(rt: HostRuntime) -> Result<(), Fail> {
    let request = Request {
        call: 0,
        args: [0; 4],
        length: 0,
    };
    let Waiting { mut store, root } = machine_that_waits(&rt, rt.alloc(), request, Phase::Done)?;
    waits(&rt, &mut store, root, &done_cases());
    Ok(())
}
