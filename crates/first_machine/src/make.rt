//! The machine is made of a store of zeros.

ghost use Rattle.std.specs.Prelude.{◌≡◌, ℕ, ◌<◌, ◌≤◌, ◌+◌, ◌%◌, []};
ghost use Rattle.kn_base.specs.Memory.{Memory, zero_memory};
ghost use Rattle.kernel_tables.specs.Kernel.{Kernel, kernel_of, first_page, node_count};
ghost use Rattle.first_machine.specs.First.{Begins, IsFirst};

use domain::{Heads, new_domain, set_heads};
use kernel_tables::NodeOwner;
use kn_base::{Key, NodeId, Store};
use seg_tree::new_space;
use space_bank::{promise, set_machine_word, setup};

// Makes an empty bank of which one page is promised, and 2 is the next process id.
#[tactic(auto, unfolding(space_bank::specs::Setup::empty_bank))]
fn promise_one<T: Store>(store: &mut T, pages: u32, quantum: u32)
    requires least { 64 ≤ pages }
    requires most { pages ≤ 16384 }
    requires multiple { pages % 64 ≡ 0 }
    requires some_turns { 1 ≤ quantum }
    requires few_turns { quantum ≤ 10000 }
    requires zeros { T.memory store.old ≡ zero_memory (first_page pages + pages) (node_count pages) }
    ensures begun { Begins pages quantum (kernel_of (T.memory store.new)) }
    ensures keeps { T.keeps store.old store.new }
{
    setup(store, pages, quantum);
    let granted = promise(store, 1);
    prove!(granted);
    set_machine_word(store, 12, 2);
}

/// Makes the machine of `pages` pages before anything is loaded, on a store of zeros that has the size for so many: the
/// console and the empty root are its files, and process 1 runs in slot 0, with zeros in its registers, an empty memory and no
/// descriptor. One page is promised, and none is taken. A round has `quantum` turns of each process. The least store has room
/// for it.
pub fn first_machine<T: Store>(store: &mut T, pages: u32, quantum: u32)
    requires least { 64 ≤ pages }
    requires most { pages ≤ 16384 }
    requires multiple { pages % 64 ≡ 0 }
    requires some_turns { 1 ≤ quantum }
    requires few_turns { quantum ≤ 10000 }
    requires zeros { T.memory store.old ≡ zero_memory (first_page pages + pages) (node_count pages) }
    ensures first { IsFirst pages quantum (kernel_of (T.memory store.new)) }
    ensures keeps { T.keeps store.old store.new }
{
    promise_one(store, pages, quantum);
    let keeper = Key::Start {
        domain: NodeId(1),
        byte: 0,
    };
    let space = new_space(store, NodeOwner::Tree, keeper);
    let root = new_domain(store, 0, space.0);
    let heads = Heads {
        pid: 1,
        parent: 0,
        break_start: 0,
        break_end: 0,
        word: 0,
    };
    set_heads(store, root, heads);
}
