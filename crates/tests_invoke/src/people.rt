//! Processes whose calls wait for servers, and which are parked and woken.

ghost use Rattle.std.specs.Prelude.{◌≡◌, ℕ, ◌<◌, ◌+◌, ◌^◌};
ghost use Rattle.kn_base.specs.Memory.{Memory, zero_memory};
ghost use Rattle.kernel_tables.specs.declared.entry.NodeOwner.TheVariants.{Tree};
ghost use Rattle.kernel_tables.specs.Kernel.{Kernel, kernel_of, first_page, node_count};
ghost use Rattle.space_bank.specs.Bank.{BankGood, TakesNode};
ghost use Rattle.space_bank.specs.Shares.{PutsNodeInHand};
ghost use Rattle.invoke.specs.Parking.{object_word};
ghost use Rattle.tests_invoke.specs.People.{IsPeopled};

use domain::{Phase, new_domain, set_phase};
use invoke::{WaitFor, is_parked, park, wake, wake_slot};
use kn_base::{NodeId, Store};
use space_bank::{NodeOwner, setup, take_node};

// An empty machine.
fn empty<T: Store>(store: &mut T)
    requires zeros { T.memory store.old ≡ zero_memory (first_page 64 + 64) (node_count 64) }
    ensures peopled { IsPeopled (kernel_of (T.memory store.new)) 0 }
    ensures good { BankGood (kernel_of (T.memory store.new)) }
    ensures keeps { T.keeps store.old store.new }
{
    setup(store, 64, 100);
}

// A node for the space of a process.
fn space_node<T: Store>(store: &mut T) -> NodeId
    requires good { BankGood (kernel_of (T.memory store.old)) }
    requires room { let old = kernel_of (T.memory store.old) in old.machine.nodes_taken + 15 < old.nodes }
    ensures taken { TakesNode (kernel_of (T.memory store.old)) (kernel_of (T.memory store.new)) result.0 Tree }
    ensures shares { PutsNodeInHand (kernel_of (T.memory store.old)) (kernel_of (T.memory store.new)) result.0 }
    ensures good { BankGood (kernel_of (T.memory store.new)) }
    ensures keeps { T.keeps store.old store.new }
{
    match take_node(store, NodeOwner::Tree) {
        Some(node) => node,
        None => unreachable!(),
    }
}

// One process more, in the first free slot.
fn add<T: Store>(store: &mut T, slot: u8)
    requires good { BankGood (kernel_of (T.memory store.old)) }
    requires few { slot < 4 }
    requires peopled { IsPeopled (kernel_of (T.memory store.old)) slot }
    ensures peopled { IsPeopled (kernel_of (T.memory store.new)) (slot + 1) }
    ensures good { BankGood (kernel_of (T.memory store.new)) }
    ensures keeps { T.keeps store.old store.new }
{
    let space = space_node(store);
    let root = new_domain(store, slot, space);
    set_phase(store, root, Phase::Sent);
}

/// Makes an empty machine of a store of zeros, and four processes in its slots 0 to 3.
pub fn populate<T: Store>(store: &mut T)
    requires zeros { T.memory store.old ≡ zero_memory (first_page 64 + 64) (node_count 64) }
    ensures peopled { IsPeopled (kernel_of (T.memory store.new)) 4 }
    ensures good { BankGood (kernel_of (T.memory store.new)) }
    ensures keeps { T.keeps store.old store.new }
{
    empty(store);
    add(store, 0);
    add(store, 1);
    add(store, 2);
    add(store, 3);
}

/// Parks one of the four.
pub fn park_one<T: Store>(store: &mut T, slot: u8, on: WaitFor)
    requires good { BankGood (kernel_of (T.memory store.old)) }
    requires few { slot < 4 }
    requires object { object_word on < 2 ^ 32 }
    requires peopled { IsPeopled (kernel_of (T.memory store.old)) 4 }
    ensures peopled { IsPeopled (kernel_of (T.memory store.new)) 4 }
    ensures good { BankGood (kernel_of (T.memory store.new)) }
    ensures keeps { T.keeps store.old store.new }
{
    park(store, slot, on);
}

/// Wakes all that wait for this.
pub fn wake_all<T: Store>(store: &mut T, on: WaitFor)
    requires good { BankGood (kernel_of (T.memory store.old)) }
    requires peopled { IsPeopled (kernel_of (T.memory store.old)) 4 }
    ensures peopled { IsPeopled (kernel_of (T.memory store.new)) 4 }
    ensures good { BankGood (kernel_of (T.memory store.new)) }
    ensures keeps { T.keeps store.old store.new }
{
    wake(store, on);
}

/// Wakes whoever is in a slot.
pub fn wake_one<T: Store>(store: &mut T, slot: u8)
    requires good { BankGood (kernel_of (T.memory store.old)) }
    requires slot { slot < 64 }
    requires peopled { IsPeopled (kernel_of (T.memory store.old)) 4 }
    ensures peopled { IsPeopled (kernel_of (T.memory store.new)) 4 }
    ensures good { BankGood (kernel_of (T.memory store.new)) }
    ensures keeps { T.keeps store.old store.new }
{
    wake_slot(store, slot);
}

/// Which of the four are parked, and whether somebody in a free slot is.
pub fn parked<T: Store>(store: &T) -> [bool; 5]
    requires good { BankGood (kernel_of (T.memory store.now)) }
    requires peopled { IsPeopled (kernel_of (T.memory store.now)) 4 }
{
    [
        is_parked(store, 0),
        is_parked(store, 1),
        is_parked(store, 2),
        is_parked(store, 3),
        is_parked(store, 63),
    ]
}
