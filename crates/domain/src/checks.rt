//! Whether the domain of a slot is right, in a store of which nothing is known but its size, and that the nodes in its keys are
//! in range.

mod keys;
mod phases;
mod words;

ghost use Rattle.std.specs.Prelude.{◌≡◌, ℕ, ◌<◌, ◌/◌, ◌%◌, ◌+◌, ◌↔◌, IsTrue};
ghost use Rattle.kn_base.specs.Memory.{Memory};
ghost use Rattle.kernel_tables.specs.Kernel.{Kernel, kernel_of, Sized, IsSized};
ghost use Rattle.domain.specs.Checks.{KeysInRange, node_rows, SlotGood};
ghost use Rattle.domain.specs.Tests.{has_places, has_numbers, has_objects, has_nodes, phase_of_row, is_domain_of};

use super::keys::{count_in, phase_by, word};
use super::types::Phase;
use keys::{
    both, fits_answer, fits_break, fits_buffer, fits_call, fits_ids, fits_life, fits_marks,
    fits_rest, fits_room, fits_space, is_keeper, is_meter_of,
};
use kn_base::{Key, NodeId, Store};
use words::{are_null, fits_descriptors, fits_registers, row_key};

// Whether a root has the keys of its slot, and no key behind its numbers.
fn has_places<T: Store>(store: &T, slot: u8, root: NodeId) -> bool
    requires node { root.0 < (kernel_of (T.memory store.now)).nodes }
    ensures { result ≡ has_places slot (node_rows (kernel_of (T.memory store.now)) root.0) }
{
    let meter = is_meter_of(slot, row_key(store, root, 2));
    let keeper = is_keeper(slot, row_key(store, root, 1));
    both(meter, both(keeper, are_null(store, root, 13, 3)))
}

// Whether the numbers of a root are right in its phase.
fn has_numbers<T: Store>(store: &T, root: NodeId, phase: Phase) -> bool
    requires node { root.0 < (kernel_of (T.memory store.now)).nodes }
    ensures { result ≡ has_numbers phase (node_rows (kernel_of (T.memory store.now)) root.0) }
{
    let life = fits_life(phase, row_key(store, root, 6));
    let ids = fits_ids(row_key(store, root, 7));
    let bounds = fits_break(phase, row_key(store, root, 8));
    let call = fits_call(phase, row_key(store, root, 9));
    let rest = fits_rest(phase, row_key(store, root, 10));
    let answer = fits_answer(phase, row_key(store, root, 11));
    let marks = fits_marks(row_key(store, root, 12));
    both(
        both(life, both(ids, bounds)),
        both(both(call, rest), both(answer, marks)),
    )
}

// Whether the space and the buffer of a root are right in its phase.
fn has_objects<T: Store>(store: &T, root: NodeId, phase: Phase) -> bool
    requires node { root.0 < (kernel_of (T.memory store.now)).nodes }
    ensures { result ≡ has_objects phase (node_rows (kernel_of (T.memory store.now)) root.0) }
{
    let sent = word(row_key(store, root, 10), 2);
    let answered = word(row_key(store, root, 11), 2);
    let buffer = fits_buffer(phase, sent, answered, row_key(store, root, 5));
    both(fits_space(phase, row_key(store, root, 0)), buffer)
}

// Whether the nodes of words of a root are right in its phase.
fn has_nodes<T: Store>(store: &T, root: NodeId, phase: Phase) -> bool
    requires in_range { KeysInRange (kernel_of (T.memory store.now)) }
    requires node { root.0 < (kernel_of (T.memory store.now)).nodes }
    ensures { result ≡ has_nodes phase (node_rows (kernel_of (T.memory store.now))) root.0 }
{
    let registers = fits_registers(store, phase, row_key(store, root, 3));
    let descriptors = fits_descriptors(store, phase, row_key(store, root, 4));
    both(registers, descriptors)
}

// How far the process of a root is with its turn.
fn phase_of_root<T: Store>(store: &T, root: NodeId) -> Phase
    requires node { root.0 < (kernel_of (T.memory store.now)).nodes }
    ensures { result ≡ phase_of_row (node_rows (kernel_of (T.memory store.now)) root.0) }
{
    phase_by(word(row_key(store, root, 7), 2))
}

// Whether a root is that of the domain of a slot, which goes on by a key of the resume room.
fn is_domain_of<T: Store>(store: &T, slot: u8, root: NodeId, room: Key) -> bool
    requires in_range { KeysInRange (kernel_of (T.memory store.now)) }
    requires node { root.0 < (kernel_of (T.memory store.now)).nodes }
    ensures { result ≡ is_domain_of (node_rows (kernel_of (T.memory store.now))) room slot root.0 }
{
    let phase = phase_of_root(store, root);
    let places = has_places(store, slot, root);
    let numbers = has_numbers(store, root, phase);
    let objects = has_objects(store, root, phase);
    let nodes = has_nodes(store, root, phase);
    let count = count_in(row_key(store, root, 6));
    let goes_on = fits_room(phase, root, count, room);
    both(places, both(numbers, both(objects, both(nodes, goes_on))))
}

/// Whether a slot is free, or the nodes of its domain and its place of the resume room are right: each key by itself, and all of
/// them for the phase. It asks of a store its size, and that the nodes in its keys are in range. Slots are 0 to 63.
pub fn check_domain<T: Store>(store: &T, slot: u8) -> bool
    requires sized { Sized (kernel_of (T.memory store.now)) }
    requires in_range { KeysInRange (kernel_of (T.memory store.now)) }
    requires slot { slot < 64 }
    ensures { IsTrue result ↔ SlotGood (kernel_of (T.memory store.now)) slot }
{
    match row_key(store, NodeId(11 + slot as u32 / 16), slot % 16) {
        Key::Null => true,
        Key::Domain { id } => {
            let room = row_key(store, NodeId(7 + slot as u32 / 16), slot % 16);
            is_domain_of(store, slot, id, room)
        }
        _ => false,
    }
}
