//! A process whose call has to wait is parked, and goes on once somebody has changed what it waits for.

ghost use Rattle.std.specs.Prelude.{◌≡◌, ℕ, ◌<◌, ◌^◌, ◌&&◌, ◌==◌, true, false, None, Some, [], ◌∷◌, slice_index_or};
ghost use Rattle.kn_base.specs.Memory.{Memory};
ghost use Rattle.kernel_tables.specs.Kernel.{Kernel, kernel_of};
ghost use Rattle.kernel_tables.specs.Rows.{domain_rows};
ghost use Rattle.kernel_tables.specs.Blocks.{key_block, ChangesBlocks};
ghost use Rattle.space_bank.specs.Bank.{BankGood};
ghost use Rattle.unix_model.specs.Tables.{at, with_at};
ghost use Rattle.domain.specs.Domains.{Domain, domains, lives, roots};
ghost use Rattle.domain.specs.Marks.{is_parked_on, parked_on, released, woken, all_woken};
ghost use Rattle.domain.specs.Rules.{RowsGood};
ghost use Rattle.domain.specs.Sets.{WritesNumbers};
ghost use Rattle.domain.specs.Slots.{AreInSlots};
ghost use Rattle.invoke.specs.Invokes.{root_in_slot};
ghost use Rattle.invoke.specs.Parking.{HasDomain, IsSent, is_parked_in, object_word, released_in, released_blocks, woken_in, woken_block, woken_blocks};

use super::types::WaitFor;
use domain::{mark_words, root_of, set_mark_words};
use kn_base::{NodeId, Store};

// The word of the marks that tells what a process waits for.
fn object_word(on: WaitFor) -> u64
    ensures { result ≡ object_word on }
{
    match on {
        WaitFor::Pipe(inode) => u64::from(inode) + 1,
        WaitFor::Child => 0,
    }
}

/// Parks the process of a slot, whose call has to wait for this. Slots are 0 to 63, and a pipe is known by the number of its
/// inode.
pub fn park<T: Store>(store: &mut T, slot: u8, on: WaitFor)
    requires good { BankGood (kernel_of (T.memory store.old)) }
    requires rows { RowsGood (domain_rows (kernel_of (T.memory store.old))) }
    requires slot { slot < 64 }
    requires sent { let old = kernel_of (T.memory store.old) in IsSent old slot (root_in_slot old slot) }
    requires object { object_word on < 2 ^ 32 }
    ensures parked { let old = kernel_of (T.memory store.old) in let root = root_in_slot old slot in domains (kernel_of (T.memory store.new)) ≡ with_at (domains old) root (parked_on (object_word on) (at (domains old) root)) }
    ensures lives { lives (kernel_of (T.memory store.new)) ≡ lives (kernel_of (T.memory store.old)) }
    ensures others { WritesNumbers (kernel_of (T.memory store.old)) (kernel_of (T.memory store.new)) }
    ensures rows { RowsGood (domain_rows (kernel_of (T.memory store.new))) }
    ensures good { BankGood (kernel_of (T.memory store.new)) }
    ensures blocks { let old = kernel_of (T.memory store.old) in ChangesBlocks (T.blocks store.old) (T.blocks store.new) (key_block old.pages (root_in_slot old slot) ∷ []) }
    ensures keeps { T.keeps store.old store.new }
{
    match root_of(store, slot) {
        Some(root) => {
            let word = object_word(on) as u32;
            set_mark_words(store, root, [1, word, 0]);
        }
        None => unreachable!(),
    }
}

// Whether marks tell that a process is parked.
fn is_set(marks: [u32; 3]) -> bool
    ensures { result ≡ (slice_index_or marks 0 0 == 1) }
{
    let [mark, _, _] = marks;
    mark == 1
}

/// Whether the process of a slot is parked; nobody is in a free slot. Slots are 0 to 63.
pub fn is_parked<T: Store>(store: &T, slot: u8) -> bool
    requires good { BankGood (kernel_of (T.memory store.now)) }
    requires slot { slot < 64 }
    requires domain { HasDomain (kernel_of (T.memory store.now)) slot }
    ensures { let now = kernel_of (T.memory store.now) in result ≡ is_parked_in (domains now) (at (roots now) slot) }
{
    match root_of(store, slot) {
        Some(root) => is_set(mark_words(store, root)),
        None => false,
    }
}

// Whether marks tell that a process is parked on what the word tells.
fn tells(marks: [u32; 3], word: u64) -> bool
    ensures { result ≡ ((slice_index_or marks 0 0 == 1) && (slice_index_or marks 1 0 == word)) }
{
    let [mark, object, _] = marks;
    mark == 1 && u64::from(object) == word
}

// Takes the mark of the domain of a root away if it is parked on what the word tells.
fn wake_root<T: Store>(store: &mut T, root: NodeId, word: u64)
    requires good { BankGood (kernel_of (T.memory store.old)) }
    requires rows { RowsGood (domain_rows (kernel_of (T.memory store.old))) }
    requires live { (at (domains (kernel_of (T.memory store.old))) root.0).live ≡ true }
    ensures woken { let old = domains (kernel_of (T.memory store.old)) in domains (kernel_of (T.memory store.new)) ≡ with_at old root.0 (woken word (at old root.0)) }
    ensures lives { lives (kernel_of (T.memory store.new)) ≡ lives (kernel_of (T.memory store.old)) }
    ensures others { WritesNumbers (kernel_of (T.memory store.old)) (kernel_of (T.memory store.new)) }
    ensures rows { RowsGood (domain_rows (kernel_of (T.memory store.new))) }
    ensures good { BankGood (kernel_of (T.memory store.new)) }
    ensures blocks { ChangesBlocks (T.blocks store.old) (T.blocks store.new) (woken_block (kernel_of (T.memory store.old)) word (Some root.0)) }
    ensures keeps { T.keeps store.old store.new }
{
    if tells(mark_words(store, root), word) {
        set_mark_words(store, root, [0; 3]);
    }
}

// Takes the mark of the process of a slot away if it is parked on what the word tells.
fn wake_in<T: Store>(store: &mut T, slot: u8, word: u64)
    requires good { BankGood (kernel_of (T.memory store.old)) }
    requires rows { RowsGood (domain_rows (kernel_of (T.memory store.old))) }
    requires slot { slot < 64 }
    requires domain { HasDomain (kernel_of (T.memory store.old)) slot }
    ensures woken { let old = kernel_of (T.memory store.old) in domains (kernel_of (T.memory store.new)) ≡ woken_in word (domains old) (at (roots old) slot) }
    ensures lives { lives (kernel_of (T.memory store.new)) ≡ lives (kernel_of (T.memory store.old)) }
    ensures others { WritesNumbers (kernel_of (T.memory store.old)) (kernel_of (T.memory store.new)) }
    ensures rows { RowsGood (domain_rows (kernel_of (T.memory store.new))) }
    ensures good { BankGood (kernel_of (T.memory store.new)) }
    ensures blocks { let old = kernel_of (T.memory store.old) in ChangesBlocks (T.blocks store.old) (T.blocks store.new) (woken_block old word (at (roots old) slot)) }
    ensures keeps { T.keeps store.old store.new }
{
    match root_of(store, slot) {
        Some(root) => wake_root(store, root, word),
        None => {}
    }
}

/// Lets all processes go on that are parked on this. Nobody is parked on it afterwards, and all others are as they were.
pub fn wake<T: Store>(store: &mut T, on: WaitFor)
    requires good { BankGood (kernel_of (T.memory store.old)) }
    requires rows { RowsGood (domain_rows (kernel_of (T.memory store.old))) }
    requires in_slots { let old = kernel_of (T.memory store.old) in AreInSlots (roots old) (domains old) }
    ensures woken { domains (kernel_of (T.memory store.new)) ≡ all_woken (object_word on) (domains (kernel_of (T.memory store.old))) }
    ensures nobody { (root : ℕ) → is_parked_on (object_word on) (at (domains (kernel_of (T.memory store.new))) root) ≡ false }
    ensures lives { lives (kernel_of (T.memory store.new)) ≡ lives (kernel_of (T.memory store.old)) }
    ensures others { WritesNumbers (kernel_of (T.memory store.old)) (kernel_of (T.memory store.new)) }
    ensures rows { RowsGood (domain_rows (kernel_of (T.memory store.new))) }
    ensures good { BankGood (kernel_of (T.memory store.new)) }
    ensures blocks { ChangesBlocks (T.blocks store.old) (T.blocks store.new) (woken_blocks (kernel_of (T.memory store.old)) (object_word on) 64) }
    ensures keeps { T.keeps store.old store.new }
{
    let word = object_word(on);
    for slot in 0..64 {
        wake_in(store, slot, word);
    }
}

// Takes the mark of the domain of a root away if it is parked.
fn release<T: Store>(store: &mut T, root: NodeId)
    requires good { BankGood (kernel_of (T.memory store.old)) }
    requires rows { RowsGood (domain_rows (kernel_of (T.memory store.old))) }
    requires live { (at (domains (kernel_of (T.memory store.old))) root.0).live ≡ true }
    ensures released { let old = domains (kernel_of (T.memory store.old)) in domains (kernel_of (T.memory store.new)) ≡ with_at old root.0 (released (at old root.0)) }
    ensures lives { lives (kernel_of (T.memory store.new)) ≡ lives (kernel_of (T.memory store.old)) }
    ensures others { WritesNumbers (kernel_of (T.memory store.old)) (kernel_of (T.memory store.new)) }
    ensures rows { RowsGood (domain_rows (kernel_of (T.memory store.new))) }
    ensures good { BankGood (kernel_of (T.memory store.new)) }
    ensures blocks { ChangesBlocks (T.blocks store.old) (T.blocks store.new) (released_blocks (kernel_of (T.memory store.old)) (Some root.0)) }
    ensures keeps { T.keeps store.old store.new }
{
    if is_set(mark_words(store, root)) {
        set_mark_words(store, root, [0; 3]);
    }
}

/// Lets the process of a slot go on, whatever it is parked on. Nobody is in a free slot. Slots are 0 to 63.
pub fn wake_slot<T: Store>(store: &mut T, slot: u8)
    requires good { BankGood (kernel_of (T.memory store.old)) }
    requires rows { RowsGood (domain_rows (kernel_of (T.memory store.old))) }
    requires slot { slot < 64 }
    requires domain { HasDomain (kernel_of (T.memory store.old)) slot }
    ensures released { let old = kernel_of (T.memory store.old) in domains (kernel_of (T.memory store.new)) ≡ released_in (domains old) (at (roots old) slot) }
    ensures lives { lives (kernel_of (T.memory store.new)) ≡ lives (kernel_of (T.memory store.old)) }
    ensures others { WritesNumbers (kernel_of (T.memory store.old)) (kernel_of (T.memory store.new)) }
    ensures rows { RowsGood (domain_rows (kernel_of (T.memory store.new))) }
    ensures good { BankGood (kernel_of (T.memory store.new)) }
    ensures blocks { let old = kernel_of (T.memory store.old) in ChangesBlocks (T.blocks store.old) (T.blocks store.new) (released_blocks old (at (roots old) slot)) }
    ensures keeps { T.keeps store.old store.new }
{
    match root_of(store, slot) {
        Some(root) => release(store, root),
        None => {}
    }
}
