//! A Start or a Resume key is used to reach whom it names.

ghost use Rattle.std.specs.Prelude.{◌≡◌, ◌⊎◌, ℕ, ◌≤◌, ◌+◌, ◌/◌, ◌%◌, ◌^◌, true, [], ◌∷◌, IfOk, IfErr, Err};
ghost use Rattle.kn_base.specs.declared.key.Key.TheVariants.{Start, Resume};
ghost use Rattle.kn_base.specs.Memory.{Memory};
ghost use Rattle.kernel_tables.specs.Kernel.{Kernel, kernel_of};
ghost use Rattle.kernel_tables.specs.Rows.{domain_rows};
ghost use Rattle.kernel_tables.specs.Blocks.{key_block, ChangesBlocks};
ghost use Rattle.space_bank.specs.Bank.{BankGood};
ghost use Rattle.unix_model.specs.Tables.{at, with_at};
ghost use Rattle.domain.specs.declared.types.State.TheVariants.{Waiting};
ghost use Rattle.domain.specs.Domains.{Life, domains, lives};
ghost use Rattle.domain.specs.Lives.{HasLife};
ghost use Rattle.domain.specs.Rules.{RowsGood};
ghost use Rattle.invoke.specs.Steps.{Forks, Reaches, step};
ghost use Rattle.invoke.specs.Room.{Seat, Stays, IsSeated, leaving, awaits};
ghost use Rattle.invoke.specs.Invokes.{Invokes, Goes, seat_blocks, life_blocks};

use super::room::{leave_room, slot_of};
use super::types::InvokeFault;
use domain::{State, count_of, set_state, state_of};
use kn_base::{NodeId, Store};

/// Sets the life of a root, after whatever an invocation has done so far.
pub fn set_life<T: Store>(store: &mut T, root: NodeId, state: State, count: u64)
    requires good { BankGood (kernel_of (T.memory store.old)) }
    requires rows { RowsGood (domain_rows (kernel_of (T.memory store.old))) }
    requires alive { HasLife (kernel_of (T.memory store.old)) root.0 }
    ensures goes_on { (first : Kernel) (now : ℕ → Life) (seat : Seat) → Invokes first (kernel_of (T.memory store.old)) now seat → Invokes first (kernel_of (T.memory store.new)) (with_at now root.0 (record { state = state; count = count })) seat }
    ensures alive { (other : ℕ) → HasLife (kernel_of (T.memory store.old)) other → HasLife (kernel_of (T.memory store.new)) other }
    ensures rows { RowsGood (domain_rows (kernel_of (T.memory store.new))) }
    ensures good { BankGood (kernel_of (T.memory store.new)) }
    ensures blocks { ChangesBlocks (T.blocks store.old) (T.blocks store.new) (life_blocks (kernel_of (T.memory store.old)) root.0) }
    ensures keeps { T.keeps store.old store.new }
{
    set_state(store, root, state, count);
}

/// Reaches the root that a Start key names, if it is available.
pub fn start<T: Store>(store: &mut T, root: NodeId, byte: u8) -> Result<(), InvokeFault>
    requires good { BankGood (kernel_of (T.memory store.old)) }
    requires rows { RowsGood (domain_rows (kernel_of (T.memory store.old))) }
    requires alive { HasLife (kernel_of (T.memory store.old)) root.0 }
    ensures goes { IfOk result (λ done. Goes (kernel_of (T.memory store.old)) (kernel_of (T.memory store.new)) (Forks (Start root byte)) (Reaches root.0 byte) Stays) }
    ensures seated { IsSeated (kernel_of (T.memory store.old)) root.0 → IsSeated (kernel_of (T.memory store.new)) root.0 }
    ensures refused { IfErr result (λ fault. step (lives (kernel_of (T.memory store.old))) (Forks (Start root byte)) ≡ Err fault) }
    ensures unchanged { IfErr result (λ fault. store.new ≡ store.old) }
    ensures alive { (other : ℕ) → HasLife (kernel_of (T.memory store.old)) other → HasLife (kernel_of (T.memory store.new)) other }
    ensures rows { RowsGood (domain_rows (kernel_of (T.memory store.new))) }
    ensures good { BankGood (kernel_of (T.memory store.new)) }
    ensures blocks { ChangesBlocks (T.blocks store.old) (T.blocks store.new) (life_blocks (kernel_of (T.memory store.old)) root.0) }
    ensures keeps { T.keeps store.old store.new }
{
    match state_of(store, root) {
        State::Available => {
            let count = count_of(store, root);
            set_life(store, root, State::Running, count);
            Ok(())
        }
        State::Running => Err(InvokeFault::NotAvailable),
        State::Waiting => Err(InvokeFault::NotAvailable),
    }
}

// Whether a root waits for the answer to the call of this number.
fn is_awaited<T: Store>(store: &T, root: NodeId, count: u64) -> bool
    requires good { BankGood (kernel_of (T.memory store.now)) }
    requires alive { HasLife (kernel_of (T.memory store.now)) root.0 }
    ensures { let life = at (lives (kernel_of (T.memory store.now))) root.0 in result ≡ awaits life.state life.count count }
{
    match state_of(store, root) {
        State::Available => false,
        State::Running => false,
        State::Waiting => count_of(store, root) == count,
    }
}

// Empties the place of the domain of a root that waits; a service has none.
fn free_place<T: Store>(store: &mut T, root: NodeId)
    requires good { BankGood (kernel_of (T.memory store.old)) }
    requires rows { RowsGood (domain_rows (kernel_of (T.memory store.old))) }
    requires alive { HasLife (kernel_of (T.memory store.old)) root.0 }
    requires waits { (at (lives (kernel_of (T.memory store.old))) root.0).state ≡ Waiting }
    requires seated { (at (domains (kernel_of (T.memory store.old))) root.0).live ≡ true → IsSeated (kernel_of (T.memory store.old)) root.0 }
    ensures invokes { let old = kernel_of (T.memory store.old) in Invokes old (kernel_of (T.memory store.new)) (lives old) (leaving old root.0 (at (lives old) root.0).count) }
    ensures alive { (other : ℕ) → HasLife (kernel_of (T.memory store.old)) other → HasLife (kernel_of (T.memory store.new)) other }
    ensures rows { RowsGood (domain_rows (kernel_of (T.memory store.new))) }
    ensures good { BankGood (kernel_of (T.memory store.new)) }
    ensures blocks { ChangesBlocks (T.blocks store.old) (T.blocks store.new) (seat_blocks (kernel_of (T.memory store.old)) root.0) }
    ensures keeps { T.keeps store.old store.new }
{
    if root.0 >= 15 {
        let slot = slot_of(store, root);
        leave_room(store, root, slot);
    }
}

/// Reaches the root that a Resume key names, if it waits for the answer to this very call.
pub fn resume<T: Store>(store: &mut T, root: NodeId, count: u64) -> Result<(), InvokeFault>
    requires good { BankGood (kernel_of (T.memory store.old)) }
    requires rows { RowsGood (domain_rows (kernel_of (T.memory store.old))) }
    requires alive { HasLife (kernel_of (T.memory store.old)) root.0 }
    requires seated { (at (domains (kernel_of (T.memory store.old))) root.0).live ≡ true → IsSeated (kernel_of (T.memory store.old)) root.0 }
    ensures goes { IfOk result (λ done. let old = kernel_of (T.memory store.old) in Goes old (kernel_of (T.memory store.new)) (Forks (Resume root count)) (Reaches root.0 0) (leaving old root.0 count)) }
    ensures seated { IsSeated (kernel_of (T.memory store.old)) root.0 → IsSeated (kernel_of (T.memory store.new)) root.0 }
    ensures refused { IfErr result (λ fault. step (lives (kernel_of (T.memory store.old))) (Forks (Resume root count)) ≡ Err fault) }
    ensures unchanged { IfErr result (λ fault. store.new ≡ store.old) }
    ensures alive { (other : ℕ) → HasLife (kernel_of (T.memory store.old)) other → HasLife (kernel_of (T.memory store.new)) other }
    ensures rows { RowsGood (domain_rows (kernel_of (T.memory store.new))) }
    ensures good { BankGood (kernel_of (T.memory store.new)) }
    ensures blocks { let old = kernel_of (T.memory store.old) in ChangesBlocks (T.blocks store.old) (T.blocks store.new) (key_block old.pages root.0 ∷ seat_blocks old root.0) }
    ensures keeps { T.keeps store.old store.new }
{
    if is_awaited(store, root, count) {
        free_place(store, root);
        set_life(store, root, State::Running, count.wrapping_add(1));
        Ok(())
    } else {
        Err(InvokeFault::VoidKey)
    }
}
