//! A domain calls, reaches another one, or answers and may be called again.

ghost use Rattle.std.specs.Prelude.{◌≡◌, ◌⊎◌, ℕ, ◌<◌, ◌≤◌, ◌+◌, ◌/◌, true, false, [], ◌∷◌, IfOk, IfErr, IfSome, Err, Some};
ghost use Rattle.kn_base.specs.declared.key.Key.TheVariants.{Resume};
ghost use Rattle.kn_base.specs.Memory.{Memory};
ghost use Rattle.kernel_tables.specs.Kernel.{Kernel, kernel_of};
ghost use Rattle.kernel_tables.specs.Rows.{domain_rows};
ghost use Rattle.kernel_tables.specs.Blocks.{key_block, ChangesBlocks};
ghost use Rattle.space_bank.specs.Bank.{BankGood};
ghost use Rattle.unix_model.specs.Tables.{at, with_at};
ghost use Rattle.domain.specs.declared.types.State.TheVariants.{Running, Waiting};
ghost use Rattle.domain.specs.Domains.{domains, lives, roots};
ghost use Rattle.domain.specs.Lives.{HasLife};
ghost use Rattle.domain.specs.Rules.{RowsGood};
ghost use Rattle.domain.specs.Tests.{is_null};
ghost use Rattle.invoke.specs.Steps.{Calls, Forks, Returns, Answering, Reaches, step, with_state};
ghost use Rattle.invoke.specs.Room.{Enters, MayUse, IsSeated};
ghost use Rattle.invoke.specs.Invokes.{Invokes, Goes, KeepsSeat, IsCaller, root_in_slot, seat_of, given_by, seat_blocks, reached_blocks};
ghost use Rattle.invoke.specs.Others.{LeavesOthers, reached_by};

use super::reach::{resume, set_life, start};
use super::room::enter_room;
use super::types::{Delivered, InvokeFault, Message};
use domain::{State, count_of, root_of, state_of};
use kn_base::{Key, NodeId, Store};

// Makes a running domain wait. The answer is the key that answers its call.
fn wait<T: Store>(store: &mut T, slot: u8, root: NodeId) -> Key
    requires good { BankGood (kernel_of (T.memory store.old)) }
    requires rows { RowsGood (domain_rows (kernel_of (T.memory store.old))) }
    requires slot { slot < 64 }
    requires caller { IsCaller (kernel_of (T.memory store.old)) slot root.0 }
    requires runs { (at (lives (kernel_of (T.memory store.old))) root.0).state ≡ Running }
    ensures invokes { let old = kernel_of (T.memory store.old) in Invokes old (kernel_of (T.memory store.new)) (with_state (lives old) root.0 Waiting) (Enters root.0 (at (lives old) root.0).count) }
    ensures key { result ≡ Resume root (at (lives (kernel_of (T.memory store.old))) root.0).count }
    ensures seated { IsSeated (kernel_of (T.memory store.new)) root.0 }
    ensures alive { (other : ℕ) → HasLife (kernel_of (T.memory store.old)) other → HasLife (kernel_of (T.memory store.new)) other }
    ensures rows { RowsGood (domain_rows (kernel_of (T.memory store.new))) }
    ensures good { BankGood (kernel_of (T.memory store.new)) }
    ensures blocks { let old = kernel_of (T.memory store.old) in ChangesBlocks (T.blocks store.old) (T.blocks store.new) (key_block old.pages root.0 ∷ seat_blocks old root.0) }
    ensures keeps { T.keeps store.old store.new }
{
    let count = count_of(store, root);
    enter_room(store, root, slot, count);
    set_life(store, root, State::Waiting, count);
    Key::Resume {
        domain: root,
        count,
    }
}

// Makes the domain of a root call by a key.
#[tactic(auto, unfolding(crate::specs::Steps::step))]
fn call_from<T: Store>(store: &mut T, slot: u8, root: NodeId, to: Key) -> Result<Key, InvokeFault>
    requires good { BankGood (kernel_of (T.memory store.old)) }
    requires rows { RowsGood (domain_rows (kernel_of (T.memory store.old))) }
    requires slot { slot < 64 }
    requires caller { IsCaller (kernel_of (T.memory store.old)) slot root.0 }
    ensures goes { IfOk result (λ key. let old = kernel_of (T.memory store.old) in Goes old (kernel_of (T.memory store.new)) (Calls root.0 to) (Answering key) (Enters root.0 (at (lives old) root.0).count)) }
    ensures seated { IsSeated (kernel_of (T.memory store.new)) root.0 }
    ensures others { LeavesOthers (kernel_of (T.memory store.old)) (kernel_of (T.memory store.new)) (root.0 ∷ []) }
    ensures refused { IfErr result (λ fault. step (lives (kernel_of (T.memory store.old))) (Calls root.0 to) ≡ Err fault) }
    ensures unchanged { IfErr result (λ fault. store.new ≡ store.old) }
    ensures alive { (other : ℕ) → HasLife (kernel_of (T.memory store.old)) other → HasLife (kernel_of (T.memory store.new)) other }
    ensures rows { RowsGood (domain_rows (kernel_of (T.memory store.new))) }
    ensures good { BankGood (kernel_of (T.memory store.new)) }
    ensures blocks { let old = kernel_of (T.memory store.old) in ChangesBlocks (T.blocks store.old) (T.blocks store.new) (key_block old.pages root.0 ∷ seat_blocks old root.0) }
    ensures keeps { T.keeps store.old store.new }
{
    match to {
        Key::Start { .. } => match state_of(store, root) {
            State::Running => Ok(wait(store, slot, root)),
            State::Available => Err(InvokeFault::NotAvailable),
            State::Waiting => Err(InvokeFault::NotAvailable),
        },
        _ => Err(InvokeFault::NotStart),
    }
}

/// Makes the domain of a used slot call by a key. It waits, and the answer is the key that answers the call, which stands at the
/// slot's place of the resume room until then. NotStart: the key is no Start key; NotAvailable: it is one, and the domain
/// doesn't run. A refused call changes nothing. Slots are 0 to 63.
pub fn call<T: Store>(store: &mut T, slot: u8, to: Key) -> Result<Key, InvokeFault>
    requires good { BankGood (kernel_of (T.memory store.old)) }
    requires rows { RowsGood (domain_rows (kernel_of (T.memory store.old))) }
    requires slot { slot < 64 }
    requires caller { let old = kernel_of (T.memory store.old) in IsCaller old slot (root_in_slot old slot) }
    ensures goes { IfOk result (λ key. let old = kernel_of (T.memory store.old) in let root = root_in_slot old slot in Goes old (kernel_of (T.memory store.new)) (Calls root to) (Answering key) (Enters root (at (lives old) root).count)) }
    ensures seated { IsSeated (kernel_of (T.memory store.new)) (root_in_slot (kernel_of (T.memory store.old)) slot) }
    ensures others { let old = kernel_of (T.memory store.old) in LeavesOthers old (kernel_of (T.memory store.new)) (root_in_slot old slot ∷ []) }
    ensures refused { IfErr result (λ fault. let old = kernel_of (T.memory store.old) in step (lives old) (Calls (root_in_slot old slot) to) ≡ Err fault) }
    ensures unchanged { IfErr result (λ fault. store.new ≡ store.old) }
    ensures alive { (other : ℕ) → HasLife (kernel_of (T.memory store.old)) other → HasLife (kernel_of (T.memory store.new)) other }
    ensures rows { RowsGood (domain_rows (kernel_of (T.memory store.new))) }
    ensures good { BankGood (kernel_of (T.memory store.new)) }
    ensures blocks { let old = kernel_of (T.memory store.old) in let root = root_in_slot old slot in ChangesBlocks (T.blocks store.old) (T.blocks store.new) (key_block old.pages root ∷ seat_blocks old root) }
    ensures keeps { T.keeps store.old store.new }
{
    match root_of(store, slot) {
        Some(root) => call_from(store, slot, root, to),
        None => unreachable!(),
    }
}

/// Reaches whom a key names, and delivers a message. A Start key reaches a domain or a service that is available, and delivers
/// the key's byte; a Resume key one that waits for the answer to this very call, which is answered once, and its place of the
/// resume room is emptied. NotStart: the key is neither; NotAvailable: the one to be started isn't available; VoidKey: nobody
/// waits for this answer. A refused message changes nothing.
#[tactic(auto, unfolding(crate::specs::Steps::step))]
pub fn fork<T: Store>(store: &mut T, to: Key, message: Message) -> Result<Delivered, InvokeFault>
    requires good { BankGood (kernel_of (T.memory store.old)) }
    requires rows { RowsGood (domain_rows (kernel_of (T.memory store.old))) }
    requires may { MayUse (kernel_of (T.memory store.old)) to }
    ensures goes { IfOk result (λ delivered. let old = kernel_of (T.memory store.old) in Goes old (kernel_of (T.memory store.new)) (Forks to) (Reaches delivered.to.0 delivered.byte) (seat_of old to)) }
    ensures message { IfOk result (λ delivered. delivered.message ≡ message) }
    ensures seated { KeepsSeat (kernel_of (T.memory store.old)) (kernel_of (T.memory store.new)) to }
    ensures others { LeavesOthers (kernel_of (T.memory store.old)) (kernel_of (T.memory store.new)) (reached_by to) }
    ensures refused { IfErr result (λ fault. step (lives (kernel_of (T.memory store.old))) (Forks to) ≡ Err fault) }
    ensures unchanged { IfErr result (λ fault. store.new ≡ store.old) }
    ensures alive { (other : ℕ) → HasLife (kernel_of (T.memory store.old)) other → HasLife (kernel_of (T.memory store.new)) other }
    ensures rows { RowsGood (domain_rows (kernel_of (T.memory store.new))) }
    ensures good { BankGood (kernel_of (T.memory store.new)) }
    ensures blocks { ChangesBlocks (T.blocks store.old) (T.blocks store.new) (reached_blocks (kernel_of (T.memory store.old)) to) }
    ensures keeps { T.keeps store.old store.new }
{
    match to {
        Key::Start { domain, byte } => match start(store, domain, byte) {
            Ok(()) => Ok(Delivered {
                to: domain,
                byte,
                message,
            }),
            Err(fault) => Err(fault),
        },
        Key::Resume { domain, count } => match resume(store, domain, count) {
            Ok(()) => Ok(Delivered {
                to: domain,
                byte: 0,
                message,
            }),
            Err(fault) => Err(fault),
        },
        _ => Err(InvokeFault::NotStart),
    }
}

fn is_null(key: Key) -> bool
    ensures { result ≡ is_null key }
{
    match key {
        Key::Null => true,
        _ => false,
    }
}

// Reaches whom a key names, and makes a root available then.
fn ret_to<T: Store>(
    store: &mut T,
    from: NodeId,
    to: Key,
    message: Message,
) -> Result<Delivered, InvokeFault>
    requires good { BankGood (kernel_of (T.memory store.old)) }
    requires rows { RowsGood (domain_rows (kernel_of (T.memory store.old))) }
    requires alive { HasLife (kernel_of (T.memory store.old)) from.0 }
    requires other { is_null to ≡ false }
    requires may { MayUse (kernel_of (T.memory store.old)) to }
    ensures goes { IfOk result (λ delivered. let old = kernel_of (T.memory store.old) in Goes old (kernel_of (T.memory store.new)) (Returns from.0 to) (Reaches delivered.to.0 delivered.byte) (seat_of old to)) }
    ensures message { IfOk result (λ delivered. delivered.message ≡ message) }
    ensures others { LeavesOthers (kernel_of (T.memory store.old)) (kernel_of (T.memory store.new)) (from.0 ∷ reached_by to) }
    ensures refused { IfErr result (λ fault. step (lives (kernel_of (T.memory store.old))) (Returns from.0 to) ≡ Err fault) }
    ensures unchanged { IfErr result (λ fault. store.new ≡ store.old) }
    ensures alive { (other : ℕ) → HasLife (kernel_of (T.memory store.old)) other → HasLife (kernel_of (T.memory store.new)) other }
    ensures rows { RowsGood (domain_rows (kernel_of (T.memory store.new))) }
    ensures good { BankGood (kernel_of (T.memory store.new)) }
    ensures blocks { let old = kernel_of (T.memory store.old) in ChangesBlocks (T.blocks store.old) (T.blocks store.new) (key_block old.pages from.0 ∷ reached_blocks old to) }
    ensures keeps { T.keeps store.old store.new }
{
    match fork(store, to, message) {
        Ok(delivered) => {
            let count = count_of(store, from);
            set_life(store, from, State::Available, count);
            Ok(delivered)
        }
        Err(fault) => Err(fault),
    }
}

/// Answers, or passes on, and may be called from then on: reaches whom a key names as `fork` does, and makes the running domain
/// or service `from` available. By Null it reaches nobody, and the answer is None. A refused answer changes nothing.
pub fn ret<T: Store>(
    store: &mut T,
    from: NodeId,
    to: Key,
    message: Message,
) -> Result<Option<Delivered>, InvokeFault>
    requires good { BankGood (kernel_of (T.memory store.old)) }
    requires rows { RowsGood (domain_rows (kernel_of (T.memory store.old))) }
    requires alive { HasLife (kernel_of (T.memory store.old)) from.0 }
    requires runs { (at (lives (kernel_of (T.memory store.old))) from.0).state ≡ Running }
    requires may { MayUse (kernel_of (T.memory store.old)) to }
    ensures goes { IfOk result (λ reached. let old = kernel_of (T.memory store.old) in Goes old (kernel_of (T.memory store.new)) (Returns from.0 to) (given_by reached) (seat_of old to)) }
    ensures message { IfOk result (λ reached. IfSome reached (λ delivered. delivered.message ≡ message)) }
    ensures others { LeavesOthers (kernel_of (T.memory store.old)) (kernel_of (T.memory store.new)) (from.0 ∷ reached_by to) }
    ensures refused { IfErr result (λ fault. step (lives (kernel_of (T.memory store.old))) (Returns from.0 to) ≡ Err fault) }
    ensures unchanged { IfErr result (λ fault. store.new ≡ store.old) }
    ensures alive { (other : ℕ) → HasLife (kernel_of (T.memory store.old)) other → HasLife (kernel_of (T.memory store.new)) other }
    ensures rows { RowsGood (domain_rows (kernel_of (T.memory store.new))) }
    ensures good { BankGood (kernel_of (T.memory store.new)) }
    ensures blocks { let old = kernel_of (T.memory store.old) in ChangesBlocks (T.blocks store.old) (T.blocks store.new) (key_block old.pages from.0 ∷ reached_blocks old to) }
    ensures keeps { T.keeps store.old store.new }
{
    if is_null(to) {
        let count = count_of(store, from);
        set_life(store, from, State::Available, count);
        Ok(None)
    } else {
        match ret_to(store, from, to, message) {
            Ok(delivered) => Ok(Some(delivered)),
            Err(fault) => Err(fault),
        }
    }
}
