//! Whether a domain or a service may be called, runs or waits, is set.

ghost use Rattle.std.specs.Prelude.{◌≡◌, ◌⊎◌, ℕ, ◌≤◌, true, [], ◌∷◌};
ghost use Rattle.kn_base.specs.Memory.{Memory};
ghost use Rattle.kernel_tables.specs.Kernel.{Kernel, kernel_of};
ghost use Rattle.kernel_tables.specs.Rows.{domain_rows, fixed_rows};
ghost use Rattle.kernel_tables.specs.Blocks.{key_block, ChangesBlocks};
ghost use Rattle.space_bank.specs.Bank.{BankGood};
ghost use Rattle.space_bank.specs.Fixed.{state_key};
ghost use Rattle.unix_model.specs.Tables.{at, with_at};
ghost use Rattle.domain.specs.Domains.{domains, lives, life_in, state_number};
ghost use Rattle.domain.specs.Lives.{HasLife, IsService, SetsLife};
ghost use Rattle.domain.specs.Rules.{RowsGood, NumberFits, written};
ghost use Rattle.domain.specs.Sets.{WritesNumbers};

use super::super::keys::{counted_of, state_number};
use super::super::types::State;
use super::put_number;
use kn_base::{Key, NodeId, Store};
use space_bank::write_key;

// Writes a number at key 6 of the root of a service.
fn put_service<T: Store>(store: &mut T, root: NodeId, key: Key)
    requires good { BankGood (kernel_of (T.memory store.old)) }
    requires service { IsService (fixed_rows (kernel_of (T.memory store.old))) root.0 }
    requires fits { NumberFits 6 key }
    ensures put { fixed_rows (kernel_of (T.memory store.new)) ≡ written (fixed_rows (kernel_of (T.memory store.old))) root.0 6 key }
    ensures rows { domain_rows (kernel_of (T.memory store.new)) ≡ domain_rows (kernel_of (T.memory store.old)) }
    ensures set { lives (kernel_of (T.memory store.new)) ≡ with_at (lives (kernel_of (T.memory store.old))) root.0 (life_in key) }
    ensures others { SetsLife (kernel_of (T.memory store.old)) (kernel_of (T.memory store.new)) root.0 key }
    ensures good { BankGood (kernel_of (T.memory store.new)) }
    ensures blocks { ChangesBlocks (T.blocks store.old) (T.blocks store.new) (key_block (kernel_of (T.memory store.old)).pages root.0 ∷ []) }
    ensures keeps { T.keeps store.old store.new }
{
    write_key(store, root, 6, key);
}

// Writes a number at key 6 of the root of a domain.
fn put_life<T: Store>(store: &mut T, root: NodeId, key: Key)
    requires good { BankGood (kernel_of (T.memory store.old)) }
    requires rows { RowsGood (domain_rows (kernel_of (T.memory store.old))) }
    requires live { (at (domains (kernel_of (T.memory store.old))) root.0).live ≡ true }
    requires fits { NumberFits 6 key }
    ensures set { lives (kernel_of (T.memory store.new)) ≡ with_at (lives (kernel_of (T.memory store.old))) root.0 (life_in key) }
    ensures domains { domains (kernel_of (T.memory store.new)) ≡ domains (kernel_of (T.memory store.old)) }
    ensures others { WritesNumbers (kernel_of (T.memory store.old)) (kernel_of (T.memory store.new)) }
    ensures live { (at (domains (kernel_of (T.memory store.new))) root.0).live ≡ true }
    ensures rows { RowsGood (domain_rows (kernel_of (T.memory store.new))) }
    ensures good { BankGood (kernel_of (T.memory store.new)) }
    ensures blocks { ChangesBlocks (T.blocks store.old) (T.blocks store.new) (key_block (kernel_of (T.memory store.old)).pages root.0 ∷ []) }
    ensures keeps { T.keeps store.old store.new }
{
    put_number(store, root, 6, key);
}

/// Sets whether the domain of a root, or the service of one, may be called, runs or waits, and how many of its calls were
/// answered.
pub fn set_state<T: Store>(store: &mut T, root: NodeId, state: State, count: u64)
    requires good { BankGood (kernel_of (T.memory store.old)) }
    requires rows { RowsGood (domain_rows (kernel_of (T.memory store.old))) }
    requires alive { HasLife (kernel_of (T.memory store.old)) root.0 }
    ensures set { lives (kernel_of (T.memory store.new)) ≡ with_at (lives (kernel_of (T.memory store.old))) root.0 (record { state = state; count = count }) }
    ensures domains { domains (kernel_of (T.memory store.new)) ≡ domains (kernel_of (T.memory store.old)) }
    ensures others { SetsLife (kernel_of (T.memory store.old)) (kernel_of (T.memory store.new)) root.0 (state_key (state_number state) count) }
    ensures numbers { (at (domains (kernel_of (T.memory store.old))) root.0).live ≡ true → WritesNumbers (kernel_of (T.memory store.old)) (kernel_of (T.memory store.new)) }
    ensures alive { HasLife (kernel_of (T.memory store.new)) root.0 }
    ensures rows { RowsGood (domain_rows (kernel_of (T.memory store.new))) }
    ensures good { BankGood (kernel_of (T.memory store.new)) }
    ensures blocks { ChangesBlocks (T.blocks store.old) (T.blocks store.new) (key_block (kernel_of (T.memory store.old)).pages root.0 ∷ []) }
    ensures keeps { T.keeps store.old store.new }
{
    let key = counted_of(state_number(state), count);
    if root.0 < 15 {
        put_service(store, root, key);
    } else {
        put_life(store, root, key);
    }
}
