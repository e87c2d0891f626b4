//! The space of a domain is set.

ghost use Rattle.std.specs.Prelude.{◌≡◌, ℕ, ◌<◌, true, [], ◌∷◌, MatchOption};
ghost use Rattle.kn_base.specs.Memory.{Memory};
ghost use Rattle.kernel_tables.specs.Kernel.{Kernel, kernel_of};
ghost use Rattle.kernel_tables.specs.Rows.{domain_rows};
ghost use Rattle.kernel_tables.specs.Blocks.{key_block, ChangesBlocks};
ghost use Rattle.space_bank.specs.Bank.{BankGood};
ghost use Rattle.unix_model.specs.Tables.{at, with_at};
ghost use Rattle.domain.specs.Keys.{key_of_space};
ghost use Rattle.domain.specs.Rules.{RowsGood};
ghost use Rattle.domain.specs.Sets.{HandsOver, number_in};
ghost use Rattle.domain.specs.Domains.{domains, lives};

use super::super::keys::space_key;
use super::super::steps::put_row;
use kn_base::{NodeId, Store};

/// Sets the space of a domain, or takes it away. The one key of a space that is set was in hand, or outside, and is the
/// domain's from then on. The key of the space that the domain had is in hand, or outside, in its place.
pub fn set_space<T: Store>(store: &mut T, root: NodeId, space: Option<NodeId>)
    requires good { BankGood (kernel_of (T.memory store.old)) }
    requires rows { RowsGood (domain_rows (kernel_of (T.memory store.old))) }
    requires live { (at (domains (kernel_of (T.memory store.old))) root.0).live ≡ true }
    ensures set { let old = domains (kernel_of (T.memory store.old)) in domains (kernel_of (T.memory store.new)) ≡ with_at old root.0 (record (at old root.0) { space = number_in space }) }
    ensures lives { lives (kernel_of (T.memory store.new)) ≡ lives (kernel_of (T.memory store.old)) }
    ensures handed { let old = kernel_of (T.memory store.old) in HandsOver old (kernel_of (T.memory store.new)) (key_of_space (number_in space)) (key_of_space (at (domains old) root.0).space) }
    ensures rows { RowsGood (domain_rows (kernel_of (T.memory store.new))) }
    ensures good { BankGood (kernel_of (T.memory store.new)) }
    ensures blocks { ChangesBlocks (T.blocks store.old) (T.blocks store.new) (key_block (kernel_of (T.memory store.old)).pages root.0 ∷ []) }
    ensures keeps { T.keeps store.old store.new }
{
    put_row(store, root, 0, space_key(space));
}
