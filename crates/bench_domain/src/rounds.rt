//! Rounds of reading and writing the registers of a domain.

ghost use Rattle.std.specs.Prelude.{◌≡◌, ℕ, true};
ghost use Rattle.kn_base.specs.Memory.{Memory};
ghost use Rattle.kernel_tables.specs.Kernel.{Kernel, kernel_of};
ghost use Rattle.kernel_tables.specs.Rows.{domain_rows};
ghost use Rattle.space_bank.specs.Bank.{BankGood};
ghost use Rattle.unix_model.specs.Tables.{at};
ghost use Rattle.domain.specs.Rules.{RowsGood};
ghost use Rattle.domain.specs.Domains.{domains};

use domain::{regs_of, set_regs};
use kn_base::{NodeId, Store};
use unix_model::Regs;

/// In each round reads the registers.
pub fn read<T: Store>(store: &T, root: NodeId, rounds: u32) -> u32
    requires good { BankGood (kernel_of (T.memory store.now)) }
    requires rows { RowsGood (domain_rows (kernel_of (T.memory store.now))) }
    requires live { (at (domains (kernel_of (T.memory store.now))) root.0).live ≡ true }
{
    let mut sum = 0u32;
    for round in 0..rounds {
        let regs = regs_of(store, root);
        sum = sum
            .wrapping_add(regs.x[(round % 32) as usize])
            .wrapping_add(regs.pc);
    }
    sum
}

/// In each round writes the registers.
#[tactic(auto, using(unix_model::proofs::TableLaws::tables))]
pub fn write<T: Store>(store: &mut T, root: NodeId, rounds: u32) -> u32
    requires good { BankGood (kernel_of (T.memory store.old)) }
    requires rows { RowsGood (domain_rows (kernel_of (T.memory store.old))) }
    requires live { (at (domains (kernel_of (T.memory store.old))) root.0).live ≡ true }
    requires whole { (at (domains (kernel_of (T.memory store.old))) root.0).whole ≡ true }
{
    let mut regs = Regs { x: [0; 32], pc: 0 };
    for round in 0..rounds {
        regs.pc = round / 4 * 4;
        set_regs(store, root, &regs);
    }
    regs.pc
}
