//! The service that was called answers.

ghost use Rattle.std.specs.Prelude.{◌≡◌, ◌≢◌, ℕ, IfOk, IfErr};
ghost use Rattle.kn_base.specs.Memory.{Memory};
ghost use Rattle.kernel_tables.specs.Kernel.{Kernel, kernel_of};
ghost use Rattle.kernel_tables.specs.Rows.{domain_rows};
ghost use Rattle.space_bank.specs.Bank.{BankGood};
ghost use Rattle.domain.specs.Domains.{domains};
ghost use Rattle.domain.specs.Lives.{HasLife};
ghost use Rattle.domain.specs.Rules.{RowsGood};
ghost use Rattle.domain.specs.Slots.{SlotsDiffer};
ghost use Rattle.invoke.specs.Room.{IsSeated};

use super::caller::DIRECTORIES;
use invoke::{Delivered, InvokeFault, Message, fork, ret};
use kn_base::{Key, NodeId, Store};

/// Starts the service of directories, and lets it answer the first call of a domain, which waits. It is told who is reached in
/// the end.
pub fn serve<T: Store>(
    store: &mut T,
    root: NodeId,
    message: Message,
) -> Result<Option<Delivered>, InvokeFault>
    requires good { BankGood (kernel_of (T.memory store.old)) }
    requires rows { RowsGood (domain_rows (kernel_of (T.memory store.old))) }
    requires directories { HasLife (kernel_of (T.memory store.old)) 3 }
    requires alone { SlotsDiffer (domains (kernel_of (T.memory store.old))) }
    requires apart { root.0 ≢ 3 }
    requires alive { HasLife (kernel_of (T.memory store.old)) root.0 }
    requires seated { IsSeated (kernel_of (T.memory store.old)) root.0 }
    ensures directories { HasLife (kernel_of (T.memory store.new)) 3 }
    ensures alive { HasLife (kernel_of (T.memory store.new)) root.0 }
    ensures good { BankGood (kernel_of (T.memory store.new)) }
    ensures keeps { T.keeps store.old store.new }
{
    let start = Key::Start {
        domain: DIRECTORIES,
        byte: 9,
    };
    match fork(store, start, message) {
        Ok(_) => {
            let key = Key::Resume {
                domain: root,
                count: 0,
            };
            ret(store, DIRECTORIES, key, message)
        }
        Err(fault) => Err(fault),
    }
}
