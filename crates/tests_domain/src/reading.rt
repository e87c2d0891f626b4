//! What is read of a domain, all at once.

ghost use Rattle.std.specs.Prelude.{◌≡◌, ℕ, true};
ghost use Rattle.kn_base.specs.Memory.{Memory};
ghost use Rattle.kernel_tables.specs.Kernel.{Kernel, kernel_of};
ghost use Rattle.kernel_tables.specs.Rows.{domain_rows};
ghost use Rattle.space_bank.specs.Bank.{BankGood};
ghost use Rattle.unix_model.specs.Tables.{at};
ghost use Rattle.domain.specs.Rules.{RowsGood};
ghost use Rattle.domain.specs.Domains.{domains};

use super::first::SLOT;
use domain::{
    Answer, Heads, Phase, State, answer_of, count_of, descriptor, heads_of, mark_words, phase_of,
    regs_of, request_of, root_of, space_of, state_of,
};
use kn_base::{NodeId, Store};

/// What is read of a domain, and which domains the first domain's slot and the next one name.
#[derive(Clone, Copy, PartialEq)]
pub struct Fields {
    pub named: Option<NodeId>,
    pub next: Option<NodeId>,
    pub space: Option<NodeId>,
    pub heads: Heads,
    pub answer: Answer,
    pub phase: Phase,
    pub state: State,
    pub count: u64,
    pub marks: [u32; 3],
    pub call: u8,
    pub args: [u32; 4],
    pub length: u16,
    pub x: [u32; 32],
    pub pc: u32,
    pub descriptors: [Option<u16>; 32],
}

// All descriptors.
fn descriptors_of<T: Store>(store: &T, root: NodeId) -> [Option<u16>; 32]
    requires good { BankGood (kernel_of (T.memory store.now)) }
    requires rows { RowsGood (domain_rows (kernel_of (T.memory store.now))) }
    requires live { (at (domains (kernel_of (T.memory store.now))) root.0).live ≡ true }
{
    let mut all = [None; 32];
    for number in 0..32u8 {
        all[number as usize] = descriptor(store, root, number);
    }
    all
}

/// Reads all fields of a domain but its buffer.
pub fn fields_of<T: Store>(store: &T, root: NodeId) -> Fields
    requires good { BankGood (kernel_of (T.memory store.now)) }
    requires rows { RowsGood (domain_rows (kernel_of (T.memory store.now))) }
    requires live { (at (domains (kernel_of (T.memory store.now))) root.0).live ≡ true }
{
    let request = request_of(store, root);
    let args = request.args;
    let regs = regs_of(store, root);
    let x = regs.x;
    let marks = mark_words(store, root);
    let descriptors = descriptors_of(store, root);
    Fields {
        named: root_of(store, SLOT),
        next: root_of(store, SLOT + 1),
        space: space_of(store, root),
        heads: heads_of(store, root),
        answer: answer_of(store, root),
        phase: phase_of(store, root),
        state: state_of(store, root),
        count: count_of(store, root),
        marks,
        call: request.call,
        args,
        length: request.length,
        x,
        pc: regs.pc,
        descriptors,
    }
}
