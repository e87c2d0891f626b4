//! Fields of a domain are set, one after the other, and each may be looked for in what is read.

ghost use Rattle.std.specs.Prelude.{◌≡◌, ℕ, true};
ghost use Rattle.kn_base.specs.Memory.{Memory};
ghost use Rattle.kernel_tables.specs.Kernel.{Kernel, kernel_of};
ghost use Rattle.kernel_tables.specs.Rows.{domain_rows};
ghost use Rattle.space_bank.specs.Bank.{BankGood};
ghost use Rattle.unix_model.specs.Tables.{at};
ghost use Rattle.domain.specs.Rules.{RowsGood};
ghost use Rattle.domain.specs.Domains.{domains};

use super::reading::{Fields, fields_of};
use super::values::{no_regs, some_heads, some_regs};
use domain::{
    Answer, Phase, State, set_answer, set_descriptor, set_heads, set_mark_words, set_phase,
    set_regs, set_request, set_state,
};
use kn_base::{NodeId, Store};
use std::process::Abort;
use unix_model::Request;

/// Registers or a descriptor, and what they are set to.
#[derive(Clone, Copy)]
pub enum Words {
    Registers,
    NoRegisters,
    Open(u8, u16),
    Closed(u8),
}

/// How far a process is.
#[derive(Clone, Copy)]
pub enum Turn {
    Marks(u32, u32),
    Phase(Phase),
    State(State, u64),
}

/// A field, and what it is set to.
#[derive(Clone, Copy)]
pub enum Step {
    /// Heads with a word that a wait answers.
    Heads(u32),
    Request(Request),
    Answer(Answer),
    Words(Words),
    Turn(Turn),
}

// Sets the registers or a descriptor of a whole domain.
#[tactic(auto, using(unix_model::proofs::TableLaws::tables))]
fn set_words<T: Store>(rt: &impl Abort, store: &mut T, root: NodeId, words: Words)
    requires good { BankGood (kernel_of (T.memory store.old)) }
    requires rows { RowsGood (domain_rows (kernel_of (T.memory store.old))) }
    requires live { (at (domains (kernel_of (T.memory store.old))) root.0).live ≡ true }
    requires whole { (at (domains (kernel_of (T.memory store.old))) root.0).whole ≡ true }
    ensures good { BankGood (kernel_of (T.memory store.new)) }
    ensures rows { RowsGood (domain_rows (kernel_of (T.memory store.new))) }
    ensures live { (at (domains (kernel_of (T.memory store.new))) root.0).live ≡ true }
    ensures whole { (at (domains (kernel_of (T.memory store.new))) root.0).whole ≡ true }
{
    match words {
        Words::Registers => set_regs(store, root, &some_regs()),
        Words::NoRegisters => set_regs(store, root, &no_regs()),
        Words::Open(number, description) => {
            assert!(rt; number < 32);
            assert!(rt; description < 2048);
            set_descriptor(store, root, number, Some(description));
        }
        Words::Closed(number) => {
            assert!(rt; number < 32);
            set_descriptor(store, root, number, None);
        }
    }
}

// Sets how far a whole domain is.
#[tactic(auto, using(unix_model::proofs::TableLaws::tables))]
fn set_turn<T: Store>(rt: &impl Abort, store: &mut T, root: NodeId, turn: Turn)
    requires good { BankGood (kernel_of (T.memory store.old)) }
    requires rows { RowsGood (domain_rows (kernel_of (T.memory store.old))) }
    requires live { (at (domains (kernel_of (T.memory store.old))) root.0).live ≡ true }
    requires whole { (at (domains (kernel_of (T.memory store.old))) root.0).whole ≡ true }
    ensures good { BankGood (kernel_of (T.memory store.new)) }
    ensures rows { RowsGood (domain_rows (kernel_of (T.memory store.new))) }
    ensures live { (at (domains (kernel_of (T.memory store.new))) root.0).live ≡ true }
    ensures whole { (at (domains (kernel_of (T.memory store.new))) root.0).whole ≡ true }
{
    match turn {
        Turn::Marks(parked, word) => {
            assert!(rt; parked < 2);
            set_mark_words(store, root, [parked, word, 0]);
        }
        Turn::Phase(phase) => set_phase(store, root, phase),
        Turn::State(state, count) => set_state(store, root, state, count),
    }
}

/// Sets a field of a whole domain.
#[tactic(auto, using(unix_model::proofs::TableLaws::tables))]
pub fn set<T: Store>(rt: &impl Abort, store: &mut T, root: NodeId, step: Step)
    requires good { BankGood (kernel_of (T.memory store.old)) }
    requires rows { RowsGood (domain_rows (kernel_of (T.memory store.old))) }
    requires live { (at (domains (kernel_of (T.memory store.old))) root.0).live ≡ true }
    requires whole { (at (domains (kernel_of (T.memory store.old))) root.0).whole ≡ true }
    ensures good { BankGood (kernel_of (T.memory store.new)) }
    ensures rows { RowsGood (domain_rows (kernel_of (T.memory store.new))) }
    ensures live { (at (domains (kernel_of (T.memory store.new))) root.0).live ≡ true }
    ensures whole { (at (domains (kernel_of (T.memory store.new))) root.0).whole ≡ true }
{
    match step {
        Step::Heads(word) => set_heads(store, root, some_heads(word)),
        Step::Request(request) => {
            assert!(rt; request.length <= 4096);
            set_request(store, root, request);
        }
        Step::Answer(answer) => {
            assert!(rt; answer.length <= 4096);
            set_answer(store, root, answer);
        }
        Step::Words(words) => set_words(rt, store, root, words),
        Step::Turn(turn) => set_turn(rt, store, root, turn),
    }
}

/// Sets fields, one after the other.
pub fn set_each<T: Store>(rt: &impl Abort, store: &mut T, root: NodeId, steps: &[Step])
    requires good { BankGood (kernel_of (T.memory store.old)) }
    requires rows { RowsGood (domain_rows (kernel_of (T.memory store.old))) }
    requires live { (at (domains (kernel_of (T.memory store.old))) root.0).live ≡ true }
    requires whole { (at (domains (kernel_of (T.memory store.old))) root.0).whole ≡ true }
    ensures good { BankGood (kernel_of (T.memory store.new)) }
    ensures rows { RowsGood (domain_rows (kernel_of (T.memory store.new))) }
    ensures live { (at (domains (kernel_of (T.memory store.new))) root.0).live ≡ true }
    ensures whole { (at (domains (kernel_of (T.memory store.new))) root.0).whole ≡ true }
{
    for step in steps {
        set(rt, store, root, *step);
    }
}

// Descriptors of which one is another.
fn with_descriptor(
    was: [Option<u16>; 32],
    number: u8,
    description: Option<u16>,
) -> [Option<u16>; 32] {
    let mut all = was;
    match all.get_mut(number as usize) {
        Some(place) => *place = description,
        None => {}
    }
    all
}

// What is to be read once registers or a descriptor are set, and nothing else is.
fn after_words(was: Fields, words: Words) -> Fields {
    let mut fields = was;
    match words {
        Words::Registers => {
            let regs = some_regs();
            let x = regs.x;
            fields.x = x;
            fields.pc = regs.pc;
        }
        Words::NoRegisters => {
            let x = [0; 32];
            fields.x = x;
            fields.pc = 8;
        }
        Words::Open(number, description) => {
            fields.descriptors = with_descriptor(fields.descriptors, number, Some(description));
        }
        Words::Closed(number) => {
            fields.descriptors = with_descriptor(fields.descriptors, number, None);
        }
    }
    fields
}

// Likewise once it is set how far the process is.
fn after_turn(was: Fields, turn: Turn) -> Fields {
    let mut fields = was;
    match turn {
        Turn::Marks(parked, word) => {
            let marks = [parked, word, 0];
            fields.marks = marks;
        }
        Turn::Phase(phase) => fields.phase = phase,
        Turn::State(state, count) => {
            fields.state = state;
            fields.count = count;
        }
    }
    fields
}

// Likewise once any field is set.
fn after(was: Fields, step: Step) -> Fields {
    let mut fields = was;
    match step {
        Step::Heads(word) => fields.heads = some_heads(word),
        Step::Request(request) => {
            let args = request.args;
            fields.call = request.call;
            fields.args = args;
            fields.length = request.length;
        }
        Step::Answer(answer) => fields.answer = answer,
        Step::Words(words) => fields = after_words(fields, words),
        Step::Turn(turn) => fields = after_turn(fields, turn),
    }
    fields
}

/// Sets fields, one after the other, and reads all of them after each.
pub fn set_alone<T: Store>(rt: &impl Abort, store: &mut T, root: NodeId, steps: &[Step])
    requires good { BankGood (kernel_of (T.memory store.old)) }
    requires rows { RowsGood (domain_rows (kernel_of (T.memory store.old))) }
    requires live { (at (domains (kernel_of (T.memory store.old))) root.0).live ≡ true }
    requires whole { (at (domains (kernel_of (T.memory store.old))) root.0).whole ≡ true }
{
    let mut fields = fields_of(store, root);
    for step in steps {
        fields = after(fields, *step);
        set(rt, store, root, *step);
        assert!(rt; fields_of(store, root) == fields);
    }
}
