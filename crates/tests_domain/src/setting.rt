//! Calls on a domain, one after the other, each proved from what the one before it promises.

ghost use Rattle.std.specs.Prelude.{◌≡◌, ◌≤◌, ℕ, true};
ghost use Rattle.kn_base.specs.Memory.{Memory};
ghost use Rattle.kernel_tables.specs.Kernel.{Kernel, kernel_of};
ghost use Rattle.kernel_tables.specs.Rows.{domain_rows};
ghost use Rattle.space_bank.specs.Bank.{BankGood};
ghost use Rattle.unix_model.specs.Tables.{at, with_at};
ghost use Rattle.domain.specs.declared.types.Phase.TheVariants.{Done, Sent};
ghost use Rattle.domain.specs.declared.types.State.TheVariants.{Waiting};
ghost use Rattle.domain.specs.Rules.{RowsGood};
ghost use Rattle.domain.specs.Domains.{domains, lives};

use domain::{Answer, Phase, State, set_answer, set_phase, set_request, set_space, set_state};
use kn_base::{NodeId, Store};
use unix_model::Request;

// Sets the phase of a domain three times.
#[tactic(auto, using(unix_model::proofs::TableLaws::tables))]
fn three_phases<T: Store>(store: &mut T, root: NodeId, first: Phase, second: Phase, third: Phase)
    requires good { BankGood (kernel_of (T.memory store.old)) }
    requires rows { RowsGood (domain_rows (kernel_of (T.memory store.old))) }
    requires live { (at (domains (kernel_of (T.memory store.old))) root.0).live ≡ true }
    ensures set { let old = domains (kernel_of (T.memory store.old)) in domains (kernel_of (T.memory store.new)) ≡ with_at old root.0 (record (at old root.0) { phase = third }) }
    ensures lives { lives (kernel_of (T.memory store.new)) ≡ lives (kernel_of (T.memory store.old)) }
    ensures good { BankGood (kernel_of (T.memory store.new)) }
    ensures rows { RowsGood (domain_rows (kernel_of (T.memory store.new))) }
    ensures live { (at (domains (kernel_of (T.memory store.new))) root.0).live ≡ true }
{
    set_phase(store, root, first);
    set_phase(store, root, second);
    set_phase(store, root, third);
}

/// Sets the phase of a domain ten times.
#[tactic(auto, using(unix_model::proofs::TableLaws::tables))]
pub fn ten_phases<T: Store>(store: &mut T, root: NodeId)
    requires good { BankGood (kernel_of (T.memory store.old)) }
    requires rows { RowsGood (domain_rows (kernel_of (T.memory store.old))) }
    requires live { (at (domains (kernel_of (T.memory store.old))) root.0).live ≡ true }
    ensures set { let old = domains (kernel_of (T.memory store.old)) in domains (kernel_of (T.memory store.new)) ≡ with_at old root.0 (record (at old root.0) { phase = Done }) }
    ensures lives { lives (kernel_of (T.memory store.new)) ≡ lives (kernel_of (T.memory store.old)) }
    ensures good { BankGood (kernel_of (T.memory store.new)) }
    ensures rows { RowsGood (domain_rows (kernel_of (T.memory store.new))) }
{
    three_phases(store, root, Phase::Asked, Phase::Sent, Phase::Done);
    three_phases(store, root, Phase::Run, Phase::Asked, Phase::Sent);
    three_phases(store, root, Phase::Done, Phase::Exiting, Phase::Run);
    set_phase(store, root, Phase::Done);
}

/// A request is made: the request, the phase and the state are set, and the registers.
#[tactic(auto, using(unix_model::proofs::TableLaws::tables))]
pub fn make_request<T: Store>(store: &mut T, root: NodeId, request: Request, answer: Answer)
    requires good { BankGood (kernel_of (T.memory store.old)) }
    requires rows { RowsGood (domain_rows (kernel_of (T.memory store.old))) }
    requires live { (at (domains (kernel_of (T.memory store.old))) root.0).live ≡ true }
    requires length { request.length ≤ 4096 }
    requires answer { answer.length ≤ 4096 }
    ensures set { let old = domains (kernel_of (T.memory store.old)) in domains (kernel_of (T.memory store.new)) ≡ with_at old root.0 (record (at old root.0) { phase = Sent; request = request; answer = answer }) }
    ensures lives { let old = lives (kernel_of (T.memory store.old)) in lives (kernel_of (T.memory store.new)) ≡ with_at old root.0 (record { state = Waiting; count = 7 }) }
    ensures rows { RowsGood (domain_rows (kernel_of (T.memory store.new))) }
    ensures good { BankGood (kernel_of (T.memory store.new)) }
    ensures keeps { T.keeps store.old store.new }
{
    set_request(store, root, request);
    set_answer(store, root, answer);
    set_phase(store, root, Phase::Sent);
    set_state(store, root, State::Waiting, 7);
}

/// Takes the space of a domain away, and sets another one.
#[tactic(auto, using(unix_model::proofs::TableLaws::tables))]
pub fn other_space<T: Store>(store: &mut T, root: NodeId, space: NodeId)
    requires good { BankGood (kernel_of (T.memory store.old)) }
    requires rows { RowsGood (domain_rows (kernel_of (T.memory store.old))) }
    requires live { (at (domains (kernel_of (T.memory store.old))) root.0).live ≡ true }
    ensures live { (at (domains (kernel_of (T.memory store.new))) root.0).live ≡ true }
    ensures rows { RowsGood (domain_rows (kernel_of (T.memory store.new))) }
    ensures good { BankGood (kernel_of (T.memory store.new)) }
    ensures keeps { T.keeps store.old store.new }
{
    set_space(store, root, None);
    set_space(store, root, Some(space));
}
