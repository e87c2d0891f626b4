//! The fields of a domain, over a store in memory.

ghost use Rattle.std.specs.Prelude.{◌≡◌, ℕ, true, IfOk};
ghost use Rattle.kn_base.specs.Memory.{Memory};
ghost use Rattle.kernel_tables.specs.Kernel.{Kernel, kernel_of, first_page, node_count};
ghost use Rattle.kernel_tables.specs.Rows.{domain_rows};
ghost use Rattle.obj_store.specs.Store.{ram_memory};
ghost use Rattle.space_bank.specs.Bank.{BankGood};
ghost use Rattle.unix_model.specs.Tables.{at};
ghost use Rattle.domain.specs.Rules.{RowsGood};
ghost use Rattle.domain.specs.Domains.{domains};

use super::first::first_domain;
use super::reading::{Fields, fields_of};
use super::setting::other_space;
use super::steps::{Step, Turn, Words, set_each};
use super::values::{some_heads, some_regs};
use domain::{Answer, Heads, Phase, State};
use kernel_tables::first_bank_page;
use kn_base::NodeId;
use obj_store::{NoMemory, RamStore};
use std::alloc::Global;
use std::test::Fail;
use unix_model::Request;

/// An empty machine's first domain, by its root.
#[derive(Drop)]
pub struct Made {
    pub store: RamStore,
    pub root: NodeId,
}

/// An empty machine with its first domain.
#[tactic(auto, unfolding(kernel_tables::specs::Kernel::first_page))]
pub fn machine_with_domain(alloc: Global) -> Result<Made, Fail>
    ensures good { IfOk result (λ f. BankGood (kernel_of (ram_memory f.store))) }
    ensures rows { IfOk result (λ f. RowsGood (domain_rows (kernel_of (ram_memory f.store)))) }
    ensures live { IfOk result (λ f. (at (domains (kernel_of (ram_memory f.store))) f.root.0).live ≡ true) }
    ensures whole { IfOk result (λ f. (at (domains (kernel_of (ram_memory f.store))) f.root.0).whole ≡ true) }
{
    let all_pages = first_bank_page(64) + 64;
    match RamStore::new(alloc, all_pages, 1552) {
        Ok(mut store) => {
            let root = first_domain(&mut store);
            Ok(Made { store, root })
        }
        Err(NoMemory) => Err(Fail::from(NoMemory)),
    }
}

// A request and an answer.
const REQUEST: Request = Request {
    call: 25,
    args: [11, 12, 13, 14],
    length: 4096,
};

const ANSWER: Answer = Answer {
    value: 0xffff_fff2,
    at: 0x3000,
    length: 512,
};

/// All fields but the heads.
pub const FIELDS: [Step; 8] = [
    Step::Request(REQUEST),
    Step::Answer(ANSWER),
    Step::Words(Words::Registers),
    Step::Words(Words::Open(31, 2047)),
    Step::Words(Words::Open(0, 0)),
    Step::Turn(Turn::Marks(1, 7)),
    Step::Turn(Turn::Phase(Phase::Done)),
    Step::Turn(Turn::State(State::Available, u64::MAX)),
];

// Heads of zeros.
const NO_HEADS: Heads = Heads {
    pid: 0,
    parent: 0,
    break_start: 0,
    break_end: 0,
    word: 0,
};

#[test]
fn a_new_domain_is_read_back(rt: HostRuntime) -> Result<(), Fail> {
    let Made { store, root } = machine_with_domain(rt.alloc())?;
    let fields = fields_of(&store, root);
    assert!(rt; fields.space.is_some());
    let want = Fields {
        named: Some(root),
        next: None,
        state: State::Running,
        count: 0,
        phase: Phase::Run,
        heads: NO_HEADS,
        x: [0; 32],
        pc: 0,
        marks: [0; 3],
        descriptors: [None; 32],
        ..fields
    };
    assert!(rt; fields == want);
    Ok(())
}

#[test]
fn another_space_is_read_back(rt: HostRuntime) -> Result<(), Fail> {
    let Made { mut store, root } = machine_with_domain(rt.alloc())?;
    let fields = fields_of(&store, root);
    other_space(&mut store, root, NodeId(77));
    let want = Fields {
        space: Some(NodeId(77)),
        named: Some(root),
        phase: Phase::Run,
        ..fields
    };
    assert!(rt; fields_of(&store, root) == want);
    Ok(())
}

#[test]
fn each_field_is_read_back_beside_all_others(rt: HostRuntime) -> Result<(), Fail> {
    let Made { mut store, root } = machine_with_domain(rt.alloc())?;
    set_each(&rt, &mut store, root, &[Step::Heads(0xdead_beef)]);
    set_each(&rt, &mut store, root, &FIELDS);
    let fields = fields_of(&store, root);
    let regs = some_regs();
    let x = regs.x;
    let want = Fields {
        heads: some_heads(0xdead_beef),
        call: 25,
        args: [11, 12, 13, 14],
        length: 4096,
        answer: ANSWER,
        x,
        pc: regs.pc,
        marks: [1, 7, 0],
        phase: Phase::Done,
        state: State::Available,
        count: u64::MAX,
        ..fields
    };
    assert!(rt; fields == want);
    assert!(rt; fields.descriptors[31] == Some(2047));
    assert!(rt; fields.descriptors[0] == Some(0));
    assert!(rt; fields.descriptors[1] == None);
    Ok(())
}
