//! Each setter changes its field and no other, over a store in memory.

use super::fields::{FIELDS, Made, machine_with_domain};
use super::steps::{Step, Turn, Words, set_alone, set_each};
use domain::{Answer, Phase, State};
use std::alloc::Global;
use std::process::Abort;
use std::test::Fail;
use unix_model::Request;

// Sets fields of a domain that has all fields set, one after the other.
fn are_set_alone(rt: &impl Abort, alloc: Global, steps: &[Step]) -> Result<(), Fail> {
    let Made { mut store, root } = machine_with_domain(alloc)?;
    set_each(rt, &mut store, root, &[Step::Heads(7)]);
    set_each(rt, &mut store, root, &FIELDS);
    set_alone(rt, &mut store, root, steps);
    Ok(())
}

#[test]
fn phase_state_and_marks_are_set_alone(rt: HostRuntime) -> Result<(), Fail> {
    are_set_alone(
        &rt,
        rt.alloc(),
        &[
            Step::Turn(Turn::Phase(Phase::Asked)),
            Step::Turn(Turn::State(State::Waiting, 3)),
            Step::Turn(Turn::Marks(0, 9)),
        ],
    )
}

#[test]
fn heads_request_and_answer_are_set_alone(rt: HostRuntime) -> Result<(), Fail> {
    let request = Request {
        call: 0,
        args: [4, 3, 2, 1],
        length: 1,
    };
    let answer = Answer {
        value: 1,
        at: 2,
        length: 3,
    };
    are_set_alone(
        &rt,
        rt.alloc(),
        &[Step::Heads(8), Step::Request(request), Step::Answer(answer)],
    )
}

#[test]
fn registers_and_descriptors_are_set_alone(rt: HostRuntime) -> Result<(), Fail> {
    are_set_alone(
        &rt,
        rt.alloc(),
        &[
            Step::Words(Words::NoRegisters),
            Step::Words(Words::Open(1, 1)),
            Step::Words(Words::Closed(31)),
        ],
    )
}
