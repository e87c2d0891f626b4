//! The loop over turns.

ghost use Rattle.std.specs.Prelude.{◌≡◌, ℕ, ◌<◌, ◌≤◌, ◌-◌, List, Some, None, false, IfOk, IfErr, OnErr, option_map};
ghost use Rattle.kn_io.specs.Faults.{Rose};
ghost use Rattle.kn_io.specs.Sink.{GrewByPrefix};
ghost use Rattle.unix_model.specs.Calls.{call_of};
ghost use Rattle.unix_model.specs.Machine.{idle_stop, run_from, stop_by};
ghost use Rattle.unix_model.specs.Schedule.{is_spent, next_slot, unix_machine, unix_run};
ghost use Rattle.unix_model.specs.State.{halted_word};
ghost use Rattle.unix_model.specs.Turn.{turned};
ghost use Rattle.flat_file_calls.specs.Console.{TakesFront};
ghost use Rattle.flat_unix.specs.FlatView.{unix_of};
ghost use Rattle.flat_unix.specs.Turns.{IsTurnFault};
ghost use Rattle.keynix.specs.Counts.{TurnsStay};
ghost use Rattle.keynix.specs.Rows.{GoesOn, MakesRow};
ghost use Rattle.keynix.specs.Runs.{RunsAs, stop_of};
ghost use Rattle.keynix.specs.Schedules.{IsInRow, schedule_of};

use crate::schedule::Schedule;
use flat_unix::{Flat, FlatFault};
use kn_io::{Sink, Source};
use std::alloc::Global;

/// Why a run ended.
#[derive(Clone, Copy, Debug, PartialEq, Eq)]
pub enum Stop {
    /// The machine halted, with the wait word of process 1.
    Halted(u32),
    /// No turn would change anything any more.
    Idle,
    /// All turns of the schedule were made.
    PlanDone,
    /// As many turns were made as may be.
    Going,
}

/// What a run was.
#[derive(Clone, Copy, Debug, PartialEq, Eq)]
pub struct Ran {
    pub turns: u64,
    pub stop: Stop,
}

/// Turns that were made, and whether they found the machine idle.
#[derive(Clone, Copy, Debug, PartialEq, Eq)]
struct Advance {
    turns: u32,
    idle: bool,
}

/// Runs a machine under a schedule for at most so many turns.
///
/// # Errors
///
/// `ReadFault` only where the input's count of faults rose, and `WriteFault` only where the output's did. `NoMemory` is
/// free. No other fault comes. The input has then lost a front of what the whole run takes, and the output got a front of
/// what it puts.
pub fn run<S: Source, K: Sink>(
    alloc: Global,
    flat: &mut Flat,
    schedule: &mut Schedule,
    turns: u64,
    input: &mut S,
    output: &mut K,
) -> Result<Ran, FlatFault>
    ensures runs { IfOk result (λ ran. (bytes : List ℕ) → S.left input.old ≡ Some bytes → RunsAs (unix_run call_of turns (unix_of flat.old) (schedule_of schedule.old) bytes) bytes S.left K.grew (unix_of flat.new) (schedule_of schedule.new) ran.turns (stop_of ran.stop) input.new output.old output.new) }
    ensures lost { OnErr result ((bytes : List ℕ) → S.left input.old ≡ Some bytes → TakesFront bytes (unix_run call_of turns (unix_of flat.old) (schedule_of schedule.old) bytes).taken (S.left input.new)) }
    ensures part { OnErr result ((bytes : List ℕ) → S.left input.old ≡ Some bytes → GrewByPrefix K.grew output.old (unix_run call_of turns (unix_of flat.old) (schedule_of schedule.old) bytes).put output.new) }
    ensures same { TurnsStay (S.faults input.new ≡ S.faults input.old) (K.faults output.new ≡ K.faults output.old) result }
    ensures cause { IfErr result (IsTurnFault (Rose (S.faults input.old) (S.faults input.new)) (Rose (K.faults output.old) (K.faults output.new))) }
    ensures input_counted { S.faults input.old ≤ S.faults input.new }
    ensures output_counted { K.faults output.old ≤ K.faults output.new }
{
    schedule.begin(flat);
    let mut made = 0;
    'turns: while made < turns {
        match stop_at(flat, schedule) {
            Some(stop) => return Ok(Ran { turns: made, stop }),
            None => {}
        }
        let advance = match go_on(alloc, flat, schedule, turns - made, input, output) {
            Ok(advance) => advance,
            Err(fault) => return Err(fault),
        };
        made += u64::from(advance.turns);
        if advance.idle {
            let stop = idle_stop(flat);
            return Ok(Ran { turns: made, stop });
        }
    }
    match stop_at(flat, schedule) {
        Some(stop) => Ok(Ran { turns: made, stop }),
        None => Ok(Ran {
            turns: made,
            stop: Stop::Going,
        }),
    }
}

/// Why no turn is made, whatever the number.
fn stop_at(flat: &Flat, schedule: &Schedule) -> Option<Stop>
    ensures { option_map stop_of result ≡ stop_by (halted_word (unix_of flat.now)) (is_spent (schedule_of schedule.now)) }
{
    match flat.halted() {
        Some(word) => Some(Stop::Halted(word.0)),
        None => {
            if schedule.is_spent() {
                Some(Stop::PlanDone)
            } else {
                None
            }
        }
    }
}

/// Why a run ends where the machine was found idle.
fn idle_stop(flat: &Flat) -> Stop
    ensures { stop_of result ≡ idle_stop (halted_word (unix_of flat.now)) }
{
    match flat.halted() {
        Some(word) => Stop::Halted(word.0),
        None => Stop::Idle,
    }
}

/// Makes the next turn of a run, or as many in a row as find nothing to do.
fn go_on<S: Source, K: Sink>(
    alloc: Global,
    flat: &mut Flat,
    schedule: &mut Schedule,
    most: u64,
    input: &mut S,
    output: &mut K,
) -> Result<Advance, FlatFault>
    requires some { 0 < most }
    requires going { halted_word (unix_of flat.old) ≡ None }
    requires given { is_spent (schedule_of schedule.old) ≡ false }
    ensures goes_on { IfOk result (λ advance. (bytes : List ℕ) → S.left input.old ≡ Some bytes → GoesOn (run_from (unix_machine call_of) most (unix_of flat.old) (schedule_of schedule.old) bytes) (most - advance.turns) bytes S.left K.grew (unix_of flat.new) (schedule_of schedule.new) advance.turns advance.idle input.new output.old output.new) }
    ensures few { IfOk result (λ advance. (0 < advance.turns) × (advance.turns ≤ most)) }
    ensures lost { OnErr result ((bytes : List ℕ) → S.left input.old ≡ Some bytes → TakesFront bytes (run_from (unix_machine call_of) most (unix_of flat.old) (schedule_of schedule.old) bytes).taken (S.left input.new)) }
    ensures part { OnErr result ((bytes : List ℕ) → S.left input.old ≡ Some bytes → GrewByPrefix K.grew output.old (run_from (unix_machine call_of) most (unix_of flat.old) (schedule_of schedule.old) bytes).put output.new) }
    ensures same { TurnsStay (S.faults input.new ≡ S.faults input.old) (K.faults output.new ≡ K.faults output.old) result }
    ensures cause { IfErr result (IsTurnFault (Rose (S.faults input.old) (S.faults input.new)) (Rose (K.faults output.old) (K.faults output.new))) }
    ensures input_counted { S.faults input.old ≤ S.faults input.new }
    ensures output_counted { K.faults output.old ≤ K.faults output.new }
{
    let made = match make_row(alloc, flat, schedule, most, input, output) {
        Ok(made) => made,
        Err(fault) => return Err(fault),
    };
    let idle = schedule.ends_idle(flat);
    schedule.pass(flat, made);
    Ok(Advance { turns: made, idle })
}

/// So many turns, or fewer where only so many may be made.
fn at_most(turns: u32, most: u64) -> u32
    ensures few { (result ≤ turns) × (result ≤ most) }
    ensures some { 0 < turns → 0 < most → 0 < result }
{
    if u64::from(turns) <= most {
        turns
    } else {
        most as u32
    }
}

/// Makes the next turn, or as many in a row at once as find nothing to do: these change the position alone, whichever slots
/// they are of.
fn make_row<S: Source, K: Sink>(
    alloc: Global,
    flat: &mut Flat,
    schedule: &Schedule,
    most: u64,
    input: &mut S,
    output: &mut K,
) -> Result<u32, FlatFault>
    requires some { 0 < most }
    requires given { is_spent (schedule_of schedule.now) ≡ false }
    ensures made { IfOk result (λ made. (bytes : List ℕ) → S.left input.old ≡ Some bytes → MakesRow (schedule_of schedule.now) made (unix_of flat.old) bytes S.left K.grew (unix_of flat.new) input.new output.old output.new) }
    ensures few { IfOk result (λ made. (0 < made) × (made ≤ most)) }
    ensures in_row { IfOk result (IsInRow schedule.now) }
    ensures lost { OnErr result ((bytes : List ℕ) → S.left input.old ≡ Some bytes → TakesFront bytes (turned call_of (unix_of flat.old) (next_slot (unix_of flat.old) (schedule_of schedule.now)) bytes).taken (S.left input.new)) }
    ensures part { OnErr result ((bytes : List ℕ) → S.left input.old ≡ Some bytes → GrewByPrefix K.grew output.old (turned call_of (unix_of flat.old) (next_slot (unix_of flat.old) (schedule_of schedule.now)) bytes).put output.new) }
    ensures same { TurnsStay (S.faults input.new ≡ S.faults input.old) (K.faults output.new ≡ K.faults output.old) result }
    ensures cause { IfErr result (IsTurnFault (Rose (S.faults input.old) (S.faults input.new)) (Rose (K.faults output.old) (K.faults output.new))) }
    ensures input_counted { S.faults input.old ≤ S.faults input.new }
    ensures output_counted { K.faults output.old ≤ K.faults output.new }
{
    let slot = schedule.slot(flat);
    if flat.is_free(slot) {
        let turns = at_most(schedule.free_row(flat), most);
        flat.free_turns(slot, turns);
        return Ok(turns);
    }
    match flat.turn(alloc, slot, input, output) {
        Ok(_) => Ok(1),
        Err(fault) => Err(fault),
    }
}
