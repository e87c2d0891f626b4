//! The command `once`: an ELF file or a bundle is booted in memory and runs.

ghost use Rattle.std.specs.Prelude.{◌≡◌, ◌≤◌, ◌⊎◌, ℕ, List, Some, IfErr};
ghost use Rattle.kn_io.specs.Faults.{Rose};
ghost use Rattle.keynix.specs.Counts.{CountsStay, ReadStays};
ghost use Rattle.keynix.specs.Endings.{EndsOn, EndsOnce, FromPlan, IsCaused, IsPlan, KeepsPlan, ReadsPlan, run_ending, schedule_told};
ghost use Rattle.keynix.specs.Runs.{stop_of};
ghost use Rattle.keynix.specs.Schedules.{schedule_of};
ghost use Rattle.command_line.specs.WordsView.{plan_view, setup_view};

use crate::boot::boot;
use crate::ending::Ending;
use crate::fault::fault;
use crate::given::Given;
use crate::run::{Ran, Stop, run};
use crate::schedule::Schedule;
use command_line::{Plan, Setup};
use kn_io::{Sink, Source};
use plan::{PlanFault, read_plan};
use std::alloc::Global;

/// Reads the plan where it is asked for, then boots the input in memory, and runs it. What the boot leaves of the input is
/// the machine's console input, of which nothing is read that the run doesn't take.
pub fn once<S: Source, P: Source, K: Sink>(
    alloc: Global,
    setup: Setup,
    plan: &mut P,
    input: &mut S,
    output: &mut K,
) -> Ending
    ensures ends { (text : List ℕ) → IsPlan (plan_view setup.plan) (P.left plan.old) text → EndsOnce (setup_view setup) (schedule_told (plan_view setup.plan) text) S.left K.grew (P.left plan.new) input.old input.new output.old output.new result }
    ensures plan_kept { KeepsPlan (plan_view setup.plan) plan.old plan.new }
    ensures counts { CountsStay ((P.faults plan.new ≡ P.faults plan.old) × (S.faults input.new ≡ S.faults input.old)) (K.faults output.new ≡ K.faults output.old) result }
    ensures caused { IsCaused (Rose (S.faults input.old) (S.faults input.new) ⊎ FromPlan (plan_view setup.plan) (Rose (P.faults plan.old) (P.faults plan.new))) (Rose (K.faults output.old) (K.faults output.new)) result }
    ensures plan_counted { P.faults plan.old ≤ P.faults plan.new }
    ensures input_counted { S.faults input.old ≤ S.faults input.new }
    ensures output_counted { K.faults output.old ≤ K.faults output.new }
{
    let schedule = match schedule_for(alloc, setup.plan, plan) {
        Ok(schedule) => schedule,
        Err(ending) => return ending,
    };
    run_input(alloc, setup, schedule, input, output)
}

/// The schedule of a run: the round, or what the plan gives.
fn schedule_for<P: Source>(alloc: Global, plan: Plan, from: &mut P) -> Result<Schedule, Ending>
    ensures reads { (text : List ℕ) → IsPlan (plan_view plan) (P.left from.old) text → ReadsPlan (plan_view plan) (schedule_told (plan_view plan) text) (P.left from.new) result }
    ensures kept { KeepsPlan (plan_view plan) from.old from.new }
    ensures same { ReadStays (P.faults from.new ≡ P.faults from.old) result }
    ensures caused { IfErr result (IsCaused (FromPlan (plan_view plan) (Rose (P.faults from.old) (P.faults from.new))) ⊥) }
    ensures counted { P.faults from.old ≤ P.faults from.new }
{
    match plan {
        Plan::Round => Ok(Schedule::Round(None)),
        Plan::Given => match read_plan(alloc, from) {
            Ok(spans) => Ok(Schedule::Given(Given::new(spans))),
            Err(PlanFault::BadPlan { line }) => Err(Ending::BadPlan { line }),
            Err(PlanFault::ReadFault) => Err(Ending::ReadFault),
            Err(PlanFault::NoMemory) => Err(Ending::NoMemory),
        },
    }
}

/// Boots the input, and runs it under a schedule.
pub fn run_input<S: Source, K: Sink>(
    alloc: Global,
    setup: Setup,
    schedule: Schedule,
    input: &mut S,
    output: &mut K,
) -> Ending
    ensures ends { (bytes : List ℕ) → S.left input.old ≡ Some bytes → EndsOn (setup_view setup) (schedule_of schedule) bytes S.left K.grew input.new output.old output.new result }
    ensures counts { CountsStay (S.faults input.new ≡ S.faults input.old) (K.faults output.new ≡ K.faults output.old) result }
    ensures caused { IsCaused (Rose (S.faults input.old) (S.faults input.new)) (Rose (K.faults output.old) (K.faults output.new)) result }
    ensures input_counted { S.faults input.old ≤ S.faults input.new }
    ensures output_counted { K.faults output.old ≤ K.faults output.new }
{
    let mut flat = match boot(alloc, setup, input) {
        Ok(flat) => flat,
        Err(ending) => return ending,
    };
    let mut schedule = schedule;
    match run(alloc, &mut flat, &mut schedule, setup.turns, input, output) {
        Ok(ran) => ended(ran),
        Err(failed) => fault(failed),
    }
}

/// The ending of a run.
fn ended(ran: Ran) -> Ending
    ensures { result ≡ run_ending (stop_of ran.stop) ran.turns }
{
    match ran.stop {
        Stop::Halted(word) => Ending::Halted(word),
        Stop::Idle => Ending::Idle(ran.turns),
        Stop::PlanDone | Stop::Going => Ending::TurnsSpent(ran.turns),
    }
}
