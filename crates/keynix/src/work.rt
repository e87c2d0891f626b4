//! The command `work`: the program's own load test.

ghost use Rattle.std.specs.Prelude.{◌≡◌, ◌≤◌};
ghost use Rattle.kn_io.specs.Counting.{counted_bytes, counted_sum};
ghost use Rattle.kn_io.specs.Faults.{Rose};
ghost use Rattle.workload.specs.Workload.{summary};
ghost use Rattle.keynix.specs.Counts.{CountsStay};
ghost use Rattle.keynix.specs.Endings.{IsCaused};
ghost use Rattle.keynix.specs.Loads.{EndsWork, PutsSummary};
ghost use Rattle.command_line.specs.WordsView.{load_view};

use crate::ending::Ending;
use crate::once::run_input;
use crate::schedule::Schedule;
use command_line::{Load, default_setup};
use kn_io::{ByteSource, CountSink, Sink};
use std::alloc::Global;
use unix_laws::run_puts_few;
use workload::{summary, work_bundle};

/// Boots the bundle of a load in memory, and runs it, with the sizes and the turns of `once` without an option. What it puts is
/// counted; where it halts, the output gets the summary, in one put.
pub fn work<K: Sink>(alloc: Global, load: Load, output: &mut K) -> Ending
    ensures ends { EndsWork (load_view load) K.grew output.old output.new result }
    ensures counts { CountsStay (Unit {0}) (K.faults output.new ≡ K.faults output.old) result }
    ensures caused { IsCaused ⊥ (Rose (K.faults output.old) (K.faults output.new)) result }
    ensures output_counted { K.faults output.old ≤ K.faults output.new }
{
    run_puts_few();
    let bundle = match work_bundle(alloc, load.seed, load.lines) {
        Ok(bundle) => bundle,
        Err(_) => return Ending::NoMemory,
    };
    let mut input = ByteSource::new(bundle);
    let mut console = CountSink::new();
    let schedule = Schedule::Round(None);
    match run_input(alloc, default_setup(), schedule, &mut input, &mut console) {
        Ending::Halted(_) => put_summary(alloc, load, &console, output),
        other => other,
    }
}

/// Puts the summary of a run that put what the console counted.
fn put_summary<K: Sink>(alloc: Global, load: Load, console: &CountSink, output: &mut K) -> Ending
    ensures puts { PutsSummary (summary load.seed load.lines (counted_bytes console.now) (counted_sum console.now)) K.grew output.old output.new result }
    ensures counts { CountsStay (Unit {0}) (K.faults output.new ≡ K.faults output.old) result }
    ensures caused { IsCaused ⊥ (Rose (K.faults output.old) (K.faults output.new)) result }
    ensures output_counted { K.faults output.old ≤ K.faults output.new }
{
    let text = match summary(alloc, load.seed, load.lines, console.count(), console.sum()) {
        Ok(text) => text,
        Err(_) => return Ending::NoMemory,
    };
    match output.put(text.as_bytes()) {
        Ok(()) => Ending::Done,
        Err(_) => Ending::WriteFault,
    }
}
