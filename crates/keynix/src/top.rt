//! The top call: all that the program does.

ghost use Rattle.std.specs.Prelude.{◌≡◌, ◌≢◌, ◌≤◌, ◌⊎◌, ℕ, List, None, Some, Ok, Err, true, map, string_bytes};
ghost use Rattle.kn_io.specs.Faults.{Rose};
ghost use Rattle.kn_io.specs.Sink.{GrewByPrefix};
ghost use Rattle.rv_asm.specs.Programs.{Program, Refusal as SourceRefusal, assembled};
ghost use Rattle.flat_bundle.specs.Booting.{Booted, Refusal};
ghost use Rattle.unix_model.specs.Machine.{Idle};
ghost use Rattle.unix_model.specs.Notes.{spent_note};
ghost use Rattle.unix_model.specs.Schedule.{Schedule};
ghost use Rattle.keynix.specs.Counts.{Counted};
ghost use Rattle.command_line.specs.Words.{Asm, Load, Once, Setup, Work, command_of};
ghost use Rattle.keynix.specs.Endings.{FromPlan, IsPlan, IsSpent, WritesFile, WritesPart, run_of, schedule_told};
ghost use Rattle.keynix.specs.Inputs.{IsBoot};
ghost use Rattle.keynix.specs.Promises.{Answers, HaltsOn, KeepsInputOf, KeepsPlanOf, LoadTold, ReadCause, RefusesInput, RefusesPlan, RefusesSource, StopsOn, is_status, stop_status};
ghost use Rattle.keynix.specs.Telling.{PutsPartOfNote, idle_note, no_memory_note, read_fault_note, usage_note, write_fault_note};

use crate::asm::asm;
use crate::ending::Ending;
use crate::finish::{Status, finish};
use crate::once::once;
use crate::work::work;
use command_line::{Command, parse};
use flat_bundle::one_outcome_law;
use kn_io::{Sink, Source};
use std::alloc::Global;

/// Does what the words say, and tells of it.
fn perform<S: Source, P: Source, K: Sink, E: Sink>(
    alloc: Global,
    words: &[String],
    plan: &mut P,
    input: &mut S,
    output: &mut K,
    notes: &mut E,
) -> Status
    ensures answers { Answers (command_of (map string_bytes words.now)) S.left P.left K.grew E.grew (Rose (S.faults input.old) (S.faults input.new)) (Rose (P.faults plan.old) (P.faults plan.new)) (Rose (K.faults output.old) (K.faults output.new)) (Rose (E.faults notes.old) (E.faults notes.new)) input.old input.new plan.old plan.new output.old output.new notes.old notes.new result.0 }
    ensures counts { Counted (S.faults input.old) (S.faults input.new) (P.faults plan.old) (P.faults plan.new) (K.faults output.old) (K.faults output.new) (E.faults notes.old) (E.faults notes.new) result.0 }
    ensures plan_counted { P.faults plan.old ≤ P.faults plan.new }
    ensures input_counted { S.faults input.old ≤ S.faults input.new }
    ensures output_counted { K.faults output.old ≤ K.faults output.new }
    ensures notes_counted { E.faults notes.old ≤ E.faults notes.new }
{
    match parse(words) {
        None => finish(alloc, notes, Ending::Usage),
        Some(Command::Once(setup)) => {
            let ending = once(alloc, setup, plan, input, output);
            finish(alloc, notes, ending)
        }
        Some(Command::Work(load)) => {
            let ending = work(alloc, load, output);
            finish(alloc, notes, ending)
        }
        Some(Command::Asm) => {
            let ending = asm(alloc, input, output);
            finish(alloc, notes, ending)
        }
    }
}

/// All that the program does: does what `words` say over the plan, the input, the output and the notes, and gives the
/// status with which it ends. Each ending but that of a written file or summary puts one note, in one put. The plan is read
/// only where the words ask for it, and before the input is looked at; the load test reads neither.
///
/// 0: the machine of the input halted, the file of the source was written, or the summary of a load test. 1: the words are no
/// command. 2: the plan or the input is refused. 3: a call of the plan or of the input failed. 4: a call of the output or of the notes failed. 6:
/// host memory ran out. 9: all turns were made, or all that the plan gives. 10: the machine is idle, so that no turn would
/// change anything any more.
///
/// What is said of the bytes of the plan and the input holds where these sources tell them, and what is said of the output
/// and the notes is by what their sinks tell; over real streams neither is told.
pub fn keynix<S: Source, P: Source, K: Sink, E: Sink>(
    alloc: Global,
    words: &[String],
    plan: &mut P,
    input: &mut S,
    output: &mut K,
    notes: &mut E,
) -> Status
    ensures status { is_status (command_of (map string_bytes words.now)) result.0 ≡ true }
    ensures halted { result.0 ≡ 0 → (setup : Setup) (text bytes : List ℕ) → command_of (map string_bytes words.now) ≡ Some (Once setup) → IsPlan setup.plan (P.left plan.old) text → S.left input.old ≡ Some bytes → HaltsOn setup text bytes S.left K.grew E.grew (P.left plan.new) input.new output.old output.new notes.old notes.new }
    ensures written { result.0 ≡ 0 → (bytes : List ℕ) → command_of (map string_bytes words.now) ≡ Some Asm → S.left input.old ≡ Some bytes → WritesFile (assembled bytes) S.left K.grew input.new output.old output.new × (notes.new ≡ notes.old) }
    ensures loaded { (load : Load) → command_of (map string_bytes words.now) ≡ Some (Work load) → LoadTold load K.grew E.grew (Rose (K.faults output.old) (K.faults output.new)) (Rose (E.faults notes.old) (E.faults notes.new)) output.old output.new notes.old notes.new result.0 }
    ensures spent { result.0 ≡ 9 → (setup : Setup) (text bytes : List ℕ) → command_of (map string_bytes words.now) ≡ Some (Once setup) → IsPlan setup.plan (P.left plan.old) text → S.left input.old ≡ Some bytes → StopsOn setup IsSpent spent_note text bytes S.left K.grew E.grew (P.left plan.new) input.new output.old output.new notes.old notes.new }
    ensures idled { result.0 ≡ 10 → (setup : Setup) (text bytes : List ℕ) → command_of (map string_bytes words.now) ≡ Some (Once setup) → IsPlan setup.plan (P.left plan.old) text → S.left input.old ≡ Some bytes → StopsOn setup (λ stop. stop ≡ Idle) idle_note text bytes S.left K.grew E.grew (P.left plan.new) input.new output.old output.new notes.old notes.new }
    ensures refused { result.0 ≡ 2 → (setup : Setup) (text bytes : List ℕ) → command_of (map string_bytes words.now) ≡ Some (Once setup) → IsPlan setup.plan (P.left plan.old) text → S.left input.old ≡ Some bytes → RefusesPlan setup text E.grew notes.old notes.new ⊎ RefusesInput setup text bytes E.grew (P.left plan.new) notes.old notes.new }
    ensures refused_source { result.0 ≡ 2 → (bytes : List ℕ) → command_of (map string_bytes words.now) ≡ Some Asm → S.left input.old ≡ Some bytes → RefusesSource bytes E.grew notes.old notes.new }

    // The words.
    ensures usage { result.0 ≡ 1 → (command_of (map string_bytes words.now) ≡ None) × E.grew notes.old usage_note notes.new }
    ensures usage_exactly { command_of (map string_bytes words.now) ≡ None → (result.0 ≡ 1) ⊎ ((result.0 ≡ 4) × Rose (E.faults notes.old) (E.faults notes.new)) }
    ensures usage_output { command_of (map string_bytes words.now) ≡ None → output.new ≡ output.old }

    // The plan and the input: as before where they aren't asked for; where the plan is refused, nothing else was looked at.
    ensures input_kept { KeepsInputOf (command_of (map string_bytes words.now)) input.old input.new }
    ensures plan_kept { KeepsPlanOf (command_of (map string_bytes words.now)) plan.old plan.new }
    ensures plan_first { (setup : Setup) (text : List ℕ) (line : ℕ) → command_of (map string_bytes words.now) ≡ Some (Once setup) → IsPlan setup.plan (P.left plan.old) text → schedule_told setup.plan text ≡ Err line
        → (input.new ≡ input.old) × (output.new ≡ output.old) }

    // Faults, each with its cause, and want of memory.
    ensures read_fault { result.0 ≡ 3 → ReadCause (command_of (map string_bytes words.now)) (Rose (S.faults input.old) (S.faults input.new)) (Rose (P.faults plan.old) (P.faults plan.new)) × E.grew notes.old read_fault_note notes.new }
    ensures write_fault { result.0 ≡ 4 → Rose (K.faults output.old) (K.faults output.new) ⊎ Rose (E.faults notes.old) (E.faults notes.new) }
    ensures write_fault_note { result.0 ≡ 4 → PutsPartOfNote E.grew notes.old notes.new }
    ensures write_fault_told { result.0 ≡ 4 → ¬ Rose (E.faults notes.old) (E.faults notes.new) → E.grew notes.old write_fault_note notes.new }
    ensures no_memory { result.0 ≡ 6 → E.grew notes.old no_memory_note notes.new }
    ensures part { (setup : Setup) (text bytes : List ℕ) (schedule : Schedule) (booted : Booted) → command_of (map string_bytes words.now) ≡ Some (Once setup) → IsPlan setup.plan (P.left plan.old) text → schedule_told setup.plan text ≡ Ok schedule → S.left input.old ≡ Some bytes → IsBoot setup bytes (Ok booted)
        → GrewByPrefix K.grew output.old (run_of setup.turns schedule booted).put output.new }

    // What is put where the input is refused, and of a source's file, where not all of it is.
    ensures refused_output { (setup : Setup) (text bytes : List ℕ) (refusal : Refusal) → command_of (map string_bytes words.now) ≡ Some (Once setup) → IsPlan setup.plan (P.left plan.old) text → S.left input.old ≡ Some bytes → IsBoot setup bytes (Err refusal) → output.new ≡ output.old }
    ensures refused_source_output { (bytes : List ℕ) (refusal : SourceRefusal) → command_of (map string_bytes words.now) ≡ Some Asm → S.left input.old ≡ Some bytes → assembled bytes ≡ Err refusal → output.new ≡ output.old }
    ensures output_stays { result.0 ≢ 0 → result.0 ≢ 4 → command_of (map string_bytes words.now) ≡ Some Asm → output.new ≡ output.old }
    ensures file_part { result.0 ≡ 4 → (bytes : List ℕ) → command_of (map string_bytes words.now) ≡ Some Asm → S.left input.old ≡ Some bytes → (output.new ≡ output.old) ⊎ WritesPart (assembled bytes) K.grew output.old output.new }

    // Without a fault, and with memory, the status is what the run of the input says, or the meaning of the source.
    ensures complete { (setup : Setup) (text bytes : List ℕ) (schedule : Schedule) (booted : Booted) → command_of (map string_bytes words.now) ≡ Some (Once setup) → IsPlan setup.plan (P.left plan.old) text → schedule_told setup.plan text ≡ Ok schedule → S.left input.old ≡ Some bytes → IsBoot setup bytes (Ok booted)
        → ¬ Rose (S.faults input.old) (S.faults input.new) → ¬ FromPlan setup.plan (Rose (P.faults plan.old) (P.faults plan.new)) → ¬ Rose (K.faults output.old) (K.faults output.new) → ¬ Rose (E.faults notes.old) (E.faults notes.new) → result.0 ≢ 6
        → result.0 ≡ stop_status (run_of setup.turns schedule booted).stop }
    ensures refuses { (setup : Setup) (text bytes : List ℕ) (refusal : Refusal) → command_of (map string_bytes words.now) ≡ Some (Once setup) → IsPlan setup.plan (P.left plan.old) text → S.left input.old ≡ Some bytes → IsBoot setup bytes (Err refusal)
        → ¬ Rose (S.faults input.old) (S.faults input.new) → ¬ FromPlan setup.plan (Rose (P.faults plan.old) (P.faults plan.new)) → ¬ Rose (E.faults notes.old) (E.faults notes.new) → result.0 ≢ 6 → result.0 ≡ 2 }
    ensures refuses_plan { (setup : Setup) (text : List ℕ) (line : ℕ) → command_of (map string_bytes words.now) ≡ Some (Once setup) → IsPlan setup.plan (P.left plan.old) text → schedule_told setup.plan text ≡ Err line
        → ¬ Rose (S.faults input.old) (S.faults input.new) → ¬ FromPlan setup.plan (Rose (P.faults plan.old) (P.faults plan.new)) → ¬ Rose (E.faults notes.old) (E.faults notes.new) → result.0 ≢ 6 → result.0 ≡ 2 }
    ensures assembles { (bytes : List ℕ) (program : Program) → command_of (map string_bytes words.now) ≡ Some Asm → S.left input.old ≡ Some bytes → assembled bytes ≡ Ok program
        → ¬ Rose (S.faults input.old) (S.faults input.new) → ¬ Rose (K.faults output.old) (K.faults output.new) → ¬ Rose (E.faults notes.old) (E.faults notes.new) → result.0 ≢ 6 → result.0 ≡ 0 }
    ensures refuses_source { (bytes : List ℕ) (refusal : SourceRefusal) → command_of (map string_bytes words.now) ≡ Some Asm → S.left input.old ≡ Some bytes → assembled bytes ≡ Err refusal
        → ¬ Rose (S.faults input.old) (S.faults input.new) → ¬ Rose (E.faults notes.old) (E.faults notes.new) → result.0 ≢ 6 → result.0 ≡ 2 }

    ensures counts { Counted (S.faults input.old) (S.faults input.new) (P.faults plan.old) (P.faults plan.new) (K.faults output.old) (K.faults output.new) (E.faults notes.old) (E.faults notes.new) result.0 }
    ensures plan_counted { P.faults plan.old ≤ P.faults plan.new }
    ensures input_counted { S.faults input.old ≤ S.faults input.new }
    ensures output_counted { K.faults output.old ≤ K.faults output.new }
    ensures notes_counted { E.faults notes.old ≤ E.faults notes.new }
{
    one_outcome_law();
    perform(alloc, words, plan, input, output, notes)
}
