//! The note and the status of an ending.

ghost use Rattle.std.specs.Prelude.{◌≡◌, ◌≤◌, ◌⊎◌, Some, IfOk, string_bytes};
ghost use Rattle.kn_io.specs.Faults.{Rose};
ghost use Rattle.kn_io.specs.Sink.{GrewByPrefix};
ghost use Rattle.unix_model.specs.Notes.{halted_note, spent_note};
ghost use Rattle.keynix.specs.Inputs.{refusal_of};
ghost use Rattle.keynix.specs.Telling.{Tells, TakesMemory, bundle_kind, elf_kind, ending_note, ending_status, idle_note, kind_name, line_told, plan_note, refusal_note, source_kind, source_note};

use crate::ending::{Ending, Refusal};
use bundle::BundleKind;
use elf_read::ElfFault;
use kn_io::{Failed, Sink};
use rv_asm::AsmKind;
use std::alloc::{AllocError, Global};

/// The status with which the program ends.
#[derive(Clone, Copy, Debug, PartialEq, Eq)]
pub struct Status(pub u8);

/// The status of an ending whose note was put.
fn status_of(ending: Ending) -> u8
    ensures { result ≡ ending_status ending }
{
    match ending {
        Ending::Halted(_) => 0,
        Ending::Done => 0,
        Ending::Usage => 1,
        Ending::Refused(_) | Ending::NotAssembled { .. } | Ending::BadPlan { .. } => 2,
        Ending::ReadFault => 3,
        Ending::WriteFault => 4,
        Ending::NoMemory => 6,
        Ending::TurnsSpent(_) => 9,
        Ending::Idle(_) => 10,
    }
}

/// How process 1 ended: by an exit code or a signal.
#[tactic(auto, unfolding(unix_model::specs::Notes::halted_note))]
fn halted(alloc: Global, word: u32) -> Result<String, AllocError>
    ensures { IfOk result (λ note. string_bytes note ≡ halted_note word) }
{
    if word % 256 == 0 {
        let code = word / 256;
        format!(in alloc; "halted {code}\n")
    } else {
        format!(in alloc; "halted signal {word}\n")
    }
}

/// How many turns were made.
#[tactic(auto, unfolding(unix_model::specs::Notes::spent_note))]
fn spent(alloc: Global, turns: u64) -> Result<String, AllocError>
    ensures { IfOk result (λ note. string_bytes note ≡ spent_note turns) }
{
    format!(in alloc; "turns spent {turns}\n")
}

/// After how many turns the machine is idle.
#[tactic(auto, unfolding(crate::specs::Telling::idle_note))]
fn idle(alloc: Global, turns: u64) -> Result<String, AllocError>
    ensures { IfOk result (λ note. string_bytes note ≡ idle_note turns) }
{
    format!(in alloc; "idle {turns}\n")
}

/// The name of the kind of a refused ELF file.
fn elf_name(fault: ElfFault) -> &'static str
    ensures { result.now ≡ elf_kind fault }
{
    match fault {
        ElfFault::Short => "Short",
        ElfFault::NotElf => "NotElf",
        ElfFault::NotRv32 => "NotRv32",
        ElfFault::NotStatic => "NotStatic",
        ElfFault::BadHeader => "BadHeader",
        ElfFault::BadSegment => "BadSegment",
        ElfFault::TooMany => "TooMany",
    }
}

/// The name of the kind of a refused bundle.
fn bundle_name(kind: BundleKind) -> &'static str
    ensures { result.now ≡ bundle_kind kind }
{
    match kind {
        BundleKind::Syntax => "Syntax",
        BundleKind::BadPath => "BadPath",
        BundleKind::Twice => "Twice",
        BundleKind::NoParent => "NoParent",
        BundleKind::TooLong => "TooLong",
        BundleKind::BadAsm => "BadAsm",
        BundleKind::BadHex => "BadHex",
        BundleKind::NoInit => "NoInit",
    }
}

/// The name of the kind of an input that isn't booted.
fn refusal_name(refusal: Refusal) -> &'static str
    ensures { result.now ≡ kind_name (refusal_of refusal) }
{
    match refusal {
        Refusal::At { kind, .. } => bundle_name(kind),
        Refusal::NoRoom { .. } => "NoRoom",
        Refusal::Elf(fault) => elf_name(fault),
    }
}

/// The line that is told of it: 0 where no line is to blame.
fn refusal_line(refusal: Refusal) -> u32
    ensures { result ≡ line_told (refusal_of refusal) }
{
    match refusal {
        Refusal::At { line, .. } | Refusal::NoRoom { line } => line,
        Refusal::Elf(_) => 0,
    }
}

/// The note of an input that isn't booted.
#[tactic(auto, unfolding(crate::specs::Telling::refusal_note))]
fn refused(alloc: Global, refusal: Refusal) -> Result<String, AllocError>
    ensures { IfOk result (λ note. string_bytes note ≡ refusal_note (refusal_of refusal)) }
{
    let name = refusal_name(refusal);
    let line = refusal_line(refusal);
    format!(in alloc; "bad input {name} {line}\n")
}

/// The name of the kind of a refused source.
fn kind_name(kind: AsmKind) -> &'static str
    ensures { result.now ≡ source_kind kind }
{
    match kind {
        AsmKind::Syntax => "Syntax",
        AsmKind::UnknownLabel => "UnknownLabel",
        AsmKind::DoubleLabel => "DoubleLabel",
        AsmKind::OutOfRange => "OutOfRange",
        AsmKind::TooLong => "TooLong",
    }
}

/// The note of a source that is refused at a line.
#[tactic(auto, unfolding(crate::specs::Telling::source_note))]
fn not_assembled(alloc: Global, kind: AsmKind, line: u32) -> Result<String, AllocError>
    ensures { IfOk result (λ note. string_bytes note ≡ source_note (record { kind = kind; line = line })) }
{
    let name = kind_name(kind);
    format!(in alloc; "bad input {name} {line}\n")
}

/// The note of a plan that is refused at a line.
#[tactic(auto, unfolding(crate::specs::Telling::plan_note))]
fn bad_plan(alloc: Global, line: u32) -> Result<String, AllocError>
    ensures { IfOk result (λ note. string_bytes note ≡ plan_note line) }
{
    format!(in alloc; "bad input BadPlan {line}\n")
}

/// Puts the note of an ending that takes host memory, where there was some, and else a note that says so.
fn tell_text<E: Sink>(notes: &mut E, ending: Ending, text: Result<String, AllocError>) -> Status
    requires text { IfOk text (λ note. ending_note ending ≡ Some (string_bytes note)) }
    requires takes { TakesMemory ending }
    ensures tells { Tells E.grew (Rose (E.faults notes.old) (E.faults notes.new)) ending notes.old notes.new result.0 }
    ensures same { (result.0 ≡ 4) ⊎ (E.faults notes.new ≡ E.faults notes.old) }
    ensures counted { E.faults notes.old ≤ E.faults notes.new }
{
    match text {
        Ok(note) => tell(notes, ending, note.as_bytes()),
        Err(_) => match notes.put(b"no memory\n") {
            Ok(()) => Status(6),
            Err(_) => Status(4),
        },
    }
}

/// Puts the note of an ending.
fn tell<E: Sink>(notes: &mut E, ending: Ending, note: &[u8]) -> Status
    requires { ending_note ending ≡ Some note.now }
    ensures tells { Tells E.grew (Rose (E.faults notes.old) (E.faults notes.new)) ending notes.old notes.new result.0 }
    ensures same { (result.0 ≡ 4) ⊎ (E.faults notes.new ≡ E.faults notes.old) }
    ensures counted { E.faults notes.old ≤ E.faults notes.new }
{
    match notes.put(note) {
        Ok(()) => Status(status_of(ending)),
        Err(_) => Status(4),
    }
}

/// Tells of an ending: its note, where it has one, in one put, and its status.
#[tactic(auto, unfolding(crate::specs::Telling::usage_note, crate::specs::Telling::read_fault_note, crate::specs::Telling::write_fault_note, crate::specs::Telling::no_memory_note))]
pub fn finish<E: Sink>(alloc: Global, notes: &mut E, ending: Ending) -> Status
    ensures tells { Tells E.grew (Rose (E.faults notes.old) (E.faults notes.new)) ending notes.old notes.new result.0 }
    ensures same { (result.0 ≡ 4) ⊎ (E.faults notes.new ≡ E.faults notes.old) }
    ensures counted { E.faults notes.old ≤ E.faults notes.new }
{
    match ending {
        Ending::Halted(word) => tell_text(notes, ending, halted(alloc, word)),
        Ending::TurnsSpent(turns) => tell_text(notes, ending, spent(alloc, turns)),
        Ending::Idle(turns) => tell_text(notes, ending, idle(alloc, turns)),
        Ending::Done => Status(status_of(ending)),
        Ending::Usage => tell(
            notes,
            ending,
            b"usage: keynix DISK COMMAND [--name=value]\n",
        ),
        Ending::Refused(refusal) => tell_text(notes, ending, refused(alloc, refusal)),
        Ending::NotAssembled { kind, line } => {
            tell_text(notes, ending, not_assembled(alloc, kind, line))
        }
        Ending::BadPlan { line } => tell_text(notes, ending, bad_plan(alloc, line)),
        Ending::ReadFault => tell(notes, ending, b"read fault\n"),
        Ending::WriteFault => tell(notes, ending, b"write fault\n"),
        Ending::NoMemory => tell(notes, ending, b"no memory\n"),
    }
}
