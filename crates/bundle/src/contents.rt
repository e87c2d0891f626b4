//! What an entry is made of.

ghost use Rattle.std.specs.Prelude.{◌≡◌, ◌≢◌, ◌+◌, ◌-◌, ◌^◌, ◌<◌, ◌≤◌, ℕ, List, [], Ok, not, is_some, IfOk, IfErr};
ghost use Rattle.kn_io.specs.Faults.{Rose};
ghost use Rattle.bundle.specs.Lines.{pending, lines_begun};
ghost use Rattle.rv_asm.specs.Files.{IsFile};
ghost use Rattle.rv_asm.specs.Programs.{Program, assembled, scan_lines, start_scan};
ghost use Rattle.unix_model.specs.Texts.{lines_of};
ghost use Rattle.bundle.specs.Contents.{Holds, file_made, front_refused, made_of, part_made, source_made, user_made};
ghost use Rattle.bundle.specs.EntryLines.{makes_directory};
ghost use Rattle.bundle.specs.Parts.{part_of};
ghost use Rattle.bundle.specs.Streams.{CountsSame, TakesMade, FailsToMake, Fails, IsRefusedBehind};
ghost use Rattle.bundle.specs.Views.{AreFew, IsContent, what_view};

use crate::fault::{BundleFault, BundleKind};
use crate::line::Line;
use crate::lines::Lines;
use crate::parts::{PartEnd, read_part};
use crate::said::{Form, What};
use kn_io::Source;
use rv_asm::{AsmFault, assemble, check_front};
use std::alloc::Global;

/// The bytes of an entry's file, or None for a directory. The source loses the lines that the entry is made of, and no byte
/// more; `into` is where lines are read.
pub fn content<S: Source>(
    alloc: Global,
    what: What,
    lines: &mut Lines,
    into: &mut Line,
    from: &mut S,
) -> Result<Option<Vec<u8>>, BundleFault>
    requires begins { pending lines.old ≡ [] }
    requires few_lines { AreFew what }
    requires fits { lines_begun lines.old ≤ 409604097 }
    ensures made { IfOk result (λ file. TakesMade (λ bytes. made_of (lines_begun lines.old) (what_view what) bytes) (S.left from.old) (λ content. IsContent content file) (lines_begun lines.old) (lines_begun lines.new) (S.left from.new)) }
    ensures fault { IfErr result (FailsToMake (λ bytes. made_of (lines_begun lines.old) (what_view what) bytes) (S.left from.old)) }
    ensures pending { pending lines.new ≡ [] }
    ensures few { IfOk result (λ file. lines_begun lines.new ≤ lines_begun lines.old + 100000) }
    ensures kind { IfOk result (λ file. is_some file ≡ not (makes_directory (what_view what))) }
    ensures same { CountsSame (S.faults from.new ≡ S.faults from.old) result }
    ensures counted { S.faults from.old ≤ S.faults from.new }
    ensures failed { IfErr result (λ fault. fault ≡ BundleFault.ReadFault → Rose (S.faults from.old) (S.faults from.new)) }
{
    match what {
        What::Directory => Ok(None),
        What::Part { form, lines: count } => match part_file(
            alloc, form, count, lines, into, from,
        ) {
            Ok(file) => Ok(Some(file)),
            Err(fault) => Err(fault),
        },
        What::Program { source } => match user_file(alloc, lines.line(), source) {
            Ok(file) => Ok(Some(file)),
            Err(fault) => Err(fault),
        },
    }
}

// The file of the lines that follow.
fn part_file<S: Source>(
    alloc: Global,
    form: Form,
    count: u32,
    lines: &mut Lines,
    into: &mut Line,
    from: &mut S,
) -> Result<Vec<u8>, BundleFault>
    requires begins { pending lines.old ≡ [] }
    requires few_lines { count ≤ 100000 }
    requires fits { lines_begun lines.old ≤ 409604097 }
    ensures made { IfOk result (λ file. TakesMade (λ bytes. part_made (lines_begun lines.old) form count (part_of form count bytes)) (S.left from.old) (λ content. Holds content file.items) (lines_begun lines.old) (lines_begun lines.new) (S.left from.new)) }
    ensures fault { IfErr result (FailsToMake (λ bytes. part_made (lines_begun lines.old) form count (part_of form count bytes)) (S.left from.old)) }
    ensures pending { pending lines.new ≡ [] }
    ensures few { IfOk result (λ file. lines_begun lines.new ≤ lines_begun lines.old + count) }
    ensures same { CountsSame (S.faults from.new ≡ S.faults from.old) result }
    ensures counted { S.faults from.old ≤ S.faults from.new }
    ensures failed { IfErr result (λ fault. fault ≡ BundleFault.ReadFault → Rose (S.faults from.old) (S.faults from.new)) }
{
    match form {
        Form::Text => plain_file(alloc, Form::Text, count, lines, into, from),
        Form::Hex => plain_file(alloc, Form::Hex, count, lines, into, from),
        Form::Asm => source_file(alloc, count, lines, into, from),
    }
}

// The bytes that lines give.
fn plain_file<S: Source>(
    alloc: Global,
    form: Form,
    count: u32,
    lines: &mut Lines,
    into: &mut Line,
    from: &mut S,
) -> Result<Vec<u8>, BundleFault>
    requires begins { pending lines.old ≡ [] }
    requires few_lines { count ≤ 100000 }
    requires fits { lines_begun lines.old ≤ 409604097 }
    ensures made { IfOk result (λ file. TakesMade (λ bytes. file_made (lines_begun lines.old) count (part_of form count bytes)) (S.left from.old) (λ content. Holds content file.items) (lines_begun lines.old) (lines_begun lines.new) (S.left from.new)) }
    ensures fault { IfErr result (FailsToMake (λ bytes. file_made (lines_begun lines.old) count (part_of form count bytes)) (S.left from.old)) }
    ensures pending { pending lines.new ≡ [] }
    ensures few { IfOk result (λ file. lines_begun lines.new ≤ lines_begun lines.old + count) }
    ensures same { CountsSame (S.faults from.new ≡ S.faults from.old) result }
    ensures counted { S.faults from.old ≤ S.faults from.new }
    ensures failed { IfErr result (λ fault. fault ≡ BundleFault.ReadFault → Rose (S.faults from.old) (S.faults from.new)) }
{
    let mut bytes = Vec::new(alloc);
    match read_part(alloc, form, count, lines, into, from, &mut bytes) {
        Ok(PartEnd::Whole) => Ok(bytes),
        Ok(PartEnd::Broken { kind, line }) => Err(BundleFault::At { kind, line }),
        Err(fault) => Err(fault),
    }
}

// The file of the source that lines are.
fn source_file<S: Source>(
    alloc: Global,
    count: u32,
    lines: &mut Lines,
    into: &mut Line,
    from: &mut S,
) -> Result<Vec<u8>, BundleFault>
    requires begins { pending lines.old ≡ [] }
    requires few_lines { count ≤ 100000 }
    requires fits { lines_begun lines.old ≤ 409604097 }
    ensures made { IfOk result (λ file. TakesMade (λ bytes. source_made (lines_begun lines.old) count (part_of Form.Asm count bytes)) (S.left from.old) (λ content. Holds content file.items) (lines_begun lines.old) (lines_begun lines.new) (S.left from.new)) }
    ensures fault { IfErr result (FailsToMake (λ bytes. source_made (lines_begun lines.old) count (part_of Form.Asm count bytes)) (S.left from.old)) }
    ensures pending { pending lines.new ≡ [] }
    ensures few { IfOk result (λ file. lines_begun lines.new ≤ lines_begun lines.old + count) }
    ensures same { CountsSame (S.faults from.new ≡ S.faults from.old) result }
    ensures counted { S.faults from.old ≤ S.faults from.new }
    ensures failed { IfErr result (λ fault. fault ≡ BundleFault.ReadFault → Rose (S.faults from.old) (S.faults from.new)) }
{
    let number = lines.line();
    let mut text = Vec::new(alloc);
    match read_part(alloc, Form::Asm, count, lines, into, from, &mut text) {
        Ok(PartEnd::Whole) => file_of(alloc, number, text.as_slice()),
        Ok(PartEnd::Broken { kind, line }) => {
            Err(front_fault(alloc, number, text.as_slice(), kind, line))
        }
        Err(fault) => Err(fault),
    }
}

// The file of a source behind the entry line of this number.
fn file_of(alloc: Global, number: u32, text: &[u8]) -> Result<Vec<u8>, BundleFault>
    requires { number ≤ 409604097 }
    ensures made { IfOk result (λ file. (program : Program) × (assembled text.now ≡ Ok program) × IsFile program file.items) }
    ensures refused { IfErr result (λ fault. IsRefusedBehind number fault (assembled text.now)) }
{
    match assemble(alloc, text) {
        Ok(file) => Ok(file),
        Err(AsmFault::At { line, .. }) => Err(refused_behind(number, line)),
        Err(AsmFault::NoMemory) => Err(BundleFault::NoMemory),
    }
}

// Why the front of a source is refused, behind which a line is missing or too long: a line of it that is refused by itself
// comes first.
fn front_fault(alloc: Global, number: u32, text: &[u8], kind: BundleKind, line: u32) -> BundleFault
    requires { number ≤ 409604097 }
    ensures refused { (before : ℕ) → line ≡ number + (before + 1) → Fails result (front_refused number kind before (scan_lines 1 start_scan (lines_of text.now))) }
    ensures unread { result ≢ BundleFault.ReadFault }
{
    match check_front(alloc, text) {
        Ok(()) => BundleFault::At { kind, line },
        Err(AsmFault::At { line, .. }) => refused_behind(number, line),
        Err(AsmFault::NoMemory) => BundleFault::NoMemory,
    }
}

// That the assembler refuses a line of a source behind the entry line of this number.
fn refused_behind(number: u32, line: u32) -> BundleFault
    requires number { number ≤ 409604097 }
    requires line { line ≤ 100001 }
    ensures { result ≡ BundleFault.At BundleKind.BadAsm (number + line) }
{
    BundleFault::At {
        kind: BundleKind::BadAsm,
        line: number + line,
    }
}

// The file of a source of the userland.
fn user_file(alloc: Global, number: u32, source: &[u8]) -> Result<Vec<u8>, BundleFault>
    ensures made { IfOk result (λ file. (program : Program) × (assembled source.now ≡ Ok program) × IsFile program file.items) }
    ensures refused { (rest : List ℕ) → IfErr result (λ fault. Fails fault (user_made number rest (assembled source.now))) }
    ensures unread { IfErr result (λ fault. fault ≢ BundleFault.ReadFault) }
{
    match assemble(alloc, source) {
        Ok(file) => Ok(file),
        Err(AsmFault::At { .. }) => Err(BundleFault::At {
            kind: BundleKind::BadAsm,
            line: number,
        }),
        Err(AsmFault::NoMemory) => Err(BundleFault::NoMemory),
    }
}
