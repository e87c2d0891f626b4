//! The schedule that a source gives.

ghost use Rattle.std.specs.Prelude.{◌≡◌, ◌+◌, ◌-◌, ◌^◌, ◌<◌, ◌≤◌, [], All, IfOk, IfErr, IfSome};
ghost use Rattle.kn_io.specs.Faults.{Rose};
ghost use Rattle.kn_text.specs.Lines.{pending, lines_begun};
ghost use Rattle.plan.specs.Plans.{IsInside};
ghost use Rattle.plan.specs.Streams.{TakesSpan, FailsSpan, IsAtLine, TakesPlan, FailsPlan, CountsSame, lines_told};

use crate::span::{Span, numbered_span};
use arrayvec::ArrayVec;
use kn_io::Source;
use kn_text::{LineFault, LineReader};
use std::alloc::Global;

/// Why a schedule wasn't read.
#[derive(Clone, Copy, Debug, PartialEq, Eq)]
pub enum PlanFault {
    /// A line is refused. The first line is 1.
    BadPlan { line: u32 },
    /// A call of the source failed.
    ReadFault,
    /// Host memory ran out.
    NoMemory,
}

/// Reads the next line of a schedule: `SLOT TURNS`, with one space between, a slot from 0 to 63 and 1 to 1,000,000,000
/// turns, both in plain decimal. The source loses the line and its line feed, and nothing more. The answer is None where no
/// byte is left.
///
/// # Errors
///
/// `BadPlan` exactly where the line is refused: it is none of these, or it has more than 1,024 bytes, or it is the 65,537th
/// or a later one. `ReadFault` only where the source's count of faults rose; at every other answer it is as before. After a
/// fault the reader is not to be used any more.
pub fn next_span<S: Source>(
    reader: &mut LineReader,
    from: &mut S,
) -> Result<Option<Span>, PlanFault>
    requires { lines_begun reader.old < 2 ^ 32 - 1 }
    ensures taken { IfOk result (λ span. TakesSpan (lines_begun reader.old + 1) (pending reader.old) (S.left from.old) span (S.left from.new)) }
    ensures at_line { IfErr result (λ fault. IsAtLine (lines_begun reader.old + 1) fault) }
    ensures fault { IfErr result (λ fault. FailsSpan (lines_begun reader.old + 1) (pending reader.old) (S.left from.old) fault) }
    ensures pending { pending reader.new ≡ [] }
    ensures line { IfOk result (λ span. lines_begun reader.new ≡ lines_begun reader.old + lines_told span) }
    ensures few { IfOk result (λ span. IfSome span (λ told. lines_begun reader.new ≤ 65536)) }
    ensures inside { IfOk result (λ span. IfSome span IsInside) }
    ensures same { CountsSame (S.faults from.new ≡ S.faults from.old) result }
    ensures counted { S.faults from.old ≤ S.faults from.new }
    ensures failed { IfErr result (λ fault. fault ≡ PlanFault.ReadFault → Rose (S.faults from.old) (S.faults from.new)) }
{
    let mut line = ArrayVec::new();
    match reader.next_line(from, &mut line) {
        Ok(true) => match numbered_span(reader.line(), &line) {
            Some(span) => Ok(Some(span)),
            None => Err(refused(reader)),
        },
        Ok(false) => Ok(None),
        Err(LineFault::TooLong) => Err(refused(reader)),
        Err(LineFault::ReadFault) => Err(PlanFault::ReadFault),
    }
}

// That the line is refused that was begun last.
fn refused(reader: &LineReader) -> PlanFault
    ensures { result ≡ PlanFault.BadPlan (lines_begun reader.now) }
{
    PlanFault::BadPlan {
        line: reader.line(),
    }
}

/// Reads the schedule that a source gives, to its end: the spans of all its lines, each of a slot below 64 with at least one
/// turn.
///
/// # Errors
///
/// `BadPlan` exactly at the first line that is refused, as [`next_span`] says. `ReadFault` only where the source's count of
/// faults rose; at every other answer it is as before. `NoMemory` only once a line has said a span. After a fault the source
/// has lost what was read.
pub fn read_plan<S: Source>(alloc: Global, from: &mut S) -> Result<Vec<Span>, PlanFault>
    ensures taken { IfOk result (λ spans. TakesPlan (S.left from.old) spans.items (S.left from.new)) }
    ensures inside { IfOk result (λ spans. All IsInside spans.items) }
    ensures fault { IfErr result (λ fault. FailsPlan (S.left from.old) fault) }
    ensures same { CountsSame (S.faults from.new ≡ S.faults from.old) result }
    ensures counted { S.faults from.old ≤ S.faults from.new }
    ensures failed { IfErr result (λ fault. fault ≡ PlanFault.ReadFault → Rose (S.faults from.old) (S.faults from.new)) }
{
    let mut reader = LineReader::new();
    let mut spans = Vec::new(alloc);
    'reading: loop {
        match next_span(&mut reader, from) {
            Ok(Some(span)) => match spans.push(span) {
                Ok(()) => {}
                Err(_) => return Err(PlanFault::NoMemory),
            },
            Ok(None) => return Ok(spans),
            Err(fault) => return Err(fault),
        }
    }
}
