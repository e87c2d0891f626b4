//! The command `asm`: an assembly source becomes an ELF file.

ghost use Rattle.std.specs.Prelude.{◌≡◌, ◌≢◌, ◌≤◌, ◌<◌, ◌^◌, ℕ, List, length, Some, IfErr, IfOk};
ghost use Rattle.kn_io.specs.Faults.{Rose};
ghost use Rattle.kn_io.specs.Source.{IsAtEnd, Takes};
ghost use Rattle.rv_asm.specs.Programs.{assembled};
ghost use Rattle.keynix.specs.Counts.{CountsStay, ReadStays};
ghost use Rattle.keynix.specs.Endings.{EndsAssembly, IsCaused, IsUnread, KeepsOutput};

use crate::ending::Ending;
use kn_io::{Sink, Source};
use rv_asm::{AsmFault, assemble};
use std::alloc::Global;

/// One byte more than 100,000 lines of 1,025 bytes, the longest that a line with its line feed may be. A source that has so
/// many bytes is refused, whatever follows them.
const ENOUGH_BYTES: usize = 102_500_001;

/// Assembles the input, and writes the ELF file in one put once the source is accepted. Nothing is put before that. Of an
/// input without an end only so much is read as is refused whatever follows.
pub fn asm<S: Source, K: Sink>(alloc: Global, input: &mut S, output: &mut K) -> Ending
    ensures ends { (bytes : List ℕ) → S.left input.old ≡ Some bytes → EndsAssembly (assembled bytes) S.left K.grew input.new output.old output.new result }
    ensures keeps { KeepsOutput output.old output.new result }
    ensures counts { CountsStay (S.faults input.new ≡ S.faults input.old) (K.faults output.new ≡ K.faults output.old) result }
    ensures caused { IsCaused (Rose (S.faults input.old) (S.faults input.new)) (Rose (K.faults output.old) (K.faults output.new)) result }
    ensures input_counted { S.faults input.old ≤ S.faults input.new }
    ensures output_counted { K.faults output.old ≤ K.faults output.new }
{
    let source = match read_front(alloc, input, ENOUGH_BYTES) {
        Ok(source) => source,
        Err(ending) => return ending,
    };
    let file = match assemble(alloc, source.as_slice()) {
        Ok(file) => file,
        Err(AsmFault::At { kind, line }) => return Ending::NotAssembled { kind, line },
        Err(AsmFault::NoMemory) => return Ending::NoMemory,
    };
    match output.put(file.as_slice()) {
        Ok(()) => Ending::Done,
        Err(_) => Ending::WriteFault,
    }
}

/// The bytes of a source up to its end, or the first `most` of them.
fn read_front<S: Source>(alloc: Global, input: &mut S, most: usize) -> Result<Vec<u8>, Ending>
    requires { most < 2 ^ 32 }
    ensures takes { IfOk result (λ front. Takes (S.left input.old) front.items (S.left input.new)) }
    ensures bound { IfOk result (λ front. length front.items ≤ most) }
    ensures whole { IfOk result (λ front. length front.items ≢ most → IsAtEnd (S.left input.new)) }
    ensures same { ReadStays (S.faults input.new ≡ S.faults input.old) result }
    ensures failed { IfErr result (IsUnread (Rose (S.faults input.old) (S.faults input.new))) }
    ensures counted { S.faults input.old ≤ S.faults input.new }
{
    let mut front = Vec::new(alloc);
    'reading: while front.len() < most {
        match input.next() {
            Ok(Some(byte)) => match front.push(byte) {
                Ok(()) => {}
                Err(_) => return Err(Ending::NoMemory),
            },
            Ok(None) => return Ok(front),
            Err(_) => return Err(Ending::ReadFault),
        }
    }
    Ok(front)
}
