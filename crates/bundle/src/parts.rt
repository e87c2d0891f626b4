//! The lines behind an entry line.

ghost use Rattle.std.specs.Prelude.{◌≡◌, ◌⊎◌, ◌+◌, ◌-◌, ◌^◌, ◌<◌, ◌≤◌, [], IfOk, IfErr};
ghost use Rattle.kn_io.specs.Faults.{Rose};
ghost use Rattle.bundle.specs.Lines.{pending, lines_begun};
ghost use Rattle.bundle.specs.Streams.{CountsSame, TakesPart};
ghost use Rattle.bundle.specs.Views.{Adds};

use crate::fault::{BundleFault, BundleKind};
use crate::line::Line;
use crate::lines::{Lines, read_line};
use crate::said::Form;
use hex::FromHexError;
use kn_io::Source;
use std::alloc::{AllocError, Global};

/// How the lines behind an entry line ended.
#[derive(Clone, Copy)]
pub enum PartEnd {
    /// All are there.
    Whole,
    /// This line is wrong.
    Broken { kind: BundleKind, line: u32 },
}

/// Reads so many lines, each into `into`, and adds what they give to `bytes`. The source loses these lines and no byte more; where one is wrong,
/// none after it is read.
pub fn read_part<S: Source>(
    alloc: Global,
    form: Form,
    count: u32,
    lines: &mut Lines,
    into: &mut Line,
    from: &mut S,
    bytes: &mut Vec<u8>,
) -> Result<PartEnd, BundleFault>
    requires begins { pending lines.old ≡ [] }
    requires empty { bytes.old.items ≡ [] }
    requires fits { lines_begun lines.old + count < 2 ^ 32 - 1 }
    ensures taken { IfOk result (λ end. TakesPart form count (S.left from.old) end (lines_begun lines.old) (lines_begun lines.new) bytes.new.items (S.left from.new)) }
    ensures fault { IfErr result (λ fault. (fault ≡ BundleFault.ReadFault) ⊎ (fault ≡ BundleFault.NoMemory)) }
    ensures pending { pending lines.new ≡ [] }
    ensures few { IfOk result (λ end. lines_begun lines.new ≤ lines_begun lines.old + count) }
    ensures same { CountsSame (S.faults from.new ≡ S.faults from.old) result }
    ensures counted { S.faults from.old ≤ S.faults from.new }
    ensures failed { IfErr result (λ fault. fault ≡ BundleFault.ReadFault → Rose (S.faults from.old) (S.faults from.new)) }
{
    let mut done = 0u32;
    'reading: while done < count {
        match read_line(lines, from, into) {
            Ok(()) => {}
            Err(BundleFault::At { kind, line }) => return Ok(PartEnd::Broken { kind, line }),
            Err(fault) => return Err(fault),
        }
        match add_line(alloc, form, into.as_slice(), bytes) {
            Ok(true) => {}
            Ok(false) => {
                return Ok(PartEnd::Broken {
                    kind: BundleKind::BadHex,
                    line: lines.line(),
                });
            }
            Err(_) => return Err(BundleFault::NoMemory),
        }
        done += 1;
    }
    Ok(PartEnd::Whole)
}

// Adds what a line gives. Where it gives nothing, the answer is `false`.
fn add_line(alloc: Global, form: Form, line: &[u8], bytes: &mut Vec<u8>) -> Result<bool, AllocError>
    ensures { IfOk result (λ told. Adds form line.now bytes.old.items told bytes.new.items) }
{
    match form {
        Form::Text => add_text(line, bytes),
        Form::Asm => add_text(line, bytes),
        Form::Hex => add_digits(alloc, line, bytes),
    }
}

// Adds a line with its line feed.
fn add_text(line: &[u8], bytes: &mut Vec<u8>) -> Result<bool, AllocError>
    ensures { IfOk result (λ told. Adds Form.Text line.now bytes.old.items told bytes.new.items) }
{
    bytes.reserve(line.len() + 1)?;
    bytes.extend_from_slice(line)?;
    bytes.push(b'\n')?;
    Ok(true)
}

// Adds the bytes that hexadecimal digits spell.
fn add_digits(alloc: Global, line: &[u8], bytes: &mut Vec<u8>) -> Result<bool, AllocError>
    ensures { IfOk result (λ told. Adds Form.Hex line.now bytes.old.items told bytes.new.items) }
{
    match hex::decode(alloc, line) {
        Ok(more) => {
            bytes.extend_from_slice(more.as_slice())?;
            Ok(true)
        }
        Err(FromHexError::OutOfMemory) => Err(AllocError),
        Err(_) => Ok(false),
    }
}
