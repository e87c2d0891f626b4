//! The line that was read last.

ghost use Rattle.std.specs.Prelude.{◌≡◌, ◌≤◌, [], ◌∷◌, true, length, take, IfOk, OnOk, IfErr};
ghost use Rattle.kn_io.specs.Faults.{Rose};
ghost use Rattle.kn_text.specs.Lines.{CountsSame, TakesLine};
ghost use Rattle.bundle.specs.LongLines.{FailsLong};

use kn_io::{Failed, Source};
use kn_text::LineFault;
use std::marker::Model;

/// The most bytes of a line.
const MOST_LINE_BYTES: usize = 1024;

/// A line of at most 1,024 bytes. What an earlier line left behind its end is not blanked, and the end is put down once for a
/// line and not for each byte, so that it is read in less time than `LineReader` takes.
#[derive(Drop)]
pub struct Line {
    bytes: [u8; 1024],
    end: usize,
}

impl Model for Line {
    ghost use Rattle.std.specs.Prelude.{◌≡◌, ◌≤◌, ℕ, List, length, take};

    ghost Value = { List ℕ };

    ghost view = { λ line. take line.end line.bytes };

    ghost invariant = { λ line. (line.end ≤ 1024) × (length line.bytes ≡ 1024) };
}

impl Line {
    /// The empty line.
    pub fn new() -> Line
        ensures { result ≡ [] }
    {
        Line {
            bytes: [0; 1024],
            end: 0,
        }
    }

    /// Its bytes.
    pub fn as_slice(&self) -> &[u8]
        ensures { result.now ≡ self.now }
    {
        &self.bytes[..self.end]
    }

    /// Reads the rest of a line that begins with this byte. After a fault it has any bytes.
    pub fn read_behind<S: Source>(&mut self, first: u8, from: &mut S) -> Result<(), LineFault>
        ensures taken { OnOk result (TakesLine (first ∷ []) (S.left from.old) true self.new (S.left from.new)) }
        ensures fault { IfErr result (λ fault. FailsLong fault (first ∷ []) (S.left from.old)) }
        ensures same { CountsSame (S.faults from.new ≡ S.faults from.old) result }
        ensures counted { S.faults from.old ≤ S.faults from.new }
        ensures failed { IfErr result (λ fault. fault ≡ LineFault.ReadFault → Rose (S.faults from.old) (S.faults from.new)) }
    {
        match read_bytes(first, from, &mut self.bytes) {
            Ok(end) => {
                self.end = end;
                Ok(())
            }
            Err(fault) => Err(fault),
        }
    }
}

// Reads the rest of a line that begins with this byte, and answers where it ends.
fn read_bytes<S: Source>(
    first: u8,
    from: &mut S,
    bytes: &mut [u8; 1024],
) -> Result<usize, LineFault>
    requires { length bytes.old ≡ 1024 }
    ensures taken { IfOk result (λ end. TakesLine (first ∷ []) (S.left from.old) true (take end bytes.new) (S.left from.new)) }
    ensures inside { IfOk result (λ end. end ≤ 1024) }
    ensures fault { IfErr result (λ fault. FailsLong fault (first ∷ []) (S.left from.old)) }
    ensures whole { length bytes.new ≡ 1024 }
    ensures same { CountsSame (S.faults from.new ≡ S.faults from.old) result }
    ensures counted { S.faults from.old ≤ S.faults from.new }
    ensures failed { IfErr result (λ fault. fault ≡ LineFault.ReadFault → Rose (S.faults from.old) (S.faults from.new)) }
{
    let mut byte = first;
    let mut end = 0;
    'reading: while byte != b'\n' {
        if MOST_LINE_BYTES <= end {
            return Err(LineFault::TooLong);
        }
        bytes[end] = byte;
        end += 1;
        match from.next() {
            Ok(Some(next)) => byte = next,
            Ok(None) => return Ok(end),
            Err(Failed) => return Err(LineFault::ReadFault),
        }
    }
    Ok(end)
}
