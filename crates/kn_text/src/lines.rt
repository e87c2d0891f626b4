//! The lines of a source.

ghost use Rattle.std.specs.Prelude.{◌≡◌, ◌+◌, ◌-◌, ◌^◌, ◌<◌, ◌≤◌, [], ◌∷◌, true, IfOk, OnOk, IfErr, OnErr};
ghost use Rattle.kn_io.specs.Faults.{Rose};
ghost use Rattle.kn_io.specs.Source.{Gives};
ghost use Rattle.unix_model.specs.Texts.{IsLine};
ghost use Rattle.kn_text.specs.Lines.{pending, lines_begun, ahead, begun_by, CountsSame, TakesLine, FailsLine};

use arrayvec::ArrayVec;
use kn_io::{Failed, Source};

/// Why a line wasn't read.
#[derive(Clone, Copy, Debug, PartialEq, Eq)]
pub enum LineFault {
    /// A call of the source failed.
    ReadFault,
    /// The line has more than 1,024 bytes.
    TooLong,
}

/// Reads the lines of a source, one at a time, and counts them.
#[derive(Drop)]
pub struct LineReader {
    first: Option<u8>,
    line: u32,
}

impl LineReader {
    /// A reader that begins with the next byte of its source.
    pub fn new() -> LineReader
        ensures pending { pending result ≡ [] }
        ensures line { lines_begun result ≡ 0 }
    {
        LineReader {
            first: None,
            line: 0,
        }
    }

    /// A reader that begins with `first`, which was taken from its source already.
    pub fn with_first(first: u8) -> LineReader
        ensures pending { pending result ≡ first ∷ [] }
        ensures line { lines_begun result ≡ 0 }
    {
        LineReader {
            first: Some(first),
            line: 0,
        }
    }

    /// The number of the line that was begun last, from 1. It is 0 before the first.
    pub fn line(&self) -> u32
        ensures { result ≡ lines_begun self.now }
    {
        self.line
    }

    /// Reads the next line into `into`, in place of what it held, without its line feed. The source loses the line and its
    /// line feed, and nothing more. Where no byte is left, the answer is `false` and `into` is empty.
    ///
    /// # Errors
    ///
    /// `TooLong` exactly where 1,025 bytes come before a line feed, which are then taken; `into` has the first 1,024.
    /// `ReadFault` only where the source's count of faults rose; `into` has the bytes of the line that came before. At every
    /// other answer the count is as before. After a fault the reader is not to be used any more: it would take what follows for a line.
    pub fn next_line<S: Source>(
        &mut self,
        from: &mut S,
        into: &mut ArrayVec<u8, 1024>,
    ) -> Result<bool, LineFault>
        requires { lines_begun self.old < 2 ^ 32 - 1 }
        ensures taken { IfOk result (λ more. TakesLine (pending self.old) (S.left from.old) more into.new.items (S.left from.new)) }
        ensures fault { IfErr result (λ fault. FailsLine fault (pending self.old) (S.left from.old) into.new.items (S.left from.new)) }
        ensures unbroken { IsLine into.new.items }
        ensures pending { pending self.new ≡ [] }
        ensures line { lines_begun self.new ≡ lines_begun self.old + begun_by result into.new.items }
        ensures same { CountsSame (S.faults from.new ≡ S.faults from.old) result }
        ensures counted { S.faults from.old ≤ S.faults from.new }
        ensures failed { IfErr result (λ fault. fault ≡ LineFault.ReadFault → Rose (S.faults from.old) (S.faults from.new)) }
    {
        into.clear();
        match self.next_byte(from) {
            Ok(Some(first)) => {
                self.line += 1;
                match read_from(first, from, into) {
                    Ok(()) => Ok(true),
                    Err(fault) => Err(fault),
                }
            }
            Ok(None) => Ok(false),
            Err(Failed) => Err(LineFault::ReadFault),
        }
    }

    // The byte that is read before those of the source, or the next of these.
    fn next_byte<S: Source>(&mut self, from: &mut S) -> Result<Option<u8>, Failed>
        ensures gives { Gives (ahead (pending self.old) (S.left from.old)) result (S.left from.new) }
        ensures pending { pending self.new ≡ [] }
        ensures line { lines_begun self.new ≡ lines_begun self.old }
        ensures same { OnOk result (S.faults from.new ≡ S.faults from.old) }
        ensures counted { S.faults from.old ≤ S.faults from.new }
        ensures failed { OnErr result (Rose (S.faults from.old) (S.faults from.new)) }
    {
        match self.first.take() {
            Some(first) => Ok(Some(first)),
            None => from.next(),
        }
    }
}

// Reads the rest of a line that begins with this byte.
fn read_from<S: Source>(
    first: u8,
    from: &mut S,
    into: &mut ArrayVec<u8, 1024>,
) -> Result<(), LineFault>
    requires { into.old.items ≡ [] }
    ensures taken { OnOk result (TakesLine (first ∷ []) (S.left from.old) true into.new.items (S.left from.new)) }
    ensures fault { IfErr result (λ fault. FailsLine fault (first ∷ []) (S.left from.old) into.new.items (S.left from.new)) }
    ensures begun { IfErr result (λ fault. begun_by (Err fault) into.new.items ≡ 1) }
    ensures unbroken { IsLine into.new.items }
    ensures same { CountsSame (S.faults from.new ≡ S.faults from.old) result }
    ensures counted { S.faults from.old ≤ S.faults from.new }
    ensures failed { IfErr result (λ fault. fault ≡ LineFault.ReadFault → Rose (S.faults from.old) (S.faults from.new)) }
{
    let mut byte = first;
    'reading: while byte != b'\n' {
        match into.try_push(byte) {
            Ok(()) => {}
            Err(_) => return Err(LineFault::TooLong),
        }
        match from.next() {
            Ok(Some(next)) => byte = next,
            Ok(None) => return Ok(()),
            Err(Failed) => return Err(LineFault::ReadFault),
        }
    }
    Ok(())
}
