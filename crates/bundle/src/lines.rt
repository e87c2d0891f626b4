//! The lines of a bundle.

ghost use Rattle.std.specs.Prelude.{◌≡◌, ◌+◌, ◌-◌, ◌^◌, ◌<◌, ◌≤◌, [], OnOk, OnErr, IfErr};
ghost use Rattle.std.specs.Option.{option_to_list};
ghost use Rattle.kn_io.specs.Faults.{Rose};
ghost use Rattle.kn_io.specs.Source.{Gives};
ghost use Rattle.kn_text.specs.Lines.{ahead};
ghost use Rattle.bundle.specs.Lines.{pending, lines_begun};
ghost use Rattle.bundle.specs.Streams.{CountsSame, TakesLine, FailsLine};

use crate::fault::{BundleFault, BundleKind};
use crate::line::Line;
use kn_io::{Failed, Source};
use kn_text::LineFault;

/// Counts the lines of a source, each of which is read into a [`Line`].
#[derive(Drop)]
pub struct Lines {
    first: Option<u8>,
    line: u32,
}

impl Lines {
    /// Before the first line, whose first byte is `first` where that was taken from the source already.
    pub fn new(first: Option<u8>) -> Lines
        ensures pending { pending result ≡ option_to_list first }
        ensures line { lines_begun result ≡ 0 }
    {
        Lines { first, line: 0 }
    }

    /// The number of the line that was begun last, from 1. It is 0 before the first.
    pub fn line(&self) -> u32
        ensures { result ≡ lines_begun self.now }
    {
        self.line
    }

    // The byte that is read before those of the source, or the next of these.
    fn next_byte<S: Source>(&mut self, from: &mut S) -> Result<Option<u8>, Failed>
        ensures gives { Gives (ahead (pending self.old) (S.left from.old)) result (S.left from.new) }
        ensures pending { pending self.new ≡ [] }
        ensures line { lines_begun self.new ≡ lines_begun self.old }
        ensures same { OnOk result (S.faults from.new ≡ S.faults from.old) }
        ensures counted { S.faults from.old ≤ S.faults from.new }
        ensures failed { OnErr result (Rose (S.faults from.old) (S.faults from.new)) }
    {
        match self.first.take() {
            Some(first) => Ok(Some(first)),
            None => from.next(),
        }
    }
}

/// Reads the next line, which has to be there. The source loses the line and its line feed, and nothing more.
pub fn read_line<S: Source>(
    lines: &mut Lines,
    from: &mut S,
    into: &mut Line,
) -> Result<(), BundleFault>
    requires { lines_begun lines.old < 2 ^ 32 - 1 }
    ensures taken { OnOk result (TakesLine (pending lines.old) (S.left from.old) into.new (S.left from.new)) }
    ensures fault { IfErr result (FailsLine (lines_begun lines.old + 1) (pending lines.old) (S.left from.old)) }
    ensures pending { pending lines.new ≡ [] }
    ensures line { OnOk result (lines_begun lines.new ≡ lines_begun lines.old + 1) }
    ensures few { lines_begun lines.new ≤ lines_begun lines.old + 1 }
    ensures same { CountsSame (S.faults from.new ≡ S.faults from.old) result }
    ensures counted { S.faults from.old ≤ S.faults from.new }
    ensures failed { IfErr result (λ fault. fault ≡ BundleFault.ReadFault → Rose (S.faults from.old) (S.faults from.new)) }
{
    match lines.next_byte(from) {
        Ok(Some(first)) => {
            lines.line += 1;
            match into.read_behind(first, from) {
                Ok(()) => Ok(()),
                Err(LineFault::TooLong) => Err(too_long(lines)),
                Err(LineFault::ReadFault) => Err(BundleFault::ReadFault),
            }
        }
        Ok(None) => Err(missing(lines)),
        Err(Failed) => Err(BundleFault::ReadFault),
    }
}

// That a line is missing behind those that were read.
fn missing(lines: &Lines) -> BundleFault
    requires { lines_begun lines.now < 2 ^ 32 - 1 }
    ensures { result ≡ BundleFault.At BundleKind.Syntax (lines_begun lines.now + 1) }
{
    BundleFault::At {
        kind: BundleKind::Syntax,
        line: lines.line() + 1,
    }
}

// That the line is too long that was begun last.
fn too_long(lines: &Lines) -> BundleFault
    ensures { result ≡ BundleFault.At BundleKind.TooLong (lines_begun lines.now) }
{
    BundleFault::At {
        kind: BundleKind::TooLong,
        line: lines.line(),
    }
}
