//! Sources and sinks over the readers and writers of the standard library.
ghost use Rattle.std.specs.Prelude.{◌≡◌, ◌∷◌, [], ◌≤◌, None, MatchOption, IfOk, OnOk, OnErr};
ghost use Rattle.std.specs.Io.KnownBytes.{Appends, Consumes, IsAtEnd};
ghost use Rattle.kn_io.specs.Faults.{Rose};
ghost use Rattle.kn_io.specs.Adapters.{reader_left, read_faults, written_to, write_faults, grew_untold, grew_untold-nothing, grew_untold-joined, grew_untold-told};
ghost use Rattle.kn_io.specs.Sink.{GrewByPrefix};
ghost use Rattle.kn_io.specs.Source.{Gives};

use crate::failures::Failed;
use crate::sink::Sink;
use crate::source::Source;
use std::io::{Bytes, Read, Write};

/// A source over a reader. It reads one byte a call, so the reader should have a buffer.
#[derive(Drop)]
pub struct ReadSource<R> {
    bytes: Bytes<R>,
    faults: u64,
}

impl<R: Read> ReadSource<R> {
    /// A source over this reader, with no faults so far.
    pub fn new(reader: R) -> ReadSource<R>
        ensures left { reader_left R.remaining result ≡ R.remaining reader }
        ensures faults { read_faults result ≡ 0 }
    {
        ReadSource {
            bytes: reader.bytes(),
            faults: 0,
        }
    }
}

impl<R: Read + Drop> Source for ReadSource<R> {
    ghost left = { λ _. None };

    ghost faults = { λ s. read_faults s };

    /// The next byte, or `None` where the reader gave 0 bytes. A read that was interrupted is tried
    /// again.
    ///
    /// # Errors
    ///
    /// `Failed` where the reader failed. The count of faults rose, up to 2^64 - 1.
    fn next(&mut self) -> Result<Option<u8>, Failed>
        ensures gives { Gives None result None }
        ensures bytes { IfOk result (λ given. MatchOption given (IsAtEnd (reader_left R.remaining self.old))
            (λ byte. Consumes (reader_left R.remaining self.old) (reader_left R.remaining self.new) (byte ∷ []))) }
        ensures same { OnOk result (read_faults self.new ≡ read_faults self.old) }
        ensures counted { read_faults self.old ≤ read_faults self.new }
        ensures failed { OnErr result (Rose (read_faults self.old) (read_faults self.new)) }
    {
        match self.bytes.next() {
            Some(Ok(byte)) => Ok(Some(byte)),
            None => Ok(None),
            Some(Err(_)) => Err(count_fault(&mut self.faults)),
        }
    }
}

/// A sink over a writer, which should have no buffer of its own: nothing flushes it.
#[derive(Drop)]
pub struct WriteSink<W> {
    writer: W,
    faults: u64,
}

impl<W> WriteSink<W> {
    /// A sink over this writer, with no faults so far.
    pub fn new(writer: W) -> WriteSink<W>
        ensures writer { written_to result ≡ writer }
        ensures faults { write_faults result ≡ 0 }
    {
        WriteSink { writer, faults: 0 }
    }
}

impl<W: Write> Sink for WriteSink<W> {
    ghost told = { λ _. None };

    ghost grew = { grew_untold };

    ghost faults = { λ s. write_faults s };

    /// Writes all of the bytes. A write that was interrupted is tried again, and one that takes
    /// 0 bytes has failed.
    ///
    /// # Errors
    ///
    /// `Failed` where the writer failed. The count of faults rose, up to 2^64 - 1.
    #[tactic(auto, using(crate::proofs::SinkParts::parts))]
    fn put(&mut self, bytes: &[u8]) -> Result<(), Failed>
        ensures grew { OnOk result (grew_untold self.old bytes.now self.new) }
        ensures part { OnErr result (GrewByPrefix grew_untold self.old bytes.now self.new) }
        ensures bytes { OnOk result (Appends (W.contents (written_to self.old)) (W.contents (written_to self.new)) bytes.now) }
        ensures same { OnOk result (write_faults self.new ≡ write_faults self.old) }
        ensures counted { write_faults self.old ≤ write_faults self.new }
        ensures failed { OnErr result (Rose (write_faults self.old) (write_faults self.new)) }
    {
        match self.writer.write_all(bytes) {
            Ok(()) => Ok(()),
            Err(_) => Err(count_fault(&mut self.faults)),
        }
    }

    ghost grew_nothing = { grew_untold-nothing };

    ghost grew_joined = { grew_untold-joined };

    ghost told_grew = { grew_untold-told };
}

// Counts a fault, up to the last value of a count.
pub(crate) fn count_fault(faults: &mut u64) -> Failed
    ensures kept { faults.old ≤ faults.new }
    ensures rose { Rose faults.old faults.new }
{
    *faults = faults.saturating_add(1);
    Failed
}
