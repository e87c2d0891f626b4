//! Bytes in memory that are given without fail.
ghost use Rattle.std.specs.Prelude.{◌≤◌, length};

use crate::failures::Failed;
use crate::source::Source;

/// Gives the bytes of a list. It never fails, and its count of faults is 0.
#[derive(Drop)]
pub struct ByteSource {
    bytes: Vec<u8>,
    at: usize,
    ghost within: { at ≤ length bytes.items },
}

impl ByteSource {
    ghost use Rattle.std.specs.Prelude.{◌≡◌};
    ghost use Rattle.kn_io.specs.InMemory.{bytes_left};

    /// A source that gives these bytes.
    pub fn new(bytes: Vec<u8>) -> ByteSource
        ensures { bytes_left result ≡ bytes.items }
    {
        ByteSource { bytes, at: 0 }
    }

    /// The bytes still to come.
    pub fn rest(&self) -> &[u8]
        ensures { result.now ≡ bytes_left self.now }
    {
        &self.bytes[self.at..]
    }
}

impl Source for ByteSource {
    ghost use Rattle.std.specs.Prelude.{Some, IsOk};
    ghost use Rattle.kn_io.specs.Source.{Gives};
    ghost use Rattle.kn_io.specs.InMemory.{bytes_left};

    ghost left = { λ s. Some (bytes_left s) };

    ghost faults = { λ _. 0 };

    /// The next byte. It is never `Failed`.
    fn next(&mut self) -> Result<Option<u8>, Failed>
        ensures gives { Gives (Some (bytes_left self.old)) result (Some (bytes_left self.new)) }
        ensures ok { IsOk result }
    {
        if self.at == self.bytes.len() {
            return Ok(None);
        }
        let byte = self.bytes[self.at];
        self.at += 1;
        Ok(Some(byte))
    }
}
