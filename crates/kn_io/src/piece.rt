//! Bytes that were read and not given yet.
ghost use Rattle.std.specs.Prelude.{◌≤◌};

use std::io;
use std::io::Read;

/// How many bytes are read at once.
const PIECE: usize = 4_096;

// Of the bytes those from `at` to `end` were not given yet.
#[derive(Drop)]
pub(crate) struct Piece {
    bytes: [u8; PIECE],
    at: usize,
    end: usize,
    ghost given: { at ≤ end },
    ghost within: { end ≤ 4096 },
}

impl Piece {
    /// A piece of no bytes.
    pub(crate) fn new() -> Piece {
        Piece {
            bytes: [0; PIECE],
            at: 0,
            end: 0,
        }
    }

    /// The next byte, where one is left.
    pub(crate) fn next(&mut self) -> Option<u8> {
        if self.at == self.end {
            return None;
        }
        let byte = self.bytes[self.at];
        self.at += 1;
        Some(byte)
    }

    /// Reads bytes in place of those that were there; none where the reader is at its end.
    pub(crate) fn fill<R: Read>(&mut self, from: &mut R) -> io::Result<()> {
        let length = from.read(&mut self.bytes)?;
        self.at = 0;
        self.end = length;
        Ok(())
    }
}
