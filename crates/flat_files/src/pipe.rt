//! Pipes.

ghost use Rattle.std.specs.Prelude.{◌≤◌, length};

use crate::contents::{front, rest};
use std::alloc::{AllocError, Global};

/// The bytes that a pipe holds, at most 4,096.
#[derive(Drop)]
pub struct Pipe {
    pub bytes: Vec<u8>,
    ghost few: { length bytes.items ≤ 4096 },
}

impl Pipe {
    ghost use Rattle.std.specs.Prelude.{◌≡◌, ◌+◌, ◌≤◌, ◌++◌, IfOk, drop, length, take};

    /// The pipe's first bytes, at most so many.
    pub fn front(&self, alloc: Global, count: u32) -> Result<Vec<u8>, AllocError>
        ensures front { IfOk result (λ front. front.items ≡ take count self.now.bytes.items) }
        ensures few { IfOk result (λ front. length front.items ≤ count) }
    {
        Vec::from_slice(alloc, front(&self.bytes, count))
    }

    /// The pipe without them.
    pub fn without_front(&self, alloc: Global, count: u32) -> Result<Pipe, AllocError>
        ensures { IfOk result (λ pipe. pipe.bytes.items ≡ drop count self.now.bytes.items) }
    {
        Ok(Pipe {
            bytes: Vec::from_slice(alloc, rest(&self.bytes, count))?,
        })
    }

    /// The pipe with bytes more.
    pub fn with_bytes(self, written: &[u8]) -> Result<Pipe, AllocError>
        requires { length self.bytes.items + length written.now ≤ 4096 }
        ensures { IfOk result (λ pipe. pipe.bytes.items ≡ self.bytes.items ++ written.now) }
    {
        let mut bytes = self.bytes;
        bytes.extend_from_slice(written)?;
        Ok(Pipe { bytes })
    }
}
