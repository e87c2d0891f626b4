//! The contents of files.

ghost use Rattle.std.specs.Prelude.{◌≡◌, ◌+◌, ◌++◌, ◌≤◌, IfOk, drop, length, take};
ghost use Rattle.unix_model.specs.FileCalls.{overwritten, resized};

use std::alloc::{AllocError, Global};

/// The bytes of a file, at most 4,194,304.
#[derive(Drop)]
pub struct Contents {
    pub bytes: Vec<u8>,
    ghost few: { length bytes.items ≤ 4194304 },
}

impl Contents {
    /// At most so many bytes from a place on.
    pub fn piece(&self, alloc: Global, place: u32, count: u32) -> Result<Vec<u8>, AllocError>
        ensures piece { IfOk result (λ piece. piece.items ≡ take count (drop place self.now.bytes.items)) }
        ensures few { IfOk result (λ piece. length piece.items ≤ count) }
    {
        Vec::from_slice(alloc, front(rest(&self.bytes, place), count))
    }

    /// The contents with bytes written from a place on; a gap before it is zero.
    #[tactic(auto, using(crate::proofs::WriteLaws::writes), unfolding(unix_model::specs::FileCalls::overwritten))]
    pub fn overwritten(self, place: u32, part: &[u8]) -> Result<Contents, AllocError>
        requires { place + length part.now ≤ 4194304 }
        ensures { IfOk result (λ contents. contents.bytes.items ≡ overwritten self.bytes.items place part.now) }
    {
        let mut bytes = self.bytes;
        if place as usize + part.len() < bytes.len() {
            replace(&mut bytes, place as usize, part);
        } else {
            bytes.resize(place as usize, 0)?;
            bytes.extend_from_slice(part)?;
        }
        Ok(Contents { bytes })
    }

    /// The contents cut to a length, or with zeros up to it.
    #[tactic(auto, using(crate::proofs::WriteLaws::writes), unfolding(unix_model::specs::FileCalls::resized))]
    pub fn resized(self, size: u32) -> Result<Contents, AllocError>
        requires { size ≤ 4194304 }
        ensures { IfOk result (λ contents. contents.bytes.items ≡ resized self.bytes.items size) }
    {
        let mut bytes = self.bytes;
        bytes.resize(size as usize, 0)?;
        Ok(Contents { bytes })
    }
}

/// Bytes are written over others.
fn replace(bytes: &mut [u8], place: usize, part: &[u8])
    requires { place + length part.now ≤ length bytes.old }
    ensures { bytes.new ≡ take place bytes.old ++ part.now ++ drop (place + length part.now) bytes.old }
{
    bytes[place..place + part.len()].copy_from_slice(part);
}

/// The bytes from a place on.
pub fn rest(bytes: &[u8], place: u32) -> &[u8]
    ensures { result.now ≡ drop place bytes.now }
{
    if (place as usize) < bytes.len() {
        &bytes[place as usize..]
    } else {
        &[]
    }
}

/// The first bytes, at most so many.
pub fn front(bytes: &[u8], count: u32) -> &[u8]
    ensures { result.now ≡ take count bytes.now }
{
    if (count as usize) < bytes.len() {
        &bytes[..count as usize]
    } else {
        bytes
    }
}
