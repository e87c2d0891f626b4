//! Reading a whole source.
ghost use Rattle.std.specs.Prelude.{◌≡◌, ◌≤◌, ◌<◌, ◌^◌, IfOk, IfErr, vec_len};
ghost use Rattle.kn_io.specs.Faults.{Rose};
ghost use Rattle.kn_io.specs.Reading.{CountsSame, TakesAll, ReadFails};

use crate::failures::Failed;
use crate::source::Source;
use std::alloc::Global;

/// Why a source wasn't read to its end.
#[derive(Clone, Copy, Debug, PartialEq, Eq)]
pub enum ReadError {
    /// A call of the source failed.
    ReadFault,
    /// The source gave more bytes than were asked for. One byte too many is taken from it.
    TooLong,
    /// Host memory ran out.
    NoMemory,
}

/// All bytes that are left of a source, where these are at most `most`.
///
/// # Errors
///
/// `ReadFault` only where the source's count of faults rose, and `TooLong` where it gave `most + 1`
/// bytes. At every answer but `ReadFault` the count is as before. After any error the source has lost what was read.
pub fn read_up_to<S: Source>(alloc: Global, from: &mut S, most: usize) -> Result<Vec<u8>, ReadError>
    requires { most < 2 ^ 32 }
    ensures whole { IfOk result (λ read. TakesAll (S.left from.old) read.items (S.left from.new)) }
    ensures bound { IfOk result (λ read. vec_len read ≤ most) }
    ensures error { IfErr result (λ error. ReadFails error most (S.left from.old) (S.left from.new)) }
    ensures same { CountsSame (S.faults from.new ≡ S.faults from.old) result }
    ensures counted { S.faults from.old ≤ S.faults from.new }
    ensures failed { IfErr result (λ error. error ≡ ReadError.ReadFault → Rose (S.faults from.old) (S.faults from.new)) }
{
    let mut read = Vec::new(alloc);
    'reading: loop {
        match from.next() {
            Ok(Some(byte)) => {
                if read.len() == most {
                    return Err(ReadError::TooLong);
                }
                match read.push(byte) {
                    Ok(()) => {}
                    Err(_) => return Err(ReadError::NoMemory),
                }
            }
            Ok(None) => return Ok(read),
            Err(Failed) => return Err(ReadError::ReadFault),
        }
    }
}
