//! Why a call doesn't go on.

use unix_model::Errno;

/// Why a call isn't sent or answered.
#[derive(Clone, Copy, Debug, PartialEq, Eq)]
pub enum EnterFault {
    /// It is refused.
    Refused(Errno),
    /// Host memory ran out.
    NoMemory,
}
