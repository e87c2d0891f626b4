//! Families of system calls.

ghost use Rattle.std.specs.Prelude.{◌≡◌};
ghost use Rattle.flat_unix.specs.Families.{family_of};

use unix_model::Call;

/// What a system call is about, and so which crate has its line.
#[derive(Clone, Copy, Debug, PartialEq, Eq)]
pub(crate) enum Family {
    /// Answered by the keeper, and never sent.
    Keeper,
    /// Processes: their start, their end and signals.
    Processes,
    /// The names of files.
    Names,
    /// Descriptors, and the files that are open on them.
    Descriptors,
    /// Bytes that are read or written.
    Streams,
}

/// The family of a call.
pub(crate) fn family_of(call: Call) -> Family
    ensures { result ≡ family_of call }
{
    match call {
        Call::Getpid | Call::Getppid | Call::Brk => Family::Keeper,
        Call::Exit | Call::Fork | Call::Exec | Call::Wait | Call::Waitpid | Call::Kill => {
            Family::Processes
        }
        Call::Open | Call::Mkdir | Call::Rmdir | Call::Unlink | Call::Link | Call::Rename => {
            Family::Names
        }
        Call::Close
        | Call::Lseek
        | Call::Dup
        | Call::Dup2
        | Call::Pipe
        | Call::Fstat
        | Call::Getdents
        | Call::Ftruncate => Family::Descriptors,
        Call::Read | Call::Write => Family::Streams,
    }
}
