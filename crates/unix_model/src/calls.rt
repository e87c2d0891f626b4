//! The system calls, their refusals, and the answers of a turn.

ghost use Rattle.std.specs.Prelude.{◌≡◌};
ghost use Rattle.unix_model.specs.Calls.{call_of, errno_number};

/// The system calls (POSIX.1, narrowed; `Brk` and `Getdents` are our own).
#[derive(Clone, Copy, Debug, PartialEq, Eq)]
pub enum Call {
    Exit,
    Fork,
    Exec,
    Wait,
    Waitpid,
    Getpid,
    Getppid,
    Brk,
    Open,
    Close,
    Read,
    Write,
    Lseek,
    Dup,
    Dup2,
    Pipe,
    Mkdir,
    Rmdir,
    Unlink,
    Link,
    Rename,
    Fstat,
    Getdents,
    Ftruncate,
    Kill,
}

impl Call {
    #[tactic(auto, unfolding(crate::specs::Calls::call_of))]
    /// The call of a number; None exactly for a number without a call.
    pub fn of(number: u32) -> Option<Call>
        ensures { result ≡ call_of number }
    {
        match number {
            1 => Some(Call::Exit),
            2 => Some(Call::Fork),
            3 => Some(Call::Exec),
            4 => Some(Call::Wait),
            5 => Some(Call::Waitpid),
            6 => Some(Call::Getpid),
            7 => Some(Call::Getppid),
            8 => Some(Call::Brk),
            9 => Some(Call::Open),
            10 => Some(Call::Close),
            11 => Some(Call::Read),
            12 => Some(Call::Write),
            13 => Some(Call::Lseek),
            14 => Some(Call::Dup),
            15 => Some(Call::Dup2),
            16 => Some(Call::Pipe),
            17 => Some(Call::Mkdir),
            18 => Some(Call::Rmdir),
            19 => Some(Call::Unlink),
            20 => Some(Call::Link),
            21 => Some(Call::Rename),
            22 => Some(Call::Fstat),
            23 => Some(Call::Getdents),
            24 => Some(Call::Ftruncate),
            25 => Some(Call::Kill),
            _ => None,
        }
    }
}

/// Why a system call is refused, by POSIX.1's names.
#[derive(Clone, Copy, Debug, PartialEq, Eq)]
pub enum Errno {
    Eperm,
    Enoent,
    Esrch,
    E2big,
    Enoexec,
    Ebadf,
    Echild,
    Eagain,
    Enomem,
    Eacces,
    Efault,
    Ebusy,
    Eexist,
    Enotdir,
    Eisdir,
    Einval,
    Enfile,
    Emfile,
    Efbig,
    Enospc,
    Espipe,
    Epipe,
    Enametoolong,
    Enosys,
    Enotempty,
    Eoverflow,
}

impl Errno {
    /// The number that a program sees, negated, in `a0`.
    pub fn number(self) -> u32
        ensures { result ≡ errno_number self }
    {
        match self {
            Errno::Eperm => 1,
            Errno::Enoent => 2,
            Errno::Esrch => 3,
            Errno::E2big => 7,
            Errno::Enoexec => 8,
            Errno::Ebadf => 9,
            Errno::Echild => 10,
            Errno::Eagain => 11,
            Errno::Enomem => 12,
            Errno::Eacces => 13,
            Errno::Efault => 14,
            Errno::Ebusy => 16,
            Errno::Eexist => 17,
            Errno::Enotdir => 20,
            Errno::Eisdir => 21,
            Errno::Einval => 22,
            Errno::Enfile => 23,
            Errno::Emfile => 24,
            Errno::Efbig => 27,
            Errno::Enospc => 28,
            Errno::Espipe => 29,
            Errno::Epipe => 32,
            Errno::Enametoolong => 36,
            Errno::Enosys => 38,
            Errno::Enotempty => 39,
            Errno::Eoverflow => 75,
        }
    }
}

/// What a turn of a slot was.
#[derive(Clone, Copy, Debug, PartialEq, Eq)]
pub enum Turned {
    /// The slot's process went on by one step.
    Worked,
    /// The process waits, and nothing changed.
    Blocked,
    /// The slot is free or its process is a zombie, and nothing changed.
    Free,
}

/// How a process ended: 256 times the low byte of its exit code, or the number of the signal that ended it.
#[derive(Clone, Copy, Debug, PartialEq, Eq)]
pub struct WaitWord(pub u32);

/// A system call on its way from the keeper to a server: the number of the call, the words of `a0` to `a3`, in which a
/// count that is cut stands cut, and how many bytes the call brings, at most 4,096.
#[derive(Clone, Copy, Debug, PartialEq, Eq)]
pub struct Request {
    pub call: u8,
    pub args: [u32; 4],
    pub length: u16,
}
