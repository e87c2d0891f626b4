//! Why a read or a write fails.

/// Why a read or a write of the console fails.
#[derive(Clone, Copy, Debug, PartialEq, Eq)]
pub enum ConsoleFault {
    /// A call of the console failed.
    Failed,
    /// Host memory ran out. The machine is then given up.
    NoMemory,
}
