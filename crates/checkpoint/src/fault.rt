//! Why a recovery refuses.

/// Why no machine is opened.
#[derive(Clone, Copy, Debug, PartialEq, Eq)]
pub enum RecoverFault {
    /// No machine is present.
    NoMachine,
    /// The machine is damaged, or its generation is 2^62 or more.
    Damaged,
    /// A call of the disk failed: its count of faults rose.
    DiskFault,
    /// There is not enough memory.
    NoMemory,
}
