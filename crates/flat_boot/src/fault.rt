//! Why boot fails.

use unix_model::ElfFault;

/// Why a step of boot failed.
#[derive(Clone, Copy, Debug, PartialEq, Eq)]
pub enum BootFault {
    /// Host memory ran out. The machine is then given up.
    NoMemory,
    /// The machine has no room for what was to be stored or started.
    NoRoom,
    /// The program's file isn't one that can be run.
    Elf(ElfFault),
}
