//! Why a bundle isn't booted.

use bundle::BundleKind;
use unix_model::ElfFault;

/// Why a bundle isn't booted.
#[derive(Clone, Copy, Debug, PartialEq, Eq)]
pub enum BootFault {
    /// A line of the bundle is refused. The first line is 1.
    At { kind: BundleKind, line: u32 },
    /// For the entry of a line the machine has no inode, no place or no room, or it is a file of more than 4,194,304 bytes. On
    /// line 0: for the memory of `/init`.
    NoRoom { line: u32 },
    /// `/init` isn't a program that this machine runs.
    Elf(ElfFault),
    /// A call of the source failed.
    ReadFault,
    /// Host memory ran out.
    NoMemory,
}
