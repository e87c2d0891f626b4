//! Endings by calls that failed.

ghost use Rattle.std.specs.Prelude.{◌≡◌};
ghost use Rattle.keynix.specs.Endings.{fault_ending};
ghost use Rattle.keynix.specs.Inputs.{boot_ending};

use crate::ending::{Ending, Refusal};
use flat_bundle::BootFault;
use flat_unix::FlatFault;

/// The ending of a call of the machine that failed.
pub fn fault(fault: FlatFault) -> Ending
    ensures { result ≡ fault_ending fault }
{
    match fault {
        FlatFault::ReadFault => Ending::ReadFault,
        FlatFault::WriteFault => Ending::WriteFault,
        FlatFault::NoMemory => Ending::NoMemory,
        FlatFault::NoRoom => Ending::Refused(Refusal::NoRoom { line: 0 }),
        FlatFault::Elf(fault) => Ending::Refused(Refusal::Elf(fault)),
    }
}

/// The ending of a boot that failed.
pub fn boot_fault(fault: BootFault) -> Ending
    ensures { result ≡ boot_ending fault }
{
    match fault {
        BootFault::At { kind, line } => Ending::Refused(Refusal::At { kind, line }),
        BootFault::NoRoom { line } => Ending::Refused(Refusal::NoRoom { line }),
        BootFault::Elf(fault) => Ending::Refused(Refusal::Elf(fault)),
        BootFault::ReadFault => Ending::ReadFault,
        BootFault::NoMemory => Ending::NoMemory,
    }
}
