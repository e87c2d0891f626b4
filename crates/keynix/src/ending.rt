//! How a command ended.

use bundle::BundleKind;
use elf_read::ElfFault;
use rv_asm::AsmKind;

/// Why an input isn't booted.
#[derive(Clone, Copy, Debug, PartialEq, Eq)]
pub enum Refusal {
    /// A line of the bundle is refused. The first is 1.
    At { kind: BundleKind, line: u32 },
    /// The machine has no room for what a line of the bundle gives; on line 0: for an ELF file, or for the memory of `/init`.
    NoRoom { line: u32 },
    /// `/init`, or the ELF file, is no program that this machine runs.
    Elf(ElfFault),
}

/// How a command ended.
#[derive(Clone, Copy, Debug, PartialEq, Eq)]
pub enum Ending {
    /// The machine halted, with the wait word of process 1.
    Halted(u32),
    /// All turns that may be made were made, or all that the plan gives: so many.
    TurnsSpent(u64),
    /// After so many turns the machine is idle: no turn would change anything any more.
    Idle(u64),
    /// What was asked for was written: the file of a source, or the summary of a load test.
    Done,
    /// The words are no command.
    Usage,
    /// The input was refused.
    Refused(Refusal),
    /// The source was refused at a line, of which the first is 1.
    NotAssembled { kind: AsmKind, line: u32 },
    /// The plan was refused at a line, of which the first is 1.
    BadPlan { line: u32 },
    /// A call of the input failed.
    ReadFault,
    /// A call of the output failed.
    WriteFault,
    /// Host memory ran out.
    NoMemory,
}
