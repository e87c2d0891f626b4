//! The program that exec runs.

ghost use Rattle.std.specs.Prelude.{◌≤◌};

use elf_read::ElfPlan;
use flat_memory::Program;
use unix_model::Errno;

/// A file with its plan.
#[derive(Drop)]
pub struct FoundProgram<'a> {
    pub file: &'a [u8],
    pub plan: ElfPlan,
}

/// A program that was loaded, and where its heap begins.
#[derive(Drop)]
pub struct LoadedProgram {
    pub program: Program,
    pub break_start: u32,
    ghost low: { break_start ≤ 0x7FFE_0000 },
}

/// What loading a program comes to.
#[derive(Drop)]
pub enum Loading {
    /// There is no program at the path.
    Refused(Errno),
    /// It has more pages than the limit.
    Crowded,
    Loaded(LoadedProgram),
}
