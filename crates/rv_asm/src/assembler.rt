//! From a source to a file.

ghost use Rattle.std.specs.Prelude.{◌≡◌, Ok, IfOk, IfErr, OnOk};
ghost use Rattle.unix_model.specs.Texts.{lines_of};
ghost use Rattle.rv_asm.specs.Files.{IsFile, Tells};
ghost use Rattle.rv_asm.specs.Programs as model;
ghost use Rattle.rv_asm.specs.Programs.{Program, Scan, assembled, scan_lines, start_scan};

use crate::fault::{AsmFault, AsmKind};
use crate::file::file_of;
use crate::instructions::Layout;
use crate::program::second_reading;
use crate::scan::first_reading;
use std::alloc::Global;

/// The ELF file of an assembly source: its instructions at address 65,536, where the program begins, and its data at the
/// next multiple of 4,096 behind them.
///
/// A source is read twice: once for the places of its labels, and once for its instructions and data. A line that is
/// refused by itself (Syntax, DoubleLabel, TooLong) is told before one that is refused for a label or for a number
/// (UnknownLabel, OutOfRange); of several the first is told.
#[tactic(auto, unfolding(crate::specs::Programs::assembled))]
pub fn assemble(alloc: Global, source: &[u8]) -> Result<Vec<u8>, AsmFault>
    ensures made { IfOk result (λ file. (program : Program) × (assembled source.now ≡ Ok program) × IsFile program file.items) }
    ensures refused { IfErr result (λ fault. Tells fault (assembled source.now)) }
{
    let (scan, lines) = match first_reading(alloc, source) {
        Ok(found) => found,
        Err(fault) => return Err(fault),
    };
    if scan.position.text_bytes == 0 {
        return Err(AsmFault::At {
            kind: AsmKind::Syntax,
            line: lines + 1,
        });
    }
    let layout = Layout {
        text_bytes: scan.position.text_bytes,
        labels: scan.labels,
    };
    let program = match second_reading(alloc, source, &layout) {
        Ok(program) => program,
        Err(fault) => return Err(fault),
    };
    match file_of(alloc, &program) {
        Ok(file) => Ok(file),
        Err(_) => Err(AsmFault::NoMemory),
    }
}

/// Reads the front of a source, behind which more lines may follow: whether one of its lines is refused by itself (Syntax,
/// DoubleLabel, TooLong).
pub fn check_front(alloc: Global, source: &[u8]) -> Result<(), AsmFault>
    ensures passed { OnOk result ((scan : Scan) × (scan_lines 1 start_scan (lines_of source.now) ≡ Ok scan)) }
    ensures refused { IfErr result (λ fault. Tells fault (scan_lines 1 start_scan (lines_of source.now))) }
{
    match first_reading(alloc, source) {
        Ok(_) => Ok(()),
        Err(fault) => Err(fault),
    }
}
