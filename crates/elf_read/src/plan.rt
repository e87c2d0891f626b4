//! The plan of an ELF file.

ghost use Rattle.std.specs.Prelude.{◌≡◌, ◌+◌, ◌*◌, ◌≤◌, length, Ok, Err, IfOk};
ghost use Rattle.unix_model.specs.Elf.{first_of_tests, file_tests, plan_of};
ghost use Rattle.elf_read.specs.Shown.{shown_answer, shown_plan};
ghost use Rattle.elf_read.specs.Checked.{checked_file_header};
ghost use Rattle.elf_read.specs.Accepted.{IsSound, PlansAreSound};

use crate::file_bytes::FileBytes;
use crate::headers::read_file_header;
use crate::loads::{break_start, read_loads};
use arrayvec::ArrayVec;
use unix_model::{ElfFault, FileHeader, Load};

/// The class of 32-bit files, EI_CLASS.
const CLASS_32: u8 = 1;

/// The encoding with the lowest byte first, EI_DATA.
const LOW_FIRST: u8 = 1;

/// The version of ELF, EI_VERSION.
const VERSION: u8 = 1;

/// RISC-V, e_machine.
const RISC_V: u16 = 243;

/// An executable, e_type.
const EXECUTABLE: u16 = 2;

/// The size of a program header in bytes, e_phentsize.
const HEADER_BYTES: u16 = 32;

/// How many program headers are taken, at most.
const MOST_HEADERS: u16 = 64;

/// By what a file is loaded.
#[derive(Drop)]
pub struct ElfPlan {
    /// The address of the first instruction, a multiple of 4.
    pub entry: u32,
    /// The segments to load, in the order of their headers.
    pub loads: ArrayVec<Load, 16>,
    /// The address at which the heap begins: the least multiple of 4,096 that isn't below the end of any load.
    pub break_start: u32,
}

/// The header of a file with so many bytes, where it passes its tests.
#[tactic(auto, unfolding(unix_model::specs::Elf::file_tests))]
fn checked_header(file_length: u32, header: FileHeader) -> Result<FileHeader, ElfFault>
    requires { 52 ≤ file_length }
    ensures { result ≡ first_of_tests (file_tests file_length header) (Ok header) }
{
    if !header.magic {
        return Err(ElfFault::NotElf);
    }
    if header.class != CLASS_32 || header.encoding != LOW_FIRST || header.machine != RISC_V {
        return Err(ElfFault::NotRv32);
    }
    if header.version != VERSION || header.header_bytes != HEADER_BYTES || header.entry % 4 != 0 {
        return Err(ElfFault::BadHeader);
    }
    if header.kind != EXECUTABLE {
        return Err(ElfFault::NotStatic);
    }
    if header.headers > MOST_HEADERS {
        return Err(ElfFault::TooMany);
    }
    if u64::from(header.table) + 32 * u64::from(header.headers) > u64::from(file_length) {
        return Err(ElfFault::Short);
    }
    Ok(header)
}

/// The header of a file, where it passes its tests.
#[tactic(auto, unfolding(unix_model::specs::Elf::file_tests))]
fn read_checked_header<B: FileBytes>(file: &B) -> Result<FileHeader, ElfFault>
    ensures { result ≡ checked_file_header (B.bytes file.now) }
{
    let file_length = file.length();
    if file_length < 52 {
        return Err(ElfFault::Short);
    }
    checked_header(file_length, read_file_header(file))
}

/// The plan of a file, or why it has none (System V gABI, ELF header and program header).
///
/// The file header is tested first, in this order:
///
/// - Short: the file has fewer than 52 bytes.
/// - NotElf: the magic number is missing.
/// - NotRv32: class, encoding or machine is another.
/// - BadHeader: the version isn't 1, a program header hasn't 32 bytes, or the entry is no multiple of 4.
/// - NotStatic: the file is no executable.
/// - TooMany: there are more than 64 program headers.
/// - Short: the table of program headers passes the file's end.
///
/// Then the program headers are taken in order. PT_DYNAMIC and PT_INTERP are NotStatic, and a header that isn't PT_LOAD
/// or has no bytes in memory is passed over. A load is TooMany where the plan has sixteen already. It is BadSegment
/// where it has more bytes in the file than in memory, passes the end of the file or of user memory, or overlaps an
/// earlier load. BadSegment is also the answer where no load remains. All else that the headers say is ignored.
pub fn read<B: FileBytes>(file: &B) -> Result<ElfPlan, ElfFault>
    ensures plan { shown_answer result ≡ plan_of (B.bytes file.now) }
    ensures sound { IfOk result (λ plan. IsSound (length (B.bytes file.now)) (shown_plan plan)) }
{
    let header = match read_checked_header(file) {
        Ok(header) => header,
        Err(fault) => return Err(fault),
    };
    let loads = match read_loads(file, &header) {
        Ok(loads) => loads,
        Err(fault) => return Err(fault),
    };
    if loads.is_empty() {
        return Err(ElfFault::BadSegment);
    }
    let break_start = break_start(loads.as_slice());
    Ok(ElfPlan {
        entry: header.entry,
        loads,
        break_start,
    })
}

/// A law of the definition: every plan that a file has is sound.
pub fn plan_law()
    ensures { PlansAreSound }
{}
