//! The loads of an ELF file, from its program headers in order.

ghost use Rattle.std.specs.Prelude.{◌≡◌, ◌+◌, ◌*◌, ◌≤◌, [], ◌∷◌, ◌++◌, length, Ok, Err, All};
ghost use Rattle.std.specs.List.{list_any};
ghost use Rattle.unix_model.specs.Elf.{first_of_tests, load_tests, segment_of, load_end, overlaps, loads_with, loads_of_first, break_start_of};
ghost use Rattle.elf_read.specs.Shown.{shown_loads};

use crate::file_bytes::FileBytes;
use crate::headers::read_program_header;
use arrayvec::ArrayVec;
use unix_model::{ElfFault, FileHeader, Load, MOST_LOADS, ProgramHeader};

/// A segment to load, PT_LOAD.
const LOAD: u32 = 1;

/// The tables of a dynamic linker, PT_DYNAMIC.
const DYNAMIC: u32 = 2;

/// The path of a dynamic linker, PT_INTERP.
const INTERPRETER: u32 = 3;

/// The flag of a segment that the program may write to, PF_W.
const WRITE: u32 = 2;

/// The end of the memory in which loads lie.
const LOADS_END: u64 = 0x7FFE_0000;

/// The size of a page in bytes.
const PAGE: u32 = 4096;

/// Where a load ends in memory.
fn end(load: &Load) -> u64
    ensures { result ≡ load_end load.now }
{
    u64::from(load.at) + u64::from(load.memory_bytes)
}

/// Whether two loads have an address in common.
#[tactic(auto, unfolding(unix_model::specs::Elf::overlaps))]
fn overlap(load: &Load, other: &Load) -> bool
    ensures { result ≡ overlaps load.now other.now }
{
    u64::from(load.at) < end(other) && u64::from(other.at) < end(load)
}

/// Whether a load has an address in common with one of these.
fn overlaps_one(load: &Load, loads: &[Load]) -> bool
    ensures { result ≡ list_any (overlaps load.now) loads.now }
{
    loads.iter().any(|other| overlap(load, other))
}

/// The loads with one more, where its tests let it follow them.
#[tactic(auto, unfolding(unix_model::specs::Elf::load_tests, unix_model::specs::Limits::loads_end))]
fn with_load(
    file_length: u32,
    load: Load,
    mut loads: ArrayVec<Load, 16>,
) -> Result<ArrayVec<Load, 16>, ElfFault>
    ensures { shown_loads result
        ≡ first_of_tests (load_tests file_length load loads.items) (Ok (loads.items ++ load ∷ [])) }
{
    if loads.len() >= MOST_LOADS {
        return Err(ElfFault::TooMany);
    }
    if load.file_bytes > load.memory_bytes {
        return Err(ElfFault::BadSegment);
    }
    if u64::from(load.offset) + u64::from(load.file_bytes) > u64::from(file_length) {
        return Err(ElfFault::BadSegment);
    }
    if end(&load) > LOADS_END {
        return Err(ElfFault::BadSegment);
    }
    if overlaps_one(&load, loads.as_slice()) {
        return Err(ElfFault::BadSegment);
    }
    loads.push(load);
    Ok(loads)
}

/// The load that a program header asks for.
#[tactic(auto, unfolding(unix_model::specs::Elf::segment_of))]
fn load_from(header: &ProgramHeader) -> Load
    ensures { result ≡ segment_of header.now }
{
    Load {
        at: header.at,
        offset: header.offset,
        file_bytes: header.file_bytes,
        memory_bytes: header.memory_bytes,
        writable: header.flags & WRITE != 0,
    }
}

/// The loads after one program header more.
#[tactic(auto, unfolding(unix_model::specs::Elf::loads_with))]
fn with_header(
    file_length: u32,
    header: &ProgramHeader,
    loads: ArrayVec<Load, 16>,
) -> Result<ArrayVec<Load, 16>, ElfFault>
    ensures { shown_loads result ≡ loads_with file_length header.now loads.items }
{
    if header.kind == DYNAMIC || header.kind == INTERPRETER {
        return Err(ElfFault::NotStatic);
    }
    if header.kind != LOAD || header.memory_bytes == 0 {
        return Ok(loads);
    }
    with_load(file_length, load_from(header), loads)
}

/// The loads of a file whose table of program headers lies in it.
pub(crate) fn read_loads<B: FileBytes>(
    file: &B,
    header: &FileHeader,
) -> Result<ArrayVec<Load, 16>, ElfFault>
    requires { header.now.table + 32 * header.now.headers ≤ length (B.bytes file.now) }
    ensures { shown_loads result ≡ loads_of_first header.now.headers (B.bytes file.now) header.now.table }
{
    let file_length = file.length();
    let mut loads = ArrayVec::new();
    for number in 0..header.headers {
        let program_header = read_program_header(file, header.table + 32 * u32::from(number));
        loads = match with_header(file_length, &program_header, loads) {
            Ok(longer) => longer,
            Err(fault) => return Err(fault),
        };
    }
    Ok(loads)
}

/// The least page boundary that isn't below the end of any load.
#[tactic(auto, unfolding(unix_model::specs::Elf::break_start_of))]
pub(crate) fn break_start(loads: &[Load]) -> u32
    requires { All (λ load. load_end load ≤ 0x7FFE_0000) loads.now }
    ensures { result ≡ break_start_of loads.now }
{
    let mut last: u32 = 0;
    for load in loads {
        last = last.max(load.at + load.memory_bytes);
    }
    last.div_ceil(PAGE) * PAGE
}
