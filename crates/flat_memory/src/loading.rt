//! The memory of a program at its start (System V gABI, program loading).

ghost use Rattle.std.specs.Prelude.{◌≡◌, ◌+◌, ◌-◌, ◌*◌, ◌<◌, ◌≤◌, ◌^◌, All, IfOk, IfNone, IfSome, is_some, length, slice_index, true, false, Ok};
ghost use Rattle.elf_read.specs.Accepted.{IsLoadable};
ghost use Rattle.unix_model.specs.Loading.{image as image_of, in_file_part, in_stack, load_byte, page_mapped, page_writable, start_registers, string_bytes, touches};
ghost use Rattle.unix_model.specs.Memory.{mapped_pages};
ghost use Rattle.unix_model.specs.Tables.{at};
ghost use Rattle.flat_memory.specs.MemoryView.{memory_of};
ghost use Rattle.flat_memory.specs.PageView.{page_of};
ghost use Rattle.flat_memory.specs.StringsView.{strings_of};
ghost use Rattle.flat_memory.specs.Stacked.{stacked_byte, stacked_image, stacked_page, AreLoaded, AreMapped, ArePages, HasPages, IsLoaded, IsPart, Keeps};

use crate::memory::Memory;
use crate::page::Page;
use crate::stack_bytes::{Stack, build_stack};
use elf_read::Load;
use std::alloc::{AllocError, Global};
use unix_model::Regs;

/// Whether an address is among a load's bytes in the file.
fn in_file_part(file: &[u8], load: &Load, address: u32) -> bool
    requires { IsLoadable (length file.now) load.now }
    ensures { result ≡ in_file_part address load.now }
{
    load.at <= address && address < load.at + load.file_bytes
}

/// A load's byte in the file at an address.
fn file_byte(file: &[u8], load: &Load, address: u32) -> u8
    requires load { IsLoadable (length file.now) load.now }
    requires part { in_file_part address load.now ≡ true }
    ensures { result ≡ slice_index file.now (load.now.offset + (address - load.now.at)) }
{
    file[load.offset as usize + (address - load.at) as usize]
}

/// The byte of the loads at an address: from the file where it is among a load's bytes there, else zero.
fn load_byte(file: &[u8], loads: &[Load], address: u32) -> u8
    requires { All (IsLoadable (length file.now)) loads.now }
    ensures { result ≡ load_byte file.now loads.now address }
{
    for load in loads {
        if in_file_part(file, load, address) {
            return file_byte(file, load, address);
        }
    }
    0
}

/// The byte at an address.
#[tactic(auto, unfolding(crate::specs::Stacked::stacked_byte))]
fn image_byte(file: &[u8], loads: &[Load], stack: &Stack, address: u32) -> u8
    requires loads { All (IsLoadable (length file.now)) loads.now }
    requires below { address < 2 ^ 31 }
    ensures { result ≡ stacked_byte file.now loads.now stack.now.pointer stack.now.bytes.items address }
{
    if address < stack.pointer {
        load_byte(file, loads, address)
    } else {
        stack.bytes[(address - stack.pointer) as usize]
    }
}

/// Whether a load has bytes in a page.
fn touches(file: &[u8], load: &Load, page: u32) -> bool
    requires load { IsLoadable (length file.now) load.now }
    requires page { page < 2 ^ 19 }
    ensures { result ≡ touches page load.now }
{
    load.at < 4096 * page + 4096 && 4096 * page < load.at + load.memory_bytes
}

/// Whether one of the 16 pages of the stack.
fn in_stack(page: u32) -> bool
    ensures { result ≡ in_stack page }
{
    0x7_FFF0 <= page && page < 0x8_0000
}

/// Whether a page is writable: it is in the stack, or a load with bytes in it is writable.
#[tactic(auto, using(crate::proofs::ImageLaws::any_load))]
fn page_writable(file: &[u8], loads: &[Load], page: u32) -> bool
    requires loads { All (IsLoadable (length file.now)) loads.now }
    requires page { page < 2 ^ 19 }
    ensures { result ≡ page_writable loads.now page }
{
    let mut writable = in_stack(page);
    for load in loads {
        writable = writable || (load.writable && touches(file, load, page));
    }
    writable
}

/// A page of the memory.
#[tactic(auto, using(unix_model::proofs::TableLaws::steps))]
fn image_page(
    alloc: Global,
    file: &[u8],
    loads: &[Load],
    stack: &Stack,
    page: u32,
) -> Result<Page, AllocError>
    requires loads { All (IsLoadable (length file.now)) loads.now }
    requires page { page < 2 ^ 19 }
    ensures { IfOk result (λ made. page_of made ≡ stacked_page file.now loads.now stack.now.pointer stack.now.bytes.items page) }
{
    let mut bytes = Vec::with_capacity(alloc, 4096)?;
    for place in 0..4096u32 {
        bytes.push(image_byte(file, loads, stack, 4096 * page + place))?;
    }
    Ok(Page {
        writable: page_writable(file, loads, page),
        bytes,
    })
}

/// Maps a page of the program, unless it is mapped. False where the program has more pages than the limit.
#[tactic(auto, using(unix_model::proofs::TableLaws::tables))]
fn load_page(
    alloc: Global,
    file: &[u8],
    loads: &[Load],
    stack: &Stack,
    limit: u32,
    memory: &mut Memory,
    page: u32,
) -> Result<bool, AllocError>
    requires loads { All (IsLoadable (length file.now)) loads.now }
    requires page { (page < 2 ^ 19) × (page_mapped loads.now page ≡ true) }
    requires part { IsPart (memory_of memory.old) (stacked_image file.now loads.now stack.now.pointer stack.now.bytes.items) }
    ensures part { IfOk result (λ fits. IsPart (memory_of memory.new) (stacked_image file.now loads.now stack.now.pointer stack.now.bytes.items)) }
    ensures there { result ≡ Ok true → is_some (at (memory_of memory.new) page) ≡ true }
    ensures keeps { IfOk result (λ fits. Keeps (memory_of memory.old) (memory_of memory.new)) }
    ensures full { result ≡ Ok false → limit < mapped_pages (stacked_image file.now loads.now stack.now.pointer stack.now.bytes.items) }
{
    if memory.pages.has(page) {
        return Ok(true);
    }
    if memory.mapped() >= limit {
        return Ok(false);
    }
    let made = match image_page(alloc, file, loads, stack, page) {
        Ok(made) => made,
        Err(fault) => return Err(fault),
    };
    match memory.map(alloc, page, made) {
        Ok(()) => Ok(true),
        Err(fault) => Err(fault),
    }
}

/// Maps the pages from one number to another, each unless it is mapped. False where the program has more pages than the
/// limit.
fn load_pages(
    alloc: Global,
    file: &[u8],
    loads: &[Load],
    stack: &Stack,
    limit: u32,
    memory: &mut Memory,
    from: u32,
    to: u32,
) -> Result<bool, AllocError>
    requires loads { All (IsLoadable (length file.now)) loads.now }
    requires end { to ≤ 2 ^ 19 }
    requires pages { ArePages loads.now from to }
    requires part { IsPart (memory_of memory.old) (stacked_image file.now loads.now stack.now.pointer stack.now.bytes.items) }
    ensures part { IfOk result (λ fits. IsPart (memory_of memory.new) (stacked_image file.now loads.now stack.now.pointer stack.now.bytes.items)) }
    ensures mapped { result ≡ Ok true → AreMapped (memory_of memory.new) from to }
    ensures keeps { IfOk result (λ fits. Keeps (memory_of memory.old) (memory_of memory.new)) }
    ensures full { result ≡ Ok false → limit < mapped_pages (stacked_image file.now loads.now stack.now.pointer stack.now.bytes.items) }
{
    for page in from..to {
        match load_page(alloc, file, loads, stack, limit, memory, page) {
            Ok(true) => {}
            Ok(false) => return Ok(false),
            Err(fault) => return Err(fault),
        }
    }
    Ok(true)
}

/// Maps the pages of a load.
fn load_load(
    alloc: Global,
    file: &[u8],
    loads: &[Load],
    stack: &Stack,
    limit: u32,
    memory: &mut Memory,
    load: &Load,
) -> Result<bool, AllocError>
    requires loads { All (IsLoadable (length file.now)) loads.now }
    requires load { IsLoadable (length file.now) load.now }
    requires pages { HasPages loads.now load.now }
    requires part { IsPart (memory_of memory.old) (stacked_image file.now loads.now stack.now.pointer stack.now.bytes.items) }
    ensures part { IfOk result (λ fits. IsPart (memory_of memory.new) (stacked_image file.now loads.now stack.now.pointer stack.now.bytes.items)) }
    ensures mapped { result ≡ Ok true → IsLoaded (memory_of memory.new) load.now }
    ensures keeps { IfOk result (λ fits. Keeps (memory_of memory.old) (memory_of memory.new)) }
    ensures full { result ≡ Ok false → limit < mapped_pages (stacked_image file.now loads.now stack.now.pointer stack.now.bytes.items) }
{
    let from = load.at / 4096;
    let to = (load.at + load.memory_bytes).div_ceil(4096);
    load_pages(alloc, file, loads, stack, limit, memory, from, to)
}

/// Maps the pages of all loads.
fn load_loads(
    alloc: Global,
    file: &[u8],
    loads: &[Load],
    stack: &Stack,
    limit: u32,
    memory: &mut Memory,
) -> Result<bool, AllocError>
    requires loads { All (IsLoadable (length file.now)) loads.now }
    requires part { IsPart (memory_of memory.old) (stacked_image file.now loads.now stack.now.pointer stack.now.bytes.items) }
    ensures part { IfOk result (λ fits. IsPart (memory_of memory.new) (stacked_image file.now loads.now stack.now.pointer stack.now.bytes.items)) }
    ensures mapped { result ≡ Ok true → AreLoaded (memory_of memory.new) loads.now }
    ensures full { result ≡ Ok false → limit < mapped_pages (stacked_image file.now loads.now stack.now.pointer stack.now.bytes.items) }
{
    for load in loads {
        match load_load(alloc, file, loads, stack, limit, memory, load) {
            Ok(true) => {}
            Ok(false) => return Ok(false),
            Err(fault) => return Err(fault),
        }
    }
    Ok(true)
}

/// The memory of a program. None where it has more pages than the limit.
fn image(
    alloc: Global,
    file: &[u8],
    loads: &[Load],
    stack: &Stack,
    limit: u32,
) -> Result<Option<Memory>, AllocError>
    requires { All (IsLoadable (length file.now)) loads.now }
    ensures whole { IfOk result (λ found. IfSome found (λ memory. memory_of memory ≡ stacked_image file.now loads.now stack.now.pointer stack.now.bytes.items)) }
    ensures full { IfOk result (λ found. IfNone found (limit < mapped_pages (stacked_image file.now loads.now stack.now.pointer stack.now.bytes.items))) }
{
    let mut memory = match Memory::new(alloc) {
        Ok(memory) => memory,
        Err(fault) => return Err(fault),
    };
    match load_loads(alloc, file, loads, stack, limit, &mut memory) {
        Ok(true) => {}
        Ok(false) => return Ok(None),
        Err(fault) => return Err(fault),
    }
    match load_pages(
        alloc,
        file,
        loads,
        stack,
        limit,
        &mut memory,
        0x7_FFF0,
        0x8_0000,
    ) {
        Ok(true) => Ok(Some(memory)),
        Ok(false) => Ok(None),
        Err(fault) => Err(fault),
    }
}

/// The registers and the memory of a program at its start.
#[derive(Drop)]
pub struct Program {
    pub registers: Regs,
    pub memory: Memory,
}

/// Loads a program with these argument strings. None where it has more pages than the limit.
#[tactic(auto, unfolding(unix_model::specs::Loading::start_registers))]
pub fn load_program(
    alloc: Global,
    file: &[u8],
    entry: u32,
    loads: &[Load],
    strings: &[Vec<u8>],
    limit: u32,
) -> Result<Option<Program>, AllocError>
    requires loads { All (IsLoadable (length file.now)) loads.now }
    requires strings { length (string_bytes (strings_of strings.now)) ≤ 4096 }
    ensures registers { IfOk result (λ found. IfSome found (λ program. program.registers ≡ start_registers entry (strings_of strings.now))) }
    ensures memory { IfOk result (λ found. IfSome found (λ program. memory_of program.memory ≡ image_of file.now loads.now (strings_of strings.now))) }
    ensures full { IfOk result (λ found. IfNone found (limit < mapped_pages (image_of file.now loads.now (strings_of strings.now)))) }
{
    let stack = match build_stack(alloc, strings) {
        Ok(stack) => stack,
        Err(fault) => return Err(fault),
    };
    let memory = match image(alloc, file, loads, &stack, limit) {
        Ok(Some(memory)) => memory,
        Ok(None) => return Ok(None),
        Err(fault) => return Err(fault),
    };
    let mut registers = Regs {
        x: [0; 32],
        pc: entry,
    };
    registers.x[2] = stack.pointer;
    registers.x[10] = strings.len() as u32;
    registers.x[11] = stack.pointer + 4;
    Ok(Some(Program { registers, memory }))
}
