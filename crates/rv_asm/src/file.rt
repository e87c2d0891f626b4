//! The ELF file of a program.

ghost use Rattle.std.specs.Prelude.{◌≡◌, ◌+◌, ◌≤◌, ◌<◌, ◌++◌, length, IfOk, OnOk};
ghost use Rattle.rv_asm.specs.Files as model;

use crate::layout::{TEXT_START, data_start};
use crate::program::Program;
use std::alloc::{AllocError, Global};

/// The length of the file header with two program headers: where the text begins in the file.
const HEAD_BYTES: u32 = 116;

/// The file header: an executable for 32-bit RISC-V that begins at the text's address, with two program headers at 52.
const FILE_HEADER: [u8; 52] = [
    0x7F, 0x45, 0x4C, 0x46, 1, 1, 1, 0, 0, 0, 0, 0, 0, 0, 0, 0, // e_ident
    2, 0, 243, 0, 1, 0, 0, 0, 0, 0, 1, 0, // e_type, e_machine, e_version, e_entry
    52, 0, 0, 0, 0, 0, 0, 0, 0, 0, 0, 0, // e_phoff, e_shoff, e_flags
    52, 0, 32, 0, 2, 0, // e_ehsize, e_phentsize, e_phnum
    0, 0, 0, 0, 0, 0, // e_shentsize, e_shnum, e_shstrndx
];

/// The flags of a part that is read and executed, and of one that is read and written: X 1, W 2, R 4.
const READ_EXECUTE: u32 = 5;

const READ_WRITE: u32 = 6;

/// Appends a number of four bytes.
fn push_number(file: &mut Vec<u8>, number: u32) -> Result<(), AllocError>
    ensures { OnOk result (file.new.items ≡ file.old.items ++ model.word number) }
{
    file.extend_from_slice(&number.to_le_bytes())
}

/// Appends the header of a part that stands at `offset` in the file and goes to `address`.
fn push_header(
    file: &mut Vec<u8>,
    offset: u32,
    address: u32,
    bytes: u32,
    flags: u32,
) -> Result<(), AllocError>
    ensures { OnOk result (file.new.items ≡ file.old.items ++ model.program_header offset address bytes flags) }
{
    push_number(file, 1)?;
    push_number(file, offset)?;
    push_number(file, address)?;
    push_number(file, address)?;
    push_number(file, bytes)?;
    push_number(file, bytes)?;
    push_number(file, flags)?;
    push_number(file, 1)?;
    Ok(())
}

/// Appends the file header.
fn push_file_header(file: &mut Vec<u8>) -> Result<(), AllocError>
    ensures { OnOk result (file.new.items ≡ file.old.items ++ model.file_header) }
{
    file.extend_from_slice(&FILE_HEADER)
}

/// The file: its head, the text, and the data.
pub fn file_of(alloc: Global, program: &Program) -> Result<Vec<u8>, AllocError>
    requires text_fits { length program.now.text.items ≤ 1048576 }
    requires data_fits { length program.now.bytes.items ≤ 1048576 }
    ensures { IfOk result (λ file. file.items ≡ model.head (length program.now.text.items) (length program.now.bytes.items) ++ program.now.text.items ++ program.now.bytes.items) }
{
    let text_bytes = program.text.len() as u32;
    let data_bytes = program.bytes.len() as u32;
    let data_address = data_start(u64::from(text_bytes)) as u32;
    let mut file = Vec::new(alloc);
    push_file_header(&mut file)?;
    push_header(&mut file, HEAD_BYTES, TEXT_START, text_bytes, READ_EXECUTE)?;
    push_header(
        &mut file,
        HEAD_BYTES + text_bytes,
        data_address,
        data_bytes,
        READ_WRITE,
    )?;
    file.extend_from_slice(program.text.as_slice())?;
    file.extend_from_slice(program.bytes.as_slice())?;
    Ok(file)
}
