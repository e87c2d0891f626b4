//! The headers of an ELF file, read by the places of their fields.

ghost use Rattle.std.specs.Prelude.{◌≡◌, ◌+◌, ◌≤◌, length};
ghost use Rattle.unix_model.specs.Elf.{header_half, header_word, has_magic, file_header, program_header};

use crate::file_bytes::FileBytes;
use byteorder::{ByteOrder, LittleEndian};
use unix_model::{FileHeader, ProgramHeader};

/// The number in 2 bytes at a place.
fn half(bytes: &[u8], place: usize) -> u16
    requires { place + 2 ≤ length bytes.now }
    ensures { result ≡ header_half bytes.now place }
{
    LittleEndian::read_u16(&bytes[place..])
}

/// The number in 4 bytes at a place.
fn word(bytes: &[u8], place: usize) -> u32
    requires { place + 4 ≤ length bytes.now }
    ensures { result ≡ header_word bytes.now place }
{
    LittleEndian::read_u32(&bytes[place..])
}

/// Whether the bytes begin with the magic number of ELF.
#[tactic(auto, unfolding(unix_model::specs::Elf::has_magic))]
fn is_elf(bytes: &[u8; 52]) -> bool
    ensures { result ≡ has_magic bytes.now }
{
    bytes[0] == 0x7F && bytes[1] == b'E' && bytes[2] == b'L' && bytes[3] == b'F'
}

/// The file header that these bytes are.
#[tactic(auto, unfolding(unix_model::specs::Elf::file_header))]
fn decode_file_header(bytes: &[u8; 52]) -> FileHeader
    ensures { result ≡ file_header bytes.now }
{
    FileHeader {
        magic: is_elf(bytes),
        class: bytes[4],
        encoding: bytes[5],
        version: bytes[6],
        kind: half(bytes, 16),
        machine: half(bytes, 18),
        entry: word(bytes, 24),
        table: word(bytes, 28),
        header_bytes: half(bytes, 42),
        headers: half(bytes, 44),
    }
}

/// The program header that these bytes are.
#[tactic(auto, unfolding(unix_model::specs::Elf::program_header))]
fn decode_program_header(bytes: &[u8; 32]) -> ProgramHeader
    ensures { result ≡ program_header bytes.now 0 }
{
    ProgramHeader {
        kind: word(bytes, 0),
        offset: word(bytes, 4),
        at: word(bytes, 8),
        file_bytes: word(bytes, 16),
        memory_bytes: word(bytes, 20),
        flags: word(bytes, 24),
    }
}

/// The file header of a file that is long enough for one.
#[tactic(auto, using(crate::proofs::Fields::parts))]
pub(crate) fn read_file_header<B: FileBytes>(file: &B) -> FileHeader
    requires { 52 ≤ length (B.bytes file.now) }
    ensures { result ≡ file_header (B.bytes file.now) }
{
    let mut bytes = [0; 52];
    file.read(0, &mut bytes);
    decode_file_header(&bytes)
}

/// The program header that begins at a place of a file that has it whole.
#[tactic(auto, using(crate::proofs::Fields::parts))]
pub(crate) fn read_program_header<B: FileBytes>(file: &B, place: u32) -> ProgramHeader
    requires { place + 32 ≤ length (B.bytes file.now) }
    ensures { result ≡ program_header (B.bytes file.now) place }
{
    let mut bytes = [0; 32];
    file.read(place, &mut bytes);
    decode_program_header(&bytes)
}
