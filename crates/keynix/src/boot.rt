//! The boot of an input: of an ELF file, or of a bundle.

ghost use Rattle.std.specs.Prelude.{◌≡◌, ◌≤◌, ◌∷◌, ◌++◌, ℕ, List, [], Some, true, false, IfErr, IfOk};
ghost use Rattle.std.specs.Option.{option_to_list};
ghost use Rattle.kn_io.specs.Faults.{Rose};
ghost use Rattle.unix_model.specs.Boot.{is_elf};
ghost use Rattle.keynix.specs.Counts.{ReadStays};
ghost use Rattle.keynix.specs.Endings.{IsCaused};
ghost use Rattle.keynix.specs.Inputs.{BootsAs, Reads};
ghost use Rattle.command_line.specs.WordsView.{setup_view};

use crate::ending::{Ending, Refusal};
use crate::fault::{boot_fault, fault};
use command_line::Setup;
use flat_bundle::boot as boot_text;
use flat_unix::Flat;
use kn_io::{ReadError, Source, read_up_to};
use std::alloc::Global;

/// The most bytes that an ELF file has.
const MOST_BYTES: usize = 4_194_304;

/// The first byte of every ELF file, and of no bundle.
const ELF: u8 = 0x7F;

/// Boots an input. An ELF file is all of it; of a bundle what follows the line `end` is left.
pub fn boot<S: Source>(alloc: Global, setup: Setup, input: &mut S) -> Result<Flat, Ending>
    ensures boots { (bytes : List ℕ) → S.left input.old ≡ Some bytes → BootsAs (setup_view setup) bytes (S.left input.new) result }
    ensures same { ReadStays (S.faults input.new ≡ S.faults input.old) result }
    ensures caused { IfErr result (IsCaused (Rose (S.faults input.old) (S.faults input.new)) ⊥) }
    ensures counted { S.faults input.old ≤ S.faults input.new }
{
    let first = match input.next() {
        Ok(first) => first,
        Err(_) => return Err(Ending::ReadFault),
    };
    if begins_file(first) {
        boot_file(alloc, setup, input)
    } else {
        boot_bundle(alloc, setup, first, input)
    }
}

/// Whether an input that begins so is an ELF file.
fn begins_file(first: Option<u8>) -> bool
    ensures { result ≡ is_elf (option_to_list first) }
{
    match first {
        Some(byte) => byte == ELF,
        None => false,
    }
}

/// Boots a bundle that begins with `first`, where that is a byte.
fn boot_bundle<S: Source>(
    alloc: Global,
    setup: Setup,
    first: Option<u8>,
    input: &mut S,
) -> Result<Flat, Ending>
    ensures boots { (rest : List ℕ) → S.left input.old ≡ Some rest → is_elf (option_to_list first ++ rest) ≡ false → BootsAs (setup_view setup) (option_to_list first ++ rest) (S.left input.new) result }
    ensures same { ReadStays (S.faults input.new ≡ S.faults input.old) result }
    ensures caused { IfErr result (IsCaused (Rose (S.faults input.old) (S.faults input.new)) ⊥) }
    ensures counted { S.faults input.old ≤ S.faults input.new }
{
    match boot_text(alloc, setup.pages, setup.quantum, first, input) {
        Ok(flat) => Ok(flat),
        Err(failed) => Err(boot_fault(failed)),
    }
}

/// Boots an ELF file whose first byte was read.
fn boot_file<S: Source>(alloc: Global, setup: Setup, input: &mut S) -> Result<Flat, Ending>
    ensures boots { (rest : List ℕ) → S.left input.old ≡ Some rest → BootsAs (setup_view setup) (127 ∷ rest) (S.left input.new) result }
    ensures same { ReadStays (S.faults input.new ≡ S.faults input.old) result }
    ensures caused { IfErr result (IsCaused (Rose (S.faults input.old) (S.faults input.new)) ⊥) }
    ensures counted { S.faults input.old ≤ S.faults input.new }
{
    let file = match read_file(alloc, input) {
        Ok(file) => file,
        Err(ending) => return Err(ending),
    };
    load_file(alloc, setup, &file)
}

/// The bytes of an ELF file whose first byte was read, up to the input's end.
fn read_file<S: Source>(alloc: Global, input: &mut S) -> Result<Vec<u8>, Ending>
    ensures reads { (rest : List ℕ) → S.left input.old ≡ Some rest → Reads (127 ∷ rest) (S.left input.new) result }
    ensures elf { IfOk result (λ file. is_elf file.items ≡ true) }
    ensures same { ReadStays (S.faults input.new ≡ S.faults input.old) result }
    ensures caused { IfErr result (IsCaused (Rose (S.faults input.old) (S.faults input.new)) ⊥) }
    ensures counted { S.faults input.old ≤ S.faults input.new }
{
    let mut file = match read_up_to(alloc, input, MOST_BYTES - 1) {
        Ok(file) => file,
        Err(ReadError::ReadFault) => return Err(Ending::ReadFault),
        Err(ReadError::TooLong) => return Err(Ending::Refused(Refusal::NoRoom { line: 0 })),
        Err(ReadError::NoMemory) => return Err(Ending::NoMemory),
    };
    match file.insert(0, ELF) {
        Ok(()) => Ok(file),
        Err(_) => Err(Ending::NoMemory),
    }
}

/// A machine with the program of a file loaded.
fn load_file(alloc: Global, setup: Setup, file: &[u8]) -> Result<Flat, Ending>
    requires { is_elf file.now ≡ true }
    ensures loads { BootsAs (setup_view setup) file.now (Some []) result }
    ensures caused { IfErr result (IsCaused ⊥ ⊥) }
{
    let mut flat = match Flat::new(alloc, setup.pages, setup.quantum) {
        Ok(flat) => flat,
        Err(_) => return Err(Ending::NoMemory),
    };
    match flat.add_file(alloc, b"/init", file) {
        Ok(()) => {}
        Err(failed) => return Err(fault(failed)),
    }
    match flat.start(alloc) {
        Ok(()) => Ok(flat),
        Err(failed) => Err(fault(failed)),
    }
}
