//! The stack of a program at its start (System V gABI, program loading).

ghost use Rattle.std.specs.Prelude.{◌≡◌, ◌+◌, ◌≤◌, ◌^◌, IfOk, length, vec_len};
ghost use Rattle.unix_model.specs.Loading.{address_words, argument_words, stack_bytes, stack_pointer, string_bytes, strings_start};
ghost use Rattle.unix_model.specs.Limits.{stack_end};
ghost use Rattle.flat_memory.specs.StringsView.{strings_of};

use std::alloc::{AllocError, Global};

/// The stack pointer, and the bytes from there to the end of the stack.
#[derive(Drop)]
pub struct Stack {
    pub pointer: u32,
    pub bytes: Vec<u8>,
    ghost end: { pointer + length bytes.items ≡ 2 ^ 31 },
}

/// The bytes of these strings, each with a NUL after it.

fn string_bytes(alloc: Global, strings: &[Vec<u8>]) -> Result<Vec<u8>, AllocError>
    ensures { IfOk result (λ bytes. bytes.items ≡ string_bytes (strings_of strings.now)) }
{
    let mut bytes = Vec::new(alloc);
    for string in strings {
        bytes.extend_from_slice(string.as_slice())?;
        bytes.push(0)?;
    }
    Ok(bytes)
}

/// The words from the stack pointer on: the number of strings, their addresses from the first one's on, and two zeros.

fn argument_words(alloc: Global, strings: &[Vec<u8>], start: u32) -> Result<Vec<u8>, AllocError>
    requires start { start ≡ strings_start (strings_of strings.now) }
    requires few { start + length (string_bytes (strings_of strings.now)) ≡ 2 ^ 31 }
    ensures { IfOk result (λ bytes. bytes.items ≡ argument_words (strings_of strings.now)) }
{
    let mut bytes = Vec::from_slice(alloc, &(strings.len() as u32).to_le_bytes())?;
    let mut address = start;
    for string in strings {
        bytes.extend_from_slice(&address.to_le_bytes())?;
        address += string.len() as u32 + 1;
    }
    bytes.extend_from_slice(&[0; 8])?;
    Ok(bytes)
}

/// The stack of a program with these strings.
pub fn build_stack(alloc: Global, strings: &[Vec<u8>]) -> Result<Stack, AllocError>
    requires { length (string_bytes (strings_of strings.now)) ≤ 4096 }
    ensures pointer { IfOk result (λ stack. stack.pointer ≡ stack_pointer (strings_of strings.now)) }
    ensures bytes { IfOk result (λ stack. stack.bytes.items ≡ stack_bytes (strings_of strings.now)) }
{
    let texts = string_bytes(alloc, strings)?;
    let start = 0x8000_0000 - texts.len() as u32;
    let mut bytes = argument_words(alloc, strings, start)?;
    let words = bytes.len() as u32;
    let pointer = (start - words) / 16 * 16;
    let between = vec![in alloc; 0; (start - words - pointer) as usize]?;
    bytes.extend_from_slice(between.as_slice())?;
    bytes.extend_from_slice(texts.as_slice())?;
    Ok(Stack { pointer, bytes })
}
