//! Tests of what stands nearest to the definitions: words against the GNU assembler's, instructions against qemu, and the
//! limits of the ELF format with a file that a linker wrote.
#![tactic(auto)]

#[cfg(test)]
mod elf;
#[cfg(test)]
mod instructions;
#[cfg(test)]
mod words;
