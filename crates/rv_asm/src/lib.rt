//! The assembler: from a source in the assembly language of RV32I to an ELF file.
//!
//! A line is read by its letters, its parts, its operands and its word; it says one [`statement`]. A source is read twice:
//! once for the places of its labels ([`scan`]), once for its instructions and data ([`program`]); the [`file`] follows.
#![tactic(auto)]

mod assembler;
mod data_statements;
mod fault;
mod file;
mod halves;
mod instructions;
mod labels;
mod laws;
mod layout;
mod letters;
mod lines;
mod mnemonics;
mod operands;
mod program;
mod quoted;
mod ranges;
mod scan;
mod statement;
mod text_statements;

pub use assembler::{assemble, check_front};
pub use fault::{AsmFault, AsmKind};
pub use laws::{halves_law, mnemonics_law, names_law, one_file_law, placed_law};
