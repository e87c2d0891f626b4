//! Statements, as they are read.

ghost use Rattle.std.specs.Prelude.{◌≡◌, ◌≤◌, length, option_map, IfSome};
ghost use Rattle.rv_asm.specs.Mnemonics.{part_named};
ghost use Rattle.rv_asm.specs.Statements as model;
ghost use Rattle.rv_asm.specs.Views.{statement_view, IsReady};

use crate::data_statements::data_statement;
use crate::lines::word_and_operands;
use crate::mnemonics::{Part, directive_named, mnemonic_named, part_named};
use crate::text_statements::text_statement;
use unix_model::{BranchOp, Instr};

/// What a line says. None stands where a number doesn't fit.
#[derive(Clone, Copy)]
pub enum Statement<'a> {
    Nothing,
    Switch(Part),
    Single(Option<Instr>),
    Double(Option<(Instr, Instr)>),
    Jump {
        rd: u8,
        label: &'a [u8],
    },
    Branch {
        op: BranchOp,
        rs1: u8,
        rs2: u8,
        label: &'a [u8],
    },
    Address {
        rd: u8,
        label: &'a [u8],
    },
    Word(Option<u32>),
    Byte(Option<u8>),
    /// The text behind the opening quote, with the closing one.
    Ascii(&'a [u8]),
    /// So many zeros, at most 2^32.
    Space(Option<u64>),
    /// An exponent of 2, at most 12.
    Align(Option<u32>),
}

/// What a statement says in a part; None where it is none. The blanks at its ends have been taken away.
#[tactic(auto, unfolding(crate::specs::Statements::statement_of))]
pub fn statement_of<'a>(part: Part, text: &'a [u8]) -> Option<Statement<'a>>
    requires short { length text.now ≤ 1024 }
    ensures value { option_map statement_view result ≡ model.statement_of part text.now }
    ensures ready { IfSome result IsReady }
{
    match text {
        [] => Some(Statement::Nothing),
        _ => {
            let (word, operands) = word_and_operands(text);
            statement_with(part, word, operands)
        }
    }
}

/// What a word says of its operands in a part.
fn statement_with<'a>(part: Part, word: &[u8], operands: &'a [u8]) -> Option<Statement<'a>>
    requires short { length operands.now ≤ 1024 }
    ensures value { option_map statement_view result ≡ model.statement_with part (part_named word.now) word.now operands.now }
    ensures ready { IfSome result IsReady }
{
    if let Some(other) = part_named(word) {
        return switch_statement(other, operands);
    }
    match part {
        Part::Text => match mnemonic_named(word) {
            Some(mnemonic) => text_statement(mnemonic, operands),
            None => None,
        },
        Part::Data => match directive_named(word) {
            Some(directive) => data_statement(directive, operands),
            None => None,
        },
    }
}

/// A switch to a part, which has no operands.
fn switch_statement<'a>(part: Part, operands: &'a [u8]) -> Option<Statement<'a>>
    ensures value { option_map statement_view result ≡ model.switch_statement part operands.now }
    ensures ready { IfSome result IsReady }
{
    match operands {
        [] => Some(Statement::Switch(part)),
        _ => None,
    }
}
