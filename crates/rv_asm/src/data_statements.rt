//! The statements in `.data`, each with one operand.

ghost use Rattle.std.specs.Prelude.{◌≡◌, ◌≤◌, pos, ◌≤ℤ◌, false, length, option_map, IfSome, IsSome};
ghost use Rattle.rv_asm.specs.Operands as operands;
ghost use Rattle.rv_asm.specs.Operands.{text_from};
ghost use Rattle.rv_asm.specs.Statements as model;
ghost use Rattle.rv_asm.specs.Views.{statement_view, text_in, IsReady};

use crate::lines::one_operand;
use crate::mnemonics::Directive;
use crate::operands::number;
use crate::quoted::text_length;
use crate::ranges::{byte, count, exponent, word};
use crate::statement::Statement;

/// What a word in `.data` says of its operand.
#[tactic(auto, unfolding(crate::specs::Statements::data_statement))]
pub fn data_statement<'a>(directive: Directive, text: &'a [u8]) -> Option<Statement<'a>>
    requires short { length text.now ≤ 1024 }
    ensures value { option_map statement_view result ≡ model.data_statement directive text.now }
    ensures ready { IfSome result IsReady }
{
    match directive {
        Directive::Word => Some(Statement::Word(word(one_number(text)?))),
        Directive::Byte => Some(Statement::Byte(byte(one_number(text)?))),
        Directive::Ascii => Some(Statement::Ascii(quoted(text)?)),
        Directive::Space => Some(Statement::Space(count(one_number(text)?))),
        Directive::Align => Some(Statement::Align(exponent(one_number(text)?))),
    }
}

/// The only operand, a number.
fn one_number(text: &[u8]) -> Option<i64>
    ensures value { result ≡ model.one_number text.now }
    ensures most { IfSome result (λ n. n ≤ℤ pos 4294967296) }
{
    let operand = one_operand(text)?;
    number(operand)
}

/// The only operand, a text between quotes: what stands behind the opening quote, with the closing one.
#[tactic(auto, unfolding(crate::specs::Operands::quoted))]
fn quoted<'a>(text: &'a [u8]) -> Option<&'a [u8]>
    ensures value { option_map (λ behind. text_in behind.now) result ≡ operands.quoted text.now }
    ensures right { IfSome result (λ behind. IsSome (text_from false behind.now)) }
    ensures short { IfSome result (λ behind. length behind.now ≤ length text.now) }
{
    match text {
        [b'"', behind @ ..] => match text_length(behind) {
            Some(_) => Some(behind),
            None => None,
        },
        _ => None,
    }
}
