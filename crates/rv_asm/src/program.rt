//! The second reading of a source: instructions and data.

ghost use Rattle.std.specs.Prelude.{◌≡◌, ◌+◌, ◌*◌, ◌≤◌, ◌<◌, ◌++◌, [], ◌^◌, List, ℕ, length, replicate, IfErr, IfOk, OnOk};
ghost use Rattle.unix_model.specs.Texts.{lines_of};
ghost use Rattle.rv_decode.specs.Fits.{Fits};
ghost use Rattle.rv_asm.specs.Answers.{AreReady, Grows, Makes, PutsData, Spelled, instructions_view, layout_view};
ghost use Rattle.rv_asm.specs.Files.{SpellAll, Tells};
ghost use Rattle.rv_asm.specs.Layout.{moved, start};
ghost use Rattle.rv_asm.specs.Programs as model;
ghost use Rattle.rv_asm.specs.Views.{IsReady, statement_view, text_in};

use crate::fault::{AsmFault, AsmKind};
use crate::instructions::{Instructions, Layout};
use crate::layout::{Position, TEXT_START, padding};
use crate::lines::parts_of;
use crate::mnemonics::Part;
use crate::quoted::push_text;
use crate::scan::MOST_LINE_BYTES;
use crate::statement::{Statement, statement_of};
use kn_text::split_line;
use rv_decode::encode;
use std::alloc::{AllocError, Global};
use unix_model::Instr;

/// The most bytes of a part.
const MOST_PART_BYTES: u64 = 1_048_576;

/// The parts, as they are in the file.
#[derive(Drop)]
pub struct Program {
    /// The words of the instructions, each with its lowest byte first.
    pub text: Vec<u8>,
    /// The data.
    pub bytes: Vec<u8>,
}

/// Appends the word of an instruction.
fn push_word(text: &mut Vec<u8>, instruction: Instr) -> Result<(), AllocError>
    requires { Fits instruction }
    ensures { OnOk result (Spelled text.old.items text.new.items (model.one instruction)) }
{
    text.extend_from_slice(&encode(instruction).to_le_bytes())
}

/// Appends the words of a statement's instructions.
fn push_words(text: &mut Vec<u8>, instructions: Instructions) -> Result<(), AllocError>
    requires { AreReady instructions }
    ensures spelled { OnOk result (Spelled text.old.items text.new.items (instructions_view instructions)) }
{
    match instructions {
        Instructions::NoneOf => Ok(()),
        Instructions::One(only) => push_word(text, only),
        Instructions::Two(first, second) => {
            match push_word(text, first) {
                Ok(()) => {}
                Err(fault) => return Err(fault),
            }
            push_word(text, second)
        }
    }
}

/// Appends zeros.
fn push_zeros(bytes: &mut Vec<u8>, count: u64) -> Result<(), AllocError>
    requires { count ≤ 4294967296 }
    ensures { OnOk result (bytes.new.items ≡ bytes.old.items ++ replicate count 0) }
{
    let length = bytes.len() + count as usize;
    bytes.resize(length, 0)
}

/// Appends the bytes of a statement behind so many.
#[tactic(auto, unfolding(crate::specs::Programs::data_of))]
fn push_data(
    bytes: &mut Vec<u8>,
    so_far: u64,
    number: u32,
    statement: &Statement<'_>,
) -> Result<(), AsmFault>
    requires { IsReady statement.now }
    ensures { PutsData result bytes.old.items bytes.new.items (model.at_line number (model.data_of so_far (statement_view statement.now))) }
{
    let pushed = match *statement {
        Statement::Word(Some(word)) => bytes.extend_from_slice(&word.to_le_bytes()),
        Statement::Byte(Some(byte)) => match bytes.push(byte) {
            Ok(()) => Ok(()),
            Err(_) => Err(AllocError),
        },
        Statement::Ascii(behind) => push_text(behind, bytes),
        Statement::Space(Some(count)) => push_zeros(bytes, count),
        Statement::Align(Some(exponent)) => push_zeros(bytes, padding(exponent, so_far)),
        Statement::Word(None)
        | Statement::Byte(None)
        | Statement::Space(None)
        | Statement::Align(None) => {
            return Err(AsmFault::At {
                kind: AsmKind::OutOfRange,
                line: number,
            });
        }
        _ => Ok(()),
    };
    match pushed {
        Ok(()) => Ok(()),
        Err(_) => Err(AsmFault::NoMemory),
    }
}

impl Program {
    /// Adds what one statement makes at a position, and gives the position behind it.
    #[tactic(auto, unfolding(crate::specs::Programs::made_of, crate::specs::Layout::text_start))]
    fn add(
        &mut self,
        layout: &Layout<'_>,
        number: u32,
        position: Position,
        statement: &Statement<'_>,
    ) -> Result<Position, AsmFault>
        requires ready { IsReady statement.now }
        requires text_fits { position.text_bytes ≤ 1048576 }
        requires data_fits { position.data_bytes ≤ 1048576 }
        requires text_inside { length self.old.text.items ≤ position.text_bytes }
        requires data_inside { length self.old.bytes.items ≤ position.data_bytes }
        ensures made { Makes result self.old.text.items self.new.text.items self.old.bytes.items self.new.bytes.items (model.at_line number (model.made_of (layout_view layout.now) position (statement_view statement.now))) }
        ensures next { IfOk result (λ next. next ≡ moved (statement_view statement.now) position) }
        ensures text_fits { IfOk result (λ next. length self.new.text.items ≤ next.text_bytes × next.text_bytes ≤ 1048576) }
        ensures data_fits { IfOk result (λ next. length self.new.bytes.items ≤ next.data_bytes × next.data_bytes ≤ 1048576) }
    {
        let next = position.after(statement);
        match position.part {
            Part::Text => {
                let address = u128::from(TEXT_START) + u128::from(position.text_bytes);
                let instructions = match layout.instructions(address, statement) {
                    Ok(instructions) => instructions,
                    Err(kind) => return Err(AsmFault::At { kind, line: number }),
                };
                if MOST_PART_BYTES < next.text_bytes {
                    return Err(AsmFault::At {
                        kind: AsmKind::OutOfRange,
                        line: number,
                    });
                }
                match push_words(&mut self.text, instructions) {
                    Ok(()) => Ok(next),
                    Err(_) => Err(AsmFault::NoMemory),
                }
            }
            Part::Data => {
                if MOST_PART_BYTES < next.data_bytes {
                    return Err(AsmFault::At {
                        kind: AsmKind::OutOfRange,
                        line: number,
                    });
                }
                match push_data(&mut self.bytes, position.data_bytes, number, statement) {
                    Ok(()) => Ok(next),
                    Err(fault) => Err(fault),
                }
            }
        }
    }
}

/// The statement of a line; lines that are refused have none.
#[tactic(auto, unfolding(crate::specs::Programs::statement_at))]
fn statement_at<'a>(part: Part, line: &'a [u8]) -> Statement<'a>
    ensures value { statement_view result ≡ model.statement_at part line.now }
    ensures ready { IsReady result }
{
    if MOST_LINE_BYTES < line.len() {
        return Statement::Nothing;
    }
    match statement_of(part, parts_of(line).statement) {
        Some(statement) => statement,
        None => Statement::Nothing,
    }
}

/// What the lines of a source make, or the first that is refused for a label or for a number.
pub fn second_reading(
    alloc: Global,
    source: &[u8],
    layout: &Layout<'_>,
) -> Result<Program, AsmFault>
    requires { length (lines_of source.now) ≤ 100000 }
    ensures made { IfOk result (λ program. Grows [] program.text.items [] program.bytes.items (model.make_lines (layout_view layout.now) 1 start (lines_of source.now))) }
    ensures refused { IfErr result (λ fault. Tells fault (model.make_lines (layout_view layout.now) 1 start (lines_of source.now))) }
    ensures text_fits { IfOk result (λ program. length program.text.items ≤ 1048576) }
    ensures data_fits { IfOk result (λ program. length program.bytes.items ≤ 1048576) }
{
    let mut program = Program {
        text: Vec::new(alloc),
        bytes: Vec::new(alloc),
    };
    let mut position = Position::start();
    let mut rest = source;
    let mut number = 1u32;
    while !rest.is_empty() {
        let (line, after) = split_line(rest);
        let statement = statement_at(position.part, line);
        position = match program.add(layout, number, position, &statement) {
            Ok(next) => next,
            Err(fault) => return Err(fault),
        };
        rest = after;
        number += 1;
    }
    Ok(program)
}
