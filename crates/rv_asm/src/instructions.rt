//! The instructions of a statement, once labels have addresses.

ghost use Rattle.std.specs.Prelude.{◌≡◌, ◌<◌, ◌≤◌, ◌^◌, ℤ, pos, option_map, IfSome, IfOk};
ghost use Rattle.rv_decode.specs.Fits.{IsEven, IsSigned};
ghost use Rattle.rv_asm.specs.Answers.{AreReady, instructions_view, layout_view, places_of, result_view};
ghost use Rattle.rv_asm.specs.Programs as model;
ghost use Rattle.rv_asm.specs.Statements as statements;
ghost use Rattle.rv_asm.specs.Statements.{fitting};
ghost use Rattle.rv_asm.specs.Views.{IsReady, statement_view};

use crate::fault::AsmKind;
use crate::halves::halves;
use crate::labels::Labels;
use crate::layout::address_of;
use crate::statement::Statement;
use unix_model::{BranchOp, Instr};

/// Where labels stand, and how many bytes the text has.
#[derive(Drop)]
pub struct Layout<'a> {
    pub labels: Labels<'a>,
    pub text_bytes: u64,
}

/// The instructions of one statement.
#[derive(Clone, Copy)]
pub enum Instructions {
    NoneOf,
    One(Instr),
    Two(Instr, Instr),
}

/// How far a target is from an instruction.
fn distance_between(address: u128, target: u128) -> i128
    requires address_fits { address ≤ 2 ^ 66 }
    requires target_fits { target ≤ 2 ^ 66 }
    ensures { result ≡ model.distance address target }
{
    target as i128 - address as i128
}

/// An even distance that a jump reaches.
fn jump_distance(distance: i128) -> Option<i32>
    ensures value { result ≡ fitting (model.reaches 1048576 distance) distance }
    ensures fits { IfSome result (λ reached. IsSigned 21 reached × IsEven reached) }
{
    if -1048576 <= distance && distance < 1048576 && distance.unsigned_abs() % 2 == 0 {
        Some(distance as i32)
    } else {
        None
    }
}

/// An even distance that a branch reaches.
fn branch_distance(distance: i128) -> Option<i32>
    ensures value { result ≡ fitting (model.reaches 4096 distance) distance }
    ensures fits { IfSome result (λ reached. IsSigned 13 reached × IsEven reached) }
{
    if -4096 <= distance && distance < 4096 && distance.unsigned_abs() % 2 == 0 {
        Some(distance as i32)
    } else {
        None
    }
}

impl<'a> Layout<'a> {
    /// The address of a label.
    fn target(&self, label: &[u8]) -> Result<u128, AsmKind>
        ensures address { result_view (λ address. address) result ≡ model.target_of (layout_view self.now) label.now }
        ensures bound { IfOk result (λ address. address ≤ 2 ^ 66) }
    {
        match self.labels.place(label) {
            Some(place) => Ok(address_of(place, self.text_bytes)),
            None => Err(AsmKind::UnknownLabel),
        }
    }
}

impl<'a> Layout<'a> {
    /// The instructions of a statement at an address.
    #[tactic(auto, unfolding(crate::specs::Programs::instructions_of))]
    pub fn instructions(
        &self,
        address: u128,
        statement: &Statement<'_>,
    ) -> Result<Instructions, AsmKind>
        requires ready { IsReady statement.now }
        requires address_fits { address ≤ 2 ^ 66 }
        ensures value { result_view instructions_view result ≡ model.instructions_of (layout_view self.now) address (statement_view statement.now) }
        ensures ready { IfOk result AreReady }
    {
        match *statement {
            Statement::Single(Some(only)) => Ok(Instructions::One(only)),
            Statement::Double(Some((first, second))) => Ok(Instructions::Two(first, second)),
            Statement::Single(None) | Statement::Double(None) => Err(AsmKind::OutOfRange),
            Statement::Jump { rd, label } => self.jump(address, rd, label),
            Statement::Branch {
                op,
                rs1,
                rs2,
                label,
            } => self.branch(address, op, rs1, rs2, label),
            Statement::Address { rd, label } => self.address(rd, label),
            _ => Ok(Instructions::NoneOf),
        }
    }

    /// A jump to a label.
    #[tactic(auto, unfolding(crate::specs::Programs::instructions_of))]
    fn jump(&self, address: u128, rd: u8, label: &[u8]) -> Result<Instructions, AsmKind>
        requires register { rd < 32 }
        requires address_fits { address ≤ 2 ^ 66 }
        ensures value { result_view instructions_view result ≡ model.instructions_of (layout_view self.now) address (statements.Jump rd label.now) }
        ensures ready { IfOk result AreReady }
    {
        let target = match self.target(label) {
            Ok(target) => target,
            Err(kind) => return Err(kind),
        };
        match jump_distance(distance_between(address, target)) {
            Some(imm) => Ok(Instructions::One(Instr::Jal { rd, imm })),
            None => Err(AsmKind::OutOfRange),
        }
    }

    /// A branch to a label.
    #[tactic(auto, unfolding(crate::specs::Programs::instructions_of))]
    fn branch(
        &self,
        address: u128,
        op: BranchOp,
        rs1: u8,
        rs2: u8,
        label: &[u8],
    ) -> Result<Instructions, AsmKind>
        requires first { rs1 < 32 }
        requires second { rs2 < 32 }
        requires address_fits { address ≤ 2 ^ 66 }
        ensures value { result_view instructions_view result ≡ model.instructions_of (layout_view self.now) address (statements.Branch op rs1 rs2 label.now) }
        ensures ready { IfOk result AreReady }
    {
        let target = match self.target(label) {
            Ok(target) => target,
            Err(kind) => return Err(kind),
        };
        match branch_distance(distance_between(address, target)) {
            Some(imm) => Ok(Instructions::One(Instr::Branch { op, rs1, rs2, imm })),
            None => Err(AsmKind::OutOfRange),
        }
    }

    /// A label's address, in two instructions.
    #[tactic(auto, unfolding(crate::specs::Programs::instructions_of))]
    fn address(&self, rd: u8, label: &[u8]) -> Result<Instructions, AsmKind>
        requires { rd < 32 }
        ensures value { result_view instructions_view result ≡ model.instructions_of (layout_view self.now) 0 (statements.Address rd label.now) }
        ensures ready { IfOk result AreReady }
    {
        match self.target(label) {
            Ok(target) => {
                let (upper, lower) = halves(rd, (target % 4294967296) as u32);
                Ok(Instructions::Two(upper, lower))
            }
            Err(kind) => Err(kind),
        }
    }
}
