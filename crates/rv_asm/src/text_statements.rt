//! The statements in `.text`, a function for each form of operands.

ghost use Rattle.std.specs.Prelude.{◌≡◌, ◌*◌, ◌<◌, nat_abs, option_map, IfSome};
ghost use Rattle.rv_decode.specs.Fits.{Fits};
ghost use Rattle.rv_asm.specs.Statements as model;
ghost use Rattle.rv_asm.specs.Views.{statement_view, IsReady};

use crate::halves::halves;
use crate::letters::is_label;
use crate::lines::{one_operand, three_operands, two_operands};
use crate::mnemonics::Mnemonic;
use crate::operands::{number, offset_and_base, register};
use crate::ranges::{immediate, signed_12, upper, word};
use crate::statement::Statement;
use unix_model::{BranchOp, ImmOp, Instr, LoadOp, RegOp, StoreOp};

/// `addi x0, x0, 0`, which changes nothing.
const NOP: Instr = Instr::OpImm {
    op: ImmOp::Addi,
    rd: 0,
    rs1: 0,
    imm: 0,
};

/// `jalr x0, 0(ra)`, which returns.
const RET: Instr = Instr::Jalr {
    rd: 0,
    rs1: 1,
    imm: 0,
};

/// What a word in `.text` says of its operands.
#[tactic(auto, unfolding(crate::specs::Statements::text_statement))]
pub fn text_statement<'a>(mnemonic: Mnemonic, text: &'a [u8]) -> Option<Statement<'a>>
    ensures value { option_map statement_view result ≡ model.text_statement mnemonic text.now }
    ensures ready { IfSome result IsReady }
{
    match mnemonic {
        Mnemonic::Lui => lui_statement(text),
        Mnemonic::Auipc => auipc_statement(text),
        Mnemonic::Jal => jal_statement(text),
        Mnemonic::Jalr => jalr_statement(text),
        Mnemonic::Branch(op) => branch_statement(op, text),
        Mnemonic::Load(op) => load_statement(op, text),
        Mnemonic::Store(op) => store_statement(op, text),
        Mnemonic::Imm(op) => imm_statement(op, text),
        Mnemonic::Reg(op) => reg_statement(op, text),
        Mnemonic::Fence => plain_statement(Instr::Fence, text),
        Mnemonic::Ecall => plain_statement(Instr::Ecall, text),
        Mnemonic::Ebreak => plain_statement(Instr::Ebreak, text),
        Mnemonic::Li => li_statement(text),
        Mnemonic::La => la_statement(text),
        Mnemonic::Mv => mv_statement(text),
        Mnemonic::Nop => plain_statement(NOP, text),
        Mnemonic::J => jump_statement(0, text),
        Mnemonic::Call => jump_statement(1, text),
        Mnemonic::Ret => plain_statement(RET, text),
        Mnemonic::Beqz => zero_branch_statement(BranchOp::Beq, text),
        Mnemonic::Bnez => zero_branch_statement(BranchOp::Bne, text),
    }
}

/// The name of a label.
fn label<'a>(text: &'a [u8]) -> Option<&'a [u8]>
    ensures { option_map (λ name. name.now) result ≡ model.label text.now }
{
    if is_label(text) { Some(text) } else { None }
}

/// No operands.
fn plain_statement<'a>(instruction: Instr, text: &'a [u8]) -> Option<Statement<'a>>
    requires { Fits instruction }
    ensures value { option_map statement_view result ≡ model.plain_statement instruction text.now }
    ensures ready { IfSome result IsReady }
{
    match text {
        [] => Some(Statement::Single(Some(instruction))),
        _ => None,
    }
}

/// `rd, rs1, rs2`
#[tactic(auto, unfolding(crate::specs::Statements::reg_statement))]
fn reg_statement<'a>(op: RegOp, text: &'a [u8]) -> Option<Statement<'a>>
    ensures value { option_map statement_view result ≡ model.reg_statement op text.now }
    ensures ready { IfSome result IsReady }
{
    let (rd, rs1, rs2) = three_operands(text)?;
    let rd = register(rd)?;
    let rs1 = register(rs1)?;
    let rs2 = register(rs2)?;
    Some(Statement::Single(Some(Instr::Op { op, rd, rs1, rs2 })))
}

/// `rd, rs1, imm`
#[tactic(auto, unfolding(crate::specs::Statements::imm_statement))]
fn imm_statement<'a>(op: ImmOp, text: &'a [u8]) -> Option<Statement<'a>>
    ensures value { option_map statement_view result ≡ model.imm_statement op text.now }
    ensures ready { IfSome result IsReady }
{
    let (rd, rs1, imm) = three_operands(text)?;
    let rd = register(rd)?;
    let rs1 = register(rs1)?;
    let imm = number(imm)?;
    Some(Statement::Single(op_imm(op, rd, rs1, imm)))
}

/// An operation of a register and a number, where the number fits.
fn op_imm(op: ImmOp, rd: u8, rs1: u8, n: i64) -> Option<Instr>
    requires rd { rd < 32 }
    requires rs1 { rs1 < 32 }
    ensures value { result ≡ model.fitting (model.is_immediate op n) (Instr.OpImm op rd rs1 n) }
    ensures fits { IfSome result Fits }
{
    match immediate(op, n) {
        Some(imm) => Some(Instr::OpImm { op, rd, rs1, imm }),
        None => None,
    }
}

/// `rd, imm(rs1)`
#[tactic(auto, unfolding(crate::specs::Statements::load_statement))]
fn load_statement<'a>(op: LoadOp, text: &'a [u8]) -> Option<Statement<'a>>
    ensures value { option_map statement_view result ≡ model.load_statement op text.now }
    ensures ready { IfSome result IsReady }
{
    let (rd, address) = two_operands(text)?;
    let rd = register(rd)?;
    let (offset, rs1) = offset_and_base(address)?;
    Some(Statement::Single(load(op, rd, rs1, offset)))
}

/// A load, where its offset fits.
fn load(op: LoadOp, rd: u8, rs1: u8, offset: i64) -> Option<Instr>
    requires rd { rd < 32 }
    requires rs1 { rs1 < 32 }
    ensures value { result ≡ model.fitting (model.is_signed_12 offset) (Instr.Load op rd rs1 offset) }
    ensures fits { IfSome result Fits }
{
    match signed_12(offset) {
        Some(imm) => Some(Instr::Load { op, rd, rs1, imm }),
        None => None,
    }
}

/// `rd, imm(rs1)`
#[tactic(auto, unfolding(crate::specs::Statements::jalr_statement))]
fn jalr_statement<'a>(text: &'a [u8]) -> Option<Statement<'a>>
    ensures value { option_map statement_view result ≡ model.jalr_statement text.now }
    ensures ready { IfSome result IsReady }
{
    let (rd, address) = two_operands(text)?;
    let rd = register(rd)?;
    let (offset, rs1) = offset_and_base(address)?;
    Some(Statement::Single(jalr(rd, rs1, offset)))
}

/// A jump to a register and an offset, where the offset fits.
fn jalr(rd: u8, rs1: u8, offset: i64) -> Option<Instr>
    requires rd { rd < 32 }
    requires rs1 { rs1 < 32 }
    ensures value { result ≡ model.fitting (model.is_signed_12 offset) (Instr.Jalr rd rs1 offset) }
    ensures fits { IfSome result Fits }
{
    match signed_12(offset) {
        Some(imm) => Some(Instr::Jalr { rd, rs1, imm }),
        None => None,
    }
}

/// `rs2, imm(rs1)`
#[tactic(auto, unfolding(crate::specs::Statements::store_statement))]
fn store_statement<'a>(op: StoreOp, text: &'a [u8]) -> Option<Statement<'a>>
    ensures value { option_map statement_view result ≡ model.store_statement op text.now }
    ensures ready { IfSome result IsReady }
{
    let (rs2, address) = two_operands(text)?;
    let rs2 = register(rs2)?;
    let (offset, rs1) = offset_and_base(address)?;
    Some(Statement::Single(store(op, rs1, rs2, offset)))
}

/// A store, where its offset fits.
fn store(op: StoreOp, rs1: u8, rs2: u8, offset: i64) -> Option<Instr>
    requires rs1 { rs1 < 32 }
    requires rs2 { rs2 < 32 }
    ensures value { result ≡ model.fitting (model.is_signed_12 offset) (Instr.Store op rs1 rs2 offset) }
    ensures fits { IfSome result Fits }
{
    match signed_12(offset) {
        Some(imm) => Some(Instr::Store { op, rs1, rs2, imm }),
        None => None,
    }
}

/// `rs1, rs2, label`
#[tactic(auto, unfolding(crate::specs::Statements::branch_statement))]
fn branch_statement<'a>(op: BranchOp, text: &'a [u8]) -> Option<Statement<'a>>
    ensures value { option_map statement_view result ≡ model.branch_statement op text.now }
    ensures ready { IfSome result IsReady }
{
    let (rs1, rs2, target) = three_operands(text)?;
    let rs1 = register(rs1)?;
    let rs2 = register(rs2)?;
    let label = label(target)?;
    Some(Statement::Branch {
        op,
        rs1,
        rs2,
        label,
    })
}

/// `rs, label`: a branch that compares with 0.
#[tactic(auto, unfolding(crate::specs::Statements::zero_branch_statement))]
fn zero_branch_statement<'a>(op: BranchOp, text: &'a [u8]) -> Option<Statement<'a>>
    ensures value { option_map statement_view result ≡ model.zero_branch_statement op text.now }
    ensures ready { IfSome result IsReady }
{
    let (rs, target) = two_operands(text)?;
    let rs1 = register(rs)?;
    let label = label(target)?;
    Some(Statement::Branch {
        op,
        rs1,
        rs2: 0,
        label,
    })
}

/// `rd, label`
#[tactic(auto, unfolding(crate::specs::Statements::jal_statement))]
fn jal_statement<'a>(text: &'a [u8]) -> Option<Statement<'a>>
    ensures value { option_map statement_view result ≡ model.jal_statement text.now }
    ensures ready { IfSome result IsReady }
{
    let (rd, target) = two_operands(text)?;
    let rd = register(rd)?;
    let label = label(target)?;
    Some(Statement::Jump { rd, label })
}

/// `rd, label`
#[tactic(auto, unfolding(crate::specs::Statements::la_statement))]
fn la_statement<'a>(text: &'a [u8]) -> Option<Statement<'a>>
    ensures value { option_map statement_view result ≡ model.la_statement text.now }
    ensures ready { IfSome result IsReady }
{
    let (rd, target) = two_operands(text)?;
    let rd = register(rd)?;
    let label = label(target)?;
    Some(Statement::Address { rd, label })
}

/// `label`: a jump that keeps its return address in a register.
#[tactic(auto, unfolding(crate::specs::Statements::jump_statement))]
fn jump_statement<'a>(rd: u8, text: &'a [u8]) -> Option<Statement<'a>>
    requires { rd < 32 }
    ensures value { option_map statement_view result ≡ model.jump_statement rd text.now }
    ensures ready { IfSome result IsReady }
{
    let target = one_operand(text)?;
    let label = label(target)?;
    Some(Statement::Jump { rd, label })
}

/// `rd, imm`
#[tactic(auto, unfolding(crate::specs::Statements::lui_statement))]
fn lui_statement<'a>(text: &'a [u8]) -> Option<Statement<'a>>
    ensures value { option_map statement_view result ≡ model.lui_statement text.now }
    ensures ready { IfSome result IsReady }
{
    let (rd, imm) = two_operands(text)?;
    let rd = register(rd)?;
    let imm = number(imm)?;
    Some(Statement::Single(lui(rd, imm)))
}

/// The upper part of a register, where the number fits.
fn lui(rd: u8, n: i64) -> Option<Instr>
    requires { rd < 32 }
    ensures value { result ≡ model.fitting (model.is_upper n) (Instr.Lui rd (4096 * nat_abs n)) }
    ensures fits { IfSome result Fits }
{
    match upper(n) {
        Some(imm) => Some(Instr::Lui { rd, imm }),
        None => None,
    }
}

/// `rd, imm`
#[tactic(auto, unfolding(crate::specs::Statements::auipc_statement))]
fn auipc_statement<'a>(text: &'a [u8]) -> Option<Statement<'a>>
    ensures value { option_map statement_view result ≡ model.auipc_statement text.now }
    ensures ready { IfSome result IsReady }
{
    let (rd, imm) = two_operands(text)?;
    let rd = register(rd)?;
    let imm = number(imm)?;
    Some(Statement::Single(auipc(rd, imm)))
}

/// The upper part of a register, added to the instruction's address, where the number fits.
fn auipc(rd: u8, n: i64) -> Option<Instr>
    requires { rd < 32 }
    ensures value { result ≡ model.fitting (model.is_upper n) (Instr.Auipc rd (4096 * nat_abs n)) }
    ensures fits { IfSome result Fits }
{
    match upper(n) {
        Some(imm) => Some(Instr::Auipc { rd, imm }),
        None => None,
    }
}

/// `rd, n`
#[tactic(auto, unfolding(crate::specs::Statements::li_statement))]
fn li_statement<'a>(text: &'a [u8]) -> Option<Statement<'a>>
    ensures value { option_map statement_view result ≡ model.li_statement text.now }
    ensures ready { IfSome result IsReady }
{
    let (rd, n) = two_operands(text)?;
    let rd = register(rd)?;
    let n = number(n)?;
    Some(constant(rd, n))
}

/// A number in a register, by one instruction where that is enough.
fn constant<'a>(rd: u8, n: i64) -> Statement<'a>
    requires { rd < 32 }
    ensures value { statement_view result ≡ model.constant rd n }
    ensures ready { IsReady result }
{
    match signed_12(n) {
        Some(imm) => Statement::Single(Some(Instr::OpImm {
            op: ImmOp::Addi,
            rd,
            rs1: 0,
            imm,
        })),
        None => match word(n) {
            Some(value) => Statement::Double(Some(halves(rd, value))),
            None => Statement::Double(None),
        },
    }
}

/// `rd, rs`
#[tactic(auto, unfolding(crate::specs::Statements::mv_statement))]
fn mv_statement<'a>(text: &'a [u8]) -> Option<Statement<'a>>
    ensures value { option_map statement_view result ≡ model.mv_statement text.now }
    ensures ready { IfSome result IsReady }
{
    let (rd, rs) = two_operands(text)?;
    let rd = register(rd)?;
    let rs1 = register(rs)?;
    Some(Statement::Single(Some(Instr::OpImm {
        op: ImmOp::Addi,
        rd,
        rs1,
        imm: 0,
    })))
}
