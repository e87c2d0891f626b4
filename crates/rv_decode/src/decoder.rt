//! The instruction that a word spells.

ghost use Rattle.std.specs.Prelude.{◌≡◌, IfSome};
ghost use Rattle.unix_model.specs.Instructions.{decoded, funct3 as funct3_of, funct7 as funct7_of, branch_of, load_of, store_of, op_imm_of, op_of, where_zero, rd_of, rs1_of, immediate_I, operand as operand_of, system as system_of, branch_op as branch_op_of, load_op as load_op_of, store_op as store_op_of, imm_op as imm_op_of, reg_op as reg_op_of};
ghost use Rattle.rv_decode.specs.Fits.{Fits, IsOperand};

use crate::fields::{
    amount, funct3, funct7, immediate_b, immediate_i, immediate_j, immediate_s, immediate_u,
    opcode, rd, rs1, rs2,
};
use crate::operations::{branch_op, imm_op, load_op, reg_op, store_op};
use unix_model::{ImmOp, Instr};

/// The branch that a word spells.
fn branch(word: u32) -> Option<Instr>
    ensures table { result ≡ branch_of word (branch_op_of (funct3_of word)) }
    ensures fits { IfSome result Fits }
{
    match branch_op(funct3(word)) {
        Some(op) => Some(Instr::Branch {
            op,
            rs1: rs1(word),
            rs2: rs2(word),
            imm: immediate_b(word),
        }),
        None => None,
    }
}

/// The load that a word spells.
fn load(word: u32) -> Option<Instr>
    ensures table { result ≡ load_of word (load_op_of (funct3_of word)) }
    ensures fits { IfSome result Fits }
{
    match load_op(funct3(word)) {
        Some(op) => Some(Instr::Load {
            op,
            rd: rd(word),
            rs1: rs1(word),
            imm: immediate_i(word),
        }),
        None => None,
    }
}

/// The store that a word spells.
fn store(word: u32) -> Option<Instr>
    ensures table { result ≡ store_of word (store_op_of (funct3_of word)) }
    ensures fits { IfSome result Fits }
{
    match store_op(funct3(word)) {
        Some(op) => Some(Instr::Store {
            op,
            rs1: rs1(word),
            rs2: rs2(word),
            imm: immediate_s(word),
        }),
        None => None,
    }
}

/// The immediate of an operation.
fn operand(op: ImmOp, word: u32) -> i32
    ensures value { result ≡ operand_of op word }
    ensures range { IsOperand op result }
{
    match op {
        ImmOp::Slli | ImmOp::Srli | ImmOp::Srai => amount(word),
        _ => immediate_i(word),
    }
}

/// The operation of a register and an immediate that a word spells.
fn op_imm(word: u32) -> Option<Instr>
    ensures table { result ≡ op_imm_of word (imm_op_of (funct3_of word) (funct7_of word)) }
    ensures fits { IfSome result Fits }
{
    match imm_op(funct3(word), funct7(word)) {
        Some(op) => Some(Instr::OpImm {
            op,
            rd: rd(word),
            rs1: rs1(word),
            imm: operand(op, word),
        }),
        None => None,
    }
}

/// The operation of two registers that a word spells.
fn op(word: u32) -> Option<Instr>
    ensures table { result ≡ op_of word (reg_op_of (funct3_of word) (funct7_of word)) }
    ensures fits { IfSome result Fits }
{
    match reg_op(funct3(word), funct7(word)) {
        Some(op) => Some(Instr::Op {
            op,
            rd: rd(word),
            rs1: rs1(word),
            rs2: rs2(word),
        }),
        None => None,
    }
}

/// The call of the environment or the breakpoint that a word spells.
fn system(word: u32) -> Option<Instr>
    ensures table { result ≡ system_of word }
    ensures fits { IfSome result Fits }
{
    match word {
        0x0000_0073 => Some(Instr::Ecall),
        0x0010_0073 => Some(Instr::Ebreak),
        _ => None,
    }
}

/// The jump through a register that a word spells.
fn jalr(word: u32) -> Option<Instr>
    ensures table { result ≡ where_zero (funct3_of word) (Instr.Jalr (rd_of word) (rs1_of word) (immediate_I word)) }
    ensures fits { IfSome result Fits }
{
    match funct3(word) {
        0 => Some(Instr::Jalr {
            rd: rd(word),
            rs1: rs1(word),
            imm: immediate_i(word),
        }),
        _ => None,
    }
}

/// The instruction that a word spells, or None where it spells none (RISC-V Unprivileged ISA, the listing of RV32I).
#[tactic(auto, unfolding(unix_model::specs::Instructions::decoded))]
pub fn decode(word: u32) -> Option<Instr>
    ensures table { result ≡ decoded word }
    ensures fits { IfSome result Fits }
{
    match opcode(word) {
        0b0110111 => Some(Instr::Lui {
            rd: rd(word),
            imm: immediate_u(word),
        }),
        0b0010111 => Some(Instr::Auipc {
            rd: rd(word),
            imm: immediate_u(word),
        }),
        0b1101111 => Some(Instr::Jal {
            rd: rd(word),
            imm: immediate_j(word),
        }),
        0b1100111 => jalr(word),
        0b1100011 => branch(word),
        0b0000011 => load(word),
        0b0100011 => store(word),
        0b0010011 => op_imm(word),
        0b0110011 => op(word),
        0b0001111 => match funct3(word) {
            0 => Some(Instr::Fence),
            _ => None,
        },
        0b1110011 => system(word),
        _ => None,
    }
}
