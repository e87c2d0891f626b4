//! A word that spells an instruction.

ghost use Rattle.std.specs.Prelude.{◌≡◌, Some};
ghost use Rattle.unix_model.specs.Instructions.{decoded};
ghost use Rattle.rv_decode.specs.Fits.{Fits};

use crate::formats::{format_b, format_i, format_j, format_r, format_s, format_shift, format_u};
use crate::numbers::{branch_number, imm_number, load_number, reg_number, reg_upper, store_number};
use unix_model::{ImmOp, Instr};

/// A word of an operation of a register and an immediate.
#[tactic(auto, unfolding(unix_model::specs::Instructions::decoded))]
fn op_imm(op: ImmOp, rd: u8, rs1: u8, imm: i32) -> u32
    requires { Fits (Instr.OpImm op rd rs1 imm) }
    ensures { decoded result ≡ Some (Instr.OpImm op rd rs1 imm) }
{
    match op {
        ImmOp::Slli | ImmOp::Srli => format_shift(
            0b0010011,
            0b0000000,
            imm_number(op),
            rd,
            rs1,
            imm,
        ),
        ImmOp::Srai => format_shift(0b0010011, 0b0100000, 0b101, rd, rs1, imm),
        _ => format_i(0b0010011, imm_number(op), rd, rs1, imm),
    }
}

/// A word that spells an instruction. FENCE has many; this is the one that orders everything, `0x0FF0_000F`.
#[tactic(auto, unfolding(unix_model::specs::Instructions::decoded))]
pub fn encode(instr: Instr) -> u32
    requires { Fits instr }
    ensures spells { decoded result ≡ Some instr }
    ensures fence { instr ≡ Instr.Fence → result ≡ 0x0FF0_000F }
{
    match instr {
        Instr::Lui { rd, imm } => format_u(0b0110111, rd, imm),
        Instr::Auipc { rd, imm } => format_u(0b0010111, rd, imm),
        Instr::Jal { rd, imm } => format_j(0b1101111, rd, imm),
        Instr::Jalr { rd, rs1, imm } => format_i(0b1100111, 0b000, rd, rs1, imm),
        Instr::Branch { op, rs1, rs2, imm } => {
            format_b(0b1100011, branch_number(op), rs1, rs2, imm)
        }
        Instr::Load { op, rd, rs1, imm } => format_i(0b0000011, load_number(op), rd, rs1, imm),
        Instr::Store { op, rs1, rs2, imm } => format_s(0b0100011, store_number(op), rs1, rs2, imm),
        Instr::OpImm { op, rd, rs1, imm } => op_imm(op, rd, rs1, imm),
        Instr::Op { op, rd, rs1, rs2 } => {
            format_r(0b0110011, reg_upper(op), reg_number(op), rd, rs1, rs2)
        }
        Instr::Fence => 0x0FF0_000F,
        Instr::Ecall => 0x0000_0073,
        Instr::Ebreak => 0x0010_0073,
    }
}
