//! Whether an instruction has a word.

ghost use Rattle.std.specs.Prelude.{◌≡◌, ◌<◌, ◌↔◌, IsTrue};
ghost use Rattle.rv_decode.specs.Fits.{Fits, IsAmount, IsEven, IsOperand, IsRegister, IsSigned, IsUpper};

use unix_model::{ImmOp, Instr};

/// Whether twelve bits spell a number.
fn is_signed_12(imm: i32) -> bool
    ensures { IsTrue result ↔ IsSigned 12 imm }
{
    -2048 <= imm && imm < 2048
}

/// Whether thirteen bits spell a number.
fn is_signed_13(imm: i32) -> bool
    ensures { IsTrue result ↔ IsSigned 13 imm }
{
    -4096 <= imm && imm < 4096
}

/// Whether twenty-one bits spell a number.
fn is_signed_21(imm: i32) -> bool
    ensures { IsTrue result ↔ IsSigned 21 imm }
{
    -1048576 <= imm && imm < 1048576
}

/// Whether a number is even.
fn is_even(imm: i32) -> bool
    ensures { IsTrue result ↔ IsEven imm }
{
    imm.cast_unsigned() % 2 == 0
}

/// Whether a number is the amount of a shift.
fn is_amount(imm: i32) -> bool
    ensures { IsTrue result ↔ IsAmount imm }
{
    0 <= imm && imm < 32
}

/// Whether a number is the immediate of an operation.
fn is_operand(op: ImmOp, imm: i32) -> bool
    ensures { IsTrue result ↔ IsOperand op imm }
{
    match op {
        ImmOp::Slli | ImmOp::Srli | ImmOp::Srai => is_amount(imm),
        _ => is_signed_12(imm),
    }
}

/// Whether a register has this number.
fn is_register(number: u8) -> bool
    ensures { IsTrue result ↔ IsRegister number }
{
    number < 32
}

/// Whether the lowest twelve bits are 0.
fn is_upper(imm: u32) -> bool
    ensures { IsTrue result ↔ IsUpper imm }
{
    imm % 4096 == 0
}

/// Whether a word spells the instruction: register numbers are below 32, and immediates in the range of their format.
pub fn fits(instr: Instr) -> bool
    ensures { IsTrue result ↔ Fits instr }
{
    match instr {
        Instr::Lui { rd, imm } => is_register(rd) && is_upper(imm),
        Instr::Auipc { rd, imm } => is_register(rd) && is_upper(imm),
        Instr::Jal { rd, imm } => is_register(rd) && is_signed_21(imm) && is_even(imm),
        Instr::Jalr { rd, rs1, imm } => is_register(rd) && is_register(rs1) && is_signed_12(imm),
        Instr::Branch {
            op: _,
            rs1,
            rs2,
            imm,
        } => is_register(rs1) && is_register(rs2) && is_signed_13(imm) && is_even(imm),
        Instr::Load {
            op: _,
            rd,
            rs1,
            imm,
        } => is_register(rd) && is_register(rs1) && is_signed_12(imm),
        Instr::Store {
            op: _,
            rs1,
            rs2,
            imm,
        } => is_register(rs1) && is_register(rs2) && is_signed_12(imm),
        Instr::OpImm { op, rd, rs1, imm } => {
            is_register(rd) && is_register(rs1) && is_operand(op, imm)
        }
        Instr::Op {
            op: _,
            rd,
            rs1,
            rs2,
        } => is_register(rd) && is_register(rs1) && is_register(rs2),
        Instr::Fence | Instr::Ecall | Instr::Ebreak => true,
    }
}
