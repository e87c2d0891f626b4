//! The values of operations (RISC-V Unprivileged ISA, 2.4).

ghost use Rattle.std.specs.Prelude.{◌≡◌};
ghost use Rattle.unix_model.specs.Execution.{reg_value as reg_value_of, imm_value as imm_value_of};

use unix_model::{ImmOp, RegOp};

/// The value of two words; a shift is by the low five bits of the second.
pub fn reg_value(op: RegOp, x: u32, y: u32) -> u32
    ensures { result ≡ reg_value_of op x y }
{
    match op {
        RegOp::Add => x.wrapping_add(y),
        RegOp::Sub => x.wrapping_sub(y),
        RegOp::Sll => x.wrapping_shl(y),
        RegOp::Slt => u32::from(x.cast_signed() < y.cast_signed()),
        RegOp::Sltu => u32::from(x < y),
        RegOp::Xor => x ^ y,
        RegOp::Srl => x.wrapping_shr(y),
        RegOp::Sra => x.cast_signed().wrapping_shr(y).cast_unsigned(),
        RegOp::Or => x | y,
        RegOp::And => x & y,
    }
}

/// The value of a word and an immediate.
pub fn imm_value(op: ImmOp, x: u32, immediate: i32) -> u32
    ensures { result ≡ imm_value_of op x immediate }
{
    let y = immediate.cast_unsigned();
    match op {
        ImmOp::Addi => x.wrapping_add(y),
        ImmOp::Slli => x.wrapping_shl(y),
        ImmOp::Slti => reg_value(RegOp::Slt, x, y),
        ImmOp::Sltiu => u32::from(x < y),
        ImmOp::Xori => x ^ y,
        ImmOp::Srli => x.wrapping_shr(y),
        ImmOp::Srai => x.cast_signed().wrapping_shr(y).cast_unsigned(),
        ImmOp::Ori => x | y,
        ImmOp::Andi => x & y,
    }
}
