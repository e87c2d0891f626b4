//! A value in two instructions.

ghost use Rattle.std.specs.Prelude.{◌≡◌, ◌<◌, ◌%◌, ◌^◌};
ghost use Rattle.rv_decode.specs.Fits.{Fits, IsSigned};
ghost use Rattle.rv_asm.specs.Statements as model;

use unix_model::{ImmOp, Instr};

/// The two instructions that put a value into a register: `lui` has its upper twenty bits, rounded, and `addi` adds the
/// lower twelve, signed.
#[tactic(auto, unfolding(crate::specs::Statements::halves))]
pub fn halves(rd: u8, value: u32) -> (Instr, Instr)
    requires { rd < 32 }
    ensures value { result ≡ model.halves rd value }
    ensures upper { Fits result.0 }
    ensures lower { Fits result.1 }
{
    (
        Instr::Lui {
            rd,
            imm: upper_part(value),
        },
        Instr::OpImm {
            op: ImmOp::Addi,
            rd,
            rs1: rd,
            imm: lower_part(value),
        },
    )
}

/// The upper twenty bits, rounded.
fn upper_part(value: u32) -> u32
    ensures value { result ≡ model.upper_part value }
    ensures upper { result % 2 ^ 12 ≡ 0 }
{
    ((u64::from(value) + 2048) / 4096 % 1_048_576 * 4096) as u32
}

/// The lower twelve bits, signed.
fn lower_part(value: u32) -> i32
    ensures value { result ≡ model.lower_part value }
    ensures signed { IsSigned 12 result }
{
    let low = (value % 4096) as i32;
    if low < 2048 { low } else { low - 4096 }
}
