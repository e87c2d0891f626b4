//! The operations of the opcodes that have several, and the numbers that spell them.

ghost use Rattle.std.specs.Prelude.{◌≡◌, Some};
ghost use Rattle.unix_model.specs.Instructions.{branch_op as branch_op_of, load_op as load_op_of, store_op as store_op_of, imm_op as imm_op_of, reg_op as reg_op_of};

use unix_model::{BranchOp, ImmOp, LoadOp, RegOp, StoreOp};

/// The condition of a branch by its `funct3`.
pub fn branch_op(number: u32) -> Option<BranchOp>
    ensures { result ≡ branch_op_of number }
{
    match number {
        0b000 => Some(BranchOp::Beq),
        0b001 => Some(BranchOp::Bne),
        0b100 => Some(BranchOp::Blt),
        0b101 => Some(BranchOp::Bge),
        0b110 => Some(BranchOp::Bltu),
        0b111 => Some(BranchOp::Bgeu),
        _ => None,
    }
}

/// The kind of a load by its `funct3`.
pub fn load_op(number: u32) -> Option<LoadOp>
    ensures { result ≡ load_op_of number }
{
    match number {
        0b000 => Some(LoadOp::Lb),
        0b001 => Some(LoadOp::Lh),
        0b010 => Some(LoadOp::Lw),
        0b100 => Some(LoadOp::Lbu),
        0b101 => Some(LoadOp::Lhu),
        _ => None,
    }
}

/// The kind of a store by its `funct3`.
pub fn store_op(number: u32) -> Option<StoreOp>
    ensures { result ≡ store_op_of number }
{
    match number {
        0b000 => Some(StoreOp::Sb),
        0b001 => Some(StoreOp::Sh),
        0b010 => Some(StoreOp::Sw),
        _ => None,
    }
}

/// The operation of a register and an immediate by its `funct3` and, for a shift, its `funct7`.
pub fn imm_op(number: u32, upper: u32) -> Option<ImmOp>
    ensures { result ≡ imm_op_of number upper }
{
    match number {
        0b000 => Some(ImmOp::Addi),
        0b001 => match upper {
            0b0000000 => Some(ImmOp::Slli),
            _ => None,
        },
        0b010 => Some(ImmOp::Slti),
        0b011 => Some(ImmOp::Sltiu),
        0b100 => Some(ImmOp::Xori),
        0b101 => match upper {
            0b0000000 => Some(ImmOp::Srli),
            0b0100000 => Some(ImmOp::Srai),
            _ => None,
        },
        0b110 => Some(ImmOp::Ori),
        0b111 => Some(ImmOp::Andi),
        _ => None,
    }
}

/// The operation of two registers by its `funct3` and `funct7`.
pub fn reg_op(number: u32, upper: u32) -> Option<RegOp>
    ensures { result ≡ reg_op_of number upper }
{
    match upper {
        0b0000000 => match number {
            0b000 => Some(RegOp::Add),
            0b001 => Some(RegOp::Sll),
            0b010 => Some(RegOp::Slt),
            0b011 => Some(RegOp::Sltu),
            0b100 => Some(RegOp::Xor),
            0b101 => Some(RegOp::Srl),
            0b110 => Some(RegOp::Or),
            0b111 => Some(RegOp::And),
            _ => None,
        },
        0b0100000 => match number {
            0b000 => Some(RegOp::Sub),
            0b101 => Some(RegOp::Sra),
            _ => None,
        },
        _ => None,
    }
}
