//! The numbers that spell the operations.

ghost use Rattle.std.specs.Prelude.{◌≡◌, Some};
ghost use Rattle.unix_model.specs.Instructions.{branch_op, load_op, store_op};
ghost use Rattle.rv_decode.specs.Numbers.{branch_number as branch_number_of, load_number as load_number_of, store_number as store_number_of, imm_number as imm_number_of, reg_number as reg_number_of, reg_upper as reg_upper_of};

use unix_model::{BranchOp, ImmOp, LoadOp, RegOp, StoreOp};

/// The `funct3` of a branch.
pub fn branch_number(op: BranchOp) -> u32
    ensures number { result ≡ branch_number_of op }
    ensures operation { branch_op result ≡ Some op }
{
    match op {
        BranchOp::Beq => 0b000,
        BranchOp::Bne => 0b001,
        BranchOp::Blt => 0b100,
        BranchOp::Bge => 0b101,
        BranchOp::Bltu => 0b110,
        BranchOp::Bgeu => 0b111,
    }
}

/// The `funct3` of a load.
pub fn load_number(op: LoadOp) -> u32
    ensures number { result ≡ load_number_of op }
    ensures operation { load_op result ≡ Some op }
{
    match op {
        LoadOp::Lb => 0b000,
        LoadOp::Lh => 0b001,
        LoadOp::Lw => 0b010,
        LoadOp::Lbu => 0b100,
        LoadOp::Lhu => 0b101,
    }
}

/// The `funct3` of a store.
pub fn store_number(op: StoreOp) -> u32
    ensures number { result ≡ store_number_of op }
    ensures operation { store_op result ≡ Some op }
{
    match op {
        StoreOp::Sb => 0b000,
        StoreOp::Sh => 0b001,
        StoreOp::Sw => 0b010,
    }
}

/// The `funct3` of an operation of a register and an immediate.
pub fn imm_number(op: ImmOp) -> u32
    ensures { result ≡ imm_number_of op }
{
    match op {
        ImmOp::Addi => 0b000,
        ImmOp::Slli => 0b001,
        ImmOp::Slti => 0b010,
        ImmOp::Sltiu => 0b011,
        ImmOp::Xori => 0b100,
        ImmOp::Srli | ImmOp::Srai => 0b101,
        ImmOp::Ori => 0b110,
        ImmOp::Andi => 0b111,
    }
}

/// The `funct3` of an operation of two registers.
pub fn reg_number(op: RegOp) -> u32
    ensures { result ≡ reg_number_of op }
{
    match op {
        RegOp::Add | RegOp::Sub => 0b000,
        RegOp::Sll => 0b001,
        RegOp::Slt => 0b010,
        RegOp::Sltu => 0b011,
        RegOp::Xor => 0b100,
        RegOp::Srl | RegOp::Sra => 0b101,
        RegOp::Or => 0b110,
        RegOp::And => 0b111,
    }
}

/// The `funct7` of an operation of two registers.
pub fn reg_upper(op: RegOp) -> u32
    ensures { result ≡ reg_upper_of op }
{
    match op {
        RegOp::Sub | RegOp::Sra => 0b0100000,
        _ => 0b0000000,
    }
}
