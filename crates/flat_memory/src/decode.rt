//! The instructions of words.

ghost use Rattle.std.specs.Prelude.{◌≡◌, ◌<◌, IfSome};
ghost use Rattle.unix_model.specs.Instructions.{decoded, funct3, funct7, branch_op as branch_op_of, load_op as load_op_of, store_op as store_op_of, imm_op as imm_op_of, reg_op as reg_op_of, branch_of, load_of, store_of, op_imm_of, op_of, operand as operand_of, where_zero as where_zero_of, system as system_of, rd_of, rs1_of, rs2_of, immediate_I, immediate_S, immediate_B, immediate_J};
ghost use Rattle.flat_memory.specs.Fields.{HasRegisters};

use unix_model::{BranchOp, ImmOp, Instr, LoadOp, RegOp, StoreOp};

/// The immediate of format I.
fn immediate_i(word: u32) -> i32
    ensures { result ≡ immediate_I word }
{
    let bits = word / 1048576 % 4096;
    if bits < 2048 {
        bits as i32
    } else {
        bits as i32 - 4096
    }
}

/// The immediate of format S.
fn immediate_s(word: u32) -> i32
    ensures { result ≡ immediate_S word }
{
    let bits = word / 33554432 % 128 * 32 + word / 128 % 32;
    if bits < 2048 {
        bits as i32
    } else {
        bits as i32 - 4096
    }
}

/// The immediate of format B.
fn immediate_b(word: u32) -> i32
    ensures { result ≡ immediate_B word }
{
    let upper = word / 2147483648 % 2 * 4096 + word / 128 % 2 * 2048;
    let bits = upper + word / 33554432 % 64 * 32 + word / 256 % 16 * 2;
    if bits < 4096 {
        bits as i32
    } else {
        bits as i32 - 8192
    }
}

/// The immediate of format J.
fn immediate_j(word: u32) -> i32
    ensures { result ≡ immediate_J word }
{
    let upper = word / 2147483648 % 2 * 1048576 + word / 4096 % 256 * 4096;
    let bits = upper + word / 1048576 % 2 * 2048 + word / 2097152 % 1024 * 2;
    if bits < 1048576 {
        bits as i32
    } else {
        bits as i32 - 2097152
    }
}

/// The condition of a branch by its `funct3`.
fn branch_op(number: u32) -> Option<BranchOp>
    ensures { result ≡ branch_op_of number }
{
    match number {
        0 => Some(BranchOp::Beq),
        1 => Some(BranchOp::Bne),
        4 => Some(BranchOp::Blt),
        5 => Some(BranchOp::Bge),
        6 => Some(BranchOp::Bltu),
        7 => Some(BranchOp::Bgeu),
        _ => None,
    }
}

/// The kind of a load by its `funct3`.
fn load_op(number: u32) -> Option<LoadOp>
    ensures { result ≡ load_op_of number }
{
    match number {
        0 => Some(LoadOp::Lb),
        1 => Some(LoadOp::Lh),
        2 => Some(LoadOp::Lw),
        4 => Some(LoadOp::Lbu),
        5 => Some(LoadOp::Lhu),
        _ => None,
    }
}

/// The kind of a store by its `funct3`.
fn store_op(number: u32) -> Option<StoreOp>
    ensures { result ≡ store_op_of number }
{
    match number {
        0 => Some(StoreOp::Sb),
        1 => Some(StoreOp::Sh),
        2 => Some(StoreOp::Sw),
        _ => None,
    }
}

/// The operation of a register and an immediate by its `funct3`, and a shift by its `funct7` too.
fn imm_op(number: u32, upper: u32) -> Option<ImmOp>
    ensures { result ≡ imm_op_of number upper }
{
    match number {
        0 => Some(ImmOp::Addi),
        1 if upper == 0 => Some(ImmOp::Slli),
        2 => Some(ImmOp::Slti),
        3 => Some(ImmOp::Sltiu),
        4 => Some(ImmOp::Xori),
        5 if upper == 0 => Some(ImmOp::Srli),
        5 if upper == 32 => Some(ImmOp::Srai),
        6 => Some(ImmOp::Ori),
        7 => Some(ImmOp::Andi),
        _ => None,
    }
}

/// The operation of two registers by its `funct3` and `funct7`.
fn reg_op(number: u32, upper: u32) -> Option<RegOp>
    ensures { result ≡ reg_op_of number upper }
{
    match number {
        0 if upper == 0 => Some(RegOp::Add),
        0 if upper == 32 => Some(RegOp::Sub),
        1 if upper == 0 => Some(RegOp::Sll),
        2 if upper == 0 => Some(RegOp::Slt),
        3 if upper == 0 => Some(RegOp::Sltu),
        4 if upper == 0 => Some(RegOp::Xor),
        5 if upper == 0 => Some(RegOp::Srl),
        5 if upper == 32 => Some(RegOp::Sra),
        6 if upper == 0 => Some(RegOp::Or),
        7 if upper == 0 => Some(RegOp::And),
        _ => None,
    }
}

/// The immediate of an operation: a shift has the amount in the place of `rs2`.
fn operand(op: ImmOp, word: u32) -> i32
    ensures { result ≡ operand_of op word }
{
    match op {
        ImmOp::Slli | ImmOp::Srli | ImmOp::Srai => (word / 1048576 % 32) as i32,
        _ => immediate_i(word),
    }
}

/// The branch that a word spells.
fn branch(word: u32, rs1: u8, rs2: u8) -> Option<Instr>
    requires rs1_is { rs1 ≡ rs1_of word }
    requires rs2_is { rs2 ≡ rs2_of word }
    ensures table { result ≡ branch_of word (branch_op_of (funct3 word)) }
    ensures registers { IfSome result HasRegisters }
{
    let imm = immediate_b(word);
    match branch_op(word / 4096 % 8) {
        Some(op) => Some(Instr::Branch { op, rs1, rs2, imm }),
        None => None,
    }
}

/// The load that a word spells.
fn load(word: u32, rd: u8, rs1: u8) -> Option<Instr>
    requires rd_is { rd ≡ rd_of word }
    requires rs1_is { rs1 ≡ rs1_of word }
    ensures table { result ≡ load_of word (load_op_of (funct3 word)) }
    ensures registers { IfSome result HasRegisters }
{
    let imm = immediate_i(word);
    match load_op(word / 4096 % 8) {
        Some(op) => Some(Instr::Load { op, rd, rs1, imm }),
        None => None,
    }
}

/// The store that a word spells.
fn store(word: u32, rs1: u8, rs2: u8) -> Option<Instr>
    requires rs1_is { rs1 ≡ rs1_of word }
    requires rs2_is { rs2 ≡ rs2_of word }
    ensures table { result ≡ store_of word (store_op_of (funct3 word)) }
    ensures registers { IfSome result HasRegisters }
{
    let imm = immediate_s(word);
    match store_op(word / 4096 % 8) {
        Some(op) => Some(Instr::Store { op, rs1, rs2, imm }),
        None => None,
    }
}

/// The operation of a register and an immediate that a word spells.
fn op_imm(word: u32, rd: u8, rs1: u8) -> Option<Instr>
    requires rd_is { rd ≡ rd_of word }
    requires rs1_is { rs1 ≡ rs1_of word }
    ensures table { result ≡ op_imm_of word (imm_op_of (funct3 word) (funct7 word)) }
    ensures registers { IfSome result HasRegisters }
{
    match imm_op(word / 4096 % 8, word / 33554432 % 128) {
        Some(op) => Some(Instr::OpImm {
            op,
            rd,
            rs1,
            imm: operand(op, word),
        }),
        None => None,
    }
}

/// The operation of two registers that a word spells.
fn op(word: u32, rd: u8, rs1: u8, rs2: u8) -> Option<Instr>
    requires rd_is { rd ≡ rd_of word }
    requires rs1_is { rs1 ≡ rs1_of word }
    requires rs2_is { rs2 ≡ rs2_of word }
    ensures table { result ≡ op_of word (reg_op_of (funct3 word) (funct7 word)) }
    ensures registers { IfSome result HasRegisters }
{
    match reg_op(word / 4096 % 8, word / 33554432 % 128) {
        Some(op) => Some(Instr::Op { op, rd, rs1, rs2 }),
        None => None,
    }
}

/// The instruction that a word spells where its `funct3` is 0.
fn where_zero(word: u32, instr: Instr) -> Option<Instr>
    requires { HasRegisters instr }
    ensures table { result ≡ where_zero_of (funct3 word) instr }
    ensures registers { IfSome result HasRegisters }
{
    if word / 4096 % 8 == 0 {
        Some(instr)
    } else {
        None
    }
}

/// The instruction that a word spells, or None where it spells none.
#[tactic(auto, unfolding(unix_model::specs::Instructions::decoded))]
pub fn decode(word: u32) -> Option<Instr>
    ensures table { result ≡ decoded word }
    ensures registers { IfSome result HasRegisters }
{
    let rd = (word / 128 % 32) as u8;
    let rs1 = (word / 32768 % 32) as u8;
    let rs2 = (word / 1048576 % 32) as u8;
    match word % 128 {
        0b0110111 => Some(Instr::Lui {
            rd,
            imm: word / 4096 % 1048576 * 4096,
        }),
        0b0010111 => Some(Instr::Auipc {
            rd,
            imm: word / 4096 % 1048576 * 4096,
        }),
        0b1101111 => Some(Instr::Jal {
            rd,
            imm: immediate_j(word),
        }),
        0b1100111 => {
            let imm = immediate_i(word);
            where_zero(word, Instr::Jalr { rd, rs1, imm })
        }
        0b1100011 => branch(word, rs1, rs2),
        0b0000011 => load(word, rd, rs1),
        0b0100011 => store(word, rs1, rs2),
        0b0010011 => op_imm(word, rd, rs1),
        0b0110011 => op(word, rd, rs1, rs2),
        0b0001111 => where_zero(word, Instr::Fence),
        0b1110011 => system(word),
        _ => None,
    }
}

/// The call of the environment or the breakpoint that a word spells.
fn system(word: u32) -> Option<Instr>
    ensures table { result ≡ system_of word }
    ensures registers { IfSome result HasRegisters }
{
    if word == 0x0000_0073 {
        Some(Instr::Ecall)
    } else if word == 0x0010_0073 {
        Some(Instr::Ebreak)
    } else {
        None
    }
}
