//! Words against the GNU assembler's.
//!
//! Each word is what `riscv64-unknown-elf-as -march=rv32i -mabi=ilp32` of GNU binutils 2.40 and `riscv64-unknown-elf-ld
//! -melf32lriscv --no-relax` make of the statement that the rest of its line is (`lui x1, 74565`, `beq x1, x2, . + 16`,
//! `sw x10, 4(x2)` and so on). The words outside are statements of other extensions, assembled with
//! `-march=rv32imaf_zicsr_zifencei`, and `.insn` statements with a changed field.

use rv_decode::BranchOp::{Beq, Bge, Bgeu, Blt, Bltu, Bne};
use rv_decode::ImmOp::{Addi, Andi, Ori, Slli, Slti, Sltiu, Srai, Srli, Xori};
use rv_decode::LoadOp::{Lb, Lbu, Lh, Lhu, Lw};
use rv_decode::RegOp::{Add, And, Or, Sll, Slt, Sltu, Sra, Srl, Sub, Xor};
use rv_decode::StoreOp::{Sb, Sh, Sw};
use rv_decode::{BranchOp, ImmOp, Instr, LoadOp, RegOp, StoreOp, decode, encode, fits};

/// An instruction, so written that it fits into a row of a table.
#[derive(Clone, Copy)]
enum Row {
    /// rd, imm.
    Lui(u8, u32),
    /// rd, imm.
    Auipc(u8, u32),
    /// rd, imm.
    Jal(u8, i32),
    /// rd, rs1, imm.
    Jalr(u8, u8, i32),
    /// op, rs1, rs2, imm.
    Branch(BranchOp, u8, u8, i32),
    /// op, rd, rs1, imm.
    Load(LoadOp, u8, u8, i32),
    /// op, rs1, rs2, imm.
    Store(StoreOp, u8, u8, i32),
    /// op, rd, rs1, imm.
    OpImm(ImmOp, u8, u8, i32),
    /// op, rd, rs1, rs2.
    Op(RegOp, u8, u8, u8),
    Fence,
    Ecall,
    Ebreak,
}

use Row::{Auipc, Branch, Ebreak, Ecall, Fence, Jal, Jalr, Load, Lui, Op, OpImm, Store};

/// Words, and what each spells.
const WORDS: &[(u32, Row)] = &[
    (0x1234_50B7, Lui(1, 0x1234_5000)),
    (0x0000_0037, Lui(0, 0x0000_0000)),
    (0xFFFF_FFB7, Lui(31, 0xFFFF_F000)),
    (0x8000_08B7, Lui(17, 0x8000_0000)),
    (0x0000_1537, Lui(10, 0x0000_1000)),
    (0x1234_5097, Auipc(1, 0x1234_5000)),
    (0x0000_0017, Auipc(0, 0x0000_0000)),
    (0xFFFF_FF97, Auipc(31, 0xFFFF_F000)),
    (0x8000_0897, Auipc(17, 0x8000_0000)),
    (0x0000_1517, Auipc(10, 0x0000_1000)),
    (0x0080_00EF, Jal(1, 8)),
    (0x8000_006F, Jal(0, -1048576)),
    (0x7FFF_FFEF, Jal(31, 1048574)),
    (0xFFFF_F2EF, Jal(5, -2)),
    (0x0010_056F, Jal(10, 2048)),
    (0x0000_14EF, Jal(9, 4096)),
    (0x8008_066F, Jal(12, -524288)),
    (0x0001_00E7, Jalr(1, 2, 0)),
    (0x0000_8067, Jalr(0, 1, 0)),
    (0x7FFF_0FE7, Jalr(31, 30, 2047)),
    (0x8003_02E7, Jalr(5, 6, -2048)),
    (0xFFF3_83E7, Jalr(7, 7, -1)),
    (0x0020_8863, Branch(Beq, 1, 2, 16)),
    (0x800F_8063, Branch(Beq, 31, 0, -4096)),
    (0x7FF0_0FE3, Branch(Beq, 0, 31, 4094)),
    (0x0020_9863, Branch(Bne, 1, 2, 16)),
    (0x800F_9063, Branch(Bne, 31, 0, -4096)),
    (0x7FF0_1FE3, Branch(Bne, 0, 31, 4094)),
    (0x0020_C863, Branch(Blt, 1, 2, 16)),
    (0x800F_C063, Branch(Blt, 31, 0, -4096)),
    (0x7FF0_4FE3, Branch(Blt, 0, 31, 4094)),
    (0x0020_D863, Branch(Bge, 1, 2, 16)),
    (0x800F_D063, Branch(Bge, 31, 0, -4096)),
    (0x7FF0_5FE3, Branch(Bge, 0, 31, 4094)),
    (0x0020_E863, Branch(Bltu, 1, 2, 16)),
    (0x800F_E063, Branch(Bltu, 31, 0, -4096)),
    (0x7FF0_6FE3, Branch(Bltu, 0, 31, 4094)),
    (0x0020_F863, Branch(Bgeu, 1, 2, 16)),
    (0x800F_F063, Branch(Bgeu, 31, 0, -4096)),
    (0x7FF0_7FE3, Branch(Bgeu, 0, 31, 4094)),
    (0xFE41_8FE3, Branch(Beq, 3, 4, -2)),
    (0x0062_90E3, Branch(Bne, 5, 6, 2048)),
    (0x4083_C063, Branch(Blt, 7, 8, 1024)),
    (0x00A4_DF63, Branch(Bge, 9, 10, 30)),
    (0x0041_0503, Load(Lb, 10, 2, 4)),
    (0x8000_0F83, Load(Lb, 31, 0, -2048)),
    (0x7FFF_8003, Load(Lb, 0, 31, 2047)),
    (0x0041_1503, Load(Lh, 10, 2, 4)),
    (0x8000_1F83, Load(Lh, 31, 0, -2048)),
    (0x7FFF_9003, Load(Lh, 0, 31, 2047)),
    (0x0041_2503, Load(Lw, 10, 2, 4)),
    (0x8000_2F83, Load(Lw, 31, 0, -2048)),
    (0x7FFF_A003, Load(Lw, 0, 31, 2047)),
    (0x0041_4503, Load(Lbu, 10, 2, 4)),
    (0x8000_4F83, Load(Lbu, 31, 0, -2048)),
    (0x7FFF_C003, Load(Lbu, 0, 31, 2047)),
    (0x0041_5503, Load(Lhu, 10, 2, 4)),
    (0x8000_5F83, Load(Lhu, 31, 0, -2048)),
    (0x7FFF_D003, Load(Lhu, 0, 31, 2047)),
    (0x00A1_0223, Store(Sb, 2, 10, 4)),
    (0x800F_8023, Store(Sb, 31, 0, -2048)),
    (0x7FF0_0FA3, Store(Sb, 0, 31, 2047)),
    (0xFE62_8FA3, Store(Sb, 5, 6, -1)),
    (0x0083_8FA3, Store(Sb, 7, 8, 31)),
    (0x02B4_8023, Store(Sb, 9, 11, 32)),
    (0x00A1_1223, Store(Sh, 2, 10, 4)),
    (0x800F_9023, Store(Sh, 31, 0, -2048)),
    (0x7FF0_1FA3, Store(Sh, 0, 31, 2047)),
    (0xFE62_9FA3, Store(Sh, 5, 6, -1)),
    (0x0083_9FA3, Store(Sh, 7, 8, 31)),
    (0x02B4_9023, Store(Sh, 9, 11, 32)),
    (0x00A1_2223, Store(Sw, 2, 10, 4)),
    (0x800F_A023, Store(Sw, 31, 0, -2048)),
    (0x7FF0_2FA3, Store(Sw, 0, 31, 2047)),
    (0xFE62_AFA3, Store(Sw, 5, 6, -1)),
    (0x0083_AFA3, Store(Sw, 7, 8, 31)),
    (0x02B4_A023, Store(Sw, 9, 11, 32)),
    (0x0015_8513, OpImm(Addi, 10, 11, 1)),
    (0x8000_0F93, OpImm(Addi, 31, 0, -2048)),
    (0x7FFF_8013, OpImm(Addi, 0, 31, 2047)),
    (0x0015_A513, OpImm(Slti, 10, 11, 1)),
    (0x8000_2F93, OpImm(Slti, 31, 0, -2048)),
    (0x7FFF_A013, OpImm(Slti, 0, 31, 2047)),
    (0x0015_B513, OpImm(Sltiu, 10, 11, 1)),
    (0x8000_3F93, OpImm(Sltiu, 31, 0, -2048)),
    (0x7FFF_B013, OpImm(Sltiu, 0, 31, 2047)),
    (0x0015_C513, OpImm(Xori, 10, 11, 1)),
    (0x8000_4F93, OpImm(Xori, 31, 0, -2048)),
    (0x7FFF_C013, OpImm(Xori, 0, 31, 2047)),
    (0x0015_E513, OpImm(Ori, 10, 11, 1)),
    (0x8000_6F93, OpImm(Ori, 31, 0, -2048)),
    (0x7FFF_E013, OpImm(Ori, 0, 31, 2047)),
    (0x0015_F513, OpImm(Andi, 10, 11, 1)),
    (0x8000_7F93, OpImm(Andi, 31, 0, -2048)),
    (0x7FFF_F013, OpImm(Andi, 0, 31, 2047)),
    (0xFFF2_8293, OpImm(Addi, 5, 5, -1)),
    (0x0015_9513, OpImm(Slli, 10, 11, 1)),
    (0x0000_1F93, OpImm(Slli, 31, 0, 0)),
    (0x01FF_9013, OpImm(Slli, 0, 31, 31)),
    (0x0015_D513, OpImm(Srli, 10, 11, 1)),
    (0x0000_5F93, OpImm(Srli, 31, 0, 0)),
    (0x01FF_D013, OpImm(Srli, 0, 31, 31)),
    (0x4015_D513, OpImm(Srai, 10, 11, 1)),
    (0x4000_5F93, OpImm(Srai, 31, 0, 0)),
    (0x41FF_D013, OpImm(Srai, 0, 31, 31)),
    (0x0031_00B3, Op(Add, 1, 2, 3)),
    (0x0100_0FB3, Op(Add, 31, 0, 16)),
    (0x008F_8033, Op(Add, 0, 31, 8)),
    (0x4031_00B3, Op(Sub, 1, 2, 3)),
    (0x4100_0FB3, Op(Sub, 31, 0, 16)),
    (0x408F_8033, Op(Sub, 0, 31, 8)),
    (0x0031_10B3, Op(Sll, 1, 2, 3)),
    (0x0100_1FB3, Op(Sll, 31, 0, 16)),
    (0x008F_9033, Op(Sll, 0, 31, 8)),
    (0x0031_20B3, Op(Slt, 1, 2, 3)),
    (0x0100_2FB3, Op(Slt, 31, 0, 16)),
    (0x008F_A033, Op(Slt, 0, 31, 8)),
    (0x0031_30B3, Op(Sltu, 1, 2, 3)),
    (0x0100_3FB3, Op(Sltu, 31, 0, 16)),
    (0x008F_B033, Op(Sltu, 0, 31, 8)),
    (0x0031_40B3, Op(Xor, 1, 2, 3)),
    (0x0100_4FB3, Op(Xor, 31, 0, 16)),
    (0x008F_C033, Op(Xor, 0, 31, 8)),
    (0x0031_50B3, Op(Srl, 1, 2, 3)),
    (0x0100_5FB3, Op(Srl, 31, 0, 16)),
    (0x008F_D033, Op(Srl, 0, 31, 8)),
    (0x4031_50B3, Op(Sra, 1, 2, 3)),
    (0x4100_5FB3, Op(Sra, 31, 0, 16)),
    (0x408F_D033, Op(Sra, 0, 31, 8)),
    (0x0031_60B3, Op(Or, 1, 2, 3)),
    (0x0100_6FB3, Op(Or, 31, 0, 16)),
    (0x008F_E033, Op(Or, 0, 31, 8)),
    (0x0031_70B3, Op(And, 1, 2, 3)),
    (0x0100_7FB3, Op(And, 31, 0, 16)),
    (0x008F_F033, Op(And, 0, 31, 8)),
    (0x0FF0_000F, Fence),
    (0x0000_0073, Ecall),
    (0x0010_0073, Ebreak),
];

/// The full fence, `fence r, w`, `fence.tso`, `fence rw, rw`, `fence io, iorw`, and one with every free bit set.
const FENCES: &[u32] = &[
    0x0FF0_000F,
    0x0210_000F,
    0x8330_000F,
    0x0330_000F,
    0x0CF0_000F,
    0xFFFF_8F8F,
];

/// Words of no instruction here.
const OUTSIDE: &[u32] = &[
    0x0231_00B3, // mul x1, x2, x3
    0x0231_30B3, // mulhu x1, x2, x3
    0x0231_40B3, // div x1, x2, x3
    0x0231_70B3, // remu x1, x2, x3
    0x0000_100F, // fence.i
    0x3001_10F3, // csrrw x1, mstatus, x2
    0xC000_20F3, // csrrs x1, cycle, x0
    0x3000_D073, // csrrwi x0, mstatus, 1
    0x3020_0073, // mret
    0x1050_0073, // wfi
    0x1001_20AF, // lr.w x1, (x2)
    0x0021_A0AF, // amoadd.w x1, x2, (x3)
    0x0001_2087, // flw f1, 0(x2)
    0x0011_2027, // fsw f1, 0(x2)
    0x0031_70D3, // fadd.s f1, f2, f3
    0x0000_0000, // .word 0
    0xFFFF_FFFF, // .word 0xFFFFFFFF
    0x0431_00B3, // .insn r 0x33, 0, 2, x1, x2, x3
    0x4031_10B3, // .insn r 0x33, 1, 0x20, x1, x2, x3
    0x4031_70B3, // .insn r 0x33, 7, 0x20, x1, x2, x3
    0x8031_50B3, // .insn r 0x33, 5, 0x40, x1, x2, x3
    0xFE31_00B3, // .insn r 0x33, 0, 0x7F, x1, x2, x3
    0x4231_50B3, // .insn r 0x33, 5, 0x21, x1, x2, x3
    0x0201_1093, // .insn r 0x13, 1, 1, x1, x2, x0
    0x4031_1093, // .insn r 0x13, 1, 0x20, x1, x2, x3
    0x0231_5093, // .insn r 0x13, 5, 1, x1, x2, x3
    0xC031_5093, // .insn r 0x13, 5, 0x60, x1, x2, x3
    0x2031_5093, // .insn r 0x13, 5, 0x10, x1, x2, x3
    0x0001_10E7, // .insn i 0x67, 1, x1, x2, 0
    0x0001_70E7, // .insn i 0x67, 7, x1, x2, 0
    0x0011_2063, // .insn s 0x63, 2, x1, 0(x2)
    0x0011_3063, // .insn s 0x63, 3, x1, 0(x2)
    0x0001_3083, // .insn i 0x03, 3, x1, x2, 0
    0x0001_6083, // .insn i 0x03, 6, x1, x2, 0
    0x0001_7083, // .insn i 0x03, 7, x1, x2, 0
    0x0011_3023, // .insn s 0x23, 3, x1, 0(x2)
    0x0011_4023, // .insn s 0x23, 4, x1, 0(x2)
    0x0011_7023, // .insn s 0x23, 7, x1, 0(x2)
    0x0000_100F, // .insn i 0x0F, 1, x0, x0, 0
    0x0000_200F, // .insn i 0x0F, 2, x0, x0, 0
    0x0000_00F3, // .insn i 0x73, 0, x1, x0, 0
    0x0000_8073, // .insn i 0x73, 0, x0, x1, 0
    0x0020_0073, // .insn i 0x73, 0, x0, x0, 2
    0x0000_4073, // .insn i 0x73, 4, x0, x0, 0
    0x0010_00F3, // .insn i 0x73, 0, x1, x0, 1
    0x0031_00BB, // .insn r 0x3B, 0, 0, x1, x2, x3
    0x0001_009B, // .insn i 0x1B, 0, x1, x2, 0
    0x0000_0001, // .word 0x00000001
    0x0000_0012, // .word 0x00000012
];

/// Immediates just outside formats U, I (and S), B and J, and of a shift; and a register that is none.
const UNFIT: &[Row] = &[
    Lui(1, 0x0000_0001),
    Lui(1, 0x0000_0800),
    Lui(1, 0xFFFF_FFFF),
    Auipc(1, 0x0000_0001),
    Auipc(1, 0x0000_0800),
    Auipc(1, 0xFFFF_FFFF),
    Jalr(1, 1, -2_049),
    Jalr(1, 1, 2_048),
    Jalr(1, 1, 4_095),
    OpImm(Addi, 1, 1, -2_049),
    OpImm(Addi, 1, 1, 2_048),
    OpImm(Addi, 1, 1, 4_095),
    OpImm(Srai, 1, 1, -1),
    OpImm(Srai, 1, 1, 32),
    Branch(Beq, 1, 1, -4_098),
    Branch(Beq, 1, 1, 4_096),
    Branch(Beq, 1, 1, 3),
    Jal(1, -1_048_578),
    Jal(1, 1_048_576),
    Jal(1, 1),
    Op(Add, 32, 1, 1),
];

/// The instruction of a row.
fn instr_of(row: Row) -> Instr {
    match row {
        Lui(rd, imm) => Instr::Lui { rd, imm },
        Auipc(rd, imm) => Instr::Auipc { rd, imm },
        Jal(rd, imm) => Instr::Jal { rd, imm },
        Jalr(rd, rs1, imm) => Instr::Jalr { rd, rs1, imm },
        Branch(op, rs1, rs2, imm) => Instr::Branch { op, rs1, rs2, imm },
        Load(op, rd, rs1, imm) => Instr::Load { op, rd, rs1, imm },
        Store(op, rs1, rs2, imm) => Instr::Store { op, rs1, rs2, imm },
        OpImm(op, rd, rs1, imm) => Instr::OpImm { op, rd, rs1, imm },
        Op(op, rd, rs1, rs2) => Instr::Op { op, rd, rs1, rs2 },
        Fence => Instr::Fence,
        Ecall => Instr::Ecall,
        Ebreak => Instr::Ebreak,
    }
}

/// What a word spells. What it is is not said, here and below, so that the tests are proved quickly.
fn spelled(word: u32) -> Option<Instr> {
    decode(word)
}

/// Whether a word spells an instruction, and is the word that is given for it.
fn is_word(word: u32, row: Row) -> bool {
    let instr = instr_of(row);
    fits(instr) && encode(instr) == word && spelled(word) == Some(instr)
}

fn is_unfit(row: Row) -> bool {
    !fits(instr_of(row))
}

#[test]
fn words_are_the_assemblers(rt: HostRuntime) {
    for (word, row) in WORDS {
        assert!(rt; is_word(*word, *row), "{word:x}");
    }
    for word in FENCES {
        assert!(rt; spelled(*word) == Some(Instr::Fence), "{word:x}");
    }
    for word in OUTSIDE {
        assert!(rt; spelled(*word) == None, "{word:x}");
    }
}

#[test]
fn what_no_word_spells_does_not_fit(rt: HostRuntime) {
    for (number, row) in UNFIT.iter().enumerate() {
        assert!(rt; is_unfit(*row), "row {number}");
    }
}
