//! Instructions against qemu.
//!
//! A program of these instructions was assembled by GNU binutils 2.40 (`riscv64-unknown-elf-as -march=rv32i
//! -mabi=ilp32`, `ld -melf32lriscv --no-relax -Ttext=0x10000`) and run by `qemu-riscv32` 7.2; it set the registers,
//! executed the instruction, and wrote out what the registers then were. Jumps and branches have their targets eight
//! bytes on.

use rv_exec::{Access, Cause, Outcome, Regs, begin, end_load, end_store};

/// A word, a1, a2, and then a0.
const OPERATIONS: &[[u32; 4]] = &[
    // add
    [0x00C58533, 0x00000000, 0x00000000, 0x00000000],
    [0x00C58533, 0x00000001, 0xFFFFFFFF, 0x00000000],
    [0x00C58533, 0xFFFFFFFF, 0xFFFFFFFF, 0xFFFFFFFE],
    [0x00C58533, 0x7FFFFFFF, 0x00000001, 0x80000000],
    [0x00C58533, 0x80000000, 0x80000000, 0x00000000],
    [0x00C58533, 0x12345678, 0x9ABCDEF0, 0xACF13568],
    // sub
    [0x40C58533, 0x00000000, 0x00000000, 0x00000000],
    [0x40C58533, 0x00000000, 0x00000001, 0xFFFFFFFF],
    [0x40C58533, 0x00000001, 0xFFFFFFFF, 0x00000002],
    [0x40C58533, 0x80000000, 0x00000001, 0x7FFFFFFF],
    [0x40C58533, 0x7FFFFFFF, 0xFFFFFFFF, 0x80000000],
    [0x40C58533, 0x00000005, 0x00000005, 0x00000000],
    // sll
    [0x00C59533, 0x00000001, 0x00000000, 0x00000001],
    [0x00C59533, 0x00000001, 0x0000001F, 0x80000000],
    [0x00C59533, 0x00000001, 0x00000020, 0x00000001],
    [0x00C59533, 0xFFFFFFFF, 0x00000021, 0xFFFFFFFE],
    [0x00C59533, 0x80000000, 0x00000001, 0x00000000],
    [0x00C59533, 0x12345678, 0xFFFFFFE4, 0x23456780],
    // slt
    [0x00C5A533, 0x00000000, 0x00000000, 0x00000000],
    [0x00C5A533, 0xFFFFFFFF, 0x00000001, 0x00000001],
    [0x00C5A533, 0x00000001, 0xFFFFFFFF, 0x00000000],
    [0x00C5A533, 0x80000000, 0x7FFFFFFF, 0x00000001],
    [0x00C5A533, 0x7FFFFFFF, 0x80000000, 0x00000000],
    [0x00C5A533, 0x80000000, 0x80000000, 0x00000000],
    // sltu
    [0x00C5B533, 0x00000000, 0x00000000, 0x00000000],
    [0x00C5B533, 0xFFFFFFFF, 0x00000001, 0x00000000],
    [0x00C5B533, 0x00000001, 0xFFFFFFFF, 0x00000001],
    [0x00C5B533, 0x80000000, 0x7FFFFFFF, 0x00000000],
    [0x00C5B533, 0x7FFFFFFF, 0x80000000, 0x00000001],
    [0x00C5B533, 0x00000000, 0x00000001, 0x00000001],
    // xor
    [0x00C5C533, 0x00000000, 0x00000000, 0x00000000],
    [0x00C5C533, 0xFFFFFFFF, 0xFFFFFFFF, 0x00000000],
    [0x00C5C533, 0x80000000, 0x7FFFFFFF, 0xFFFFFFFF],
    [0x00C5C533, 0x0F0F0F0F, 0x33333333, 0x3C3C3C3C],
    // srl
    [0x00C5D533, 0xFFFFFFFF, 0x00000000, 0xFFFFFFFF],
    [0x00C5D533, 0xFFFFFFFF, 0x0000001F, 0x00000001],
    [0x00C5D533, 0xFFFFFFFF, 0x00000020, 0xFFFFFFFF],
    [0x00C5D533, 0x80000000, 0x00000001, 0x40000000],
    [0x00C5D533, 0x80000000, 0x0000001F, 0x00000001],
    [0x00C5D533, 0x87654321, 0xFFFFFFE4, 0x08765432],
    // sra
    [0x40C5D533, 0xFFFFFFFF, 0x00000000, 0xFFFFFFFF],
    [0x40C5D533, 0x80000000, 0x0000001F, 0xFFFFFFFF],
    [0x40C5D533, 0x80000000, 0x00000020, 0x80000000],
    [0x40C5D533, 0x80000000, 0x00000001, 0xC0000000],
    [0x40C5D533, 0x7FFFFFFF, 0x0000001F, 0x00000000],
    [0x40C5D533, 0x87654321, 0xFFFFFFE4, 0xF8765432],
    // or
    [0x00C5E533, 0x00000000, 0x00000000, 0x00000000],
    [0x00C5E533, 0xFFFFFFFF, 0x00000000, 0xFFFFFFFF],
    [0x00C5E533, 0x80000000, 0x7FFFFFFF, 0xFFFFFFFF],
    [0x00C5E533, 0x0F0F0F0F, 0x33333333, 0x3F3F3F3F],
    // and
    [0x00C5F533, 0x00000000, 0x00000000, 0x00000000],
    [0x00C5F533, 0xFFFFFFFF, 0xFFFFFFFF, 0xFFFFFFFF],
    [0x00C5F533, 0x80000000, 0x7FFFFFFF, 0x00000000],
    [0x00C5F533, 0x0F0F0F0F, 0x33333333, 0x03030303],
    // addi
    [0x00058513, 0x00000000, 0x00000000, 0x00000000],
    [0xFFF58513, 0x00000001, 0x00000000, 0x00000000],
    [0x80058513, 0x00000000, 0x00000000, 0xFFFFF800],
    [0x00158513, 0x7FFFFFFF, 0x00000000, 0x80000000],
    [0x00158513, 0xFFFFFFFF, 0x00000000, 0x00000000],
    [0x7FF58513, 0x00000000, 0x00000000, 0x000007FF],
    // slti
    [0x0005A513, 0x00000000, 0x00000000, 0x00000000],
    [0x0005A513, 0xFFFFFFFF, 0x00000000, 0x00000001],
    [0xFFF5A513, 0x00000000, 0x00000000, 0x00000000],
    [0x7FF5A513, 0x80000000, 0x00000000, 0x00000001],
    [0x8005A513, 0x7FFFFFFF, 0x00000000, 0x00000000],
    [0x8005A513, 0xFFFFF800, 0x00000000, 0x00000000],
    // sltiu
    [0x0005B513, 0x00000000, 0x00000000, 0x00000000],
    [0x0015B513, 0x00000000, 0x00000000, 0x00000001],
    [0xFFF5B513, 0xFFFFFFFF, 0x00000000, 0x00000000],
    [0xFFF5B513, 0x00000005, 0x00000000, 0x00000001],
    [0x8005B513, 0xFFFFF7FF, 0x00000000, 0x00000001],
    [0x7FF5B513, 0x80000000, 0x00000000, 0x00000000],
    // xori
    [0xFFF5C513, 0x00000000, 0x00000000, 0xFFFFFFFF],
    [0xFFF5C513, 0xFFFFFFFF, 0x00000000, 0x00000000],
    [0x8005C513, 0x12345678, 0x00000000, 0xEDCBAE78],
    [0x7FF5C513, 0x7FFFFFFF, 0x00000000, 0x7FFFF800],
    // ori
    [0x8005E513, 0x00000000, 0x00000000, 0xFFFFF800],
    [0x5555E513, 0x12345678, 0x00000000, 0x1234577D],
    [0xFFF5E513, 0x80000000, 0x00000000, 0xFFFFFFFF],
    // andi
    [0x8005F513, 0xFFFFFFFF, 0x00000000, 0xFFFFF800],
    [0x5555F513, 0x12345678, 0x00000000, 0x00000450],
    [0xFFF5F513, 0x80000000, 0x00000000, 0x80000000],
    // slli
    [0x00059513, 0x00000001, 0x00000000, 0x00000001],
    [0x01F59513, 0x00000001, 0x00000000, 0x80000000],
    [0x01F59513, 0xFFFFFFFF, 0x00000000, 0x80000000],
    [0x00459513, 0x12345678, 0x00000000, 0x23456780],
    // srli
    [0x0005D513, 0x80000000, 0x00000000, 0x80000000],
    [0x01F5D513, 0x80000000, 0x00000000, 0x00000001],
    [0x01F5D513, 0xFFFFFFFF, 0x00000000, 0x00000001],
    [0x0045D513, 0x87654321, 0x00000000, 0x08765432],
    // srai
    [0x4005D513, 0x80000000, 0x00000000, 0x80000000],
    [0x41F5D513, 0x80000000, 0x00000000, 0xFFFFFFFF],
    [0x41F5D513, 0x7FFFFFFF, 0x00000000, 0x00000000],
    [0x4045D513, 0x87654321, 0x00000000, 0xF8765432],
    // add
    [0x00B00533, 0x00000007, 0x00000000, 0x00000007],
    [0x00C58033, 0x00000003, 0x00000004, 0x00000000],
    // addi
    [0x00500513, 0x00000009, 0x00000009, 0x00000005],
    // lui
    [0x80000537, 0x00000000, 0x00000000, 0x80000000],
    [0x00001537, 0x00000000, 0x00000000, 0x00001000],
    [0xFFFFF537, 0x00000000, 0x00000000, 0xFFFFF000],
    // fence
    [0x0FF0000F, 0x00000001, 0x00000002, 0x00000000],
];

/// A word, a1, a2, and how far on the next instruction is.
const BRANCHES: &[[u32; 4]] = &[
    // beq
    [0x00C58463, 0x00000000, 0x00000000, 8],
    [0x00C58463, 0x00000000, 0x00000001, 4],
    [0x00C58463, 0xFFFFFFFF, 0xFFFFFFFF, 8],
    [0x00C58463, 0x80000000, 0x00000000, 4],
    // bne
    [0x00C59463, 0x00000000, 0x00000000, 4],
    [0x00C59463, 0x00000000, 0x00000001, 8],
    [0x00C59463, 0x80000000, 0x7FFFFFFF, 8],
    // blt
    [0x00C5C463, 0x00000000, 0x00000000, 4],
    [0x00C5C463, 0xFFFFFFFF, 0x00000000, 8],
    [0x00C5C463, 0x00000000, 0xFFFFFFFF, 4],
    [0x00C5C463, 0x80000000, 0x7FFFFFFF, 8],
    [0x00C5C463, 0x7FFFFFFF, 0x80000000, 4],
    // bge
    [0x00C5D463, 0x00000000, 0x00000000, 8],
    [0x00C5D463, 0xFFFFFFFF, 0x00000000, 4],
    [0x00C5D463, 0x00000000, 0xFFFFFFFF, 8],
    [0x00C5D463, 0x80000000, 0x7FFFFFFF, 4],
    [0x00C5D463, 0x7FFFFFFF, 0x80000000, 8],
    // bltu
    [0x00C5E463, 0x00000000, 0x00000000, 4],
    [0x00C5E463, 0xFFFFFFFF, 0x00000000, 4],
    [0x00C5E463, 0x00000000, 0xFFFFFFFF, 8],
    [0x00C5E463, 0x80000000, 0x7FFFFFFF, 4],
    [0x00C5E463, 0x7FFFFFFF, 0x80000000, 8],
    // bgeu
    [0x00C5F463, 0x00000000, 0x00000000, 8],
    [0x00C5F463, 0xFFFFFFFF, 0x00000000, 8],
    [0x00C5F463, 0x00000000, 0xFFFFFFFF, 4],
    [0x00C5F463, 0x80000000, 0x7FFFFFFF, 8],
    [0x00C5F463, 0x7FFFFFFF, 0x80000000, 4],
];

/// A word, its address, a1, and then a0, a1 and the next address.
const JUMPS: &[[u32; 6]] = &[
    // auipc
    [
        0x00000517, 0x00011678, 0x00000000, 0x00011678, 0x00000000, 0x0001167C,
    ],
    [
        0xFFFFF517, 0x000116B0, 0x00000000, 0x000106B0, 0x00000000, 0x000116B4,
    ],
    [
        0x80000517, 0x000116E8, 0x00000000, 0x800116E8, 0x00000000, 0x000116EC,
    ],
    // jal
    [
        0x0080056F, 0x00011D2C, 0x00000000, 0x00011D30, 0x00000000, 0x00011D34,
    ],
    [
        0x0080006F, 0x00011D64, 0x00000000, 0x00000000, 0x00000000, 0x00011D6C,
    ],
    // jalr
    [
        0x00058567, 0x00011DA0, 0x00011DA8, 0x00011DA4, 0x00011DA8, 0x00011DA8,
    ],
    [
        0x00158567, 0x00011DDC, 0x00011DE4, 0x00011DE0, 0x00011DE4, 0x00011DE4,
    ],
    [
        0xFFC58567, 0x00011E18, 0x00011E24, 0x00011E1C, 0x00011E24, 0x00011E20,
    ],
    [
        0x80058567, 0x00011E54, 0x0001265C, 0x00011E58, 0x0001265C, 0x00011E5C,
    ],
    [
        0x000585E7, 0x00011E90, 0x00011E98, 0x00000000, 0x00011E94, 0x00011E98,
    ],
    [
        0x001585E7, 0x00011ECC, 0x00011ED4, 0x00000000, 0x00011ED0, 0x00011ED4,
    ],
    [
        0x7FF58067, 0x00011F08, 0x00011711, 0x00000000, 0x00011711, 0x00011F10,
    ],
];

/// The word of a load at a1 + 1, how many bytes it reads, the number that they spell, and then a0.
const LOADS: &[[u32; 4]] = &[
    // lb
    [0x00158503, 1, 0x00000000, 0x00000000],
    [0x00158503, 1, 0x00000001, 0x00000001],
    [0x00158503, 1, 0x0000007F, 0x0000007F],
    [0x00158503, 1, 0x00000080, 0xFFFFFF80],
    [0x00158503, 1, 0x000000FF, 0xFFFFFFFF],
    // lbu
    [0x0015C503, 1, 0x00000000, 0x00000000],
    [0x0015C503, 1, 0x00000001, 0x00000001],
    [0x0015C503, 1, 0x0000007F, 0x0000007F],
    [0x0015C503, 1, 0x00000080, 0x00000080],
    [0x0015C503, 1, 0x000000FF, 0x000000FF],
    // lh
    [0x00159503, 2, 0x00000000, 0x00000000],
    [0x00159503, 2, 0x00000001, 0x00000001],
    [0x00159503, 2, 0x00007FFF, 0x00007FFF],
    [0x00159503, 2, 0x00008000, 0xFFFF8000],
    [0x00159503, 2, 0x0000FFFF, 0xFFFFFFFF],
    [0x00159503, 2, 0x00000080, 0x00000080],
    // lhu
    [0x0015D503, 2, 0x00000000, 0x00000000],
    [0x0015D503, 2, 0x00000001, 0x00000001],
    [0x0015D503, 2, 0x00007FFF, 0x00007FFF],
    [0x0015D503, 2, 0x00008000, 0x00008000],
    [0x0015D503, 2, 0x0000FFFF, 0x0000FFFF],
    [0x0015D503, 2, 0x00000080, 0x00000080],
    // lw
    [0x0015A503, 4, 0x00000000, 0x00000000],
    [0x0015A503, 4, 0x12345678, 0x12345678],
    [0x0015A503, 4, 0xFFFFFFFF, 0xFFFFFFFF],
    [0x0015A503, 4, 0x80000000, 0x80000000],
];

/// The word of a store at a1 - 3, a2, how many bytes it writes, and the number that four bytes there, 0 before, then
/// spell.
const STORES: &[[u32; 4]] = &[
    // sb
    [0xFEC58EA3, 0x00000000, 1, 0x00000000],
    [0xFEC58EA3, 0x12345678, 1, 0x00000078],
    [0xFEC58EA3, 0xFFFFFFFF, 1, 0x000000FF],
    [0xFEC58EA3, 0x00000080, 1, 0x00000080],
    [0xFEC58EA3, 0x00008000, 1, 0x00000000],
    // sh
    [0xFEC59EA3, 0x00000000, 2, 0x00000000],
    [0xFEC59EA3, 0x12345678, 2, 0x00005678],
    [0xFEC59EA3, 0xFFFFFFFF, 2, 0x0000FFFF],
    [0xFEC59EA3, 0x00000080, 2, 0x00000080],
    [0xFEC59EA3, 0x00008000, 2, 0x00008000],
    // sw
    [0xFEC5AEA3, 0x00000000, 4, 0x00000000],
    [0xFEC5AEA3, 0x12345678, 4, 0x12345678],
    [0xFEC5AEA3, 0xFFFFFFFF, 4, 0xFFFFFFFF],
    [0xFEC5AEA3, 0x00000080, 4, 0x00000080],
    [0xFEC5AEA3, 0x00008000, 4, 0x00008000],
];

/// A word that stops with a1 = 0x1_0009, or a branch that isn't taken there, its access and the next address.
const STOPS: &[(u32, Access, u32)] = &[
    // jal a0, . + 2, and jalr a0, 1(a1), which is to 0x1_000A
    (0x0020_056F, MISALIGNED, 0x1_0000),
    (0x0015_8567, MISALIGNED, 0x1_0000),
    // beq zero, zero, . + 2 is taken, beq zero, a1, . + 2 isn't
    (0x0000_0163, MISALIGNED, 0x1_0000),
    (0x00B0_0163, NEXT, 0x1_0004),
    // ecall, ebreak, and no instruction
    (0x0000_0073, Access::Finished(Outcome::Call), 0x1_0000),
    (0x0010_0073, Access::Finished(Outcome::Break), 0x1_0000),
    (
        0x0000_0000,
        Access::Finished(Outcome::Fault(Cause::Illegal)),
        0x1_0000,
    ),
];

const NEXT: Access = Access::Finished(Outcome::Next);

const MISALIGNED: Access = Access::Finished(Outcome::Fault(Cause::BadTarget));

/// Registers at an address, with a0, a1 and a2.
fn registers(pc: u32, [a0, a1, a2]: [u32; 3]) -> Regs {
    let mut regs = Regs { x: [0; 32], pc };
    regs.x[10] = a0;
    regs.x[11] = a1;
    regs.x[12] = a2;
    regs
}

/// Whether a word does this to registers, with what a load reads: the access that it asks for, and the registers after it.
/// Rows of all kinds are compared by this one function, so that the tests are proved quickly.
fn does(word: u32, mut regs: Regs, read: u32, access: Access, after: Regs) -> bool {
    let asked = begin(&mut regs, word);
    match asked {
        Access::Load { size: 1, .. } if read < 0x100 => end_load(&mut regs, word, read),
        Access::Load { size: 2, .. } if read < 0x1_0000 => end_load(&mut regs, word, read),
        Access::Load { size: 4, .. } => end_load(&mut regs, word, read),
        Access::Store { .. } => end_store(&mut regs),
        _ => {}
    }
    asked == access && regs == after
}

/// An operation gives its result in a0, and changes no other register.
fn operates([word, a1, a2, a0]: [u32; 4]) -> bool {
    let before = registers(0x1_0000, [0, a1, a2]);
    does(word, before, 0, NEXT, registers(0x1_0004, [a0, a1, a2]))
}

/// A branch changes no register.
fn branches([word, a1, a2, next]: [u32; 4]) -> bool {
    let before = registers(0x1_0000, [0, a1, a2]);
    let pc = u32::wrapping_add(0x1_0000, next);
    does(word, before, 0, NEXT, registers(pc, [0, a1, a2]))
}

/// A jump changes no other register.
fn jumps([word, pc, a1, a0, new_a1, next]: [u32; 6]) -> bool {
    let before = registers(pc, [0, a1, 0]);
    does(word, before, 0, NEXT, registers(next, [a0, new_a1, 0]))
}

/// A load asks for its bytes.
fn loads([word, size, number, a0]: [u32; 4]) -> bool {
    let before = registers(0x1_0000, [0, 0x2_0008, 0]);
    let access = Access::Load {
        at: 0x2_0009,
        size: size.min(4) as u8,
    };
    let after = registers(0x1_0004, [a0, 0x2_0008, 0]);
    does(word, before, number, access, after)
}

/// A store changes no register.
fn stores([word, a2, size, value]: [u32; 4]) -> bool {
    let before = registers(0x1_0000, [0, 0x2_0008, a2]);
    let access = Access::Store {
        at: 0x2_0005,
        size: size.min(4) as u8,
        value,
    };
    does(
        word,
        before,
        0,
        access,
        registers(0x1_0004, [0, 0x2_0008, a2]),
    )
}

/// What stops changes nothing.
fn stops(word: u32, access: Access, next: u32) -> bool {
    let before = registers(0x1_0000, [0, 0x1_0009, 0]);
    does(word, before, 0, access, registers(next, [0, 0x1_0009, 0]))
}

#[test]
fn instructions_are_those_of_qemu(rt: HostRuntime) {
    for row in OPERATIONS {
        assert!(rt; operates(*row), "{:x}", row[0]);
    }
    for row in BRANCHES {
        assert!(rt; branches(*row), "{:x}", row[0]);
    }
    for row in JUMPS {
        assert!(rt; jumps(*row), "{:x}", row[0]);
    }
    for row in LOADS {
        assert!(rt; loads(*row), "{:x}", row[0]);
    }
    for row in STORES {
        assert!(rt; stores(*row), "{:x}", row[0]);
    }
    for (word, access, next) in STOPS {
        assert!(rt; stops(*word, *access, *next), "{word:x}");
    }
}
