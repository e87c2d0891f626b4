//! The mix of instructions, and its execution.

use rv_exec::{Access, Regs, begin, end_load, end_store};

/// A loop of sixteen instructions, as the GNU assembler gives them: five operations of two registers, three of an
/// immediate, two comparisons and shifts, loads and stores, LUI, a branch that isn't taken, and a jump back.
const MIX: [u32; 16] = [
    0x0012_8293, // addi t0, t0, 1
    0x0001_2303, // lw t1, 0(sp)
    0x0053_0333, // add t1, t1, t0
    0x0061_2223, // sw t1, 4(sp)
    0x0053_43B3, // xor t2, t1, t0
    0x0033_9E13, // slli t3, t2, 3
    0x402E_5E93, // srai t4, t3, 2
    0x005E_BF33, // sltu t5, t4, t0
    0x0011_4F83, // lbu t6, 1(sp)
    0x007F_F533, // and a0, t6, t2
    0x01C5_65B3, // or a1, a0, t3
    0x41D5_8633, // sub a2, a1, t4
    0x00C1_1423, // sh a2, 8(sp)
    0x1234_56B7, // lui a3, 0x12345
    0x0000_1463, // bne zero, zero, . + 8
    0xFC5F_F06F, // jal zero, . - 60
];

/// Executes the instruction at `pc`. Loads give the bytes of 0x8765_4321, and what is stored is lost.
fn step(regs: &mut Regs) {
    let word = MIX[(regs.pc / 4 % 16) as usize];
    match begin(regs, word) {
        Access::Load { size: 1, .. } => end_load(regs, word, 0x43),
        Access::Load { size: 2, .. } => end_load(regs, word, 0x4321),
        Access::Load { size: 4, .. } => end_load(regs, word, 0x8765_4321),
        Access::Load { .. } | Access::Finished(_) => {}
        Access::Store { .. } => end_store(regs),
    }
}

/// Executes so many instructions. The answer is `a2`.
pub fn run(count: u32) -> u32 {
    let mut regs = Regs {
        x: [0; 32],
        pc: 0x1_0000,
    };
    for _ in 0..count {
        step(&mut regs);
    }
    regs.x[12]
}
