//! One instruction.

ghost use Rattle.std.specs.Prelude.{◌≡◌, ℕ, ◌<◌, ◌≤◌, ◌^◌, ◌*◌, ℤ, Some, IfSome, option_map};
ghost use Rattle.unix_model.specs.declared.instructions.Access.TheVariants.{Finished};
ghost use Rattle.unix_model.specs.Execution.{executed, executed_instruction, begun, writes, jumps, branches, goes_on, imm_value as imm_value_of, reg_value as reg_value_of, is_taken as is_taken_of, load_value as load_value_of, load_size, store_size as store_size_of, store_value as store_value_of, loaded, stored, at_next, with_register, address_of};
ghost use Rattle.unix_model.specs.Memory.{bytes_at, with_bytes};
ghost use Rattle.unix_model.specs.Numbers.{word_of_bytes};
ghost use Rattle.std.specs.Int.{bytes_low_first};
ghost use Rattle.flat_memory.specs.Fields.{HasRegisters};
ghost use Rattle.flat_memory.specs.MemoryView.{memory_of};

use crate::decode::decode;
use crate::memory::Memory;
use unix_model::{BranchOp, Cause, ImmOp, Instr, LoadOp, Outcome, RegOp, Regs, StoreOp};

/// The value of two words.
fn reg_value(op: RegOp, x: u32, y: u32) -> u32
    ensures { result ≡ reg_value_of op x y }
{
    match op {
        RegOp::Add => x.wrapping_add(y),
        RegOp::Sub => x.wrapping_sub(y),
        RegOp::Sll => x << (y % 32),
        RegOp::Slt if x.cast_signed() < y.cast_signed() => 1,
        RegOp::Slt => 0,
        RegOp::Sltu if x < y => 1,
        RegOp::Sltu => 0,
        RegOp::Xor => x ^ y,
        RegOp::Srl => x >> (y % 32),
        RegOp::Sra => (x.cast_signed() >> (y % 32)).cast_unsigned(),
        RegOp::Or => x | y,
        RegOp::And => x & y,
    }
}

/// The value of a word and an immediate.
fn imm_value(op: ImmOp, word: u32, immediate: i32) -> u32
    ensures { result ≡ imm_value_of op word immediate }
{
    let op = match op {
        ImmOp::Addi => RegOp::Add,
        ImmOp::Slli => RegOp::Sll,
        ImmOp::Slti => RegOp::Slt,
        ImmOp::Sltiu => RegOp::Sltu,
        ImmOp::Xori => RegOp::Xor,
        ImmOp::Srli => RegOp::Srl,
        ImmOp::Srai => RegOp::Sra,
        ImmOp::Ori => RegOp::Or,
        ImmOp::Andi => RegOp::And,
    };
    reg_value(op, word, immediate.cast_unsigned())
}

/// Whether a branch is taken.
fn is_taken(op: BranchOp, x: u32, y: u32) -> bool
    ensures { result ≡ is_taken_of op x y }
{
    match op {
        BranchOp::Beq => x == y,
        BranchOp::Bne => x != y,
        BranchOp::Blt => x.cast_signed() < y.cast_signed(),
        BranchOp::Bge => y.cast_signed() <= x.cast_signed(),
        BranchOp::Bltu => x < y,
        BranchOp::Bgeu => y <= x,
    }
}

/// The word that a load gives, of the number that its bytes spell.
fn load_value(op: LoadOp, number: u32) -> u32
    requires { number < 2 ^ (8 * load_size op) }
    ensures { result ≡ load_value_of op number }
{
    match op {
        LoadOp::Lb if number >= 128 => number + 4294967040,
        LoadOp::Lh if number >= 32768 => number + 4294901760,
        _ => number,
    }
}

/// The bytes that a store writes, as a number.
fn store_value(op: StoreOp, word: u32) -> u32
    ensures { result ≡ store_value_of op word }
{
    match op {
        StoreOp::Sb => word % 256,
        StoreOp::Sh => word % 65536,
        StoreOp::Sw => word,
    }
}

/// A register gets a word, and the next instruction follows.
fn write(regs: &mut Regs, rd: u8, word: u32) -> Outcome
    requires { rd < 32 }
    ensures registers { regs.new ≡ at_next (with_register regs.old rd word) }
    ensures next { result ≡ Outcome.Next }
{
    if rd != 0 {
        regs.x[rd as usize] = word;
    }
    regs.pc = regs.pc.wrapping_add(4);
    Outcome::Next
}

/// A register gets the address of the next instruction, and the one at the target follows.
fn jump(regs: &mut Regs, rd: u8, target: u32) -> Outcome
    requires { rd < 32 }
    ensures { jumps regs.old rd target ≡ record { registers = regs.new; access = Finished result } }
{
    if target % 4 != 0 {
        return Outcome::Fault(Cause::BadTarget);
    }
    if rd != 0 {
        regs.x[rd as usize] = regs.pc.wrapping_add(4);
    }
    regs.pc = target;
    Outcome::Next
}

/// The next instruction follows, or the one at the target.
fn branch(regs: &mut Regs, taken: bool, target: u32) -> Outcome
    ensures { branches regs.old taken target ≡ record { registers = regs.new; access = Finished result } }
{
    if taken {
        jump(regs, 0, target)
    } else {
        regs.pc = regs.pc.wrapping_add(4);
        Outcome::Next
    }
}

/// The number that the bytes of a load spell, or None where one of them isn't mapped.
#[tactic(auto, using(unix_model::proofs::MemoryLaws::numbers))]
fn number(memory: &Memory, op: LoadOp, address: u32) -> Option<u32>
    ensures number { result ≡ option_map word_of_bytes (bytes_at (memory_of memory.now) address (load_size op)) }
    ensures range { IfSome result (λ number. number < 2 ^ (8 * load_size op)) }
{
    match op {
        LoadOp::Lb | LoadOp::Lbu => match memory.pages.byte(u64::from(address)) {
            Some(byte) => Some(u32::from(byte)),
            None => None,
        },
        LoadOp::Lh | LoadOp::Lhu => match memory.pages.half(address) {
            Some(half) => Some(u32::from(half)),
            None => None,
        },
        LoadOp::Lw => memory.pages.word(address),
    }
}

/// A load.
fn load(regs: &mut Regs, memory: &Memory, op: LoadOp, rd: u8, address: u32) -> Outcome
    requires { rd < 32 }
    ensures { (rs1 : ℕ) (imm : ℤ) → loaded regs.old (Some (Instr.Load op rd rs1 imm)) (memory_of memory.now) (bytes_at (memory_of memory.now) address (load_size op))
        ≡ record { registers = regs.new; memory = memory_of memory.now; outcome = result } }
{
    match number(memory, op, address) {
        Some(number) => write(regs, rd, load_value(op, number)),
        None => Outcome::Fault(Cause::BadLoad),
    }
}

/// How many bytes a store writes.
fn store_size(op: StoreOp) -> usize
    ensures size { result ≡ store_size_of op }
    ensures range { result ≤ 4 }
{
    match op {
        StoreOp::Sb => 1,
        StoreOp::Sh => 2,
        StoreOp::Sw => 4,
    }
}

/// Writes the low bytes of a word.
fn write_number(memory: &mut Memory, op: StoreOp, address: u32, word: u32)
    ensures { memory_of memory.new ≡ with_bytes (memory_of memory.old) address (bytes_low_first 0 (store_size_of op) (store_value_of op word)) }
{
    let bytes = store_value(op, word).to_le_bytes();
    match op {
        StoreOp::Sb => memory.write(address, &bytes[..1]),
        StoreOp::Sh => memory.write(address, &bytes[..2]),
        StoreOp::Sw => memory.write(address, &bytes),
    }
}

/// A store.
fn store(regs: &mut Regs, memory: &mut Memory, op: StoreOp, address: u32, word: u32) -> Outcome
    ensures { stored regs.old (memory_of memory.old) address (store_size_of op) (store_value_of op word)
        ≡ record { registers = regs.new; memory = memory_of memory.new; outcome = result } }
{
    if !memory.pages.all_writable(address, store_size(op)) {
        return Outcome::Fault(Cause::BadStore);
    }
    write_number(memory, op, address, word);
    regs.pc = regs.pc.wrapping_add(4);
    Outcome::Next
}

/// The address that is the sum of a register and an immediate.
fn address(regs: &Regs, rs1: u8, imm: i32) -> u32
    requires { rs1 < 32 }
    ensures { result ≡ address_of regs.now rs1 imm }
{
    regs.x[rs1 as usize].wrapping_add(imm.cast_unsigned())
}

/// Executes an instruction.
fn execute_instr(regs: &mut Regs, memory: &mut Memory, instr: Instr) -> Outcome
    requires { HasRegisters instr }
    ensures { executed_instruction regs.old (memory_of memory.old) (Some instr)
        ≡ record { registers = regs.new; memory = memory_of memory.new; outcome = result } }
{
    match instr {
        Instr::Lui { rd, imm } => write(regs, rd, imm),
        Instr::Auipc { rd, imm } => write(regs, rd, regs.pc.wrapping_add(imm)),
        Instr::Jal { rd, imm } => jump(regs, rd, regs.pc.wrapping_add(imm.cast_unsigned())),
        Instr::Jalr { rd, rs1, imm } => jump(regs, rd, address(regs, rs1, imm) / 2 * 2),
        Instr::Branch { op, rs1, rs2, imm } => {
            let taken = is_taken(op, regs.x[rs1 as usize], regs.x[rs2 as usize]);
            branch(regs, taken, regs.pc.wrapping_add(imm.cast_unsigned()))
        }
        Instr::Load { op, rd, rs1, imm } => load(regs, memory, op, rd, address(regs, rs1, imm)),
        Instr::Store { op, rs1, rs2, imm } => {
            store(
                regs,
                memory,
                op,
                address(regs, rs1, imm),
                regs.x[rs2 as usize],
            )
        }
        Instr::OpImm { op, rd, rs1, imm } => {
            let value = imm_value(op, regs.x[rs1 as usize], imm);
            write(regs, rd, value)
        }
        Instr::Op { op, rd, rs1, rs2 } => {
            let value = reg_value(op, regs.x[rs1 as usize], regs.x[rs2 as usize]);
            write(regs, rd, value)
        }
        Instr::Fence => {
            regs.pc = regs.pc.wrapping_add(4);
            Outcome::Next
        }
        Instr::Ecall => Outcome::Call,
        Instr::Ebreak => Outcome::Break,
    }
}

/// Executes the instruction at `pc`.
#[tactic(auto, unfolding(unix_model::specs::Execution::executed))]
pub fn execute(regs: &mut Regs, memory: &mut Memory) -> Outcome
    ensures { executed regs.old (memory_of memory.old) ≡ record { registers = regs.new; memory = memory_of memory.new; outcome = result } }
{
    let word = match memory.pages.word(regs.pc) {
        Some(word) => word,
        None => return Outcome::Fault(Cause::BadFetch),
    };
    match decode(word) {
        Some(instr) => execute_instr(regs, memory, instr),
        None => Outcome::Fault(Cause::Illegal),
    }
}
