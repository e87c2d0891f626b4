//! The parts of an instruction.

ghost use Rattle.std.specs.Prelude.{◌≡◌, Some};
ghost use Rattle.unix_model.specs.Execution.{begun, begun_by, branches, load_ended, store_ended};
ghost use Rattle.unix_model.specs.Instructions.{decoded};
ghost use Rattle.rv_decode.specs.Fits.{Fits};
ghost use Rattle.rv_exec.specs.Asked.{CanLoad, IsAccess, ChangesAtNext};
ghost use Rattle.rv_exec.specs.Sound.{IsSound};

use crate::branches::is_taken;
use crate::loads::{load_size, load_value};
use crate::operations::{imm_value, reg_value};
use crate::registers::{address, go_on, jump, register, set_register, write};
use crate::stores::{store_size, store_value};
use rv_decode::decode;
use unix_model::{Access, Cause, Instr, Outcome, Regs};

/// A branch.
fn branch(regs: &mut Regs, taken: bool, target: u32) -> Access
    ensures begun { branches regs.old taken target ≡ record { registers = regs.new; access = result } }
    ensures sound { IsSound regs.old → IsSound regs.new }
{
    if taken {
        jump(regs, 0, target)
    } else {
        go_on(regs)
    }
}

/// An instruction's own part, and what it then wants of memory.
fn begin_instr(regs: &mut Regs, instr: Instr) -> Access
    requires { Fits instr }
    ensures begun { begun regs.old instr ≡ record { registers = regs.new; access = result } }
    ensures access { IsAccess (Some instr) result }
    ensures changes { ChangesAtNext regs.old regs.new result }
    ensures sound { IsSound regs.old → IsSound regs.new }
{
    match instr {
        Instr::Lui { rd, imm } => write(regs, rd, imm),
        Instr::Auipc { rd, imm } => write(regs, rd, regs.pc.wrapping_add(imm)),
        Instr::Jal { rd, imm } => jump(regs, rd, regs.pc.wrapping_add(imm.cast_unsigned())),
        Instr::Jalr { rd, rs1, imm } => jump(regs, rd, address(regs, rs1, imm) / 2 * 2),
        Instr::Branch { op, rs1, rs2, imm } => {
            let taken = is_taken(op, register(regs, rs1), register(regs, rs2));
            branch(regs, taken, regs.pc.wrapping_add(imm.cast_unsigned()))
        }
        Instr::Load {
            op,
            rd: _,
            rs1,
            imm,
        } => Access::Load {
            at: address(regs, rs1, imm),
            size: load_size(op),
        },
        Instr::Store { op, rs1, rs2, imm } => Access::Store {
            at: address(regs, rs1, imm),
            size: store_size(op),
            value: store_value(op, register(regs, rs2)),
        },
        Instr::OpImm { op, rd, rs1, imm } => {
            let value = imm_value(op, register(regs, rs1), imm);
            write(regs, rd, value)
        }
        Instr::Op { op, rd, rs1, rs2 } => {
            let value = reg_value(op, register(regs, rs1), register(regs, rs2));
            write(regs, rd, value)
        }
        Instr::Fence => go_on(regs),
        Instr::Ecall => Access::Finished(Outcome::Call),
        Instr::Ebreak => Access::Finished(Outcome::Break),
    }
}

/// Begins the instruction that `word`, the word at `pc`, spells: all of it, unless it is a load or a store, of which
/// nothing is done but to say what it wants of memory. After a call, a breakpoint and a fault nothing has changed. The
/// faults are [`Cause::Illegal`] and [`Cause::BadTarget`] alone.
pub fn begin(regs: &mut Regs, word: u32) -> Access
    ensures begun { begun_by regs.old (decoded word) ≡ record { registers = regs.new; access = result } }
    ensures access { IsAccess (decoded word) result }
    ensures changes { ChangesAtNext regs.old regs.new result }
    ensures sound { IsSound regs.old → IsSound regs.new }
{
    match decode(word) {
        Some(instr) => begin_instr(regs, instr),
        None => Access::Finished(Outcome::Fault(Cause::Illegal)),
    }
}

/// Ends the load that `word` spells with the number that its bytes spell, the lowest first: the register gets it,
/// extended, and the next instruction follows.
pub fn end_load(regs: &mut Regs, word: u32, value: u32)
    requires { CanLoad (decoded word) value }
    ensures ended { regs.new ≡ load_ended regs.old (decoded word) value }
    ensures sound { IsSound regs.old → IsSound regs.new }
{
    match decode(word) {
        Some(Instr::Load { op, rd, .. }) => {
            set_register(regs, rd, load_value(op, value));
            go_on(regs);
        }
        _ => unreachable!(),
    }
}

/// Ends a store, once its bytes are written: the next instruction follows.
pub fn end_store(regs: &mut Regs)
    ensures ended { regs.new ≡ store_ended regs.old }
    ensures sound { IsSound regs.old → IsSound regs.new }
{
    go_on(regs);
}
