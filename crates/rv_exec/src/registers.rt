//! Registers and the address of the next instruction.

ghost use Rattle.std.specs.Prelude.{◌≡◌, ◌<◌};
ghost use Rattle.unix_model.specs.Execution.{register_word as register_of, with_register, at_next, next_pc as next_pc_of, address_of, jumps, writes, goes_on as goes_on_of};
ghost use Rattle.rv_exec.specs.Sound.{IsSound};

use unix_model::{Access, Cause, Outcome, Regs};

/// A register's word.
pub fn register(regs: &Regs, number: u8) -> u32
    requires { number < 32 }
    ensures { result ≡ register_of regs.now number }
{
    regs.x[number as usize]
}

/// Writes a register; x0 stays 0.
pub fn set_register(regs: &mut Regs, number: u8, word: u32)
    requires { number < 32 }
    ensures written { regs.new ≡ with_register regs.old number word }
    ensures sound { IsSound regs.old → IsSound regs.new }
{
    if number != 0 {
        regs.x[number as usize] = word;
    }
}

/// The sum of a register and an immediate.
pub fn address(regs: &Regs, number: u8, immediate: i32) -> u32
    requires { number < 32 }
    ensures { result ≡ address_of regs.now number immediate }
{
    register(regs, number).wrapping_add(immediate.cast_unsigned())
}

/// Goes on with the next instruction.
pub fn go_on(regs: &mut Regs) -> Access
    ensures begun { goes_on_of regs.old ≡ record { registers = regs.new; access = result } }
    ensures next { result ≡ Access.Finished Outcome.Next }
    ensures sound { IsSound regs.old → IsSound regs.new }
{
    regs.pc = regs.pc.wrapping_add(4);
    Access::Finished(Outcome::Next)
}

/// Writes a register, and goes on with the next instruction.
pub fn write(regs: &mut Regs, number: u8, word: u32) -> Access
    requires { number < 32 }
    ensures begun { writes regs.old number word ≡ record { registers = regs.new; access = result } }
    ensures next { result ≡ Access.Finished Outcome.Next }
    ensures sound { IsSound regs.old → IsSound regs.new }
{
    set_register(regs, number, word);
    go_on(regs)
}

/// Writes the address of the next instruction to a register, and goes on at the target, where it is a multiple of 4.
pub fn jump(regs: &mut Regs, number: u8, target: u32) -> Access
    requires { number < 32 }
    ensures begun { jumps regs.old number target ≡ record { registers = regs.new; access = result } }
    ensures sound { IsSound regs.old → IsSound regs.new }
{
    if target % 4 == 0 {
        let next = regs.pc.wrapping_add(4);
        set_register(regs, number, next);
        regs.pc = target;
        Access::Finished(Outcome::Next)
    } else {
        Access::Finished(Outcome::Fault(Cause::BadTarget))
    }
}
