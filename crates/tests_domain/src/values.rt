//! Values of fields, of which each is told from the others.

ghost use Rattle.std.specs.Prelude.{◌≡◌, ◌%◌, ℕ};
ghost use Rattle.unix_model.specs.Execution.{register_word};
ghost use Rattle.unix_model.specs.Rules.{IsBreak};

use domain::Heads;
use unix_model::Regs;

/// Registers.
pub fn some_regs() -> Regs
    ensures zero { register_word result 0 ≡ 0 }
    ensures aligned { result.pc % 4 ≡ 0 }
{
    let mut x = [0; 32];
    for n in 0..32u32 {
        x[n as usize] = 0x0101_0000 + n;
    }
    x[0] = 0;
    Regs { x, pc: 0x8000_0004 }
}

/// Registers of zeros, and pc 8.
pub fn no_regs() -> Regs
    ensures zero { register_word result 0 ≡ 0 }
    ensures aligned { result.pc % 4 ≡ 0 }
{
    Regs { x: [0; 32], pc: 8 }
}

/// Heads with a word that a wait answers.
#[tactic(auto, unfolding(unix_model::specs::Limits::loads_end))]
pub fn some_heads(word: u32) -> Heads
    ensures { IsBreak result.break_start result.break_end }
{
    Heads {
        pid: 3,
        parent: 1,
        break_start: 0x2000,
        break_end: 0x2abc,
        word,
    }
}
