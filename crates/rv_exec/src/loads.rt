//! Sizes and values of loads (RISC-V Unprivileged ISA, 2.6).

ghost use Rattle.std.specs.Prelude.{◌≡◌, ◌*◌, ◌^◌, ◌<◌};
ghost use Rattle.unix_model.specs.Execution.{load_size as load_size_of, load_value as load_value_of};
ghost use Rattle.rv_exec.specs.Asked.{IsSize};

use unix_model::LoadOp;

/// How many bytes a load reads.
pub fn load_size(op: LoadOp) -> u8
    ensures size { result ≡ load_size_of op }
    ensures range { IsSize result }
{
    match op {
        LoadOp::Lb => 1,
        LoadOp::Lh => 2,
        LoadOp::Lw => 4,
        LoadOp::Lbu => 1,
        LoadOp::Lhu => 2,
    }
}

/// The word that a load gives, of the number that its bytes spell.
pub fn load_value(op: LoadOp, number: u32) -> u32
    requires { number < 2 ^ (8 * load_size_of op) }
    ensures { result ≡ load_value_of op number }
{
    match op {
        LoadOp::Lb => {
            if number < 0x80 {
                number
            } else {
                number + 0xFFFF_FF00
            }
        }
        LoadOp::Lh => {
            if number < 0x8000 {
                number
            } else {
                number + 0xFFFF_0000
            }
        }
        LoadOp::Lw | LoadOp::Lbu | LoadOp::Lhu => number,
    }
}
