//! The conditions of branches (RISC-V Unprivileged ISA, 2.5.2).

ghost use Rattle.std.specs.Prelude.{◌≡◌};
ghost use Rattle.unix_model.specs.Execution.{is_taken as is_taken_of};

use unix_model::BranchOp;

/// Whether a branch is taken.
pub fn is_taken(op: BranchOp, x: u32, y: u32) -> bool
    ensures { result ≡ is_taken_of op x y }
{
    match op {
        BranchOp::Beq => x == y,
        BranchOp::Bne => !(x == y),
        BranchOp::Blt => x.cast_signed() < y.cast_signed(),
        BranchOp::Bge => !(x.cast_signed() < y.cast_signed()),
        BranchOp::Bltu => x < y,
        BranchOp::Bgeu => !(x < y),
    }
}
