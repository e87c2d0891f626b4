//! Laws over the definitions, each the contract of a function without a body.

ghost use Rattle.std.specs.Prelude.{◌≡◌, ◌⊎◌, ℕ, Some, None};
ghost use Rattle.unix_model.specs.declared.instructions.Access.{Access};
ghost use Rattle.unix_model.specs.declared.instructions.Cause.TheVariants.{BadFetch};
ghost use Rattle.unix_model.specs.declared.instructions.Outcome.TheVariants.{Next};
ghost use Rattle.unix_model.specs.declared.instructions.Regs.{Regs};
ghost use Rattle.unix_model.specs.Execution.{executed, accessed, begun_by, faulted};
ghost use Rattle.unix_model.specs.Instructions.{decoded};
ghost use Rattle.unix_model.specs.Memory.{Memory, word_at};

/// One instruction: where the word at `pc` is mapped and its instruction begins so, its whole effect is what memory
/// gives to the access that it wants; where it isn't, the fault is BadFetch. Where the next instruction doesn't follow,
/// registers and memory are as before.
pub fn step_law()
    ensures step { (regs first : Regs) (memory : Memory) (word : ℕ) (access : Access)
        → word_at memory regs.pc ≡ Some word
        → begun_by regs (decoded word) ≡ record { registers = first; access = access }
        → executed regs memory ≡ accessed first (decoded word) memory access }
    ensures fetch { (regs : Regs) (memory : Memory) → word_at memory regs.pc ≡ None → executed regs memory ≡ faulted regs memory BadFetch }
    ensures stop { (regs : Regs) (memory : Memory)
        → ((executed regs memory).outcome ≡ Next)
        ⊎ (((executed regs memory).registers ≡ regs) × ((executed regs memory).memory ≡ memory)) }
{}
