//! Laws over the table, each the contract of a function without a body.

ghost use Rattle.std.specs.Prelude.{◌≡◌, ◌≢◌, ℕ, ◌<◌, ◌^◌, Some};
ghost use Rattle.unix_model.specs.declared.instructions.Instr.{Instr};
ghost use Rattle.unix_model.specs.Instructions.{decoded};

/// One word spells an instruction: two words that decode to the same instruction are equal, but for FENCE.
pub fn one_word_law()
    ensures { (first second : ℕ) (instr : Instr) → first < 2 ^ 32 → second < 2 ^ 32
        → decoded first ≡ Some instr → decoded second ≡ Some instr → instr ≢ Instr.Fence → first ≡ second }
{}
