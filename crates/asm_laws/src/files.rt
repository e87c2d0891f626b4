//! What the loader says of the files that the assembler makes.

ghost use Rattle.std.specs.Prelude.{◌≡◌, ℕ, ◌*◌, List, length, Ok};
ghost use Rattle.asm_laws.specs.Plans.{plan_of_parts};
ghost use Rattle.rv_asm.specs.Files.{IsFile};
ghost use Rattle.rv_asm.specs.Programs.{Program, assembled};
ghost use Rattle.unix_model.specs.Elf.{plan_of};

/// Each file that the assembler makes is accepted by the loader, and its plan is that of the parts of its program: the text,
/// four bytes an instruction, and the data.
pub fn accepted_law()
    ensures accepted { (source : List ℕ) (program : Program) (file : List ℕ) → assembled source ≡ Ok program → IsFile program file
        → plan_of file ≡ Ok (plan_of_parts (4 * length program.instructions) (length program.bytes)) }
{}
