//! Laws over the definitions, each the contract of a function without a body.

ghost use Rattle.std.specs.Prelude.{◌≡◌, ℕ, ◌<◌, ◌^◌, List, Ok, Some, slice_get};
ghost use Rattle.rv_decode.specs.Fits.{IsSigned, IsUpper};
ghost use Rattle.unix_model.specs.Numbers.{plus_signed};
ghost use Rattle.unix_model.specs.declared.instructions.BranchOp.{BranchOp};
ghost use Rattle.unix_model.specs.declared.instructions.ImmOp.{ImmOp};
ghost use Rattle.unix_model.specs.declared.instructions.LoadOp.{LoadOp};
ghost use Rattle.unix_model.specs.declared.instructions.RegOp.{RegOp};
ghost use Rattle.unix_model.specs.declared.instructions.StoreOp.{StoreOp};
ghost use Rattle.unix_model.specs.Texts.{lines_of};
ghost use Rattle.rv_asm.specs.Files.{IsFile};
ghost use Rattle.rv_asm.specs.Layout.{place_of};
ghost use Rattle.rv_asm.specs.Lines.{parts_of};
ghost use Rattle.rv_asm.specs.Mnemonics as names;
ghost use Rattle.rv_asm.specs.Placement.{HoldsAt, position_of};
ghost use Rattle.rv_asm.specs.Programs.{Program, Scan, assembled, layout_of, scan_lines, start_scan};
ghost use Rattle.rv_asm.specs.Statements as model;

use crate::mnemonics::{Mnemonic, Part};
use rv_decode::one_word_law;

/// Each operation is named by its name.
pub fn names_law()
    ensures branches { (op : BranchOp) → names.branch_named (names.branch_name op) ≡ Some op }
    ensures loads { (op : LoadOp) → names.load_named (names.load_name op) ≡ Some op }
    ensures stores { (op : StoreOp) → names.store_named (names.store_name op) ≡ Some op }
    ensures imms { (op : ImmOp) → names.imm_named (names.imm_name op) ≡ Some op }
    ensures regs { (op : RegOp) → names.reg_named (names.reg_name op) ≡ Some op }
{}

/// The name of an operation says that operation and nothing else in `.text`.
pub fn mnemonics_law()
    ensures branches { (op : BranchOp) → names.mnemonic_named (names.branch_name op) ≡ Some (Mnemonic.Branch op) }
    ensures loads { (op : LoadOp) → names.mnemonic_named (names.load_name op) ≡ Some (Mnemonic.Load op) }
    ensures stores { (op : StoreOp) → names.mnemonic_named (names.store_name op) ≡ Some (Mnemonic.Store op) }
    ensures imms { (op : ImmOp) → names.mnemonic_named (names.imm_name op) ≡ Some (Mnemonic.Imm op) }
    ensures regs { (op : RegOp) → names.mnemonic_named (names.reg_name op) ≡ Some (Mnemonic.Reg op) }
{}

/// The two parts of a value are operands of `lui` and `addi`, and add up to it.
pub fn halves_law()
    ensures upper { (value : ℕ) → IsUpper (model.upper_part value) }
    ensures small { (value : ℕ) → model.upper_part value < 2 ^ 32 }
    ensures lower { (value : ℕ) → IsSigned 12 (model.lower_part value) }
    ensures sum { (value : ℕ) → value < 2 ^ 32
        → plus_signed (model.upper_part value) (model.lower_part value) ≡ value }
{}

/// A line's instructions stand in the file at the line's address, and each label stands where its line's statement does.
///
/// `words`: the word at each place of the text part decodes to the instruction that the line there makes, with the
/// distances to its labels from the address of that place. `labels`: the place of a label is that of the statement on its
/// line, or of what follows.
pub fn placed_law()
    ensures words { (source file : List ℕ) (scan : Scan) (program : Program) → scan_lines 1 start_scan (lines_of source) ≡ Ok scan
        → assembled source ≡ Ok program → IsFile program file → (n : ℕ) (line : List ℕ) → slice_get (lines_of source) n ≡ Some line
        → (position_of source n).part ≡ Part.Text → HoldsAt (layout_of scan) file (position_of source n) line }
    ensures labels { (source : List ℕ) (scan : Scan) → scan_lines 1 start_scan (lines_of source) ≡ Ok scan
        → (n : ℕ) (line name : List ℕ) → slice_get (lines_of source) n ≡ Some line → (parts_of line).label ≡ Some name
        → scan.labels name ≡ Some (place_of (position_of source n)) }
{}

/// A program has one file.
pub fn one_file_law()
    ensures { (program : Program) (first second : List ℕ) → IsFile program first → IsFile program second → first ≡ second }
{
    one_word_law();
}
