//! The words of statements.

ghost use Rattle.std.specs.Prelude.{◌≡◌};
ghost use Rattle.rv_asm.specs.Mnemonics as model;

use unix_model::{BranchOp, ImmOp, LoadOp, RegOp, StoreOp};

/// The parts of a program.
#[derive(Clone, Copy)]
pub enum Part {
    /// Instructions. A source begins here.
    Text,
    /// Bytes.
    Data,
}

/// What a statement in the part of instructions says.
#[derive(Clone, Copy)]
pub enum Mnemonic {
    Lui,
    Auipc,
    Jal,
    Jalr,
    Branch(BranchOp),
    Load(LoadOp),
    Store(StoreOp),
    Imm(ImmOp),
    Reg(RegOp),
    Fence,
    Ecall,
    Ebreak,
    Li,
    La,
    Mv,
    Nop,
    J,
    Call,
    Ret,
    Beqz,
    Bnez,
}

/// What a statement in the part of bytes says.
#[derive(Clone, Copy)]
pub enum Directive {
    Word,
    Byte,
    Ascii,
    Space,
    Align,
}

/// The branch of a word.
#[tactic(auto, unfolding(crate::specs::Mnemonics::branch_named))]
fn branch_named(word: &[u8]) -> Option<BranchOp>
    ensures { result ≡ model.branch_named word.now }
{
    match word {
        b"beq" => Some(BranchOp::Beq),
        b"bne" => Some(BranchOp::Bne),
        b"blt" => Some(BranchOp::Blt),
        b"bge" => Some(BranchOp::Bge),
        b"bltu" => Some(BranchOp::Bltu),
        b"bgeu" => Some(BranchOp::Bgeu),
        _ => None,
    }
}

/// The load of a word.
#[tactic(auto, unfolding(crate::specs::Mnemonics::load_named))]
fn load_named(word: &[u8]) -> Option<LoadOp>
    ensures { result ≡ model.load_named word.now }
{
    match word {
        b"lb" => Some(LoadOp::Lb),
        b"lh" => Some(LoadOp::Lh),
        b"lw" => Some(LoadOp::Lw),
        b"lbu" => Some(LoadOp::Lbu),
        b"lhu" => Some(LoadOp::Lhu),
        _ => None,
    }
}

/// The store of a word.
#[tactic(auto, unfolding(crate::specs::Mnemonics::store_named))]
fn store_named(word: &[u8]) -> Option<StoreOp>
    ensures { result ≡ model.store_named word.now }
{
    match word {
        b"sb" => Some(StoreOp::Sb),
        b"sh" => Some(StoreOp::Sh),
        b"sw" => Some(StoreOp::Sw),
        _ => None,
    }
}

/// The operation of a register and an immediate of a word.
#[tactic(auto, unfolding(crate::specs::Mnemonics::imm_named))]
fn imm_named(word: &[u8]) -> Option<ImmOp>
    ensures { result ≡ model.imm_named word.now }
{
    match word {
        b"addi" => Some(ImmOp::Addi),
        b"slli" => Some(ImmOp::Slli),
        b"slti" => Some(ImmOp::Slti),
        b"sltiu" => Some(ImmOp::Sltiu),
        b"xori" => Some(ImmOp::Xori),
        b"srli" => Some(ImmOp::Srli),
        b"srai" => Some(ImmOp::Srai),
        b"ori" => Some(ImmOp::Ori),
        b"andi" => Some(ImmOp::Andi),
        _ => None,
    }
}

/// The operation of two registers of a word.
#[tactic(auto, unfolding(crate::specs::Mnemonics::reg_named))]
fn reg_named(word: &[u8]) -> Option<RegOp>
    ensures { result ≡ model.reg_named word.now }
{
    match word {
        b"add" => Some(RegOp::Add),
        b"sub" => Some(RegOp::Sub),
        b"sll" => Some(RegOp::Sll),
        b"slt" => Some(RegOp::Slt),
        b"sltu" => Some(RegOp::Sltu),
        b"xor" => Some(RegOp::Xor),
        b"srl" => Some(RegOp::Srl),
        b"sra" => Some(RegOp::Sra),
        b"or" => Some(RegOp::Or),
        b"and" => Some(RegOp::And),
        _ => None,
    }
}

/// The instructions that stand alone, and the short forms.
#[tactic(auto, unfolding(crate::specs::Mnemonics::other_named))]
fn other_named(word: &[u8]) -> Option<Mnemonic>
    ensures { result ≡ model.other_named word.now }
{
    match word {
        b"lui" => Some(Mnemonic::Lui),
        b"auipc" => Some(Mnemonic::Auipc),
        b"jal" => Some(Mnemonic::Jal),
        b"jalr" => Some(Mnemonic::Jalr),
        b"fence" => Some(Mnemonic::Fence),
        b"ecall" => Some(Mnemonic::Ecall),
        b"ebreak" => Some(Mnemonic::Ebreak),
        b"li" => Some(Mnemonic::Li),
        b"la" => Some(Mnemonic::La),
        b"mv" => Some(Mnemonic::Mv),
        b"nop" => Some(Mnemonic::Nop),
        b"j" => Some(Mnemonic::J),
        b"call" => Some(Mnemonic::Call),
        b"ret" => Some(Mnemonic::Ret),
        b"beqz" => Some(Mnemonic::Beqz),
        b"bnez" => Some(Mnemonic::Bnez),
        _ => None,
    }
}

/// What a word says in the part of instructions.
pub fn mnemonic_named(word: &[u8]) -> Option<Mnemonic>
    ensures { result ≡ model.mnemonic_named word.now }
{
    if let Some(op) = reg_named(word) {
        return Some(Mnemonic::Reg(op));
    }
    if let Some(op) = imm_named(word) {
        return Some(Mnemonic::Imm(op));
    }
    if let Some(op) = load_named(word) {
        return Some(Mnemonic::Load(op));
    }
    if let Some(op) = store_named(word) {
        return Some(Mnemonic::Store(op));
    }
    match branch_named(word) {
        Some(op) => Some(Mnemonic::Branch(op)),
        None => other_named(word),
    }
}

/// What a word says in the part of bytes.
#[tactic(auto, unfolding(crate::specs::Mnemonics::directive_named))]
pub fn directive_named(word: &[u8]) -> Option<Directive>
    ensures { result ≡ model.directive_named word.now }
{
    match word {
        b".word" => Some(Directive::Word),
        b".byte" => Some(Directive::Byte),
        b".ascii" => Some(Directive::Ascii),
        b".space" => Some(Directive::Space),
        b".align" => Some(Directive::Align),
        _ => None,
    }
}

/// The part that a word switches to.
#[tactic(auto, unfolding(crate::specs::Mnemonics::part_named))]
pub fn part_named(word: &[u8]) -> Option<Part>
    ensures { result ≡ model.part_named word.now }
{
    match word {
        b".text" => Some(Part::Text),
        b".data" => Some(Part::Data),
        _ => None,
    }
}
