//! Words and instructions: the decoder and the encoder of RV32I (RISC-V Unprivileged ISA, chapter 2).
//!
//! [`decode`] gives the instruction that a word spells, exactly by the table of the definitions, [`encode`] a word for
//! an instruction that [`fits`], and the two go together: what [`encode`] gives decodes to the instruction.
#![tactic(auto)]

mod decoder;
mod encoder;
mod fields;
mod formats;
mod laws;
mod numbers;
mod operations;
mod ranges;

pub use decoder::decode;
pub use encoder::encode;
pub use laws::one_word_law;
pub use ranges::fits;
pub use unix_model::{BranchOp, ImmOp, Instr, LoadOp, RegOp, StoreOp};
