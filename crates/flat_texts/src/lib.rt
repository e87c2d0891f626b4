//! The texts that a system call brings to its server on the plain machine.
#![tactic(auto)]

mod split;

pub use split::split_texts;
