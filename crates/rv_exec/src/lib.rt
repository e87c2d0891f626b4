//! Executing RV32I (RISC-V Unprivileged ISA, chapter 2), whatever the memory is.
//!
//! The caller fetches the word at `pc` and calls [`begin`]. Where that asks for bytes, the caller loads them and calls
//! [`end_load`], or stores them and calls [`end_store`]. Where memory refuses, the caller answers the fault itself, and
//! the registers are as before. [`step_law`] says that this is one instruction of the definitions.
#![tactic(auto)]

mod branches;
mod laws;
mod loads;
mod operations;
mod registers;
mod step;
mod stores;

pub use laws::step_law;
pub use step::{begin, end_load, end_store};
pub use unix_model::{Access, Cause, Outcome, Regs};
