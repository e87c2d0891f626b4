//! Laws of the assembler and the loader together.
//!
//! Each law is the contract of a function without parameters, whose body does nothing: its statement cites the definitions of
//! both crates, its proof stands in `proofs/`.
#![tactic(auto)]

mod files;

pub use files::accepted_law;
