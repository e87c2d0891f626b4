//! Reads an ELF file: the plan by which it is loaded, or why this machine doesn't run it. It takes no memory, and reads
//! the file header once and each program header once.
#![tactic(auto)]

mod file_bytes;
mod headers;
mod loads;
mod plan;

pub use file_bytes::{FileBytes, SliceBytes};
pub use plan::{ElfPlan, plan_law, read};
pub use unix_model::{ElfFault, Load};
