//! How far the counts of entries, opens and descriptors that the kernel's tables keep are off, after each change.
//!
//! Between turns none is off. Within one a name, an open description or a descriptor comes or goes in one call, and the count of
//! it is written in another one: each leaves a number behind that is to be raised or lowered, and both together cancel.
#![tactic(auto)]

mod files;
mod processes;
mod settled;
mod spaces;

pub use files::{
    counts_with_bytes, counts_with_description, counts_with_inode, counts_with_new_description,
    counts_with_new_inode, counts_without_description, counts_without_inode, name_added,
    name_changed, names_kept,
};
pub use processes::{
    counts_with_birth, counts_with_buffer, counts_with_descriptor, counts_with_end,
    counts_with_gone, counts_with_invocation, counts_with_numbers, counts_with_page,
    counts_with_process, counts_with_space_set, counts_with_state, counts_without_buffer,
    counts_without_page,
};
pub use settled::{counts_are_exact, counts_even, counts_settle, raised_and_lowered};
pub use spaces::{
    counts_with_loose, counts_with_memory, counts_with_space, counts_with_space_dropped,
};
