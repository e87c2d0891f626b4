//! The calls on open files of the plain machine: their effects at the server.
#![tactic(auto)]

mod console;
mod descriptors;
mod lengths;
mod listing;
mod offsets;
mod pipe_ends;
mod reads;
mod stored;
mod writes;

pub use console::ConsoleFault;
pub use descriptors::{close, dup, dup2, with_descriptor};
pub use lengths::ftruncate;
pub use listing::getdents;
pub use offsets::{fstat, lseek};
pub use pipe_ends::pipe;
pub use reads::read;
pub use writes::write;
