//! The console: a read takes a line of its input, and a write puts all bytes to its output.
#![tactic(auto)]

mod lines;
mod output;

pub use kn_io::{ReadFault, WriteFault};
pub use lines::read_line;
pub use output::write_bytes;
